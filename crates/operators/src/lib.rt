// The operators of lines over lent cells: each reads its operands' rows where they lie and lays its result's rows behind them.
// It gives how many rows it laid, or None where the cells run out. The cells and the place to lay at stay two parameters: the cells are lent for a whole call,
// in which the place moves on with each row.
// An operator with a loop in a loop, and Select, is never inlined: in one function with all the others its inner loop kept what it counts in memory,
// and a run took half as long again.
#![tactic(auto)]

pub mod conditions;
pub mod filters;
pub mod folds;
pub mod moves;
pub mod pairs;
pub mod region;
pub mod reshapes;
pub mod sources;
pub mod tables;
mod turns;
