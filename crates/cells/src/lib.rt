// Cells, three-valued truth and comparison: what a query is worked out with.
#![tactic(auto)]

pub mod cell;
pub mod sign;
pub mod truth;
