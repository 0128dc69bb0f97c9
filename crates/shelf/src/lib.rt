// Lent cells as a stock.
#![tactic(auto)]

pub mod check;
pub mod questions;
pub mod shelf;
