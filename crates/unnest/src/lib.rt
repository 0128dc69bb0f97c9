// From an accepted query to a flat plan: no Apply is left, and the rows are the same.
#![tactic(auto)]

mod context;
mod emit;
mod join;
mod kinds;
mod laying;
pub mod plan;
mod room;
mod unnesting;
