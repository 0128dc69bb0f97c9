// Queries and flat plans worked out over lent cells.
#![tactic(auto)]

mod apply;
pub mod ask;
pub mod examples;
pub mod form;
mod operate;
mod overrun;
mod read;
pub mod run;
mod settle;
mod stack;
