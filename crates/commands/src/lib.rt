// The words of the console: commands, lines of a query and cells, read from bytes.
#![tactic(auto)]

pub mod command;
mod kinds;
mod numbers;
pub mod words;
