// The lines of a query or a flat plan, and what they mean.
#![tactic(auto)]

pub mod examples;
pub mod laws;
pub mod line;
pub mod shapes;
pub mod words;
