// A session over any stock, and the reference model that it is held to over every past.
#![tactic(auto)]

pub mod calls;
pub mod examples;
pub mod replay;
pub mod session;
