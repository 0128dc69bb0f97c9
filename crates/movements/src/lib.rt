// Rows added to and withdrawn from any stock, in a layer over it that is itself a stock.
#![tactic(auto)]

pub mod bounded;
pub mod calls;
pub mod moved;
pub mod movements;
pub mod rows;
