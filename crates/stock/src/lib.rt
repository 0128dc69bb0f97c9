// Stocks of tables behind one set of questions, and the refusals of the whole engine.
#![tactic(auto)]

pub mod lent;
pub mod limits;
pub mod pair;
pub mod refusal;
pub mod ruler;
pub mod stock;
