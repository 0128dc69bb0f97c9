// The check of a query, and the queries that have passed it.
#![tactic(auto)]

mod accept;
mod check;
mod contexts;
mod draft;
mod fits;
mod marks;
pub mod query;
mod reads;
mod sums;
mod widths;
