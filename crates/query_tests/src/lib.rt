// The check of queries at every edge. All are checked against two tables of one column each.
#![tactic(auto)]

#[cfg(test)]
mod columns;
#[cfg(test)]
mod fits;
#[cfg(test)]
mod orders;
#[cfg(test)]
mod outcomes;
#[cfg(test)]
mod reads;
#[cfg(test)]
mod sums;
