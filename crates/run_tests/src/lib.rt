// Queries asked and flat plans run over kits and shipments: rows, every cell, and the exact need of cells. All expected values are worked out by hand.
#![tactic(auto)]

#[cfg(test)]
mod asked;
#[cfg(test)]
mod kinds;
#[cfg(test)]
mod limits;
#[cfg(test)]
mod outcomes;
