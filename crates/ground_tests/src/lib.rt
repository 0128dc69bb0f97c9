// What cells, truth values and stocks answer on examples and at every edge.
#![tactic(auto)]

#[cfg(test)]
mod moves;
#[cfg(test)]
mod outcomes;
#[cfg(test)]
mod shelves;
#[cfg(test)]
mod truths;
