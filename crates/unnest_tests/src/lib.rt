// Queries unnested and written out line by line. The expected lines were worked out by hand from the rules.
#![tactic(auto)]

#[cfg(test)]
mod contexts;
#[cfg(test)]
mod deepest;
#[cfg(test)]
mod examples;
#[cfg(test)]
mod outcomes;
#[cfg(test)]
mod quantified;
