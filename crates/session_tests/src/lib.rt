// Sessions over kits and shipments, call by call. Expected answers are worked out by hand.
#![tactic(auto)]

#[cfg(test)]
mod calls;
#[cfg(test)]
mod outcomes;
#[cfg(test)]
mod piles;
