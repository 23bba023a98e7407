//! Tests of the messages of refusals, of what no clause says: which word is found, and the texts to the byte.
#![tactic(auto)]

#[cfg(test)]
mod clocks;
#[cfg(test)]
mod finders;
#[cfg(test)]
mod places;
#[cfg(test)]
mod refusals;
#[cfg(test)]
mod smallest;
#[cfg(test)]
mod told;
