//! Tests of `run` of mintcx, over a shelf, two sinks and a folder in memory: of what no clause says, which are the
//! messages and that memory is there.
#![tactic(auto)]

#[cfg(test)]
mod certificates;
#[cfg(test)]
mod folder;
#[cfg(test)]
mod forms;
#[cfg(test)]
mod rings;
#[cfg(test)]
mod rows;
#[cfg(test)]
mod runs;
