//! Tests of `run` and of what it writes (layer 7), over a shelf and a sink in memory. No clause says that memory is
//! there: each run here has enough of it, so a run that always answers a want of memory fails each test. `rows` has
//! the worked rows, `refusals` a test for each number of docs/refusals.md, `limits` number 17, `large` runs within the
//! large limits, `netlists` what is accepted, `faults` reads and writes that fail, `samples` runs on samples, and
//! `report` the lines of mintc_report.
#![tactic(auto)]

#[cfg(test)]
mod faults;
#[cfg(test)]
mod files;
#[cfg(test)]
mod harness;
#[cfg(test)]
mod large;
#[cfg(test)]
mod limits;
#[cfg(test)]
mod netlists;
#[cfg(test)]
mod refusals;
#[cfg(test)]
mod report;
#[cfg(test)]
mod rows;
#[cfg(test)]
mod samples;
