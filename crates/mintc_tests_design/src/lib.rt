//! Tests of what makes a design (layer 5), of what no clause says. Each module has the name of the crate whose
//! public calls it tries, without `mintc_`: the hierarchy of a netlist, the delays of its arcs, systems of tables
//! and designs of files, and samples; `edges` tries those of mintcx_edges. What the files of a netlist are refused for
//! is tried by mintc_tests_run, `refusals` and `limits`; here, by `flatten`, numbers 3 to 9.
#![tactic(auto)]

#[cfg(test)]
mod annotate;
#[cfg(test)]
mod build;
#[cfg(test)]
mod edges;
#[cfg(test)]
mod flatten;
#[cfg(test)]
mod sample;
