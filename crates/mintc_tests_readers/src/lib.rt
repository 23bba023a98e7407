//! Tests of the texts that are read (layers 1, 2 and 4), of what no clause says. Each module has the name of the
//! crate whose public calls it tries, without `mintc_`: decimals; files, names, numerals and lines of mintc_text;
//! tables and schedules; tokens and statements of Verilog; delays; descriptions of cells and of the clock; Liberty
//! texts, and their form in TOML.
#![tactic(auto)]

#[cfg(test)]
mod cell_texts;
#[cfg(test)]
mod cells;
#[cfg(test)]
mod clock;
#[cfg(test)]
mod decimal;
#[cfg(test)]
mod liberty;
#[cfg(test)]
mod liberty2toml_runs;
#[cfg(test)]
mod sdf;
#[cfg(test)]
mod text;
#[cfg(test)]
mod timing_text;
#[cfg(test)]
mod verilog;
#[cfg(test)]
mod vlex;
