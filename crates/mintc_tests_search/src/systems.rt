//! Systems of tables.
use mintc_order::order;
use mintc_paths::extremes;
use mintc_text::{Limits, Stop};
use mintc_timing::{Flat, System};
use mintc_timing_text::read_table;
use std::alloc::Global;
use std::process::Abort;

/// The design of a table's text.
pub(crate) fn design_of_text(rt: &impl Abort, alloc: Global, text: &str) -> Result<Flat, Stop> {
    assert!(rt; text.len() < 100_000);
    read_table(alloc, &Limits::usual(), text.as_bytes())
}

/// The system of a design.
fn system_of_design(alloc: Global, flat: Flat) -> Result<System, Stop> {
    let order = order(alloc, &flat)?;
    let pairs = extremes(alloc, &Limits::usual(), &flat, &order)?;
    Ok(System::new(flat, order, pairs))
}

/// The system of a table's text, or what stops it.
pub(crate) fn system_of_text(rt: &impl Abort, alloc: Global, text: &str) -> Result<System, Stop> {
    system_of_design(alloc, design_of_text(rt, alloc, text)?)
}

/// The system of a table's text, where it is not refused.
pub(crate) fn system_of(rt: &impl Abort, alloc: Global, text: &str) -> Option<System> {
    system_of_text(rt, alloc, text).ok()
}
