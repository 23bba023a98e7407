//! The worked designs that tests of several crates share, as texts: tables with a schedule and a certificate, and
//! the files of a netlist; and shelves in memory that hold such texts. Times are in femtoseconds, but for the
//! delays of the netlist, which its text gives in picoseconds.
#![tactic(auto)]

mod files;
mod shelves;
mod tables;

pub use files::{
    DEFINING_LIBRARY, TWO_CELLS, TWO_CLOCK, TWO_DELAYS, TWO_LIBRARY, TWO_NETLIST, UNUSABLE_LIBRARY,
};
pub use shelves::{Held, hold, shelf_of, words_of};
pub use tables::{
    CLOSED_INNER, GREATEST_SUM, HELD, HELD_TOO_LONG, HOPELESS, OWN_LOOP, SUM_PAST_LIMIT,
    TWO_CERTIFICATE, TWO_ENABLED, TWO_FLOPS, TWO_LATCHES, TWO_SCHEDULE, TWO_THROUGH_INNER,
};
