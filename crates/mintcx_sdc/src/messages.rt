//! What is said of an obstacle.

use crate::obstacles::{Obstacle, Window};
use std::error::Error;
use std::fmt;

/// What is said of a name with a byte that Tcl reads otherwise.
fn put_special<W: fmt::Write>(f: &mut fmt::Formatter<W>, what: &str, number: usize) -> fmt::Result {
    write!(
        f,
        "{what} {number} has a byte of `*?\\{{}}`, which Tcl reads otherwise"
    )
}

impl fmt::Display for Obstacle {
    fn fmt<W: fmt::Write>(&self, f: &mut fmt::Formatter<W>) -> fmt::Result {
        match *self {
            Obstacle::Denominator { den } => write!(
                f,
                "its times are over the denominator {den}; `mintcx schedule --cycle` gives whole femtoseconds"
            ),
            Obstacle::NoCycle => write!(f, "its cycle time is 0"),
            Obstacle::PhaseName { phase } => put_special(f, "the name of phase", phase),
            Obstacle::PhasePort { phase } => put_special(f, "the port of phase", phase),
            Obstacle::Start { phase, late } => {
                write!(f, "phase {phase} starts {late} fs after the cycle ends")
            }
            Obstacle::Width { phase, over } => {
                write!(f, "phase {phase} is {over} fs wider than the cycle")
            }
            Obstacle::Levels {
                high,
                low,
                late: _,
                high_window: Window { from, to },
                low_window: Window {
                    from: start,
                    to: end,
                },
            } => write!(
                f,
                "phases {high} and {low} are on the levels of one port, and aren't each other's complement: \
                 phase {high} is from {from} to {to} fs, and phase {low} from {start} to {end} fs"
            ),
            Obstacle::Input { number } => put_special(f, "listed input", number),
            Obstacle::Output { number } => put_special(f, "listed output", number),
        }
    }
}

impl Error for Obstacle {}
