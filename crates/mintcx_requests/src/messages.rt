//! What is said of words that are no request.

use crate::requests::Fault;
use mintc_text::Name;
use std::error::Error;
use std::fmt;

/// A name as text.
fn shown(name: &Name) -> &str {
    match std::str::from_utf8(name.bytes()) {
        Ok(text) => text,
        Err(_) => "?",
    }
}

/// What is said of a fault without a field.
fn plain_text(fault: &Fault) -> &'static str {
    match fault {
        Fault::NoSubject => "the command needs a file",
        Fault::CertificateOfCycle => {
            "'--certificate' goes without '--cycle': a certificate is of the least cycle time"
        }
        Fault::CertificateAndCycle => {
            "a schedule is of a certificate or of '--cycle', not of both"
        }
        Fault::FileAndSlack => "'--slack' goes without a file",
        Fault::NoDesign => {
            "no design is named: name one table or four files, by options or in mintc.toml"
        }
        Fault::TableAndFiles => "a table stands in place of the four files, and both are named",
        Fault::TableOfCorners => "corners are of four files, and a table is named",
        Fault::EdgesOfCorners => {
            "'--edges apart' is of one delay file; give '--edges merged' for corners"
        }
        Fault::EdgesOfTable => {
            "'--edges apart' is of four files, and a table is named: its edges are as they are"
        }
        Fault::CellsAndLibrary => "the cells are of '--cells' or of '--lib', and both are named",
        Fault::ClockCellsWithoutLibrary => {
            "'--clock-cell' names a gate of a library, and goes with '--lib' alone"
        }
        Fault::NoNetlist => "the netlist isn't named ('--netlist')",
        Fault::NoDelays => "the delays aren't named ('--sdf')",
        Fault::NoCells => "the cells aren't named ('--cells' or '--lib')",
        Fault::NoClock => "the clock isn't named ('--clock')",
        _ => "the words are no request",
    }
}

impl fmt::Display for Fault {
    fn fmt<W: fmt::Write>(&self, f: &mut fmt::Formatter<W>) -> fmt::Result {
        match self {
            Fault::Cycle(text) => {
                let text = shown(text);
                write!(
                    f,
                    "'{text}' is no cycle time: a number and fs, ps or ns, whole femtoseconds from 1 fs to 1 us"
                )
            }
            Fault::Limit(text) => {
                let text = shown(text);
                write!(f, "'{text}' is no limit: a number up to 1000000000, or all")
            }
            Fault::TooManyDelays { count } => {
                write!(
                    f,
                    "{count} delay files are named, and this command takes one"
                )
            }
            Fault::CornerCount { count } => {
                write!(f, "corners take two to four delay files, not {count}")
            }
            fault => f.write_str(plain_text(fault)),
        }
    }
}

impl Error for Fault {}
