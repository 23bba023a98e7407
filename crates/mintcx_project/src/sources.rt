//! The parts of a design.

use crate::edges::Edges;
use mintc_text::{Name, Names};

/// The parts of a design that options or a project file name.
#[derive(Debug, Drop)]
pub struct Sources {
    pub netlist: Option<Name>,
    pub delays: Names,
    pub cells: Option<Name>,
    pub library: Option<Name>,
    pub clock_cells: Names,
    pub clock: Option<Name>,
    pub table: Option<Name>,
    /// What is said of the edges, where it is.
    pub edges: Option<Edges>,
}
