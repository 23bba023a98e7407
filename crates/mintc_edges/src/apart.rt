//! Hierarchies with their senses and with all that delays say.
use crate::told::Told;
use mintc_cells::Cells;
use mintc_flatten_hierarchy::Hierarchy;
use mintc_senses::Senses;

/// A hierarchy with its cells, their senses, and what delays say of their parts.
#[derive(Clone, Copy)]
pub(crate) struct Apart<'a> {
    pub(crate) hierarchy: &'a Hierarchy,
    pub(crate) cells: &'a Cells,
    pub(crate) senses: &'a Senses,
    pub(crate) told: &'a Told,
}
