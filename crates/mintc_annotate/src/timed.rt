//! Hierarchies with the delays of their parts.
use mintc_annotate_delays::Ranges;
use mintc_cells::Cells;
use mintc_flatten_hierarchy::Hierarchy;

/// A hierarchy with its cells and what delays say of their parts.
#[derive(Clone, Copy)]
pub(crate) struct Timed<'a> {
    pub(crate) hierarchy: &'a Hierarchy,
    pub(crate) cells: &'a Cells,
    pub(crate) ranges: &'a Ranges,
}
