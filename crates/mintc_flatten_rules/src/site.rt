//! Where statements are judged.
use mintc_flatten_binding::{ModuleNets, Source};

/// A netlist, and one of its modules with the table of its nets.
#[derive(Clone, Copy)]
pub(crate) struct Site<'a> {
    pub(crate) source: Source<'a>,
    pub(crate) module_nets: ModuleNets<'a>,
}
