//! What the walk goes through.
ghost use Rattle.std.specs.Prelude.{◌≡◌, map};
ghost use Rattle.mintc_flatten_hierarchy.specs.Sources.{bindings_in};
ghost use Rattle.mintc_flatten_binding.specs.NetsOfModules.{source_in};

use mintc_flatten_binding::{BindingList, Source};

/// A netlist that is walked through, with what each instance of each module is of.
#[derive(Clone, Copy)]
pub(crate) struct Plan<'a> {
    pub(crate) source: Source<'a>,
    pub(crate) bindings: &'a [BindingList],
    ghost are_of: { bindings.now ≡ map (bindings_in (source_in source)) source.modules.now },
}
