//! What instances are of.
ghost use Rattle.std.specs.Prelude.{◌≡◌, ◌<◌, ◌^◌, ◌++◌, ◌∷◌, [], cond, length, slice_index, position, bytes_eq};
ghost use Rattle.std.specs.Prelude.{option_map, IfOk, OnOk};
ghost use Rattle.mintc_text_names.specs.Names.{is_among, with_name};
ghost use Rattle.mintc_flatten_binding.specs.Named.{IsIndex};

use mintc_flatten_hierarchy::Binding;
use mintc_netlist::Module;
use mintc_text::{Items, OutOfMemory};
use mintc_text_names::NameSet;
use std::alloc::Global;

/// Targets, seen as their list.
pub type BindingList = Items<Binding>;

/// The modules of a netlist by name.
#[derive(Drop)]
pub(crate) struct ModuleIndex {
    names: NameSet,
    numbers: Vec<u32>,
}

impl ModuleIndex {
    /// These modules.
    pub(crate) fn new(alloc: Global, modules: &[Module]) -> Result<ModuleIndex, OutOfMemory>
        requires { length modules.now < 2 ^ 32 }
        ensures { IfOk result (λ index. IsIndex index.names index.numbers.items modules.now) }
    {
        let mut names = NameSet::new(alloc);
        let mut numbers = Vec::new(alloc);
        for (number, module) in modules.iter().enumerate() {
            note(
                alloc,
                &mut names,
                &mut numbers,
                module.name.bytes(),
                number as u32,
            )?;
        }
        Ok(ModuleIndex { names, numbers })
    }

    /// The number of the first module of a name.
    pub(crate) fn find(&self, name: &[u8]) -> Option<u32>
        requires { length self.now.numbers.items ≡ length self.now.names }
        ensures { result ≡ option_map (slice_index self.now.numbers.items)
            (position (bytes_eq name.now) self.now.names) }
    {
        match self.names.find(name) {
            Some(place) => Some(self.numbers[place]),
            None => None,
        }
    }
}

/// Takes in a name with its number, where it isn't there.
fn note(
    alloc: Global,
    names: &mut NameSet,
    numbers: &mut Vec<u32>,
    name: &[u8],
    number: u32,
) -> Result<(), OutOfMemory>
    ensures names { OnOk result (names.new ≡ with_name names.old name.now) }
    ensures numbers { OnOk result
        (numbers.new.items ≡ cond (is_among name.now names.old) numbers.old.items (numbers.old.items ++ number ∷ [])) }
{
    if names.add(alloc, name)? {
        numbers.push(number)?;
    }
    Ok(())
}
