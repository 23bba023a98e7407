//! What each instance of a netlist is of.
ghost use Rattle.std.specs.Prelude.{◌≡◌, ◌<◌, ◌^◌, length, map, IfOk};
ghost use Rattle.mintc_flatten_hierarchy.specs.Sources.{source_of, binding_of, binding_in, bindings_in};
ghost use Rattle.mintc_flatten_binding.specs.Named.{IsIndex};

use crate::bindings::{BindingList, ModuleIndex};
use mintc_cells::Cells;
use mintc_flatten_hierarchy::Binding;
use mintc_netlist::{Item, Module};
use mintc_text::OutOfMemory;
use std::alloc::Global;

/// What the name of an instance's cell means.
fn binding(cells: &Cells, modules: &[Module], index: &ModuleIndex, name: &[u8]) -> Binding
    requires { IsIndex index.now.names index.now.numbers.items modules.now }
    ensures { result ≡ binding_of (source_of cells.now modules.now) name.now }
{
    match cells.find(name) {
        Some(number) => Binding::OfCell(number),
        None => match index.find(name) {
            Some(number) => Binding::OfModule(number),
            None => Binding::OfNothing,
        },
    }
}

/// What an item is an instance of.
fn item_binding(cells: &Cells, modules: &[Module], index: &ModuleIndex, item: &Item) -> Binding
    requires { IsIndex index.now.names index.now.numbers.items modules.now }
    ensures { result ≡ binding_in (source_of cells.now modules.now) item.now }
{
    match item {
        Item::Instance { cell, .. } => binding(cells, modules, index, cell.bytes()),
        _ => Binding::OfNothing,
    }
}

/// What each item of a module is an instance of.
fn module_bindings(
    alloc: Global,
    cells: &Cells,
    modules: &[Module],
    index: &ModuleIndex,
    module: &Module,
) -> Result<BindingList, OutOfMemory>
    requires { IsIndex index.now.names index.now.numbers.items modules.now }
    ensures { IfOk result (λ bindings. bindings ≡ bindings_in (source_of cells.now modules.now) module.now) }
{
    let mut bindings = Vec::new(alloc);
    for item in module.items.items() {
        bindings.push(item_binding(cells, modules, index, item))?;
    }
    Ok(BindingList::new(bindings))
}

/// What each item of each module is an instance of.
fn resolve(
    alloc: Global,
    cells: &Cells,
    modules: &[Module],
    index: &ModuleIndex,
) -> Result<Vec<BindingList>, OutOfMemory>
    requires { IsIndex index.now.names index.now.numbers.items modules.now }
    ensures { IfOk result (λ bindings. bindings.items
        ≡ map (bindings_in (source_of cells.now modules.now)) modules.now) }
{
    let mut bindings = Vec::new(alloc);
    for module in modules {
        let list = module_bindings(alloc, cells, modules, index, module)?;
        bindings.push(list)?;
    }
    Ok(bindings)
}

/// What each instance is of.
pub fn find_bindings(
    alloc: Global,
    cells: &Cells,
    modules: &[Module],
) -> Result<Vec<BindingList>, OutOfMemory>
    requires { length modules.now < 2 ^ 32 }
    ensures { IfOk result (λ bindings. bindings.items
        ≡ map (bindings_in (source_of cells.now modules.now)) modules.now) }
{
    let index = ModuleIndex::new(alloc, modules)?;
    resolve(alloc, cells, modules, &index)
}
