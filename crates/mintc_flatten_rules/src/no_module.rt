//! Instances of what is neither described nor a module.
ghost use Rattle.std.specs.Prelude.{◌≡◌, Some, length, map};
ghost use Rattle.mintc_flatten_hierarchy.specs.Sources.{source_of, binding_in, bindings_in, modules_of};
ghost use Rattle.mintc_flatten_hierarchy.specs.Faults.{has_no_module, is_no_module};
ghost use Rattle.mintc_flatten_rules.specs.Firsts.{first_in};
ghost use Rattle.mintc_netlist.specs.Statements.{first_at_fault};

use mintc_cells::Cells;
use mintc_flatten_binding::BindingList;
use mintc_flatten_hierarchy::Binding;
use mintc_netlist::{Item, Module, entry};

/// Whether an item is an instance of nothing.
fn is_missing(cells: &Cells, modules: &[Module], item: &Item, binding: Binding) -> bool
    requires { binding ≡ binding_in (source_of cells.now modules.now) item.now }
    ensures { result ≡ has_no_module (source_of cells.now modules.now) (Some item.now) }
{
    match item {
        Item::Instance { .. } => matches!(binding, Binding::OfNothing),
        _ => false,
    }
}

/// The first statement of a module that is an instance of nothing.
pub(crate) fn first_missing(
    cells: &Cells,
    modules: &[Module],
    module: &Module,
    bindings: &[Binding],
) -> Option<u32>
    requires { bindings.now ≡ bindings_in (source_of cells.now modules.now) module.now }
    ensures { result ≡ first_in (is_no_module (source_of cells.now modules.now)) module.now }
{
    let items = module.items.items();
    for (number, item) in items.iter().enumerate() {
        if is_missing(cells, modules, item, bindings[number]) {
            return Some(entry(item));
        }
    }
    None
}

/// The first instance of nothing.
pub(crate) fn no_module(cells: &Cells, modules: &[Module], bindings: &[BindingList]) -> Option<u32>
    requires { bindings.now ≡ map (bindings_in (source_of cells.now modules.now)) modules.now }
    ensures { result ≡ first_at_fault (is_no_module (source_of cells.now modules.now))
        (modules_of (source_of cells.now modules.now)) }
{
    for (number, module) in modules.iter().enumerate() {
        if cells.find(module.name.bytes()).is_some() {
            continue;
        }
        let first = first_missing(cells, modules, module, bindings[number].items());
        if first.is_some() {
            return first;
        }
    }
    None
}
