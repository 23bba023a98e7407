//! Instances on closed chains of instantiations.
ghost use Rattle.std.specs.Prelude.{◌≡◌, ◌<◌, ◌^◌, [], None, Some, length, map, replicate, slice_index, false, IfOk};
ghost use Rattle.std.specs.Prelude.{OnOk};
ghost use Rattle.mintc_netlist.specs.Statements.{statement_of, first_at_fault};
ghost use Rattle.mintc_flatten_hierarchy.specs.Sources.{source_of, bindings_in, binding_in, modules_of};
ghost use Rattle.mintc_flatten_hierarchy.specs.Faults.{leads, leads_back, is_recursive};
ghost use Rattle.mintc_flatten_rules.specs.Firsts.{first_in};
ghost use Rattle.mintc_flatten_rules.specs.Searching.{with_module, with_binding, with_bindings};

use mintc_cells::Cells;
use mintc_flatten_binding::BindingList;
use mintc_flatten_hierarchy::Binding;
use mintc_netlist::{Module, entry};
use mintc_text::OutOfMemory;
use std::alloc::Global;
use std::marker::Model;

/// The modules that a search has found, each once.
#[derive(Drop)]
pub(crate) struct Search {
    /// In the order in which they were found.
    visited: Vec<u32>,
    /// For each module whether it was found.
    seen: Vec<bool>,
}

impl Model for Search {
    ghost use Rattle.mintc_flatten_rules.specs.Searching.{Found};

    ghost Value = { Found };

    ghost view = { λ s. record { visited = s.visited.items; seen = s.seen.items } };
}

impl Search {
    /// Nothing is found of so many modules.
    fn new(alloc: Global, count: usize) -> Result<Search, OutOfMemory>
        ensures visited { IfOk result (λ search. search.visited ≡ []) }
        ensures seen { IfOk result (λ search. search.seen ≡ replicate count false) }
    {
        let seen = vec![in alloc; false; count]?;
        Ok(Search {
            visited: Vec::new(alloc),
            seen,
        })
    }

    /// How many modules are found.
    fn len(&self) -> usize
        ensures { result ≡ length self.now.visited }
    {
        self.visited.len()
    }

    /// The module of a place among them.
    fn number(&self, place: usize) -> u32
        requires { place < length self.now.visited }
        ensures { result ≡ slice_index self.now.visited place }
    {
        self.visited[place]
    }

    /// Takes in a module, where it wasn't found before.
    fn visit(&mut self, number: u32) -> Result<(), OutOfMemory>
        ensures there { OnOk result (number < length self.old.seen) }
        ensures found { OnOk result (self.new ≡ with_module self.old number) }
    {
        let at = number as usize;
        if at >= self.seen.len() {
            return Err(OutOfMemory);
        }
        if self.seen[at] {
            return Ok(());
        }
        self.visited.push(number)?;
        self.seen[at] = true;
        Ok(())
    }

    /// Takes in the module that a binding is.
    fn visit_binding(&mut self, binding: Binding) -> Result<(), OutOfMemory>
        ensures { OnOk result (self.new ≡ with_binding self.old binding) }
    {
        match binding {
            Binding::OfModule(number) => self.visit(number),
            _ => Ok(()),
        }
    }

    /// Takes in the modules among bindings.
    fn visit_all(&mut self, bindings: &[Binding]) -> Result<(), OutOfMemory>
        ensures { OnOk result (self.new ≡ with_bindings self.old bindings.now) }
    {
        for binding in bindings {
            self.visit_binding(*binding)?;
        }
        Ok(())
    }
}

/// Whether a module leads to a module of a name, itself counted.
fn leads(
    alloc: Global,
    cells: &Cells,
    modules: &[Module],
    bindings: &[BindingList],
    name: &[u8],
    start: u32,
) -> Result<bool, OutOfMemory>
    requires { bindings.now ≡ map (bindings_in (source_of cells.now modules.now)) modules.now }
    ensures { IfOk result
        (λ found. found ≡ leads (source_of cells.now modules.now) (length modules.now) name.now start) }
{
    let mut search = Search::new(alloc, modules.len())?;
    search.visit(start)?;
    for place in 0..modules.len() {
        if place >= search.len() {
            return Ok(false);
        }
        let number = search.number(place) as usize;
        if name == modules[number].name.bytes() {
            return Ok(true);
        }
        search.visit_all(bindings[number].items())?;
    }
    if search.len() > modules.len() {
        return Err(OutOfMemory);
    }
    Ok(false)
}

/// Whether a binding leads to a module of the name of the module that it stands in.
fn leads_back(
    alloc: Global,
    cells: &Cells,
    modules: &[Module],
    bindings: &[BindingList],
    module_nets: &Module,
    binding: Binding,
) -> Result<bool, OutOfMemory>
    requires { bindings.now ≡ map (bindings_in (source_of cells.now modules.now)) modules.now }
    ensures { IfOk result (λ found. found ≡ leads_back (source_of cells.now modules.now) module_nets.now binding) }
{
    match binding {
        Binding::OfModule(number) => {
            let name = module_nets.name.bytes();
            leads(alloc, cells, modules, bindings, name, number)
        }
        _ => Ok(false),
    }
}

/// The first instance of a module that leads back to it.
fn first_leading(
    alloc: Global,
    cells: &Cells,
    modules: &[Module],
    bindings: &[BindingList],
    module_nets: &Module,
    own: &[Binding],
) -> Result<Option<u32>, OutOfMemory>
    requires bindings { bindings.now ≡ map (bindings_in (source_of cells.now modules.now)) modules.now }
    requires own { own.now ≡ bindings_in (source_of cells.now modules.now) module_nets.now }
    ensures { IfOk result (λ first. first ≡ first_in (is_recursive (source_of cells.now modules.now)) module_nets.now) }
{
    let items = module_nets.items.items();
    for (number, item) in items.iter().enumerate() {
        if leads_back(alloc, cells, modules, bindings, module_nets, own[number])? {
            return Ok(Some(entry(item)));
        }
    }
    Ok(None)
}

/// The first instance on a closed chain of instantiations, by a search from each instance. So it takes long, and
/// is for modules that have no order.
pub(crate) fn search_all(
    alloc: Global,
    cells: &Cells,
    modules: &[Module],
    bindings: &[BindingList],
) -> Result<Option<u32>, OutOfMemory>
    requires { bindings.now ≡ map (bindings_in (source_of cells.now modules.now)) modules.now }
    ensures { IfOk result (λ entry. entry ≡ first_at_fault (is_recursive (source_of cells.now modules.now))
        (modules_of (source_of cells.now modules.now))) }
{
    for (number, module_nets) in modules.iter().enumerate() {
        if cells.find(module_nets.name.bytes()).is_some() {
            continue;
        }
        let first = first_leading(
            alloc,
            cells,
            modules,
            bindings,
            module_nets,
            bindings[number].items(),
        )?;
        if first.is_some() {
            return Ok(first);
        }
    }
    Ok(None)
}
