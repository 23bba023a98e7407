//! The modules that may be the top.
ghost use Rattle.std.specs.Prelude.{◌≡◌, ◌<◌, ◌^◌, ◌&&◌, ℕ, false, not, ◌++◌, ◌∷◌, [], cond, map, length, IfOk, OnOk};
ghost use Rattle.std.specs.List.{list_any};
ghost use Rattle.std.specs.Option.{option_copied, is_some};
ghost use Rattle.mintc_cells.specs.Entries.{number_of};
ghost use Rattle.mintc_flatten_hierarchy.specs.Sources.{source_of, module_at, is_stub, bindings_in};
ghost use Rattle.mintc_flatten_hierarchy.specs.Refusals.{may_be_top, tops_of};
ghost use Rattle.mintc_flatten.specs.Tops.{is_module, is_any_module, Marks, AreMarks};
ghost use Rattle.mintc_flatten_binding.specs.Orders.{mark_at};

use mintc_cells::Cells;
use mintc_flatten_binding::BindingList;
use mintc_flatten_hierarchy::Binding;
use mintc_netlist::Module;
use mintc_text::{Name, OutOfMemory};
use std::alloc::Global;

/// Marks the module that a binding is.
fn mark_one(marks: &mut [bool], binding: Binding)
    ensures { Marks marks.old marks.new (λ k. is_module k binding) }
{
    if let Binding::OfModule(number) = binding {
        if (number as usize) < marks.len() {
            marks[number as usize] = true;
        }
    }
}

/// Marks the modules among bindings.
fn mark_all(marks: &mut [bool], bindings: &[Binding])
    ensures { Marks marks.old marks.new (is_any_module bindings.now) }
{
    for binding in bindings {
        mark_one(marks, *binding);
    }
}

/// Marks what modules that are no stubs instantiate, where nothing is marked yet.
fn mark_modules(cells: &Cells, modules: &[Module], bindings: &[BindingList], marks: &mut [bool])
    requires bindings { bindings.now ≡ map (bindings_in (source_of cells.now modules.now)) modules.now }
    requires length { length marks.old ≡ length modules.now }
    requires fresh { (k : ℕ) → mark_at marks.old k ≡ false }
    ensures { AreMarks (source_of cells.now modules.now) (length modules.now) marks.new }
{
    for number in 0..modules.len() {
        if is_stub(cells, &modules[number]) {
            continue;
        }
        mark_all(marks, bindings[number].items());
    }
}

/// Which modules are instantiated by modules that are no stubs.
fn find_marks(
    alloc: Global,
    cells: &Cells,
    modules: &[Module],
    bindings: &[BindingList],
) -> Result<Vec<bool>, OutOfMemory>
    requires { bindings.now ≡ map (bindings_in (source_of cells.now modules.now)) modules.now }
    ensures { IfOk result (λ marks. AreMarks (source_of cells.now modules.now) (length modules.now) marks.items) }
{
    let mut marks = vec![in alloc; false; modules.len()]?;
    mark_modules(cells, modules, bindings, &mut marks);
    Ok(marks)
}

/// Whether a module is a stub.
fn is_stub(cells: &Cells, part: &Module) -> bool
    ensures { result ≡ is_some (number_of cells.now part.now.name) }
{
    cells.find(part.name.bytes()).is_some()
}

/// Whether a module may be the top.
fn is_top_candidate(
    cells: &Cells,
    modules: &[Module],
    number: usize,
    marks: &[bool],
    top: Option<&Name>,
) -> bool
    requires marks { AreMarks (source_of cells.now modules.now) (length modules.now) marks.now }
    requires number { number < length modules.now }
    ensures { result ≡ (not
        (is_stub (source_of cells.now modules.now) (module_at (source_of cells.now modules.now) number))
        && may_be_top (source_of cells.now modules.now) (option_copied top.entry) number) }
{
    let part = &modules[number];
    if is_stub(cells, part) {
        return false;
    }
    match top {
        Some(name) => name.bytes() == part.name.bytes(),
        None => !marks[number],
    }
}

/// Takes in a number where it passes.
fn push_if(tops: &mut Vec<u32>, number: u32, passes: bool) -> Result<(), OutOfMemory>
    ensures { OnOk result (tops.new.items ≡ tops.old.items ++ cond passes (number ∷ []) []) }
{
    if passes {
        tops.push(number)?;
    }
    Ok(())
}

/// The modules that may be the top: those of a name, or else those that none instantiates.
pub(crate) fn find_tops(
    alloc: Global,
    cells: &Cells,
    modules: &[Module],
    bindings: &[BindingList],
    top: Option<&Name>,
) -> Result<Vec<u32>, OutOfMemory>
    requires bindings { bindings.now ≡ map (bindings_in (source_of cells.now modules.now)) modules.now }
    requires few { length modules.now < 2 ^ 32 }
    ensures { IfOk result (λ tops. tops.items ≡ tops_of (source_of cells.now modules.now) (option_copied top.entry)) }
{
    let marks = find_marks(alloc, cells, modules, bindings)?;
    let mut tops = Vec::new(alloc);
    for number in 0..modules.len() {
        let passes = is_top_candidate(cells, modules, number, &marks, top);
        push_if(&mut tops, number as u32, passes)?;
    }
    Ok(tops)
}
