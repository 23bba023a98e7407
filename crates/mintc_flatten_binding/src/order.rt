//! An order of the modules in which each stands behind those that it instantiates, by a depth-first search.
ghost use Rattle.std.specs.Prelude.{◌≡◌, ◌<◌, ◌^◌, ◌+◌, map, length, slice_index, slice_index_or, IsTrue, IfOk, OnOk};
ghost use Rattle.std.specs.List.{All, AllByRecursion};
ghost use Rattle.mintc_flatten_hierarchy.specs.Sources.{Source, source_of, module_at, bindings_in};
ghost use Rattle.mintc_flatten_binding.specs.Orders.{IsOrder, HoldsAll};
ghost use Rattle.mintc_flatten_binding.specs.PostOrder.{IsPlaced};

use crate::bindings::BindingList;
use mintc_cells::Cells;
use mintc_flatten_hierarchy::Binding;
use mintc_netlist::Module;
use mintc_text::OutOfMemory;
use std::alloc::Global;

/// What a search has found.
#[derive(Drop)]
pub(crate) struct PostOrder {
    /// The modules that are given out.
    order: Vec<u32>,
    /// For each module one more than its place in the order, or 0.
    places: Vec<u32>,
    /// For each module how many of its items are passed: what they instantiate is given out.
    nexts: Vec<usize>,
    /// Modules that wait for others.
    path: Vec<u32>,
    /// The modules that came on the path.
    seen: Vec<bool>,
}

impl PostOrder {
    ghost use Rattle.mintc_flatten_binding.specs.PostOrder.{IsOrderingOf};

    /// A search that has found nothing yet.
    fn new(alloc: Global, cells: &Cells, modules: &[Module]) -> Result<PostOrder, OutOfMemory>
        ensures { IfOk result (λ search. IsOrderingOf (source_of cells.now modules.now) search) }
    {
        let count = modules.len();
        let places = vec![in alloc; 0; count]?;
        let nexts = vec![in alloc; 0; count]?;
        let seen = vec![in alloc; false; count]?;
        Ok(PostOrder {
            order: Vec::new(alloc),
            places,
            nexts,
            path: Vec::new(alloc),
            seen,
        })
    }

    /// Gives out a module of which all items are passed.
    fn give_out(
        &mut self,
        cells: &Cells,
        modules: &[Module],
        number: u32,
    ) -> Result<(), OutOfMemory>
        requires ordering { IsOrderingOf (source_of cells.now modules.now) self.old }
        requires number { number < length modules.now }
        requires few { length modules.now < 2 ^ 32 }
        requires fresh { slice_index self.old.places.items number ≡ 0 }
        requires passed { AllByRecursion (IsPlaced self.old.places.items)
            (bindings_in (source_of cells.now modules.now) (module_at (source_of cells.now modules.now) number)) }
        ensures { OnOk result (IsOrderingOf (source_of cells.now modules.now) self.new) }
    {
        self.order.push(number)?;
        let place = u32::try_from(self.order.len())?;
        self.places[number as usize] = place;
        Ok(())
    }

    /// Passes the next item of a module, of which what it instantiates is given out.
    fn pass(&mut self, cells: &Cells, modules: &[Module], number: u32, binding: Binding)
        requires ordering { IsOrderingOf (source_of cells.now modules.now) self.old }
        requires number { number < length modules.now }
        requires next { slice_index self.old.nexts.items number < length
            (bindings_in (source_of cells.now modules.now) (module_at (source_of cells.now modules.now) number)) }
        requires binding { slice_index_or
            (bindings_in (source_of cells.now modules.now) (module_at (source_of cells.now modules.now) number))
            (slice_index self.old.nexts.items number) binding ≡ binding }
        requires small { length
            (bindings_in (source_of cells.now modules.now) (module_at (source_of cells.now modules.now) number)) < 2 ^
            64 }
        requires placed { IsPlaced self.old.places.items binding }
        ensures { IsOrderingOf (source_of cells.now modules.now) self.new }
    {
        let next = self.nexts[number as usize] + 1;
        self.nexts[number as usize] = next;
    }

    /// Takes a module to the path. A module that waits there already would be on a closed chain.
    fn open(&mut self, number: u32) -> Result<(), OutOfMemory>
        ensures order { OnOk result (self.new.order.items ≡ self.old.order.items) }
        ensures places { OnOk result (self.new.places.items ≡ self.old.places.items) }
        ensures nexts { OnOk result (self.new.nexts.items ≡ self.old.nexts.items) }
    {
        let at = number as usize;
        if at >= self.seen.len() || self.seen[at] {
            return Err(OutOfMemory);
        }
        self.seen[at] = true;
        self.path.push(number)?;
        Ok(())
    }

    /// Takes to the path what the next item of a module instantiates, or passes the item.
    fn look(
        &mut self,
        cells: &Cells,
        modules: &[Module],
        number: u32,
        binding: Binding,
    ) -> Result<(), OutOfMemory>
        requires ordering { IsOrderingOf (source_of cells.now modules.now) self.old }
        requires number { number < length modules.now }
        requires next { slice_index self.old.nexts.items number < length
            (bindings_in (source_of cells.now modules.now) (module_at (source_of cells.now modules.now) number)) }
        requires binding { slice_index_or
            (bindings_in (source_of cells.now modules.now) (module_at (source_of cells.now modules.now) number))
            (slice_index self.old.nexts.items number) binding ≡ binding }
        requires small { length
            (bindings_in (source_of cells.now modules.now) (module_at (source_of cells.now modules.now) number)) < 2 ^
            64 }
        ensures { OnOk result (IsOrderingOf (source_of cells.now modules.now) self.new) }
    {
        match binding {
            Binding::OfModule(child) => {
                if child as usize >= self.places.len() {
                    return Err(OutOfMemory);
                }
                if self.places[child as usize] == 0 {
                    return self.open(child);
                }
                self.pass(cells, modules, number, binding);
                Ok(())
            }
            _ => {
                self.pass(cells, modules, number, binding);
                Ok(())
            }
        }
    }

    /// Goes on with the module at the end of the path, and says whether there was one.
    fn step(
        &mut self,
        cells: &Cells,
        modules: &[Module],
        bindings: &[BindingList],
    ) -> Result<bool, OutOfMemory>
        requires ordering { IsOrderingOf (source_of cells.now modules.now) self.old }
        requires bindings { bindings.now ≡ map (bindings_in (source_of cells.now modules.now)) modules.now }
        requires few { length modules.now < 2 ^ 32 }
        ensures { OnOk result (IsOrderingOf (source_of cells.now modules.now) self.new) }
    {
        let Some(number) = self.path.pop() else {
            return Ok(false);
        };
        if number as usize >= modules.len() {
            return Err(OutOfMemory);
        }
        let list = bindings[number as usize].items();
        let next = self.nexts[number as usize];
        if next < list.len() {
            self.path.push(number)?;
            self.look(cells, modules, number, list[next])?;
            return Ok(true);
        }
        if self.places[number as usize] == 0 {
            self.give_out(cells, modules, number)?;
        }
        Ok(true)
    }

    /// Gives out a module, after all that it instantiates.
    fn follow(
        &mut self,
        cells: &Cells,
        modules: &[Module],
        bindings: &[BindingList],
        number: u32,
    ) -> Result<(), OutOfMemory>
        requires ordering { IsOrderingOf (source_of cells.now modules.now) self.old }
        requires bindings { bindings.now ≡ map (bindings_in (source_of cells.now modules.now)) modules.now }
        requires few { length modules.now < 2 ^ 32 }
        ensures { OnOk result (IsOrderingOf (source_of cells.now modules.now) self.new) }
    {
        if number as usize >= self.seen.len() || self.seen[number as usize] {
            return Ok(());
        }
        self.open(number)?;
        for _ in 0..u64::MAX {
            if !self.step(cells, modules, bindings)? {
                return Ok(());
            }
        }
        Err(OutOfMemory)
    }
}

/// Whether all are placed.
fn are_placed(places: &[u32]) -> bool
    ensures { IsTrue result → All (λ p. 0 < p) places.now }
{
    places.iter().all(|place| *place > 0)
}

/// An order of all modules, where no instance is on a closed chain. Where one is, a want of memory is answered.
pub fn modules_in_order(
    alloc: Global,
    cells: &Cells,
    modules: &[Module],
    bindings: &[BindingList],
) -> Result<Vec<u32>, OutOfMemory>
    requires bindings { bindings.now ≡ map (bindings_in (source_of cells.now modules.now)) modules.now }
    requires few { length modules.now < 2 ^ 32 }
    ensures order { IfOk result (λ order. IsOrder (source_of cells.now modules.now) order.items) }
    ensures whole { IfOk result (λ order. HoldsAll (source_of cells.now modules.now) order.items) }
{
    let mut search = PostOrder::new(alloc, cells, modules)?;
    for number in 0..modules.len() as u32 {
        search.follow(cells, modules, bindings, number)?;
    }
    if !are_placed(&search.places) {
        return Err(OutOfMemory);
    }
    Ok(search.order)
}
