//! The refusals of statements, each by itself.
ghost use Rattle.std.specs.Prelude.{◌≡◌, ◌<◌, ◌^◌, None, Some, length, map, IfOk, OnOk, IfErr};
ghost use Rattle.mintc_text.specs.Stops.{StopsAt};
ghost use Rattle.mintc_flatten_hierarchy.specs.Sources.{source_of, bindings_in};
ghost use Rattle.mintc_flatten_binding.specs.NetsOfModules.{source_in};
ghost use Rattle.mintc_flatten_binding.specs.Orders.{IsOrder, HoldsAll};
ghost use Rattle.mintc_flatten_hierarchy.specs.Refusals.{name_twice_refusal, no_module_refusal, recursive_refusal};
ghost use Rattle.mintc_flatten_hierarchy.specs.Refusals.{no_pin_refusal, width_refusal, two_drivers_refusal};

use crate::name_twice::name_twice;
use crate::no_module::no_module;
use crate::no_pin::no_pin;
use crate::recursive::search_all;
use crate::two_drivers::second_driver;
use crate::widths::misfit;
use mintc_cells::Cells;
use mintc_flatten_binding::{BindingList, Source, modules_in_order};
use mintc_netlist::Module;
use mintc_text::{Refusal, Stop};
use std::alloc::Global;

/// Refuses a name that is given twice.
pub fn refuse_name_twice(alloc: Global, cells: &Cells, modules: &[Module]) -> Result<(), Stop>
    ensures passes { OnOk result (name_twice_refusal (source_of cells.now modules.now) ≡ None) }
    ensures stop { IfErr result (StopsAt (λ r. name_twice_refusal (source_of cells.now modules.now) ≡ Some r)) }
{
    match name_twice(alloc, cells, modules)? {
        None => Ok(()),
        Some(entry) => Err(Stop::Refused(Refusal::NameTwice { entry })),
    }
}

/// Refuses an instance of nothing.
pub fn refuse_no_module(
    cells: &Cells,
    modules: &[Module],
    bindings: &[BindingList],
) -> Result<(), Stop>
    requires { bindings.now ≡ map (bindings_in (source_of cells.now modules.now)) modules.now }
    ensures passes { OnOk result (no_module_refusal (source_of cells.now modules.now) ≡ None) }
    ensures stop { IfErr result (StopsAt (λ r. no_module_refusal (source_of cells.now modules.now) ≡ Some r)) }
{
    match no_module(cells, modules, bindings) {
        None => Ok(()),
        Some(entry) => Err(Stop::Refused(Refusal::NoModule { entry })),
    }
}

/// An order of the modules in which each stands behind those that it instantiates. Refuses an instance on a closed
/// chain, where there is none.
pub fn refuse_recursive(
    alloc: Global,
    cells: &Cells,
    modules: &[Module],
    bindings: &[BindingList],
) -> Result<Vec<u32>, Stop>
    requires few { length modules.now < 2 ^ 32 }
    requires names { name_twice_refusal (source_of cells.now modules.now) ≡ None }
    requires bindings { bindings.now ≡ map (bindings_in (source_of cells.now modules.now)) modules.now }
    ensures order { IfOk result (λ order. IsOrder (source_of cells.now modules.now) order.items) }
    ensures whole { IfOk result (λ order. HoldsAll (source_of cells.now modules.now) order.items) }
    ensures passes { OnOk result (recursive_refusal (source_of cells.now modules.now) ≡ None) }
    ensures stop { IfErr result (StopsAt (λ r. recursive_refusal (source_of cells.now modules.now) ≡ Some r)) }
{
    match modules_in_order(alloc, cells, modules, bindings) {
        Ok(order) => Ok(order),
        Err(_) => match search_all(alloc, cells, modules, bindings)? {
            None => Err(Stop::OutOfMemory),
            Some(entry) => Err(Stop::Refused(Refusal::Recursive { entry })),
        },
    }
}

/// Refuses a port or pin that isn't there.
pub fn refuse_no_pin(
    alloc: Global,
    cells: &Cells,
    modules: &[Module],
    bindings: &[BindingList],
) -> Result<(), Stop>
    requires { bindings.now ≡ map (bindings_in (source_of cells.now modules.now)) modules.now }
    ensures passes { OnOk result (no_pin_refusal (source_of cells.now modules.now) ≡ None) }
    ensures stop { IfErr result (StopsAt (λ r. no_pin_refusal (source_of cells.now modules.now) ≡ Some r)) }
{
    match no_pin(alloc, cells, modules, bindings)? {
        None => Ok(()),
        Some(entry) => Err(Stop::Refused(Refusal::NoPin { entry })),
    }
}

/// Refuses widths and selects that don't fit.
pub fn refuse_width(
    alloc: Global,
    source: &Source<'_>,
    bindings: &[BindingList],
) -> Result<(), Stop>
    requires { bindings.now ≡ map (bindings_in (source_in source.now)) source.now.modules.now }
    ensures passes { OnOk result (width_refusal (source_in source.now) ≡ None) }
    ensures stop { IfErr result (StopsAt (λ r. width_refusal (source_in source.now) ≡ Some r)) }
{
    match misfit(alloc, source, bindings)? {
        None => Ok(()),
        Some(entry) => Err(Stop::Refused(Refusal::Width { entry })),
    }
}

/// Refuses a second driver of a bit.
pub fn refuse_two_drivers(
    alloc: Global,
    source: &Source<'_>,
    bindings: &[BindingList],
) -> Result<(), Stop>
    requires { bindings.now ≡ map (bindings_in (source_in source.now)) source.now.modules.now }
    ensures passes { OnOk result (two_drivers_refusal (source_in source.now) ≡ None) }
    ensures stop { IfErr result (StopsAt (λ r. two_drivers_refusal (source_in source.now) ≡ Some r)) }
{
    match second_driver(alloc, source, bindings)? {
        None => Ok(()),
        Some(entry) => Err(Stop::Refused(Refusal::TwoDrivers { entry })),
    }
}
