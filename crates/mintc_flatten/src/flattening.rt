//! A netlist's hierarchy, or its first refusal.
ghost use Rattle.std.specs.Prelude.{◌≡◌, ◌<◌, ◌^◌, ◌∷◌, [], None, Some, map, length, false, IfOk, OnOk, IfErr};
ghost use Rattle.std.specs.Option.{option_copied};
ghost use Rattle.mintc_text.specs.Limits.{AreLimits};
ghost use Rattle.mintc_text.specs.Stops.{StopsAt};
ghost use Rattle.mintc_netlist.specs.Ordinary.{IsOrdinary};
ghost use Rattle.mintc_flatten_hierarchy.specs.Sources.{source_of, module_at, is_stub, bindings_in};
ghost use Rattle.mintc_netlist_nets.specs.Tables.{table_of};
ghost use Rattle.mintc_flatten_binding.specs.Orders.{IsOrder, HoldsAll};
ghost use Rattle.mintc_flatten_hierarchy.specs.Refusals.{statements_refusal, tops_of, top_refusal};
ghost use Rattle.mintc_flatten_hierarchy.specs.Refusals.{limit_refusal, IsHierarchy, IsRefusal};

use crate::limits::check_limits;
use crate::tops::find_tops;
use crate::walk::hierarchy;
use mintc_cells::Cells;
use mintc_flatten_binding::{BindingList, Source, find_bindings, find_nets};
use mintc_flatten_hierarchy::Hierarchy;
use mintc_flatten_rules::{
    refuse_name_twice, refuse_no_module, refuse_no_pin, refuse_recursive, refuse_two_drivers,
    refuse_width,
};
use mintc_netlist::{Module, Netlist};
use mintc_netlist_nets::Nets;
use mintc_text::{Limits, Name, OutOfMemory, Refusal, Stop};
use std::alloc::Global;

/// Modules of which no statement is refused: what each instance is of, the nets of each, and an order in which each
/// stands behind those that it instantiates.
#[derive(Drop)]
struct Accepted {
    bindings: Vec<BindingList>,
    nets: Vec<Nets>,
    order: Vec<u32>,
}

/// What is found of modules, where no statement is refused.
fn check_statements(alloc: Global, cells: &Cells, modules: &[Module]) -> Result<Accepted, Stop>
    requires { length modules.now < 2 ^ 32 }
    ensures bindings { IfOk result (λ found. found.bindings.items
        ≡ map (bindings_in (source_of cells.now modules.now)) modules.now) }
    ensures nets { IfOk result (λ found. found.nets.items ≡ map table_of modules.now) }
    ensures order { IfOk result (λ found. IsOrder (source_of cells.now modules.now) found.order.items) }
    ensures whole { IfOk result (λ found. HoldsAll (source_of cells.now modules.now) found.order.items) }
    ensures passes { OnOk result (statements_refusal (source_of cells.now modules.now) ≡ None) }
    ensures stop { IfErr result (StopsAt (λ r. statements_refusal (source_of cells.now modules.now) ≡ Some r)) }
{
    refuse_name_twice(alloc, cells, modules)?;
    let bindings = find_bindings(alloc, cells, modules)?;
    refuse_no_module(cells, modules, &bindings)?;
    let order = refuse_recursive(alloc, cells, modules, &bindings)?;
    let nets = find_nets(alloc, modules)?;
    refuse_no_pin(alloc, cells, modules, &bindings)?;
    let source = Source {
        cells,
        modules,
        nets: &nets,
    };
    refuse_width(alloc, &source, &bindings)?;
    refuse_two_drivers(alloc, &source, &bindings)?;
    Ok(Accepted {
        bindings,
        nets,
        order,
    })
}

/// The one module that may be the top.
fn one_top(
    alloc: Global,
    limits: &Limits,
    cells: &Cells,
    modules: &[Module],
    bindings: &[BindingList],
    top: Option<&Name>,
) -> Result<u32, Stop>
    requires few { length modules.now < 2 ^ 32 }
    requires bindings { bindings.now ≡ map (bindings_in (source_of cells.now modules.now)) modules.now }
    ensures there { IfOk result (λ k. k < length modules.now) }
    ensures live { IfOk result
        (λ k. is_stub (source_of cells.now modules.now) (module_at (source_of cells.now modules.now) k) ≡ false) }
    ensures one { IfOk result (λ k. tops_of (source_of cells.now modules.now) (option_copied top.entry) ≡ k ∷ []) }
    ensures stop { IfErr result
        (StopsAt (λ r. top_refusal limits.now (source_of cells.now modules.now)
        (tops_of (source_of cells.now modules.now) (option_copied top.entry)) ≡ Some r)) }
{
    let tops = find_tops(alloc, cells, modules, bindings, top)?;
    if tops.len() == 1 {
        return Ok(tops[0]);
    }
    let count = u32::try_from(tops.len())?;
    Err(Stop::Refused(Refusal::TopUnclear { count }))
}

/// The hierarchy of modules, or their first refusal.
fn flatten_modules(
    alloc: Global,
    limits: &Limits,
    cells: &Cells,
    modules: &[Module],
    name: Option<&Name>,
) -> Result<Hierarchy, Stop>
    requires { length modules.now < 2 ^ 32 }
    ensures value { IfOk result (IsHierarchy limits.now (source_of cells.now modules.now) (option_copied name.entry)) }
    ensures kept { OnOk result (AreLimits limits.now) }
    ensures stop { IfErr result (StopsAt (IsRefusal limits.now (source_of cells.now modules.now)
        (option_copied name.entry))) }
{
    let Accepted {
        bindings,
        nets,
        order,
    } = check_statements(alloc, cells, modules)?;
    let top = one_top(alloc, limits, cells, modules, &bindings, name)?;
    let source = Source {
        cells,
        modules,
        nets: &nets,
    };
    check_limits(alloc, limits, &source, &bindings, &order, top)?;
    Ok(hierarchy(alloc, &source, &bindings, top)?)
}

/// The hierarchy of a netlist with these cells, from the module of the name `top`, or else from the one that no
/// module instantiates. Refuses NameTwice, NoModule, Recursive, NoPin, Width and TwoDrivers, in this order, each with
/// the first statement at fault; then TopUnclear with the number of modules that may be the top; then Limit of
/// scopes, depth, leaves or inner bits in this run.
pub fn flatten(
    alloc: Global,
    limits: &Limits,
    netlist: &Netlist,
    cells: &Cells,
    top: Option<&Name>,
) -> Result<Hierarchy, Stop>
    requires { IsOrdinary netlist.now }
    ensures value { IfOk result (IsHierarchy limits.now (source_of cells.now netlist.now.modules)
        (option_copied top.entry)) }
    ensures kept { OnOk result (AreLimits limits.now) }
    ensures stop { IfErr result
        (StopsAt (IsRefusal limits.now (source_of cells.now netlist.now.modules) (option_copied top.entry))) }
{
    flatten_modules(alloc, limits, cells, netlist.modules.items(), top)
}
