//! The pins of what an instance is of: those of a cell, or the ports of a module.
ghost use Rattle.std.specs.Prelude.{◌≡◌, ◌<◌, ◌^◌, ◌++◌, Some, map, length, IfOk, OnOk};
ghost use Rattle.mintc_flatten_hierarchy.specs.Sources.{source_of, binding_pins};
ghost use Rattle.mintc_flatten_binding.specs.Orders.{IsThere};
ghost use Rattle.mintc_flatten_binding.specs.Wired.{pin_at};
ghost use Rattle.mintc_flatten_binding.specs.NetsOfModules.{source_in};

use crate::Source;
use mintc_cells::Cells;
use mintc_flatten_hierarchy::Binding;
use mintc_netlist::Module;
use mintc_netlist_nets::bits;
use mintc_text::OutOfMemory;
use std::alloc::Global;

/// How many pins a binding has.
pub fn pin_count(cells: &Cells, modules: &[Module], binding: Binding) -> Result<u32, OutOfMemory>
    requires { IsThere (source_of cells.now modules.now) binding }
    ensures { IfOk result (λ count. count ≡ length (binding_pins (source_of cells.now modules.now) binding)) }
{
    match binding {
        Binding::OfCell(cell) => Ok(cells.pin_count(cell)),
        Binding::OfModule(number) => {
            let ports = modules[number as usize].ports.items();
            Ok(u32::try_from(ports.len())?)
        }
        Binding::OfNothing => Ok(0),
    }
}

/// The name of a pin.
pub fn pin_name<'a>(
    cells: &'a Cells,
    modules: &'a [Module],
    binding: Binding,
    number: u32,
) -> &'a [u8]
    requires there { IsThere (source_of cells.now modules.now) binding }
    requires pin { number < length (binding_pins (source_of cells.now modules.now) binding) }
    ensures { result.now ≡ (pin_at (source_of cells.now modules.now) binding number).name }
{
    match binding {
        Binding::OfCell(cell) => cells.pin(cell, number).bytes(),
        Binding::OfModule(module_nets) => modules[module_nets as usize]
            .ports
            .items()[number as usize].bytes(),
        Binding::OfNothing => &[],
    }
}

/// Whether a pin is an output.
pub fn is_output(source: &Source<'_>, binding: Binding, number: u32) -> bool
    requires there { IsThere (source_in source.now) binding }
    requires pin { number < length (binding_pins (source_in source.now) binding) }
    ensures { result ≡ (pin_at (source_in source.now) binding number).output }
{
    match binding {
        Binding::OfCell(cell) => source.cells.is_output(cell, number),
        Binding::OfModule(module_nets) => {
            let part = &source.modules[module_nets as usize];
            let nets = &source.nets[module_nets as usize];
            let name = part.ports.items()[number as usize].bytes();
            nets.is_output(part, name)
        }
        Binding::OfNothing => false,
    }
}

/// Takes in the places of a pin's bits from the rightmost.
pub fn push_pin(
    alloc: Global,
    source: &Source<'_>,
    binding: Binding,
    number: u32,
    places: &mut Vec<Option<u64>>,
) -> Result<(), OutOfMemory>
    requires there { IsThere (source_in source.now) binding }
    requires pin { number < length (binding_pins (source_in source.now) binding) }
    ensures { OnOk result (places.new.items ≡ places.old.items
        ++ map Some (pin_at (source_in source.now) binding number).places) }
{
    match binding {
        Binding::OfCell(_) => Ok(places.push(Some(u64::from(number)))?),
        Binding::OfModule(module_nets) => {
            let part = &source.modules[module_nets as usize];
            let nets = &source.nets[module_nets as usize];
            let name = part.ports.items()[number as usize].bytes();
            nets.push_net(alloc, part, name, places)
        }
        Binding::OfNothing => Ok(()),
    }
}

/// How many bits a pin has.
pub fn pin_width(source: &Source<'_>, binding: Binding, number: u32) -> u64
    requires there { IsThere (source_in source.now) binding }
    requires pin { number < length (binding_pins (source_in source.now) binding) }
    ensures { result ≡ length (pin_at (source_in source.now) binding number).places }
{
    match binding {
        Binding::OfCell(_) => 1,
        Binding::OfModule(module_nets) => {
            let part = &source.modules[module_nets as usize];
            let nets = &source.nets[module_nets as usize];
            let name = part.ports.items()[number as usize].bytes();
            bits(nets.range(part, name))
        }
        Binding::OfNothing => 0,
    }
}
