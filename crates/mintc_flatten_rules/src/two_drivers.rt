//! Bits that are driven twice.
ghost use Rattle.std.specs.Prelude.{◌≡◌, ◌<◌, ◌∷◌, [], map, length, IfOk, OnOk};
ghost use Rattle.std.specs.List.{filter_map};
ghost use Rattle.std.specs.Option.{option_to_list};
ghost use Rattle.mintc_netlist.specs.Connections.{places_in, driven_first};
ghost use Rattle.mintc_netlist.specs.Statements.{first_at_fault};
ghost use Rattle.mintc_flatten_hierarchy.specs.Sources.{binding_pins, binding_in, bindings_in, modules_of};
ghost use Rattle.mintc_flatten_hierarchy.specs.Faults.{drives_in, is_second_driver};
ghost use Rattle.mintc_flatten_rules.specs.Firsts.{first_in};
ghost use Rattle.mintc_flatten_rules.specs.Driving.{HasSame, Drives, TakesIn, port_drives, pin_drives, drives_from};
ghost use Rattle.mintc_flatten_binding.specs.NetsOfModules.{source_in};
ghost use Rattle.mintc_flatten_binding.specs.Orders.{IsThere};
ghost use Rattle.mintc_flatten_binding.specs.Wired.{pin_at, IsOfItem};

use crate::site::Site;
use indexmap::IndexSet;
use mintc_flatten_binding::{
    BindingList, ConnectionIndex, Instance, ModuleNets, Source, is_output, pin_count, pin_name,
};
use mintc_flatten_hierarchy::Binding;
use mintc_netlist::{Item, Piece, entry};
use mintc_text::{Name, OutOfMemory};
use std::alloc::Global;
use std::marker::Model;
use std::slice;

/// Places of driven bits, each once, seen as their list.
#[derive(Drop)]
pub(crate) struct Driven {
    places: IndexSet<u64>,
}

impl Model for Driven {
    ghost use Rattle.std.specs.Prelude.{ℕ, List};

    ghost Value = { List ℕ };

    ghost view = { λ d. d.places.keys };
}

impl Driven {
    /// No places.
    fn new(alloc: Global) -> Driven
        ensures { result ≡ [] }
    {
        Driven {
            places: IndexSet::new(alloc),
        }
    }

    /// Takes a place in, if there is one, and says whether it was there.
    fn drive_place(&mut self, place: Option<u64>) -> Result<bool, OutOfMemory>
        ensures again { IfOk result (λ again. Drives self.old self.new (option_to_list place) again) }
        ensures taken { OnOk result (TakesIn self.old self.new (option_to_list place)) }
    {
        let Some(place) = place else {
            return Ok(false);
        };
        let added = self.places.insert(place)?;
        Ok(!added)
    }

    /// Takes in places up to the first that was there or comes twice, and says whether there is one.
    fn drive_places(&mut self, places: &[Option<u64>]) -> Result<bool, OutOfMemory>
        ensures { IfOk result (λ again. Drives self.old self.new (filter_map (λ place. place) places.now) again) }
    {
        for place in places {
            if self.drive_place(*place)? {
                return Ok(true);
            }
        }
        Ok(false)
    }

    /// Takes in places that may have been there.
    fn take_in(&mut self, places: &[Option<u64>]) -> Result<(), OutOfMemory>
        ensures { OnOk result (TakesIn self.old self.new (filter_map (λ place. place) places.now)) }
    {
        for place in places {
            self.drive_place(*place)?;
        }
        Ok(())
    }

    /// Drives the bits of a piece, whose places are written to `room` first, up to the first that is driven
    /// already, and says whether there is one.
    fn drive_piece(
        &mut self,
        alloc: Global,
        room: &mut Vec<Option<u64>>,
        module_nets: &ModuleNets<'_>,
        piece: &Piece,
    ) -> Result<bool, OutOfMemory>
        ensures { IfOk result
            (λ again. Drives self.old self.new (places_in module_nets.now.part.now (piece.now ∷ [])) again) }
    {
        room.clear();
        module_nets
            .nets
            .push_places(alloc, module_nets.part, slice::from_ref(piece), room)?;
        self.drive_places(room)
    }

    /// Drives the bits of an expression up to the first that is driven already, and says whether there is one.
    fn drive_pieces(
        &mut self,
        alloc: Global,
        room: &mut Vec<Option<u64>>,
        module_nets: &ModuleNets<'_>,
        pieces: &[Piece],
    ) -> Result<bool, OutOfMemory>
        ensures { IfOk result
            (λ again. Drives self.old self.new (places_in module_nets.now.part.now pieces.now) again) }
    {
        for number in 0..pieces.len() {
            let piece = &pieces[pieces.len() - 1 - number];
            if self.drive_piece(alloc, room, module_nets, piece)? {
                return Ok(true);
            }
        }
        Ok(false)
    }

    /// Drives what an instance connects to a pin, if that is an output, and says whether a bit is driven already.
    fn drive_pin(
        &mut self,
        alloc: Global,
        room: &mut Vec<Option<u64>>,
        site: &Site<'_>,
        instance: &Instance<'_>,
        number: u32,
    ) -> Result<bool, OutOfMemory>
        requires there { IsThere (source_in site.now.source) instance.now.binding }
        requires pin { number < length (binding_pins (source_in site.now.source) instance.now.binding) }
        requires connected { IsOfItem instance.now.connected.now instance.now.item.now }
        ensures { IfOk result
            (λ again. Drives self.old self.new
            (pin_drives site.now.module_nets.part.now instance.now.item.now number
            (pin_at (source_in site.now.source) instance.now.binding number)) again) }
    {
        let source = &site.source;
        let binding = instance.binding;
        if !is_output(source, binding, number) {
            return Ok(false);
        }
        let name = pin_name(source.cells, source.modules, binding, number);
        let connected = instance.connected;
        match connected.expression(instance.item, number as usize, name) {
            Some(expr) => self.drive_pieces(alloc, room, &site.module_nets, expr.items()),
            None => Ok(false),
        }
    }

    /// Drives what an instance connects to the outputs of what it is of, by what is kept of its connections, and
    /// says whether a bit is driven already.
    fn drive_pins(
        &mut self,
        alloc: Global,
        room: &mut Vec<Option<u64>>,
        site: &Site<'_>,
        instance: &Instance<'_>,
    ) -> Result<bool, OutOfMemory>
        requires there { IsThere (source_in site.now.source) instance.now.binding }
        requires connected { IsOfItem instance.now.connected.now instance.now.item.now }
        ensures { IfOk result
            (λ again. Drives self.old self.new
            (drives_from site.now.module_nets.part.now instance.now.item.now 0
            (binding_pins (source_in site.now.source) instance.now.binding)) again) }
    {
        let source = &site.source;
        let count = pin_count(source.cells, source.modules, instance.binding)?;
        for number in 0..count {
            if self.drive_pin(alloc, room, site, instance, number)? {
                return Ok(true);
            }
        }
        Ok(false)
    }

    /// Drives what an instance connects to the outputs of what it is of, and says whether a bit is driven already.
    fn drive_instance(
        &mut self,
        alloc: Global,
        room: &mut Vec<Option<u64>>,
        site: &Site<'_>,
        item: &Item,
        binding: Binding,
    ) -> Result<bool, OutOfMemory>
        requires there { IsThere (source_in site.now.source) binding }
        ensures { IfOk result
            (λ again. Drives self.old self.new
            (drives_from site.now.module_nets.part.now item.now 0 (binding_pins (source_in site.now.source) binding))
            again) }
    {
        let connected = &ConnectionIndex::new(alloc, item)?;
        let instance = Instance {
            item,
            binding,
            connected,
        };
        self.drive_pins(alloc, room, site, &instance)
    }

    /// Drives what an item of a module drives, and says whether a bit is driven already.
    fn drive_item(
        &mut self,
        alloc: Global,
        room: &mut Vec<Option<u64>>,
        site: &Site<'_>,
        item: &Item,
        binding: Binding,
    ) -> Result<bool, OutOfMemory>
        requires binding { binding ≡ binding_in (source_in site.now.source) item.now }
        requires there { IsThere (source_in site.now.source) binding }
        ensures { IfOk result
            (λ again. Drives self.old self.new
            (drives_in (source_in site.now.source) site.now.module_nets.part.now item.now)
            again) }
    {
        match item {
            Item::Assign { left, .. } => {
                self.drive_pieces(alloc, room, &site.module_nets, left.items())
            }
            Item::Instance { .. } => self.drive_instance(alloc, room, site, item, binding),
            _ => Ok(false),
        }
    }

    /// Takes in the bits of a port, where it is an input.
    fn take_port(
        &mut self,
        alloc: Global,
        room: &mut Vec<Option<u64>>,
        module_nets: &ModuleNets<'_>,
        name: &Name,
    ) -> Result<(), OutOfMemory>
        ensures { OnOk result (TakesIn self.old self.new (port_drives module_nets.now.part.now name.now)) }
    {
        if module_nets.nets.is_output(module_nets.part, name.bytes()) {
            return Ok(());
        }
        room.clear();
        module_nets
            .nets
            .push_net(alloc, module_nets.part, name.bytes(), room)?;
        self.take_in(room)?;
        Ok(())
    }

    /// The bits of a module's input ports.
    fn of_inputs(
        alloc: Global,
        room: &mut Vec<Option<u64>>,
        module_nets: &ModuleNets<'_>,
    ) -> Result<Driven, OutOfMemory>
        ensures { IfOk result (λ driven. HasSame driven (driven_first module_nets.now.part.now)) }
    {
        let mut driven = Driven::new(alloc);
        for name in module_nets.part.ports.items() {
            driven.take_port(alloc, room, module_nets, name)?;
        }
        Ok(driven)
    }

    /// The first item of a module that drives what is driven already, of all its items, where its inputs are driven.
    fn first_again(
        &mut self,
        alloc: Global,
        room: &mut Vec<Option<u64>>,
        site: &Site<'_>,
        bindings: &[Binding],
    ) -> Result<Option<u32>, OutOfMemory>
        requires bindings { bindings.now ≡ bindings_in (source_in site.now.source) site.now.module_nets.part.now }
        requires inputs { HasSame self.old (driven_first site.now.module_nets.part.now) }
        ensures { IfOk result
            (λ first. first ≡ first_in (is_second_driver (source_in site.now.source)) site.now.module_nets.part.now) }
    {
        let items = site.module_nets.part.items.items();
        for (number, item) in items.iter().enumerate() {
            let binding = bindings[number];
            if self.drive_item(alloc, room, site, item, binding)? {
                return Ok(Some(entry(item)));
            }
        }
        Ok(None)
    }
}

/// The first item of a module that drives what is driven already.
fn first_driving(
    alloc: Global,
    site: &Site<'_>,
    bindings: &[Binding],
) -> Result<Option<u32>, OutOfMemory>
    requires bindings { bindings.now ≡ bindings_in (source_in site.now.source) site.now.module_nets.part.now }
    ensures { IfOk result
        (λ first. first ≡ first_in (is_second_driver (source_in site.now.source)) site.now.module_nets.part.now) }
{
    let mut room = Vec::new(alloc);
    let mut driven = Driven::of_inputs(alloc, &mut room, &site.module_nets)?;
    driven.first_again(alloc, &mut room, site, bindings)
}

/// The first statement that drives what is driven already.
pub(crate) fn second_driver(
    alloc: Global,
    source: &Source<'_>,
    bindings: &[BindingList],
) -> Result<Option<u32>, OutOfMemory>
    requires { bindings.now ≡ map (bindings_in (source_in source.now)) source.now.modules.now }
    ensures { IfOk result
        (λ entry. entry ≡ first_at_fault (is_second_driver (source_in source.now))
        (modules_of (source_in source.now))) }
{
    for (number, part) in source.modules.iter().enumerate() {
        if source.cells.find(part.name.bytes()).is_some() {
            continue;
        }
        let nets = &source.nets[number];
        let site = Site {
            source: *source,
            module_nets: ModuleNets { part, nets },
        };
        let first = first_driving(alloc, &site, bindings[number].items())?;
        if first.is_some() {
            return Ok(first);
        }
    }
    Ok(None)
}
