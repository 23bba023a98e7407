//! The joins of an item of a scope.
ghost use Rattle.std.specs.Prelude.{◌≡◌, ◌<◌, ◌+◌, ◌++◌, ◌∷◌, [], ℕ, cond, Option, Some, map, option_map, length, IfOk};
ghost use Rattle.std.specs.Prelude.{OnOk};
ghost use Rattle.std.specs.List.{flat_map};
ghost use Rattle.std.specs.Option.{option_to_list};
ghost use Rattle.mintc_netlist.specs.Connections.{wirings_of};
ghost use Rattle.mintc_netlist.specs.Expressions.{expression_places};
ghost use Rattle.mintc_flatten_hierarchy.specs.Sources.{binding_in, binding_pins};
ghost use Rattle.mintc_flatten_hierarchy.specs.Walks.{counts, place_at, step_at};
ghost use Rattle.mintc_flatten_hierarchy.specs.Hierarchies.{joined, numbers_of, wiring_joins, joins_in};
ghost use Rattle.mintc_flatten_binding.specs.NetsOfModules.{source_in};
ghost use Rattle.mintc_flatten_binding.specs.Orders.{IsThere};
ghost use Rattle.mintc_flatten.specs.Joining.{moved};
ghost use Rattle.mintc_flatten_binding.specs.Wired.{pin_at, wiring_at, IsOfItem};

use mintc_flatten_binding::{
    ConnectionIndex, Instance, ModuleNets, Source, is_output, pin_count, pin_name, push_pin,
};
use mintc_flatten_hierarchy::{Binding, Join};
use mintc_netlist::{Item, Piece};
use mintc_text::OutOfMemory;
use std::alloc::Global;

/// The number of the inner bit that stands so far behind another one.
fn inner_number(first: u32, place: u64) -> Result<u32, OutOfMemory>
    ensures { IfOk result (λ number. number ≡ first + place) }
{
    let Some(number) = place.checked_add(u64::from(first)) else {
        return Err(OutOfMemory);
    };
    Ok(u32::try_from(number)?)
}

/// Takes in the join of two bits, where both are there.
fn push_join(
    joins: &mut Vec<Join>,
    from_first: u32,
    from: Option<u64>,
    to_first: u32,
    to: Option<u64>,
) -> Result<(), OutOfMemory>
    ensures { OnOk result (joins.new.items ≡ joins.old.items
        ++ joined (moved from_first (from ∷ [])) (moved to_first (to ∷ []))) }
{
    let (Some(from), Some(to)) = (from, to) else {
        return Ok(());
    };
    let join = Join {
        from: inner_number(from_first, from)?,
        to: inner_number(to_first, to)?,
    };
    joins.push(join)?;
    Ok(())
}

/// Takes in the joins of bits to the bits at their places. The bits of each side are counted from its first inner bit.
fn push_joined(
    joins: &mut Vec<Join>,
    from_first: u32,
    froms: &[Option<u64>],
    to_first: u32,
    tos: &[Option<u64>],
) -> Result<(), OutOfMemory>
    ensures { OnOk result (joins.new.items ≡ joins.old.items
        ++ joined (moved from_first froms.now) (moved to_first tos.now)) }
{
    let count = froms.len().min(tos.len());
    for number in 0..count {
        push_join(joins, from_first, froms[number], to_first, tos[number])?;
    }
    Ok(())
}

/// Where the joins of an item are made: the netlist, the module of the item's scope, and the first inner bits of
/// that scope and of the item's own leaf or scope.
#[derive(Clone, Copy)]
pub(crate) struct JoinSite<'a> {
    pub source: Source<'a>,
    pub module_nets: ModuleNets<'a>,
    pub first: u32,
    pub own: u32,
}

/// Takes in the joins of an assign.
fn push_assign(
    alloc: Global,
    joins: &mut Vec<Join>,
    site: &JoinSite<'_>,
    left: &[Piece],
    right: &[Piece],
) -> Result<(), OutOfMemory>
    ensures { OnOk result (joins.new.items ≡ joins.old.items
        ++ joined (numbers_of (place_at site.now.module_nets.part.now 0 site.now.first) right.now)
        (numbers_of (place_at site.now.module_nets.part.now 0 site.now.first) left.now)) }
{
    let ModuleNets { part, nets, .. } = site.module_nets;
    let mut froms = Vec::new(alloc);
    nets.push_places(alloc, part, right, &mut froms)?;
    let mut tos = Vec::new(alloc);
    nets.push_places(alloc, part, left, &mut tos)?;
    push_joined(joins, site.first, &froms, site.first, &tos)
}

/// Room for the places of a pin and of what is connected to it.
#[derive(Drop)]
struct Ends {
    pin: Vec<Option<u64>>,
    net: Vec<Option<u64>>,
}

impl Ends {
    /// No places.
    fn new(alloc: Global) -> Ends
        ensures pin { result.pin.items ≡ [] }
        ensures net { result.net.items ≡ [] }
    {
        Ends {
            pin: Vec::new(alloc),
            net: Vec::new(alloc),
        }
    }

    /// Takes in the joins of the pin and the net, from an output pin or to an input pin.
    fn push_joins(
        &self,
        joins: &mut Vec<Join>,
        output: bool,
        own: u32,
        first: u32,
    ) -> Result<(), OutOfMemory>
        ensures { OnOk result (joins.new.items ≡ joins.old.items ++ cond output
            (joined (moved own self.now.pin.items) (moved first self.now.net.items))
            (joined (moved first self.now.net.items) (moved own self.now.pin.items))) }
    {
        if output {
            push_joined(joins, own, &self.pin, first, &self.net)
        } else {
            push_joined(joins, first, &self.net, own, &self.pin)
        }
    }

    /// Finds the places of a pin and of what is connected to it.
    fn find(
        &mut self,
        alloc: Global,
        site: &JoinSite<'_>,
        binding: Binding,
        number: u32,
        pieces: &[Piece],
    ) -> Result<(), OutOfMemory>
        requires there { IsThere (source_in site.now.source) binding }
        requires pin { number < length (binding_pins (source_in site.now.source) binding) }
        ensures pin { OnOk result
            (self.new.pin.items ≡ map Some (pin_at (source_in site.now.source) binding number).places) }
        ensures net { OnOk result (self.new.net.items ≡ expression_places site.now.module_nets.part.now pieces.now) }
    {
        self.pin.clear();
        self.net.clear();
        push_pin(alloc, &site.source, binding, number, &mut self.pin)?;
        site.module_nets
            .nets
            .push_places(alloc, site.module_nets.part, pieces, &mut self.net)
    }
}

/// Takes in the joins of what is connected to a pin, if anything is.
fn push_pin_joins(
    alloc: Global,
    joins: &mut Vec<Join>,
    ends: &mut Ends,
    site: &JoinSite<'_>,
    instance: &Instance<'_>,
    number: u32,
) -> Result<(), OutOfMemory>
    requires there { IsThere (source_in site.now.source) instance.now.binding }
    requires pin { number < length (binding_pins (source_in site.now.source) instance.now.binding) }
    requires connected { IsOfItem instance.now.connected.now instance.now.item.now }
    ensures { OnOk result (joins.new.items ≡ joins.old.items ++
        flat_map (wiring_joins (place_at site.now.module_nets.part.now 0 site.now.first) site.now.own)
        (wiring_at instance.now.item.now (source_in site.now.source) instance.now.binding number)) }
{
    let source = &site.source;
    let binding = instance.binding;
    let name = pin_name(source.cells, source.modules, binding, number);
    let connected = instance.connected;
    let Some(expr) = connected.expression(instance.item, number as usize, name) else {
        return Ok(());
    };
    ends.find(alloc, site, binding, number, expr.items())?;
    let output = is_output(source, binding, number);
    ends.push_joins(joins, output, site.own, site.first)
}

/// Takes in the joins of an instance.
fn push_instance(
    alloc: Global,
    joins: &mut Vec<Join>,
    site: &JoinSite<'_>,
    item: &Item,
    binding: Binding,
) -> Result<(), OutOfMemory>
    requires { IsThere (source_in site.now.source) binding }
    ensures { OnOk result (joins.new.items ≡ joins.old.items ++
        flat_map (wiring_joins (place_at site.now.module_nets.part.now 0 site.now.first) site.now.own)
        (wirings_of item.now (binding_pins (source_in site.now.source) binding))) }
{
    let connected = &ConnectionIndex::new(alloc, item)?;
    let instance = Instance {
        item,
        binding,
        connected,
    };
    let mut ends = Ends::new(alloc);
    let count = pin_count(site.source.cells, site.source.modules, binding)?;
    for number in 0..count {
        push_pin_joins(alloc, joins, &mut ends, site, &instance, number)?;
    }
    Ok(())
}

/// Takes in the joins of an item.
pub(crate) fn push_joins(
    alloc: Global,
    joins: &mut Vec<Join>,
    site: &JoinSite<'_>,
    item: &Item,
    binding: Binding,
) -> Result<(), OutOfMemory>
    requires binding { binding ≡ binding_in (source_in site.now.source) item.now }
    requires there { IsThere (source_in site.now.source) binding }
    ensures { OnOk result ((scope scopes leaves : ℕ) →
        joins.new.items ≡ joins.old.items
        ++ joins_in (source_in site.now.source)
        (step_at (place_at site.now.module_nets.part.now scope site.now.first)
        (counts scopes leaves site.now.own) item.now) item.now) }
{
    match item {
        Item::Assign { left, right, .. } => {
            push_assign(alloc, joins, site, left.items(), right.items())
        }
        _ => push_instance(alloc, joins, site, item, binding),
    }
}
