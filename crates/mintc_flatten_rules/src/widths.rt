//! Widths and selects that don't fit.
ghost use Rattle.std.specs.Prelude.{◌≡◌, ◌<◌, ◌++◌, ◌∷◌, ◌&&◌, ◌||◌, [], None, not, nat_eq, map, length, IfOk, OnOk};
ghost use Rattle.std.specs.List.{list_any};
ghost use Rattle.std.specs.Option.{option_eq};
ghost use Rattle.mintc_netlist.specs.Statements.{first_at_fault};
ghost use Rattle.mintc_netlist.specs.Expressions.{width_of, selects_fit, has_constant};
ghost use Rattle.mintc_netlist.specs.Connections.{wiring_of, wirings_of};
ghost use Rattle.mintc_flatten_hierarchy.specs.Sources.{binding_in, binding_pins, bindings_in, modules_of};
ghost use Rattle.mintc_flatten_hierarchy.specs.Faults.{span_eq, is_wired_badly, is_misfit};
ghost use Rattle.mintc_flatten_rules.specs.Firsts.{first_in};
ghost use Rattle.mintc_flatten_binding.specs.NetsOfModules.{source_in};
ghost use Rattle.mintc_flatten_binding.specs.Orders.{IsThere};
ghost use Rattle.mintc_flatten_rules.specs.Widths.{differs};
ghost use Rattle.mintc_flatten_binding.specs.Wired.{pin_at, wiring_at, IsOfItem};

use crate::site::Site;
use mintc_flatten_binding::{
    BindingList, ConnectionIndex, Instance, ModuleNets, Source, is_output, pin_count, pin_name,
    pin_width,
};
use mintc_flatten_hierarchy::Binding;
use mintc_netlist::{Item, Piece, Span, entry};
use mintc_netlist_nets::{Declarations, has_constant};
use mintc_text::limits::MOST_WIDTH;
use mintc_text::{Name, OutOfMemory};
use std::alloc::Global;

/// Whether two ranges are the same.
fn is_same_range(one: Option<Span>, other: Option<Span>) -> bool
    ensures { result ≡ option_eq span_eq one other }
{
    match (one, other) {
        (Some(one), Some(other)) => one.msb == other.msb && one.lsb == other.lsb,
        (None, None) => true,
        _ => false,
    }
}

/// Whether a name is declared with another range.
fn differs(declared: &Declarations, span: Option<Span>, name: &[u8]) -> bool
    ensures { result ≡ differs declared.now span name.now }
{
    match declared.find(name) {
        Some(declaration) => !is_same_range(span, declaration.span),
        None => false,
    }
}

/// Whether one of some names is declared with another range.
fn any_differs(declared: &Declarations, span: Option<Span>, names: &[Name]) -> bool
    ensures { result ≡ list_any (differs declared.now span) names.now }
{
    for name in names {
        if differs(declared, span, name.bytes()) {
            return true;
        }
    }
    false
}

/// How many bits an expression has.
fn width(module_nets: &ModuleNets<'_>, pieces: &[Piece]) -> Result<u64, OutOfMemory>
    ensures { IfOk result (λ width. width ≡ width_of module_nets.now.part.now pieces.now) }
{
    if MOST_WIDTH < pieces.len() {
        return Err(OutOfMemory);
    }
    Ok(module_nets.nets.width(module_nets.part, pieces))
}

/// Whether the sides of an assign don't fit.
fn assign_misfits(
    module_nets: &ModuleNets<'_>,
    left: &[Piece],
    right: &[Piece],
) -> Result<bool, OutOfMemory>
    ensures { IfOk result (λ misfits. misfits ≡
        ((not (selects_fit module_nets.now.part.now left.now && selects_fit module_nets.now.part.now right.now)
        || not (nat_eq (width_of module_nets.now.part.now left.now) (width_of module_nets.now.part.now right.now)))
        || has_constant left.now)) }
{
    let same = width(module_nets, left)? == width(module_nets, right)?;
    let fit = module_nets.nets.selects_fit(module_nets.part, left)
        && module_nets.nets.selects_fit(module_nets.part, right);
    Ok(!fit || !same || has_constant(left))
}

/// Whether what is connected to a pin doesn't fit.
fn is_wired_badly(
    site: &Site<'_>,
    binding: Binding,
    number: u32,
    pieces: &[Piece],
) -> Result<bool, OutOfMemory>
    requires there { IsThere (source_in site.now.source) binding }
    requires pin { number < length (binding_pins (source_in site.now.source) binding) }
    ensures { IfOk result
        (λ bad. bad ≡ is_wired_badly site.now.module_nets.part.now
        (wiring_of (pin_at (source_in site.now.source) binding number) pieces.now)) }
{
    let (source, module_nets) = (&site.source, &site.module_nets);
    let same = width(module_nets, pieces)? == pin_width(source, binding, number);
    let fit = module_nets.nets.selects_fit(module_nets.part, pieces);
    let output = is_output(source, binding, number);
    Ok(!fit || !same || (output && has_constant(pieces)))
}

/// Whether what an instance connects to a pin, if anything, doesn't fit.
fn pin_misfits(site: &Site<'_>, instance: &Instance<'_>, number: u32) -> Result<bool, OutOfMemory>
    requires there { IsThere (source_in site.now.source) instance.now.binding }
    requires pin { number < length (binding_pins (source_in site.now.source) instance.now.binding) }
    requires connected { IsOfItem instance.now.connected.now instance.now.item.now }
    ensures { IfOk result
        (λ misfits. misfits ≡ list_any (is_wired_badly site.now.module_nets.part.now)
        (wiring_at instance.now.item.now (source_in site.now.source) instance.now.binding number)) }
{
    let source = &site.source;
    let binding = instance.binding;
    let name = pin_name(source.cells, source.modules, binding, number);
    let connected = instance.connected;
    match connected.expression(instance.item, number as usize, name) {
        Some(expr) => is_wired_badly(site, binding, number, expr.items()),
        None => Ok(false),
    }
}

/// Whether something that an instance connects to a pin doesn't fit, by what is kept of its connections.
fn any_misfits(site: &Site<'_>, instance: &Instance<'_>) -> Result<bool, OutOfMemory>
    requires there { IsThere (source_in site.now.source) instance.now.binding }
    requires connected { IsOfItem instance.now.connected.now instance.now.item.now }
    ensures { IfOk result
        (λ misfits. misfits ≡ list_any (is_wired_badly site.now.module_nets.part.now)
        (wirings_of instance.now.item.now (binding_pins (source_in site.now.source) instance.now.binding))) }
{
    let source = &site.source;
    let count = pin_count(source.cells, source.modules, instance.binding)?;
    for number in 0..count {
        if pin_misfits(site, instance, number)? {
            return Ok(true);
        }
    }
    Ok(false)
}

/// Whether something that an instance connects to a pin doesn't fit.
fn instance_misfits(
    alloc: Global,
    site: &Site<'_>,
    item: &Item,
    binding: Binding,
) -> Result<bool, OutOfMemory>
    requires there { IsThere (source_in site.now.source) binding }
    ensures { IfOk result
        (λ misfits. misfits ≡ list_any (is_wired_badly site.now.module_nets.part.now)
        (wirings_of item.now (binding_pins (source_in site.now.source) binding))) }
{
    let connected = &ConnectionIndex::new(alloc, item)?;
    let instance = Instance {
        item,
        binding,
        connected,
    };
    any_misfits(site, &instance)
}

/// What some items of a module declare.
#[derive(Drop)]
pub(crate) struct Declared {
    ports: Declarations,
    nets: Declarations,
}

impl Declared {
    ghost use Rattle.std.specs.Prelude.{List};
    ghost use Rattle.mintc_netlist.specs.declared.module.Item.{Item};
    ghost use Rattle.mintc_flatten_rules.specs.Widths.{IsDeclaredBy, misfits_after};

    /// What no items declare.
    fn new(alloc: Global) -> Declared
        ensures { IsDeclaredBy result [] }
    {
        Declared {
            ports: Declarations::new(alloc),
            nets: Declarations::new(alloc),
        }
    }

    /// Takes in what an item declares.
    fn note(&mut self, alloc: Global, item: &Item) -> Result<(), OutOfMemory>
        ensures { OnOk result ((before : List Item) → IsDeclaredBy self.old before →
            IsDeclaredBy self.new (before ++ item.now ∷ [])) }
    {
        self.ports.note_ports(alloc, item)?;
        self.nets.note_nets(alloc, item)
    }

    /// Whether an item doesn't fit after these.
    fn misfits(
        &self,
        alloc: Global,
        site: &Site<'_>,
        item: &Item,
        binding: Binding,
    ) -> Result<bool, OutOfMemory>
        requires binding { binding ≡ binding_in (source_in site.now.source) item.now }
        ensures { IfOk result (λ misfits. (before : List Item) → IsDeclaredBy self.now before →
            misfits ≡ misfits_after (source_in site.now.source) site.now.module_nets.part.now before item.now) }
    {
        match item {
            Item::Port { span, names, .. } => Ok(any_differs(&self.nets, *span, names.items())),
            Item::Wire { span, names, .. } => Ok(any_differs(&self.ports, *span, names.items())),
            Item::Assign { left, right, .. } => {
                assign_misfits(&site.module_nets, left.items(), right.items())
            }
            Item::Instance { .. } => instance_misfits(alloc, site, item, binding),
        }
    }

    /// The first statement of a module whose widths or selects don't fit, of all its items.
    fn first_misfit(
        &mut self,
        alloc: Global,
        site: &Site<'_>,
        bindings: &[Binding],
    ) -> Result<Option<u32>, OutOfMemory>
        requires bindings { bindings.now ≡ bindings_in (source_in site.now.source) site.now.module_nets.part.now }
        requires none { IsDeclaredBy self.old [] }
        ensures { IfOk result
            (λ first. first ≡ first_in (is_misfit (source_in site.now.source)) site.now.module_nets.part.now) }
    {
        let items = site.module_nets.part.items.items();
        for (number, item) in items.iter().enumerate() {
            if self.misfits(alloc, site, item, bindings[number])? {
                return Ok(Some(entry(item)));
            }
            self.note(alloc, item)?;
        }
        Ok(None)
    }
}

/// The first statement of a module whose widths or selects don't fit.
fn first_misfit(
    alloc: Global,
    site: &Site<'_>,
    bindings: &[Binding],
) -> Result<Option<u32>, OutOfMemory>
    requires bindings { bindings.now ≡ bindings_in (source_in site.now.source) site.now.module_nets.part.now }
    ensures { IfOk result
        (λ first. first ≡ first_in (is_misfit (source_in site.now.source)) site.now.module_nets.part.now) }
{
    Declared::new(alloc).first_misfit(alloc, site, bindings)
}

/// The first statement whose widths or selects don't fit.
pub(crate) fn misfit(
    alloc: Global,
    source: &Source<'_>,
    bindings: &[BindingList],
) -> Result<Option<u32>, OutOfMemory>
    requires { bindings.now ≡ map (bindings_in (source_in source.now)) source.now.modules.now }
    ensures { IfOk result
        (λ entry. entry ≡ first_at_fault (is_misfit (source_in source.now)) (modules_of (source_in source.now))) }
{
    for (number, part) in source.modules.iter().enumerate() {
        if source.cells.find(part.name.bytes()).is_some() {
            continue;
        }
        let nets = &source.nets[number];
        let site = Site {
            source: *source,
            module_nets: ModuleNets { part, nets },
        };
        let first = first_misfit(alloc, &site, bindings[number].items())?;
        if first.is_some() {
            return Ok(first);
        }
    }
    Ok(None)
}
