//! The walk from the top down, which makes the lists of a hierarchy.
ghost use Rattle.std.specs.Prelude.{◌≡◌, ◌<◌, ◌^◌, ◌++◌, ◌∷◌, [], ℕ, map, length, slice_index_or, IfOk, OnOk};
ghost use Rattle.mintc_cells.specs.Entries.{cell_at};
ghost use Rattle.mintc_flatten_hierarchy.specs.Sources.{module_at, binding_in, bindings_in};
ghost use Rattle.mintc_flatten_hierarchy.specs.Walks.{counts, place_at, step_at, steps_from, inside};
ghost use Rattle.mintc_netlist.specs.Nets.{bit_of, bits_of};
ghost use Rattle.mintc_netlist_nets.specs.Tables.{table_of};
ghost use Rattle.mintc_flatten_hierarchy.specs.Hierarchies.{net_of, name_of, statement_of, nets_in, pins_in, joins_in};
ghost use Rattle.mintc_flatten_hierarchy.specs.Hierarchies.{top_scope, top_port, hierarchy_of};
ghost use Rattle.mintc_flatten_binding.specs.NetsOfModules.{source_in};
ghost use Rattle.mintc_flatten_binding.specs.Orders.{IsThere};
ghost use Rattle.mintc_flatten.specs.Places.{place_in};
ghost use Rattle.mintc_flatten.specs.Growing.{lists};
ghost use Rattle.mintc_netlist.specs.Connections.{ports_of};

use crate::joins::{JoinSite, push_joins};
use crate::plan::Plan;
use crate::ports::top_ports;
use mintc_cells::Cells;
use mintc_flatten_binding::{BindingList, ModuleNets, Source};
use mintc_flatten_hierarchy::{
    Binding, Hierarchy, Inner, InnerList, Join, JoinList, Leaf, LeafList, Scope, ScopeList,
    TopPort, TopPortList,
};
use mintc_netlist::{Item, Module, Span};
use mintc_netlist_nets::{Nets, bits, index_at};
use mintc_text::{Name, OutOfMemory};
use std::alloc::Global;
use std::marker::Model;

/// The lists of a hierarchy as far as the walk has come.
#[derive(Drop)]
pub(crate) struct Walk {
    scopes: Vec<Scope>,
    leaves: Vec<Leaf>,
    inner: Vec<Inner>,
    joins: Vec<Join>,
}

impl Model for Walk {
    ghost use Rattle.mintc_flatten.specs.Growing.{Lists, lists};

    ghost Value = { Lists };

    ghost view = { λ w. lists w.scopes.items w.leaves.items w.inner.items w.joins.items };
}

/// A number that is known to be small.
fn to_u32(number: usize) -> Result<u32, OutOfMemory>
    ensures { IfOk result (λ n. n ≡ number) }
{
    Ok(u32::try_from(number)?)
}

/// The name of an instance; no byte for another item.
fn item_name(alloc: Global, item: &Item) -> Result<Name, OutOfMemory>
    ensures { IfOk result (λ name. name ≡ name_of item.now) }
{
    match item {
        Item::Instance { name, .. } => name.copy(alloc),
        _ => Name::new(alloc, &[]),
    }
}

/// The statement of an instance; 0 for another item.
fn item_entry(item: &Item) -> u32
    ensures { result ≡ statement_of item.now }
{
    match item {
        Item::Instance { entry, .. } => *entry,
        _ => 0,
    }
}

/// Takes in the pins of a leaf.
fn push_pins(
    alloc: Global,
    inner: &mut Vec<Inner>,
    cells: &Cells,
    leaf: u32,
    cell: u32,
) -> Result<(), OutOfMemory>
    requires { cell < length cells.now }
    ensures { OnOk result (inner.new.items ≡ inner.old.items ++ pins_in leaf (cell_at cells.now cell)) }
{
    for number in 0..cells.pin_count(cell) {
        let pin = cells.pin(cell, number).copy(alloc)?;
        inner.push(Inner::Pin { leaf, pin })?;
    }
    Ok(())
}

/// Takes in the bits of a net of a scope from the rightmost.
fn push_net(
    alloc: Global,
    inner: &mut Vec<Inner>,
    span: Option<Span>,
    name: &[u8],
    scope: u32,
) -> Result<(), OutOfMemory>
    ensures { OnOk result (inner.new.items ≡ inner.old.items ++ map (net_of scope) (bits_of name.now span)) }
{
    let Some(span) = span else {
        return push_bit(alloc, inner, scope, name, None);
    };
    for number in 0..bits(Some(span)) {
        push_bit(
            alloc,
            inner,
            scope,
            name,
            Some(index_at(span, number as u32)),
        )?;
    }
    Ok(())
}

/// Takes in a bit of a net of a scope.
fn push_bit(
    alloc: Global,
    inner: &mut Vec<Inner>,
    scope: u32,
    name: &[u8],
    index: Option<u32>,
) -> Result<(), OutOfMemory>
    ensures { OnOk result (inner.new.items ≡ inner.old.items ++ net_of scope (bit_of name.now index) ∷ []) }
{
    let name = Name::new(alloc, name)?;
    inner.push(Inner::Net { scope, name, index })?;
    Ok(())
}

/// Takes in the nets of a scope.
fn push_nets(
    alloc: Global,
    inner: &mut Vec<Inner>,
    module: &Module,
    nets: &Nets,
    scope: u32,
) -> Result<(), OutOfMemory>
    requires { nets.now ≡ table_of «module».now }
    ensures { OnOk result (inner.new.items ≡ inner.old.items ++ nets_in scope «module».now) }
{
    for place in 0..nets.len() {
        let name = nets.name(place);
        push_net(alloc, inner, nets.range(module, name), name, scope)?;
    }
    Ok(())
}

/// A scope that is gone into: the number of its module, its own number, and its first inner bit.
#[derive(Clone, Copy)]
struct ScopeStart {
    number: u32,
    scope: u32,
    first: u32,
}

/// A scope of what is walked through: its module, its number, and its first inner bit.
#[derive(Clone, Copy)]
pub(crate) struct Place<'a> {
    plan: Plan<'a>,
    module_nets: ModuleNets<'a>,
    scope: u32,
    first: u32,
}

impl Place<'_> {
    /// Takes in the joins of an item of the scope, whose own bits begin at `own`.
    fn push_joins(
        &self,
        alloc: Global,
        joins: &mut Vec<Join>,
        own: u32,
        item: &Item,
        binding: Binding,
    ) -> Result<(), OutOfMemory>
        requires binding { binding ≡ binding_in (source_in self.now.plan.source) item.now }
        requires there { IsThere (source_in self.now.plan.source) binding }
        ensures { OnOk result ((scopes leaves : ℕ) →
            joins.new.items ≡ joins.old.items
            ++ joins_in (source_in self.now.plan.source)
            (step_at (place_in self.now) (counts scopes leaves own) item.now) item.now) }
    {
        let site = JoinSite {
            source: self.plan.source,
            module_nets: self.module_nets,
            first: self.first,
            own,
        };
        push_joins(alloc, joins, &site, item, binding)
    }
}

impl Walk {
    ghost use Rattle.mintc_flatten_hierarchy.specs.declared.bindings.Binding.TheVariants.{OfCell, OfModule, OfNothing};
    ghost use Rattle.mintc_flatten.specs.Growing.{Lists, lists, sizes, grown, grown_by, grown_all};

    /// Takes in a leaf that stands in a scope.
    fn leaf(
        &mut self,
        alloc: Global,
        place: &Place<'_>,
        item: &Item,
        cell: u32,
    ) -> Result<(), OutOfMemory>
        requires cell { cell < length place.now.plan.source.cells.now }
        requires binding { OfCell cell ≡ binding_in (source_in place.now.plan.source) item.now }
        ensures { OnOk result
            (self.new ≡ grown_by (source_in place.now.plan.source) self.old
            (step_at (place_in place.now) (sizes self.old) item.now) (OfCell cell)) }
    {
        let number = to_u32(self.leaves.len())?;
        let own = to_u32(self.inner.len())?;
        let name = item_name(alloc, item)?;
        let leaf = Leaf {
            scope: place.scope,
            name,
            cell,
            first_pin: own,
            entry: item_entry(item),
        };
        self.leaves.push(leaf)?;
        let cells = place.plan.source.cells;
        push_pins(alloc, &mut self.inner, cells, number, cell)?;
        let binding = Binding::OfCell(cell);
        place.push_joins(alloc, &mut self.joins, own, item, binding)
    }

    /// Takes in a scope that stands in a scope.
    fn scope(
        &mut self,
        alloc: Global,
        place: &Place<'_>,
        item: &Item,
        number: u32,
    ) -> Result<(), OutOfMemory>
        requires number { number < length place.now.plan.source.modules.now }
        requires binding { OfModule number ≡ binding_in (source_in place.now.plan.source) item.now }
        ensures { OnOk result
            (self.new ≡ grown_by (source_in place.now.plan.source) self.old
            (step_at (place_in place.now) (sizes self.old) item.now) (OfModule number)) }
    {
        let scope = to_u32(self.scopes.len())?;
        let own = to_u32(self.inner.len())?;
        let name = item_name(alloc, item)?;
        let new = Scope {
            module: number,
            parent: place.scope,
            name,
        };
        self.scopes.push(new)?;
        let source = &place.plan.source;
        let part = &source.modules[number as usize];
        let nets = &source.nets[number as usize];
        push_nets(alloc, &mut self.inner, part, nets, scope)?;
        let binding = Binding::OfModule(number);
        place.push_joins(alloc, &mut self.joins, own, item, binding)
    }

    /// Takes in an item that is no instance.
    fn pass(&mut self, alloc: Global, place: &Place<'_>, item: &Item) -> Result<(), OutOfMemory>
        requires { OfNothing ≡ binding_in (source_in place.now.plan.source) item.now }
        ensures { OnOk result
            (self.new ≡ grown_by (source_in place.now.plan.source) self.old
            (step_at (place_in place.now) (sizes self.old) item.now) OfNothing) }
    {
        let own = to_u32(self.inner.len())?;
        let binding = Binding::OfNothing;
        place.push_joins(alloc, &mut self.joins, own, item, binding)
    }

    /// Takes in an item of a scope.
    fn step(
        &mut self,
        alloc: Global,
        place: &Place<'_>,
        item: &Item,
        binding: Binding,
    ) -> Result<(), OutOfMemory>
        requires binding { binding ≡ binding_in (source_in place.now.plan.source) item.now }
        requires there { IsThere (source_in place.now.plan.source) binding }
        ensures { OnOk result
            (self.new ≡ grown (source_in place.now.plan.source) self.old
            (step_at (place_in place.now) (sizes self.old) item.now)) }
    {
        match binding {
            Binding::OfCell(cell) => self.leaf(alloc, place, item, cell),
            Binding::OfModule(number) => self.scope(alloc, place, item, number),
            Binding::OfNothing => self.pass(alloc, place, item),
        }
    }

    /// Takes in an item of a scope and all that stands inside it, so many instances deep.
    #[cycle(walk)]
    fn visit(
        &mut self,
        alloc: Global,
        deep: usize,
        place: &Place<'_>,
        item: &Item,
        binding: Binding,
    ) -> Result<(), OutOfMemory>
        requires binding { binding ≡ binding_in (source_in place.now.plan.source) item.now }
        requires there { IsThere (source_in place.now.plan.source) binding }
        requires deep { deep < 2 ^ 32 }
        ensures { OnOk result (self.new ≡ grown_all (source_in place.now.plan.source) self.old
            (step_at (place_in place.now) (sizes self.old) item.now ∷
            inside (source_in place.now.plan.source) deep (sizes self.old) item.now)) }
    {
        let scope = to_u32(self.scopes.len())?;
        let first = to_u32(self.inner.len())?;
        self.step(alloc, place, item, binding)?;
        if deep == 0 {
            return Ok(());
        }
        match binding {
            Binding::OfModule(number) => {
                let start = ScopeStart {
                    number,
                    scope,
                    first,
                };
                self.enter(alloc, &place.plan, deep - 1, start)
            }
            _ => Ok(()),
        }
    }

    /// Takes in the items of a scope, each with all that stands inside it.
    #[cycle(walk)]
    fn enter(
        &mut self,
        alloc: Global,
        plan: &Plan<'_>,
        deep: usize,
        start: ScopeStart,
    ) -> Result<(), OutOfMemory>
        requires number { start.number < length plan.now.source.modules.now }
        requires deep { deep < 2 ^ 32 }
        ensures { OnOk result (self.new ≡ grown_all (source_in plan.now.source) self.old
            (steps_from (source_in plan.now.source) (inside (source_in plan.now.source) deep)
            (place_at (module_at (source_in plan.now.source) start.number) start.scope start.first) (sizes self.old)
            (module_at (source_in plan.now.source) start.number).items)) }
    {
        let ScopeStart {
            number,
            scope,
            first,
        } = start;
        let part = &plan.source.modules[number as usize];
        let nets = &plan.source.nets[number as usize];
        let place = Place {
            plan: *plan,
            module_nets: ModuleNets { part, nets },
            scope,
            first,
        };
        let items = part.items.items();
        let list = plan.bindings[number as usize].items();
        for (at, item) in items.iter().enumerate() {
            self.visit(alloc, deep, &place, item, list[at])?;
        }
        Ok(())
    }
}

/// The lists before the walk from a module.
fn begin(alloc: Global, source: &Source<'_>, top: u32) -> Result<Walk, OutOfMemory>
    requires { top < length source.now.modules.now }
    ensures { IfOk result
        (λ walk. walk ≡ lists (top_scope top ∷ []) [] (nets_in 0 (module_at (source_in source.now) top)) []) }
{
    let name = Name::new(alloc, &[])?;
    let mut scopes = Vec::new(alloc);
    scopes.push(Scope {
        module: top,
        parent: 0,
        name,
    })?;
    let mut inner = Vec::new(alloc);
    let part = &source.modules[top as usize];
    let nets = &source.nets[top as usize];
    push_nets(alloc, &mut inner, part, nets, 0)?;
    Ok(Walk {
        scopes,
        leaves: Vec::new(alloc),
        inner,
        joins: Vec::new(alloc),
    })
}

/// The hierarchy from a module.
pub(crate) fn hierarchy(
    alloc: Global,
    source: &Source<'_>,
    bindings: &[BindingList],
    top: u32,
) -> Result<Hierarchy, OutOfMemory>
    requires bindings { bindings.now ≡ map (bindings_in (source_in source.now)) source.now.modules.now }
    requires top { top < length source.now.modules.now }
    requires few { length source.now.modules.now < 2 ^ 32 }
    ensures { IfOk result (λ h. h ≡ hierarchy_of (source_in source.now) top) }
{
    let part = &source.modules[top as usize];
    let ports = top_ports(alloc, part, &source.nets[top as usize])?;
    let mut walk = begin(alloc, source, top)?;
    let plan = Plan {
        source: *source,
        bindings,
    };
    let start = ScopeStart {
        number: top,
        scope: 0,
        first: 0,
    };
    walk.enter(alloc, &plan, source.modules.len(), start)?;
    Ok(finish(walk, ports))
}

/// The hierarchy of a walk that is done.
fn finish(walk: Walk, ports: Vec<TopPort>) -> Hierarchy
    ensures scopes { result.scopes ≡ walk.scopes }
    ensures leaves { result.leaves ≡ walk.leaves }
    ensures inner { result.inner ≡ walk.inner }
    ensures joins { result.joins ≡ walk.joins }
    ensures ports { result.ports ≡ ports.items }
{
    let Walk {
        scopes,
        leaves,
        inner,
        joins,
    } = walk;
    Hierarchy {
        scopes: ScopeList::new(scopes),
        leaves: LeafList::new(leaves),
        inner: InnerList::new(inner),
        joins: JoinList::new(joins),
        ports: TopPortList::new(ports),
    }
}
