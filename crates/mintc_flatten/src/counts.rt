//! How many scopes, leaves and inner bits a hierarchy has, and how deep it is, without building it.
ghost use Rattle.std.specs.Prelude.{◌≡◌, ◌<◌, ◌≤◌, ◌+◌, ◌^◌, ◌-◌, ◌∷◌, ◌++◌, [], ℕ, suc, max, length, map, take};
ghost use Rattle.std.specs.Prelude.{slice_index, slice_index_or, IfOk};
ghost use Rattle.std.specs.List.{All};
ghost use Rattle.mintc_flatten_hierarchy.specs.Sources.{source_of, bindings_in};
ghost use Rattle.mintc_flatten_hierarchy.specs.Walks.{counts, plus};
ghost use Rattle.mintc_netlist_nets.specs.Tables.{table_of};
ghost use Rattle.mintc_flatten.specs.Totals.{capped, part, sum_parts, IsCapped, IsCounted, depth_of, greatest_depth};
ghost use Rattle.mintc_flatten.specs.Totals.{AreCounted, net_count};
ghost use Rattle.mintc_flatten_binding.specs.Orders.{IsOrder};

use mintc_cells::Cells;
use mintc_flatten_binding::BindingList;
use mintc_flatten_hierarchy::Binding;
use mintc_netlist::Module;
use mintc_netlist_nets::Nets;
use mintc_text::OutOfMemory;
use mintc_text::limits::MOST_TOLD;
use std::alloc::Global;

/// The counts of the hierarchy from a module. The first three are capped at `MOST_TOLD`.
#[derive(Clone, Copy)]
pub(crate) struct Count {
    pub scopes: u64,
    pub leaves: u64,
    pub inner: u64,
    pub depth: u64,
}

/// What an item's binding has with all that stands inside it.
fn part(cells: &Cells, modules: &[Module], table: &[Count], binding: Binding) -> Count
    requires { IsCounted (source_of cells.now modules.now) table.now binding }
    ensures { IsCapped (part (source_of cells.now modules.now) binding)
        (depth_of (source_of cells.now modules.now) binding) result }
{
    match binding {
        Binding::OfCell(number) => Count {
            scopes: 0,
            leaves: 1,
            inner: u64::from(cells.pin_count(number)).min(MOST_TOLD),
            depth: 0,
        },
        Binding::OfModule(number) => table[number as usize],
        Binding::OfNothing => Count {
            scopes: 0,
            leaves: 0,
            inner: 0,
            depth: 0,
        },
    }
}

/// The counts so far and those of one more binding.
fn with_part(count: Count, part: Count) -> Count
    requires scopes { count.scopes ≤ MOST_TOLD }
    requires leaves { count.leaves ≤ MOST_TOLD }
    requires inner { count.inner ≤ MOST_TOLD }
    requires more_scopes { part.scopes ≤ MOST_TOLD }
    requires more_leaves { part.leaves ≤ MOST_TOLD }
    requires more_inner { part.inner ≤ MOST_TOLD }
    ensures scopes { result.scopes ≡ capped (count.scopes + part.scopes) }
    ensures leaves { result.leaves ≡ capped (count.leaves + part.leaves) }
    ensures inner { result.inner ≡ capped (count.inner + part.inner) }
    ensures depth { result.depth ≡ max count.depth part.depth }
{
    Count {
        scopes: (count.scopes + part.scopes).min(MOST_TOLD),
        leaves: (count.leaves + part.leaves).min(MOST_TOLD),
        inner: (count.inner + part.inner).min(MOST_TOLD),
        depth: count.depth.max(part.depth),
    }
}

/// The counts of a module's own nets and of its items, before its own depth is added.
fn items_count(
    cells: &Cells,
    modules: &[Module],
    table: &[Count],
    bindings: &[Binding],
    bits: u64,
) -> Count
    requires counted { All (IsCounted (source_of cells.now modules.now) table.now) bindings.now }
    requires bits { bits ≤ MOST_TOLD }
    ensures { (own : ℕ) → bits ≡ capped own →
        IsCapped (plus (counts 1 0 own) (sum_parts (source_of cells.now modules.now) bindings.now))
        (greatest_depth (source_of cells.now modules.now) bindings.now) result }
{
    let mut count = Count {
        scopes: 1,
        leaves: 0,
        inner: bits,
        depth: 0,
    };
    for binding in bindings {
        count = with_part(count, part(cells, modules, table, *binding));
    }
    count
}

/// The counts of the hierarchy from a module, from its nets, its items' bindings and the counts of the modules
/// among them.
pub(crate) fn module_count(
    cells: &Cells,
    modules: &[Module],
    table: &[Count],
    bindings: &[Binding],
    bits: u64,
) -> Count
    requires counted { All (IsCounted (source_of cells.now modules.now) table.now) bindings.now }
    requires bits { bits ≤ MOST_TOLD }
    requires shallow { greatest_depth (source_of cells.now modules.now) bindings.now < 2 ^ 33 }
    ensures { (own : ℕ) → bits ≡ capped own →
        IsCapped (plus (counts 1 0 own) (sum_parts (source_of cells.now modules.now) bindings.now))
        (greatest_depth (source_of cells.now modules.now) bindings.now + 1) result }
{
    let items = items_count(cells, modules, table, bindings, bits);
    Count {
        scopes: items.scopes,
        leaves: items.leaves,
        inner: items.inner,
        depth: items.depth + 1,
    }
}

/// The counts of the hierarchies from the modules of an order, in which each stands behind those that it
/// instantiates. Of the other modules nothing is said.
pub(crate) fn count_modules(
    alloc: Global,
    cells: &Cells,
    modules: &[Module],
    bindings: &[BindingList],
    bits: &[u64],
    order: &[u32],
) -> Result<Vec<Count>, OutOfMemory>
    requires order { IsOrder (source_of cells.now modules.now) order.now }
    requires bindings { bindings.now ≡ map (bindings_in (source_of cells.now modules.now)) modules.now }
    requires bits { bits.now ≡ map net_count modules.now }
    requires few { length modules.now < 2 ^ 32 }
    ensures each { IfOk result
        (λ table. AreCounted (source_of cells.now modules.now) order.now (length order.now) table.items) }
    ensures length { IfOk result (λ table. length table.items ≡ length modules.now) }
{
    let none = Count {
        scopes: 0,
        leaves: 0,
        inner: 0,
        depth: 0,
    };
    let mut table = vec![in alloc; none; modules.len()]?;
    for number in order {
        let at = *number as usize;
        table[at] = module_count(cells, modules, &table, bindings[at].items(), bits[at]);
    }
    Ok(table)
}

/// How many bits the nets of each module have, capped at `MOST_TOLD`.
pub(crate) fn net_counts(
    alloc: Global,
    modules: &[Module],
    nets: &[Nets],
) -> Result<Vec<u64>, OutOfMemory>
    requires { nets.now ≡ map table_of modules.now }
    ensures { IfOk result (λ counts. counts.items ≡ map net_count modules.now) }
{
    let mut counts = Vec::new(alloc);
    for table in nets {
        counts.push(table.count().min(MOST_TOLD))?;
    }
    Ok(counts)
}
