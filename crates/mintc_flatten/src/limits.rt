//! The limits of a hierarchy.
ghost use Rattle.std.specs.Prelude.{◌≡◌, ◌<◌, ◌^◌, ◌∷◌, [], None, Some, map, length, min, false, OnOk, IfErr};
ghost use Rattle.mintc_text.specs.Limits.{AreLimits};
ghost use Rattle.mintc_text.specs.Refusals.{over_limit};
ghost use Rattle.mintc_text.specs.Stops.{StopsAt};
ghost use Rattle.mintc_text.specs.declared.refusals.Kind.TheVariants as kind;
ghost use Rattle.mintc_flatten_hierarchy.specs.Sources.{module_at, is_stub, bindings_in};
ghost use Rattle.mintc_flatten_binding.specs.NetsOfModules.{source_in};
ghost use Rattle.mintc_flatten_binding.specs.Orders.{IsOrder, HoldsAll};
ghost use Rattle.mintc_flatten_hierarchy.specs.Refusals.{limit_refusal};

use crate::counts::{Count, count_modules, net_counts};
use mintc_flatten_binding::{BindingList, Source};
use mintc_text::limits::{MOST_DEPTH, MOST_TOLD, Most};
use mintc_text::{Kind, Limits, Refusal, Stop};
use std::alloc::Global;

/// The refusal of a quantity that passes its limit.
fn limit(kind: Kind, count: u64) -> Refusal
    ensures { result ≡ Refusal.Limit kind (min count MOST_TOLD) }
{
    Refusal::Limit {
        kind,
        count: count.min(MOST_TOLD),
    }
}

/// The refusal of the first quantity that passes its limit.
fn first_limit(most: Most, count: Count) -> Option<Refusal>
    ensures { result ≡ over_limit ((kind.Scopes, count.scopes, most.scopes) ∷ (kind.Depth, count.depth, MOST_DEPTH) ∷
        (kind.Leaves, count.leaves, most.leaves) ∷ (kind.Inner, count.inner, most.inner) ∷ []) }
{
    if count.scopes > most.scopes as u64 {
        Some(limit(Kind::Scopes, count.scopes))
    } else if count.depth > MOST_DEPTH as u64 {
        Some(limit(Kind::Depth, count.depth))
    } else if count.leaves > most.leaves as u64 {
        Some(limit(Kind::Leaves, count.leaves))
    } else if count.inner > most.inner as u64 {
        Some(limit(Kind::Inner, count.inner))
    } else {
        None
    }
}

/// Refuses a hierarchy that passes a limit of the run.
pub(crate) fn check_limits(
    alloc: Global,
    limits: &Limits,
    source: &Source<'_>,
    bindings: &[BindingList],
    order: &[u32],
    top: u32,
) -> Result<(), Stop>
    requires bindings { bindings.now ≡ map (bindings_in (source_in source.now)) source.now.modules.now }
    requires order { IsOrder (source_in source.now) order.now }
    requires whole { HoldsAll (source_in source.now) order.now }
    requires few { length source.now.modules.now < 2 ^ 32 }
    requires top { top < length source.now.modules.now }
    requires live { is_stub (source_in source.now) (module_at (source_in source.now) top) ≡ false }
    ensures passes { OnOk result (limit_refusal limits.now (source_in source.now) top ≡ None) }
    ensures kept { OnOk result (AreLimits limits.now) }
    ensures stop { IfErr result (StopsAt (λ r. limit_refusal limits.now (source_in source.now) top ≡ Some r)) }
{
    let bits = net_counts(alloc, source.modules, source.nets)?;
    let table = count_modules(alloc, source.cells, source.modules, bindings, &bits, order)?;
    let most = limits.most();
    match first_limit(most, table[top as usize]) {
        None => Ok(()),
        Some(refusal) => Err(Stop::Refused(refusal)),
    }
}
