//! How many pairs a design has at most, by a look at its arcs alone.
ghost use Rattle.std.specs.Prelude.{◌≡◌, ◌≤◌, length, IfOk};
ghost use Rattle.std.specs.Bool.{OnTrue};
ghost use Rattle.mintc_text.specs.Limits.{AreLimits};
ghost use Rattle.mintc_text.specs.declared.limits.TheConstants.{MOST_ELEMENTS};
ghost use Rattle.mintc_timing.specs.Limits.{IsDesign};
ghost use Rattle.mintc_timing.specs.Order.{IsOrder, ArePathsShort};
ghost use Rattle.mintc_paths_count.specs.Bound.{HasFewPairs, pairs_by, most_pairs};

use mintc_paths::{ArcSequence, Rows, bound_is_within_limit};
use mintc_text::Limits;
use mintc_timing::{Flat, Order, TimingArc};
use std::alloc::{AllocError, Global};

/// How many pairs an arc brings at most, of a design with so many elements.
fn pairs_by(arc: TimingArc, elements: u32) -> u64
    requires { elements ≤ MOST_ELEMENTS }
    ensures value { result ≡ pairs_by elements arc }
    ensures few { result ≤ MOST_ELEMENTS }
{
    if arc.to >= 2 * elements {
        0
    } else if arc.from < 2 * elements {
        1
    } else {
        elements as u64
    }
}

/// No more pairs than this are in the design: what its arcs into inputs bring, one each from an output and one from
/// each element where an arc comes from an inner bit.
fn most_pairs(flat: &Flat) -> u64
    ensures value { result ≡ most_pairs (length flat.now.elements) flat.now.arcs }
    ensures design { IsDesign flat.now }
{
    let elements = flat.element_count();
    let mut most = 0;
    for arc in flat.arcs() {
        most += pairs_by(*arc, elements);
    }
    most
}

/// Whether a look at the arcs tells that the pairs are within the limit, and that no path is too long.
pub(crate) fn are_plainly_few(
    alloc: Global,
    limits: &Limits,
    flat: &Flat,
    order: &Order,
) -> Result<bool, AllocError>
    requires { IsOrder flat.now.arcs order.now }
    ensures few { IfOk result (λ few. OnTrue few (HasFewPairs limits.now flat.now)) }
    ensures short { IfOk result (λ few. OnTrue few (ArePathsShort flat.now)) }
    ensures kept { AreLimits limits.now }
{
    if (limits.most().pairs as u64) < most_pairs(flat) {
        return Ok(false);
    }
    let rows = Rows::plain(alloc, flat.bit_count())?;
    let sequence = ArcSequence::new(alloc, flat, order, rows)?;
    let short = bound_is_within_limit(alloc, flat, order, &sequence)?;
    Ok(short)
}
