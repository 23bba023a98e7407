//! The number of a design's pairs, by marks that are carried from the inputs back.
ghost use Rattle.std.specs.Prelude.{◌≡◌, ◌+◌, ◌*◌, length, reverse, IfOk};
ghost use Rattle.mintc_timing.specs.Order.{IsOrder};
ghost use Rattle.mintc_paths_count.specs.Count.{IsCountBefore};
ghost use Rattle.mintc_paths.specs.Ordered.{Ordered, ordered};
ghost use Rattle.mintc_paths.specs.Sums.{AreRows, IsSequence};
ghost use Rattle.mintc_paths.specs.Reversed.{reversed_design, reversed_arcs};

use crate::count::count_along;
use mintc_paths::{ArcSequence, Rows, element_order, reversed_sequence};
use mintc_timing::{Flat, Order};
use std::alloc::{AllocError, Global};

/// The number of all pairs of the design reversed.
fn count_reversed(
    alloc: Global,
    flat: &Flat,
    order: &Order,
    sequence: &ArcSequence,
    places: &Rows,
) -> Result<u64, AllocError>
    ghost of: { Ordered }
    requires of { of ≡ ordered (reversed_design places.now.of_bits.items flat.now) (reverse order.now) }
    requires order { IsOrder flat.now.arcs order.now }
    requires sequence { IsSequence (2 * length flat.now.elements + length flat.now.inner)
        (reversed_arcs (length flat.now.elements) places.now.of_bits.items flat.now.arcs)
        (reverse order.now) sequence.now }
    requires places { AreRows (length flat.now.elements) places.now }
    ensures { IfOk result
        (IsCountBefore (reversed_design places.now.of_bits.items flat.now) (length flat.now.elements) 0) }
{
    let elements = flat.element_count();
    count_along(alloc, sequence, elements)
}

/// The number of all pairs, from the inputs back.
#[tactic(auto, using(crate::proofs::Counting::IsCountBefore_back))]
pub(crate) fn count_back(
    alloc: Global,
    flat: &Flat,
    order: &Order,
    sequence: ArcSequence,
) -> Result<u64, AllocError>
    requires order { IsOrder flat.now.arcs order.now }
    requires sequence { IsSequence (2 * length flat.now.elements + length flat.now.inner) flat.now.arcs order.now
        sequence }
    ensures { IfOk result (IsCountBefore flat.now (length flat.now.elements) 0) }
{
    let elements = flat.element_count();
    let places = element_order(alloc, elements, &sequence.rows)?;
    let sequence = reversed_sequence(alloc, flat, order, sequence, &places)?;
    count_reversed(alloc, flat, order, &sequence, &places)
}
