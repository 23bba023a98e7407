//! The pairs of a design, by sums that are carried from the inputs back.
ghost use Rattle.std.specs.Prelude.{◌≡◌, ◌<◌, ◌≤◌, ◌+◌, ◌*◌, length, map, reverse, IfOk, All};
ghost use Rattle.std.specs.List.Sorted.{IsPermutation, IsNonDecreasingBy};
ghost use Rattle.mintc_timing.specs.Order.{IsOrder};
ghost use Rattle.mintc_paths.specs.Found.{IsFoundBefore, most_count};
ghost use Rattle.mintc_paths.specs.Longest.{AreRunsShort};
ghost use Rattle.mintc_paths.specs.Ordered.{Ordered, ordered};
ghost use Rattle.mintc_paths.specs.Sums.{AreRows, IsSequence};
ghost use Rattle.mintc_paths.specs.Reversed.{reversed_design, reversed_arcs, pair_back, key_of};

use crate::blocks::{Plan, find_along};
use crate::found::Found;
use crate::reversed::{element_order, reversed_sequence};
use crate::rows::{ArcSequence, Rows};
use mintc_text::OutOfMemory;
use mintc_text::limits::MOST_ELEMENTS;
use mintc_timing::{Flat, Order, Pair};
use std::alloc::Global;

/// By what pairs are ordered: the first element, then the second.
fn key_of(pair: &Pair) -> u64
    ensures { result ≡ key_of pair.now }
{
    MOST_ELEMENTS as u64 * pair.from as u64 + pair.to as u64
}

/// Turns each pair back.
fn reverse_each(pairs: &mut [Pair], places: &Rows)
    requires inside { All (λ pair. pair.from < length places.now.bits.items) pairs.old }
    ensures { pairs.new ≡ map (pair_back places.now.bits.items) pairs.old }
{
    for number in 0..pairs.len() {
        let pair = pairs[number];
        pairs[number] = Pair {
            from: pair.to,
            to: places.bits[pair.from as usize],
            min: pair.min,
            max: pair.max,
        };
    }
}

/// Turns the pairs back, and brings them into order.
fn reverse_pairs(pairs: &mut [Pair], places: &Rows)
    requires inside { All (λ pair. pair.from < length places.now.bits.items) pairs.old }
    ensures permutation { IsPermutation (map (pair_back places.now.bits.items) pairs.old) pairs.new }
    ensures sorted { IsNonDecreasingBy key_of pairs.new }
{
    reverse_each(pairs, places);
    pairs.sort_unstable_by_key(|pair: &Pair| key_of(pair));
}

/// Finds the pairs of the design reversed, and keeps so many. As no path is too long there, none is refused.
fn find_reversed(
    alloc: Global,
    most: usize,
    flat: &Flat,
    order: &Order,
    sequence: &ArcSequence,
    places: &Rows,
) -> Result<Found, OutOfMemory>
    ghost of: { Ordered }
    requires of { of ≡ ordered (reversed_design places.now.of_bits.items flat.now) (reverse order.now) }
    requires order { IsOrder flat.now.arcs order.now }
    requires sequence { IsSequence (2 * length flat.now.elements + length flat.now.inner)
        (reversed_arcs (length flat.now.elements) places.now.of_bits.items flat.now.arcs)
        (reverse order.now) sequence.now }
    requires places { AreRows (length flat.now.elements) places.now }
    requires short { AreRunsShort flat.now.arcs }
    ensures found { IfOk result
        (IsFoundBefore (reversed_design places.now.of_bits.items flat.now) (length flat.now.elements) 0) }
    ensures most { IfOk result (λ found. found.most ≡ most) }
{
    let elements = flat.element_count();
    let plan = Plan {
        sequence,
        elements,
        most,
        known_short: true,
    };
    match find_along(alloc, &plan) {
        Ok(found) => Ok(found),
        Err(_) => Err(OutOfMemory),
    }
}

/// Finds the pairs from the inputs back. Where they are more than are kept, their number alone counts.
pub(crate) fn find_backward(
    alloc: Global,
    most: usize,
    flat: &Flat,
    order: &Order,
    sequence: ArcSequence,
) -> Result<Found, OutOfMemory>
    requires order { IsOrder flat.now.arcs order.now }
    requires sequence { IsSequence (2 * length flat.now.elements + length flat.now.inner) flat.now.arcs order.now
        sequence }
    requires short { AreRunsShort flat.now.arcs }
    ensures found { IfOk result (IsFoundBefore flat.now (length flat.now.elements) 0) }
    ensures few { IfOk result (λ found. found.count ≤ most_count) }
    ensures most { IfOk result (λ found. found.most ≡ most) }
{
    let elements = flat.element_count();
    let places = element_order(alloc, elements, &sequence.rows)?;
    let sequence = reversed_sequence(alloc, flat, order, sequence, &places)?;
    let mut found = find_reversed(alloc, most, flat, order, &sequence, &places)?;
    if found.count > most as u64 {
        return Ok(found);
    }
    reverse_pairs(&mut found.pairs, &places);
    Ok(found)
}
