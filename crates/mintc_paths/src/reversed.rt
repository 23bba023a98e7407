//! Sequences reversed: each arc from its end to its start, from the last arc to the first, and outputs in place of
//! inputs.
ghost use Rattle.std.specs.Prelude.{◌≡◌, ◌<◌, ◌≤◌, ◌+◌, ◌-◌, ◌*◌, ◌^◌, ℕ, length, reverse, IfOk};
ghost use Rattle.mintc_text.specs.declared.limits.TheConstants.{MOST_ELEMENTS};
ghost use Rattle.mintc_timing.specs.Order.{IsOrder};
ghost use Rattle.mintc_timing.specs.Paths.{arc_at};
ghost use Rattle.mintc_paths_sums.specs.Placed.{row_of};
ghost use Rattle.mintc_paths.specs.Sums.{AreRows, IsSequence};
ghost use Rattle.mintc_paths.specs.Reversed.{reversed_bit, bit_before, flipped, reversed_arcs};

use crate::rows::{ArcSequence, Rows, arcs_by_row};
use mintc_timing::{Flat, Order, TimingArc};
use std::alloc::{AllocError, Global};

/// Where a bit goes as a design is reversed: an output becomes the input of its element, an input the output at its
/// element's place, and an inner bit stays.
fn bit_after(bit: u32, elements: u32, places: &Rows) -> u32
    requires few { elements ≤ MOST_ELEMENTS }
    requires places { AreRows elements places.now }
    ensures { result ≡ reversed_bit elements places.now.of_bits.items bit }
{
    if bit >= 2 * elements {
        bit
    } else if bit % 2 == 1 {
        bit - 1
    } else {
        2 * places.of_bits[bit as usize / 2] + 1
    }
}

/// Which bit goes there as a design is reversed.
fn bit_before(bit: u32, elements: u32, places: &Rows) -> u32
    requires few { elements ≤ MOST_ELEMENTS }
    requires places { AreRows elements places.now }
    ensures { result ≡ bit_before elements places.now.bits.items bit }
{
    if bit >= 2 * elements {
        bit
    } else if bit % 2 == 0 {
        bit + 1
    } else {
        2 * places.bits[bit as usize / 2]
    }
}

/// Turns the arcs round, from the last one to the first.
fn reverse_arcs(along: &mut [TimingArc])
    ensures { (i : ℕ) → i < length along.old →
        arc_at along.new i ≡ flipped (arc_at along.old (length along.old - 1 - i)) }
{
    along.reverse();
    for place in 0..along.len() {
        let arc = along[place];
        along[place] = TimingArc {
            from: arc.to,
            to: arc.from,
            min: arc.min,
            max: arc.max,
        };
    }
}

/// The rows of the bits where they go, from those where they were.
fn rows_after(
    alloc: Global,
    before: &[u32],
    elements: u32,
    places: &Rows,
) -> Result<Vec<u32>, AllocError>
    requires few { elements ≤ MOST_ELEMENTS }
    requires some { length before.now ≤ 2 ^ 24 }
    requires all { 2 * elements ≤ length before.now }
    requires places { AreRows elements places.now }
    ensures count { IfOk result (λ rows. length rows.items ≡ length before.now) }
    ensures each { IfOk result (λ rows. (bit : ℕ) → bit < length before.now →
        row_of rows.items bit ≡ row_of before.now (bit_before elements places.now.bits.items bit)) }
{
    let mut rows = Vec::with_capacity(alloc, before.len())?;
    for bit in 0..before.len() {
        let old = bit_before(bit as u32, elements, places);
        rows.push(before[old as usize])?;
    }
    Ok(rows)
}

/// Has each row its bit where it goes.
fn reverse_bits(bits: &mut [u32], elements: u32, places: &Rows)
    requires few { elements ≤ MOST_ELEMENTS }
    requires places { AreRows elements places.now }
    ensures { (row : ℕ) → row < length bits.old →
        row_of bits.new row ≡ reversed_bit elements places.now.of_bits.items (row_of bits.old row) }
{
    for row in 0..bits.len() {
        bits[row] = bit_after(bits[row], elements, places);
    }
}

/// The rows of the bits where they go as a design is reversed.
fn reversed_rows(
    alloc: Global,
    rows: Rows,
    elements: u32,
    places: &Rows,
) -> Result<Rows, AllocError>
    requires few { elements ≤ MOST_ELEMENTS }
    requires some { length rows.of_bits.items ≤ 2 ^ 24 }
    requires all { 2 * elements ≤ length rows.of_bits.items }
    requires rows { AreRows (length rows.of_bits.items) rows }
    requires places { AreRows elements places.now }
    ensures rows { IfOk result (λ reversed. AreRows (length rows.of_bits.items) reversed) }
    ensures each { IfOk result (λ reversed. (bit : ℕ) → bit < length rows.of_bits.items
        → row_of reversed.of_bits.items (reversed_bit elements places.now.of_bits.items bit)
        ≡ row_of rows.of_bits.items bit) }
{
    let Rows {
        of_bits: before,
        mut bits,
    } = rows;
    let of_bits = rows_after(alloc, &before, elements, places)?;
    reverse_bits(&mut bits, elements, places);
    Ok(Rows { of_bits, bits })
}

/// The places of the elements, in the order of the rows of their inputs.
pub fn element_order(alloc: Global, elements: u32, rows: &Rows) -> Result<Rows, AllocError>
    requires few { elements ≤ MOST_ELEMENTS }
    ensures { IfOk result (λ places. AreRows elements places) }
{
    let mut places = Rows::plain(alloc, elements as usize)?;
    let mut given = 0;
    for bit in &rows.bits {
        if *bit < 2 * elements && *bit % 2 == 0 {
            given = places.meet(*bit / 2, given);
        }
    }
    Ok(places)
}

/// The sequence of the design reversed.
pub fn reversed_sequence(
    alloc: Global,
    flat: &Flat,
    order: &Order,
    sequence: ArcSequence,
    places: &Rows,
) -> Result<ArcSequence, AllocError>
    requires order { IsOrder flat.now.arcs order.now }
    requires sequence { IsSequence (2 * length flat.now.elements + length flat.now.inner) flat.now.arcs order.now
        sequence }
    requires places { AreRows (length flat.now.elements) places.now }
    ensures { IfOk result
        (λ reversed. IsSequence (2 * length flat.now.elements + length flat.now.inner)
        (reversed_arcs (length flat.now.elements) places.now.of_bits.items flat.now.arcs)
        (reverse order.now) reversed) }
{
    let elements = flat.element_count();
    let ArcSequence {
        rows,
        mut along,
        leaving,
    } = sequence;
    drop(leaving);
    let rows = reversed_rows(alloc, rows, elements, places)?;
    reverse_arcs(&mut along);
    let leaving = arcs_by_row(alloc, &along, rows.of_bits.len())?;
    Ok(ArcSequence {
        rows,
        along,
        leaving,
    })
}
