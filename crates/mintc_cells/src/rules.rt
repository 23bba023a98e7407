//! The rules on a cell's value.
ghost use Rattle.std.specs.Prelude.{◌≡◌, ◌<◌, ◌+◌, ◌&&◌, length, bytes_eq, drop, slice_index_or, []};
ghost use Rattle.std.specs.List.{list_any, list_all};
ghost use Rattle.mintc_toml.specs.Rules.{is_name};
ghost use Rattle.mintc_cells.specs.Description.{least_rule};
ghost use Rattle.mintc_cells.specs.Pins.{are_names, is_distinct};
ghost use Rattle.mintc_cells.specs.Rules.{pins, has_names, has_limits, has_order, are_delays, are_limits};

use crate::cell::Cell;
use crate::pins::{pin, pin_count};
use crate::shape::Shape;
use mintc_text::{Name, Names};
use mintc_toml::{is_delay, is_margin, is_name};

/// Whether all names are in form.
fn are_all_names(names: &[Name]) -> bool
    ensures { result ≡ list_all is_name names.now }
{
    for name in names {
        if !is_name(name.bytes()) {
            return false;
        }
    }
    true
}

/// Whether there are so many names, each in form.
fn are_names(names: &Names, least: usize, most: usize) -> bool
    ensures { result ≡ are_names least most names.now }
{
    let items = names.items();
    (least <= items.len() && items.len() <= most) && are_all_names(items)
}

/// Whether the name of a pin comes again after it.
fn comes_again(cell: &Cell, number: usize) -> bool
    requires { number < length (pins cell.now) }
    ensures { result ≡ list_any (bytes_eq (slice_index_or (pins cell.now) number []))
        (drop (number + 1) (pins cell.now)) }
{
    let count = pin_count(cell);
    for other in number + 1..count {
        if pin(cell, number).bytes() == pin(cell, other).bytes() {
            return true;
        }
    }
    false
}

/// Whether no name comes twice among the pins.
fn are_distinct(cell: &Cell) -> bool
    ensures { result ≡ is_distinct (pins cell.now) }
{
    for number in 0..pin_count(cell) {
        if comes_again(cell, number) {
            return false;
        }
    }
    true
}

/// Whether two numbers are delays.
fn are_delays(least: i64, most: i64) -> bool
    ensures { result ≡ are_delays least most }
{
    is_delay(least) && is_delay(most)
}

/// Whether the numbers of a latch's delays are delays.
fn are_latch_delays(dq_min: &i64, dq_max: &i64, cq_min: &i64, cq_max: &i64) -> bool
    ensures { result ≡ (are_delays dq_min.now dq_max.now && are_delays cq_min.now cq_max.now) }
{
    are_delays(*dq_min, *dq_max) && are_delays(*cq_min, *cq_max)
}

/// Whether a setup, a hold and a width are in their limits.
fn are_limits(setup: &i64, hold: &i64, width: &i64) -> bool
    ensures { result ≡ are_limits setup.now hold.now width.now }
{
    (is_margin(*setup) && is_margin(*hold)) && is_delay(*width)
}

/// Whether the pins are names, as many as the kind has.
fn has_names(cell: &Cell) -> bool
    ensures { result ≡ has_names cell.now }
{
    match cell {
        Cell::Gate {
            inputs,
            outputs,
            ..
        } => are_names(inputs, 0, 64) && are_names(outputs, 1, 16),
        Cell::Latch {
            pin_d,
            pin_g,
            outputs,
            ignored,
            ..
        } => {
            (is_name(pin_d.bytes()) && is_name(pin_g.bytes()))
                && (are_names(outputs, 1, 2) && are_names(ignored, 0, 64))
        }
        Cell::Flop {
            pin_d,
            pin_clock,
            outputs,
            ignored,
            ..
        } => {
            (is_name(pin_d.bytes()) && is_name(pin_clock.bytes()))
                && (are_names(outputs, 1, 2) && are_names(ignored, 0, 64))
        }
        Cell::Clock {
            input,
            output,
            ignored,
            ..
        } => { (is_name(input.bytes()) && is_name(output.bytes())) && are_names(ignored, 0, 64) }
    }
}

/// Whether the numbers are in their limits.
fn has_limits(cell: &Cell) -> bool
    ensures { result ≡ has_limits cell.now }
{
    match cell {
        Cell::Gate { min, max, .. } => is_delay(*min) && is_delay(*max),
        Cell::Latch {
            setup,
            hold,
            dq_min,
            dq_max,
            cq_min,
            cq_max,
            width,
            ..
        } => { are_limits(setup, hold, width) && are_latch_delays(dq_min, dq_max, cq_min, cq_max) }
        Cell::Flop {
            setup,
            hold,
            cq_min,
            cq_max,
            width,
            ..
        } => { are_limits(setup, hold, width) && are_delays(*cq_min, *cq_max) }
        Cell::Clock { .. } => true,
    }
}

/// Whether no max is below its min.
fn has_order(cell: &Cell) -> bool
    ensures { result ≡ has_order cell.now }
{
    match cell {
        Cell::Gate { min, max, .. } => min <= max,
        Cell::Latch {
            dq_min,
            dq_max,
            cq_min,
            cq_max,
            ..
        } => dq_min <= dq_max && cq_min <= cq_max,
        Cell::Flop { cq_min, cq_max, .. } => cq_min <= cq_max,
        Cell::Clock { .. } => true,
    }
}

/// The least rule that a cell of this shape fails.
pub(crate) fn least_rule(shape: &Shape, cell: &Cell) -> Option<u32>
    ensures { result ≡ least_rule shape.now cell.now }
{
    if !shape.keys {
        Some(3)
    } else if !(shape.pins && has_names(cell)) {
        Some(4)
    } else if !are_distinct(cell) {
        Some(5)
    } else if !(shape.numbers && has_limits(cell)) {
        Some(6)
    } else if !has_order(cell) {
        Some(7)
    } else if !shape.switches {
        Some(8)
    } else {
        None
    }
}
