//! The pairs of a design, by the way that has less to carry.
ghost use Rattle.std.specs.Prelude.{◌≡◌, ◌≤◌, length, IfOk, IfErr, OnOk};
ghost use Rattle.mintc_text.specs.Stops.{StopsAt};
ghost use Rattle.mintc_timing.specs.Order.{IsOrder, ArePathsShort};
ghost use Rattle.mintc_paths.specs.Found.{IsFoundBefore, most_count};
ghost use Rattle.mintc_paths.specs.Refusals.{IsPathRange};

use crate::back::find_backward;
use crate::blocks::{find_forward, sequence_of};
use crate::found::Found;
use crate::longest::runs_are_within_limit;
use mintc_text::Stop;
use mintc_timing::{Flat, Order};
use std::alloc::{AllocError, Global};

/// How many are marked.
fn count_marked(marks: &[bool]) -> usize {
    marks.iter().filter(|mark| **mark).count()
}

/// Whether inner bits enter the inputs of less than half as many elements as the outputs that enter inner bits.
pub fn is_backward_cheaper(alloc: Global, flat: &Flat) -> Result<bool, AllocError> {
    let elements = flat.elements().len();
    let mut entered = vec![in alloc; false; elements]?;
    let mut left = vec![in alloc; false; elements]?;
    for arc in flat.arcs() {
        let (from, to) = (arc.from as usize, arc.to as usize);
        if from < 2 * elements && to >= 2 * elements {
            left[from / 2] = true;
        }
        if from >= 2 * elements && to < 2 * elements {
            entered[to / 2] = true;
        }
    }
    Ok(count_marked(&entered) < count_marked(&left) / 2)
}

/// Finds the design's pairs, and keeps so many of them. Where no path can be too long and few inputs are entered, sums
/// are carried from there.
pub(crate) fn find(alloc: Global, most: usize, flat: &Flat, order: &Order) -> Result<Found, Stop>
    requires { IsOrder flat.now.arcs order.now }
    ensures found { IfOk result (IsFoundBefore flat.now (length flat.now.elements) 0) }
    ensures few { IfOk result (λ found. found.count ≤ most_count) }
    ensures most { IfOk result (λ found. found.most ≡ most) }
    ensures short { OnOk result (ArePathsShort flat.now) }
    ensures stop { IfErr result (StopsAt (IsPathRange flat.now)) }
{
    let sequence = sequence_of(alloc, flat, order)?;
    let known_short = runs_are_within_limit(alloc, flat, order, &sequence)?;
    let few = is_backward_cheaper(alloc, flat)?;
    if !known_short || !few {
        return find_forward(alloc, most, flat, order, &sequence, known_short);
    }
    Ok(find_backward(alloc, most, flat, order, sequence)?)
}
