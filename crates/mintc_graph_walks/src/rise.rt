//! One pass over the arcs, upwards or downwards, and arcs of a list.
ghost use Rattle.std.specs.Prelude.{◌≡◌, ◌<◌, ◌≤◌, ◌+◌, ◌^◌, ◌≤ℤ◌, ◌<ℤ◌, length, slice_set};
ghost use Rattle.std.specs.Bool.{OnTrue, OnFalse};
ghost use Rattle.mintc_graph_walks.specs.Bounds.{AreBounded, AreOrdinary, IsWithin};
ghost use Rattle.mintc_graph_walks.specs.Walks.{IsReached, brought, value_at};
ghost use Rattle.mintc_graph_walks.specs.Rises.{HasPassed, HasRelaxed, turn};

use crate::network::{Arc, Network, UNREACHED};

/// The order in which a pass takes the arcs.
#[derive(Clone, Copy)]
pub(crate) enum Direction {
    /// From the first arc to the last.
    Upwards,
    /// From the last arc to the first.
    Downwards,
}

/// Raises the value of the arc's end to what the arc brings, where that is more, and says whether it did.
#[inline(always)]
fn relax(values: &mut [i128], before: &mut [u32], number: u32, arc: Arc) -> bool
    requires same { length before.old ≡ length values.old }
    requires from { arc.from < length values.old }
    requires to { arc.to < length values.old }
    requires value { IsReached values.old arc.from → IsWithin (2 ^ 126) (value_at values.old arc.from) }
    requires weight { IsWithin (2 ^ 80) arc.weight }
    ensures reached { OnTrue result (IsReached values.old arc.from) }
    ensures more { OnTrue result (value_at values.old arc.to <ℤ brought values.old arc) }
    ensures values { OnTrue result (values.new ≡ slice_set values.old arc.to (brought values.old arc)) }
    ensures before { OnTrue result (before.new ≡ slice_set before.old arc.to number) }
    ensures met { OnFalse result (IsReached values.old arc.from →
        brought values.old arc ≤ℤ value_at values.old arc.to) }
    ensures values_stay { OnFalse result (values.new ≡ values.old) }
    ensures before_stays { OnFalse result (before.new ≡ before.old) }
{
    let from = values[arc.from as usize];
    if from > UNREACHED {
        let brought = from + arc.weight;
        if brought > values[arc.to as usize] {
            values[arc.to as usize] = brought;
            before[arc.to as usize] = number;
            return true;
        }
    }
    false
}

/// The number of the arc that a pass over `len` arcs takes after `count` others.
#[inline(always)]
fn turn(direction: Direction, len: usize, count: usize) -> usize
    requires { count < len }
    ensures { result ≡ turn direction len count }
{
    match direction {
        Direction::Upwards => count,
        Direction::Downwards => len - 1 - count,
    }
}

/// Relaxes each arc once, and gives the node that was raised last, if any was.
pub(crate) fn pass<N: Network>(
    net: &N,
    direction: Direction,
    values: &mut [i128],
    before: &mut [u32],
) -> Option<u32>
    requires same { length before.old ≡ length values.old }
    requires nodes { length values.old < 2 ^ 32 }
    requires few { length (N.arcs net.now) < 2 ^ 32 }
    requires arcs { AreOrdinary (length values.old) (N.arcs net.now) }
    requires bounded { AreBounded (2 ^ 125) values.old }
    ensures { HasPassed (N.arcs net.now) values.old before.old values.new before.new result }
{
    let len = net.len();
    let mut raised = None;
    for count in 0..len {
        let number = turn(direction, len, count);
        let arc = net.arc(number);
        if relax(values, before, number as u32, arc) {
            raised = Some(arc.to);
        }
    }
    raised
}

/// Relaxes the arc of this number. Where there is none, nothing changes.
#[inline(always)]
fn relax_numbered<N: Network>(net: &N, number: u32, values: &mut [i128], before: &mut [u32])
    requires same { length before.old ≡ length values.old }
    requires few { length (N.arcs net.now) < 2 ^ 32 }
    requires arcs { AreOrdinary (length values.old) (N.arcs net.now) }
    requires bounded { AreBounded (2 ^ 126) values.old }
    ensures { HasRelaxed (N.arcs net.now) 1 values.old before.old values.new before.new }
{
    if (number as usize) < net.len() {
        let arc = net.arc(number as usize);
        relax(values, before, number, arc);
    }
}

/// Relaxes the arcs of these numbers, in the list's order, and passes over numbers of no arc.
pub(crate) fn relax_all<N: Network>(net: &N, list: &[u32], values: &mut [i128], before: &mut [u32])
    requires same { length before.old ≡ length values.old }
    requires short { length list.now < 2 ^ 32 }
    requires few { length (N.arcs net.now) < 2 ^ 32 }
    requires arcs { AreOrdinary (length values.old) (N.arcs net.now) }
    requires bounded { AreBounded (2 ^ 125) values.old }
    ensures { HasRelaxed (N.arcs net.now) (length list.now) values.old before.old values.new before.new }
{
    for number in list {
        relax_numbered(net, *number, values, before);
    }
}
