//! An order of arcs, from an order of the bits that they leave.
ghost use Rattle.std.specs.Prelude.{◌≡◌, ◌<◌, ◌≤◌, ◌-◌, ℕ, length, Contains, IfOk, OnOk};
ghost use Rattle.mintc_timing.specs.Order.{IsOrder};
ghost use Rattle.mintc_order.specs.Gatherings.{IsAdded};
ghost use Rattle.mintc_order.specs.Listings.{AreAll};
ghost use Rattle.mintc_order.specs.OutgoingArcs.{AreLeaving, AreParts};
ghost use Rattle.mintc_order.specs.Searches.{AreAfterEnds};

use crate::outgoing::OutgoingArcs;
use mintc_timing::TimingArc;
use std::alloc::{AllocError, Global};

/// Adds the numbers from one place to before another.
fn add(numbers: &[u32], start: u32, stop: u32, gathered: &mut Vec<u32>) -> Result<(), AllocError>
    requires start { start ≤ stop }
    requires stop { stop ≤ length numbers.now }
    ensures { OnOk result (IsAdded numbers.now start stop gathered.old.items gathered.new.items) }
{
    for place in start..stop {
        gathered.push(numbers[place as usize])?;
    }
    Ok(())
}

/// The arcs that leave each bit, from the bit that is given out last to the first.
pub(crate) fn order_from_postorder(
    alloc: Global,
    arcs: &[TimingArc],
    ranges: &OutgoingArcs,
    given: &[u32],
) -> Result<Vec<u32>, AllocError>
    requires parts { AreParts (length ranges.now.starts.items - 1) ranges.now.starts.items ranges.now.numbers.items
        ranges.now.ends.items }
    requires leaving { AreLeaving arcs.now (length ranges.now.starts.items - 1) ranges.now.starts.items
        ranges.now.numbers.items ranges.now.ends.items }
    requires all { AreAll arcs.now ranges.now.numbers.items }
    requires ordered { AreAfterEnds (length ranges.now.starts.items - 1) ranges.now.starts.items ranges.now.ends.items
        given.now }
    requires whole { (bit : ℕ) → bit < length ranges.now.starts.items - 1 → Contains given.now bit }
    ensures { IfOk result (λ gathered. IsOrder arcs.now gathered.items) }
{
    let mut gathered = Vec::with_capacity(alloc, arcs.len())?;
    let mut rest = given.len();
    while rest > 0 {
        rest -= 1;
        let bit = given[rest] as usize;
        let start = ranges.starts[bit];
        add(
            &ranges.numbers,
            start,
            ranges.starts[bit + 1],
            &mut gathered,
        )?;
    }
    Ok(gathered)
}
