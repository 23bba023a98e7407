//! Arcs that stand in an order already, as those of a table that a program writes often do.
ghost use Rattle.std.specs.Prelude.{◌<◌, ◌^◌, length, IfOk};
ghost use Rattle.std.specs.Bool.{OnTrue};
ghost use Rattle.mintc_timing.specs.Order.{IsOrder};
ghost use Rattle.mintc_order.specs.OutgoingArcs.{AreWithin};
ghost use Rattle.mintc_order.specs.Standing.{StandInOrder};

use mintc_timing::TimingArc;
use std::alloc::{AllocError, Global};

/// Whether each arc stands after all arcs into the bit that it leaves.
pub(crate) fn stand_in_order(
    alloc: Global,
    arcs: &[TimingArc],
    bits: usize,
) -> Result<bool, AllocError>
    requires { AreWithin bits arcs.now }
    ensures { IfOk result (λ standing. OnTrue standing (StandInOrder arcs.now)) }
{
    let mut left = vec![in alloc; false; bits]?;
    for arc in arcs {
        left[arc.from as usize] = true;
        if left[arc.to as usize] {
            return Ok(false);
        }
    }
    Ok(true)
}

/// The numbers of arcs as they stand.
pub(crate) fn as_they_stand(alloc: Global, arcs: &[TimingArc]) -> Result<Vec<u32>, AllocError>
    requires few { length arcs.now < 2 ^ 32 }
    requires standing { StandInOrder arcs.now }
    ensures { IfOk result (λ numbers. IsOrder arcs.now numbers.items) }
{
    let mut numbers = Vec::with_capacity(alloc, arcs.len())?;
    for number in 0..arcs.len() {
        numbers.push(number as u32)?;
    }
    Ok(numbers)
}
