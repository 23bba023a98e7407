//! Building designs and systems.
ghost use Rattle.std.specs.Prelude.{◌≡◌, ◌≤◌, length, IfOk, IfErr};
ghost use Rattle.mintc_text.specs.declared.limits.TheConstants.{MOST_BYTES};
ghost use Rattle.mintc_text.specs.Stops.{StopsAt};
ghost use Rattle.mintc_timing.specs.Limits.{IsWithinLimits};
ghost use Rattle.mintc_timing_text.specs.TableText.{IsTableRefusal, IsTableText};
ghost use Rattle.mintc_build.specs.Designs.{HasSystem, IsDesignRefusal};

use mintc_order::{order, orders_exclude_loops};
use mintc_paths::extremes;
use mintc_paths_count::refuse_pairs;
use mintc_text::{Limits, Stop};
use mintc_timing::{Flat, Order, System};
use mintc_timing_text::read_table;
use std::alloc::Global;

/// The design of a table. The refusal is Syntax with the first line out of form, counted from 1, or Limit of the first
/// quantity that passes its limit.
pub fn from_table(alloc: Global, limits: &Limits, text: &[u8]) -> Result<Flat, Stop>
    requires { length text.now ≤ MOST_BYTES }
    ensures value { IfOk result (λ flat. IsTableText text.now flat) }
    ensures within { IfOk result (λ flat. IsWithinLimits limits.now flat) }
    ensures stop { IfErr result (StopsAt (IsTableRefusal limits.now text.now)) }
{
    read_table(alloc, limits, text)
}

/// The system of a design: its arcs in an order, and its pairs with their extremes. The refusal is CombinationalLoop,
/// PathRange or Limit of pairs.
pub fn system(alloc: Global, limits: &Limits, flat: Flat) -> Result<System, Stop>
    ensures value { IfOk result (λ system. system.flat ≡ flat) }
    ensures few { IfOk result (λ system. length system.pairs ≤ limits.now.pairs) }
    ensures stop { IfErr result (StopsAt (IsDesignRefusal limits.now flat)) }
{
    let order = order(alloc, &flat)?;
    orders_exclude_loops();
    let pairs = extremes(alloc, limits, &flat, &order)?;
    Ok(System::new(flat, order, pairs))
}

/// An order of the design's arcs, for a design that has a system, whose pairs aren't listed, and counted only where
/// their number isn't plainly within the limit. The refusals are those of `system`.
pub fn system_order(alloc: Global, limits: &Limits, flat: &Flat) -> Result<Order, Stop>
    ensures system { IfOk result (HasSystem limits.now flat.now) }
    ensures stop { IfErr result (StopsAt (IsDesignRefusal limits.now flat.now)) }
{
    let order = order(alloc, flat)?;
    orders_exclude_loops();
    refuse_pairs(alloc, limits, flat, &order)?;
    Ok(order)
}
