//! An order of a design's arcs, or a closed list of them.
//!
//! The arcs that leave each bit stand side by side in one list. A depth-first search goes from bit to bit along
//! them and gives out each bit after all bits that its arcs enter; where it comes back to a bit of its path, the
//! arcs since then are the loop that is refused (R. E. Tarjan, "Depth-first search and linear graph algorithms",
//! 1972). The bits from the last one given out to the first, with the arcs that leave each, are the order. Arcs that
//! stand in an order already keep it, which one pass sees. The crates above get that order, in which one pass finds the
//! longest paths, or the refusal with a loop.
#![tactic(auto)]

ghost use Rattle.std.specs.Prelude.{IfOk, IfErr};
ghost use Rattle.mintc_text.specs.Stops.{StopsAt};
ghost use Rattle.mintc_timing.specs.Order.{IsOrder};
ghost use Rattle.mintc_order.specs.Refusals.{NamesLoop};

mod gathering;
mod laws;
mod outgoing;
mod search;
mod standing;

use gathering::order_from_postorder;
pub use laws::{arcs_have_order_or_loop, orders_exclude_loops};
use mintc_text::{Numbers, Stop};
use mintc_timing::{Flat, Order};
use outgoing::OutgoingArcs;
use search::Search;
use standing::{as_they_stand, stand_in_order};
use std::alloc::Global;

/// The order of the arcs by a search from bit to bit.
fn searched_order(alloc: Global, flat: &Flat) -> Result<Vec<u32>, Stop>
    ensures order { IfOk result (λ order. IsOrder flat.now.arcs order.items) }
    ensures stop { IfErr result (StopsAt (NamesLoop flat.now.arcs)) }
{
    let bits = flat.bit_count();
    let ranges = OutgoingArcs::new(alloc, flat.arcs(), bits)?;
    let mut search = Search::new(alloc, bits)?;
    for root in 0..bits {
        search.follow(alloc, &ranges, root as u32)?;
    }
    Ok(order_from_postorder(alloc, flat.arcs(), &ranges, &search.given)?)
}

/// All arc numbers of the design, each once, every arc after all arcs into the bit that it leaves. The refusal is
/// CombinationalLoop with a closed list of arcs that leaves no bit twice, exactly where arcs lead round; only a
/// want of memory stops the call otherwise. Arcs that stand in an order keep it, which no clause says; else the search
/// takes in each bit once and looks at each arc at most twice, and the arcs that leave a bit stand together, in falling
/// order of their numbers, which no clause says either.
pub fn order(alloc: Global, flat: &Flat) -> Result<Order, Stop>
    ensures order { IfOk result (λ order. IsOrder flat.now.arcs order) }
    ensures stop { IfErr result (StopsAt (NamesLoop flat.now.arcs)) }
{
    let arcs = flat.arcs();
    let order = if stand_in_order(alloc, arcs, flat.bit_count())? {
        as_they_stand(alloc, arcs)?
    } else {
        searched_order(alloc, flat)?
    };
    Ok(Order::new(Numbers::new(order)))
}
