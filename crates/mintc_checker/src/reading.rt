//! The parts of a design by their numbers.
ghost use Rattle.std.specs.Prelude.{◌≡◌, ◌<◌, length, slice_index_or};
ghost use Rattle.mintc_timing.specs.Limits.{IsArc, IsDesign};
ghost use Rattle.mintc_timing.specs.Order.{IsOrder};
ghost use Rattle.mintc_timing.specs.Paths.{arc_at};

use mintc_timing::{Flat, Order, TimingArc};

/// The arc at a place of the order.
pub(crate) fn arc_at_place(flat: &Flat, order: &Order, place: usize) -> TimingArc
    requires order { IsOrder flat.now.arcs order.now }
    requires place { place < length order.now }
    ensures value { result ≡ arc_at flat.now.arcs (slice_index_or order.now place 0) }
    ensures kept { IsArc (length flat.now.elements) (length flat.now.inner) result }
    ensures design { IsDesign flat.now }
{
    let number = order.arcs().items()[place];
    flat.arcs()[number as usize]
}
