//! A path with the sum of a pair.
ghost use Rattle.std.specs.Prelude.{◌≡◌, ◌<◌, ℕ, ◌+◌, ◌*◌, length, IfOk};
ghost use Rattle.mintc_timing.specs.Order.{IsOrder};
ghost use Rattle.mintc_paths_sums.specs.Placed.{row_of};
ghost use Rattle.mintc_paths.specs.Ordered.{Ordered, ordered};
ghost use Rattle.mintc_paths.specs.Sums.{IsSequence};
ghost use Rattle.mintc_paths.specs.Trace.{IsPairOf, IsOfPair};

use crate::rows::{ArcSequence, Rows};
use crate::sums::fill;
use crate::trace::{Extreme, trace};
use crate::worklist::Worklist;
use mintc_bitset::Stamps;
use mintc_paths_sums::SparseRows;
use mintc_text::{Numbers, OutOfMemory};
use mintc_timing::{Flat, Order, System};
use std::alloc::{AllocError, Global};

/// The sequence over rows of the bits' own numbers.
fn plain_sequence(alloc: Global, flat: &Flat, order: &Order) -> Result<ArcSequence, AllocError>
    requires { IsOrder flat.now.arcs order.now }
    ensures sequence { IfOk result
        (λ sequence. IsSequence (2 * length flat.now.elements + length flat.now.inner) flat.now.arcs order.now
        sequence) }
    ensures own { IfOk result (λ sequence. (bit : ℕ) → bit < 2 * length flat.now.elements + length flat.now.inner →
        row_of sequence.rows.of_bits.items bit ≡ bit) }
{
    let bits = flat.bit_count();
    let rows = Rows::plain(alloc, bits)?;
    ArcSequence::new(alloc, flat, order, rows)
}

/// The arcs of a listed path from one element to another with the greatest or the least sum.
pub(crate) fn best_path(
    alloc: Global,
    extreme: Extreme,
    system: &System,
    from: u32,
    to: u32,
) -> Result<Numbers, OutOfMemory>
    ghost of: { Ordered }
    requires of { of ≡ ordered system.now.flat system.now.order }
    requires pair { IsPairOf system.now.pairs from to }
    ensures { IfOk result (IsOfPair extreme system.now from to) }
{
    let (flat, order) = (system.flat(), system.order());
    let bits = flat.bit_count();
    let mut sums = SparseRows::new(alloc, bits)?;
    let mut reached = Stamps::new(alloc, bits)?;
    let sequence = plain_sequence(alloc, flat, order)?;
    let mut awake = Worklist::new(alloc, sequence.along.len())?;
    fill(&mut sums, &mut reached, &mut awake, &sequence, from, 1)?;
    let path = trace(alloc, extreme, flat, order, &sums, 2 * to)?;
    Ok(Numbers::new(path))
}
