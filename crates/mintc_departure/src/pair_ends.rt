//! The pairs that each element begins, or ends.
ghost use Rattle.std.specs.Prelude.{◌≡◌, ◌<◌, ◌≤◌, length, All, IfOk};
ghost use Rattle.mintc_text.specs.declared.limits.TheConstants.{MOST_PAIRS};
ghost use Rattle.mintc_departure.specs.PairEnds.{end_of, ArePairsByEnd};

use mintc_adjacency::Adjacency;
use mintc_timing::Pair;
use std::alloc::{AllocError, Global};

/// An end of a pair.
#[derive(Clone, Copy)]
pub(crate) enum End {
    First,
    Second,
}

/// The element at an end of a pair.
fn element_at(pair: &Pair, end: End) -> u32
    ensures { result ≡ end_of end pair.now }
{
    match end {
        End::First => pair.from,
        End::Second => pair.to,
    }
}

/// The pairs that have each element at this end. They join so many elements.
pub(crate) fn pairs_by_end(
    alloc: Global,
    pairs: &[Pair],
    end: End,
    elements: usize,
) -> Result<Adjacency, AllocError>
    requires few { length pairs.now ≤ MOST_PAIRS }
    requires inside { All (λ pair. end_of end pair < elements) pairs.now }
    ensures { IfOk result (λ by_end. ArePairsByEnd pairs.now end elements by_end) }
{
    let mut by_end = Adjacency::new(alloc, elements, pairs.len())?;
    for (number, pair) in pairs.iter().enumerate() {
        by_end.add(number, element_at(pair, end));
    }
    Ok(by_end)
}
