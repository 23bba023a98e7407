//! The order in which violations are told.
ghost use Rattle.std.specs.Prelude.{◌≡◌, ◌<◌, length, map, IfOk};
ghost use Rattle.std.specs.List.{range_with_len};
ghost use Rattle.mintcx_judgements.specs.Fails.{AreRanked, ahead_of, place_of, rank_of};

use mintc_text::OutOfMemory;
use mintc_timing::{Broken, Violation};
use std::alloc::Global;

/// A violation's place: its rank, its amount turned round where the worst comes first, and its number, counted from 0;
/// or an element's: 0 where it has a room for its setup, that room, and its number.
pub type Place = (u32, i128, usize);

/// The rank of a violation: rules of the clock and loops, setups, holds.
fn rank(broken: &Broken) -> u32
    ensures { result ≡ rank_of broken.now }
{
    match broken {
        Broken::Setup { .. } => 1,
        Broken::Hold { .. } => 2,
        _ => 0,
    }
}

/// The amount of a violation, turned round where the worst comes first.
fn ahead(violation: &Violation) -> i128
    ensures { result ≡ ahead_of violation.now }
{
    if rank(&violation.broken) == 0 {
        0
    } else {
        -i128::from(violation.amount)
    }
}

/// The places of violations, in order.
pub fn ranked(alloc: Global, violations: &[Violation]) -> Result<Vec<Place>, OutOfMemory>
    ensures { IfOk result (λ places. AreRanked violations.now places.items) }
{
    let mut places = Vec::new(alloc);
    for (number, violation) in violations.iter().enumerate() {
        places.push((rank(&violation.broken), ahead(violation), number))?;
    }
    places.sort_unstable();
    Ok(places)
}
