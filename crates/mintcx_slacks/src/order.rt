//! The order in which pairs are listed.
ghost use Rattle.std.specs.Prelude.{◌≡◌, IfOk};
ghost use Rattle.mintcx_slacks.specs.Slacks.{AreBySlack, greatest_slack, tight_count};

use mintc_text::OutOfMemory;
use std::alloc::Global;

/// A pair's place: its slack in femtoseconds and its number, counted from 0.
pub type Place = (i64, usize);

/// The place of a pair.
fn place(slack: i64, number: usize) -> Place
    ensures { result ≡ (slack, number) }
{
    (slack, number)
}

/// The places of pairs with these slacks, the least slack first.
pub fn by_slack(alloc: Global, extra: &[i64]) -> Result<Vec<Place>, OutOfMemory>
    ensures { IfOk result (λ places. AreBySlack extra.now places.items) }
{
    let mut places = Vec::with_capacity(alloc, extra.len())?;
    for (number, slack) in extra.iter().enumerate() {
        places.push(place(*slack, number))?;
    }
    places.sort_unstable();
    Ok(places)
}

/// The greatest slack of places in order; 0 where there is none.
pub(crate) fn greatest_slack(places: &[Place]) -> i64
    ensures { result ≡ greatest_slack places.now }
{
    match places.get(places.len().saturating_sub(1)) {
        Some(place) => place.0,
        None => 0,
    }
}

/// How many pairs have no slack.
pub(crate) fn tight_count(extra: &[i64]) -> usize
    ensures { result ≡ tight_count extra.now }
{
    extra.iter().filter(|slack| **slack <= 0).count()
}
