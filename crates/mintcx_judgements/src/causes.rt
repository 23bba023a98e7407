//! The pair into each element whose data comes last, and the one whose data comes first.
ghost use Rattle.std.specs.Prelude.{◌≡◌, ◌<◌, neg_ℤ, length, slice_index_or, slice_set, None, IfOk, IfSome};
ghost use Rattle.std.specs.List.{range_with_len};
ghost use Rattle.mintc_timing.specs.Design.{element_count, pair_at};
ghost use Rattle.mintc_timing.specs.Limits.{IsDesign};
ghost use Rattle.mintcx_judgements.specs.Shown.{IsComing};
ghost use Rattle.mintcx_judgements.specs.Sources.{AreGreatest, greater_by, number_by};

use crate::sources::{coming_early, coming_late};
use crate::told::Told;
use mintc_text::OutOfMemory;
use std::alloc::Global;

/// Which data of an element is sought: that which comes last, or that which comes first.
#[derive(Clone, Copy)]
pub(crate) enum Sought {
    Last,
    First,
}

/// The number of a pair by which it is sought: the greatest is taken.
fn number_by(told: &Told<'_>, sought: Sought, departures: &[i64], pair: usize) -> i128
    requires { pair < length told.now.system.now.pairs }
    ensures { result ≡ number_by sought told.now.system.now told.now.schedule.now departures.now pair }
{
    match sought {
        Sought::Last => coming_late(told, departures, pair),
        Sought::First => -coming_early(told, departures, pair),
    }
}

/// Of two pairs, the second where its number is the greater, else the first.
fn greater(
    told: &Told<'_>,
    sought: Sought,
    departures: &[i64],
    best: Option<usize>,
    pair: usize,
) -> Option<usize>
    requires best { IfSome best (λ n. n < length told.now.system.now.pairs) }
    requires pair { pair < length told.now.system.now.pairs }
    ensures value { result
        ≡ greater_by (number_by sought told.now.system.now told.now.schedule.now departures.now) best pair }
    ensures inside { IfSome result (λ n. n < length told.now.system.now.pairs) }
{
    let Some(best) = best else {
        return Some(pair);
    };
    let time = number_by(told, sought, departures, best);
    if time < number_by(told, sought, departures, pair) {
        Some(pair)
    } else {
        Some(best)
    }
}

/// The pair into each element that is sought, of those that have one, by their numbers.
pub(crate) fn causes(
    alloc: Global,
    told: &Told<'_>,
    sought: Sought,
    departures: &[i64],
) -> Result<Vec<Option<usize>>, OutOfMemory>
    ensures found { IfOk result (λ found. AreGreatest told.now.system.now
        (number_by sought told.now.system.now told.now.schedule.now departures.now)
        (length told.now.system.now.pairs) found.items) }
    ensures design { IsDesign told.now.system.now.flat }
{
    let mut found = vec![in alloc; None; told.flat().elements().len()]?;
    for number in 0..told.system.pairs().len() {
        let to = told.system.pair(number).to as usize;
        let best = found[to];
        found[to] = greater(told, sought, departures, best, number);
    }
    Ok(found)
}
