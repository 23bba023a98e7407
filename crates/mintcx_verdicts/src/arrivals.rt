//! When data comes at the latest, by the departures of a certificate.
ghost use Rattle.std.specs.Prelude.{◌≡◌, ◌<◌, ◌+ℤ◌, ◌*ℤ◌, length, IfOk};
ghost use Rattle.mintc_timing.specs.Departures.{departure, late_arrival};
ghost use Rattle.mintc_timing.specs.Clocking.{shift_of};
ghost use Rattle.mintc_timing.specs.Design.{element_at, pair_at, phase_of};
ghost use Rattle.mintc_timing.specs.Extremes.{greater_of};
ghost use Rattle.mintc_timing.specs.Limits.{IsModest, IsTime};
ghost use Rattle.mintc_certificate.specs.Ranges.{IsDeparture};
ghost use Rattle.mintcx_verdicts.specs.Arrivals.{AreLastArrivals};

use crate::judging::Judging;
use mintc_text::OutOfMemory;
use mintc_timing::shift;
use mintc_timing_links::times_denominator;
use mintcx_judgements::Told;
use std::alloc::Global;

/// The departure of an element.
pub(crate) fn departure(judging: &Judging<'_>, element: u32) -> i64
    ensures value { result ≡ departure judging.now.departures.now element }
    ensures range { IsDeparture result }
{
    match judging.departures.get(element as usize) {
        Some(departure) => *departure,
        None => 0,
    }
}

/// How long data of a pair takes at the most.
fn travel(told: &Told<'_>, pair: usize) -> i64
    requires { pair < length told.now.system.now.pairs }
    ensures value { result ≡ ((element_at told.now.system.now.flat (pair_at told.now.system.now pair).from).dq_max
        +ℤ (pair_at told.now.system.now pair).max) *ℤ told.now.schedule.now.den }
    ensures range { IsModest result }
{
    let joined = told.system.pair(pair);
    let from = told.element(joined.from);
    let _flat = told.flat();
    times_denominator(from.dq_max + joined.max, told.schedule.den)
}

/// What turns a time since the start of the first element's phase of a pair into one since that of the second one's.
fn turned(told: &Told<'_>, pair: usize) -> i64
    requires { pair < length told.now.system.now.pairs }
    ensures value { result ≡ shift_of told.now.schedule.now
        (phase_of told.now.system.now.flat (pair_at told.now.system.now pair).from)
        (phase_of told.now.system.now.flat (pair_at told.now.system.now pair).to) }
    ensures range { IsModest result }
{
    let joined = told.system.pair(pair);
    let _flat = told.flat();
    let from = told.element(joined.from).phase;
    let to = told.element(joined.to).phase;
    shift(told.schedule, from, to)
}

/// When data of a pair reaches its second element at the latest, counted from the start of that element's phase.
fn arrival(judging: &Judging<'_>, pair: usize) -> i64
    requires { pair < length judging.now.told.system.now.pairs }
    ensures value { result ≡ late_arrival judging.now.told.system.now.flat judging.now.told.schedule.now
        judging.now.departures.now (pair_at judging.now.told.system.now pair) }
    ensures range { IsTime result }
{
    let told = &judging.told;
    let joined = told.system.pair(pair);
    departure(judging, joined.from) + travel(told, pair) + turned(told, pair)
}

/// The later of two times, of which the first may be absent.
fn later(last: Option<i64>, time: i64) -> i64
    ensures { result ≡ greater_of time last }
{
    match last {
        Some(last) => i64::max(time, last),
        None => time,
    }
}

/// The last arrival at each element, by their numbers; None where no pair leads to it.
pub(crate) fn last_arrivals(
    alloc: Global,
    judging: &Judging<'_>,
) -> Result<Vec<Option<i64>>, OutOfMemory>
    ensures { IfOk result (λ found. AreLastArrivals judging.now.told.system.now judging.now.told.schedule.now
        judging.now.departures.now (length judging.now.told.system.now.pairs) found.items) }
{
    let told = &judging.told;
    let mut found = vec![in alloc; None; told.flat().elements().len()]?;
    for pair in 0..told.system.pairs().len() {
        let to = told.system.pair(pair).to as usize;
        let last = found[to];
        found[to] = Some(later(last, arrival(judging, pair)));
    }
    Ok(found)
}
