//! From where data comes, and when it leaves, comes and is wanted, in femtoseconds times the schedule's denominator.
ghost use Rattle.std.specs.Prelude.{◌≡◌, ◌<◌, ◌*ℤ◌, length};
ghost use Rattle.mintc_timing.specs.Clocking.{start_of, width_of};
ghost use Rattle.mintc_timing.specs.Departures.{departure};
ghost use Rattle.mintc_timing.specs.Design.{element_count, pair_at, phase_count};
ghost use Rattle.mintc_timing.specs.Limits.{IsDelay, IsModest, IsNumerator, IsPhase, IsSpan};
ghost use Rattle.mintcx_judgements.specs.Shown.{IsComing, IsEdge, IsLeaving, IsTerm};
ghost use Rattle.mintcx_judgements.specs.Sources.{coming_early, coming_late, edge_of, from_of, hold_of, leaving};
ghost use Rattle.mintcx_judgements.specs.Sources.{longest, setup_of, shortest, there, turning};

use crate::told::Told;
use mintc_timing::System;
use mintc_timing_links::times_denominator;

/// The name of the element from which a pair's data comes.
pub fn from_of(system: &System, pair: u32) -> &[u8]
    requires { pair < length system.now.pairs }
    ensures { result.now ≡ from_of system.now pair }
{
    let from = system.pair(pair as usize).from;
    system.element(from).name.bytes()
}

/// When a phase starts.
pub(crate) fn start(told: &Told<'_>, phase: u32) -> i128
    requires { IsPhase (phase_count told.now.system.now.flat) phase }
    ensures value { result ≡ start_of told.now.schedule.now phase }
    ensures range { IsNumerator result }
{
    i128::from(told.schedule().starts.items()[phase as usize - 1])
}

/// How wide a phase is.
pub(crate) fn width(told: &Told<'_>, phase: u32) -> i128
    requires { IsPhase (phase_count told.now.system.now.flat) phase }
    ensures value { result ≡ width_of told.now.schedule.now phase }
    ensures range { IsNumerator result }
{
    i128::from(told.schedule().widths.items()[phase as usize - 1])
}

/// The cycle time.
pub(crate) fn cycle(told: &Told<'_>) -> i128
    ensures value { result ≡ told.now.schedule.now.cycle }
    ensures range { IsNumerator result }
{
    i128::from(told.schedule().cycle)
}

/// A span of femtoseconds times the denominator.
pub(crate) fn scaled(told: &Told<'_>, span: i64) -> i128
    requires { IsSpan span }
    ensures value { result ≡ span *ℤ told.now.schedule.now.den }
    ensures range { IsModest result }
{
    i128::from(times_denominator(span, told.schedule().den))
}

/// The departure of an element.
pub fn departure(departures: &[i64], element: u32) -> i128
    ensures value { result ≡ departure departures.now element }
    ensures range { IsTerm result }
{
    match departures.get(element as usize) {
        Some(departure) => i128::from(*departure),
        None => 0,
    }
}

/// The least delay of a pair.
fn least_delay(told: &Told<'_>, pair: usize) -> i64
    requires { pair < length told.now.system.now.pairs }
    ensures value { result ≡ (pair_at told.now.system.now pair).min }
    ensures range { IsDelay result }
{
    told.system.pair(pair).min
}

/// When data leaves the first element of a pair, counted from time 0.
pub(crate) fn leaving(told: &Told<'_>, departures: &[i64], pair: usize) -> i128
    requires { pair < length told.now.system.now.pairs }
    ensures value { result ≡ leaving told.now.system.now told.now.schedule.now departures.now pair }
    ensures range { IsLeaving result }
{
    let from = told.system.pair(pair).from;
    start(told, told.element(from).phase) + departure(departures, from)
}

/// How long data of a pair takes at the most.
pub(crate) fn longest(told: &Told<'_>, pair: usize) -> i128
    requires { pair < length told.now.system.now.pairs }
    ensures value { result ≡ longest told.now.system.now told.now.schedule.now pair }
    ensures range { IsModest result }
{
    let joined = told.system.pair(pair);
    scaled(told, told.element(joined.from).dq_max + joined.max)
}

/// How long it takes at the least.
pub(crate) fn shortest(told: &Told<'_>, pair: usize) -> i128
    requires { pair < length told.now.system.now.pairs }
    ensures value { result ≡ shortest told.now.system.now told.now.schedule.now pair }
    ensures range { IsModest result }
{
    let from = told.system.pair(pair).from;
    scaled(told, told.element(from).dq_min + least_delay(told, pair))
}

/// The cycles until the phase in which the data of a pair is caught.
pub(crate) fn turning(told: &Told<'_>, pair: usize) -> i128
    requires { pair < length told.now.system.now.pairs }
    ensures value { result ≡ turning told.now.system.now told.now.schedule.now pair }
    ensures range { IsNumerator result }
{
    let joined = told.system.pair(pair);
    let from = told.element(joined.from).phase;
    let to = told.element(joined.to).phase;
    if from < to { 0 } else { cycle(told) }
}

/// When the data of a pair comes at the latest, counted from the beginning of the cycle in which it is caught.
pub(crate) fn coming_late(told: &Told<'_>, departures: &[i64], pair: usize) -> i128
    requires { pair < length told.now.system.now.pairs }
    ensures value { result ≡ coming_late told.now.system.now told.now.schedule.now departures.now pair }
    ensures range { IsComing result }
{
    leaving(told, departures, pair) + longest(told, pair) - turning(told, pair)
}

/// The same at the earliest.
pub(crate) fn coming_early(told: &Told<'_>, departures: &[i64], pair: usize) -> i128
    requires { pair < length told.now.system.now.pairs }
    ensures value { result ≡ coming_early told.now.system.now told.now.schedule.now departures.now pair }
    ensures range { IsComing result }
{
    leaving(told, departures, pair) + shortest(told, pair) - turning(told, pair)
}

/// The edge of its phase by which the data of an element has to be there.
pub(crate) fn edge(told: &Told<'_>, element: u32) -> i128
    requires { element < element_count told.now.system.now.flat }
    ensures value { result ≡ edge_of told.now.system.now.flat told.now.schedule.now element }
    ensures range { IsEdge result }
{
    let found = told.element(element);
    if found.flop {
        start(told, found.phase)
    } else {
        start(told, found.phase) + width(told, found.phase)
    }
}

/// How long before the edge of its phase the data of an element has to be there.
pub fn setup(told: &Told<'_>, element: u32) -> i128
    requires { element < element_count told.now.system.now.flat }
    ensures value { result ≡ setup_of told.now.system.now.flat told.now.schedule.now element }
    ensures range { IsModest result }
{
    scaled(told, told.element(element).setup)
}

/// How long after it the data has to stay.
pub(crate) fn hold(told: &Told<'_>, element: u32) -> i128
    requires { element < element_count told.now.system.now.flat }
    ensures value { result ≡ hold_of told.now.system.now.flat told.now.schedule.now element }
    ensures range { IsModest result }
{
    scaled(told, told.element(element).hold)
}

/// When the data of a latch is there and the latch open.
pub(crate) fn there(told: &Told<'_>, departures: &[i64], element: u32) -> i128
    requires { element < element_count told.now.system.now.flat }
    ensures value { result ≡ there told.now.system.now.flat told.now.schedule.now departures.now element }
    ensures range { IsLeaving result }
{
    let leaves = i128::max(0, departure(departures, element));
    start(told, told.element(element).phase) + leaves
}
