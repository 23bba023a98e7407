//! Setups and holds with the data that decides them.
ghost use Rattle.std.specs.Prelude.{◌≡◌, ◌<◌, pos, negsuc, ◌≤ℤ◌, length, IfSome};
ghost use Rattle.mintc_timing.specs.Design.{element_count};
ghost use Rattle.mintc_timing.specs.Limits.{IsDelay, IsDenominator, IsInRange, IsNumerator};
ghost use Rattle.mintcx_chain.specs.Names.{IsStageDelay};
ghost use Rattle.mintcx_chart.specs.Ranges.{IsCycle, IsDrawnTime, IsLaps};
ghost use Rattle.mintcx_judgements.specs.Shown.{IsLeaving, IsLong};
ghost use Rattle.mintc_paths.specs.Trace.{IsPairOf};
ghost use Rattle.mintcx_fares.specs.Items.{IsItem, IsOpening, item_names};
ghost use Rattle.mintcx_fares.specs.Places.{IsPlace, deciding, place_names};

use crate::places::Place;
use mintc_timing::{Element, Flat, Pair};
use mintcx_chart::{Holder, Kind, Told, element_holder, laps_time, span_time};
use mintcx_judgements::{Causes, departure};

/// A setup or a hold of the second of two elements, by the data that comes from the first: how much room it leaves, how
/// long that data takes, in femtoseconds, when it leaves and when it comes, in which lap it is caught, counted from 0,
/// when the phase of the second element starts in that lap, and by when the data has to come, or from when on it may.
/// Times are numerators over the schedule's denominator.
#[derive(Clone, Copy)]
pub(crate) struct Item {
    pub(crate) from: u32,
    pub(crate) to: u32,
    pub(crate) hold: bool,
    pub(crate) room: i128,
    pub(crate) delay: i64,
    pub(crate) at: i128,
    pub(crate) come: i128,
    pub(crate) lap: i64,
    pub(crate) opens: i128,
    pub(crate) limit: i128,
}

impl Item {
    /// Whether the schedule keeps it.
    pub(crate) fn is_kept(&self) -> bool {
        self.room >= 0
    }
}

/// How long the data of a pair takes, in femtoseconds: at the least for a hold, else at the most.
fn pair_delay(flat: &Flat, pair: &Pair, hold: bool) -> i64
    requires from { pair.now.from < element_count flat.now }
    requires least { IsDelay pair.now.min }
    requires greatest { IsDelay pair.now.max }
    ensures { IsStageDelay result }
{
    let element = flat.element(pair.from);
    if hold {
        element.dq_min + pair.min
    } else {
        element.dq_max + pair.max
    }
}

/// In which lap data is caught that comes from one element to another, counted from 0: for a hold, one sooner.
fn lap_of(from: &Element, to: &Element, hold: bool) -> i64
    ensures { IsLaps result }
{
    let lap = if from.phase < to.phase { 0 } else { 1 };
    if hold { lap - 1 } else { lap }
}

/// When the phase of an element starts in a lap.
fn opens_at(told: &Told, holder: &Holder, lap: i64) -> i128
    requires cycle { IsCycle told.now.schedule.now.cycle }
    requires start { IsNumerator holder.now.start }
    requires lap { IsLaps lap }
    ensures { IsOpening result }
{
    i128::from(holder.start) + laps_time(lap, told.schedule.cycle)
}

/// When the window of an element ends whose phase starts at a time: that of a flop is over at once.
fn edge_at(holder: &Holder, opens: i128) -> i128
    requires width { IsNumerator holder.now.width }
    requires opens { IsOpening opens }
    ensures low { negsuc 99999999999999 ≤ℤ result }
    ensures high { result ≤ℤ pos 300000000000000000000 }
{
    if holder.kind == Kind::Flop {
        return opens;
    }
    opens + i128::from(holder.width)
}

/// By when the data of an element has to come whose phase starts at a time, or, for a hold, from when on it may.
fn limit_of(told: &Told, element: &Element, holder: &Holder, opens: i128, hold: bool) -> i128
    requires den { IsDenominator told.now.schedule.now.den }
    requires setup { IsStageDelay element.now.setup }
    requires stays { IsStageDelay element.now.hold }
    requires width { IsNumerator holder.now.width }
    requires opens { IsOpening opens }
    ensures { IsDrawnTime result }
{
    let den = told.schedule.den;
    let edge = edge_at(holder, opens);
    if hold {
        edge + i128::from(span_time(element.hold, den))
    } else {
        edge - i128::from(span_time(element.setup, den))
    }
}

/// The pair whose data decides a place of an element: that which comes first for a hold, else that which comes last.
fn deciding(causes: &Causes<'_>, kind: u32, element: u32) -> Option<usize>
    requires { element < element_count causes.now.told.system.now.flat }
    ensures value { result ≡ deciding causes.now.told.system.now causes.now.told.schedule.now causes.now.late.now
        causes.now.early.now kind element }
    ensures inside { IfSome result (λ n. n < length causes.now.told.system.now.pairs) }
{
    if kind == 1 {
        causes.earliest(element)
    } else {
        causes.latest(element)
    }
}

/// When data leaves an element: the earliest for a hold, else the latest.
fn leaving(causes: &Causes<'_>, told: &Told, element: u32, hold: bool) -> i128
    requires in_range { IsInRange told.now.schedule.now }
    requires element { element < element_count told.now.flat.now }
    ensures { IsLeaving result }
{
    let departures = if hold { causes.early } else { causes.late };
    i128::from(element_holder(told, element).start) + departure(departures, element)
}

/// A setup or a hold by its place, with the pair whose data decides it.
fn item_by(causes: &Causes<'_>, told: &Told, place: Place, pair: &Pair) -> Item
    requires in_range { IsInRange told.now.schedule.now }
    requires cycle { IsCycle told.now.schedule.now.cycle }
    requires from { pair.now.from < element_count told.now.flat.now }
    requires to { pair.now.to < element_count told.now.flat.now }
    requires least { IsDelay pair.now.min }
    requires greatest { IsDelay pair.now.max }
    requires room { IsLong place.2 }
    ensures item { IsItem told.now.flat.now result }
    ensures from { result.from ≡ pair.now.from }
    ensures to { result.to ≡ pair.now.to }
{
    let hold = place.1 == 1;
    let delay = pair_delay(told.flat, pair, hold);
    let at = leaving(causes, told, pair.from, hold);
    let holder = element_holder(told, pair.to);
    let element = told.flat.element(pair.to);
    let lap = lap_of(told.flat.element(pair.from), element, hold);
    let opens = opens_at(told, &holder, lap);
    Item {
        from: pair.from,
        to: pair.to,
        hold,
        room: place.2,
        delay,
        at,
        come: at + i128::from(span_time(delay, told.schedule.den)),
        lap,
        opens,
        limit: limit_of(told, element, &holder, opens, hold),
    }
}

/// A setup or a hold by its place, with the data that decides it.
pub(crate) fn item_of(causes: &Causes<'_>, told: &Told, place: Place) -> Option<Item>
    requires flat { told.now.flat.now ≡ causes.now.told.system.now.flat }
    requires in_range { IsInRange told.now.schedule.now }
    requires cycle { IsCycle told.now.schedule.now.cycle }
    requires place { IsPlace causes.now.told.system.now.flat place }
    ensures item { IfSome result (IsItem told.now.flat.now) }
    ensures pair { IfSome result (λ item. IsPairOf causes.now.told.system.now.pairs item.from item.to) }
    ensures names { item_names causes.now.told.system.now.flat result ≡ place_names causes.now.told.system.now
        causes.now.told.schedule.now causes.now.late.now causes.now.early.now place }
{
    match deciding(causes, place.1, place.3) {
        Some(number) => Some(item_by(causes, told, place, causes.told.system.pair(number))),
        None => None,
    }
}
