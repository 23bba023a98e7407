//! The stretch of time that is shown.
ghost use Rattle.std.specs.Prelude.{◌≡◌, ◌/◌, pos, negsuc, ◌+ℤ◌, ◌-ℤ◌, ◌*ℤ◌, ◌≤ℤ◌, ◌<ℤ◌, All, IfSome, unsigned_abs};
ghost use Rattle.std.specs.Int.{int_max, int_min};
ghost use Rattle.mintc_timing.specs.Limits.{IsDenominator, IsNumerator};
ghost use Rattle.mintcx_picture.specs.Places.{IsScale, IsScaleTime};
ghost use Rattle.mintcx_chart.specs.Ranges.{IsCycle, IsDrawnTime};
ghost use Rattle.mintcx_chart.specs.Sheets.{IsLane};
ghost use Rattle.mintcx_chart.specs.Stretches.{IsShown, closes_at, greatest_of, lane_times, least_of, opens_at};
ghost use Rattle.mintcx_chart.specs.Stretches.{pad_of, shown_first, shown_last, times_of};

use crate::lanes::{Lane, is_clock};
use crate::times::laps_time;
use mintcx_picture::{Scale, scale_of};

/// A stretch of time, in numerators over the schedule's denominator.
#[derive(Clone, Copy)]
pub struct Span {
    pub first: i128,
    pub last: i128,
}

/// A stretch with one time more in it.
pub fn with_time(span: Span, time: i128) -> Span
    requires first { IsDrawnTime span.first }
    requires last { IsDrawnTime span.last }
    requires ordered { span.first ≤ℤ span.last }
    requires time { IsDrawnTime time }
    ensures least { result.first ≡ int_min span.first time }
    ensures greatest { result.last ≡ int_max span.last time }
    ensures first { IsDrawnTime result.first }
    ensures last { IsDrawnTime result.last }
    ensures ordered { result.first ≤ℤ result.last }
{
    Span {
        first: span.first.min(time),
        last: span.last.max(time),
    }
}

/// When the phase of a row's element starts in its lap.
fn opening(cycle: i64, lane: &Lane) -> i128
    requires cycle { IsCycle cycle }
    requires lane { IsLane lane.now }
    ensures value { result ≡ opens_at cycle lane.now }
    ensures low { negsuc 99999999999999 ≤ℤ result }
    ensures high { result ≤ℤ pos 200000000000000000000 }
{
    i128::from(lane.start) + laps_time(lane.lap, cycle)
}

/// A time with a phase's width behind it.
fn closing(opens: i128, width: i64) -> i128
    requires low { negsuc 99999999999999 ≤ℤ opens }
    requires high { opens ≤ℤ pos 200000000000000000000 }
    requires width { IsNumerator width }
    ensures value { result ≡ opens +ℤ width }
    ensures ordered { opens ≤ℤ result }
    ensures high { result ≤ℤ pos 300000000000000000000 }
{
    opens + i128::from(width)
}

/// When the phase of a row's element is open in its lap.
pub fn own_window(cycle: i64, lane: &Lane) -> Span
    requires cycle { IsCycle cycle }
    requires lane { IsLane lane.now }
    ensures opens { result.first ≡ opens_at cycle lane.now }
    ensures closes { result.last ≡ closes_at cycle lane.now }
    ensures first { IsDrawnTime result.first }
    ensures last { IsDrawnTime result.last }
    ensures ordered { result.first ≤ℤ result.last }
{
    let first = opening(cycle, lane);
    let last = closing(first, lane.width);
    Span { first, last }
}

/// A stretch with a row's time in it, and the window of its element.
fn with_lane(span: Span, cycle: i64, lane: &Lane) -> Span
    requires first { IsDrawnTime span.first }
    requires last { IsDrawnTime span.last }
    requires ordered { span.first ≤ℤ span.last }
    requires cycle { IsCycle cycle }
    requires lane { IsLane lane.now }
    ensures least { result.first ≡ least_of span.first (lane_times cycle lane.now) }
    ensures greatest { result.last ≡ greatest_of span.last (lane_times cycle lane.now) }
    ensures first { IsDrawnTime result.first }
    ensures last { IsDrawnTime result.last }
    ensures ordered { result.first ≤ℤ result.last }
{
    let timed = with_time(span, lane.at);
    if is_clock(lane.kind) {
        return timed;
    }
    let window = own_window(cycle, lane);
    with_time(with_time(timed, window.first), window.last)
}

/// A stretch with all rows in it.
fn with_lanes(marks: Span, cycle: i64, lanes: &[Lane]) -> Span
    requires first { IsDrawnTime marks.first }
    requires last { IsDrawnTime marks.last }
    requires ordered { marks.first ≤ℤ marks.last }
    requires cycle { IsCycle cycle }
    requires lanes { All IsLane lanes.now }
    ensures least { result.first ≡ least_of marks.first (times_of cycle lanes.now) }
    ensures greatest { result.last ≡ greatest_of marks.last (times_of cycle lanes.now) }
    ensures first { IsDrawnTime result.first }
    ensures last { IsDrawnTime result.last }
    ensures ordered { result.first ≤ℤ result.last }
{
    let mut span = marks;
    for lane in lanes {
        span = with_lane(span, cycle, lane);
    }
    span
}

/// A fortieth of a time, rounded down.
fn fortieth(time: i128) -> i128
    requires some { pos 0 ≤ℤ time }
    requires few { time ≤ℤ pos 4000000000000000000000 }
    ensures value { result ≡ pos (unsigned_abs time / 40) }
    ensures some { pos 0 ≤ℤ result }
    ensures few { result ≤ℤ pos 100000000000000000000 }
{
    (time.unsigned_abs() / 40) as i128
}

/// How long a stretch is.
fn length_of(span: Span) -> i128
    requires first { IsDrawnTime span.first }
    requires last { IsDrawnTime span.last }
    requires ordered { span.first ≤ℤ span.last }
    ensures value { result ≡ span.last -ℤ span.first }
    ensures some { pos 0 ≤ℤ result }
    ensures few { result ≤ℤ pos 4000000000000000000000 }
{
    span.last - span.first
}

/// How much more is shown on both sides of a stretch.
fn pad_of(span: Span, den: i64) -> i128
    requires first { IsDrawnTime span.first }
    requires last { IsDrawnTime span.last }
    requires ordered { span.first ≤ℤ span.last }
    requires den { IsDenominator den }
    ensures value { result ≡ pad_of den span.first span.last }
    ensures some { pos 1 ≤ℤ result }
    ensures few { result ≤ℤ pos 200000000000000000000 }
{
    fortieth(length_of(span)) + i128::from(den)
}

/// A stretch with some time more on both sides.
fn padded(span: Span, den: i64) -> Span
    requires first { IsDrawnTime span.first }
    requires last { IsDrawnTime span.last }
    requires ordered { span.first ≤ℤ span.last }
    requires den { IsDenominator den }
    ensures begins { result.first ≡ shown_first den span.first span.last }
    ensures ends { result.last ≡ shown_last den span.first span.last }
    ensures first { IsScaleTime result.first }
    ensures last { IsScaleTime result.last }
    ensures some { result.first <ℤ result.last }
{
    let pad = pad_of(span, den);
    Span {
        first: span.first - pad,
        last: span.last + pad,
    }
}

/// How long what is shown is.
fn shown_length(shown: Span) -> i128
    requires first { IsScaleTime shown.first }
    requires last { IsScaleTime shown.last }
    ensures { result ≡ shown.last -ℤ shown.first }
{
    shown.last - shown.first
}

/// How long the cycles are that a picture shows at the most.
fn most_cycles(cycle: i64) -> i128
    requires { IsCycle cycle }
    ensures { result ≡ pos 80 *ℤ cycle }
{
    80 * i128::from(cycle)
}

/// The scale of a chart of these rows that shows a stretch of time, some more on both sides. None where it would show
/// more than 80 cycles.
pub fn scale_for(den: i64, cycle: i64, lanes: &[Lane], marks: Span) -> Option<Scale>
    requires den { IsDenominator den }
    requires cycle { IsCycle cycle }
    requires lanes { All IsLane lanes.now }
    requires first { IsDrawnTime marks.first }
    requires last { IsDrawnTime marks.last }
    requires ordered { marks.first ≤ℤ marks.last }
    ensures scale { IfSome result IsScale }
    ensures shown { IsShown den cycle (least_of marks.first (times_of cycle lanes.now))
        (greatest_of marks.last (times_of cycle lanes.now)) result }
{
    let span = with_lanes(marks, cycle, lanes);
    let shown = padded(span, den);
    if shown_length(shown) > most_cycles(cycle) {
        return None;
    }
    Some(scale_of(shown.first, shown.last, cycle))
}
