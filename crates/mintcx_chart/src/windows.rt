//! When phases are open.
ghost use Rattle.std.specs.Prelude.{◌≤◌, pos, ◌≤ℤ◌};
ghost use Rattle.mintc_timing.specs.Limits.{IsNumerator};
ghost use Rattle.mintcx_picture.specs.Places.{IsScale};
ghost use Rattle.mintcx_chart.specs.Ranges.{IsCycle, IsQuotient};

use crate::times::lap_time;
use mintc_text::OutOfMemory;
use mintcx_picture::Scale;
use std::alloc::Global;

/// More cycles than a picture shows.
const MOST_LAPS: i128 = 1_000;

/// A window: from when to when a phase is open, and in which lap.
#[derive(Clone, Copy, Drop)]
pub(crate) struct Window {
    pub(crate) from: i128,
    pub(crate) to: i128,
    pub(crate) lap: i128,
}

/// How often a span of time is in another one, rounded down.
pub(crate) fn quotient(time: i128, span: i128) -> i128
    requires time { IsQuotient time }
    requires span { pos 1 ≤ℤ span }
    ensures { IsQuotient result }
{
    time.div_euclid(span)
}

/// How many numbers there are from one to another.
pub(crate) fn count_of(first: i128, last: i128) -> u32
    requires first { IsQuotient first }
    requires last { IsQuotient last }
    ensures { result ≤ 1000 }
{
    (last - first + 1).clamp(0, MOST_LAPS) as u32
}

/// The windows of a stretch of time that begin at a time of each cycle and are so wide.
pub(crate) fn windows_of(
    alloc: Global,
    scale: &Scale,
    cycle: i64,
    start: i64,
    width: i64,
) -> Result<Vec<Window>, OutOfMemory>
    requires scale { IsScale scale.now }
    requires cycle { IsCycle cycle }
    requires start { IsNumerator start }
    requires width { IsNumerator width }
{
    let begin = i128::from(start);
    let wide = i128::from(width);
    let first = -quotient(begin + wide - scale.first, i128::from(cycle));
    let last = quotient(scale.last - begin, i128::from(cycle));
    let mut windows = Vec::new(alloc);
    for number in 0..count_of(first, last) {
        let lap = first + i128::from(number);
        let from = begin + lap_time(lap, cycle);
        windows.push(Window {
            from,
            to: from + wide,
            lap,
        })?;
    }
    Ok(windows)
}
