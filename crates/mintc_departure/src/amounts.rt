//! Spans of time under a schedule, as numerators over its denominator.
ghost use Rattle.std.specs.Prelude.{◌≡◌, ◌<◌, ◌+ℤ◌, ◌*ℤ◌, length};
ghost use Rattle.mintc_timing.specs.Clocking.{shift_of};
ghost use Rattle.mintc_timing.specs.Design.{element_count, pair_at};
ghost use Rattle.mintc_timing.specs.Limits.{IsDelay, IsModest, IsPhase, IsSpan, IsTime};
ghost use Rattle.mintc_departure.specs.Clocked.{IsClocked};
ghost use Rattle.mintc_departure.specs.Networks.{late_start_of, late_travel};
ghost use Rattle.mintc_departure.specs.Travels.{early_start_of, early_travel};

use crate::clocked_system::ClockedSystem;
use mintc_timing::{System, shift};
use mintc_timing_links::times_denominator;

/// The least delay of a pair.
fn least_delay(system: &System, number: usize) -> i64
    requires number { number < length system.now.pairs }
    ensures value { result ≡ (pair_at system.now number).min }
    ensures range { IsDelay result }
{
    system.pair(number).min
}

impl ClockedSystem<'_> {
    /// By how much a delay from an element on phase `i` to one on phase `j` raises a time since the start of its phase.
    fn shifted_delay(&self, delay: i64, i: u32, j: u32) -> i64
        requires delay { IsSpan delay }
        requires first { IsPhase (length self.now.schedule.now.starts) i }
        requires second { IsPhase (length self.now.schedule.now.starts) j }
        ensures value { result ≡ delay *ℤ self.now.schedule.now.den +ℤ shift_of self.now.schedule.now i j }
        ensures range { IsTime result }
    {
        times_denominator(delay, self.schedule.den) + shift(self.schedule, i, j)
    }

    /// By how much later data arrives at the end of a pair than it departs at its beginning, at the latest.
    pub fn late_delay(&self, number: usize) -> i64
        requires number { number < length self.now.system.now.pairs }
        ensures value { result ≡ late_travel self.now.system.now.flat self.now.schedule.now
            (pair_at self.now.system.now number) }
        ensures range { IsTime result }
        ensures kept { IsClocked self.now.system.now self.now.schedule.now }
    {
        let pair = self.system.pair(number);
        let from = self.system.element(pair.from);
        let to = self.system.element(pair.to);
        self.shifted_delay(from.dq_max + pair.max, from.phase, to.phase)
    }

    /// When an element's data leaves at the latest where no pair leads to it.
    pub fn late_start(&self, number: u32) -> i64
        requires number { number < element_count self.now.system.now.flat }
        ensures value { result ≡ late_start_of self.now.system.now.flat self.now.schedule.now number }
        ensures range { IsModest result }
    {
        let element = self.system.element(number);
        if element.flop {
            0
        } else {
            times_denominator(element.cq_max - element.dq_max, self.schedule.den)
        }
    }

    /// By how much later data arrives at the end of a pair than it departs at its beginning, at the earliest.
    pub fn early_delay(&self, number: usize) -> i64
        requires number { number < length self.now.system.now.pairs }
        ensures value { result ≡ early_travel self.now.system.now.flat self.now.schedule.now
            (pair_at self.now.system.now number) }
        ensures range { IsTime result }
    {
        let pair = self.system.pair(number);
        let from = self.system.element(pair.from);
        let to = self.system.element(pair.to);
        let delay = from.dq_min + least_delay(self.system, number);
        self.shifted_delay(delay, from.phase, to.phase)
    }

    /// When an element's data leaves at the earliest where no pair leads to it.
    pub fn early_start(&self, number: u32) -> i64
        requires number { number < element_count self.now.system.now.flat }
        ensures value { result ≡ early_start_of self.now.system.now.flat self.now.schedule.now number }
        ensures range { IsModest result }
    {
        let element = self.system.element(number);
        if element.flop {
            0
        } else {
            times_denominator(element.cq_min - element.dq_min, self.schedule.den)
        }
    }
}
