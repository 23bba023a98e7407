//! What a report is told by, and its times.
ghost use Rattle.std.specs.Prelude.{◌≡◌, ◌++◌, ◌≤◌, pos, negsuc, ◌-ℤ◌, ◌*ℤ◌, ◌≤ℤ◌, OnOk};
ghost use Rattle.mintc_text.specs.declared.limits.TheConstants.{MOST_MEMBERS};
ghost use Rattle.mintc_timing.specs.Clocking.{start_of};
ghost use Rattle.mintc_timing.specs.Design.{phase_count};
ghost use Rattle.mintc_timing.specs.Limits.{IsNumerator, IsPhase};
ghost use Rattle.mintcx_reports.specs.Begins.{IsReportTime, IsTimed, moment_text, starts_in};

use mintc_fraction::Fraction;
use mintc_text::{Lines, Name, OutOfMemory};
use mintc_timing::{Flat, Schedule};
use mintcx_amounts::{Unit, put_amount};

/// What a report is told by: the design and a schedule of it, the cells of the gates by the numbers of their arcs, and
/// the unit of its times.
#[derive(Clone, Copy)]
pub(crate) struct Told<'a> {
    pub(crate) flat: &'a Flat,
    pub(crate) schedule: &'a Schedule,
    pub(crate) cells: &'a [Name],
    pub(crate) unit: Unit,
}

/// Writes a time over the schedule's denominator.
pub(crate) fn put_moment(lines: &mut Lines, told: &Told, time: i128) -> Result<(), OutOfMemory>
    requires timed { IsTimed told.now.flat.now told.now.schedule.now }
    requires time { IsReportTime time }
    ensures { OnOk result (lines.new ≡ lines.old ++ moment_text told.now.unit told.now.schedule.now time) }
{
    let amount = Fraction::new(time, i128::from(told.schedule.den));
    put_amount(lines, &amount, told.unit)
}

/// So many cycles, over the schedule's denominator.
#[tactic(auto, using(crate::proofs::TimeLaws::cycles_low, crate::proofs::TimeLaws::cycles_high))]
pub(crate) fn cycles_time(cycles: u64, time: i64) -> i128
    requires few { cycles ≤ MOST_MEMBERS }
    requires time { IsNumerator time }
    ensures value { result ≡ pos cycles *ℤ time }
    ensures range { IsReportTime result }
{
    i128::from(cycles) * i128::from(time)
}

/// So many cycles but one.
#[tactic(auto, using(crate::proofs::TimeLaws::turns_low, crate::proofs::TimeLaws::turns_high))]
fn turns(cycle: u64, time: i64) -> i128
    requires few { cycle ≤ 1000000 }
    requires time { IsNumerator time }
    ensures value { result ≡ (pos cycle -ℤ pos 1) *ℤ time }
    ensures low { negsuc 99999999999999 ≤ℤ result }
    ensures high { result ≤ℤ pos 100000000000000000000 }
{
    (i128::from(cycle) - 1) * i128::from(time)
}

/// When a phase starts, over the schedule's denominator.
fn start_at(told: &Told, phase: u32) -> i64
    requires timed { IsTimed told.now.flat.now told.now.schedule.now }
    requires phase { IsPhase (phase_count told.now.flat.now) phase }
    ensures value { result ≡ start_of told.now.schedule.now phase }
    ensures range { IsNumerator result }
{
    told.schedule.starts.items()[phase as usize - 1]
}

/// When a phase starts in a cycle, which is counted from 1, over the schedule's denominator.
pub(crate) fn starts_in(told: &Told, phase: u32, cycle: u64) -> i128
    requires timed { IsTimed told.now.flat.now told.now.schedule.now }
    requires phase { IsPhase (phase_count told.now.flat.now) phase }
    requires few { cycle ≤ 1000000 }
    ensures value { result ≡ starts_in told.now.schedule.now phase cycle }
    ensures low { negsuc 99999999999999 ≤ℤ result }
    ensures high { result ≤ℤ pos 100000100000000000000 }
{
    i128::from(start_at(told, phase)) + turns(cycle, told.schedule.cycle)
}
