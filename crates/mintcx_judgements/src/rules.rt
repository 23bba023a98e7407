//! Violations of the rules of the clock, in words.
ghost use Rattle.std.specs.Prelude.{◌≡◌, ◌<◌, ◌≤◌, ◌++◌, length, slice_index_or, IfSome, OnOk};
ghost use Rattle.mintc_text.specs.Lines.{ended, text_of};
ghost use Rattle.mintc_timing.specs.Design.{element_count, phase_count};
ghost use Rattle.mintc_timing.specs.Limits.{IsBound, IsPhase, IsPoint};
ghost use Rattle.mintcx_judgements.specs.Rules.{apart_lines, asked_line, asking, bound_lines, cycle_lines, less_cycles};
ghost use Rattle.mintcx_judgements.specs.Rules.{no_bound, order_lines, point_name, racing, rule_lines, span_lines};
ghost use Rattle.mintcx_judgements.specs.Rules.{width_lines};
ghost use Rattle.mintcx_judgements.specs.Named.{IsNamed};
ghost use Rattle.mintcx_frame.specs.Names.{phase_name};
ghost use Rattle.mintcx_judgements.specs.Shown.{IsLong, about, measured, timed};

use crate::shown::{put_about, put_measured, put_timed};
use crate::sources::{cycle, scaled, start, width};
use crate::told::Told;
use crate::widest::{first_between, widest_on};
use mintc_text::{Lines, OutOfMemory};
use mintc_timing::{Bound, Broken, Point};
use mintcx_frame::put_number;

/// A phase that breaks a rule, and by how much, in femtoseconds times the schedule's denominator.
#[derive(Clone, Copy)]
struct Excess {
    phase: u32,
    amount: i128,
}

/// A phase that breaks a rule by this amount.
fn excess_of(phase: u32, amount: i64) -> Excess
    ensures value { result ≡ record { phase = phase; amount = amount } }
    ensures range { IsLong result.amount }
{
    Excess {
        phase,
        amount: i128::from(amount),
    }
}

/// Writes the beginning of a violation's first line: its kind, a phase, what it does, and by how much.
fn put_claim(
    lines: &mut Lines,
    told: &Told<'_>,
    kind: &[u8],
    excess: Excess,
    says: &[u8],
) -> Result<(), OutOfMemory>
    requires phase { IsPhase (phase_count told.now.system.now.flat) excess.phase }
    requires amount { IsLong excess.amount }
    ensures { OnOk result (lines.new ≡ lines.old ++ measured told.now.unit told.now.schedule.now
        (about kind.now (phase_name told.now.system.now.flat excess.phase) says.now) excess.amount) }
{
    lines.put(kind)?;
    lines.put(told.phase_name(excess.phase))?;
    put_measured(lines, told, says, excess.amount)
}

/// Writes a line with two times, the numbers by which a rule is broken.
fn put_times(
    lines: &mut Lines,
    told: &Told<'_>,
    says: &[u8],
    time: i128,
    joins: &[u8],
    other: i128,
) -> Result<(), OutOfMemory>
    requires time { IsLong time }
    requires other { IsLong other }
    ensures { OnOk result (lines.new ≡ lines.old ++ ended (timed told.now.unit told.now.schedule.now says.now time
        ++ timed told.now.unit told.now.schedule.now joins.now other)) }
{
    put_timed(lines, told, says, time)?;
    put_timed(lines, told, joins, other)?;
    lines.put(b"\n")
}

/// Writes that a phase starts after the cycle.
fn put_cycle(lines: &mut Lines, told: &Told<'_>, excess: Excess) -> Result<(), OutOfMemory>
    requires phase { IsPhase (phase_count told.now.system.now.flat) excess.phase }
    requires amount { IsLong excess.amount }
    ensures { OnOk result (lines.new ≡ lines.old ++ text_of (cycle_lines told.now.system.now.flat
        told.now.schedule.now told.now.unit excess.phase excess.amount)) }
{
    let starts = start(told, excess.phase);
    put_claim(lines, told, b"  cycle  ", excess, b" starts ")?;
    lines.put(b" after the cycle ends\n")?;
    put_times(
        lines,
        told,
        b"         it starts at ",
        starts,
        b", the cycle is ",
        cycle(told),
    )
}

/// Writes that a phase starts after the next one.
fn put_order(lines: &mut Lines, told: &Told<'_>, excess: Excess) -> Result<(), OutOfMemory>
    requires some { 1 ≤ excess.phase }
    requires next { excess.phase < phase_count told.now.system.now.flat }
    requires amount { IsLong excess.amount }
    ensures { OnOk result (lines.new ≡ lines.old ++ text_of (order_lines told.now.system.now.flat
        told.now.schedule.now told.now.unit excess.phase excess.amount)) }
{
    let starts = start(told, excess.phase);
    let next = start(told, excess.phase + 1);
    put_claim(lines, told, b"  order  ", excess, b" starts ")?;
    put_about(
        lines,
        b" after ",
        told.phase_name(excess.phase + 1),
        b", which follows it\n",
    )?;
    put_times(lines, told, b"         at ", starts, b" and at ", next)
}

/// Writes that a phase is wider than the cycle.
fn put_span(lines: &mut Lines, told: &Told<'_>, excess: Excess) -> Result<(), OutOfMemory>
    requires phase { IsPhase (phase_count told.now.system.now.flat) excess.phase }
    requires amount { IsLong excess.amount }
    ensures { OnOk result (lines.new ≡ lines.old ++ text_of (span_lines told.now.system.now.flat
        told.now.schedule.now told.now.unit excess.phase excess.amount)) }
{
    let wide = width(told, excess.phase);
    put_claim(lines, told, b"  span   ", excess, b" is open for ")?;
    lines.put(b" more than a cycle\n")?;
    put_times(
        lines,
        told,
        b"         it is ",
        wide,
        b" wide, the cycle is ",
        cycle(told),
    )
}

/// Writes what an element asks for, where there is one.
fn put_asking(lines: &mut Lines, told: &Told<'_>, element: Option<u32>) -> Result<(), OutOfMemory>
    requires { IfSome element (λ l. l < element_count told.now.system.now.flat) }
    ensures { OnOk result (lines.new ≡ lines.old
        ++ asking told.now.system.now.flat told.now.schedule.now told.now.unit element) }
{
    let Some(element) = element else {
        return lines.put(b" wide");
    };
    lines.put(b" wide, ")?;
    lines.put(told.element_name(element))?;
    let wants = scaled(told, told.element(element).width);
    put_timed(lines, told, b" wants pulses of ", wants)
}

/// Writes that a phase is too narrow.
fn put_width(lines: &mut Lines, told: &Told<'_>, excess: Excess) -> Result<(), OutOfMemory>
    requires phase { IsPhase (phase_count told.now.system.now.flat) excess.phase }
    requires amount { IsLong excess.amount }
    ensures { OnOk result (lines.new ≡ lines.old ++ text_of (width_lines told.now.system.now.flat
        told.now.schedule.now told.now.unit excess.phase excess.amount)) }
{
    let wide = width(told, excess.phase);
    put_claim(lines, told, b"  width  ", excess, b" is too narrow by ")?;
    lines.put(b"\n")?;
    put_timed(lines, told, b"         it is ", wide)?;
    put_asking(lines, told, widest_on(told, excess.phase))?;
    lines.put(b"\n")
}

/// Writes what could happen to the data of a pair, where there is one.
fn put_racing(
    lines: &mut Lines,
    told: &Told<'_>,
    i: u32,
    j: u32,
    pair: Option<usize>,
) -> Result<(), OutOfMemory>
    requires first { IsPhase (phase_count told.now.system.now.flat) i }
    requires second { IsPhase (phase_count told.now.system.now.flat) j }
    requires pair { IfSome pair (λ n. n < length told.now.system.now.pairs) }
    ensures { OnOk result (lines.new ≡ lines.old ++ text_of (racing told.now.system.now i j pair)) }
{
    let Some(pair) = pair else {
        return Ok(());
    };
    let joined = told.system.pair(pair);
    lines.put(b"         data of ")?;
    lines.put(told.element_name(joined.from))?;
    put_about(lines, b" (", told.phase_name(i), b")")?;
    lines.put(b" could run through ")?;
    lines.put(told.element_name(joined.to))?;
    put_about(lines, b" (", told.phase_name(j), b") too soon")?;
    lines.put(b"\n")
}

/// Writes that a phase starts before another has ended.
fn put_apart(
    lines: &mut Lines,
    told: &Told<'_>,
    i: u32,
    j: u32,
    amount: i64,
) -> Result<(), OutOfMemory>
    requires first { IsPhase (phase_count told.now.system.now.flat) i }
    requires second { IsPhase (phase_count told.now.system.now.flat) j }
    ensures { OnOk result (lines.new ≡ lines.old
        ++ text_of (apart_lines told.now.system.now told.now.schedule.now told.now.unit i j amount)) }
{
    put_claim(lines, told, b"  apart  ", excess_of(i, amount), b" starts ")?;
    put_about(lines, b" before ", told.phase_name(j), b" has ended\n")?;
    put_racing(lines, told, i, j, first_between(told, i, j))
}

/// Writes what a point of the clock is called.
fn put_point(lines: &mut Lines, told: &Told<'_>, point: Point) -> Result<(), OutOfMemory>
    requires { IsPoint (phase_count told.now.system.now.flat) point }
    ensures { OnOk result (lines.new ≡ lines.old ++ point_name told.now.system.now.flat point) }
{
    match point {
        Point::Origin => lines.put(b"time 0"),
        Point::Start(phase) => {
            lines.put(told.phase_name(phase))?;
            lines.put(b" starts")
        }
        Point::End(phase) => {
            lines.put(told.phase_name(phase))?;
            lines.put(b" ends")
        }
    }
}

/// Writes the cycles of a bound, where it has any.
fn put_less(lines: &mut Lines, cycles: u32) -> Result<(), OutOfMemory>
    ensures { OnOk result (lines.new ≡ lines.old ++ less_cycles cycles) }
{
    if cycles == 0 {
        return Ok(());
    }
    lines.put(b", less a cycle")
}

/// Writes between which points a bound is, and what it asks for.
fn put_asked(lines: &mut Lines, told: &Told<'_>, bound: &Bound) -> Result<(), OutOfMemory>
    requires { IsBound (phase_count told.now.system.now.flat) bound.now }
    ensures { OnOk result (lines.new ≡ lines.old
        ++ ended (asked_line told.now.system.now.flat told.now.schedule.now told.now.unit bound.now)) }
{
    let asked = scaled(told, bound.gap);
    lines.put(b"         from ")?;
    put_point(lines, told, bound.from)?;
    lines.put(b" to ")?;
    put_point(lines, told, bound.to)?;
    put_timed(lines, told, b" it asks for ", asked)?;
    put_less(lines, bound.cycles)?;
    lines.put(b"\n")
}

/// Writes that a bound is missed. Bounds are counted from 0 here, and from 1 in the text.
fn put_bound(lines: &mut Lines, told: &Told<'_>, index: u32, amount: i64) -> Result<(), OutOfMemory>
    requires { index < length told.now.system.now.flat.bounds }
    ensures { OnOk result (lines.new ≡ lines.old
        ++ text_of (bound_lines told.now.system.now.flat told.now.schedule.now told.now.unit index
        (slice_index_or told.now.system.now.flat.bounds index no_bound) amount)) }
{
    let bound = told.bound(index);
    lines.put(b"  bound  bound ")?;
    put_number(lines, u64::from(index + 1))?;
    put_measured(lines, told, b" is missed by ", i128::from(amount))?;
    lines.put(b"\n")?;
    put_asked(lines, told, bound)
}

/// Writes a rule of the clock or a bound that is broken, by how much, and with which numbers: nothing of a loop, a
/// setup or a hold. The amount is in femtoseconds times the schedule's denominator.
pub fn put_rule(
    lines: &mut Lines,
    told: &Told<'_>,
    broken: &Broken,
    amount: i64,
) -> Result<(), OutOfMemory>
    requires { IsNamed told.now.system.now broken.now }
    ensures { OnOk result (lines.new ≡ lines.old ++ text_of (rule_lines told.now.system.now told.now.schedule.now
        told.now.unit broken.now amount)) }
{
    match broken {
        Broken::Cycle { phase } => put_cycle(lines, told, excess_of(*phase, amount)),
        Broken::Order { phase } => put_order(lines, told, excess_of(*phase, amount)),
        Broken::Span { phase } => put_span(lines, told, excess_of(*phase, amount)),
        Broken::Width { phase } => put_width(lines, told, excess_of(*phase, amount)),
        Broken::Apart { i, j } => put_apart(lines, told, *i, *j, amount),
        Broken::Bound { index } => put_bound(lines, told, *index, amount),
        _ => Ok(()),
    }
}
