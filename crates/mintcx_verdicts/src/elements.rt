//! The fourth and the fifth test in words.
ghost use Rattle.std.specs.Prelude.{◌≡◌, ◌<◌, ◌++◌, length, IfOk, IfSome, OnOk};
ghost use Rattle.mintc_text.specs.Lines.{ended};
ghost use Rattle.mintc_timing.specs.Departures.{late_arrivals, late_departure, late_opening};
ghost use Rattle.mintc_timing.specs.Design.{element_count};
ghost use Rattle.mintc_timing.specs.Extremes.{greatest_of};
ghost use Rattle.mintc_timing.specs.Violations.{setup_amount};
ghost use Rattle.mintcx_judgements.specs.Shown.{IsLong};
ghost use Rattle.mintcx_verdicts.specs.Arrivals.{AreLastArrivals, IsLate, departures_text, first_inexact, first_tardy};
ghost use Rattle.mintcx_verdicts.specs.Arrivals.{inexact_line, is_inexact, is_tardy, setups_text, tardy_line};
ghost use Rattle.mintcx_verdicts.specs.Arrivals.{tardy_text, there_at, there_words};

use crate::arrivals::{departure, last_arrivals};
use crate::judging::Judging;
use mintc_text::{Lines, OutOfMemory};
use mintc_timing_links::{times_denominator, width};
use mintcx_judgements::{put_element, put_measured, put_timed, setup};
use std::alloc::Global;

/// Departures, and the last arrival at each element.
#[derive(Drop)]
struct Arrived<'a> {
    judging: Judging<'a>,
    last: Vec<Option<i64>>,
    ghost last_are: { AreLastArrivals judging.told.system.now judging.told.schedule.now judging.departures.now
        (length judging.told.system.now.pairs) last.items },
}

impl Arrived<'_> {
    /// The last arrival at an element.
    fn last(&self, element: u32) -> Option<i64>
        requires { element < element_count self.now.judging.told.system.now.flat }
        ensures { result ≡ greatest_of (late_arrivals self.now.judging.told.system.now
            self.now.judging.told.schedule.now self.now.judging.departures.now element) }
    {
        self.last[element as usize]
    }
}

/// When a latch opens.
fn opening(judging: &Judging<'_>, element: u32) -> i64
    requires { element < element_count judging.now.told.system.now.flat }
    ensures { result ≡ late_opening judging.now.told.system.now.flat judging.now.told.schedule.now element }
{
    let told = &judging.told;
    let _flat = told.flat();
    let found = told.element(element);
    times_denominator(found.cq_max - found.dq_max, told.schedule.den)
}

/// What the others make the departure of an element.
fn made(arrived: &Arrived<'_>, element: u32) -> i64
    requires { element < element_count arrived.now.judging.told.system.now.flat }
    ensures { result ≡ late_departure arrived.now.judging.told.system.now arrived.now.judging.told.schedule.now
        arrived.now.judging.departures.now element }
{
    let judging = &arrived.judging;
    if judging.told.element(element).flop {
        return 0;
    }
    let open = opening(judging, element);
    match arrived.last(element) {
        Some(last) => i64::max(open, last),
        None => open,
    }
}

/// Whether the departure of an element is not what the others make it.
fn is_inexact(arrived: &Arrived<'_>, element: u32) -> bool
    requires { element < element_count arrived.now.judging.told.system.now.flat }
    ensures { result ≡ is_inexact arrived.now.judging.told.system.now arrived.now.judging.told.schedule.now
        arrived.now.judging.departures.now element }
{
    departure(&arrived.judging, element) != made(arrived, element)
}

/// The first element whose departure is wrong.
fn first_inexact(arrived: &Arrived<'_>) -> Option<u32>
    ensures value { result ≡ first_inexact arrived.now.judging.told.system.now arrived.now.judging.told.schedule.now
        arrived.now.judging.departures.now }
    ensures inside { IfSome result (λ l. l < element_count arrived.now.judging.told.system.now.flat) }
{
    for element in 0..arrived.judging.told.flat().element_count() {
        if is_inexact(arrived, element) {
            return Some(element);
        }
    }
    None
}

/// Writes what the others make the departure of an element, and what the certificate says.
fn put_inexact(lines: &mut Lines, arrived: &Arrived<'_>, element: u32) -> Result<(), OutOfMemory>
    requires { element < element_count arrived.now.judging.told.system.now.flat }
    ensures { OnOk result (lines.new ≡ lines.old ++ ended (inexact_line arrived.now.judging.told.system.now
        arrived.now.judging.told.schedule.now arrived.now.judging.departures.now arrived.now.judging.told.unit
        element)) }
{
    let told = &arrived.judging.told;
    let made = i128::from(made(arrived, element));
    let said = i128::from(departure(&arrived.judging, element));
    lines.put(b"  ")?;
    put_element(lines, told, element)?;
    put_timed(lines, told, b" departs at ", made)?;
    put_timed(lines, told, b" by the others, the certificate says ", said)?;
    lines.put(b"\n")
}

/// By how much the data of an element is too late for its setup, a number above 0 then. A flop to which no data comes
/// has none.
fn setup_amount(arrived: &Arrived<'_>, element: u32) -> Option<i128>
    requires { element < element_count arrived.now.judging.told.system.now.flat }
    ensures value { result ≡ setup_amount arrived.now.judging.told.system.now arrived.now.judging.told.schedule.now
        arrived.now.judging.departures.now element }
    ensures range { IfSome result IsLate }
{
    let told = &arrived.judging.told;
    let _flat = told.flat();
    let found = told.element(element);
    let setup = setup(told, element);
    if !found.flop {
        let leaves = i64::max(0, departure(&arrived.judging, element));
        let width = width(told.schedule, found.phase);
        return Some(i128::from(leaves) + setup - i128::from(width));
    }
    match arrived.last(element) {
        Some(last) => Some(i128::from(last) + setup),
        None => None,
    }
}

/// Whether the data of an element comes too late.
fn is_tardy(arrived: &Arrived<'_>, element: u32) -> bool
    requires { element < element_count arrived.now.judging.told.system.now.flat }
    ensures { result ≡ is_tardy arrived.now.judging.told.system.now arrived.now.judging.told.schedule.now
        arrived.now.judging.departures.now element }
{
    match setup_amount(arrived, element) {
        Some(amount) => 0 < amount,
        None => false,
    }
}

/// The first element whose data comes too late.
fn first_tardy(arrived: &Arrived<'_>) -> Option<u32>
    ensures value { result ≡ first_tardy arrived.now.judging.told.system.now arrived.now.judging.told.schedule.now
        arrived.now.judging.departures.now }
    ensures inside { IfSome result (λ l. l < element_count arrived.now.judging.told.system.now.flat) }
{
    for element in 0..arrived.judging.told.flat().element_count() {
        if is_tardy(arrived, element) {
            return Some(element);
        }
    }
    None
}

/// The words for when the data of an element is there.
fn there_words(flop: bool) -> &'static [u8]
    ensures { result.now ≡ there_words flop }
{
    if flop {
        b" gets its data at "
    } else {
        b" departs at "
    }
}

/// When the data of an element is there, for a setup that is missed by this amount, counted from the start of the
/// element's phase.
fn there_at(judging: &Judging<'_>, element: u32, amount: i128) -> i128
    requires element { element < element_count judging.now.told.system.now.flat }
    requires amount { IsLate amount }
    ensures value { result ≡ there_at judging.now.told.system.now judging.now.told.schedule.now
        judging.now.departures.now element amount }
    ensures range { IsLong result }
{
    let told = &judging.told;
    if told.element(element).flop {
        amount - setup(told, element)
    } else {
        i128::from(i64::max(0, departure(judging, element)))
    }
}

/// Writes when the data of an element is there, and by how much that is too late for its setup.
fn put_tardy(
    lines: &mut Lines,
    judging: &Judging<'_>,
    element: u32,
    amount: i128,
) -> Result<(), OutOfMemory>
    requires element { element < element_count judging.now.told.system.now.flat }
    requires amount { IsLate amount }
    ensures { OnOk result (lines.new ≡ lines.old ++ ended (tardy_line judging.now.told.system.now
        judging.now.told.schedule.now judging.now.departures.now judging.now.told.unit element amount)) }
{
    let told = &judging.told;
    let words = there_words(told.element(element).flop);
    let there = there_at(judging, element, amount);
    lines.put(b"  ")?;
    put_element(lines, told, element)?;
    put_timed(lines, told, words, there)?;
    put_measured(lines, told, b", ", amount)?;
    put_timed(
        lines,
        told,
        b" too late for its setup of ",
        setup(told, element),
    )?;
    lines.put(b"\n")
}

/// Departures with their last arrivals.
fn arrived_of<'a>(alloc: Global, judging: &Judging<'a>) -> Result<Arrived<'a>, OutOfMemory>
    ensures system { IfOk result (λ arrived. arrived.judging.told.system.now ≡ judging.now.told.system.now) }
    ensures schedule { IfOk result (λ arrived. arrived.judging.told.schedule.now ≡ judging.now.told.schedule.now) }
    ensures unit { IfOk result (λ arrived. arrived.judging.told.unit ≡ judging.now.told.unit) }
    ensures departures { IfOk result (λ arrived. arrived.judging.departures.now ≡ judging.now.departures.now) }
{
    let last = last_arrivals(alloc, judging)?;
    Ok(Arrived {
        judging: *judging,
        last,
    })
}

/// Writes the first element whose departure is not what the others make it.
fn put_first_inexact(lines: &mut Lines, arrived: &Arrived<'_>) -> Result<(), OutOfMemory>
    ensures { OnOk result (lines.new ≡ lines.old ++ departures_text arrived.now.judging.told.system.now
        arrived.now.judging.told.schedule.now arrived.now.judging.departures.now arrived.now.judging.told.unit) }
{
    match first_inexact(arrived) {
        Some(element) => put_inexact(lines, arrived, element),
        None => Ok(()),
    }
}

/// Writes when the data of an element is there that comes too late, for the amount of its setup.
fn put_late(
    lines: &mut Lines,
    judging: &Judging<'_>,
    element: u32,
    amount: Option<i128>,
) -> Result<(), OutOfMemory>
    requires element { element < element_count judging.now.told.system.now.flat }
    requires amount { IfSome amount IsLate }
    ensures { OnOk result (lines.new ≡ lines.old ++ tardy_text judging.now.told.system.now
        judging.now.told.schedule.now judging.now.departures.now judging.now.told.unit element amount) }
{
    match amount {
        Some(amount) => put_tardy(lines, judging, element, amount),
        None => Ok(()),
    }
}

/// Writes the first element whose data comes too late for its setup.
fn put_first_tardy(lines: &mut Lines, arrived: &Arrived<'_>) -> Result<(), OutOfMemory>
    ensures { OnOk result (lines.new ≡ lines.old ++ setups_text arrived.now.judging.told.system.now
        arrived.now.judging.told.schedule.now arrived.now.judging.departures.now arrived.now.judging.told.unit) }
{
    match first_tardy(arrived) {
        Some(element) => {
            let amount = setup_amount(arrived, element);
            put_late(lines, &arrived.judging, element, amount)
        }
        None => Ok(()),
    }
}

/// Writes the first element whose departure is not what the others make it.
pub(crate) fn put_departures(
    alloc: Global,
    lines: &mut Lines,
    judging: &Judging<'_>,
) -> Result<(), OutOfMemory>
    ensures { OnOk result (lines.new ≡ lines.old ++ departures_text judging.now.told.system.now
        judging.now.told.schedule.now judging.now.departures.now judging.now.told.unit) }
{
    let arrived = arrived_of(alloc, judging)?;
    put_first_inexact(lines, &arrived)
}

/// Writes the first element whose data comes too late for its setup.
pub(crate) fn put_setups(
    alloc: Global,
    lines: &mut Lines,
    judging: &Judging<'_>,
) -> Result<(), OutOfMemory>
    ensures { OnOk result (lines.new ≡ lines.old ++ setups_text judging.now.told.system.now
        judging.now.told.schedule.now judging.now.departures.now judging.now.told.unit) }
{
    let arrived = arrived_of(alloc, judging)?;
    put_first_tardy(lines, &arrived)
}
