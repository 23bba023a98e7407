//! Delays below 0 that are taken as 0.
ghost use Rattle.std.specs.Prelude.{◌≡◌, ◌≤◌, ◌++◌, IfOk, IfSome, OnOk, length};
ghost use Rattle.mintcx_warnings.specs.Clamped.{at_text, clamped_help, clamped_label, clamped_said, clamped_what};
ghost use Rattle.mintcx_warnings.specs.Clamped.{clamped_why, delays_of, taken};
ghost use Rattle.mintcx_warnings.specs.Warnings.{IsWarning};

use crate::said::Said;
use crate::writing::{Scene, owned, put_quoted, warning_text};
use mintc_text::{Bytes, Lines, OutOfMemory};
use mintcx_frame::put_number;
use std::alloc::Global;

/// Delays below 0 that are taken as 0: how many values, and how many numbers in them; the instances of the first and of
/// the least number, no byte where they aren't known; and the least as people read it.
#[derive(Clone, Copy)]
pub struct Clamped<'a> {
    pub delays: usize,
    pub numbers: usize,
    pub first: &'a [u8],
    pub least: &'a [u8],
    pub amount: &'a [u8],
}

/// What is done with so many numbers.
fn taken(numbers: usize) -> &'static [u8]
    ensures { result.now ≡ taken numbers }
{
    if numbers == 1 {
        b" number below 0 is taken as 0"
    } else {
        b" numbers below 0 are taken as 0"
    }
}

/// So many delays, before how many numbers they have.
fn delays_of(delays: usize) -> &'static [u8]
    ensures { result.now ≡ delays_of delays }
{
    if delays == 1 {
        b" delay of "
    } else {
        b" delays of "
    }
}

/// How many there are.
fn clamped_what(alloc: Global, delays: usize, numbers: usize) -> Result<Bytes, OutOfMemory>
    ensures { IfOk result (λ what. what ≡ clamped_what delays numbers) }
{
    let mut lines = Lines::new(alloc);
    put_number(&mut lines, delays as u64)?;
    lines.put(delays_of(delays))?;
    put_number(&mut lines, numbers as u64)?;
    lines.put(taken(numbers))?;
    Ok(Bytes::new(lines.into_bytes()))
}

/// Writes at which instance, where that is known.
fn put_at(lines: &mut Lines, instance: &[u8]) -> Result<(), OutOfMemory>
    ensures { OnOk result (lines.new ≡ lines.old ++ at_text instance.now) }
{
    if instance.is_empty() {
        return Ok(());
    }
    lines.put(b", at ")?;
    put_quoted(lines, instance)
}

/// What stands there.
fn clamped_label(alloc: Global, first: &[u8]) -> Result<Bytes, OutOfMemory>
    ensures { IfOk result (λ label. label ≡ clamped_label first.now) }
{
    let mut lines = Lines::new(alloc);
    lines.put(b" the first")?;
    put_at(&mut lines, first)?;
    Ok(Bytes::new(lines.into_bytes()))
}

/// How far they are from 0, and what follows of that.
fn clamped_why(alloc: Global, amount: &[u8], least: &[u8]) -> Result<Bytes, OutOfMemory>
    ensures { IfOk result (λ why. why ≡ clamped_why amount.now least.now) }
{
    let mut lines = Lines::new(alloc);
    lines.put(b"the least is ")?;
    lines.put(amount)?;
    put_at(&mut lines, least)?;
    lines.put(b"; a cycle found so is safe for setups, holds may be told too well")?;
    Ok(Bytes::new(lines.into_bytes()))
}

/// What helps.
fn clamped_help(alloc: Global) -> Result<Bytes, OutOfMemory>
    ensures { IfOk result (λ help. help ≡ clamped_help) }
{
    owned(
        alloc,
        b"buffer the nets (abc: buffer,-N,8) and write the delays anew",
    )
}

/// What is said of such delays.
fn clamped_said(alloc: Global, clamped: &Clamped<'_>) -> Result<Said, OutOfMemory>
    ensures { IfOk result (λ said. said ≡ clamped_said clamped.now.delays clamped.now.numbers clamped.now.first.now
        clamped.now.least.now clamped.now.amount.now) }
{
    let what = clamped_what(alloc, clamped.delays, clamped.numbers)?;
    let label = clamped_label(alloc, clamped.first)?;
    let why = clamped_why(alloc, clamped.amount, clamped.least)?;
    let help = clamped_help(alloc)?;
    Ok(Said {
        what,
        label,
        why,
        help,
    })
}

/// The warning of delays below 0 that are taken as 0, shown at the first of them.
pub fn clamped_text(
    alloc: Global,
    clamped: &Clamped<'_>,
    scene: &Scene<'_>,
) -> Result<Bytes, OutOfMemory>
    requires place { IfSome scene.now.place (λ range. range.from ≤ length scene.now.text.now) }
    ensures { IfOk result (IsWarning scene.now.name.now scene.now.text.now scene.now.place
        (clamped_said clamped.now.delays clamped.now.numbers clamped.now.first.now clamped.now.least.now
        clamped.now.amount.now)) }
{
    let said = clamped_said(alloc, clamped)?;
    warning_text(alloc, scene, &said)
}
