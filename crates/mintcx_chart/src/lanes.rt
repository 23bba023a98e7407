//! The rows of a chart.
ghost use Rattle.std.specs.Prelude.{◌≡◌, ◌<◌, ◌≤◌, ◌++◌, IsFalse, IsTrue, OnOk};
ghost use Rattle.mintc_timing.specs.Clocking.{start_of, width_of};
ghost use Rattle.mintc_timing.specs.Design.{element_count, phase_of};
ghost use Rattle.mintc_timing.specs.Limits.{IsInRange, IsNumerator};
ghost use Rattle.mintcx_chain.specs.Names.{IsStageDelay};
ghost use Rattle.mintcx_chart.specs.Stretches.{is_clock};
ghost use Rattle.mintcx_chart.specs.Words.{kind_on_phase, kind_word};

use crate::parts::Part;
use crate::told::{Told, number_at};
use mintc_text::{Items, Lines, Name, OutOfMemory};
use mintc_timing::{Flat, TimingArc};
use mintcx_chain::bit_name;
use mintcx_frame::phase_name;

/// What a row is of.
#[derive(Clone, Copy, Debug, PartialEq, Eq, Drop)]
pub enum Kind {
    /// A latch.
    Latch,
    /// A flop.
    Flop,
    /// A listed input.
    Input,
    /// A listed output.
    Output,
    /// A moment of the clock.
    Clock,
}

/// A row: what it is of, its name and what is noted of it; when the element's phase starts, how wide it is, and the
/// element's setup, in femtoseconds; what it borrows, when it is, and in which lap, counted from 0; the delay of its
/// data, in femtoseconds, when that ends, and its parts; and how high it stands, in pixels. Times are numerators over
/// the schedule's denominator.
#[derive(Drop)]
pub struct Lane {
    pub kind: Kind,
    pub name: Name,
    pub note: Name,
    pub start: i64,
    pub width: i64,
    pub setup: i64,
    pub borrowed: i64,
    pub at: i128,
    pub lap: i64,
    pub delay: i64,
    pub ends: i128,
    pub parts: Items<Part>,
    pub top: u32,
}

/// Whether a row is of a moment of the clock.
pub(crate) fn is_clock(kind: Kind) -> bool
    ensures { result ≡ is_clock kind }
{
    matches!(kind, Kind::Clock)
}

/// How high a row is, in pixels.
pub fn height_of(kind: Kind) -> u32
    ensures { result ≤ 58 }
{
    if kind == Kind::Clock { 36 } else { 58 }
}

/// Whether an arc leads from a bit to one of a name.
fn leads_to(flat: &Flat, arc: &TimingArc, bit: u64, name: &[u8]) -> bool {
    u64::from(arc.from) == bit && bit_name(flat, arc.to) == name
}

/// Whether an arc comes to a bit from one of a name.
fn comes_from(flat: &Flat, arc: &TimingArc, bit: u64, name: &[u8]) -> bool {
    u64::from(arc.to) == bit && bit_name(flat, arc.from) == name
}

/// Whether an element is a listed input: its data goes to a bit that is called as the element is.
fn is_input(flat: &Flat, number: u32) -> bool
    requires { number < element_count flat.now }
{
    let bit = 2 * u64::from(number) + 1;
    let name = flat.element(number).name.bytes();
    flat.arcs().iter().any(|arc| leads_to(flat, arc, bit, name))
}

/// Whether an element is a listed output: its data comes from such a bit.
fn is_output(flat: &Flat, number: u32) -> bool
    requires { number < element_count flat.now }
{
    let bit = 2 * u64::from(number);
    let name = flat.element(number).name.bytes();
    flat.arcs()
        .iter()
        .any(|arc| comes_from(flat, arc, bit, name))
}

/// What an element is. A table has no listed ports.
fn kind_of(told: &Told, number: u32) -> Kind
    requires { number < element_count told.now.flat.now }
    ensures { IsFalse (is_clock result) }
{
    if told.flat.element(number).flop {
        Kind::Flop
    } else if told.table {
        Kind::Latch
    } else if is_input(told.flat, number) {
        Kind::Input
    } else if is_output(told.flat, number) {
        Kind::Output
    } else {
        Kind::Latch
    }
}

/// The word of a kind.
fn kind_word(kind: Kind) -> &'static [u8]
    ensures { result.now ≡ kind_word kind }
{
    match kind {
        Kind::Latch => b"latch",
        Kind::Flop => b"flop",
        Kind::Input => b"input",
        Kind::Output => b"output",
        Kind::Clock => b"",
    }
}

/// Writes the kind of an element and its phase, as `latch on phi1`.
pub fn put_kind_on_phase(
    lines: &mut Lines,
    flat: &Flat,
    kind: Kind,
    number: u32,
) -> Result<(), OutOfMemory>
    requires { number < element_count flat.now }
    ensures { OnOk result (lines.new ≡ lines.old ++ kind_on_phase flat.now kind number) }
{
    let phase = flat.element(number).phase;
    lines.put(kind_word(kind))?;
    lines.put(b" on ")?;
    lines.put(phase_name(flat, phase))
}

/// What a row needs of the element that it begins at: its kind, when its phase starts and how wide that is, as
/// numerators over the schedule's denominator, and its setup in femtoseconds.
#[derive(Clone, Copy)]
pub struct Holder {
    pub kind: Kind,
    pub start: i64,
    pub width: i64,
    pub setup: i64,
}

/// What a row needs of an element.
pub fn element_holder(told: &Told, number: u32) -> Holder
    requires in_range { IsInRange told.now.schedule.now }
    requires element { number < element_count told.now.flat.now }
    ensures kind { IsFalse (is_clock result.kind) }
    ensures starts { result.start ≡ start_of told.now.schedule.now (phase_of told.now.flat.now number) }
    ensures widths { result.width ≡ width_of told.now.schedule.now (phase_of told.now.flat.now number) }
    ensures start { IsNumerator result.start }
    ensures width { IsNumerator result.width }
    ensures setup { IsStageDelay result.setup }
{
    let element = told.flat.element(number);
    let at = (element.phase as usize).saturating_sub(1);
    Holder {
        kind: kind_of(told, number),
        start: number_at(told.schedule.starts.items(), at),
        width: number_at(told.schedule.widths.items(), at),
        setup: element.setup,
    }
}

/// What a row needs that begins at a moment of the clock.
pub fn clock_holder() -> Holder
    ensures kind { IsTrue (is_clock result.kind) }
    ensures start { IsNumerator result.start }
    ensures width { IsNumerator result.width }
    ensures setup { IsStageDelay result.setup }
{
    Holder {
        kind: Kind::Clock,
        start: 0,
        width: 0,
        setup: 0,
    }
}
