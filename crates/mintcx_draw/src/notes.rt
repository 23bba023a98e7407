//! What is noted of the rows of a chain.
ghost use Rattle.std.specs.Prelude.{◌≡◌, ◌<◌, ◌++◌, IfOk, OnOk, All};
ghost use Rattle.mintc_timing.specs.Design.{element_count};
ghost use Rattle.mintc_timing.specs.Limits.{IsInRange};
ghost use Rattle.mintc_timing.specs.Links.{node_count};
ghost use Rattle.mintcx_chain.specs.Names.{elements_of, IsStage};
ghost use Rattle.mintcx_draw.specs.Notes.{again_text, bound_text, held_text, lent_text, not_before, note_text};
ghost use Rattle.mintcx_draw.specs.Notes.{opens_text, rule_text, rule_word};

use mintc_text::{Lines, Name, OutOfMemory};
use mintc_timing::{Flat, LinkKind};
use mintcx_chain::{Stage, Why};
use mintcx_chart::{Kind, Told, name_of, phase_at, put_kind_on_phase, put_moment};
use mintcx_frame::{put_node, put_number};
use mintcx_optima::put_counted;
use std::alloc::Global;

/// Writes what an element borrows, where it does.
fn put_lent(lines: &mut Lines, told: &Told, borrows: i64) -> Result<(), OutOfMemory>
    requires { IsInRange told.now.schedule.now }
    ensures { OnOk result (lines.new ≡ lines.old ++ lent_text told.now.schedule.now told.now.unit borrows) }
{
    if borrows <= 0 {
        return Ok(());
    }
    lines.put(b", borrows ")?;
    put_moment(lines, told.unit, told.schedule.den, i128::from(borrows))
}

/// Writes an element's kind and phase, and what it borrows.
fn put_held(
    lines: &mut Lines,
    told: &Told,
    kind: Kind,
    element: u32,
    borrows: i64,
) -> Result<(), OutOfMemory>
    requires in_range { IsInRange told.now.schedule.now }
    requires element { element < element_count told.now.flat.now }
    ensures { OnOk result (lines.new ≡ lines.old
        ++ held_text told.now.flat.now told.now.schedule.now told.now.unit kind element borrows) }
{
    put_kind_on_phase(lines, told.flat, kind, element)?;
    put_lent(lines, told, borrows)
}

/// Writes that a phase isn't before another.
fn put_not_before(lines: &mut Lines, phase: &[u8]) -> Result<(), OutOfMemory>
    ensures { OnOk result (lines.new ≡ lines.old ++ not_before phase.now) }
{
    lines.put(phase)?;
    lines.put(b" not before it")
}

/// Writes a bound by its number, counted from 1, and to where it leads.
fn put_bound(lines: &mut Lines, flat: &Flat, index: u32, to: u32) -> Result<(), OutOfMemory>
    requires { to < node_count flat.now }
    ensures { OnOk result (lines.new ≡ lines.old ++ bound_text flat.now index to) }
{
    lines.put(b"bound ")?;
    put_number(lines, u64::from(index) + 1)?;
    lines.put(b", to ")?;
    put_node(lines, flat, to)
}

/// Writes which element opens.
fn put_opens(lines: &mut Lines, flat: &Flat, element: u32) -> Result<(), OutOfMemory>
    requires { element < element_count flat.now }
    ensures { OnOk result (lines.new ≡ lines.old ++ opens_text flat.now element) }
{
    lines.put(b"opens ")?;
    lines.put(flat.element(element).name.bytes())
}

/// What a rule of the clock asks for in words of its own.
fn rule_word(kind: LinkKind) -> &'static [u8]
    ensures { result.now ≡ rule_word kind }
{
    match kind {
        LinkKind::Start { .. } => b"no phase starts sooner",
        LinkKind::Cycle { .. } => b"within the cycle",
        LinkKind::Span { .. } => b"no longer than a cycle",
        LinkKind::Width { .. } => b"least width",
        _ => b"",
    }
}

/// Writes what a rule of the clock asks for.
fn put_rule(lines: &mut Lines, flat: &Flat, kind: LinkKind, to: u32) -> Result<(), OutOfMemory>
    requires elements { All (λ l. l < element_count flat.now) (elements_of (Why.Rule kind)) }
    requires to { to < node_count flat.now }
    ensures { OnOk result (lines.new ≡ lines.old ++ rule_text flat.now kind to) }
{
    match kind {
        LinkKind::Order { phase } => put_not_before(lines, phase_at(flat, phase as usize)),
        LinkKind::Apart { i, .. } => {
            put_not_before(lines, phase_at(flat, (i as usize).saturating_sub(1)))
        }
        LinkKind::Bound { index } => put_bound(lines, flat, index, to),
        LinkKind::Opening { element } => put_opens(lines, flat, element),
        LinkKind::Opened { element } => put_opens(lines, flat, element),
        _ => lines.put(rule_word(kind)),
    }
}

/// Writes what is noted of a stage.
fn put_note(
    lines: &mut Lines,
    told: &Told,
    stage: &Stage,
    kind: Kind,
    borrows: i64,
) -> Result<(), OutOfMemory>
    requires in_range { IsInRange told.now.schedule.now }
    requires stage { IsStage told.now.flat.now stage.now }
    ensures { OnOk result (lines.new ≡ lines.old
        ++ note_text told.now.flat.now told.now.schedule.now told.now.unit kind stage.now stage.now.why borrows) }
{
    match &stage.why {
        Why::Reach { from, .. } => put_held(lines, told, kind, *from, borrows),
        Why::Rule {
            kind: LinkKind::Setup { element },
        } => put_held(lines, told, kind, *element, borrows),
        Why::Rule { kind: asked } => put_rule(lines, told.flat, *asked, stage.to),
        Why::Hold { .. } => Ok(()),
    }
}

/// What is noted of a stage: of an element its kind, its phase and what it borrows, else what the rule asks for.
pub(crate) fn note_of(
    alloc: Global,
    told: &Told,
    stage: &Stage,
    kind: Kind,
    borrows: i64,
) -> Result<Name, OutOfMemory>
    requires in_range { IsInRange told.now.schedule.now }
    requires stage { IsStage told.now.flat.now stage.now }
    ensures { IfOk result (λ name. name
        ≡ note_text told.now.flat.now told.now.schedule.now told.now.unit kind stage.now stage.now.why borrows) }
{
    let mut lines = Lines::new(alloc);
    put_note(&mut lines, told, stage, kind, borrows)?;
    name_of(alloc, lines)
}

/// Writes what is noted of the first stage again, so many cycles on.
fn put_again(lines: &mut Lines, cycles: u64) -> Result<(), OutOfMemory>
    ensures { OnOk result (lines.new ≡ lines.old ++ again_text cycles) }
{
    lines.put(b"again, ")?;
    put_counted(lines, cycles, b"cycle")?;
    lines.put(b" on")
}

/// What is noted of the first stage again, so many cycles on.
pub(crate) fn again_note(alloc: Global, cycles: u64) -> Result<Name, OutOfMemory>
    ensures { IfOk result (λ name. name ≡ again_text cycles) }
{
    let mut lines = Lines::new(alloc);
    put_again(&mut lines, cycles)?;
    name_of(alloc, lines)
}
