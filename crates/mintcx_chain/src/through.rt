//! What a stage goes through, in words.
ghost use Rattle.std.specs.Prelude.{◌≡◌, ◌<◌, ◌++◌, length, All, OnOk};
ghost use Rattle.mintc_timing.specs.Design.{element_count};
ghost use Rattle.mintcx_chain.specs.Gates.{gates_of as gates_on, short_name};
ghost use Rattle.mintcx_chain.specs.Names.{elements_of};
ghost use Rattle.mintcx_chain.specs.Through.{few_text, gates_text, hold_text, many_text, next_text};
ghost use Rattle.mintcx_chain.specs.Through.{rule_text, rule_word, through_text};

use crate::gates::{gates_of, short_name};
use crate::stages::Why;
use mintc_text::{Lines, Name, OutOfMemory};
use mintc_timing::{Flat, LinkKind};
use mintcx_frame::put_number;
use std::alloc::Global;

/// Writes the short name of a gate, and before it a blank where it isn't the first.
fn put_next(lines: &mut Lines, at: usize, gate: &Name) -> Result<(), OutOfMemory>
    ensures { OnOk result (lines.new ≡ lines.old ++ next_text at (short_name gate.now)) }
{
    if at > 0 {
        lines.put(b" ")?;
    }
    lines.put(short_name(gate.bytes()))
}

/// Writes the short names of gates, with a blank between two.
#[tactic(auto, using(crate::proofs::ThroughLaws::names_more))]
fn put_names(lines: &mut Lines, gates: &[Name]) -> Result<(), OutOfMemory>
    ensures { OnOk result (lines.new ≡ lines.old ++ few_text gates.now) }
{
    for (at, gate) in gates.iter().enumerate() {
        put_next(lines, at, gate)?;
    }
    Ok(())
}

/// Writes the first three of many gates, the last one, and how many they are.
fn put_many_gates(lines: &mut Lines, gates: &[Name]) -> Result<(), OutOfMemory>
    requires { 5 < length gates.now }
    ensures { OnOk result (lines.new ≡ lines.old ++ many_text gates.now) }
{
    put_names(lines, &gates[..3])?;
    lines.put(b" .. ")?;
    lines.put(short_name(gates[gates.len() - 1].bytes()))?;
    lines.put(b" (")?;
    put_number(lines, gates.len() as u64)?;
    lines.put(b")")
}

/// Writes the short names of the gates of a path: all of them, or of more than five the first three, the last and how
/// many they are.
pub fn put_gates(lines: &mut Lines, gates: &[Name]) -> Result<(), OutOfMemory>
    ensures { OnOk result (lines.new ≡ lines.old ++ gates_text gates.now) }
{
    if gates.len() <= 5 {
        put_names(lines, gates)
    } else {
        put_many_gates(lines, gates)
    }
}

/// Writes the gates of a path.
fn put_path(lines: &mut Lines, alloc: Global, flat: &Flat, arcs: &[u32]) -> Result<(), OutOfMemory>
    ensures { OnOk result (lines.new ≡ lines.old ++ gates_text (gates_on flat.now arcs.now)) }
{
    let gates = gates_of(alloc, flat, arcs)?;
    put_gates(lines, gates.items())
}

/// The word of a rule of the clock, of a setup or of an opening.
fn rule_word(kind: LinkKind) -> &'static [u8]
    ensures { result.now ≡ rule_word kind }
{
    match kind {
        LinkKind::Start { .. } => b"(start)",
        LinkKind::Cycle { .. } => b"(cycle)",
        LinkKind::Order { .. } => b"(order)",
        LinkKind::Span { .. } => b"(span)",
        LinkKind::Width { .. } => b"(width)",
        LinkKind::Apart { .. } => b"(apart)",
        LinkKind::Opening { .. } => b"(open)",
        LinkKind::Opened { .. } => b"(opened)",
        LinkKind::Setup { .. } => b"(setup)",
        _ => b"",
    }
}

/// Writes the word of a rule, and of a bound its number, counted from 1.
fn put_rule(lines: &mut Lines, kind: LinkKind) -> Result<(), OutOfMemory>
    ensures { OnOk result (lines.new ≡ lines.old ++ rule_text kind) }
{
    let LinkKind::Bound { index } = kind else {
        return lines.put(rule_word(kind));
    };
    lines.put(b"(bound ")?;
    put_number(lines, u64::from(index) + 1)?;
    lines.put(b")")
}

/// Writes whose hold a stage keeps, and after whose data.
fn put_hold(lines: &mut Lines, flat: &Flat, from: u32, to: u32) -> Result<(), OutOfMemory>
    requires from { from < element_count flat.now }
    requires to { to < element_count flat.now }
    ensures { OnOk result (lines.new ≡ lines.old ++ hold_text flat.now from to) }
{
    lines.put(b"(hold of ")?;
    lines.put(flat.element(to).name.bytes())?;
    lines.put(b" after ")?;
    lines.put(flat.element(from).name.bytes())?;
    lines.put(b")")
}

/// Writes what a stage goes through: the gates of its path, or in parentheses the rule by which it is there.
pub fn put_through(
    lines: &mut Lines,
    alloc: Global,
    flat: &Flat,
    why: &Why,
) -> Result<(), OutOfMemory>
    requires { All (λ l. l < element_count flat.now) (elements_of why.now) }
    ensures { OnOk result (lines.new ≡ lines.old ++ through_text flat.now why.now) }
{
    match why {
        Why::Rule { kind } => put_rule(lines, *kind),
        Why::Reach { arcs, .. } => put_path(lines, alloc, flat, arcs.items()),
        Why::Hold { from, to, .. } => put_hold(lines, flat, *from, *to),
    }
}
