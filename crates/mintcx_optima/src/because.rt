//! Why a stage of a chain asks for time, in words.
ghost use Rattle.std.specs.Prelude.{◌≡◌, ◌<◌, ◌≤◌, ◌++◌, find, All, OnOk, MatchOption, None, Some};
ghost use Rattle.mintc_timing.specs.Design.{element_count};
ghost use Rattle.mintcx_chain.specs.Gates.{gates_of as gates_on};
ghost use Rattle.mintcx_chain.specs.Names.{elements_of};
ghost use Rattle.mintcx_optima.specs.Because.{after_text, because_text, bound_text, data_text, of_text, rule_text};
ghost use Rattle.mintcx_optima.specs.Because.{asking, asks, clock_word, width_text};

use mintc_text::{Lines, OutOfMemory};
use mintc_timing::{Element, Flat, LinkKind};
use mintcx_chain::{Stage, Why, gates_of, put_gates};
use mintcx_frame::put_number;
use std::alloc::Global;

/// Whether an element is on a phase and asks for this width.
fn asks(element: &Element, phase: u32, width: i64) -> bool
    ensures { result ≡ asks phase width element.now }
{
    element.phase == phase && element.width == width
}

/// The first of some elements on a phase that asks for this width.
fn first_asking(elements: &[Element], phase: u32, width: i64) -> Option<&Element>
    ensures { MatchOption result (find (asks phase width) elements.now ≡ None)
        (λ element. find (asks phase width) elements.now ≡ Some element.now) }
{
    for element in elements {
        if asks(element, phase, width) {
            return Some(element);
        }
    }
    None
}

/// The name of the first element on a phase that asks for this width. None where none does, or where it is 0.
fn asking(flat: &Flat, phase: u32, width: i64) -> Option<&[u8]>
    ensures { MatchOption result (asking flat.now phase width ≡ None)
        (λ name. asking flat.now phase width ≡ Some name.now) }
{
    if width <= 0 {
        return None;
    }
    match first_asking(flat.elements(), phase, width) {
        Some(element) => Some(element.name.bytes()),
        None => None,
    }
}

/// Writes whose width a phase has at least.
fn put_width(lines: &mut Lines, flat: &Flat, phase: u32, width: i64) -> Result<(), OutOfMemory>
    ensures { OnOk result (lines.new ≡ lines.old ++ width_text (asking flat.now phase width)) }
{
    match asking(flat, phase, width) {
        Some(name) => {
            lines.put(b"least pulse width of ")?;
            lines.put(name)
        }
        None => lines.put(b"no phase ends before it starts"),
    }
}

/// What a rule of the clock asks.
fn clock_word(kind: LinkKind) -> &'static [u8]
    ensures { result.now ≡ clock_word kind }
{
    match kind {
        LinkKind::Start { .. } => b"no phase starts before time 0",
        LinkKind::Cycle { .. } => b"each phase starts within the cycle",
        LinkKind::Order { .. } => b"phases start in their order",
        LinkKind::Span { .. } => b"no phase is wider than the cycle",
        LinkKind::Apart { .. } => b"the second feeds the first",
        _ => b"",
    }
}

/// Writes what of an element asks for time.
fn put_of(lines: &mut Lines, flat: &Flat, word: &[u8], element: u32) -> Result<(), OutOfMemory>
    requires { element < element_count flat.now }
    ensures { OnOk result (lines.new ≡ lines.old ++ of_text flat.now word.now element) }
{
    lines.put(word)?;
    lines.put(b" of ")?;
    lines.put(flat.element(element).name.bytes())
}

/// Writes a bound by its number, counted from 1.
fn put_bound(lines: &mut Lines, index: u32) -> Result<(), OutOfMemory>
    ensures { OnOk result (lines.new ≡ lines.old ++ bound_text index) }
{
    lines.put(b"bound ")?;
    put_number(lines, u64::from(index) + 1)
}

/// Writes why a rule asks for so much time.
fn put_rule(lines: &mut Lines, flat: &Flat, kind: LinkKind, delay: i64) -> Result<(), OutOfMemory>
    requires { All (λ l. l < element_count flat.now) (elements_of (Why.Rule kind)) }
    ensures { OnOk result (lines.new ≡ lines.old ++ rule_text flat.now kind delay) }
{
    match kind {
        LinkKind::Width { phase } => put_width(lines, flat, phase, delay),
        LinkKind::Opening { element } => put_of(lines, flat, b"opening", element),
        LinkKind::Opened { element } => put_of(lines, flat, b"setup", element),
        LinkKind::Setup { element } => put_of(lines, flat, b"setup", element),
        LinkKind::Bound { index } => put_bound(lines, index),
        _ => lines.put(clock_word(kind)),
    }
}

/// Writes the gates through which data goes.
fn put_data(lines: &mut Lines, alloc: Global, flat: &Flat, arcs: &[u32]) -> Result<(), OutOfMemory>
    ensures { OnOk result (lines.new ≡ lines.old ++ data_text (gates_on flat.now arcs.now)) }
{
    let gates = gates_of(alloc, flat, arcs)?;
    lines.put(b"data")?;
    if gates.items().is_empty() {
        return Ok(());
    }
    lines.put(b" through ")?;
    put_gates(lines, gates.items())
}

/// Writes whose hold is kept after whose data.
fn put_after(lines: &mut Lines, flat: &Flat, from: u32, to: u32) -> Result<(), OutOfMemory>
    requires from { from < element_count flat.now }
    requires to { to < element_count flat.now }
    ensures { OnOk result (lines.new ≡ lines.old ++ after_text flat.now from to) }
{
    put_of(lines, flat, b"hold", to)?;
    lines.put(b" after ")?;
    lines.put(flat.element(from).name.bytes())
}

/// Writes why a stage asks for time.
pub fn put_because(
    lines: &mut Lines,
    alloc: Global,
    flat: &Flat,
    stage: &Stage,
) -> Result<(), OutOfMemory>
    requires { All (λ l. l < element_count flat.now) (elements_of stage.now.why) }
    ensures { OnOk result (lines.new ≡ lines.old ++ because_text flat.now stage.now) }
{
    match &stage.why {
        Why::Rule { kind } => put_rule(lines, flat, *kind, stage.delay),
        Why::Reach { arcs, .. } => put_data(lines, alloc, flat, arcs.items()),
        Why::Hold { from, to, .. } => put_after(lines, flat, *from, *to),
    }
}
