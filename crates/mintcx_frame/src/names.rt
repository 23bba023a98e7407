//! What moments and elements are called.
ghost use Rattle.std.specs.Prelude.{◌≡◌, ◌<◌, ◌≤◌, ◌*◌, ◌++◌, IfOk, OnOk};
ghost use Rattle.mintc_timing.specs.Design.{element_count, phase_count};
ghost use Rattle.mintc_timing.specs.Limits.{IsPhase};
ghost use Rattle.mintc_timing.specs.Links.{node_count};
ghost use Rattle.mintcx_frame.specs.Names.{element_name, kind_on_phase, kind_word, node_name, phase_name};

use crate::cells::cell_of;
use mintc_text::{Lines, Name, OutOfMemory};
use mintc_timing::Flat;
use std::alloc::Global;

/// The name of a phase, which is counted from 1.
pub fn phase_name(flat: &Flat, phase: u32) -> &[u8]
    requires { IsPhase (phase_count flat.now) phase }
    ensures { result.now ≡ phase_name flat.now phase }
{
    flat.phases().items()[phase as usize - 1].bytes()
}

/// The name of an element.
pub fn element_name(flat: &Flat, element: u32) -> &[u8]
    requires { element < element_count flat.now }
    ensures { result.now ≡ element_name flat.now element }
{
    flat.element(element).name.bytes()
}

/// Writes what the start or the end of a phase is called, by its node.
fn put_edge(lines: &mut Lines, flat: &Flat, node: u32) -> Result<(), OutOfMemory>
    requires first { 1 ≤ node }
    requires last { node ≤ 2 * phase_count flat.now }
    ensures { OnOk result (lines.new ≡ lines.old ++ node_name flat.now node) }
{
    if node % 2 == 1 {
        lines.put(phase_name(flat, node / 2 + 1))?;
        lines.put(b" starts")
    } else {
        lines.put(phase_name(flat, node / 2))?;
        lines.put(b" ends")
    }
}

/// Writes what the moment of a node is called: `time 0`, `p1 starts`, `p1 ends`, or the element's name.
#[tactic(auto, using(crate::proofs::NodeLaws::moments))]
pub fn put_node(lines: &mut Lines, flat: &Flat, node: u32) -> Result<(), OutOfMemory>
    requires { node < node_count flat.now }
    ensures { OnOk result (lines.new ≡ lines.old ++ node_name flat.now node) }
{
    let edges = 2 * flat.phase_count();
    if node == 0 {
        lines.put(b"time 0")
    } else if node > edges {
        lines.put(element_name(flat, node - edges - 1))
    } else {
        put_edge(lines, flat, node)
    }
}

/// What the moment of a node is called.
pub fn node_name(alloc: Global, flat: &Flat, node: u32) -> Result<Name, OutOfMemory>
    requires { node < node_count flat.now }
    ensures { IfOk result (λ name. name ≡ node_name flat.now node) }
{
    let mut lines = Lines::new(alloc);
    put_node(&mut lines, flat, node)?;
    cell_of(alloc, lines)
}

/// The word of an element's kind.
fn kind_word(flop: bool) -> &'static [u8]
    ensures { result.now ≡ kind_word flop }
{
    if flop { b"flop" } else { b"latch" }
}

/// Writes the kind of an element and its phase, as `latch on phi1`.
pub fn put_kind_on_phase(lines: &mut Lines, flat: &Flat, element: u32) -> Result<(), OutOfMemory>
    requires { element < element_count flat.now }
    ensures { OnOk result (lines.new ≡ lines.old ++ kind_on_phase flat.now element) }
{
    let found = flat.element(element);
    lines.put(kind_word(found.flop))?;
    lines.put(b" on ")?;
    lines.put(phase_name(flat, found.phase))
}

/// The kind of an element and its phase, as `latch on phi1`.
pub fn kind_on_phase(alloc: Global, flat: &Flat, element: u32) -> Result<Name, OutOfMemory>
    requires { element < element_count flat.now }
    ensures { IfOk result (λ name. name ≡ kind_on_phase flat.now element) }
{
    let mut lines = Lines::new(alloc);
    put_kind_on_phase(&mut lines, flat, element)?;
    cell_of(alloc, lines)
}
