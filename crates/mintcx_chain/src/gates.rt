//! The gates of a path, by the names of its bits.
ghost use Rattle.std.specs.Prelude.{◌≡◌, ◌<◌, ◌++◌, ◌∷◌, ◌==◌, if◌then◌else◌, [], None, Some, length, IfSome, IfOk};
ghost use Rattle.std.specs.Prelude.{OnOk, MatchOption};
ghost use Rattle.mintcx_chain.specs.Gates.{bit_name, gate_between, gate_of, gates_of, place_of_last};
ghost use Rattle.mintcx_chain.specs.Gates.{short_name};

use mintc_text::{Name, Names, OutOfMemory};
use mintc_timing::Flat;
use std::alloc::Global;

/// Where a byte stands last, after one byte more at a place.
fn later(byte: u8, other: u8, at: usize, last: Option<usize>) -> Option<usize>
    ensures { result ≡ (if other == byte then Some at else last) }
{
    if other == byte { Some(at) } else { last }
}

/// Where a byte stands last in a name.
#[tactic(auto, using(crate::proofs::GateLaws::place_more))]
pub(crate) fn place_of_last(byte: u8, name: &[u8]) -> Option<usize>
    ensures value { result ≡ place_of_last byte name.now }
    ensures inside { IfSome result (λ at. at < length name.now) }
{
    let mut last = None;
    for (at, other) in name.iter().enumerate() {
        last = later(byte, *other, at, last);
    }
    last
}

/// The part of a name behind its last point, or all of it.
pub fn short_name(name: &[u8]) -> &[u8]
    ensures { result.now ≡ short_name name.now }
{
    match place_of_last(b'.', name) {
        Some(at) => &name[at + 1..],
        None => name,
    }
}

/// The name of an inner bit, and an empty one of other bits.
pub fn bit_name(flat: &Flat, bit: u32) -> &[u8]
    ensures { result.now ≡ bit_name flat.now bit }
{
    let before = 2 * flat.elements().len();
    if (bit as usize) < before {
        return b"";
    }
    match flat.inner().items().get(bit as usize - before) {
        Some(name) => name.bytes(),
        None => b"",
    }
}

/// The gate that an arc between bits of these names is of, if it is of one.
fn gate_between<'a>(from: &[u8], to: &'a [u8]) -> Option<&'a [u8]>
    ensures { MatchOption result (gate_between from.now to.now ≡ None)
        (λ gate. gate_between from.now to.now ≡ Some gate.now) }
{
    if to.is_empty() {
        return None;
    }
    match (place_of_last(b'.', from), place_of_last(b'.', to)) {
        (None, None) => Some(to),
        (Some(end), Some(at)) if from[..end] == to[..at] => Some(&to[..at]),
        _ => None,
    }
}

/// The name of the gate that the arc of a number is of, if it is of one.
pub fn gate_of(flat: &Flat, number: u32) -> Option<&[u8]>
    ensures { MatchOption result (gate_of flat.now number ≡ None) (λ gate. gate_of flat.now number ≡ Some gate.now) }
{
    let arc = flat.arcs().get(number as usize)?;
    if arc.max <= 0 {
        return None;
    }
    gate_between(bit_name(flat, arc.from), bit_name(flat, arc.to))
}

/// Adds the gate that the arc of a number is of, if it is of one.
fn push_gate(
    gates: &mut Vec<Name>,
    alloc: Global,
    flat: &Flat,
    number: u32,
) -> Result<(), OutOfMemory>
    ensures { OnOk result (gates.new.items ≡ gates.old.items ++ gates_of flat.now (number ∷ [])) }
{
    let Some(gate) = gate_of(flat, number) else {
        return Ok(());
    };
    gates.push(Name::new(alloc, gate)?)?;
    Ok(())
}

/// The names of the gates along the arcs of a path.
#[tactic(auto, using(crate::proofs::GateLaws::gates_more))]
pub fn gates_of(alloc: Global, flat: &Flat, arcs: &[u32]) -> Result<Names, OutOfMemory>
    ensures { IfOk result (λ gates. gates ≡ gates_of flat.now arcs.now) }
{
    let mut gates = Vec::new(alloc);
    for number in arcs {
        push_gate(&mut gates, alloc, flat, *number)?;
    }
    Ok(Names::new(gates))
}
