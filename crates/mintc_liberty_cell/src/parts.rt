//! The pins of a cell and the group that keeps its state.
ghost use Rattle.std.specs.Prelude.{◌≡◌, ◌<◌, ◌-◌, ◌∷◌, [], List, None, true, IfOk, IfSome, IfNone, MatchBool, codes};
ghost use Rattle.mintc_liberty_tokens.specs.Statements.{front};
ghost use Rattle.mintc_liberty_cell.specs.Expressions.{is_among};
ghost use Rattle.mintc_liberty_cell.specs.Seen.{group_seen, pins_seen};
ghost use Rattle.mintc_liberty_cell.specs.Held.{held, cell_with, cell_held};
ghost use Rattle.mintc_liberty_cell.specs.Meaning.{Group as GroupSaid, cell_of, kept, are_pins, keeping};

use crate::groups::{Group, next_group};
use crate::pins::{Pin, add_pins};
use mintc_liberty_tokens::Reader;
use mintc_text::OutOfMemory;
use std::alloc::Global;

/// What is read of a cell: its pins, and the group that keeps its state, if it has one.
#[derive(Drop)]
pub(crate) struct Parts<'a> {
    pub pins: Vec<Pin<'a>>,
    pub keeper: Option<Group<'a>>,
}

/// Whether a group of this name has pins of several bits.
fn is_wide(name: &[u8]) -> bool
    ensures { result ≡ is_among (codes "bus" ∷ codes "bundle" ∷ []) name.now }
{
    name == b"bus".as_slice() || name == b"bundle".as_slice()
}

/// Whether a group of this name keeps a state.
fn is_keeping(name: &[u8]) -> bool
    ensures { result ≡ is_among keeping name.now }
{
    name == b"latch".as_slice()
        || name == b"ff".as_slice()
        || name == b"statetable".as_slice()
        || name == b"latch_bank".as_slice()
        || name == b"ff_bank".as_slice()
}

/// Adds a group of the cell, unless a cell that has it is passed over.
fn add<'a>(parts: &mut Parts<'a>, group: Group<'a>, room: u32) -> Result<bool, OutOfMemory>
    requires { are_pins (pins_seen parts.old.pins.items) ≡ true }
    ensures same { IfOk result (λ b. MatchBool b
        ((gs : List GroupSaid) → cell_with (held room parts.old) (group_seen room group.entry ∷ gs)
        ≡ cell_with (held room parts.new) gs)
        ((gs : List GroupSaid) → cell_with (held room parts.old) (group_seen room group.entry ∷ gs) ≡ None)) }
    ensures pins { IfOk result (λ b. b ≡ true → are_pins (pins_seen parts.new.pins.items) ≡ true) }
{
    if is_wide(group.name) {
        return Ok(false);
    }
    if !add_pins(&mut parts.pins, &group, room)? {
        return Ok(false);
    }
    if !is_keeping(group.name) {
        return Ok(true);
    }
    if parts.keeper.is_some() {
        return Ok(false);
    }
    parts.keeper = Some(group);
    Ok(true)
}

/// The parts of a cell, None where it is passed over.
pub(crate) fn parts_of<'a>(
    alloc: Global,
    inside: &Reader<'a>,
    room: u32,
) -> Result<Option<Parts<'a>>, OutOfMemory>
    requires { 0 < room }
    ensures none { IfOk result (λ o. IfNone o (cell_of (front room inside.now).statements ≡ None)) }
    ensures some { IfOk result
        (λ o. IfSome o (λ p. cell_of (front room inside.now).statements ≡ kept (cell_held (held (room - 1) p)))) }
    ensures pins { IfOk result (λ o. IfSome o (λ p. are_pins (pins_seen p.pins.items) ≡ true)) }
{
    let mut reader = inside.copy();
    let mut parts = Parts {
        pins: Vec::new(alloc),
        keeper: None,
    };
    while let Some(group) = next_group(&mut reader, room) {
        if !add(&mut parts, group, room - 1)? {
            return Ok(None);
        }
    }
    Ok(Some(parts))
}
