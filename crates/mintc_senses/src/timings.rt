//! What groups `timing` of an output say of an input.
ghost use Rattle.std.specs.Prelude.{◌≡◌, ◌-◌, ◌<◌, ◌∷◌, List, codes, Some, None, IfOk, option_map};
ghost use Rattle.mintc_liberty_tokens.specs.Statements.{front};
ghost use Rattle.mintc_liberty_cell.specs.Passing.{value_bytes};
ghost use Rattle.mintc_liberty_cell.specs.Meaning.{Group as GroupSaid, groups, last_value};
ghost use Rattle.mintc_liberty_cell.specs.Seen.{group_seen};
ghost use Rattle.mintc_senses_expressions.specs.Transitions.{together, other_edges};
ghost use Rattle.mintc_senses.specs.Senses.{unate, to_rise, to_fall, by_type, timing_transitions, names_input};
ghost use Rattle.mintc_senses.specs.Senses.{is_timing_of, by_timing};

use crate::values::value_of;
use crate::words::{Cut, has_word};
use mintc_liberty_cell::{Group, is_text, last_value, next_group};
use mintc_liberty_tokens::Reader;
use mintc_senses_expressions::Transitions;
use mintc_text::OutOfMemory;
use std::alloc::Global;

/// What a `timing_sense` says.
fn unate(said: &Option<Reader>) -> Transitions
    ensures { result ≡ unate (option_map value_bytes said.now) }
{
    let Some(said) = said else {
        return Transitions::all();
    };
    if is_text(said, b"positive_unate") {
        Transitions::same()
    } else if is_text(said, b"negative_unate") {
        Transitions::same().turned()
    } else {
        Transitions::all()
    }
}

/// Those that end in a rise.
fn to_rise(transitions: Transitions) -> Transitions
    ensures { result ≡ to_rise transitions }
{
    Transitions {
        rise_to_rise: transitions.rise_to_rise,
        rise_to_fall: false,
        fall_to_rise: transitions.fall_to_rise,
        fall_to_fall: false,
    }
}

/// Those that end in a fall.
fn to_fall(transitions: Transitions) -> Transitions
    ensures { result ≡ to_fall transitions }
{
    Transitions {
        rise_to_rise: false,
        rise_to_fall: transitions.rise_to_fall,
        fall_to_rise: false,
        fall_to_fall: transitions.fall_to_fall,
    }
}

/// What a `timing_type` leaves of transitions, or all where it is none of the combinational ones.
fn by_type(said: &Option<Reader>, transitions: Transitions) -> Transitions
    ensures { result ≡ by_type (option_map value_bytes said.now) transitions }
{
    let Some(said) = said else {
        return transitions;
    };
    if is_text(said, b"combinational") {
        transitions
    } else if is_text(said, b"combinational_rise") {
        to_rise(transitions)
    } else if is_text(said, b"combinational_fall") {
        to_fall(transitions)
    } else {
        Transitions::all()
    }
}

/// The transitions of a group `timing`.
fn timing_transitions(inside: &Reader, room: u32) -> Transitions
    ensures { result ≡ timing_transitions (front room inside.now).statements }
{
    let sense = last_value(inside, b"timing_sense", room);
    let kind = last_value(inside, b"timing_type", room);
    by_type(&kind, unate(&sense))
}

/// Whether a group is one `timing` that names an input.
fn is_timing_of(alloc: Global, group: &Group, input: &[u8], room: u32) -> Result<bool, OutOfMemory>
    ensures { IfOk result (λ b. b ≡ is_timing_of input.now (group_seen room group.now)) }
{
    if group.name != b"timing".as_slice() {
        return Ok(false);
    }
    match value_of(alloc, &group.inside, b"related_pin", room)? {
        Some(said) => Ok(has_word(&said, Cut::White, input, true)),
        None => Ok(false),
    }
}

/// Transitions, with those of a group where it is one `timing` that names an input.
fn with_timing(
    alloc: Global,
    found: Transitions,
    group: &Group,
    input: &[u8],
    room: u32,
) -> Result<Transitions, OutOfMemory>
    ensures { IfOk result (λ t. (gs : List GroupSaid) → together t (by_timing input.now gs)
        ≡ together found (by_timing input.now (group_seen room group.now ∷ gs))) }
{
    if is_timing_of(alloc, group, input, room)? {
        Ok(found.with(timing_transitions(&group.inside, room)))
    } else {
        Ok(found)
    }
}

/// The transitions of an input by the groups `timing` that name it, put together.
pub(crate) fn by_timing(
    alloc: Global,
    inside: &Reader,
    input: &[u8],
    room: u32,
) -> Result<Transitions, OutOfMemory>
    requires { 0 < room }
    ensures { IfOk result (λ t. t ≡ by_timing input.now (groups (front room inside.now).statements)) }
{
    let mut reader = inside.copy();
    let mut found = Transitions::none();
    while let Some(group) = next_group(&mut reader, room) {
        found = with_timing(alloc, found, &group, input, room - 1)?;
    }
    Ok(found)
}
