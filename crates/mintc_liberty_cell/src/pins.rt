//! The pins of a cell.
ghost use Rattle.std.specs.Prelude.{◌≡◌, ◌++◌, ◌∷◌, [], Some, None, true, false, IfOk, IfSome, IfNone, MatchBool, ◌&&◌};
ghost use Rattle.std.specs.Prelude.{◌||◌, not, nat_lt, length, codes, bytes_eq, option_map};
ghost use Rattle.mintc_toml.specs.Rules.{is_name};
ghost use Rattle.mintc_liberty_cell.specs.declared.pins.Role.TheVariants as role;
ghost use Rattle.mintc_liberty_tokens.specs.Tokens.{is_item, names_in};
ghost use Rattle.mintc_liberty_tokens.specs.Statements.{front, taken};
ghost use Rattle.mintc_liberty_cell.specs.Expressions.{is_among};
ghost use Rattle.mintc_liberty_cell.specs.Passing.{value_bytes};
ghost use Rattle.mintc_liberty_cell.specs.Seen.{pin_seen, pins_seen, group_seen};
ghost use Rattle.mintc_liberty_cell.specs.Meaning.{pin_with, says, is_as, role_of, names, inputs, others, with_role};
ghost use Rattle.mintc_liberty_cell.specs.Meaning.{only, are_pins, pins_of};

use crate::groups::{Group, next_name};
use crate::values::{last_value, says};
use mintc_liberty_tokens::Reader;
use mintc_text::{Name, Names, OutOfMemory};
use mintc_toml::is_name;
use std::alloc::Global;

/// What a pin is for its cell; a clock is an input too.
#[derive(Clone, Copy, PartialEq, Eq)]
pub(crate) enum Role {
    Input,
    Clock,
    Output,
}

/// A pin: its name, its role, and what begins with the value of its function.
#[derive(Drop)]
pub(crate) struct Pin<'a> {
    pub name: &'a [u8],
    pub role: Role,
    pub function: Option<Reader<'a>>,
}

/// Whether a pin of one role is one of another.
pub(crate) fn is_as(wanted: Role, role: Role) -> bool
    ensures { result ≡ is_as wanted role }
{
    match (wanted, role) {
        (Role::Input, Role::Input) => true,
        (Role::Input, Role::Clock) => true,
        (Role::Clock, Role::Clock) => true,
        (Role::Output, Role::Output) => true,
        _ => false,
    }
}

/// The role that a pin's group gives it.
fn role_of(inside: &Reader, room: u32) -> Option<Role>
    ensures { result ≡ role_of (front room inside.now).statements }
{
    if says(inside, b"direction", b"input", room) {
        if says(inside, b"clock", b"true", room) {
            Some(Role::Clock)
        } else {
            Some(Role::Input)
        }
    } else if says(inside, b"direction", b"output", room) {
        Some(Role::Output)
    } else {
        None
    }
}

/// Whether a pin of this name is there.
fn is_there(pins: &[Pin], name: &[u8]) -> bool
    ensures { result ≡ is_among (names (pins_seen pins.now)) name.now }
{
    for pin in pins {
        if name == pin.name {
            return true;
        }
    }
    false
}

/// Whether a pin of this name may come with these.
fn may_come(pins: &[Pin], name: &[u8]) -> bool
    ensures { result ≡ ((nat_lt (length pins.now) 80 && is_name name.now)
        && not (is_among (names (pins_seen pins.now)) name.now)) }
{
    (pins.len() < 80 && is_name(name)) && !is_there(pins, name)
}

/// Whether a pin is an input of this name.
pub(crate) fn is_input(pin: &Pin, name: &[u8]) -> bool
    ensures { result ≡ (is_as role.Input pin.now.role && bytes_eq name.now pin.now.name.now) }
{
    is_as(Role::Input, pin.role) && name == pin.name
}

/// Whether a pin is an input of neither name.
fn is_other(pin: &Pin, one: &[u8], two: &[u8]) -> bool
    ensures { result ≡ (is_as role.Input pin.now.role
        && not (bytes_eq pin.now.name.now one.now || bytes_eq pin.now.name.now two.now)) }
{
    is_as(Role::Input, pin.role) && !(pin.name == one || pin.name == two)
}

/// Whether a group is one of pins that aren't inside the cell.
fn has_pins(group: &Group, room: u32) -> bool
    ensures { result ≡ (bytes_eq group.now.name.now (codes "pin")
        && not (says (codes "direction") (codes "internal") (front room group.now.inside).statements)) }
{
    group.name == b"pin".as_slice() && !says(&group.inside, b"direction", b"internal", room)
}

/// The same value once more.
fn value_of<'a>(value: &Option<Reader<'a>>) -> Option<Reader<'a>>
    ensures { result ≡ value.now }
{
    match value {
        Some(value) => Some(value.copy()),
        None => None,
    }
}

/// Adds a pin, unless a cell that has it is passed over.
fn add_pin<'a>(
    pins: &mut Vec<Pin<'a>>,
    name: &'a [u8],
    role: Option<Role>,
    function: &Option<Reader<'a>>,
) -> Result<bool, OutOfMemory>
    requires { are_pins (pins_seen pins.old.items) ≡ true }
    ensures { let added = pins_seen pins.old.items ++ pin_with role (option_map value_bytes function.now) name.now ∷ []
        in IfOk result (λ b. MatchBool b ((pins_seen pins.new.items ≡ added)
        × (are_pins added ≡ true)) (are_pins added ≡ false)) }
{
    let Some(role) = role else {
        return Ok(false);
    };
    if !may_come(pins, name) {
        return Ok(false);
    }
    pins.push(Pin {
        name,
        role,
        function: value_of(function),
    })?;
    Ok(true)
}

/// Adds the pins of a group, unless a cell that has them is passed over.
pub(crate) fn add_pins<'a>(
    pins: &mut Vec<Pin<'a>>,
    group: &Group<'a>,
    room: u32,
) -> Result<bool, OutOfMemory>
    requires { are_pins (pins_seen pins.old.items) ≡ true }
    ensures { let added = pins_seen pins.old.items ++ pins_of (group_seen room group.now)
        in IfOk result (λ b. MatchBool b ((pins_seen pins.new.items ≡ added)
        × (are_pins added ≡ true)) (are_pins added ≡ false)) }
{
    if !has_pins(group, room) {
        return Ok(true);
    }
    let role = role_of(&group.inside, room);
    let function = last_value(&group.inside, b"function", room);
    let mut items = group.items.copy();
    while let Some(name) = next_name(&mut items) {
        if !add_pin(pins, name, role, &function)? {
            return Ok(false);
        }
    }
    Ok(true)
}

/// The names of the pins of a role.
pub(crate) fn names(alloc: Global, pins: &[Pin], role: Role) -> Result<Names, OutOfMemory>
    ensures { IfOk result (λ ns. ns ≡ names (with_role role (pins_seen pins.now))) }
{
    let mut found = Vec::new(alloc);
    for pin in pins {
        if is_as(role, pin.role) {
            found.push(Name::new(alloc, pin.name)?)?;
        }
    }
    Ok(Names::new(found))
}

/// The names of the inputs that are none of two.
pub(crate) fn others(
    alloc: Global,
    pins: &[Pin],
    one: &[u8],
    two: &[u8],
) -> Result<Names, OutOfMemory>
    ensures { IfOk result (λ ns. ns ≡ others one.now two.now (inputs (pins_seen pins.now))) }
{
    let mut found = Vec::new(alloc);
    for pin in pins {
        if is_other(pin, one, two) {
            found.push(Name::new(alloc, pin.name)?)?;
        }
    }
    Ok(Names::new(found))
}

/// The only pin of a role.
pub(crate) fn only<'p, 'a>(pins: &'p [Pin<'a>], role: Role) -> Option<&'p Pin<'a>>
    ensures none { IfNone result (only (with_role role (pins_seen pins.now)) ≡ None) }
    ensures some { IfSome result (λ p. only (with_role role (pins_seen pins.now)) ≡ Some (pin_seen p.now)) }
{
    let mut found = None;
    for pin in pins {
        if is_as(role, pin.role) {
            if found.is_some() {
                return None;
            }
            found = Some(pin);
        }
    }
    found
}
