//! The groups directly in a group, one by one.
ghost use Rattle.std.specs.Prelude.{◌≡◌, ◌<◌, ◌-◌, ◌∷◌, [], length, Some, None, IfSome, IfNone, OnSome, MatchOption};
ghost use Rattle.mintc_liberty_tokens.specs.Tokens.{is_item, names_in};
ghost use Rattle.mintc_liberty_tokens.specs.Statements.{front, taken};
ghost use Rattle.mintc_liberty_cell.specs.Meaning.{groups, only_name};
ghost use Rattle.mintc_liberty_cell.specs.Passing.{group_at, body_at};
ghost use Rattle.mintc_liberty_cell.specs.Seen.{group_seen};

use mintc_liberty_tokens::{Kind, Reader, eat_sign, item, items, statement};

/// A group: its name, what begins with its items, and what begins with the statements inside.
#[derive(Drop)]
pub struct Group<'a> {
    pub name: &'a [u8],
    pub items: Reader<'a>,
    pub inside: Reader<'a>,
}

/// Behind the items that come next, what begins with the statements inside of a group's braces.
pub fn body<'a>(items_here: &Reader<'a>) -> Option<Reader<'a>>
    ensures { MatchOption result (body_at items_here.now ≡ None) (λ inside. body_at items_here.now ≡ Some inside) }
{
    let mut inside = items_here.copy();
    if !items(&mut inside) {
        return None;
    }
    if eat_sign(&mut inside, Kind::Left) {
        Some(inside)
    } else {
        None
    }
}

/// The group that comes next, if one does.
pub fn group_at<'a>(reader: &Reader<'a>) -> Option<Group<'a>>
    ensures none { IfNone result (group_at reader.now ≡ None) }
    ensures some { IfSome result (λ g. group_at reader.now ≡ Some (g.name.now, g.items, g.inside)) }
{
    let mut items = reader.copy();
    let Some(name) = items.word() else {
        return None;
    };
    if !eat_sign(&mut items, Kind::Opening) {
        return None;
    }
    match body(&items) {
        Some(inside) => Some(Group {
            name,
            items,
            inside,
        }),
        None => None,
    }
}

/// Passes the statements up to the next group, and that one.
pub fn next_group<'a>(reader: &mut Reader<'a>, room: u32) -> Option<Group<'a>>
    ensures none { IfNone result (groups (front room reader.old).statements ≡ []) }
    ensures some { IfSome result (λ g. groups (front room reader.old).statements ≡ group_seen (room - 1) g ∷
        groups (front room reader.new).statements) }
    ensures shorter { OnSome result (length reader.new < length reader.old) }
{
    loop {
        let next = group_at(reader);
        if !statement(reader, room) {
            return None;
        }
        if let Some(group) = next {
            return Some(group);
        }
    }
}

/// Passes the items up to the next name, and that one.
pub fn next_name<'a>(items: &mut Reader<'a>) -> Option<&'a [u8]>
    ensures none { IfNone result (names_in (taken is_item items.old) ≡ []) }
    ensures some { IfSome result (λ name. names_in (taken is_item items.old) ≡ name.now ∷
        names_in (taken is_item items.new)) }
    ensures shorter { OnSome result (length items.new < length items.old) }
{
    loop {
        match items.kind() {
            Kind::Word => return items.word(),
            Kind::Text => return items.string(),
            Kind::Colon => items.sign(Kind::Colon),
            Kind::Comma => items.sign(Kind::Comma),
            _ => return None,
        }
    }
}

/// The one item, if it is a name.
pub fn only_name<'a>(items: &Reader<'a>) -> Option<&'a [u8]>
    ensures { MatchOption result (only_name (taken is_item items.now) ≡ None)
        (λ name. only_name (taken is_item items.now) ≡ Some name.now) }
{
    let mut rest = items.copy();
    let name = match rest.kind() {
        Kind::Word => rest.word(),
        Kind::Text => rest.string(),
        _ => None,
    };
    if item(&mut rest) { None } else { name }
}
