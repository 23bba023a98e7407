//! Groups and items by their names.
ghost use Rattle.std.specs.Prelude.{◌≡◌, ◌-◌, Some, None, MatchOption};
ghost use Rattle.mintc_liberty_tokens.specs.Tokens.{is_item, names_in};
ghost use Rattle.mintc_liberty_tokens.specs.Statements.{front, taken};
ghost use Rattle.mintc_liberty_cell.specs.Expressions.{is_among};
ghost use Rattle.mintc_liberty_cell.specs.Meaning.{groups};
ghost use Rattle.mintc_liberty_cell.specs.Seen.{group_seen};
ghost use Rattle.mintc_senses.specs.Senses.{first_named};

use mintc_liberty_cell::{Group, next_group, next_name};
use mintc_liberty_tokens::Reader;

/// Whether a name is among items.
pub(crate) fn has_name(items: &Reader, name: &[u8]) -> bool
    ensures { result ≡ is_among (names_in (taken is_item items.now)) name.now }
{
    let mut items = items.copy();
    while let Some(next) = next_name(&mut items) {
        if name == next {
            return true;
        }
    }
    false
}

/// The first group of a name among those directly in the one that the reader stands in.
pub(crate) fn first_named<'a>(inside: &Reader<'a>, name: &[u8], room: u32) -> Option<Group<'a>>
    ensures { MatchOption result (first_named name.now (groups (front room inside.now).statements) ≡ None)
        (λ g. first_named name.now (groups (front room inside.now).statements) ≡ Some (group_seen (room - 1) g)) }
{
    let mut reader = inside.copy();
    while let Some(group) = next_group(&mut reader, room) {
        if group.name == name {
            return Some(group);
        }
    }
    None
}
