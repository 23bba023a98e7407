//! The senses of the data pins of latches and flops.
ghost use Rattle.std.specs.Prelude.{◌≡◌, ◌-◌, ◌<◌, codes, Some, None, IfOk, MatchOption, option_map};
ghost use Rattle.mintc_liberty_tokens.specs.Tokens.{is_item, names_in};
ghost use Rattle.mintc_liberty_tokens.specs.Statements.{front, taken};
ghost use Rattle.mintc_liberty_cell.specs.Meaning.{groups, last_value};
ghost use Rattle.mintc_liberty_cell.specs.Seen.{group_seen};
ghost use Rattle.mintc_senses.specs.Senses.{literal_sense, two_of, state_sense, through, keeper_sense};

use crate::values::value_of;
use crate::words::{Cut, has_word};
use mintc_liberty_cell::{Group, next_name};
use mintc_liberty_tokens::Reader;
use mintc_senses_expressions::{Transitions, function_sense};
use mintc_text::OutOfMemory;
use std::alloc::Global;

/// The transitions of a word in what is said, where that is an expression with no other word.
fn literal_sense(
    alloc: Global,
    said: &Option<Vec<u8>>,
    word: &[u8],
) -> Result<Option<Transitions>, OutOfMemory>
    ensures { IfOk result (λ o. o ≡ literal_sense word.now (option_map (λ v. v.items) said.now)) }
{
    let Some(text) = said else {
        return Ok(None);
    };
    if has_word(text, Cut::Expression, word, false) {
        return Ok(None);
    }
    function_sense(alloc, text, word)
}

/// The two names among items, where there are just two.
fn two_names<'a>(items: &Reader<'a>) -> Option<(&'a [u8], &'a [u8])>
    ensures { MatchOption result (two_of (names_in (taken is_item items.now)) ≡ None)
        (λ p. two_of (names_in (taken is_item items.now)) ≡ Some (p.0.now, p.1.now)) }
{
    let mut items = items.copy();
    let Some(first) = next_name(&mut items) else {
        return None;
    };
    let Some(second) = next_name(&mut items) else {
        return None;
    };
    match next_name(&mut items) {
        Some(_) => None,
        None => Some((first, second)),
    }
}

/// From the state of a latch or flop to an output with a function.
fn state_sense(
    alloc: Global,
    group: &Group,
    function: &Option<Vec<u8>>,
) -> Result<Option<Transitions>, OutOfMemory>
    ensures { IfOk result (λ o. o ≡ state_sense (two_of (names_in (taken is_item group.now.items)))
        (option_map (λ v. v.items) function.now)) }
{
    let Some((first, second)) = two_names(&group.items) else {
        return Ok(None);
    };
    if let Some(sense) = literal_sense(alloc, function, first)? {
        return Ok(Some(sense));
    }
    match literal_sense(alloc, function, second)? {
        Some(sense) => Ok(Some(sense.turned())),
        None => Ok(None),
    }
}

/// From one place to the next and on to a third.
fn through(first: Transitions, second: Transitions) -> Transitions
    ensures { result ≡ through first second }
{
    Transitions {
        rise_to_rise: (first.rise_to_rise && second.rise_to_rise)
            || (first.rise_to_fall && second.fall_to_rise),
        rise_to_fall: (first.rise_to_rise && second.rise_to_fall)
            || (first.rise_to_fall && second.fall_to_fall),
        fall_to_rise: (first.fall_to_rise && second.rise_to_rise)
            || (first.fall_to_fall && second.fall_to_rise),
        fall_to_fall: (first.fall_to_rise && second.rise_to_fall)
            || (first.fall_to_fall && second.fall_to_fall),
    }
}

/// From the data pin of a group that keeps a state, by the attribute of this name, to an output with a function.
pub(crate) fn keeper_sense(
    alloc: Global,
    group: &Group,
    key: &[u8],
    data_pin: &[u8],
    function: &Option<Vec<u8>>,
    room: u32,
) -> Result<Option<Transitions>, OutOfMemory>
    ensures { IfOk result (λ o. o ≡ keeper_sense key.now data_pin.now (option_map (λ v. v.items) function.now)
        (Some (group_seen room group.now))) }
{
    let data = value_of(alloc, &group.inside, key, room)?;
    let Some(first) = literal_sense(alloc, &data, data_pin)? else {
        return Ok(None);
    };
    let Some(second) = state_sense(alloc, group, function)? else {
        return Ok(None);
    };
    let sense = through(first, second);
    if sense.has_some() {
        Ok(Some(sense))
    } else {
        Ok(None)
    }
}
