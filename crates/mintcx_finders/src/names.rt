//! Names that are given twice.
ghost use Rattle.std.specs.Prelude.{◌≡◌, IfOk, IfSome, length};
ghost use Rattle.mintc_vlex.specs.Tokens.{LiesWithin};
ghost use Rattle.mintcx_finders.specs.Places.{HasEarlierName, IsInside, bare, part};

use crate::found::{Class, Fault, Found, found_inside, name_of};
use crate::walk::{class_of, module_around, next_outer, range_of};
use mintc_text::OutOfMemory;
use mintc_text_names::NameSet;
use mintc_vlex::{Token, next_token, statement_end};
use mintcx_places::Range;
use std::alloc::Global;

/// Takes in the names that a statement gives. The first of them that is there already ends that.
fn add_names(
    alloc: Global,
    text: &[u8],
    first: &Token,
    names: &mut NameSet,
) -> Result<Option<Range>, OutOfMemory> {
    let mut at = first.to;
    while let Some(name) = next_outer(text, at) {
        let range = range_of(&name);
        if !names.add(alloc, name_of(text, &range))? {
            return Ok(Some(range));
        }
        at = name.to;
    }
    Ok(None)
}

/// The first name that statements of a class give again, from a place to the statement at another.
fn again(
    alloc: Global,
    text: &[u8],
    class: Class,
    body: usize,
    last: usize,
) -> Result<Option<Range>, OutOfMemory> {
    let mut names = NameSet::new(alloc);
    let mut from = body;
    while let Some(first) = next_token(text, from) {
        if first.from > last {
            return Ok(None);
        }
        if class_of(text, &first) == Some(class) {
            let range = add_names(alloc, text, &first, &mut names)?;
            if range.is_some() {
                return Ok(range);
            }
        }
        from = statement_end(text, &first);
    }
    Ok(None)
}

/// Where a statement gives a name.
pub(crate) fn given_in(text: &[u8], first: &Token, name: &[u8]) -> Option<Range>
    ensures { IfSome result (λ range. bare (part text.now range) ≡ name.now) }
{
    let mut at = first.to;
    while let Some(token) = next_outer(text, at) {
        let range = range_of(&token);
        if name_of(text, &range) == name {
            return Some(range);
        }
        at = token.to;
    }
    None
}

/// Where statements of a class give a name first, from a place on.
fn first_given(text: &[u8], class: Class, body: usize, name: &[u8]) -> Option<Range>
    ensures { IfSome result (λ range. bare (part text.now range) ≡ name.now) }
{
    let mut from = body;
    while let Some(first) = next_token(text, from) {
        if class_of(text, &first) == Some(class) {
            let given = given_in(text, &first, name);
            if given.is_some() {
                return given;
            }
        }
        from = statement_end(text, &first);
    }
    None
}

/// Where statements begin among which names of a class differ: those of a module, and of modules the whole text.
fn body_of(text: &[u8], class: Class, statement: &Range) -> Option<usize> {
    match class {
        Class::Module => Some(0),
        Class::Port | Class::Net | Class::Instance => {
            Some(module_around(text, statement.from)?.body)
        }
    }
}

/// The class of the names of a statement, and where statements begin among which they differ.
fn scope_of(text: &[u8], statement: &Range) -> Option<(Class, usize)> {
    let class = class_of(text, &next_token(text, statement.from)?)?;
    let body = body_of(text, class, statement)?;
    Some((class, body))
}

/// The name that a statement gives again: of a module, or in its module of a port, a net or an instance. With it the
/// place where it was given first.
pub fn name_twice(
    alloc: Global,
    text: &[u8],
    statement: &Range,
) -> Result<Option<Found>, OutOfMemory>
    ensures inside { IfOk result (λ o. IfSome o (λ found. IsInside statement.now found.range)) }
    ensures name { IfOk result (λ o. IfSome o (HasEarlierName text.now)) }
{
    let Some((class, body)) = scope_of(text, statement) else {
        return Ok(None);
    };
    let Some(range) = again(alloc, text, class, body, statement.from)? else {
        return Ok(None);
    };
    let Some(earlier) = first_given(text, class, body, name_of(text, &range)) else {
        return Ok(None);
    };
    Ok(found_inside(statement, range, Fault::Again { class, earlier }))
}
