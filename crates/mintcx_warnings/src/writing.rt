//! The parts that each warning has.
ghost use Rattle.std.specs.Prelude.{◌≡◌, ◌≤◌, ◌-◌, ◌++◌, ◌∷◌, [], IfOk, IfSome};
ghost use Rattle.std.specs.Prelude.{OnOk, codes, decimal, length, replicate};
ghost use Rattle.mintcx_refusals.specs.Messages.{IsWide, place_text};
ghost use Rattle.mintcx_warnings.specs.Warnings.{IsShownAt, IsWarning, advice_text, head_text, more_text, quoted};

use crate::said::Said;
use mintc_text::{Bytes, Lines, OutOfMemory};
use mintcx_frame::put_number;
use mintcx_places::{Excerpt, Range, excerpt_of};
use mintcx_refusals::{digits_of, put_place, put_times};
use std::alloc::Global;

/// Where a warning is shown: a file by its name and its bytes, and the place in it, where one is found.
#[derive(Clone, Copy)]
pub struct Scene<'a> {
    pub name: &'a [u8],
    pub text: &'a [u8],
    pub place: Option<Range>,
}

/// Bytes of their own.
pub(crate) fn owned(alloc: Global, bytes: &[u8]) -> Result<Bytes, OutOfMemory>
    ensures { IfOk result (λ copy. copy ≡ bytes.now) }
{
    Ok(Bytes::new(Vec::from_slice(alloc, bytes)?))
}

/// Writes a name between quotes.
pub(crate) fn put_quoted(lines: &mut Lines, name: &[u8]) -> Result<(), OutOfMemory>
    ensures { OnOk result (lines.new ≡ lines.old ++ quoted name.now) }
{
    lines.put(b"`")?;
    lines.put(name)?;
    lines.put(b"`")
}

/// Writes how many others there are behind the first, where there are some.
pub(crate) fn put_more(lines: &mut Lines, before: &[u8], count: usize) -> Result<(), OutOfMemory>
    ensures { OnOk result (lines.new ≡ lines.old ++ more_text before.now count) }
{
    if count <= 1 {
        return Ok(());
    }
    lines.put(before)?;
    put_number(lines, count as u64 - 1)?;
    lines.put(b" more")
}

/// The excerpt of a place, if there is one.
fn excerpt_at(
    alloc: Global,
    text: &[u8],
    place: Option<Range>,
) -> Result<Option<Excerpt>, OutOfMemory>
    requires { IfSome place (λ range. range.from ≤ length text.now) }
    ensures { IfOk result (IsShownAt text.now place) }
{
    match place {
        Some(range) => Ok(Some(excerpt_of(alloc, text, &range)?)),
        None => Ok(None),
    }
}

/// How many blanks stand before the parts of a warning: as many as the number of its line has digits.
fn margin_of(alloc: Global, excerpt: &Option<Excerpt>) -> Result<usize, OutOfMemory>
    ensures { IfOk result (IsWide excerpt.now) }
{
    match excerpt {
        Some(excerpt) => {
            let digits = digits_of(alloc, excerpt.spot.line)?;
            Ok(digits.items().len())
        }
        None => Ok(0),
    }
}

/// Writes what a warning begins with.
fn put_head(lines: &mut Lines, what: &[u8]) -> Result<(), OutOfMemory>
    ensures { OnOk result (lines.new ≡ lines.old ++ head_text what.now) }
{
    lines.put(b"warning: ")?;
    lines.put(what)?;
    lines.put(b"\n")
}

/// Writes a line of advice behind a margin.
fn put_advice(lines: &mut Lines, margin: usize, key: &[u8], said: &[u8]) -> Result<(), OutOfMemory>
    ensures { OnOk result (lines.new ≡ lines.old ++ advice_text (replicate margin 32) key.now said.now) }
{
    put_times(lines, b' ', margin)?;
    lines.put(key)?;
    lines.put(said)?;
    lines.put(b"\n")
}

/// The text of a warning, shown at its place.
pub(crate) fn warning_text(
    alloc: Global,
    scene: &Scene<'_>,
    said: &Said,
) -> Result<Bytes, OutOfMemory>
    requires { IfSome scene.now.place (λ range. range.from ≤ length scene.now.text.now) }
    ensures { IfOk result (IsWarning scene.now.name.now scene.now.text.now scene.now.place said.now) }
{
    let excerpt = excerpt_at(alloc, scene.text, scene.place)?;
    let margin = margin_of(alloc, &excerpt)?;
    let mut lines = Lines::new(alloc);
    put_head(&mut lines, said.what.items())?;
    put_place(
        alloc,
        &mut lines,
        margin,
        scene.name,
        &excerpt,
        said.label.items(),
    )?;
    put_advice(&mut lines, margin, b" = why: ", said.why.items())?;
    put_advice(&mut lines, margin, b" = help: ", said.help.items())?;
    Ok(Bytes::new(lines.into_bytes()))
}
