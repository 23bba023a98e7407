//! The message of a refusal, whole or in one line.
ghost use Rattle.std.specs.Prelude.{◌≤◌, IfOk, IfSome, length};
ghost use Rattle.mintcx_refusals.specs.Messages.{IsCornerMessage, IsExcerptAt, IsMessage, IsShortMessage};
ghost use Rattle.mintcx_refusals.specs.Messages.{IsSpotAt, IsWide};

use crate::advice::advice_of;
use crate::cases::Case;
use crate::files::{Inputs, name_of, teller};
use crate::labels::label_of;
use crate::others::others_width;
use crate::places::{Place, place_of};
use crate::whats::what_of;
use crate::writing::{digits_of, put_corner_note, put_head, put_note, put_place, put_short_place};
use mintc_text::{Bytes, Lines, OutOfMemory, Refusal};
use mintcx_places::{Excerpt, Spot, excerpt_of, spot_of};
use std::alloc::Global;

/// The excerpt of a place, if there is one.
fn excerpt_at(
    alloc: Global,
    file: &[u8],
    place: Option<Place>,
) -> Result<Option<Excerpt>, OutOfMemory>
    requires { IfSome place (λ p. p.mark.from ≤ length file.now) }
    ensures { IfOk result (IsExcerptAt file.now place) }
{
    match place {
        Some(place) => Ok(Some(excerpt_of(alloc, file, &place.mark)?)),
        None => Ok(None),
    }
}

/// Where a place begins, if there is one.
fn spot_at(file: &[u8], place: Option<Place>) -> Option<Spot>
    requires { IfSome place (λ p. p.mark.from ≤ length file.now) }
    ensures { IsSpotAt file.now place result }
{
    match place {
        Some(place) => Some(spot_of(file, place.mark.from)),
        None => None,
    }
}

/// How many digits the number of an excerpt's line has; none where there is no excerpt.
fn digits_at(alloc: Global, excerpt: &Option<Excerpt>) -> Result<usize, OutOfMemory>
    ensures { IfOk result (IsWide excerpt.now) }
{
    match excerpt {
        Some(excerpt) => {
            let digits = digits_of(alloc, excerpt.spot.line)?;
            Ok(digits.items().len())
        }
        None => Ok(0),
    }
}

/// How many blanks stand before the parts of a message: as many as the greatest number of its lines has digits.
fn margin_of(
    alloc: Global,
    case: &Case<'_>,
    excerpt: &Option<Excerpt>,
) -> Result<usize, OutOfMemory>
    ensures { IfOk result (IsWide excerpt.now) }
{
    let digits = digits_at(alloc, excerpt)?;
    let others = others_width(alloc, case)?;
    Ok(digits.max(others))
}

/// The message of a refusal, over several lines: its number and what it is; the file, the line and the column, and the
/// line itself with marks below the word at fault or all of it, as far as the place is known; other places, where some
/// are found; why it is refused, and what helps; and mintc's own line. `file` is what `file_of` says, read once more,
/// or empty where that can't be had.
pub fn refusal_message(
    alloc: Global,
    refusal: &Refusal,
    inputs: &Inputs<'_>,
    file: &[u8],
) -> Result<Bytes, OutOfMemory>
    ensures { IfOk result (IsMessage inputs.now.roles.now inputs.now.names.now file.now refusal.now) }
{
    let place = place_of(alloc, file, inputs.beside, refusal)?;
    let name = name_of(inputs, refusal);
    let excerpt = excerpt_at(alloc, file, place)?;
    let case = Case {
        refusal,
        own: refusal,
        inputs,
        file,
        place,
    };
    let what = what_of(alloc, &case)?;
    let label = label_of(alloc, &case)?;
    let margin = margin_of(alloc, &case, &excerpt)?;
    let advice = advice_of(alloc, &case, margin)?;
    let mut lines = Lines::new(alloc);
    put_head(&mut lines, refusal, what.items())?;
    put_place(alloc, &mut lines, margin, name, &excerpt, label.items())?;
    lines.put(advice.items())?;
    put_note(alloc, &mut lines, refusal)?;
    Ok(Bytes::new(lines.into_bytes()))
}

/// The message that a corner is refused, counted from 1, for what its own files are refused for: as `refusal_message`
/// of that, below a line that says which corner it is. `file` is that of `teller`, read once more, or empty.
pub fn corner_message(
    alloc: Global,
    corner: u32,
    own: &Refusal,
    inputs: &Inputs<'_>,
    file: &[u8],
) -> Result<Bytes, OutOfMemory>
    ensures { IfOk result
        (IsCornerMessage inputs.now.roles.now inputs.now.names.now file.now (Refusal.Corner corner) own.now) }
{
    let outer = Refusal::Corner { file: corner };
    let place = place_of(alloc, file, inputs.beside, own)?;
    let name = name_of(inputs, teller(&outer, own));
    let excerpt = excerpt_at(alloc, file, place)?;
    let inner = Case {
        refusal: own,
        own,
        inputs,
        file,
        place,
    };
    let case = Case {
        refusal: &outer,
        ..inner
    };
    let what = what_of(alloc, &case)?;
    let own_what = what_of(alloc, &inner)?;
    let label = label_of(alloc, &inner)?;
    let margin = margin_of(alloc, &case, &excerpt)?;
    let advice = advice_of(alloc, &case, margin)?;
    let mut lines = Lines::new(alloc);
    put_head(&mut lines, &outer, what.items())?;
    put_head(&mut lines, own, own_what.items())?;
    put_place(alloc, &mut lines, margin, name, &excerpt, label.items())?;
    lines.put(advice.items())?;
    put_corner_note(alloc, &mut lines, &outer, own)?;
    Ok(Bytes::new(lines.into_bytes()))
}

/// The message of a refusal in one line, as editors take it: `FILE:LINE:COLUMN: error[N]: ` and what it is, with as
/// much of the place as is known. `file` is what `file_of` says, read once more, or empty.
pub fn short_message(
    alloc: Global,
    refusal: &Refusal,
    inputs: &Inputs<'_>,
    file: &[u8],
) -> Result<Bytes, OutOfMemory>
    ensures { IfOk result (IsShortMessage inputs.now.roles.now inputs.now.names.now file.now refusal.now) }
{
    let place = place_of(alloc, file, inputs.beside, refusal)?;
    let case = Case {
        refusal,
        own: refusal,
        inputs,
        file,
        place,
    };
    let what = what_of(alloc, &case)?;
    let mut lines = Lines::new(alloc);
    put_short_place(&mut lines, name_of(inputs, refusal), spot_at(file, place))?;
    put_head(&mut lines, refusal, what.items())?;
    Ok(Bytes::new(lines.into_bytes()))
}
