//! A refusal in parts, for forms other than a message.
ghost use Rattle.std.specs.Prelude.{◌≤◌, IfOk, IfSome, length};
ghost use Rattle.mintcx_refusals.specs.Parts.{HasParts, IsMarkedAt};
ghost use Rattle.mintcx_refusals.specs.Files.{teller as teller_of};

use crate::advice::whole_help;
use crate::cases::Case;
use crate::files::{Inputs, name_of, teller};
use crate::labels::label_of;
use crate::places::{Place, place_of};
use crate::whats::what_of;
use mintc_text::{Bytes, OutOfMemory, Refusal};
use mintcx_places::{Spot, spot_of};
use std::alloc::Global;

/// What is marked in a file: where it begins, and how many bytes it has.
#[derive(Clone, Copy)]
pub struct Marked {
    pub spot: Spot,
    pub length: usize,
}

/// A refusal in parts.
#[derive(Drop)]
pub struct Parts<'a> {
    /// What it is.
    pub what: Bytes,
    /// The file that it speaks of; empty where it speaks of none.
    pub name: &'a [u8],
    /// What is marked there, if that is known.
    pub marked: Option<Marked>,
    /// What is said of what is marked; empty where there is nothing to say.
    pub label: Bytes,
    /// What helps; empty where nothing is known.
    pub help: Bytes,
}

/// What is marked of a place, if there is one.
fn marked_at(file: &[u8], place: Option<Place>) -> Option<Marked>
    requires { IfSome place (λ p. p.mark.from ≤ length file.now) }
    ensures { IsMarkedAt file.now place result }
{
    match place {
        Some(place) => Some(Marked {
            spot: spot_of(file, place.mark.from),
            length: place.mark.to.saturating_sub(place.mark.from),
        }),
        None => None,
    }
}

/// A label without the blank between it and the marks.
fn trimmed(label: &[u8]) -> &[u8] {
    match label {
        [b' ', rest @ ..] => rest,
        _ => label,
    }
}

/// The label of what is marked.
fn label_in(alloc: Global, case: &Case<'_>) -> Result<Bytes, OutOfMemory> {
    let label = label_of(alloc, case)?;
    Ok(Bytes::new(Vec::from_slice(alloc, trimmed(label.items()))?))
}

/// A refusal in parts. `file` is what `file_of` says, read once more, or empty where that can't be had.
pub fn refusal_parts<'a>(
    alloc: Global,
    refusal: &Refusal,
    inputs: &Inputs<'a>,
    file: &[u8],
) -> Result<Parts<'a>, OutOfMemory>
    ensures { IfOk result
        (HasParts inputs.now.roles.now inputs.now.names.now file.now refusal.now refusal.now) }
{
    let place = place_of(alloc, file, inputs.beside, refusal)?;
    let case = Case {
        refusal,
        own: refusal,
        inputs,
        file,
        place,
    };
    Ok(Parts {
        what: what_of(alloc, &case)?,
        name: name_of(inputs, refusal),
        marked: marked_at(file, place),
        label: label_in(alloc, &case)?,
        help: whole_help(alloc, &case)?,
    })
}

/// The parts of a corner that is refused, counted from 1, with the place of what its own files are refused for. `file`
/// is that of `teller`, read once more, or empty.
pub fn corner_parts<'a>(
    alloc: Global,
    corner: u32,
    own: &Refusal,
    inputs: &Inputs<'a>,
    file: &[u8],
) -> Result<Parts<'a>, OutOfMemory>
    ensures { IfOk result (HasParts inputs.now.roles.now inputs.now.names.now file.now
        (teller_of (Refusal.Corner corner) own.now) own.now) }
{
    let outer = Refusal::Corner { file: corner };
    let place = place_of(alloc, file, inputs.beside, own)?;
    let inner = Case {
        refusal: own,
        own,
        inputs,
        file,
        place,
    };
    let case = Case {
        refusal: &outer,
        ..inner
    };
    Ok(Parts {
        what: what_of(alloc, &case)?,
        name: name_of(inputs, teller(&outer, own)),
        marked: marked_at(file, place),
        label: label_in(alloc, &inner)?,
        help: whole_help(alloc, &case)?,
    })
}

/// What a refusal is, in words.
pub fn refusal_what(
    alloc: Global,
    refusal: &Refusal,
    inputs: &Inputs<'_>,
    file: &[u8],
) -> Result<Bytes, OutOfMemory> {
    let place = place_of(alloc, file, inputs.beside, refusal)?;
    let case = Case {
        refusal,
        own: refusal,
        inputs,
        file,
        place,
    };
    what_of(alloc, &case)
}
