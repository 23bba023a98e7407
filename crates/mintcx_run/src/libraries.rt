//! Cells of a library in a description's place.
ghost use Rattle.std.specs.Prelude.{◌≡◌, ◌<◌, length, IfErr, IfOk};
ghost use Rattle.mintc_command_answers.specs.Sources.{file_at};
ghost use Rattle.mintcx_clock_cells.specs.Clocks.{HasClockCells};
ghost use Rattle.mintcx_run.specs.Libraries.{AreDescribed, IsDescriptionOf, IsUnfitLibrary, restored};

use liberty2toml_command::toml_form;
use mintc_cells::Cells;
use mintc_text::limits::MOST_BYTES;
use mintc_text::{Bytes, Name, OutOfMemory, Refusal, Role};
use mintcx_clock_cells::{Unfit, clock_cells};
use std::alloc::Global;

/// The cells of a library, with gates that carry the clock, or why there are none.
fn cells_of(alloc: Global, text: &[u8], gates: &[Name]) -> Result<Cells, Unfit>
    ensures cells { IfOk result (HasClockCells text.now gates.now) }
    ensures unfit { IfErr result (IsUnfitLibrary text.now gates.now) }
{
    if text.len() > MOST_BYTES {
        return Err(Unfit::Refused(Refusal::TooLong { role: Role::Cells }));
    }
    clock_cells(alloc, text, gates)
}

/// The description of the cells of a library, with gates that carry the clock, or why there is none.
fn description_of(alloc: Global, text: &[u8], gates: &[Name]) -> Result<Bytes, Unfit>
    ensures value { IfOk result (IsDescriptionOf text.now gates.now) }
    ensures unfit { IfErr result (IsUnfitLibrary text.now gates.now) }
{
    let cells = cells_of(alloc, text, gates)?;
    match toml_form(alloc, &cells) {
        Ok(text) => Ok(Bytes::new(text)),
        Err(_) => Err(Unfit::OutOfMemory),
    }
}

/// Puts the description of its cells in the place of a library, which is the file of this number, with gates that carry
/// the clock, and gives the library back.
pub(crate) fn describe(
    alloc: Global,
    at: usize,
    gates: &[Name],
    files: &mut [Bytes],
) -> Result<Bytes, Unfit>
    requires { at < length files.old }
    ensures value { IfOk result (λ library. AreDescribed at gates.now files.old files.new) }
    ensures library { IfOk result (λ library. library ≡ file_at files.old at) }
    ensures count { length files.new ≡ length files.old }
    ensures unfit { IfErr result (IsUnfitLibrary (file_at files.old at) gates.now) }
{
    let text = description_of(alloc, files[at].items(), gates)?;
    Ok(std::mem::replace(&mut files[at], text))
}

/// What was taken of files, of which one, of this number, may be a library that was described.
pub(crate) fn restored(mut files: Vec<Bytes>, at: usize, library: Option<Bytes>) -> Vec<Bytes>
    requires { at < length files.items }
    ensures value { result.items ≡ restored files.items at library }
    ensures count { length result.items ≡ length files.items }
{
    if let Some(library) = library {
        files[at] = library;
    }
    files
}
