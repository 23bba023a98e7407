//! All warnings of the files of a design.
ghost use Rattle.std.specs.Prelude.{◌≡◌, ◌++◌, IfOk};
ghost use Rattle.mintcx_warnings_files.specs.Parts.{AreShort};
ghost use Rattle.mintc_flatten_hierarchy.specs.Shape.{IsGivenHierarchy};
ghost use Rattle.mintcx_warnings_files.specs.Told.{AreTold};
ghost use Rattle.mintcx_warnings_files.specs.Written.{AreWarnings};

use crate::entered::entered_texts;
use crate::files::Files;
use crate::late::late_texts;
use crate::parts::{Parts, parts_of};
use crate::same::same_text;
use crate::unlisted::unlisted_text;
use mintc_text::{Bytes, Limits, Lines, OutOfMemory, Stop};
use std::alloc::Global;

/// Four texts, one behind the other.
fn together(
    alloc: Global,
    first: &[u8],
    second: &[u8],
    third: &[u8],
    fourth: &[u8],
) -> Result<Bytes, OutOfMemory>
    ensures { IfOk result (λ text. text ≡ first.now ++ second.now ++ third.now ++ fourth.now) }
{
    let mut lines = Lines::new(alloc);
    lines.put(first)?;
    lines.put(second)?;
    lines.put(third)?;
    lines.put(fourth)?;
    Ok(Bytes::new(lines.into_bytes()))
}

/// The warnings of what the files of a design say, one behind the other.
fn told(alloc: Global, parts: &Parts, files: &Files<'_>) -> Result<Bytes, OutOfMemory>
    requires { IsGivenHierarchy parts.now.cells parts.now.hierarchy }
    ensures { IfOk result (AreTold files.now parts.now) }
{
    let same = same_text(alloc, parts, &files.clock)?;
    let late = late_texts(alloc, parts, &files.clock)?;
    let entered = entered_texts(alloc, parts, &files.cells, files.form)?;
    let unlisted = unlisted_text(alloc, parts, &files.netlist)?;
    together(
        alloc,
        same.items(),
        late.items(),
        entered.items(),
        unlisted.items(),
    )
}

/// The warnings of the files of a design, one behind the other; no byte where there are none. The refusal is one of the
/// files.
pub fn warnings_of(alloc: Global, limits: &Limits, files: &Files<'_>) -> Result<Bytes, Stop>
    requires { AreShort files.now }
    ensures { IfOk result (AreWarnings limits.now files.now) }
{
    let parts = parts_of(alloc, limits, files)?;
    Ok(told(alloc, &parts, files)?)
}
