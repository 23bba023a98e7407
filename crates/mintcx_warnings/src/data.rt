//! Cells of the clock that lead to data.
ghost use Rattle.std.specs.Prelude.{◌≡◌, ◌≤◌, ◌++◌, IfOk, IfSome, length};
ghost use Rattle.mintcx_warnings.specs.Data.{data_help, data_rest, data_said, data_what, data_why};
ghost use Rattle.mintcx_warnings.specs.Warnings.{IsWarning};

use crate::said::Said;
use crate::writing::{Scene, owned, put_quoted, warning_text};
use mintc_text::{Bytes, Lines, OutOfMemory};
use mintcx_frame::put_number;
use std::alloc::Global;

/// A cell of the clock that leads to data: its name, and how many data pins it leads to; and of the first of these the
/// net that leads there, the pin, and its instance.
#[derive(Clone, Copy)]
pub struct Entered<'a> {
    pub cell: &'a [u8],
    pub count: usize,
    pub net: &'a [u8],
    pub pin: &'a [u8],
    pub instance: &'a [u8],
}

/// What is left out of so many paths.
fn data_rest(count: usize) -> &'static [u8]
    ensures { result.now ≡ data_rest count }
{
    if count == 1 {
        b" path of it is left out"
    } else {
        b" paths of it are left out"
    }
}

/// Which cell leads to data, and how often.
fn data_what(alloc: Global, cell: &[u8], count: usize) -> Result<Bytes, OutOfMemory>
    ensures { IfOk result (λ what. what ≡ data_what cell.now count) }
{
    let mut lines = Lines::new(alloc);
    lines.put(b"clock cell ")?;
    put_quoted(&mut lines, cell)?;
    lines.put(b" leads to data: ")?;
    put_number(&mut lines, count as u64)?;
    lines.put(data_rest(count))?;
    Ok(Bytes::new(lines.into_bytes()))
}

/// Where it does.
fn data_why(alloc: Global, net: &[u8], pin: &[u8], instance: &[u8]) -> Result<Bytes, OutOfMemory>
    ensures { IfOk result (λ why. why ≡ data_why net.now pin.now instance.now) }
{
    let mut lines = Lines::new(alloc);
    lines.put(b"its output ")?;
    put_quoted(&mut lines, net)?;
    lines.put(b" enters pin ")?;
    lines.put(pin)?;
    lines.put(b" of ")?;
    put_quoted(&mut lines, instance)?;
    Ok(Bytes::new(lines.into_bytes()))
}

/// What helps.
fn data_help(alloc: Global) -> Result<Bytes, OutOfMemory>
    ensures { IfOk result (λ help. help ≡ data_help) }
{
    owned(
        alloc,
        b"keep the cells of the clock out of the data: dont_use in the library that abc gets",
    )
}

/// What is said of such a cell.
fn data_said(alloc: Global, entered: &Entered<'_>) -> Result<Said, OutOfMemory>
    ensures { IfOk result (λ said. said ≡ data_said entered.now.cell.now entered.now.count entered.now.net.now
        entered.now.pin.now entered.now.instance.now) }
{
    let what = data_what(alloc, entered.cell, entered.count)?;
    let label = owned(alloc, b" no data goes through a cell of kind `clock`")?;
    let why = data_why(alloc, entered.net, entered.pin, entered.instance)?;
    let help = data_help(alloc)?;
    Ok(Said {
        what,
        label,
        why,
        help,
    })
}

/// The warning of a cell of the clock that leads to data, shown at its description.
pub fn data_text(
    alloc: Global,
    entered: &Entered<'_>,
    scene: &Scene<'_>,
) -> Result<Bytes, OutOfMemory>
    requires place { IfSome scene.now.place (λ range. range.from ≤ length scene.now.text.now) }
    ensures { IfOk result (IsWarning scene.now.name.now scene.now.text.now scene.now.place
        (data_said entered.now.cell.now entered.now.count entered.now.net.now entered.now.pin.now
        entered.now.instance.now)) }
{
    let said = data_said(alloc, entered)?;
    warning_text(alloc, scene, &said)
}
