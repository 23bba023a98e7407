//! The warnings beside an answer.
ghost use Rattle.std.specs.Prelude.{◌≡◌, ◌<◌, ◌≤◌, ◌++◌, All, IfOk, IfSome, List, ℕ, length};
ghost use Rattle.std.specs.Bool.{OnTrue};
ghost use Rattle.mintc_command_answers.specs.Commands.{IsNumberInRange, roles_of};
ghost use Rattle.mintcx_warnings_files.specs.Parts.{AreShort};
ghost use Rattle.mintcx_run.specs.Warned.{AreAllWarned, AreClampsTold, AreFilesOf, AreWarned, IsFileOf, IsOfFour};
ghost use Rattle.mintcx_run.specs.Warned.{IsSomeFileOf, IsWarned, described};

use crate::orders::Order;
use crate::taking::are_delays;
use mintc_command_answers::{Command, Source};
use mintc_text::limits::MOST_BYTES;
use mintc_text::{Bytes, Limits, Lines, Name, OutOfMemory};
use mintcx_manners::Format;
use mintcx_warnings_files::{CellsForm, File, Files, clamped_warnings, warnings_of};
use std::alloc::Global;

/// Whether warnings are told: beside an answer that isn't quiet, in each form but mintc's own.
fn is_told(order: &Order) -> bool {
    !order.manner.quiet && !matches!(order.manner.format, Format::Plain)
}

/// A file of a call.
fn file_of<'a>(names: &'a [Name], files: &'a [Bytes], number: usize) -> File<'a>
    requires names { number < length names.now }
    requires files { number < length files.now }
    ensures { IsFileOf names.now files.now number result }
{
    File {
        name: names[number].bytes(),
        text: files[number].items(),
    }
}

/// The form of a description, which may be made of a library.
fn described(of_library: bool) -> CellsForm
    ensures { result ≡ described of_library }
{
    if of_library {
        CellsForm::Made
    } else {
        CellsForm::Description
    }
}

/// In which form the cells of a design of four files are. None where a command is asked of other files.
fn form_of(command: Command, of_library: bool) -> Option<CellsForm>
    ensures four { IfSome result (IsOfFour command of_library) }
    ensures count { IfSome result (λ form. 4 ≤ length (roles_of command)) }
{
    match command {
        Command::OfDesign {
            job: _,
            source: Source::Files,
        } => Some(described(of_library)),
        Command::OfDesign {
            job: _,
            source: Source::Liberty,
        } => Some(CellsForm::Library),
        _ => None,
    }
}

/// The four files of a design. None where it is given by another number of files.
fn files_of<'a>(order: &'a Order, files: &'a [Bytes]) -> Option<Files<'a>>
    requires count { length files.now ≡ length (roles_of order.now.call.command) }
    requires names { length order.now.call.files ≡ length (roles_of order.now.call.command) }
    ensures { IfSome result (AreFilesOf order.now files.now) }
{
    let form = form_of(order.call.command, order.call.of_library)?;
    let names = order.call.files.items();
    Some(Files {
        netlist: file_of(names, files, 0),
        delays: file_of(names, files, 1),
        cells: file_of(names, files, 2),
        clock: file_of(names, files, 3),
        form,
    })
}

/// Whether no file of a design is longer than one may be.
fn are_short(files: &Files<'_>) -> bool
    ensures { OnTrue result (AreShort files.now) }
{
    files.netlist.text.len() <= MOST_BYTES
        && files.delays.text.len() <= MOST_BYTES
        && files.cells.text.len() <= MOST_BYTES
        && files.clock.text.len() <= MOST_BYTES
}

/// The warnings of the files of an order, where they are told.
fn told_warnings(alloc: Global, order: &Order, files: &[Bytes]) -> Option<Bytes>
    requires count { length files.now ≡ length (roles_of order.now.call.command) }
    requires names { length order.now.call.files ≡ length (roles_of order.now.call.command) }
    ensures { IfSome result (AreWarned order.now files.now) }
{
    if !is_told(order) {
        return None;
    }
    let design = files_of(order, files)?;
    if !are_short(&design) {
        return None;
    }
    match warnings_of(alloc, &Limits::large(), &design) {
        Ok(text) => Some(text),
        Err(_) => None,
    }
}

/// The files of an order that have delays.
fn delays_of<'a>(
    alloc: Global,
    order: &'a Order,
    files: &'a [Bytes],
) -> Result<Vec<File<'a>>, OutOfMemory>
    requires count { length files.now ≡ length (roles_of order.now.call.command) }
    requires names { length order.now.call.files ≡ length (roles_of order.now.call.command) }
    requires in_range { IsNumberInRange order.now.call.command }
    ensures { IfOk result (λ found. All (IsSomeFileOf order.now files.now) found.items) }
{
    let roles = order.call.command.roles();
    let names = order.call.files.items();
    let mut found = Vec::new(alloc);
    for at in 0..files.len() {
        if are_delays(roles[at]) {
            found.push(file_of(names, files, at))?;
        }
    }
    Ok(found)
}

/// The warnings of delays below 0 for which 0 is taken, where they are told.
fn told_clamps(alloc: Global, order: &Order, files: &[Bytes]) -> Result<Bytes, OutOfMemory>
    requires count { length files.now ≡ length (roles_of order.now.call.command) }
    requires names { length order.now.call.files ≡ length (roles_of order.now.call.command) }
    requires in_range { IsNumberInRange order.now.call.command }
    ensures { IfOk result (AreClampsTold order.now files.now) }
{
    if !order.call.clamp || !is_told(order) {
        return Ok(Bytes::new(Vec::new(alloc)));
    }
    let delays = delays_of(alloc, order, files)?;
    clamped_warnings(alloc, delays.as_slice())
}

/// The warnings of delays below 0 for which 0 is taken, of the first bytes of the files of an order; no byte where
/// there are none, and where they aren't told.
pub(crate) fn clamps_for(alloc: Global, order: &Order, files: &[Bytes]) -> Bytes
    requires count { length files.now ≡ length (roles_of order.now.call.command) }
    requires names { length order.now.call.files ≡ length (roles_of order.now.call.command) }
    requires in_range { IsNumberInRange order.now.call.command }
    ensures { AreClampsTold order.now files.now result }
{
    match told_clamps(alloc, order, files) {
        Ok(text) => text,
        Err(_) => Bytes::new(Vec::new(alloc)),
    }
}

/// The warnings of what is taken of the files of an order; no byte where there are none, where they aren't told, and
/// where the files have no answer.
fn warnings_for(alloc: Global, order: &Order, files: &[Bytes]) -> Bytes
    requires count { length files.now ≡ length (roles_of order.now.call.command) }
    requires names { length order.now.call.files ≡ length (roles_of order.now.call.command) }
    ensures { IsWarned order.now files.now result }
{
    match told_warnings(alloc, order, files) {
        Some(text) => text,
        None => Bytes::new(Vec::new(alloc)),
    }
}

/// Two texts, one behind the other.
fn together(alloc: Global, first: &[u8], second: &[u8]) -> Result<Bytes, OutOfMemory>
    ensures { IfOk result (λ text. text ≡ first.now ++ second.now) }
{
    let mut lines = Lines::new(alloc);
    lines.put(first)?;
    lines.put(second)?;
    Ok(Bytes::new(lines.into_bytes()))
}

/// The warnings that are told beside the answer to an order, of what is taken of its files, behind those of delays
/// below 0 in its files as they are.
pub(crate) fn all_warnings(alloc: Global, order: &Order, clamps: Bytes, files: &[Bytes]) -> Bytes
    requires count { length files.now ≡ length (roles_of order.now.call.command) }
    requires names { length order.now.call.files ≡ length (roles_of order.now.call.command) }
    ensures { (fronts : List (List ℕ)) → AreClampsTold order.now fronts clamps →
        AreAllWarned order.now fronts files.now result }
{
    let others = warnings_for(alloc, order, files);
    match together(alloc, clamps.items(), others.items()) {
        Ok(text) => text,
        Err(_) => clamps,
    }
}
