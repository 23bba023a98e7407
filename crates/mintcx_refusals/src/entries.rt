//! Which entry of its file a refusal speaks of, where its place isn't shown whole.

use crate::cases::{Case, is_last};
use crate::details::put_named;
use crate::places::fault_of;
use crate::writing::put_number;
use mintc_text::{Bytes, Lines, OutOfMemory, Refusal, Role};
use mintcx_finders::{Fault, bytes_of};
use std::alloc::Global;

/// How the entries of delays are counted.
const DELAYS: &[u8] = b"; entries are counted from 1, headers and cells alike";

/// How the statements of a netlist are counted.
const NETLIST: &[u8] = b"; statements are counted from 1, `endmodule` alike";

/// Writes what is counted, and how: words, a number, words.
fn put_counted(
    out: &mut Lines,
    before: &[u8],
    number: u32,
    behind: &[u8],
) -> Result<(), OutOfMemory> {
    out.put(before)?;
    put_number(out, u64::from(number))?;
    out.put(behind)
}

/// Writes which entry of a text is out of form, or which one is missing.
fn put_syntax(
    out: &mut Lines,
    role: Role,
    entry: u32,
    is_missing: bool,
) -> Result<(), OutOfMemory> {
    match role {
        Role::Netlist if is_missing => put_counted(out, b"statement ", entry, b" is missing"),
        Role::Netlist => put_counted(out, b"it is statement ", entry, NETLIST),
        Role::Delays if entry == 0 => out.put(b"it doesn't begin as delays do"),
        Role::Delays => put_counted(out, b"it is entry ", entry, DELAYS),
        Role::Cells if entry == 0 => out.put(b"it doesn't begin as a library does"),
        Role::Cells => put_counted(out, b"it is statement ", entry, b" directly in the library"),
        _ if is_missing => put_counted(out, b"line ", entry, b" is missing"),
        _ => put_counted(out, b"it is line ", entry, b""),
    }
}

/// Writes which item of a description or of the design it is.
fn put_item(out: &mut Lines, refusal: &Refusal) -> Result<(), OutOfMemory> {
    match refusal {
        Refusal::NoInstance { entry, .. } => put_counted(
            out,
            b"it is item ",
            *entry,
            b" of phases, inputs and outputs, counted together",
        ),
        Refusal::BadCell { entry, .. } if *entry > 0 => {
            put_counted(out, b"it is cell ", *entry, b" in the order of their names")
        }
        Refusal::NoPhase { element } => put_counted(
            out,
            b"it is latch or flop ",
            *element,
            b", counted from 0 as they stand in the hierarchy",
        ),
        Refusal::PathRange { element, bit } => {
            put_counted(out, b"it leads from element ", *element, b" to bit ")?;
            put_counted(out, b"", *bit, b", both counted from 0")
        }
        _ => Ok(()),
    }
}

/// Writes of what the statement directly in a library is that holds the one at fault.
fn put_holder(out: &mut Lines, case: &Case<'_>) -> Result<(), OutOfMemory> {
    match fault_of(case.place) {
        Some(
            Fault::Broken {
                holder: Some(name),
                ..
            },
        ) => {
            put_named(out, b", a", bytes_of(case.file, &name))?;
            out.put(b" that holds it")
        }
        _ => Ok(()),
    }
}

/// Writes which entry it is.
fn put_entry(out: &mut Lines, case: &Case<'_>) -> Result<(), OutOfMemory> {
    match case.own {
        Refusal::Syntax { role, entry } => {
            put_syntax(out, *role, *entry, is_last(case.place))?;
            put_holder(out, case)
        }
        Refusal::NoInstance {
            role: Role::Delays,
            entry,
        }
        | Refusal::NoArc { entry }
        | Refusal::Negative { entry }
        | Refusal::Range { entry } => put_counted(out, b"it is entry ", *entry, DELAYS),
        Refusal::NameTwice { entry }
        | Refusal::NoModule { entry }
        | Refusal::Recursive { entry }
        | Refusal::NoPin { entry }
        | Refusal::Width { entry }
        | Refusal::TwoDrivers { entry } => put_counted(out, b"it is statement ", *entry, NETLIST),
        _ => put_item(out, case.own),
    }
}

/// Whether no more than the first line of a place is shown: of an entry of the delays or a statement of the library.
fn is_begun(refusal: &Refusal) -> bool {
    matches!(
        refusal,
        Refusal::Syntax {
            role: Role::Delays | Role::Cells,
            ..
        } | Refusal::NoInstance {
            role: Role::Delays,
            ..
        } | Refusal::NoArc { .. }
            | Refusal::Negative { .. }
            | Refusal::Range { .. }
    )
}

/// Whether the entry isn't told, as a place in it is shown that says enough.
fn is_shown(case: &Case<'_>) -> bool {
    match fault_of(case.place) {
        Some(Fault::Keyword | Fault::Broken { .. }) | None => false,
        Some(_) => true,
    }
}

/// Which entry of its file a refusal speaks of, or which one is missing; nothing where its place is shown whole, or a
/// place in it.
pub(crate) fn entry_of(alloc: Global, case: &Case<'_>) -> Result<Bytes, OutOfMemory> {
    let mut lines = Lines::new(alloc);
    let is_whole = case.place.is_some() && !is_last(case.place) && !is_begun(case.own);
    if !is_whole && !is_shown(case) {
        put_entry(&mut lines, case)?;
    }
    Ok(Bytes::new(lines.into_bytes()))
}
