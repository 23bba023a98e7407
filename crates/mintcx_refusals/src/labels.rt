//! What stands behind the marks.

use crate::cases::{Case, is_last};
use crate::clocks::put_clock_label;
use crate::counts::{put_count, put_many};
use crate::details::{put_named, put_names, put_path};
use crate::lists::{put_path_end, put_pins, put_ports_of_top, put_ways};
use mintc_text::{Bytes, Lines, OutOfMemory, Refusal, Role};
use mintcx_finders::{
    Class, Fault, Header, Lack, MOST_PLACES, Number, Places, Side, Way, Wrong, arc_ends, bytes_of,
    name_of,
};
use mintcx_places::Range;
use std::alloc::Global;

/// What a name is that is given again.
pub(crate) fn again_label(class: Class) -> &'static [u8] {
    match class {
        Class::Port | Class::Net => b" declared again",
        Class::Module | Class::Instance => b" named again",
    }
}

/// Writes the modules that hold one another, from one to itself.
fn put_ring(
    out: &mut Lines,
    file: &[u8],
    module: &Range,
    cell: &Range,
    way: Way,
) -> Result<(), OutOfMemory> {
    out.put(b" ")?;
    out.put(name_of(file, module))?;
    if way != Way::Straight {
        out.put(b" -> ")?;
        out.put(name_of(file, cell))?;
    }
    if way == Way::Far {
        out.put(b" -> ..")?;
    }
    out.put(b" -> ")?;
    out.put(name_of(file, module))
}

/// Writes from where to where an arc leads, by its line.
pub(crate) fn put_arc(out: &mut Lines, file: &[u8], line: &Range) -> Result<(), OutOfMemory> {
    let Some((from, to)) = arc_ends(file, line) else {
        return Ok(());
    };
    out.put(b" ")?;
    out.put(bytes_of(file, &from))?;
    out.put(b" -> ")?;
    out.put(bytes_of(file, &to))
}

/// Writes which ports there are.
fn put_ports(
    out: &mut Lines,
    file: &[u8],
    ports: &Places,
    count: usize,
) -> Result<(), OutOfMemory> {
    if count == 0 {
        return out.put(b" it has none");
    }
    out.put(b" not one of ")?;
    put_names(out, file, ports)?;
    if count > MOST_PLACES {
        out.put(b", ..")?;
    }
    Ok(())
}

/// Writes at which instance something is, behind words.
fn put_instance(
    alloc: Global,
    out: &mut Lines,
    file: &[u8],
    before: &[u8],
    instance: Option<Range>,
    header: &Header,
) -> Result<(), OutOfMemory> {
    let Some(path) = instance else {
        return Ok(());
    };
    out.put(before)?;
    out.put(b" `")?;
    put_path(alloc, out, bytes_of(file, &path), header.divider)?;
    out.put(b"`")
}

/// Writes a number in femtoseconds.
fn put_femtoseconds(alloc: Global, out: &mut Lines, number: &Number) -> Result<(), OutOfMemory> {
    let Some(femtoseconds) = number.femtoseconds else {
        return Ok(());
    };
    out.put(if number.is_negative { b" -" } else { b" " })?;
    put_count(alloc, out, femtoseconds)?;
    out.put(b" fs")
}

/// What a value is that is no whole number.
fn value_label(value: &[u8]) -> &'static [u8] {
    if value.starts_with(b"\"") || value.starts_with(b"'") {
        b" a string"
    } else if value.contains(&b'.') {
        b" a number with a point"
    } else {
        b" no whole number"
    }
}

/// Writes what is wrong with an item of a description.
fn put_wrong(out: &mut Lines, file: &[u8], mark: &Range, wrong: &Wrong) -> Result<(), OutOfMemory> {
    match wrong {
        Wrong::Whole | Wrong::Missing { .. } | Wrong::Extra => Ok(()),
        Wrong::NoWhole { .. } => out.put(value_label(bytes_of(file, mark))),
        Wrong::NoPhase { phases } => {
            out.put(if phases[1].is_some() {
                b" the phases are "
            } else {
                b" the phase is "
            })?;
            put_names(out, file, phases)
        }
    }
}

/// What a statement of a library lacks.
fn lack_label(lack: Lack) -> &'static [u8] {
    match lack {
        Lack::Semicolon => b" no `;` ends it",
        Lack::Brace => b" no `}` ends it",
        Lack::Form => b"",
    }
}

/// What stands before the instance that a number is at.
fn number_before(number: &Number, instance: Option<Range>) -> &'static [u8] {
    if number.femtoseconds.is_some() && instance.is_some() {
        b", at"
    } else {
        b" at"
    }
}

/// What stands between an instance, where one is said, and what is said of it.
fn behind_instance(instance: Option<Range>) -> &'static [u8] {
    if instance.is_some() { b", " } else { b" " }
}

/// Writes at which instance pins are that the delays speak of, and which its cell has: from which to which it leads, or
/// its inputs.
fn put_other_pins(
    alloc: Global,
    out: &mut Lines,
    case: &Case<'_>,
    cell: &Range,
    is_way: bool,
    instance: Option<Range>,
) -> Result<(), OutOfMemory> {
    let cell = bytes_of(case.file, cell);
    let before = behind_instance(instance);
    if is_way {
        put_ways(alloc, out, case, before, cell)
    } else {
        put_pins(alloc, out, case, before, cell, Side::Inputs)
    }
}

/// Writes what is found to be at fault in delays.
fn put_delays_fault(
    alloc: Global,
    out: &mut Lines,
    case: &Case<'_>,
    mark: &Range,
    fault: &Fault,
) -> Result<(), OutOfMemory> {
    match fault {
        Fault::Unclosed => out.put(b" this isn't closed"),
        Fault::Keyword => {
            out.put(b" `")?;
            out.put(bytes_of(case.file, mark))?;
            out.put(b"` is outside of the profile")
        }
        Fault::Instance { header } => {
            let path = bytes_of(case.file, mark);
            put_path_end(alloc, out, case, path, header.divider)
        }
        Fault::Pins {
            cell,
            last,
            instance,
            header,
            ..
        } => {
            put_instance(alloc, out, case.file, b" of", *instance, header)?;
            put_other_pins(alloc, out, case, cell, last.is_some(), *instance)
        }
        Fault::Number {
            number,
            instance,
            header,
        } => {
            put_femtoseconds(alloc, out, number)?;
            let before = number_before(number, *instance);
            put_instance(alloc, out, case.file, before, *instance, header)
        }
        _ => Ok(()),
    }
}

/// Writes what is found to be at fault in delays, descriptions or libraries.
fn put_entry_fault(
    alloc: Global,
    out: &mut Lines,
    case: &Case<'_>,
    mark: &Range,
    fault: &Fault,
) -> Result<(), OutOfMemory> {
    match fault {
        Fault::OpenQuote => out.put(b" a quote is left open"),
        Fault::Item { wrong, .. } => put_wrong(out, case.file, mark, wrong),
        Fault::Port { item, .. } => put_ports_of_top(alloc, out, case, *item),
        Fault::Broken { lack, .. } => out.put(lack_label(*lack)),
        _ => put_delays_fault(alloc, out, case, mark, fault),
    }
}

/// Writes what is found to be at fault in a line or a statement.
fn put_fault(
    alloc: Global,
    out: &mut Lines,
    case: &Case<'_>,
    mark: &Range,
    fault: &Fault,
) -> Result<(), OutOfMemory> {
    let file = case.file;
    match fault {
        Fault::NoNumber => out.put(b" no whole number"),
        Fault::Above { least, greatest } => {
            out.put(b" ")?;
            out.put(bytes_of(file, least))?;
            out.put(b" is above ")?;
            out.put(bytes_of(file, greatest))
        }
        Fault::Again { class, .. } => out.put(again_label(*class)),
        Fault::Cell { module } => put_named(out, b" in module", name_of(file, module)),
        Fault::Ring { module, way } => put_ring(out, file, module, mark, *way),
        Fault::Driven { .. } => out.put(b" driven again"),
        Fault::Tops { .. } => out.put(b" nothing instantiates it"),
        Fault::Arcs { .. } => put_arc(out, file, mark),
        Fault::Unclocked { unclocked } => put_clock_label(out, case, unclocked),
        Fault::Long { .. } => out.put(b" here it passes 1,000,000,000 fs"),
        Fault::NoPort { ports, count, .. } => put_ports(out, file, ports, *count),
        Fault::NoPin { cell } => {
            put_pins(alloc, out, case, b" ", name_of(file, cell), Side::All)
        }
        Fault::Width { bits, .. } => {
            out.put(b" ")?;
            put_many(alloc, out, *bits, b"bit", b"bits")
        }
        _ => put_entry_fault(alloc, out, case, mark, fault),
    }
}

/// What stands behind the marks of a whole place.
fn whole_label(case: &Case<'_>) -> &'static [u8] {
    match case.refusal {
        Refusal::Syntax {
            role: Role::Netlist,
            ..
        } if is_last(case.place) => b" the last statement; `endmodule` has to follow",
        Refusal::Syntax {
            role: Role::Delays,
            entry: 0 | 1,
        } if is_last(case.place) => b"",
        Refusal::Syntax {
            role: Role::Delays,
            ..
        } if is_last(case.place) => b" the last entry; `)` alone has to follow",
        Refusal::Syntax {
            role: Role::Cells,
            ..
        } if is_last(case.place) => b" the last statement; `}` alone has to follow",
        Refusal::Syntax { .. } if is_last(case.place) => b" the last line; `end` has to follow",
        Refusal::TwoDrivers { .. } => b" driven again",
        _ => b"",
    }
}

/// Writes what stands behind the marks.
fn put_label(alloc: Global, out: &mut Lines, case: &Case<'_>) -> Result<(), OutOfMemory> {
    let Some(place) = case.place else {
        return Ok(());
    };
    match place.fault {
        Some(fault) => put_fault(alloc, out, case, &place.mark, &fault),
        None => out.put(whole_label(case)),
    }
}

/// What stands behind the marks.
pub(crate) fn label_of(alloc: Global, case: &Case<'_>) -> Result<Bytes, OutOfMemory> {
    let mut lines = Lines::new(alloc);
    put_label(alloc, &mut lines, case)?;
    Ok(Bytes::new(lines.into_bytes()))
}
