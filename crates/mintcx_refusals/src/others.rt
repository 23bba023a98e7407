//! Other places that a message shows, behind the one at fault.

use crate::cases::Case;
use crate::clocks::{put_through_label, whole_cell};
use crate::files::{name_of, teller};
use crate::labels::put_arc;
use crate::places::fault_of;
use crate::writing::{digits_of, padded, put_times};
use mintc_text::{Lines, OutOfMemory};
use mintcx_finders::{Class, Fault, Places, Unclocked};
use mintcx_places::{Excerpt, Range, excerpt_of, spot_of};
use std::alloc::Global;

/// Writes where a place is.
fn put_spot(
    alloc: Global,
    out: &mut Lines,
    excerpt: &Excerpt,
    name: &[u8],
    margin: usize,
) -> Result<(), OutOfMemory> {
    put_times(out, b' ', margin)?;
    out.put(b"::: ")?;
    out.put(name)?;
    out.put(b":")?;
    out.put(digits_of(alloc, excerpt.spot.line)?.items())?;
    out.put(b":")?;
    out.put(digits_of(alloc, excerpt.spot.column)?.items())?;
    out.put(b"\n")
}

/// Writes the line of a place behind its number.
fn put_line(
    alloc: Global,
    out: &mut Lines,
    excerpt: &Excerpt,
    margin: usize,
) -> Result<(), OutOfMemory> {
    out.put(padded(alloc, margin, excerpt.spot.line)?.items())?;
    out.put(b" | ")?;
    out.put(excerpt.line.items())?;
    out.put(b"\n")
}

/// Writes the marks below a line, and a label behind them.
fn put_marks(
    out: &mut Lines,
    excerpt: &Excerpt,
    margin: usize,
    label: &[u8],
) -> Result<(), OutOfMemory> {
    put_times(out, b' ', margin)?;
    out.put(b" | ")?;
    put_times(out, b' ', excerpt.caret)?;
    put_times(out, b'-', excerpt.marks)?;
    out.put(label)?;
    out.put(b"\n")
}

/// Writes a place of the file.
fn put_other(
    alloc: Global,
    out: &mut Lines,
    case: &Case<'_>,
    margin: usize,
    range: &Range,
    label: &[u8],
) -> Result<(), OutOfMemory> {
    if range.from > case.file.len() {
        return Ok(());
    }
    let excerpt = excerpt_of(alloc, case.file, range)?;
    let name = name_of(case.inputs, teller(case.refusal, case.own));
    put_spot(alloc, out, &excerpt, name, margin)?;
    put_line(alloc, out, &excerpt, margin)?;
    put_marks(out, &excerpt, margin, label)
}

/// How many digits the number of a place's line has.
fn line_width(alloc: Global, file: &[u8], range: &Range) -> Result<usize, OutOfMemory> {
    if range.from > file.len() {
        return Ok(0);
    }
    let digits = digits_of(alloc, spot_of(file, range.from).line)?;
    Ok(digits.items().len())
}

/// How many digits the greatest number of a line of these places has; they stand in the order of their lines, or not.
fn widest(alloc: Global, file: &[u8], places: &Places) -> Result<usize, OutOfMemory> {
    let mut widest = 0usize;
    for place in places {
        if let Some(range) = place {
            widest = widest.max(line_width(alloc, file, range)?);
        }
    }
    Ok(widest)
}

/// How many digits the greatest number of a line of the other places has.
pub(crate) fn others_width(alloc: Global, case: &Case<'_>) -> Result<usize, OutOfMemory> {
    match fault_of(case.place) {
        Some(Fault::Again { earlier, .. } | Fault::Driven { earlier }) => {
            line_width(alloc, case.file, &earlier)
        }
        Some(Fault::Unclocked { unclocked }) => match unclocked.through {
            Some(through) => line_width(alloc, case.file, &through.cell),
            None => Ok(0),
        },
        Some(Fault::Tops { modules }) => widest(alloc, case.file, &modules),
        Some(Fault::Arcs { arcs }) => widest(alloc, case.file, &arcs),
        _ => Ok(0),
    }
}

/// What a name is where it was given first.
fn first_label(class: Class) -> &'static [u8] {
    match class {
        Class::Port | Class::Net => b" declared here first",
        Class::Module | Class::Instance => b" named here first",
    }
}

/// Writes the other modules that may be the top.
fn put_tops(
    alloc: Global,
    out: &mut Lines,
    case: &Case<'_>,
    margin: usize,
    modules: &Places,
) -> Result<(), OutOfMemory> {
    for module in &modules[1..] {
        if let Some(name) = module {
            put_other(alloc, out, case, margin, name, b" nor this")?;
        }
    }
    Ok(())
}

/// Writes the other arcs of a loop.
fn put_arcs(
    alloc: Global,
    out: &mut Lines,
    case: &Case<'_>,
    margin: usize,
    arcs: &Places,
) -> Result<(), OutOfMemory> {
    for arc in &arcs[1..] {
        if let Some(line) = arc {
            let mut label = Lines::new(alloc);
            put_arc(&mut label, case.file, line)?;
            put_other(alloc, out, case, margin, line, &label.into_bytes())?;
        }
    }
    Ok(())
}

/// Writes the cell that a clock comes through.
fn put_through(
    alloc: Global,
    out: &mut Lines,
    case: &Case<'_>,
    margin: usize,
    unclocked: &Unclocked,
) -> Result<(), OutOfMemory> {
    let Some(through) = unclocked.through else {
        return Ok(());
    };
    let mut label = Lines::new(alloc);
    put_through_label(&mut label, case, unclocked, &through)?;
    let range = whole_cell(&through);
    put_other(alloc, out, case, margin, &range, &label.into_bytes())
}

/// Writes the other places that a message shows.
pub(crate) fn put_others(
    alloc: Global,
    out: &mut Lines,
    case: &Case<'_>,
    margin: usize,
) -> Result<(), OutOfMemory> {
    match fault_of(case.place) {
        Some(Fault::Again { class, earlier }) => {
            put_other(alloc, out, case, margin, &earlier, first_label(class))
        }
        Some(Fault::Driven { earlier }) => {
            put_other(alloc, out, case, margin, &earlier, b" driven here first")
        }
        Some(Fault::Unclocked { unclocked }) => put_through(alloc, out, case, margin, &unclocked),
        Some(Fault::Tops { modules }) => put_tops(alloc, out, case, margin, &modules),
        Some(Fault::Arcs { arcs }) => put_arcs(alloc, out, case, margin, &arcs),
        _ => Ok(()),
    }
}
