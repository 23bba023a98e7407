//! What a refusal is, in a line.

use crate::cases::{Case, first_word, is_last, marked_name, text_name};
use crate::clocks::put_unclocked;
use crate::counts::{put_count, put_many};
use crate::descriptions::put_description;
use crate::details::put_named;
use crate::files::name_of;
use crate::places::fault_of;
use crate::writing::put_number;
use mintc_text::limits::{
    MOST_ARCS, MOST_BOUNDS, MOST_DEPTH, MOST_ELEMENTS, MOST_INNER, MOST_LEAVES, MOST_PAIRS,
    MOST_PHASES, MOST_SCOPES, MOST_SLACK, MOST_TOLD,
};
use mintc_text::{Bytes, Kind, Lines, OutOfMemory, Refusal, Role};
use mintcx_finders::{Class, Fault, MOST_PLACES, Places, bytes_of, name_of as name_of_range};
use std::alloc::Global;

/// Writes what a text is that is out of form, or ends too soon.
fn put_syntax(out: &mut Lines, role: Role, is_last: bool) -> Result<(), OutOfMemory> {
    match role {
        Role::Netlist if is_last => out.put(b"the netlist ends inside of a module"),
        Role::Netlist => out.put(b"this statement isn't structural Verilog"),
        Role::Delays if is_last => out.put(b"the delays don't end behind their last entry"),
        Role::Delays => out.put(b"this part of the delays isn't read"),
        Role::Cells if is_last => out.put(b"the library doesn't end behind its last statement"),
        Role::Cells => out.put(b"this statement of the library is out of form"),
        Role::Clock | Role::Schedule | Role::Certificate | Role::Table if is_last => {
            out.put(b"the ")?;
            out.put(text_name(role))?;
            out.put(b" ends too soon")
        }
        Role::Clock | Role::Schedule | Role::Certificate | Role::Table => {
            out.put(b"this line of the ")?;
            out.put(text_name(role))?;
            out.put(b" is out of form")
        }
    }
}

/// Writes a name in backquotes behind words, and other words where there is none.
fn put_quoted(out: &mut Lines, before: &[u8], name: &[u8], none: &[u8]) -> Result<(), OutOfMemory> {
    if name.is_empty() {
        return out.put(none);
    }
    out.put(before)?;
    out.put(b" `")?;
    out.put(name)?;
    out.put(b"`")
}

/// Writes that a name is given twice.
fn put_twice(out: &mut Lines, case: &Case<'_>) -> Result<(), OutOfMemory> {
    let Some(Fault::Again { class, earlier }) = fault_of(case.place) else {
        return out.put(b"this statement gives a name a second time");
    };
    out.put(b"`")?;
    out.put(name_of_range(case.file, &earlier))?;
    match class {
        Class::Module => out.put(b"` names two modules"),
        Class::Port | Class::Net => out.put(b"` is declared twice"),
        Class::Instance => out.put(b"` names two instances"),
    }
}

/// Writes that a bit is driven twice.
fn put_driven(out: &mut Lines, case: &Case<'_>) -> Result<(), OutOfMemory> {
    let Some(Fault::Driven { earlier }) = fault_of(case.place) else {
        return out.put(b"this statement drives a bit that has a driver already");
    };
    out.put(b"`")?;
    out.put(name_of_range(case.file, &earlier))?;
    out.put(b"` has two drivers")
}

/// Writes the names of modules, `..` behind them where there are more than those that are found.
fn put_modules(
    out: &mut Lines,
    file: &[u8],
    modules: &Places,
    count: u32,
) -> Result<(), OutOfMemory> {
    let mut before: &[u8] = b": `";
    for module in modules {
        if let Some(name) = module {
            out.put(before)?;
            out.put(name_of_range(file, name))?;
            out.put(b"`")?;
            before = b", `";
        }
    }
    if count as usize > MOST_PLACES {
        out.put(b", ..")?;
    }
    Ok(())
}

/// Writes how many modules may be the top, and which.
fn put_tops(
    alloc: Global,
    out: &mut Lines,
    case: &Case<'_>,
    count: u32,
) -> Result<(), OutOfMemory> {
    put_many(alloc, out, u64::from(count), b"module", b"modules")?;
    out.put(b" may be the top")?;
    match fault_of(case.place) {
        Some(Fault::Tops { modules }) => put_modules(out, case.file, &modules, count),
        _ => Ok(()),
    }
}

/// The name of the module that has itself inside; none where it isn't found.
fn ring_name<'a>(case: &Case<'a>) -> &'a [u8] {
    match fault_of(case.place) {
        Some(Fault::Ring { module, .. }) => name_of_range(case.file, &module),
        _ => b"",
    }
}

/// Writes that a module doesn't have a port, or a cell a pin.
fn put_no_port(out: &mut Lines, case: &Case<'_>) -> Result<(), OutOfMemory> {
    match fault_of(case.place) {
        Some(Fault::NoPort { module, .. }) => {
            put_named(out, b"module", name_of_range(case.file, &module))?;
            put_named(out, b" has no port", marked_name(case))
        }
        Some(Fault::NoPin { cell }) => {
            put_named(out, b"cell", name_of_range(case.file, &cell))?;
            put_named(out, b" has no pin", marked_name(case))
        }
        _ => out.put(b"this statement names a pin or port that isn't there"),
    }
}

/// Writes that a path takes too long, and from where to where it leads.
fn put_long(out: &mut Lines, case: &Case<'_>) -> Result<(), OutOfMemory> {
    out.put(b"a path")?;
    if let Some(Fault::Long { way }) = fault_of(case.place) {
        if let Some(first) = way.names[0] {
            put_named(out, b" from", bytes_of(case.file, &first))?;
            put_named(out, b" to", bytes_of(case.file, &way.last))?;
        }
    }
    out.put(b" takes more than 1 us")
}

/// Writes that what is connected is wider or narrower than its port.
fn put_width(alloc: Global, out: &mut Lines, case: &Case<'_>) -> Result<(), OutOfMemory> {
    let Some(Fault::Width { port, bits, wanted }) = fault_of(case.place) else {
        return out.put(b"the widths in this statement don't fit");
    };
    put_many(alloc, out, bits, b"bit is", b"bits are")?;
    put_named(out, b" connected to port", name_of_range(case.file, &port))?;
    out.put(b", which has ")?;
    put_count(alloc, out, wanted)
}

/// Writes which pins a cell doesn't have.
fn put_pins(out: &mut Lines, case: &Case<'_>) -> Result<(), OutOfMemory> {
    let Some(
        Fault::Pins {
            cell,
            first,
            last,
            ..
        },
    ) = fault_of(case.place)
    else {
        return out.put(b"the delays speak of pins that their cell doesn't have");
    };
    put_named(out, b"cell", bytes_of(case.file, &cell))?;
    let Some(last) = last else {
        return put_named(out, b" has no input", bytes_of(case.file, &first));
    };
    put_named(out, b" has no way from", bytes_of(case.file, &first))?;
    put_named(out, b" to", bytes_of(case.file, &last))
}

/// What is wrong with a statement.
fn put_statement(out: &mut Lines, case: &Case<'_>) -> Result<(), OutOfMemory> {
    let word = first_word(case.file, case.place);
    match case.refusal {
        Refusal::NoModule { .. } => put_quoted(
            out,
            b"there is no cell or module",
            word,
            b"the cell of an instance is neither described nor a module",
        ),
        Refusal::Recursive { .. } => {
            put_quoted(out, b"module", ring_name(case), b"a module")?;
            out.put(b" has itself inside")
        }
        Refusal::NameTwice { .. } => put_twice(out, case),
        Refusal::NoPin { .. } => put_no_port(out, case),
        _ => put_driven(out, case),
    }
}

/// What things of a kind are called.
fn kind_name(kind: Kind) -> &'static [u8] {
    match kind {
        Kind::Scopes => b"instances of modules",
        Kind::Depth => b"modules inside of one another",
        Kind::Leaves => b"instances of cells",
        Kind::Inner => b"inner bits",
        Kind::Phases => b"phases",
        Kind::Elements => b"latches, flops and listed ports",
        Kind::Arcs => b"arcs",
        Kind::Bounds => b"bounds",
        Kind::Pairs => b"pairs of elements that paths join",
    }
}

/// How many things of a kind are taken. Where there are no more elements than runs take, it is a run for slacks, which
/// takes fewer.
fn most_of(kind: Kind, count: u64) -> usize {
    match kind {
        Kind::Scopes => MOST_SCOPES,
        Kind::Depth => MOST_DEPTH,
        Kind::Leaves => MOST_LEAVES,
        Kind::Inner => MOST_INNER,
        Kind::Phases => MOST_PHASES,
        Kind::Elements if count <= MOST_ELEMENTS as u64 => MOST_SLACK,
        Kind::Elements => MOST_ELEMENTS,
        Kind::Arcs => MOST_ARCS,
        Kind::Bounds => MOST_BOUNDS,
        Kind::Pairs => MOST_PAIRS,
    }
}

/// Writes that there are more things of a kind than are taken.
fn put_limit(alloc: Global, out: &mut Lines, kind: Kind, count: u64) -> Result<(), OutOfMemory> {
    out.put(b"the design has ")?;
    put_count(alloc, out, count)?;
    if count >= MOST_TOLD {
        out.put(b" or more")?;
    }
    out.put(b" ")?;
    out.put(kind_name(kind))?;
    out.put(b", and at most ")?;
    put_count(alloc, out, most_of(kind, count) as u64)?;
    out.put(b" are taken")
}

/// Writes what is wrong with the design, counted.
fn put_counted(alloc: Global, out: &mut Lines, case: &Case<'_>) -> Result<(), OutOfMemory> {
    match case.refusal {
        Refusal::TopUnclear { count: 0 } => out.put(b"no module may be the top"),
        Refusal::TopUnclear { count } => put_tops(alloc, out, case, *count),
        Refusal::CombinationalLoop { arcs } => {
            out.put(b"data can run round without a latch or flop, through ")?;
            put_many(alloc, out, arcs.items().len() as u64, b"arc", b"arcs")
        }
        Refusal::PhaseMismatch { design, schedule } => {
            out.put(b"the design has ")?;
            put_many(alloc, out, u64::from(*design), b"phase", b"phases")?;
            out.put(b", the schedule ")?;
            put_number(out, u64::from(*schedule))
        }
        Refusal::Limit { kind, count } => put_limit(alloc, out, *kind, *count),
        _ => put_long(out, case),
    }
}

/// Writes which corner is refused.
fn put_corner(out: &mut Lines, case: &Case<'_>, file: u32) -> Result<(), OutOfMemory> {
    out.put(b"corner ")?;
    put_number(out, u64::from(file))?;
    let name = name_of(case.inputs, case.refusal);
    if !name.is_empty() {
        out.put(b", ")?;
        out.put(name)?;
        out.put(b",")?;
    }
    out.put(b" is refused")
}

/// Whether a text ends too soon, and not within an entry or before the first.
fn has_ended(case: &Case<'_>) -> bool {
    is_last(case.place)
        && fault_of(case.place).is_none()
        && !matches!(
            case.refusal,
            Refusal::Syntax {
                role: Role::Delays,
                entry: 0 | 1
            }
        )
}

/// What a refusal is, in a line.
pub(crate) fn what_of(alloc: Global, case: &Case<'_>) -> Result<Bytes, OutOfMemory> {
    let mut lines = Lines::new(alloc);
    let out = &mut lines;
    match case.refusal {
        Refusal::Syntax { role, .. } => put_syntax(out, *role, has_ended(case))?,
        Refusal::TooLong { .. } => {
            out.put(name_of(case.inputs, case.refusal))?;
            out.put(b" has more bytes than are read")?;
        }
        Refusal::NameTwice { .. }
        | Refusal::NoModule { .. }
        | Refusal::Recursive { .. }
        | Refusal::NoPin { .. }
        | Refusal::TwoDrivers { .. } => put_statement(out, case)?,
        Refusal::Width { .. } => put_width(alloc, out, case)?,
        Refusal::BadCell { .. } | Refusal::BadClock { .. } | Refusal::NoInstance { .. } => {
            put_description(alloc, out, case)?
        }
        Refusal::NoArc { .. } => put_pins(out, case)?,
        Refusal::Negative { .. } => out.put(b"a delay below 0")?,
        Refusal::Range { .. } => out.put(b"a number above 1 us")?,
        Refusal::NoPhase { .. } => put_unclocked(out, case)?,
        Refusal::TopUnclear { .. }
        | Refusal::CombinationalLoop { .. }
        | Refusal::Limit { .. }
        | Refusal::PhaseMismatch { .. }
        | Refusal::PathRange { .. } => put_counted(alloc, out, case)?,
        Refusal::Corner { file } => put_corner(out, case, *file)?,
    }
    Ok(Bytes::new(lines.into_bytes()))
}
