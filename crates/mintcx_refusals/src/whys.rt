//! Why an input is refused.

use crate::cases::{Case, bad_ending, bytes_at, first_word, is_last};
use crate::clocks::clock_why;
use crate::counts::put_count;
use crate::lists::{put_cells, put_phases, put_way};
use crate::places::fault_of;
use crate::writing::put_number;
use mintc_text::{Bytes, Lines, OutOfMemory, Refusal, Role};
use mintcx_finders::{Class, Fault, Header, bytes_of};
use mintcx_places::spot_of;
use std::alloc::Global;

/// Whether a word begins what says how a circuit behaves.
pub(crate) fn is_behaviour(word: &[u8]) -> bool {
    word == b"always".as_slice()
        || word == b"initial".as_slice()
        || word == b"reg".as_slice()
        || word == b"function".as_slice()
        || word == b"task".as_slice()
        || word == b"generate".as_slice()
        || word == b"specify".as_slice()
}

/// Why a statement isn't structural Verilog, by its first word.
fn statement_why(word: &[u8]) -> &'static [u8] {
    if word == b"inout".as_slice() {
        b"`inout` ports have no direction that data goes in"
    } else if word == b"always".as_slice() {
        b"`always` is behaviour, and a netlist has none"
    } else if word == b"initial".as_slice() {
        b"`initial` is behaviour, and a netlist has none"
    } else if is_behaviour(word) {
        b"it says how the circuit behaves, and a netlist says what it is made of"
    } else if word == b"parameter".as_slice() || word == b"localparam".as_slice() {
        b"a netlist has no parameters"
    } else {
        b""
    }
}

/// The form of a line of a table, by its first word.
fn table_form(file: &[u8], word: &[u8]) -> &'static [u8] {
    if word == b"element".as_slice() && file.starts_with(b"table 1\n") {
        b"the form is `element NAME PHASE SETUP HOLD DQMIN DQMAX WIDTH`"
    } else if word == b"element".as_slice() && file.starts_with(b"table 2\n") {
        b"the form is `element NAME PHASE KIND SETUP HOLD DQMIN DQMAX WIDTH`"
    } else if word == b"element".as_slice() {
        b"the form is `element NAME PHASE KIND SETUP HOLD DQMIN DQMAX CQMIN CQMAX WIDTH`"
    } else if word == b"phase".as_slice() {
        b"the form is `phase NAME`"
    } else if word == b"arc".as_slice() {
        b"the form is `arc FROM TO MIN MAX`"
    } else if word == b"bound".as_slice() {
        b"the form is `bound FROM TO GAP CYCLES`"
    } else {
        b"its parts are phases, elements, inner bits, arcs, bounds and `end`, in this order"
    }
}

/// Why a name stands for one thing alone.
fn class_why(case: &Case<'_>) -> &'static [u8] {
    match fault_of(case.place) {
        Some(
            Fault::Again {
                class: Class::Module,
                ..
            },
        ) => b"each module has its own name",
        Some(
            Fault::Again {
                class: Class::Port,
                ..
            },
        ) => b"a port has one declaration in its module",
        Some(
            Fault::Again {
                class: Class::Net,
                ..
            },
        ) => b"a net has one declaration in its module",
        Some(
            Fault::Again {
                class: Class::Instance,
                ..
            },
        ) => b"in its module each instance has its own name",
        _ => b"in its module a net and a port have one declaration, and each instance its own name",
    }
}

/// Why a line is out of form.
fn line_why(case: &Case<'_>, role: Role) -> &'static [u8] {
    let ending = bad_ending(case.file, case.place);
    if !ending.is_empty() {
        return ending;
    }
    match role {
        Role::Table => table_form(case.file, first_word(case.file, case.place)),
        Role::Schedule if bytes_at(case.file, case.place).contains(&b'.') => {
            b"times are whole numbers over `den`"
        }
        Role::Schedule => {
            b"the lines are `schedule 1`, `den D`, `cycle C`, `phases K`, K times `phase START WIDTH` and `end`"
        }
        _ => b"",
    }
}

/// Why a text is out of form.
fn syntax_why(case: &Case<'_>, role: Role) -> &'static [u8] {
    match role {
        Role::Netlist if is_last(case.place) => b"",
        Role::Netlist => statement_why(first_word(case.file, case.place)),
        Role::Table | Role::Schedule | Role::Certificate if !is_last(case.place) => {
            line_why(case, role)
        }
        _ => b"",
    }
}

/// Why an input is refused, where that needs no more than words; nothing where the first line says it all.
fn plain_why(case: &Case<'_>) -> &'static [u8] {
    match case.refusal {
        Refusal::Syntax { role, .. } => syntax_why(case, *role),
        Refusal::NameTwice { .. } => class_why(case),
        Refusal::Recursive { .. } => b"modules that hold each other have no end",
        Refusal::TwoDrivers { .. } => {
            b"a bit has one driver: an input port, an assign or one output"
        }
        Refusal::Negative { .. } => {
            b"static timing tools write them where tables are read beyond their ends, mostly at long nets"
        }
        Refusal::BadCell { rule: 6, .. } => b"times of descriptions are whole femtoseconds",
        Refusal::BadClock { rule: 3, .. } => b"each phase has a `name` and a `port`",
        Refusal::NoPhase { .. } => clock_why(case),
        Refusal::Corner { .. } => b"each corner has to be a design by itself",
        _ => b"",
    }
}

/// Writes at what paths of the delays are cut.
fn put_divider(out: &mut Lines, header: &Header) -> Result<(), OutOfMemory> {
    out.put(b"paths are cut at `")?;
    out.put(&[header.divider])?;
    if !header.is_divided {
        return out.put(b"`, as no DIVIDER says another");
    }
    out.put(b"`, as (DIVIDER ")?;
    out.put(&[header.divider])?;
    out.put(b") says")
}

/// What numbers are called in a unit. None of a unit without a name.
fn unit_name(scale: u64) -> &'static [u8] {
    match scale {
        1 => b"femtoseconds",
        1_000 => b"picoseconds",
        1_000_000 => b"nanoseconds",
        1_000_000_000 => b"microseconds",
        _ => b"",
    }
}

/// Writes in what unit the numbers of the delays are.
fn put_unit(alloc: Global, out: &mut Lines, scale: u64) -> Result<(), OutOfMemory> {
    let name = unit_name(scale);
    if !name.is_empty() {
        return out.put(name);
    }
    out.put(b"units of ")?;
    put_count(alloc, out, scale)?;
    out.put(b" fs")
}

/// Writes what makes a number of the delays as large as it is.
fn put_scale(
    alloc: Global,
    out: &mut Lines,
    file: &[u8],
    header: &Header,
) -> Result<(), OutOfMemory> {
    match header.timescale {
        Some(range) if range.from <= file.len() => {
            out.put(bytes_of(file, &range))?;
            out.put(b" on line ")?;
            put_number(out, spot_of(file, range.from).line as u64)?;
            out.put(b" makes it ")?;
        }
        _ => out.put(b"without a TIMESCALE it is ")?,
    }
    put_unit(alloc, out, header.scale)
}

/// Writes why an input is refused.
fn put_why(alloc: Global, out: &mut Lines, case: &Case<'_>) -> Result<(), OutOfMemory> {
    match (case.refusal, fault_of(case.place)) {
        (Refusal::NoInstance { .. }, Some(Fault::Instance { header })) => put_divider(out, &header),
        (Refusal::Range { .. }, Some(Fault::Number { header, .. })) => {
            put_scale(alloc, out, case.file, &header)
        }
        (Refusal::PathRange { .. }, Some(Fault::Long { way })) => put_way(alloc, out, case, &way),
        (Refusal::NoModule { .. }, _) => put_cells(alloc, out, case),
        (Refusal::PhaseMismatch { .. }, _) => put_phases(alloc, out, case),
        _ => out.put(plain_why(case)),
    }
}

/// Why an input is refused; nothing where the first line says it all.
pub(crate) fn why_of(alloc: Global, case: &Case<'_>) -> Result<Bytes, OutOfMemory> {
    let mut lines = Lines::new(alloc);
    put_why(alloc, &mut lines, case)?;
    Ok(Bytes::new(lines.into_bytes()))
}
