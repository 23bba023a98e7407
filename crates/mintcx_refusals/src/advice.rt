//! What helps with an input that is refused.

use crate::cases::{Case, bad_ending, bytes_at, first_word, is_last, marked};
use crate::clocks::put_clock_help;
use crate::descriptions::put_key_help;
use crate::entries::entry_of;
use crate::files::named;
use crate::others::put_others;
use crate::places::{Place, fault_of};
use crate::whys::{is_behaviour, why_of};
use crate::writing::put_times;
use mintc_sdf_tokens::is_key;
use mintc_text::limits::MOST_BYTES;
use mintc_text::{Bytes, Kind, Lines, OutOfMemory, Refusal, Role};
use mintcx_clamp::clamp;
use mintcx_finders::{Fault, Item, Lack, name_of};
use std::alloc::Global;

/// What helps with a statement, by its first word.
fn statement_help(word: &[u8]) -> &'static [u8] {
    if word == b"inout".as_slice() {
        b"leave pads out of what is timed, or declare it `input` or `output`"
    } else if is_behaviour(word) {
        b"map it to cells first (Yosys: synth; dfflibmap; techmap; abc)"
    } else {
        b"write modules of ports, wires, assigns and instances alone (Yosys: write_verilog -noexpr)"
    }
}

/// Whether a least number is found to be above its greatest.
fn is_above(case: &Case<'_>) -> bool {
    matches!(fault_of(case.place), Some(Fault::Above { .. }))
}

/// What helps with a line that is out of form, or with a file that ends too soon.
fn line_help(case: &Case<'_>, role: Role) -> &'static [u8] {
    match role {
        Role::Certificate =>
            b"write the certificate anew, with `mintcx optimise --certificate FILE`",
        _ if is_last(case.place) => b"complete the file",
        _ if is_above(case) => b"make the least number at most the greatest",
        _ if !bad_ending(case.file, case.place).is_empty() => {
            b"save the file with a line feed behind each line, and no other mark"
        }
        Role::Schedule if bytes_at(case.file, case.place).contains(&b'.') => {
            b"write `den 2` and double each number, or take whole femtoseconds"
        }
        _ => b"mend this line, or what counts the lines before it",
    }
}

/// What helps with delays that are out of form, by the keyword that is marked.
fn delays_help(keyword: &[u8]) -> &'static [u8] {
    if is_key(keyword, b"INCREMENT") {
        b"have the tool write sums, under ABSOLUTE"
    } else if is_key(keyword, b"NETDELAY") {
        b"have the tool write an INTERCONNECT for each end of the net"
    } else if is_key(keyword, b"DEVICE") {
        b"have the tool write an IOPATH for each pair of pins"
    } else if is_key(keyword, b"RETAIN") {
        b"leave it out, or write its numbers as one more value of the IOPATH"
    } else {
        b"have the tool write ABSOLUTE delays and timing checks alone"
    }
}

/// What helps with delays that are out of form, from an entry on.
fn entry_help(case: &Case<'_>, entry: u32) -> &'static [u8] {
    if entry == 0 {
        return b"look whether it is an SDF file, unpacked";
    }
    match fault_of(case.place) {
        Some(Fault::Unclosed) => b"close it, or have the tool write the file again",
        _ => delays_help(marked(case)),
    }
}

/// What helps with a library that is out of form, from a statement on.
fn library_help(case: &Case<'_>, entry: u32) -> &'static [u8] {
    if entry == 0 {
        return b"look whether it is a Liberty file, unpacked";
    }
    match fault_of(case.place) {
        Some(
            Fault::Broken {
                lack: Lack::Brace,
                ..
            },
        ) => b"close it with `}`, or fetch the library again",
        _ if is_last(case.place) => b"close the library with `}`, or fetch it again",
        _ => b"end it with `;`, or fetch the library again",
    }
}

/// What helps with a text that is out of form.
fn syntax_help(case: &Case<'_>, role: Role, entry: u32) -> &'static [u8] {
    match role {
        Role::Netlist if is_last(case.place) => b"close the module, or fetch the file again",
        Role::Netlist => statement_help(first_word(case.file, case.place)),
        Role::Delays => entry_help(case, entry),
        Role::Cells => library_help(case, entry),
        Role::Clock => b"mend it",
        Role::Table | Role::Schedule | Role::Certificate => line_help(case, role),
    }
}

/// What helps with a cell, by the rule that it fails.
fn cell_help(rule: u32) -> &'static [u8] {
    match rule {
        0 => b"look for a key twice, a quote that is left open, a byte that is no UTF-8",
        1 => b"write each cell as `[cell.NAME]`",
        2 => b"write `kind = \"gate\"`, `\"latch\"`, `\"flop\"` or `\"clock\"`",
        3 => b"take the key out, or mend its spelling",
        4 =>
            b"a gate has `inputs` and `outputs`, a latch `d`, `g` and `outputs`, a flop `d`, `clock` and `outputs`",
        5 => b"give each pin its own name",
        6 => b"10 ps is `setup = 10_000`",
        7 => b"make each min at most its max",
        8 =>
            b"write `\"high\"` or `\"low\"`, `\"rising\"` or `\"falling\"`, `true` or `false` without quotes",
        _ =>
            b"a gate's items are `\"A\"` or `\"A Y\"`, those of a latch or flop its outputs; name each pair once",
    }
}

/// What helps with a clock, by the rule that it fails.
fn clock_help(rule: u32) -> &'static [u8] {
    match rule {
        0 => b"look for a key twice, a quote that is left open, a byte that is no UTF-8",
        1 => b"write each phase as `[[phase]]`, with two brackets",
        2 => b"write one `[[phase]]` at least",
        3 => b"write its `name` and its `port`; `level` is \"high\" or \"low\"",
        4 => b"the two phases of one port differ in `level`",
        5 => b"a point is `origin`, `start NAME` or `end NAME`; `cycles` is 0 or 1",
        6 => b"write its `port` and its `phase`; `min` is at most `max`",
        _ => b"write its `port` and its `phase`; an output has `setup` and `hold`",
    }
}

/// What helps with a port that the top doesn't have.
fn port_help(case: &Case<'_>) -> &'static [u8] {
    match fault_of(case.place) {
        Some(
            Fault::Port {
                item: Item::Phase,
                ..
            },
        ) => b"name a port of the top, one bit of an input",
        Some(
            Fault::Port {
                item: Item::Input,
                ..
            },
        ) => b"name an input port of the top",
        Some(
            Fault::Port {
                item: Item::Output,
                ..
            },
        ) => b"name an output port of the top",
        _ => b"name a port of the top; a phase is on one bit of an input",
    }
}

/// Whether it is a module of the netlist that doesn't have a port.
fn is_of_module(case: &Case<'_>) -> bool {
    matches!(fault_of(case.place), Some(Fault::NoPort { .. }))
}

/// What helps, where that needs no name of a file.
fn help_of(case: &Case<'_>) -> &'static [u8] {
    match case.refusal {
        Refusal::Syntax { role, entry } => syntax_help(case, *role, *entry),
        Refusal::TooLong { role: Role::Delays } => {
            b"split the design, or leave out what isn't timed (`grep -v INTERCONNECT`, where all are 0)"
        }
        Refusal::TooLong { .. } => b"split the design, or leave out what it doesn't use",
        Refusal::NameTwice { .. } => b"take one of them out, or rename it",
        Refusal::Recursive { .. } => b"take the instance out",
        Refusal::NoPin { .. } if is_of_module(case) => {
            b"mend the name, or add the port to the module"
        }
        Refusal::NoPin { .. } => {
            b"mend the name, or list the pin under `ignored` of a latch, flop or clock cell"
        }
        Refusal::Width { .. } => b"make both sides as wide",
        Refusal::TwoDrivers { .. } => b"leave one",
        Refusal::NoInstance {
            role: Role::Clock,
            ..
        } => port_help(case),
        Refusal::NoInstance { .. } => {
            b"write the SDF of this very netlist; look at DIVIDER, and at names with backslashes"
        }
        Refusal::BadCell { rule, .. } => cell_help(*rule),
        Refusal::BadClock { rule, .. } => clock_help(*rule),
        Refusal::CombinationalLoop { .. } => b"break the loop, or put the missing latch into it",
        Refusal::Range { .. } => {
            b"mend the unit: a microsecond between two latches is mostly a mistake"
        }
        Refusal::PhaseMismatch { .. } => {
            b"write a line `phase START WIDTH` for each, in this order"
        }
        Refusal::PathRange { .. } => b"look at the units of the delays on the way",
        Refusal::Corner { .. } => b"mend that file",
        _ => b"",
    }
}

/// What helps where a limit is on what stands twice in a design with edges apart.
fn edges_help(refusal: &Refusal) -> &'static [u8] {
    match refusal {
        Refusal::Limit {
            kind: Kind::Inner | Kind::Elements | Kind::Arcs,
            ..
        } => b"; with edges apart `--edges merged` takes half",
        _ => b"",
    }
}

/// Writes how a design is judged in parts.
fn put_parts_help(out: &mut Lines, case: &Case<'_>) -> Result<(), OutOfMemory> {
    out.put(b"judge the design in parts")?;
    let clock = named(case.inputs, Role::Clock, b"");
    if clock.is_empty() {
        return Ok(());
    }
    out.put(b": name a smaller `top` in ")?;
    out.put(clock)?;
    out.put(edges_help(case.refusal))
}

/// The name of a module that may be the top, or what stands for one.
fn top_name<'a>(case: &Case<'a>) -> &'a [u8] {
    match case.place {
        Some(
            Place {
                fault: Some(Fault::Tops { .. }),
                mark,
                ..
            },
        ) => name_of(case.file, &mark),
        _ => b"NAME",
    }
}

/// Whether `--clamp-negative` takes delays, which are refused for a number below 0.
fn is_clamped(alloc: Global, file: &[u8]) -> Result<bool, OutOfMemory> {
    Ok(file.len() <= MOST_BYTES && clamp(alloc, file)?.is_some())
}

/// Writes what helps with a delay below 0. Where the option would take the delays it wasn't given.
fn put_negative_help(alloc: Global, out: &mut Lines, case: &Case<'_>) -> Result<(), OutOfMemory> {
    out.put(b"buffer the net; or ")?;
    out.put(if case.place.is_none() || is_clamped(alloc, case.file)? {
        b"`--clamp-negative`, which takes 0 for it: safe for setups, not for holds"
    } else {
        b"write 0 for it, since `--clamp-negative` leaves values with blanks beside their colons"
    })
}

/// Writes what helps, where that names a file or looks into one.
fn put_naming_help(alloc: Global, out: &mut Lines, case: &Case<'_>) -> Result<(), OutOfMemory> {
    match case.refusal {
        Refusal::NoModule { .. } => {
            out.put(b"describe it in ")?;
            out.put(named(case.inputs, Role::Cells, b"the cells"))?;
            out.put(b", give the library with --lib, or add its module")
        }
        Refusal::TopUnclear { .. } => {
            out.put(b"name one: `top = \"")?;
            out.put(top_name(case))?;
            out.put(b"\"` in ")?;
            out.put(named(case.inputs, Role::Clock, b"the clock description"))
        }
        Refusal::NoArc { .. } => {
            out.put(b"mend the pins; for a latch or flop look at its entry in ")?;
            out.put(named(case.inputs, Role::Cells, b"the cells"))
        }
        Refusal::NoPhase { .. } => put_clock_help(out, case),
        Refusal::Negative { .. } => put_negative_help(alloc, out, case),
        _ => put_parts_help(out, case),
    }
}

/// Writes a line of advice, if there is any.
fn put_advice(out: &mut Lines, margin: usize, key: &[u8], text: &[u8]) -> Result<(), OutOfMemory> {
    if text.is_empty() {
        return Ok(());
    }
    put_times(out, b' ', margin)?;
    out.put(key)?;
    out.put(text)?;
    out.put(b"\n")
}

/// What helps, also where that names a file.
pub(crate) fn whole_help(alloc: Global, case: &Case<'_>) -> Result<Bytes, OutOfMemory> {
    let mut lines = Lines::new(alloc);
    put_key_help(alloc, &mut lines, case)?;
    let found = Bytes::new(lines.into_bytes());
    if !found.items().is_empty() {
        return Ok(found);
    }
    let mut lines = Lines::new(alloc);
    let help = help_of(case);
    if help.is_empty() {
        put_naming_help(alloc, &mut lines, case)?;
    } else {
        lines.put(help)?;
    }
    Ok(Bytes::new(lines.into_bytes()))
}

/// Other places, the lines that say why an input is refused and what helps, and the blanks before the line behind them.
pub(crate) fn advice_of(
    alloc: Global,
    case: &Case<'_>,
    margin: usize,
) -> Result<Bytes, OutOfMemory> {
    let entry = entry_of(alloc, case)?;
    let why = why_of(alloc, case)?;
    let help = whole_help(alloc, case)?;
    let mut lines = Lines::new(alloc);
    put_others(alloc, &mut lines, case, margin)?;
    put_advice(&mut lines, margin, b" = why: ", entry.items())?;
    put_advice(&mut lines, margin, b" = why: ", why.items())?;
    put_advice(&mut lines, margin, b" = help: ", help.items())?;
    put_times(&mut lines, b' ', margin)?;
    lines.put(b" ")?;
    Ok(Bytes::new(lines.into_bytes()))
}
