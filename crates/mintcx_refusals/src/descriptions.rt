//! What is wrong with a description, and with an instance that the delays speak of.

use crate::cases::{Case, marked};
use crate::details::put_named;
use crate::files::named;
use crate::lists::end_of_path;
use crate::places::fault_of;
use crate::writing::put_number;
use mintc_sdf_tokens::names;
use mintc_text::{Lines, OutOfMemory, Refusal, Role};
use mintcx_finders::{Fault, Item, Wrong, bytes_of, free_port};
use mintcx_places::Range;
use std::alloc::Global;

/// Which rule a cell fails.
fn cell_rule(rule: u32) -> &'static [u8] {
    match rule {
        0 => b" is no TOML",
        1 => b" has something else than cells",
        2 => b": a cell has no kind, or a name that is none",
        3 => b": a cell has a key that its kind doesn't have",
        4 => b": pins of a cell are missing or out of form",
        5 => b": a cell has a pin twice",
        6 => b": a number of a cell is no whole number, or out of its limit",
        7 => b": a max of a cell is below its min",
        8 => b": `active`, `edge` or `invert` of a cell is none of its values",
        _ =>
            b": `positive` or `negative` of a cell is no list of names, names no pin, or names a pair of pins twice",
    }
}

/// Which rule a clock fails that is about no item.
fn clock_rule(rule: u32) -> &'static [u8] {
    match rule {
        0 => b" is no TOML",
        1 => b" has something else than `top`, phases, bounds, inputs and outputs",
        _ => b" has no phase",
    }
}

/// What items are called that a rule is about.
fn item_name(rule: u32) -> &'static [u8] {
    match rule {
        3 | 4 => b"phase ",
        5 => b"bound ",
        6 => b"input ",
        _ => b"output ",
    }
}

/// Which rule an item of a clock fails.
fn item_rule(rule: u32) -> &'static [u8] {
    match rule {
        4 => b" has the name of an earlier one, or its port and level",
        5 => b" lacks a key, has one that isn't in form, or names no phase",
        _ => b" lacks a key, has another, or one isn't in form",
    }
}

/// Which rule a cell fails whose name is said.
fn own_rule(rule: u32) -> &'static [u8] {
    match rule {
        2 => b": no kind, or a name that is none",
        3 => b": a key that its kind doesn't have",
        4 => b": pins are missing or out of form",
        5 => b": a pin comes twice",
        6 => b": a number is no whole number, or out of its limit",
        7 => b": a max is below its min",
        8 => b": `active`, `edge` or `invert` is none of its values",
        _ =>
            b": `positive` or `negative` is no list of names, names no pin, or names a pair of pins twice",
    }
}

/// Writes what is wrong with a cell of a name.
fn put_cell(
    out: &mut Lines,
    case: &Case<'_>,
    name: &Range,
    wrong: &Wrong,
    rule: u32,
) -> Result<(), OutOfMemory> {
    put_named(out, b"cell", bytes_of(case.file, name))?;
    match wrong {
        Wrong::NoWhole { key } => {
            out.put(b": ")?;
            out.put(bytes_of(case.file, key))?;
            out.put(b" is no whole number")
        }
        Wrong::Extra => put_named(out, b": its kind has no key", marked(case)),
        Wrong::Whole | Wrong::Missing { .. } | Wrong::NoPhase { .. } => out.put(own_rule(rule)),
    }
}

/// Writes what is wrong with a cell description.
fn put_cells(out: &mut Lines, case: &Case<'_>, rule: u32) -> Result<(), OutOfMemory> {
    if let Some(
        Fault::Item {
            cell: Some(name),
            wrong,
        },
    ) = fault_of(case.place)
    {
        return put_cell(out, case, &name, &wrong, rule);
    }
    out.put(named(case.inputs, Role::Cells, b"the description"))?;
    out.put(cell_rule(rule))
}

/// Writes what is wrong with an item of a clock description.
fn put_clock_item(
    out: &mut Lines,
    case: &Case<'_>,
    entry: u32,
    rule: u32,
) -> Result<(), OutOfMemory> {
    out.put(item_name(rule))?;
    put_number(out, u64::from(entry))?;
    match fault_of(case.place) {
        Some(
            Fault::Item {
                wrong: Wrong::Missing { key },
                ..
            },
        ) => put_named(out, b" has no", key),
        Some(
            Fault::Item {
                wrong: Wrong::Extra,
                ..
            },
        ) => put_named(out, b" has a key that it can't have:", marked(case)),
        Some(
            Fault::Item {
                wrong: Wrong::NoWhole { key },
                ..
            },
        ) => {
            out.put(b": ")?;
            out.put(bytes_of(case.file, &key))?;
            out.put(b" is no whole number")
        }
        Some(
            Fault::Item {
                wrong: Wrong::NoPhase { .. },
                ..
            },
        ) => put_named(out, b" names no phase", marked(case)),
        _ => out.put(item_rule(rule)),
    }
}

/// Writes which port the top doesn't have.
fn put_port(out: &mut Lines, case: &Case<'_>) -> Result<(), OutOfMemory> {
    let Some(Fault::Port { item, name }) = fault_of(case.place) else {
        return out.put(b"the clock description names a port that the top doesn't have");
    };
    let before: &[u8] = match item {
        Item::Output => b"the top has no output port",
        Item::Input => b"the top has no input port",
        Item::Phase | Item::Bound => b"the top has no input port bit",
    };
    put_named(out, before, bytes_of(case.file, &name))
}

/// Whether one of the names of a path is that of no instance.
fn is_missing(
    alloc: Global,
    case: &Case<'_>,
    path: &[u8],
    divider: u8,
) -> Result<bool, OutOfMemory> {
    let parts = names(alloc, path, divider)?;
    match end_of_path(alloc, case, path, divider)? {
        Some(end) => Ok(end.known < parts.items().len()),
        None => Ok(false),
    }
}

/// Writes which instance isn't there that the delays speak of.
fn put_instance(alloc: Global, out: &mut Lines, case: &Case<'_>) -> Result<(), OutOfMemory> {
    let Some(Fault::Instance { header }) = fault_of(case.place) else {
        return out.put(b"the delays speak of an instance that isn't there");
    };
    let path = marked(case);
    put_named(out, b"the delays speak of", path)?;
    if is_missing(alloc, case, path, header.divider)? {
        out.put(b", and there is no such instance")
    } else {
        out.put(b", and there is no such cell")
    }
}

/// Writes what is wrong with a description, or which instance isn't there.
pub(crate) fn put_description(
    alloc: Global,
    out: &mut Lines,
    case: &Case<'_>,
) -> Result<(), OutOfMemory> {
    match case.refusal {
        Refusal::BadCell { rule, .. } => put_cells(out, case, *rule),
        Refusal::BadClock { entry, rule } if *rule > 2 => put_clock_item(out, case, *entry, *rule),
        Refusal::BadClock { rule, .. } => {
            out.put(named(case.inputs, Role::Clock, b"the clock description"))?;
            out.put(clock_rule(*rule))
        }
        Refusal::NoInstance {
            role: Role::Clock,
            ..
        } => put_port(out, case),
        _ => put_instance(alloc, out, case),
    }
}

/// The item that a rule of clock descriptions is about.
fn item_of(rule: u32) -> Item {
    match rule {
        6 => Item::Input,
        7 => Item::Output,
        _ => Item::Phase,
    }
}

/// The port that a key stands for which an item of the clock description lacks, where only one is left.
fn port_wanted<'a>(
    alloc: Global,
    case: &Case<'a>,
    key: &[u8],
) -> Result<Option<&'a [u8]>, OutOfMemory> {
    match case.refusal {
        Refusal::BadClock { rule, .. } if key == b"port".as_slice() => {
            free_port(alloc, case.inputs.beside, case.file, item_of(*rule))
        }
        _ => Ok(None),
    }
}

/// Writes what helps with a key that is missing.
fn put_missing_help(
    alloc: Global,
    out: &mut Lines,
    case: &Case<'_>,
    key: &[u8],
) -> Result<(), OutOfMemory> {
    out.put(b"add `")?;
    out.put(key)?;
    match port_wanted(alloc, case, key)? {
        Some(port) => {
            out.put(b" = \"")?;
            out.put(port)?;
            out.put(b"\"`")
        }
        None => out.put(b" = ..`"),
    }
}

/// What helps with a key that the kind of an item doesn't have.
fn extra_help(key: &[u8]) -> &'static [u8] {
    if key == b"positive".as_slice() || key == b"negative".as_slice() {
        b"take the key out; of a gate, latch or flop it is read with `--edges apart`"
    } else {
        b"take the key out, or mend its spelling"
    }
}

/// Writes what helps with a value that is no whole number.
fn put_whole_help(out: &mut Lines, key: &[u8]) -> Result<(), OutOfMemory> {
    if key == b"cycles".as_slice() {
        return out.put(b"`cycles` is 0 or 1");
    }
    out.put(b"10 ps is `")?;
    out.put(key)?;
    out.put(b" = 10_000`")
}

/// What helps with a key of a description that is found to be at fault. Nothing where none is.
pub(crate) fn put_key_help(
    alloc: Global,
    out: &mut Lines,
    case: &Case<'_>,
) -> Result<(), OutOfMemory> {
    match fault_of(case.place) {
        Some(
            Fault::Item {
                wrong: Wrong::NoWhole { key },
                ..
            },
        ) => put_whole_help(out, bytes_of(case.file, &key)),
        Some(
            Fault::Item {
                wrong: Wrong::Missing { key },
                ..
            },
        ) => put_missing_help(alloc, out, case, key),
        Some(
            Fault::Item {
                wrong: Wrong::NoPhase { .. },
                ..
            },
        ) => out.put(b"mend the name"),
        Some(
            Fault::Item {
                wrong: Wrong::Extra,
                ..
            },
        ) => out.put(extra_help(marked(case))),
        Some(Fault::OpenQuote) => out.put(b"close the quote"),
        _ => Ok(()),
    }
}
