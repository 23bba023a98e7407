//! What the keys of a table say of its cell: whether they are fit, and the senses.
ghost use Rattle.std.specs.Prelude.{◌≡◌, ◌++◌, ◌∷◌, [], ◌&&◌, map, IfOk, OnOk, MatchOption, true, false};
ghost use Rattle.std.specs.List.{list_any, list_all};
ghost use Rattle.toml.specs.View.{view, table_view};
ghost use Rattle.mintc_cells.specs.Rules.{inputs_of, outputs_of};
ghost use Rattle.mintc_senses.specs.Seen.{rows_seen};
ghost use Rattle.mintcx_sense_keys.specs.Senses.{names_pair, names_some, is_named_once, are_named_once};
ghost use Rattle.mintcx_sense_keys.specs.Senses.{are_few, are_fit, has_lists, keys_of, is_fit, pair_sense};
ghost use Rattle.mintcx_sense_keys.specs.Senses.{cell_senses, keeps_nine, senses_said};

use crate::naming::{self, Keys, MOST_PAIRS};
use mintc_cells::Cell;
use mintc_senses_expressions::Transitions;
use mintc_text::{Name, Names, OutOfMemory};
use mintc_toml::{are_names, names};
use std::alloc::Global;
use toml::{Table, Value};

/// Adds some names to others.
fn push_all<'a>(found: &mut Vec<&'a Name>, names: &'a [Name]) -> Result<(), OutOfMemory>
    ensures { OnOk result (map (λ n. n.now) found.new.items ≡ map (λ n. n.now) found.old.items ++ names.now) }
{
    for name in names {
        found.push(name)?;
    }
    Ok(())
}

/// Two pins and some more.
fn with_control<'a>(
    alloc: Global,
    data_pin: &'a Name,
    control: &'a Name,
    ignored: &'a Names,
) -> Result<Vec<&'a Name>, OutOfMemory>
    ensures { IfOk result (λ v. map (λ n. n.now) v.items ≡ data_pin.now ∷ control.now ∷ ignored.now) }
{
    let mut found = Vec::new(alloc);
    found.push(data_pin)?;
    found.push(control)?;
    push_all(&mut found, ignored.items())?;
    Ok(found)
}

/// A pin and some more.
fn with_input<'a>(
    alloc: Global,
    input: &'a Name,
    ignored: &'a Names,
) -> Result<Vec<&'a Name>, OutOfMemory>
    ensures { IfOk result (λ v. map (λ n. n.now) v.items ≡ input.now ∷ ignored.now) }
{
    let mut found = Vec::new(alloc);
    found.push(input)?;
    push_all(&mut found, ignored.items())?;
    Ok(found)
}

/// The pins of a gate that are no outputs.
fn all_of<'a>(alloc: Global, inputs: &'a Names) -> Result<Vec<&'a Name>, OutOfMemory>
    ensures { IfOk result (λ v. map (λ n. n.now) v.items ≡ inputs.now) }
{
    let mut found = Vec::new(alloc);
    push_all(&mut found, inputs.items())?;
    Ok(found)
}

/// The pins of a cell that are no outputs.
fn inputs(alloc: Global, cell: &Cell) -> Result<Vec<&Name>, OutOfMemory>
    ensures { IfOk result (λ v. map (λ n. n.now) v.items ≡ inputs_of cell.now) }
{
    match cell {
        Cell::Gate { inputs, .. } => all_of(alloc, inputs),
        Cell::Latch {
            pin_d,
            pin_g,
            ignored,
            ..
        } => with_control(alloc, pin_d, pin_g, ignored),
        Cell::Flop {
            pin_d,
            pin_clock,
            ignored,
            ..
        } => with_control(alloc, pin_d, pin_clock, ignored),
        Cell::Clock { input, ignored, .. } => with_input(alloc, input, ignored),
    }
}

/// The outputs of a cell.
fn outputs(cell: &Cell) -> &[Name]
    ensures { result.now ≡ outputs_of cell.now }
{
    match cell {
        Cell::Gate { outputs, .. } | Cell::Latch { outputs, .. } | Cell::Flop { outputs, .. } => {
            outputs.items()
        }
        Cell::Clock { output, .. } => std::slice::from_ref(output),
    }
}

/// Whether an item names one of some pins with an output.
fn names_input(cell: &Cell, inputs: &[&Name], output: &Name, item: &Name) -> bool
    ensures { result ≡ list_any (λ a. names_pair cell.now a output.now item.now) (map (λ n. n.now) inputs.now) }
{
    for input in inputs {
        if naming::names_pair(cell, *input, output, item) {
            return true;
        }
    }
    false
}

/// Whether an item names a pair of a cell, whose pins these are.
fn names_some(cell: &Cell, inputs: &[&Name], item: &Name) -> bool
    requires { map (λ n. n.now) inputs.now ≡ inputs_of cell.now }
    ensures { result ≡ names_some cell.now item.now }
{
    let outputs = outputs(cell);
    for output in outputs {
        if names_input(cell, inputs, output, item) {
            return true;
        }
    }
    false
}

/// Whether all items name a pair of a cell, whose pins these are.
fn all_name_some(cell: &Cell, inputs: &[&Name], items: &[Name]) -> bool
    requires { map (λ n. n.now) inputs.now ≡ inputs_of cell.now }
    ensures { result ≡ list_all (names_some cell.now) items.now }
{
    for item in items {
        if !names_some(cell, inputs, item) {
            return false;
        }
    }
    true
}

/// Whether each pair of some pins with an output is named once at most.
fn are_named_once_at(keys: &Keys, cell: &Cell, inputs: &[&Name], output: &Name) -> bool
    ensures { result ≡ list_all (λ a. is_named_once keys.now cell.now a output.now) (map (λ n. n.now) inputs.now) }
{
    for input in inputs {
        if !naming::is_named_once(keys, cell, *input, output) {
            return false;
        }
    }
    true
}

/// Whether each pair of a cell, whose pins these are, is named once at most.
fn are_named_once(keys: &Keys, cell: &Cell, inputs: &[&Name]) -> bool
    requires { map (λ n. n.now) inputs.now ≡ inputs_of cell.now }
    ensures { result ≡ are_named_once keys.now cell.now }
{
    let outputs = outputs(cell);
    for output in outputs {
        if !are_named_once_at(keys, cell, inputs, output) {
            return false;
        }
    }
    true
}

/// Whether there are as many items as a gate may have pairs at most.
fn are_few(keys: &Keys) -> bool
    ensures { result ≡ are_few keys.now }
{
    let positive = keys.positive.items().len();
    positive <= MOST_PAIRS && keys.negative.items().len() <= MOST_PAIRS - positive
}

/// Whether each item names a pair of a cell, whose pins these are, and no pair is named twice.
fn are_fit(keys: &Keys, cell: &Cell, inputs: &[&Name]) -> bool
    requires { map (λ n. n.now) inputs.now ≡ inputs_of cell.now }
    ensures { result ≡ are_fit keys.now cell.now }
{
    (are_few(keys)
        && (all_name_some(cell, inputs, keys.positive.items())
            && all_name_some(cell, inputs, keys.negative.items())))
        && are_named_once(keys, cell, inputs)
}

/// The senses of some pins for an output.
fn row(
    alloc: Global,
    keys: &Keys,
    cell: &Cell,
    inputs: &[&Name],
    output: &Name,
) -> Result<Vec<Transitions>, OutOfMemory>
    ensures { IfOk result (λ r. r.items
        ≡ map (λ a. pair_sense keys.now cell.now a output.now) (map (λ n. n.now) inputs.now)) }
{
    let mut row = Vec::with_capacity(alloc, inputs.len())?;
    for input in inputs {
        row.push(naming::pair_sense(keys, cell, *input, output))?;
    }
    Ok(row)
}

/// Adds the row of an output.
fn push_row(rows: &mut Vec<Vec<Transitions>>, row: Vec<Transitions>) -> Result<(), OutOfMemory>
    ensures { OnOk result (rows.new.items ≡ rows.old.items ++ row ∷ []) }
{
    Ok(rows.push(row)?)
}

/// The senses of a cell, whose pins these are.
fn rows(
    alloc: Global,
    keys: &Keys,
    cell: &Cell,
    inputs: &[&Name],
) -> Result<Vec<Vec<Transitions>>, OutOfMemory>
    requires { map (λ n. n.now) inputs.now ≡ inputs_of cell.now }
    ensures { IfOk result (λ r. rows_seen r.items ≡ cell_senses keys.now cell.now) }
{
    let mut rows = Vec::new(alloc);
    let outputs = outputs(cell);
    for output in outputs {
        let next = row(alloc, keys, cell, inputs, output)?;
        push_row(&mut rows, next)?;
    }
    Ok(rows)
}

/// The senses that keys say of a cell, where they are fit.
fn fit_rows(
    alloc: Global,
    keys: &Keys,
    cell: &Cell,
) -> Result<Option<Vec<Vec<Transitions>>>, OutOfMemory>
    ensures { IfOk result (λ o. MatchOption o (are_fit keys.now cell.now ≡ false)
        (λ r. (are_fit keys.now cell.now ≡ true) × (rows_seen r.items ≡ cell_senses keys.now cell.now))) }
{
    let inputs = inputs(alloc, cell)?;
    if !are_fit(keys, cell, inputs.as_slice()) {
        return Ok(None);
    }
    Ok(Some(rows(alloc, keys, cell, inputs.as_slice())?))
}

/// The items of the keys of a table.
fn keys_of(alloc: Global, table: &Table) -> Result<Keys, OutOfMemory>
    ensures { IfOk result (λ k. k ≡ keys_of (table_view table.now)) }
{
    let positive = names(alloc, table, "positive")?;
    let negative = names(alloc, table, "negative")?;
    Ok(Keys { positive, negative })
}

/// Whether the keys of a table are lists of texts, or absent.
fn has_lists(table: &Table) -> bool
    ensures { result ≡ has_lists (table_view table.now) }
{
    are_names(table, "positive", true) && are_names(table, "negative", true)
}

/// The senses that a table says of its cell, where it keeps rule 9.
fn table_rows(
    alloc: Global,
    table: &Table,
    cell: &Cell,
) -> Result<Option<Vec<Vec<Transitions>>>, OutOfMemory>
    ensures { IfOk result (λ o. MatchOption o (is_fit (table_view table.now) cell.now ≡ false)
        (λ r. (is_fit (table_view table.now) cell.now ≡ true)
        × (rows_seen r.items ≡ cell_senses (keys_of (table_view table.now)) cell.now))) }
{
    if !has_lists(table) {
        return Ok(None);
    }
    let keys = keys_of(alloc, table)?;
    fit_rows(alloc, &keys, cell)
}

/// The senses that an entry says of its cell, where it keeps rule 9.
pub(crate) fn entry_rows(
    alloc: Global,
    value: &Value,
    cell: &Cell,
) -> Result<Option<Vec<Vec<Transitions>>>, OutOfMemory>
    ensures { IfOk result (λ o. MatchOption o (keeps_nine (view value.now, cell.now) ≡ false)
        (λ r. (keeps_nine (view value.now, cell.now) ≡ true)
        × (rows_seen r.items ≡ senses_said (view value.now, cell.now)))) }
{
    match value.as_table() {
        Some(table) => table_rows(alloc, table, cell),
        None => table_rows(alloc, &Table::new(alloc), cell),
    }
}
