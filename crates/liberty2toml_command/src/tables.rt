//! The TOML form of cells.
ghost use Rattle.std.specs.Prelude.{◌≡◌, IfOk, OnOk, false};
ghost use Rattle.toml.specs.Data.{string, array, table, integer};
ghost use Rattle.toml.specs.View.{view, table_view};
ghost use Rattle.mintc_cells.specs.CellsOf.{AreCells};
ghost use Rattle.mintc_cells.specs.Entries.{AreOrdered};
ghost use Rattle.liberty2toml_command.specs.Tables.{text_items, texts, one_of, table_of, tables_of, document_of};
ghost use Rattle.liberty2toml_command.specs.Puts.{put_member, put_if, kind_of, put_pins, put_lists, put_sense};
ghost use Rattle.liberty2toml_command.specs.Puts.{put_delays, put_checks};

use mintc_cells::{Cell, Cells};
use mintc_text::{Name, Names, OutOfMemory};
use std::alloc::Global;
use toml::{Table, Value};

/// A text as a value. Bytes that are no text have none; names are.
fn text_value(alloc: Global, bytes: &[u8]) -> Result<Value, OutOfMemory>
    ensures { IfOk result (λ v. view v ≡ string bytes.now) }
{
    let Ok(text) = str::from_utf8(bytes) else {
        return Err(OutOfMemory);
    };
    Ok(Value::string(alloc, text)?)
}

/// Texts as a value.
fn texts_value(alloc: Global, names: &[Name]) -> Result<Value, OutOfMemory>
    ensures { IfOk result (λ v. view v ≡ array (text_items names.now)) }
{
    let mut items = Vec::new(alloc);
    for at in 0..names.len() {
        let value = text_value(alloc, names[at].bytes())?;
        items.push(value)?;
    }
    Ok(Value::Array(items))
}

/// Puts a value under a key.
fn put(alloc: Global, members: &mut Table, key: &str, value: Value) -> Result<(), OutOfMemory>
    ensures { OnOk result (table_view members.new ≡ put_member key.now (view value) (table_view members.old)) }
{
    let key = String::from_str(alloc, key)?;
    members.insert(key, value)?;
    Ok(())
}

/// Puts a text under a key.
fn put_text(alloc: Global, members: &mut Table, key: &str, text: &[u8]) -> Result<(), OutOfMemory>
    ensures { OnOk result (table_view members.new ≡ put_member key.now (string text.now) (table_view members.old)) }
{
    put(alloc, members, key, text_value(alloc, text)?)
}

/// Puts texts under a key.
fn put_texts(
    alloc: Global,
    members: &mut Table,
    key: &str,
    names: &Names,
) -> Result<(), OutOfMemory>
    ensures { OnOk result (table_view members.new ≡ put_member key.now (texts names.now) (table_view members.old)) }
{
    put(alloc, members, key, texts_value(alloc, names.items())?)
}

/// Puts a number under a key.
fn put_number(alloc: Global, members: &mut Table, key: &str, number: i64) -> Result<(), OutOfMemory>
    ensures { OnOk result (table_view members.new ≡ put_member key.now (integer number) (table_view members.old)) }
{
    put(alloc, members, key, Value::Integer(number))
}

/// Puts a number under a key, if it is there.
fn put_if(
    alloc: Global,
    members: &mut Table,
    present: bool,
    key: &str,
    number: i64,
) -> Result<(), OutOfMemory>
    ensures { OnOk result (table_view members.new ≡ put_if present key.now (integer number) (table_view members.old)) }
{
    if present {
        put_number(alloc, members, key, number)
    } else {
        Ok(())
    }
}

/// The word for a cell's kind.
fn kind_of(cell: &Cell) -> &'static str
    ensures { result.now ≡ kind_of cell.now }
{
    match cell {
        Cell::Gate { .. } => "gate",
        Cell::Latch { .. } => "latch",
        Cell::Flop { .. } => "flop",
        Cell::Clock { .. } => "clock",
    }
}

/// Puts the pins that have a key of their own.
fn put_pins(alloc: Global, members: &mut Table, cell: &Cell) -> Result<(), OutOfMemory>
    ensures { OnOk result (table_view members.new ≡ put_pins cell.now (table_view members.old)) }
{
    match cell {
        Cell::Gate { .. } => Ok(()),
        Cell::Latch { pin_d, pin_g, .. } => {
            put_text(alloc, members, "d", pin_d.bytes())?;
            put_text(alloc, members, "g", pin_g.bytes())
        }
        Cell::Flop {
            pin_d,
            pin_clock,
            ..
        } => {
            put_text(alloc, members, "d", pin_d.bytes())?;
            put_text(alloc, members, "clock", pin_clock.bytes())
        }
        Cell::Clock { input, output, .. } => {
            put_text(alloc, members, "input", input.bytes())?;
            put_text(alloc, members, "output", output.bytes())
        }
    }
}

/// Puts the lists of pins.
fn put_lists(alloc: Global, members: &mut Table, cell: &Cell) -> Result<(), OutOfMemory>
    ensures { OnOk result (table_view members.new ≡ put_lists cell.now (table_view members.old)) }
{
    match cell {
        Cell::Gate {
            inputs,
            outputs,
            ..
        } => {
            put_texts(alloc, members, "inputs", inputs)?;
            put_texts(alloc, members, "outputs", outputs)
        }
        Cell::Latch {
            outputs,
            ignored,
            ..
        }
        | Cell::Flop {
            outputs,
            ignored,
            ..
        } => {
            put_texts(alloc, members, "outputs", outputs)?;
            put_texts(alloc, members, "ignored", ignored)
        }
        Cell::Clock { ignored, .. } => put_texts(alloc, members, "ignored", ignored),
    }
}

/// The first of two texts, or the second.
fn one_of(is_first: bool, first: &'static str, second: &'static str) -> &'static str
    ensures { string result.now ≡ one_of is_first first.now second.now }
{
    if is_first { first } else { second }
}

/// Puts the level, the edge, or whether the clock is inverted.
fn put_sense(alloc: Global, members: &mut Table, cell: &Cell) -> Result<(), OutOfMemory>
    ensures { OnOk result (table_view members.new ≡ put_sense cell.now (table_view members.old)) }
{
    match cell {
        Cell::Gate { .. } => Ok(()),
        Cell::Latch { high, .. } => {
            let level = one_of(*high, "high", "low");
            put_text(alloc, members, "active", level.as_bytes())
        }
        Cell::Flop { rising, .. } => {
            let edge = one_of(*rising, "rising", "falling");
            put_text(alloc, members, "edge", edge.as_bytes())
        }
        Cell::Clock { invert, .. } => put(alloc, members, "invert", Value::Boolean(*invert)),
    }
}

/// Puts the delays.
fn put_delays(alloc: Global, members: &mut Table, cell: &Cell) -> Result<(), OutOfMemory>
    ensures { OnOk result (table_view members.new ≡ put_delays cell.now (table_view members.old)) }
{
    match cell {
        Cell::Gate { min, max, .. } => {
            put_number(alloc, members, "min", *min)?;
            put_number(alloc, members, "max", *max)
        }
        Cell::Latch {
            dq_min,
            dq_max,
            cq_min,
            cq_max,
            has_cq,
            ..
        } => {
            put_number(alloc, members, "dq_min", *dq_min)?;
            put_number(alloc, members, "dq_max", *dq_max)?;
            put_if(alloc, members, *has_cq, "cq_min", *cq_min)?;
            put_if(alloc, members, *has_cq, "cq_max", *cq_max)
        }
        Cell::Flop { cq_min, cq_max, .. } => {
            put_number(alloc, members, "cq_min", *cq_min)?;
            put_number(alloc, members, "cq_max", *cq_max)
        }
        Cell::Clock { .. } => Ok(()),
    }
}

/// Puts what a latch or flop asks of its data and of its clock.
fn put_checks(alloc: Global, members: &mut Table, cell: &Cell) -> Result<(), OutOfMemory>
    ensures { OnOk result (table_view members.new ≡ put_checks cell.now (table_view members.old)) }
{
    match cell {
        Cell::Latch {
            setup,
            hold,
            has_hold,
            width,
            ..
        }
        | Cell::Flop {
            setup,
            hold,
            has_hold,
            width,
            ..
        } => {
            put_number(alloc, members, "setup", *setup)?;
            put_number(alloc, members, "width", *width)?;
            put_if(alloc, members, *has_hold, "hold", *hold)
        }
        Cell::Gate { .. } | Cell::Clock { .. } => Ok(()),
    }
}

/// The table of a cell.
fn cell_table(alloc: Global, cell: &Cell) -> Result<Table, OutOfMemory>
    ensures { IfOk result (λ t. table_view t ≡ table_of cell.now) }
{
    let mut members = Table::new(alloc);
    put_text(alloc, &mut members, "kind", kind_of(cell).as_bytes())?;
    put_pins(alloc, &mut members, cell)?;
    put_lists(alloc, &mut members, cell)?;
    put_sense(alloc, &mut members, cell)?;
    put_delays(alloc, &mut members, cell)?;
    put_checks(alloc, &mut members, cell)?;
    Ok(members)
}

/// Puts the table of a cell under its name. Bytes that are no text have none; names are.
fn put_cell(alloc: Global, named: &mut Table, name: &[u8], cell: &Cell) -> Result<(), OutOfMemory>
    ensures { OnOk result (table_view named.new
        ≡ put_member name.now (table (table_of cell.now)) (table_view named.old)) }
{
    let Ok(key) = str::from_utf8(name) else {
        return Err(OutOfMemory);
    };
    let members = cell_table(alloc, cell)?;
    put(alloc, named, key, Value::Table(members))
}

/// The tables of cells under their names.
fn named_tables(alloc: Global, cells: &Cells) -> Result<Table, OutOfMemory>
    ensures tables { IfOk result (λ t. table_view t ≡ tables_of cells.now) }
    ensures kept { AreOrdered cells.now }
{
    let mut named = Table::new(alloc);
    for number in 0..cells.count() {
        put_cell(alloc, &mut named, cells.name(number), cells.cell(number))?;
    }
    Ok(named)
}

/// The text of the document of some cells.
fn document_text(alloc: Global, document: &Table, cells: &Cells) -> Result<Vec<u8>, OutOfMemory>
    requires document { table_view document.now ≡ document_of cells.now }
    requires kept { AreOrdered cells.now }
    ensures { IfOk result (λ text. AreCells text.items cells.now) }
{
    match toml::table_to_string(alloc, document) {
        Ok(text) => Ok(text.into_bytes()),
        Err(_) => Err(OutOfMemory),
    }
}

/// A cell description of which the cells are these very cells. Want of memory is its only error.
pub fn toml_form(alloc: Global, cells: &Cells) -> Result<Vec<u8>, OutOfMemory>
    ensures { IfOk result (λ text. AreCells text.items cells.now) }
{
    let named = named_tables(alloc, cells)?;
    let mut document = Table::new(alloc);
    put(alloc, &mut document, "cell", Value::Table(named))?;
    document_text(alloc, &document, cells)
}
