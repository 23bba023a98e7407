//! Tables of worked answers.
use mintc_text::{Name, Names, OutOfMemory};
use mintcx_columns::{Column, Table};
use std::alloc::Global;
use std::process::Abort;

const CHAIN: &[[&str; 7]] = &[
    ["cycle", "from", "at", "borrows", "delay", "to", "through"],
    ["1", "_24_", "0", "", "487", "_20_", "_19_"],
    ["1", "_20_", "487", "102.5", "900", "_25_", "_10_ _15_ _17_"],
    ["3", "_24_", "2615", "", "", "", ""],
];

const CHAIN_TEXT: &str = "  cycle  from    at  borrows  delay  to    through
      1  _24_     0             487  _20_  _19_
      1  _20_   487    102.5    900  _25_  _10_ _15_ _17_
      3  _24_  2615
";

fn columns(alloc: Global) -> Result<Vec<Column>, OutOfMemory> {
    let (left, right) = (Column::left(), Column::right());
    Ok(Vec::from_slice(alloc, &[right, left, right, right, right, left, left])?)
}

fn row(alloc: Global, cells: &[&str; 7]) -> Result<Names, OutOfMemory> {
    let mut names = Vec::new(alloc);
    for cell in cells {
        names.push(Name::new(alloc, cell.as_bytes())?)?;
    }
    Ok(Names::new(names))
}

#[test]
fn a_chain_is_as_worked(rt: HostRuntime) -> Result<(), OutOfMemory> {
    let alloc = rt.alloc();
    let mut table = Table::new(alloc, columns(alloc)?);
    for cells in CHAIN {
        let names = row(alloc, cells)?;
        if names.items().len() <= table.column_count() {
            table.push(names)?;
        }
    }
    let text = table.text(alloc)?;
    assert!(rt; text.as_slice() == CHAIN_TEXT.as_bytes());
    Ok(())
}
