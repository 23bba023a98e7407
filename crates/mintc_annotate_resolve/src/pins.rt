//! The pins of cells by their names.
ghost use Rattle.std.specs.Prelude.{◌≡◌, ◌<◌, length, IfSome};
ghost use Rattle.mintc_cells.specs.Rules.{pins};
ghost use Rattle.mintc_cells.specs.Entries.{cell_at};
ghost use Rattle.mintc_annotate_resolve.specs.Pins.{pin_number, input_pin, output_pin};

use mintc_cells::Cells;

/// The number of a pin of a cell.
fn pin_number(cells: &Cells, cell: u32, name: &[u8]) -> Option<u32>
    requires { cell < length cells.now }
    ensures number { result ≡ pin_number (cell_at cells.now cell) name.now }
    ensures within { IfSome result (λ i. i < length (pins (cell_at cells.now cell))) }
{
    for number in 0..cells.pin_count(cell) {
        if name == cells.pin(cell, number).bytes() {
            return Some(number);
        }
    }
    None
}

/// The number of an input pin of a cell.
pub(crate) fn input_pin(cells: &Cells, cell: u32, name: &[u8]) -> Option<u32>
    requires { cell < length cells.now }
    ensures number { result ≡ input_pin (cell_at cells.now cell) name.now }
    ensures within { IfSome result (λ i. i < length (pins (cell_at cells.now cell))) }
{
    let Some(number) = pin_number(cells, cell, name) else {
        return None;
    };
    if cells.is_output(cell, number) {
        None
    } else {
        Some(number)
    }
}

/// The number of an output pin of a cell by its name, among all its pins from 0 on. None of a name that no output has.
pub fn output_pin(cells: &Cells, cell: u32, name: &[u8]) -> Option<u32>
    requires { cell < length cells.now }
    ensures { result ≡ output_pin (cell_at cells.now cell) name.now }
{
    let Some(number) = pin_number(cells, cell, name) else {
        return None;
    };
    if cells.is_output(cell, number) {
        Some(number)
    } else {
        None
    }
}
