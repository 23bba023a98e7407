//! Instances whose cell is at fault.
ghost use Rattle.std.specs.Prelude.{IfSome};
ghost use Rattle.mintcx_finders.specs.Places.{IsFirstToken, IsInside};

use crate::found::{Class, Fault, Found, Way, found_inside, name_of};
use crate::walk::{class_of, is_holder, module_around, range_of};
use mintc_vlex::next_token;
use mintcx_places::Range;

/// The cell of a statement of instances. None where the statement is another.
pub(crate) fn cell_of(text: &[u8], statement: &Range) -> Option<Range>
    ensures { IfSome result (IsFirstToken text.now statement.now) }
{
    let first = next_token(text, statement.from)?;
    if class_of(text, &first) != Some(Class::Instance) {
        return None;
    }
    Some(range_of(&first))
}

/// The name of the cell of a statement of instances, and the module that it stands in.
pub fn missing_cell(text: &[u8], statement: &Range) -> Option<Found>
    ensures inside { IfSome result (λ found. IsInside statement.now found.range) }
    ensures first { IfSome result (λ found. IsFirstToken text.now statement.now found.range) }
{
    let cell = cell_of(text, statement)?;
    let module = module_around(text, statement.from)?.name;
    found_inside(statement, cell, Fault::Cell { module })
}

/// How a module that has an instance of a cell has itself inside.
fn way_of(text: &[u8], module: &[u8], cell: &[u8]) -> Way {
    if module == cell {
        Way::Straight
    } else if is_holder(text, cell, module) {
        Way::Through
    } else {
        Way::Far
    }
}

/// The name of the cell of a statement of instances in a module that has itself inside by it.
pub fn ring(text: &[u8], statement: &Range) -> Option<Found>
    ensures inside { IfSome result (λ found. IsInside statement.now found.range) }
    ensures first { IfSome result (λ found. IsFirstToken text.now statement.now found.range) }
{
    let cell = cell_of(text, statement)?;
    let module = module_around(text, statement.from)?.name;
    let way = way_of(text, name_of(text, &module), name_of(text, &cell));
    found_inside(statement, cell, Fault::Ring { module, way })
}
