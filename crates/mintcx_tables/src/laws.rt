//! Laws of what is written. Each function does nothing of its own: its contract is the law.
ghost use Rattle.mintcx_tables.specs.Tables.{HaveOneTable};

use mintc_timing_text::texts_are_canonical;

/// A design has at most one table.
pub fn designs_have_one_table()
    ensures { HaveOneTable }
{
    texts_are_canonical();
}
