//! Laws of lines. The function does nothing: its contract is the law.
ghost use Rattle.mintcx_columns.specs.Laws.{LinesKeepCells};

/// A line is its padded cells up to blanks at its end, it ends in no blank, and each cell fits its column.
pub fn lines_keep_cells()
    ensures { LinesKeepCells }
{}
