//! What holds of the cells and the refusal of a library's text: a law is the contract of a function that does nothing.
ghost use Rattle.mintc_liberty.specs.Laws.{HaveCellsOrFault};

/// Each text has cells, or the number of its first statement out of form.
pub fn texts_have_cells_or_faults()
    ensures { HaveCellsOrFault }
{}
