//! What holds of the cells and the refusal of a text: a law is the contract of a function that does nothing of its own.
ghost use Rattle.mintc_cells.specs.Laws.{BadCellsAreDetermined, CellsAreDetermined, CellsAreNotRefused, CellsKeepRules};
ghost use Rattle.mintc_cells.specs.Laws.{TextsHaveCellsOrRefusals};

/// A text has one list of cells at most.
pub fn cells_are_determined()
    ensures { CellsAreDetermined }
{}

/// A text that has cells isn't refused.
pub fn cells_are_not_refused()
    ensures { CellsAreNotRefused }
{}

/// A text has one refusal at most.
pub fn bad_cells_are_determined()
    ensures { BadCellsAreDetermined }
{}

/// The cells of a text ascend by their names, and each keeps its rules.
pub fn cells_keep_rules()
    ensures { CellsKeepRules }
{}

/// Each text has cells or a refusal, be it TOML or not.
pub fn texts_have_cells_or_refusals()
    ensures { TextsHaveCellsOrRefusals }
{}
