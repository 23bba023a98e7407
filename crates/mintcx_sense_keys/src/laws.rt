//! What holds of the cells, the senses and the refusal of a text: a law is the contract of a function that does nothing
//! of its own.
ghost use Rattle.mintcx_sense_keys.specs.Laws.{BadSensedCellsAreDetermined, CellsHaveNoKeys, KeylessTextsArePlain};
ghost use Rattle.mintcx_sense_keys.specs.Laws.{PlainCellsAreDetermined, SensedCellsAreNotRefused};

/// A text has one list of cells without the keys at most.
pub fn plain_cells_are_determined()
    ensures { PlainCellsAreDetermined }
{}

/// A text that has cells and senses isn't refused.
pub fn sensed_cells_are_not_refused()
    ensures { SensedCellsAreNotRefused }
{}

/// A text has one refusal at most.
pub fn bad_sensed_cells_are_determined()
    ensures { BadSensedCellsAreDetermined }
{}

/// A text without the keys has the cells that it has where they aren't read, the same refusal, and all transitions.
pub fn keyless_texts_are_plain()
    ensures { KeylessTextsArePlain }
{}

/// A text whose cells are read where the keys aren't has none of them.
pub fn cells_have_no_keys()
    ensures { CellsHaveNoKeys }
{}
