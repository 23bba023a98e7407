//! What the definitions say of one another: a law is the contract of a function that does nothing of its own.
ghost use Rattle.mintc_senses_expressions.specs.Laws.{AreReadBack, AreWritten, SensesCover};

/// What is read of a text is written there, and what is written there is read: so a text is at most one expression,
/// and no text of another form is taken for one.
pub fn expressions_are_the_texts()
    ensures written { AreWritten }
    ensures read_back { AreReadBack }
{}

/// The sense of a name has each transition that the expression's value makes when that name alone changes.
pub fn senses_cover_changes()
    ensures { SensesCover }
{}
