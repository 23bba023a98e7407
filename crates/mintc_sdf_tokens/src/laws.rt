//! What the definitions say of one another: a law is the contract of a function that does nothing.
ghost use Rattle.mintc_sdf_tokens.specs.Laws.{AreReadBack, AreWritten};

/// Tokens are their items and what stands behind these, and items that are written in a list are read back: so
/// nothing of a text is lost, and none of it is read in two ways.
pub fn items_are_the_tokens()
    ensures written { AreWritten }
    ensures read_back { AreReadBack }
{}
