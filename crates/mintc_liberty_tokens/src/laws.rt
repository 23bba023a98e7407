//! What the definitions say of one another: a law is the contract of a function that does nothing of its own.
ghost use Rattle.mintc_liberty_tokens.specs.Laws.{AreReadBack, AreWritten};

/// Tokens are the statements at their front, as these are written, and what stands behind them; and statements that
/// are written in a group are read back: so nothing of a text is lost, and none of it is read in two ways.
pub fn statements_are_the_tokens()
    ensures written { AreWritten }
    ensures read_back { AreReadBack }
{}
