//! Laws of places. The function does nothing: its contract is the law.
ghost use Rattle.mintcx_places.specs.Laws.{StatementsAreListed};

/// A statement's place is that of the entry with its number in the list of all statements.
pub fn statements_are_listed()
    ensures { StatementsAreListed }
{}
