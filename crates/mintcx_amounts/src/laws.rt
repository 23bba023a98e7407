//! Laws of what is shown. Each function does nothing: its contract is the law.
ghost use Rattle.mintcx_amounts.specs.Laws.{AmountsAreNear, FrequenciesAreBelow};

/// An amount without a `~` is shown exactly, and one with it is within half of a thousandth of its unit.
pub fn amounts()
    ensures { AmountsAreNear }
{}

/// The frequency that is shown is at most the true one, and less than a thousandth of its unit below it.
pub fn frequencies()
    ensures { FrequenciesAreBelow }
{}
