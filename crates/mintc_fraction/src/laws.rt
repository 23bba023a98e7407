//! Laws of fractions. Each function does nothing: its contract is the law.
ghost use Rattle.mintc_fraction.specs.Laws.{IsTotalOrder, AreSums, IsRounding, AreLowestUnique};

/// The values are in a total order, and two of them are equal exactly where each is at most the other.
pub fn order()
    ensures { IsTotalOrder }
{}

/// Sums are commutative and associative in value.
pub fn sums()
    ensures { AreSums }
{}

/// Rounding down to a grid gives at most what rounding up gives, and the same exactly on the grid.
pub fn rounding()
    ensures { IsRounding }
{}

/// A value has one fraction in lowest terms.
pub fn lowest_terms()
    ensures { AreLowestUnique }
{}
