//! What the definitions say of one another: each law is the contract of a function that does nothing.
ghost use Rattle.mintc_fraction_laws.specs.Lowest.{FractionsReduce};

/// Each fraction is one in lowest terms, whose denominator is no greater.
pub fn fractions_reduce()
    ensures { FractionsReduce }
{}
