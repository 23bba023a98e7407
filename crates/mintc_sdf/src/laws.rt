//! What the definitions say of one another: each law is the contract of a function that does nothing.
ghost use Rattle.mintc_sdf.specs.Laws.{AreRounded, AreWithin, HaveDelaysOrRefusal};

/// In each delay of a text the least number is at most the greatest, and both are from 0, or for a setup or a hold from
/// -10^9, to 10^9 femtoseconds.
pub fn delays_are_within()
    ensures { AreWithin }
{}

/// The least of a delay is the greatest whole number that is above none of the numbers that it is made of, and its
/// greatest the least that is below none: so rounding each number first and then taking the least loses nothing.
#[tactic(auto, using(crate::proofs::LeastLaws::rounded))]
pub fn numbers_are_rounded()
    ensures { AreRounded }
{}

/// Each text has delays or a refusal.
pub fn texts_have_delays_or_refusals()
    ensures { HaveDelaysOrRefusal }
{}
