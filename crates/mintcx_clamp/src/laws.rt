//! What the definitions say: each law is the contract of a function that does nothing.
ghost use Rattle.mintcx_clamp.specs.Clamping.{AreKept, AreNotBelow};

/// With 0 in the place of numbers below 0 no text is refused for such a number.
#[tactic(auto, using(crate::proofs::ExactLaws::not_below))]
pub fn clamped_delays_are_not_below_zero()
    ensures { AreNotBelow }
{}

/// A text that has delays has the same ones with 0 in the place of numbers below 0.
#[tactic(auto, using(crate::proofs::ExactLaws::kept))]
pub fn delays_are_kept()
    ensures { AreKept }
{}
