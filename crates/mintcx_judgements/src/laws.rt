//! What the definitions say. Each function does nothing: its contract is the law.
ghost use Rattle.mintcx_judgements.specs.Named.{ViolationsAreNamed};

/// The violations of a schedule are of the design's own parts.
pub fn violations_are_named()
    ensures { ViolationsAreNamed }
{}
