//! What holds of every hierarchy: a law is the contract of a function that does nothing of its own.
ghost use Rattle.mintc_flatten_hierarchy.specs.Driven.{BitsHaveOneDriver, OutputsHaveNoDriver};
ghost use Rattle.mintc_flatten_hierarchy.specs.Shape.{HierarchiesAreInShape};

/// Whatever a hierarchy of an ordinary netlist names is there, each scope comes after its parent, and the limits
/// are kept.
pub fn hierarchies_are_in_shape()
    ensures { HierarchiesAreInShape }
{}

/// No two joins of a hierarchy end at one bit.
pub fn bits_have_one_driver()
    ensures { BitsHaveOneDriver }
{}

/// No join of a hierarchy ends at an output pin of a leaf.
pub fn outputs_have_no_driver()
    ensures { OutputsHaveNoDriver }
{}
