//! What the definitions say of one another: each law is the contract of a function that does nothing.
ghost use Rattle.mintc_paths.specs.Existing.{AcceptedDesignsHaveSystems, OrderedDesignsHaveSystemsOrRefusals};
ghost use Rattle.mintc_paths.specs.Existing.{PairsExist};

/// A design whose arcs have an order has a list of all its pairs, however many they are.
#[tactic(auto, using(crate::proofs::SharedExisting::pairs_exist_lem))]
pub fn pairs_exist()
    ensures { PairsExist }
{}

/// Each accepted design has an order and pairs that make it a system.
pub fn accepted_designs_have_systems()
    ensures { AcceptedDesignsHaveSystems }
{}

/// Each design whose arcs have an order makes a system with it, or a path of it is too long, or its pairs are too many.
pub fn ordered_designs_have_systems_or_refusals()
    ensures { OrderedDesignsHaveSystemsOrRefusals }
{}
