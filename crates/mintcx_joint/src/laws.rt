//! Laws of what is shown. The function does nothing: its contract is the law.
ghost use Rattle.mintcx_joint.specs.Laws.{StagesAreLinks};

/// The stage by which a member of some corners is shown takes as long as the member's link among those of all corners.
#[tactic(auto, using(crate::proofs::ExactLaws::stages_are_links_lem))]
pub fn stages_are_links()
    ensures { StagesAreLinks }
{}
