//! What holds of the design that files make: a law is the contract of a function that does nothing of its own.
ghost use Rattle.mintc_annotate.specs.Laws.{AnnotateRefusalsAreDetermined, DesignsAreDetermined, DesignsAreNotRefused};
ghost use Rattle.mintc_annotate.specs.Laws.{HaveDesignOrRefusal};

/// There is one design at most.
pub fn designs_are_determined()
    ensures { DesignsAreDetermined }
{}

/// There is no design beside a refusal.
pub fn designs_are_not_refused()
    ensures { DesignsAreNotRefused }
{}

/// There is one refusal at most.
pub fn annotate_refusals_are_determined()
    ensures { AnnotateRefusalsAreDetermined }
{}

/// There is a design or a refusal.
pub fn there_is_a_design_or_a_refusal()
    ensures { HaveDesignOrRefusal }
{}
