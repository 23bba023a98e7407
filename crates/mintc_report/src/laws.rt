//! What the definitions of answers say: a law is the contract of a function that does nothing.
ghost use Rattle.mintc_report.specs.Laws.{AnswersAreDetermined, ViolationsNamePairs};

/// Departures have one text of a pass, violations one text of a fail, and a certificate one text of a report and one
/// of a summary. Verdicts with one text are equal.
#[tactic(auto, using(crate::proofs::DeterminedLaws::answers_are_determined_lem))]
pub fn answers_are_determined()
    ensures { AnswersAreDetermined }
{}

/// The violations of a schedule name pairs that the design has.
pub fn violations_name_pairs()
    ensures { ViolationsNamePairs }
{}
