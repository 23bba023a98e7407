//! Laws of explanations. The function does nothing: its contract is the law.
ghost use Rattle.mintc_text.specs.declared.refusals.Refusal.{Refusal};
ghost use Rattle.mintc_text.specs.Refusals.{refusal_number};
ghost use Rattle.mintcx_explanations.specs.Explanations.{IsRefusalNumber};

/// Each refusal has a number that is explained.
pub fn refusals_are_explained()
    ensures { (refusal : Refusal) → IsRefusalNumber (refusal_number refusal) }
{}
