//! The answers that refusals are.
ghost use Rattle.std.specs.Prelude.{◌≡◌, ◌++◌, IfOk};
ghost use Rattle.mintc_text.specs.Refusals.{refusal_line};

use crate::answer::Answer;
use crate::status::Status;
use mintc_text::{Lines, OutOfMemory, Refusal};
use mintc_text_refusals::refusal_text;
use std::alloc::Global;

/// The answer of a refusal's line.
pub(crate) fn refusal_answer(alloc: Global, refusal: &Refusal) -> Result<Answer, OutOfMemory>
    ensures status { IfOk result (λ answer. answer.status ≡ Status.Refused) }
    ensures text { IfOk result (λ answer. answer.text ≡ refusal_line refusal.now) }
{
    let text = refusal_text(alloc, refusal)?;
    Ok(Answer::new(Status::Refused, text))
}

/// The answer of the refusal of a corner: its line, and then the line of the refusal of the corner's own files.
pub(crate) fn refused_corner(
    alloc: Global,
    corner: u32,
    own: &Refusal,
) -> Result<Answer, OutOfMemory>
    ensures status { IfOk result (λ answer. answer.status ≡ Status.Refused) }
    ensures text { IfOk result (λ answer. answer.text ≡ refusal_line (Refusal.Corner corner) ++ refusal_line own.now) }
{
    let first = refusal_text(alloc, &Refusal::Corner { file: corner })?;
    let second = refusal_text(alloc, own)?;
    let mut lines = Lines::new(alloc);
    lines.put(first.as_slice())?;
    lines.put(second.as_slice())?;
    Ok(Answer::new(Status::Refused, lines.into_bytes()))
}
