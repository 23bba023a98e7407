//! What a Liberty text is converted to.
ghost use Rattle.std.specs.Prelude.{◌≡◌, ◌≤◌, ◌++◌, length, decimal, IfOk, OnOk};
ghost use Rattle.mintc_text.specs.declared.refusals.Refusal.TheVariants.{Syntax, TooLong};
ghost use Rattle.mintc_text.specs.declared.refusals.Role.TheVariants as role;
ghost use Rattle.mintc_text.specs.Refusals.{refusal_line};
ghost use Rattle.liberty2toml_command.specs.Conversions.{IsConverted, IsOfText};

use crate::status::Status;
use crate::tables::toml_form;
use mintc_liberty::read_liberty;
use mintc_text::{Bytes, Lines, OutOfMemory, Refusal, Stop};
use std::alloc::Global;

/// Bytes of a file.
pub const MOST_BYTES: usize = 67_108_864;

/// A status and the text that goes with it.
#[derive(Drop)]
pub(crate) struct Answer {
    pub status: Status,
    pub text: Bytes,
}

/// Writes a number.
fn put_number(lines: &mut Lines, number: u32) -> Result<(), OutOfMemory>
    ensures { OnOk result (lines.new ≡ lines.old ++ decimal number) }
{
    lines.number(number as i128)
}

/// The line of a text that is too long.
fn length_line(alloc: Global) -> Result<Bytes, OutOfMemory>
    ensures { IfOk result (λ line. line ≡ refusal_line (TooLong role.Cells)) }
{
    let mut lines = Lines::new(alloc);
    lines.put(b"refused ")?;
    put_number(&mut lines, 2)?;
    lines.put(b" cells\n")?;
    Ok(Bytes::new(lines.into_bytes()))
}

/// The line of a text's Syntax.
fn syntax_line(alloc: Global, entry: u32) -> Result<Bytes, OutOfMemory>
    ensures { IfOk result (λ line. line ≡ refusal_line (Syntax role.Cells entry)) }
{
    let mut lines = Lines::new(alloc);
    lines.put(b"refused ")?;
    put_number(&mut lines, 1)?;
    lines.put(b" cells ")?;
    put_number(&mut lines, entry)?;
    lines.put(b"\n")?;
    Ok(Bytes::new(lines.into_bytes()))
}

/// The answer to a text that isn't too long. Syntax is its only refusal.
fn short_answer(alloc: Global, text: &[u8]) -> Result<Answer, OutOfMemory>
    requires { length text.now ≤ MOST_BYTES }
    ensures value { IfOk result (λ answer. IsConverted text.now answer.status answer.text) }
    ensures status { IfOk result (λ answer. IsOfText answer.status) }
{
    match read_liberty(alloc, text) {
        Ok(cells) => Ok(Answer {
            status: Status::Done,
            text: Bytes::new(toml_form(alloc, &cells)?),
        }),
        Err(Stop::Refused(Refusal::Syntax { entry, .. })) => Ok(Answer {
            status: Status::Refused,
            text: syntax_line(alloc, entry)?,
        }),
        Err(_) => Err(OutOfMemory),
    }
}

/// The answer to a text, of which no more than one byte over the most that it may have need be there.
pub(crate) fn answer_to(alloc: Global, text: &[u8]) -> Result<Answer, OutOfMemory>
    ensures value { IfOk result (λ answer. IsConverted text.now answer.status answer.text) }
    ensures status { IfOk result (λ answer. IsOfText answer.status) }
{
    if text.len() > MOST_BYTES {
        return Ok(Answer {
            status: Status::Refused,
            text: length_line(alloc)?,
        });
    }
    short_answer(alloc, text)
}
