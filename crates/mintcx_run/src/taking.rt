//! What is taken of the files of an order.
ghost use Rattle.std.specs.Prelude.{◌≡◌, ◌<◌, true, length, slice_set, List, ℕ, IfOk, IfSome, OnOk};
ghost use Rattle.mintc_command_answers.specs.Commands.{IsNumberInRange, roles_of};
ghost use Rattle.mintc_command_answers.specs.Sources.{file_at};
ghost use Rattle.mintcx_run.specs.Taken.{AreTaken, IsClamped, IsTaken, are_delays};

use crate::orders::Order;
use mintc_text::limits::MOST_BYTES;
use mintc_text::{Bytes, OutOfMemory, Role};
use mintcx_clamp::clamp;
use std::alloc::Global;

/// Whether delays are in a file.
pub(crate) fn are_delays(role: Role) -> bool
    ensures { result ≡ are_delays role }
{
    matches!(role, Role::Delays)
}

/// A text of delays with 0 in the place of numbers below 0, where it is refused for one.
fn clamped_text(alloc: Global, text: &[u8]) -> Result<Option<Bytes>, OutOfMemory>
    ensures { IfOk result (λ found. IfSome found (IsClamped text.now)) }
{
    if text.len() > MOST_BYTES {
        return Ok(None);
    }
    clamp(alloc, text)
}

/// Takes 0 for each number below 0 of a file of delays.
fn clamp_file(alloc: Global, files: &mut [Bytes], at: usize) -> Result<(), OutOfMemory>
    requires { at < length files.old }
    ensures taken { OnOk result ((text : List ℕ) × IsTaken true (file_at files.old at) text
        × (files.new ≡ slice_set files.old at text)) }
    ensures count { length files.new ≡ length files.old }
{
    if let Some(text) = clamped_text(alloc, files[at].items())? {
        files[at] = text;
    }
    Ok(())
}

/// Takes the files of an order as they are, or, where that is asked, with 0 for each delay below 0.
pub(crate) fn take_files(
    alloc: Global,
    order: &Order,
    files: &mut [Bytes],
) -> Result<(), OutOfMemory>
    requires count { length files.old ≡ length (roles_of order.now.call.command) }
    requires in_range { IsNumberInRange order.now.call.command }
    ensures taken { OnOk result (AreTaken order.now files.old files.new) }
    ensures count { length files.new ≡ length files.old }
{
    let roles = order.call.command.roles();
    for at in 0..files.len() {
        if order.call.clamp && are_delays(roles[at]) {
            clamp_file(alloc, files, at)?;
        }
    }
    Ok(())
}
