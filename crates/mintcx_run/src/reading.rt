//! Reading the files that a call names.
ghost use Rattle.std.specs.Prelude.{◌≡◌, ◌≢◌, ◌+◌, ◌≤◌, length, IfOk, IfErr};
ghost use Rattle.mintc_text.specs.Outside.{IsFront, Rose};
ghost use Rattle.mintc_command.specs.Answers.{AreFronts, MakesAtMost};
ghost use Rattle.mintcx_run.specs.Replies.{AreUnread, IsUnread};

use crate::reply::Reply;
use mintc_command_answers::Status;
use mintc_text::limits::MOST_BYTES;
use mintc_text::{Bytes, Name, Shelf, ShelfError};
use std::alloc::Global;

/// A name as text.
pub(crate) fn shown(name: &Name) -> &str {
    std::str::from_utf8(name.bytes()).unwrap_or("?")
}

/// The reply that a file can't be read.
fn unread(alloc: Global, name: &Name) -> Reply
    ensures unread { IsUnread name.now result }
    ensures no_fault { result.status ≢ Status.WriteFault }
{
    let name = shown(name);
    match format!(in alloc; "'{name}' can't be read") {
        Ok(said) => Reply::message(alloc, Status::ReadFault, &said),
        Err(_) => Reply::out_of_memory(alloc),
    }
}

/// The first bytes of a file, at most one more than a file may have.
pub(crate) fn read_file<S: Shelf>(alloc: Global, shelf: &mut S, name: &Name) -> Result<Bytes, Reply>
    ensures front { IfOk result (λ bytes. IsFront (S.files shelf.old) name.now (MOST_BYTES + 1) bytes) }
    ensures unread { IfErr result (IsUnread name.now) }
    ensures no_fault { IfErr result (λ reply. reply.status ≢ Status.WriteFault) }
    ensures same { S.files shelf.new ≡ S.files shelf.old }
    ensures later { S.faults shelf.old ≤ S.faults shelf.new }
    ensures cause { IfErr result
        (λ reply. reply.status ≡ Status.ReadFault → Rose (S.faults shelf.old) (S.faults shelf.new)) }
    ensures reads { MakesAtMost 1 (S.calls shelf.old) (S.calls shelf.new) }
{
    let Ok(text) = std::str::from_utf8(name.bytes()) else {
        return Err(Reply::message(alloc, Status::Usage, &"the name of a file isn't text"));
    };
    match shelf.read(alloc, text, MOST_BYTES + 1) {
        Ok(bytes) => Ok(Bytes::new(bytes)),
        Err(ShelfError::Failed) => Err(unread(alloc, name)),
        Err(ShelfError::OutOfMemory) => Err(Reply::out_of_memory(alloc)),
    }
}

/// The first bytes of each file, at most one more than a file may have. No read is made after one that fails.
pub(crate) fn read_files<S: Shelf>(
    alloc: Global,
    shelf: &mut S,
    names: &[Name],
) -> Result<Vec<Bytes>, Reply>
    ensures fronts { IfOk result (λ files. AreFronts (S.files shelf.old) (MOST_BYTES + 1) names.now files.items) }
    ensures unread { IfErr result (AreUnread names.now) }
    ensures same { S.files shelf.new ≡ S.files shelf.old }
    ensures later { S.faults shelf.old ≤ S.faults shelf.new }
    ensures cause { IfErr result
        (λ reply. reply.status ≡ Status.ReadFault → Rose (S.faults shelf.old) (S.faults shelf.new)) }
    ensures reads { MakesAtMost (length names.now) (S.calls shelf.old) (S.calls shelf.new) }
{
    let mut files = Vec::new(alloc);
    for name in names {
        let bytes = read_file(alloc, shelf, name)?;
        let Ok(()) = files.push(bytes) else {
            return Err(Reply::out_of_memory(alloc));
        };
    }
    Ok(files)
}
