//! Reading the files that a command names.
ghost use Rattle.std.specs.Prelude.{◌≡◌, ◌≢◌, ◌+◌, ◌≤◌, [], length, IfOk, OnOk, Err};
ghost use Rattle.mintc_text.specs.Outside.{Rose};
ghost use Rattle.mintc_command_answers.specs.Commands.{bytes_of};
ghost use Rattle.mintc_command.specs.Answers.{AreFronts, HoldsAll, MakesAtMost};

use mintc_text::{Bytes, Limits, Shelf, ShelfError};
use std::alloc::Global;

/// The first bytes of each file, at most one more than a file may have. No read is made after one that fails.
pub(crate) fn read_files<S: Shelf>(
    alloc: Global,
    limits: &Limits,
    shelf: &mut S,
    names: &[String],
) -> Result<Vec<Bytes>, ShelfError>
    ensures fronts { IfOk result
        (λ files. AreFronts (S.files shelf.old) (limits.now.bytes + 1) (bytes_of names.now) files.items) }
    ensures held { OnOk result (HoldsAll (S.files shelf.old) (bytes_of names.now)) }
    ensures same { S.files shelf.new ≡ S.files shelf.old }
    ensures later { S.faults shelf.old ≤ S.faults shelf.new }
    ensures cause { result ≡ Err ShelfError.Failed → Rose (S.faults shelf.old) (S.faults shelf.new) }
    ensures some { result ≡ Err ShelfError.Failed → bytes_of names.now ≢ [] }
    ensures sound { S.is_sound shelf.old → HoldsAll (S.files shelf.old) (bytes_of names.now) →
        result ≢ Err ShelfError.Failed }
    ensures reads { MakesAtMost (length names.now) (S.calls shelf.old) (S.calls shelf.new) }
{
    let most = limits.most().bytes;
    let mut files = Vec::new(alloc);
    for name in names {
        match shelf.read(alloc, name.as_str(), most + 1) {
            Ok(bytes) => {
                let Ok(()) = files.push(Bytes::new(bytes)) else {
                    return Err(ShelfError::OutOfMemory);
                };
            }
            Err(error) => return Err(error),
        }
    }
    Ok(files)
}
