//! A run: words, a file, one answer.
ghost use Rattle.std.specs.Prelude.{◌≡◌, ◌≢◌, ◌⊎◌, ◌+◌, ℕ, List, Option};
ghost use Rattle.mintc_text.specs.Outside.{Files, Holds, Rose};
ghost use Rattle.liberty2toml_command.specs.Conversions.{IsAnswer, IsConverted, IsOfNoName, IsOfText, IsComplete};
ghost use Rattle.liberty2toml_command.specs.Conversions.{IsAfterReading, IsNotRefused, MakesAtMost, AreName, Writes};
ghost use Rattle.liberty2toml_command.specs.Conversions.{bytes_of};

use crate::answer::{MOST_BYTES, answer_to};
use crate::status::Status;
use mintc_text::{OutOfMemory, Shelf, ShelfError, Sink};
use std::alloc::Global;

/// What is written where the words aren't the name of one file.
const USAGE: &[u8] = b"usage: liberty2toml FILE\n";

/// Writes an answer by one call. The status is the answer's, or that the write failed.
fn write<O: Sink>(out: &mut O, status: Status, text: &[u8]) -> Status
    requires { status ≢ Status.WriteFault }
    ensures status { (result ≡ status) ⊎ (result ≡ Status.WriteFault) }
    ensures written { (words : List (List ℕ)) (files : Option Files) → IsAnswer words files status text.now →
        Writes words files result (O.taken out.old) (O.taken out.new) }
    ensures cause { result ≡ Status.WriteFault → Rose (O.faults out.old) (O.faults out.new) }
    ensures writes { MakesAtMost 1 (O.calls out.old) (O.calls out.new) }
{
    match out.write(text) {
        Ok(()) => status,
        Err(_) => Status::WriteFault,
    }
}

/// Does what the words ask: reads the file that they name, once, and writes its TOML form, the line of its refusal
/// or the usage line by one call of the sink. Nothing is written before the answer is whole.
pub fn convert<S: Shelf, O: Sink>(
    alloc: Global,
    words: &[String],
    shelf: &mut S,
    out: &mut O,
) -> Status
    ensures usage_only { (name : List ℕ) → AreName (bytes_of words.now) name → result ≢ Status.Usage }
    ensures usage { ((name : List ℕ) → AreName (bytes_of words.now) name → ⊥) → IsOfNoName result }

    ensures written { Writes (bytes_of words.now) (S.files shelf.old) result (O.taken out.old) (O.taken out.new) }
    ensures held { (name : List ℕ) → AreName (bytes_of words.now) name → IsAfterReading result →
        Holds (S.files shelf.old) name }
    ensures same { S.files shelf.new ≡ S.files shelf.old }

    ensures read_cause { result ≡ Status.ReadFault → Rose (S.faults shelf.old) (S.faults shelf.new) }
    ensures sound { (name : List ℕ) → AreName (bytes_of words.now) name → S.is_sound shelf.old →
        Holds (S.files shelf.old) name → result ≢ Status.ReadFault }
    ensures reads { MakesAtMost 1 (S.calls shelf.old) (S.calls shelf.new) }
    ensures no_reads { ((name : List ℕ) → AreName (bytes_of words.now) name → ⊥) →
        S.calls shelf.new ≡ S.calls shelf.old }

    ensures complete { (name : List ℕ) → AreName (bytes_of words.now) name → S.is_sound shelf.old →
        Holds (S.files shelf.old) name →
        IsNotRefused (S.files shelf.old) name → (Rose (O.faults out.old) (O.faults out.new) → ⊥) → IsComplete result }

    ensures write_cause { result ≡ Status.WriteFault → Rose (O.faults out.old) (O.faults out.new) }
    ensures writes { MakesAtMost 1 (O.calls out.old) (O.calls out.new) }
{
    if words.len() != 1 {
        return write(out, Status::Usage, USAGE);
    }
    match shelf.read(alloc, words[0].as_str(), MOST_BYTES + 1) {
        Ok(text) => match answer_to(alloc, &text) {
            Ok(answer) => write(out, answer.status, answer.text.items()),
            Err(OutOfMemory) => Status::OutOfMemory,
        },
        Err(ShelfError::Failed) => Status::ReadFault,
        Err(ShelfError::OutOfMemory) => Status::OutOfMemory,
    }
}
