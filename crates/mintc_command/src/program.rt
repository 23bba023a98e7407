//! A run: words, files, one answer.
ghost use Rattle.std.specs.Prelude.{◌≡◌, ◌≢◌, ◌⊎◌, ℕ, List, Option, length};
ghost use Rattle.mintc_text.specs.Limits.{usual};
ghost use Rattle.mintc_text.specs.declared.limits.Most.{Most};
ghost use Rattle.mintc_text.specs.Outside.{Files, Rose};
ghost use Rattle.mintc_command_answers.specs.declared.command.Command.{Command};
ghost use Rattle.mintc_command_answers.specs.Commands.{AreWordsOf, IsCommand, bytes_of};
ghost use Rattle.mintc_command.specs.Answers.{HoldsAll, IsAfterReading, IsAnswer, IsComplete, IsNotRefused};
ghost use Rattle.mintc_command.specs.Answers.{IsOfNoCommand, MakesAtMost, NameFile, Writes};

use crate::reading::read_files;
use mintc_command_answers::{Status, answer_to, command_of};
use mintc_text::{Limits, OutOfMemory, Shelf, ShelfError, Sink};
use std::alloc::Global;

/// What is written where the words are no command.
const USAGE: &[u8] =
    b"usage: mintc check|optimise|verify|report|safe|slack table|files|liberty FILE.. | mintc sample N | mintc \
     corners V C K D D..\n";

/// Writes an answer by one call. The status is the answer's, or that the write failed.
fn write<O: Sink>(out: &mut O, status: Status, text: &[u8]) -> Status
    requires { status ≢ Status.WriteFault }
    ensures status { (result ≡ status) ⊎ (result ≡ Status.WriteFault) }
    ensures written { (most : Most) (words : List (List ℕ)) (files : Option Files) →
        IsAnswer most words files status text.now →
        Writes most words files result (O.taken out.old) (O.taken out.new) }
    ensures cause { result ≡ Status.WriteFault → Rose (O.faults out.old) (O.faults out.new) }
    ensures writes { MakesAtMost 1 (O.calls out.old) (O.calls out.new) }
{
    match out.write(text) {
        Ok(()) => status,
        Err(_) => Status::WriteFault,
    }
}

/// Does what the words ask within these limits: reads the files that they name, each once and in their order, and
/// writes the answer by one call of the sink. Nothing is written before the answer is whole.
pub fn run_within<S: Shelf, O: Sink>(
    alloc: Global,
    limits: &Limits,
    words: &[String],
    shelf: &mut S,
    out: &mut O,
) -> Status
    ensures usage_only { result ≡ Status.Usage → IsCommand (bytes_of words.now) → ⊥ }
    ensures usage { (IsCommand (bytes_of words.now) → ⊥) → IsOfNoCommand result }

    ensures written { Writes limits.now (bytes_of words.now) (S.files shelf.old) result (O.taken out.old)
        (O.taken out.new) }
    ensures held { (command : Command) (names : List (List ℕ)) → AreWordsOf command names (bytes_of words.now) →
        IsAfterReading result → HoldsAll (S.files shelf.old) names }
    ensures same { S.files shelf.new ≡ S.files shelf.old }

    ensures read_fault { result ≡ Status.ReadFault → NameFile (bytes_of words.now) }
    ensures read_cause { result ≡ Status.ReadFault → Rose (S.faults shelf.old) (S.faults shelf.new) }
    ensures sound { (command : Command) (names : List (List ℕ)) → AreWordsOf command names (bytes_of words.now) →
        S.is_sound shelf.old → HoldsAll (S.files shelf.old) names →
        result ≢ Status.ReadFault }
    ensures reads { (command : Command) (names : List (List ℕ)) → AreWordsOf command names (bytes_of words.now) →
        MakesAtMost (length names) (S.calls shelf.old) (S.calls shelf.new) }
    ensures no_reads { (IsCommand (bytes_of words.now) → ⊥) → S.calls shelf.new ≡ S.calls shelf.old }

    ensures complete { (command : Command) (names : List (List ℕ)) → AreWordsOf command names (bytes_of words.now) →
        S.is_sound shelf.old → HoldsAll (S.files shelf.old) names →
        IsNotRefused limits.now (S.files shelf.old) command names → (Rose (O.faults out.old) (O.faults out.new) → ⊥) →
        IsComplete result }

    ensures write_cause { result ≡ Status.WriteFault → Rose (O.faults out.old) (O.faults out.new) }
    ensures writes { MakesAtMost 1 (O.calls out.old) (O.calls out.new) }
{
    let Some(command) = command_of(words) else {
        return write(out, Status::Usage, USAGE);
    };
    match read_files(alloc, limits, shelf, &words[command.word_count()..]) {
        Ok(mut files) => match answer_to(alloc, limits, command, files.as_mut_slice()) {
            Ok(answer) => write(out, answer.status, answer.text.items()),
            Err(OutOfMemory) => Status::OutOfMemory,
        },
        Err(ShelfError::Failed) => Status::ReadFault,
        Err(ShelfError::OutOfMemory) => Status::OutOfMemory,
    }
}

/// Does what the words ask: reads the files that they name, each once and in their order, and writes the answer by one
/// call of the sink. Nothing is written before the answer is whole. The limits are the usual ones.
pub fn run<S: Shelf, O: Sink>(alloc: Global, words: &[String], shelf: &mut S, out: &mut O) -> Status
    ensures usage_only { result ≡ Status.Usage → IsCommand (bytes_of words.now) → ⊥ }
    ensures usage { (IsCommand (bytes_of words.now) → ⊥) → IsOfNoCommand result }

    ensures written { Writes usual (bytes_of words.now) (S.files shelf.old) result (O.taken out.old) (O.taken out.new) }
    ensures held { (command : Command) (names : List (List ℕ)) → AreWordsOf command names (bytes_of words.now) →
        IsAfterReading result → HoldsAll (S.files shelf.old) names }
    ensures same { S.files shelf.new ≡ S.files shelf.old }

    ensures read_fault { result ≡ Status.ReadFault → NameFile (bytes_of words.now) }
    ensures read_cause { result ≡ Status.ReadFault → Rose (S.faults shelf.old) (S.faults shelf.new) }
    ensures sound { (command : Command) (names : List (List ℕ)) → AreWordsOf command names (bytes_of words.now) →
        S.is_sound shelf.old → HoldsAll (S.files shelf.old) names →
        result ≢ Status.ReadFault }
    ensures reads { (command : Command) (names : List (List ℕ)) → AreWordsOf command names (bytes_of words.now) →
        MakesAtMost (length names) (S.calls shelf.old) (S.calls shelf.new) }
    ensures no_reads { (IsCommand (bytes_of words.now) → ⊥) → S.calls shelf.new ≡ S.calls shelf.old }

    ensures complete { (command : Command) (names : List (List ℕ)) → AreWordsOf command names (bytes_of words.now) →
        S.is_sound shelf.old → HoldsAll (S.files shelf.old) names →
        IsNotRefused usual (S.files shelf.old) command names → (Rose (O.faults out.old) (O.faults out.new) → ⊥) →
        IsComplete result }

    ensures write_cause { result ≡ Status.WriteFault → Rose (O.faults out.old) (O.faults out.new) }
    ensures writes { MakesAtMost 1 (O.calls out.old) (O.calls out.new) }
{
    run_within(alloc, &Limits::usual(), words, shelf, out)
}
