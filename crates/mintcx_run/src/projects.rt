//! The words and the project file.
ghost use Rattle.std.specs.Prelude.{◌≡◌, ◌≢◌, ◌≤◌, Some, None, length, map, string_bytes, IfOk, IfErr};
ghost use Rattle.mintc_text.specs.Outside.{Rose};
ghost use Rattle.mintc_command.specs.Answers.{MakesAtMost};
ghost use Rattle.mintcx_project.specs.Projects.{Says};
ghost use Rattle.mintcx_run.specs.Replies.{IsFaultReply, IsGiven, IsSettings, IsSettingsReply, IsSilentReply};
ghost use Rattle.mintcx_run.specs.Replies.{IsWordsReply};

use crate::reading::{read_file, shown};
use crate::reply::{Place, Reply};
use mintc_command_answers::Status;
use mintc_text::limits::MOST_BYTES;
use mintc_text::{Name, OutOfMemory, Shelf, ShelfError};
use mintcx_project::{ProjectFault, Settings, no_project, read_project};
use mintcx_requests::Given;
use mintcx_words::{Misread, read_words};
use std::alloc::Global;

/// The project file that is taken where none is named.
const DEFAULT: &str = "mintc.toml";

/// What the words give, or the reply to them: help, the version, or what is wrong with them.
pub(crate) fn given_of(alloc: Global, words: &[String]) -> Result<Given, Reply>
    ensures value { IfOk result (IsGiven (map string_bytes words.now)) }
    ensures reply { IfErr result (IsWordsReply (map string_bytes words.now)) }
{
    match read_words(alloc, words) {
        Ok(given) => Ok(given),
        Err(Misread::Answer(text)) => Err(Reply::saying(
            alloc,
            Status::Done,
            Place::Output,
            text.bytes(),
        )),
        Err(Misread::Wrong(text)) => Err(Reply::saying(
            alloc,
            Status::Usage,
            Place::Errors,
            text.bytes(),
        )),
        Err(Misread::NoCommand) => Err(Reply::message(
            alloc,
            Status::Usage,
            &"the words name no command",
        )),
        Err(Misread::OutOfMemory) => Err(Reply::out_of_memory(alloc)),
    }
}

/// The reply that a project file says nothing, and why.
fn project_reply(alloc: Global, name: &Name, fault: &ProjectFault) -> Reply
    ensures reply { IsFaultReply fault.now result }
    ensures no_fault { result.status ≢ Status.WriteFault }
{
    if let ProjectFault::OutOfMemory = fault {
        return Reply::out_of_memory(alloc);
    }
    let name = shown(name);
    match format!(in alloc; "'{name}': {fault}") {
        Ok(said) => Reply::message(alloc, Status::Usage, &said),
        Err(_) => Reply::out_of_memory(alloc),
    }
}

/// What a project file says by its first bytes, or why it says nothing.
fn settings_in(alloc: Global, name: &Name, text: &[u8]) -> Result<Settings, Reply>
    ensures short { IfOk result (λ _. length text.now ≤ MOST_BYTES) }
    ensures value { IfOk result (Says name.now text.now) }
    ensures reply { IfErr result (IsSilentReply text.now) }
    ensures no_fault { IfErr result (λ reply. reply.status ≢ Status.WriteFault) }
{
    if text.len() > MOST_BYTES {
        return Err(Reply::message(alloc, Status::Usage, &"the project file is too long"));
    }
    match read_project(alloc, name.bytes(), text) {
        Ok(settings) => Ok(settings),
        Err(fault) => Err(project_reply(alloc, name, &fault)),
    }
}

/// What mintc.toml says, where the shelf gives it, or why it says nothing. Without it nothing is said.
fn default_settings<S: Shelf>(alloc: Global, shelf: &mut S) -> Result<Settings, Reply>
    ensures value { IfOk result (IsSettings (S.files shelf.old) None) }
    ensures reply { IfErr result (IsSettingsReply (S.files shelf.old) None) }
    ensures no_fault { IfErr result (λ reply. reply.status ≢ Status.WriteFault) }
    ensures same { S.files shelf.new ≡ S.files shelf.old }
    ensures later { S.faults shelf.old ≤ S.faults shelf.new }
    ensures read { IfErr result (λ reply. reply.status ≢ Status.ReadFault) }
    ensures reads { MakesAtMost 1 (S.calls shelf.old) (S.calls shelf.new) }
{
    match shelf.read(alloc, DEFAULT, MOST_BYTES + 1) {
        Ok(text) => match Name::new(alloc, DEFAULT.as_bytes()) {
            Ok(name) => settings_in(alloc, &name, &text),
            Err(OutOfMemory) => Err(Reply::out_of_memory(alloc)),
        },
        Err(ShelfError::Failed) => Ok(no_project(alloc)),
        Err(ShelfError::OutOfMemory) => Err(Reply::out_of_memory(alloc)),
    }
}

/// What a project file that is named says, or why it says nothing.
fn named_settings<S: Shelf>(alloc: Global, shelf: &mut S, name: &Name) -> Result<Settings, Reply>
    ensures value { IfOk result (IsSettings (S.files shelf.old) (Some name.now)) }
    ensures reply { IfErr result (IsSettingsReply (S.files shelf.old) (Some name.now)) }
    ensures no_fault { IfErr result (λ reply. reply.status ≢ Status.WriteFault) }
    ensures same { S.files shelf.new ≡ S.files shelf.old }
    ensures later { S.faults shelf.old ≤ S.faults shelf.new }
    ensures cause { IfErr result
        (λ reply. reply.status ≡ Status.ReadFault → Rose (S.faults shelf.old) (S.faults shelf.new)) }
    ensures reads { MakesAtMost 1 (S.calls shelf.old) (S.calls shelf.new) }
{
    let text = read_file(alloc, shelf, name)?;
    settings_in(alloc, name, text.items())
}

/// What the project file says: the one that is named, or else mintc.toml of this folder.
pub(crate) fn settings_of<S: Shelf>(
    alloc: Global,
    shelf: &mut S,
    named: &Option<Name>,
) -> Result<Settings, Reply>
    ensures value { IfOk result (IsSettings (S.files shelf.old) named.now) }
    ensures reply { IfErr result (IsSettingsReply (S.files shelf.old) named.now) }
    ensures no_fault { IfErr result (λ reply. reply.status ≢ Status.WriteFault) }
    ensures same { S.files shelf.new ≡ S.files shelf.old }
    ensures later { S.faults shelf.old ≤ S.faults shelf.new }
    ensures cause { IfErr result
        (λ reply. reply.status ≡ Status.ReadFault → Rose (S.faults shelf.old) (S.faults shelf.new)) }
    ensures reads { MakesAtMost 1 (S.calls shelf.old) (S.calls shelf.new) }
{
    match named {
        Some(name) => named_settings(alloc, shelf, name),
        None => default_settings(alloc, shelf),
    }
}
