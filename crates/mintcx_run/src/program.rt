//! A run: words, files, one answer.
ghost use Rattle.std.specs.Prelude.{◌≡◌, ◌≢◌, ◌≤◌, ◌⊎◌, ℕ, Some, OnErr, OnOk, map, string_bytes};
ghost use Rattle.mintc_text.specs.Outside.{Rose, TakesFront};
ghost use Rattle.mintc_command.specs.Answers.{MakesAtMost};
ghost use Rattle.mintcx_run.specs.declared.reply.Beside.{Beside};
ghost use Rattle.mintcx_run.specs.declared.reply.Reply.{Reply};
ghost use Rattle.mintcx_run.specs.Deliveries.{IsAt, IsDelivered, IsMade, IsMadeBeside, IsStill, IsToldOf, IsWritten};
ghost use Rattle.mintcx_run.specs.Deliveries.{AreTold, sent};
ghost use Rattle.mintcx_run.specs.Replies.{IsReply};

use crate::calling::reply_to;
use crate::folder::Folder;
use crate::reading::shown;
use crate::reply::{Beside, Place, Reply};
use mintc_command_answers::Status;
use mintc_text::{Failed, Name, Shelf, Sink};
use std::alloc::Global;

/// Writes an answer by one call. The status is the answer's, or that the write failed.
fn write<O: Sink>(out: &mut O, status: Status, text: &[u8]) -> Status
    requires { status ≢ Status.WriteFault }
    ensures left { IsWritten status text.now result (O.taken out.old) (O.taken out.new) }
    ensures cause { result ≡ Status.WriteFault → Rose (O.faults out.old) (O.faults out.new) }
    ensures writes { MakesAtMost 1 (O.calls out.old) (O.calls out.new) }
{
    match out.write(text) {
        Ok(()) => status,
        Err(_) => Status::WriteFault,
    }
}

/// Tells a message by one call. Where that can't be written, nothing is said of it.
fn tell<E: Sink>(errors: &mut E, text: &[u8])
    ensures front { TakesFront (E.taken errors.old) (E.taken errors.new) text.now }
    ensures tells { MakesAtMost 1 (E.calls errors.old) (E.calls errors.new) }
{
    let _written = errors.write(text);
}

/// Tells that a file couldn't be made, by at most one call.
fn tell_unmade<E: Sink>(alloc: Global, errors: &mut E, name: &Name)
    ensures { MakesAtMost 1 (E.calls errors.old) (E.calls errors.new) }
{
    let name = shown(name);
    if let Ok(text) = format!(in alloc; "error: '{name}' can't be written\n") {
        tell(errors, text.as_bytes());
    }
}

/// Makes a file of an answer by one call. The status is the answer's, or that the file couldn't be made, which is told.
fn make<E: Sink, F: Folder>(
    alloc: Global,
    name: &Name,
    status: Status,
    text: &[u8],
    errors: &mut E,
    folder: &mut F,
) -> Status
    requires { status ≢ Status.WriteFault }
    ensures left { IsMade status name.now text.now result (F.made folder.old) (F.made folder.new) }
    ensures told { IsToldOf result (sent (E.taken errors.old) (E.taken errors.new)) }
    ensures cause { result ≡ Status.WriteFault → Rose (F.faults folder.old) (F.faults folder.new) }
    ensures tells { MakesAtMost 1 (E.calls errors.old) (E.calls errors.new) }
    ensures makes { MakesAtMost 1 (F.calls folder.old) (F.calls folder.new) }
{
    match folder.make(name.bytes(), text) {
        Ok(()) => status,
        Err(_) => {
            tell_unmade(alloc, errors, name);
            Status::WriteFault
        }
    }
}

/// Makes the file beside a text, where there is one, by one call. That it couldn't be made is told.
fn make_beside<E: Sink, F: Folder>(
    alloc: Global,
    beside: &Option<Beside>,
    errors: &mut E,
    folder: &mut F,
) -> Result<(), Failed>
    ensures made { OnOk result (IsMadeBeside beside.now (F.made folder.old) (F.made folder.new)) }
    ensures still { OnOk result (IsStill (sent (E.taken errors.old) (E.taken errors.new))) }
    ensures untold { OnOk result (E.calls errors.new ≡ E.calls errors.old) }
    ensures some { OnErr result ((file : Beside) × (beside.now ≡ Some file)) }
    ensures later { F.faults folder.old ≤ F.faults folder.new }
    ensures cause { OnErr result (Rose (F.faults folder.old) (F.faults folder.new)) }
    ensures tells { MakesAtMost 1 (E.calls errors.old) (E.calls errors.new) }
    ensures makes { MakesAtMost 1 (F.calls folder.old) (F.calls folder.new) }
{
    let Some(file) = beside else {
        return Ok(());
    };
    match folder.make(file.name.bytes(), file.text.items()) {
        Ok(()) => Ok(()),
        Err(failed) => {
            tell_unmade(alloc, errors, &file.name);
            Err(failed)
        }
    }
}

/// Writes the text of a reply by one call, to where it goes. The status is the reply's, or that an answer couldn't be
/// written.
fn put_text<O: Sink, E: Sink, F: Folder>(
    alloc: Global,
    reply: &Reply,
    out: &mut O,
    errors: &mut E,
    folder: &mut F,
) -> Status
    requires { reply.now.status ≢ Status.WriteFault }
    ensures at { IsAt reply.now.place reply.now result (sent (O.taken out.old) (O.taken out.new))
        (sent (E.taken errors.old) (E.taken errors.new)) (sent (F.made folder.old) (F.made folder.new)) }
    ensures cause { result ≡ Status.WriteFault →
        Rose (O.faults out.old) (O.faults out.new) ⊎ Rose (F.faults folder.old) (F.faults folder.new) }
    ensures unread { result ≡ Status.ReadFault → reply.now.status ≡ Status.ReadFault }
    ensures writes { MakesAtMost 1 (O.calls out.old) (O.calls out.new) }
    ensures tells { MakesAtMost 1 (E.calls errors.old) (E.calls errors.new) }
    ensures makes { MakesAtMost 1 (F.calls folder.old) (F.calls folder.new) }
{
    let text = reply.text.items();
    match &reply.place {
        Place::Output => write(out, reply.status, text),
        Place::File(name) => make(alloc, name, reply.status, text, errors, folder),
        Place::Errors => {
            tell(errors, text);
            reply.status
        }
        Place::Nowhere => reply.status,
    }
}

/// Tells warnings by one call, where there are some.
fn warn<E: Sink>(errors: &mut E, warnings: &[u8])
    ensures told { AreTold warnings.now (sent (E.taken errors.old) (E.taken errors.new)) }
    ensures tells { MakesAtMost 1 (E.calls errors.old) (E.calls errors.new) }
{
    if !warnings.is_empty() {
        tell(errors, warnings);
    }
}

/// Makes the file beside a reply, and tells its warnings and writes its text where that could be made. The status is
/// the reply's, or that one of the two couldn't be written.
fn deliver<O: Sink, E: Sink, F: Folder>(
    alloc: Global,
    reply: &Reply,
    out: &mut O,
    errors: &mut E,
    folder: &mut F,
) -> Status
    requires { reply.now.status ≢ Status.WriteFault }
    ensures delivered { IsDelivered reply.now result (sent (O.taken out.old) (O.taken out.new))
        (sent (E.taken errors.old) (E.taken errors.new)) (sent (F.made folder.old) (F.made folder.new)) }
    ensures cause { result ≡ Status.WriteFault →
        Rose (O.faults out.old) (O.faults out.new) ⊎ Rose (F.faults folder.old) (F.faults folder.new) }
    ensures unread { result ≡ Status.ReadFault → reply.now.status ≡ Status.ReadFault }
    ensures writes { MakesAtMost 1 (O.calls out.old) (O.calls out.new) }
    ensures tells { MakesAtMost 2 (E.calls errors.old) (E.calls errors.new) }
    ensures makes { MakesAtMost 2 (F.calls folder.old) (F.calls folder.new) }
{
    match make_beside(alloc, &reply.beside, errors, folder) {
        Ok(()) => {
            warn(errors, reply.warnings.items());
            put_text(alloc, reply, out, errors, folder)
        }
        Err(_) => Status::WriteFault,
    }
}

/// Does what the words ask, of which the first is the program's own name: reads the project file and the files that
/// they name, each once and in their order, and one that is refused once more; makes the file of a certificate, where
/// one is wanted, tells warnings by one call, and writes the answer, or what is wrong, by one call. Nothing is written
/// before the text is whole.
pub fn run<S: Shelf, O: Sink, E: Sink, F: Folder>(
    alloc: Global,
    words: &[String],
    shelf: &mut S,
    out: &mut O,
    errors: &mut E,
    folder: &mut F,
) -> Status
    ensures replied { (reads : ℕ) × (reply : Reply)
        × IsReply (map string_bytes words.now) (S.files shelf.old) reads reply
        × MakesAtMost reads (S.calls shelf.old) (S.calls shelf.new)
        × IsDelivered reply result (sent (O.taken out.old) (O.taken out.new))
        (sent (E.taken errors.old) (E.taken errors.new)) (sent (F.made folder.old) (F.made folder.new)) }
    ensures same { S.files shelf.new ≡ S.files shelf.old }
    ensures read_cause { result ≡ Status.ReadFault → Rose (S.faults shelf.old) (S.faults shelf.new) }
    ensures write_cause { result ≡ Status.WriteFault →
        Rose (O.faults out.old) (O.faults out.new) ⊎ Rose (F.faults folder.old) (F.faults folder.new) }
    ensures writes { MakesAtMost 1 (O.calls out.old) (O.calls out.new) }
    ensures tells { MakesAtMost 2 (E.calls errors.old) (E.calls errors.new) }
    ensures makes { MakesAtMost 2 (F.calls folder.old) (F.calls folder.new) }
{
    let reply = reply_to(alloc, words, shelf);
    deliver(alloc, &reply, out, errors, folder)
}
