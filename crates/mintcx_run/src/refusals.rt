//! Refusals, as they are told to people.
ghost use Rattle.std.specs.Prelude.{◌≡◌, ◌≢◌, ◌≤◌, length, IfOk};
ghost use Rattle.mintc_text.specs.Outside.{Rose};
ghost use Rattle.mintc_command.specs.Answers.{MakesAtMost};
ghost use Rattle.mintc_command_answers.specs.Commands.{IsNumberInRange, roles_of};
ghost use Rattle.mintcx_run.specs.Replies.{IsCornerReply, IsCornerText, IsMessage, IsRefusalReply, IsRefusalText};
ghost use Rattle.mintcx_run.specs.Replies.{IsRefusedFile, IsSaidReply, IsTextOfCorner, IsTextOfRefusal};
ghost use Rattle.mintcx_run.specs.Replies.{is_object, refusal_place};

use crate::objects::{corner_object, refusal_object};
use crate::orders::Order;
use crate::reading::{read_file, shown};
use crate::reply::{Place, Reply};
use mintc_command_answers::Status;
use mintc_text::{Bytes, OutOfMemory, Refusal, Shelf};
use mintcx_manners::{Detail, Format};
use mintcx_refusals::{
    Inputs, beside_of, corner_message, file_of, refusal_message, short_message, teller,
};
use std::alloc::Global;

/// The first bytes of the file that a refusal speaks of, read once more; none where it speaks of none, or where that
/// file can't be read any more.
fn refused_file<S: Shelf>(alloc: Global, order: &Order, refusal: &Refusal, shelf: &mut S) -> Bytes
    requires in_range { IsNumberInRange order.now.call.command }
    requires names { length order.now.call.files ≡ length (roles_of order.now.call.command) }
    ensures file { IsRefusedFile (S.files shelf.old) order.now refusal.now result }
    ensures same { S.files shelf.new ≡ S.files shelf.old }
    ensures later { S.faults shelf.old ≤ S.faults shelf.new }
    ensures reads { MakesAtMost 1 (S.calls shelf.old) (S.calls shelf.new) }
{
    if let Some(at) = file_of(order.call.command.roles(), refusal) {
        if let Ok(file) = read_file(alloc, shelf, &order.call.files.items()[at]) {
            return file;
        }
    }
    Bytes::new(Vec::new(alloc))
}

/// Whether the answer is an object, and so a refusal.
fn is_object(order: &Order) -> bool
    ensures { result ≡ is_object order.now.manner.format }
{
    matches!(order.manner.format, Format::Json)
}

/// The first bytes of the other file that the message of a refusal takes names from, read once more; none where it
/// takes none, or where that file can't be read any more.
fn beside_file<S: Shelf>(alloc: Global, order: &Order, refusal: &Refusal, shelf: &mut S) -> Bytes
    requires in_range { IsNumberInRange order.now.call.command }
    requires names { length order.now.call.files ≡ length (roles_of order.now.call.command) }
    ensures same { S.files shelf.new ≡ S.files shelf.old }
    ensures later { S.faults shelf.old ≤ S.faults shelf.new }
    ensures reads { MakesAtMost 1 (S.calls shelf.old) (S.calls shelf.new) }
{
    if let Some(at) = beside_of(order.call.command.roles(), refusal) {
        if let Ok(file) = read_file(alloc, shelf, &order.call.files.items()[at]) {
            return file;
        }
    }
    Bytes::new(Vec::new(alloc))
}

/// What is said of a refusal for people, with the bytes of the file that it speaks of, and of the one beside it.
fn message_of(
    alloc: Global,
    order: &Order,
    refusal: &Refusal,
    file: &[u8],
    beside: &[u8],
) -> Result<Bytes, OutOfMemory>
    requires in_range { IsNumberInRange order.now.call.command }
    ensures { IfOk result (IsTextOfRefusal order.now.manner.detail order.now file.now refusal.now) }
{
    let inputs = Inputs {
        roles: order.call.command.roles(),
        names: order.call.files.items(),
        beside,
    };
    match order.manner.detail {
        Detail::Full => refusal_message(alloc, refusal, &inputs, file),
        Detail::Short => short_message(alloc, refusal, &inputs, file),
    }
}

/// What is said of a refusal: an object, or a message.
fn said(
    alloc: Global,
    order: &Order,
    refusal: &Refusal,
    file: &[u8],
    beside: &[u8],
) -> Result<Bytes, OutOfMemory>
    requires in_range { IsNumberInRange order.now.call.command }
    ensures { IfOk result (IsRefusalText order.now file.now refusal.now) }
{
    if is_object(order) {
        refusal_object(alloc, order, refusal, file, beside)
    } else {
        message_of(alloc, order, refusal, file, beside)
    }
}

/// What is said for people of a corner, counted from 1, and of what its own files are refused for, with the bytes of
/// the file that this speaks of, and of the one beside it.
fn message_of_corner(
    alloc: Global,
    order: &Order,
    corner: u32,
    own: &Refusal,
    file: &[u8],
    beside: &[u8],
) -> Result<Bytes, OutOfMemory>
    requires in_range { IsNumberInRange order.now.call.command }
    ensures { IfOk result (IsTextOfCorner order.now.manner.detail order.now file.now corner own.now) }
{
    let inputs = Inputs {
        roles: order.call.command.roles(),
        names: order.call.files.items(),
        beside,
    };
    match order.manner.detail {
        Detail::Full => corner_message(alloc, corner, own, &inputs, file),
        Detail::Short => short_message(alloc, &Refusal::Corner { file: corner }, &inputs, file),
    }
}

/// What is said of a corner: an object, or a message.
fn said_of_corner(
    alloc: Global,
    order: &Order,
    corner: u32,
    own: &Refusal,
    file: &[u8],
    beside: &[u8],
) -> Result<Bytes, OutOfMemory>
    requires in_range { IsNumberInRange order.now.call.command }
    ensures { IfOk result (IsCornerText order.now file.now corner own.now) }
{
    if is_object(order) {
        corner_object(alloc, order, corner, own, file, beside)
    } else {
        message_of_corner(alloc, order, corner, own, file, beside)
    }
}

/// Where a refusal goes.
fn refusal_place(order: &Order) -> Place
    ensures { result ≡ refusal_place order.now.manner }
{
    if !is_object(order) {
        return Place::Errors;
    }
    if order.manner.quiet {
        Place::Nowhere
    } else {
        Place::Output
    }
}

/// The reply that says why files are refused.
fn reply_of(alloc: Global, order: &Order, said: Result<Bytes, OutOfMemory>) -> Reply
    ensures { IsSaidReply order.now.manner said result }
{
    match said {
        Ok(text) => Reply {
            status: Status::Refused,
            place: refusal_place(order),
            text,
            beside: None,
            warnings: Bytes::new(Vec::new(alloc)),
        },
        Err(OutOfMemory) => Reply::out_of_memory(alloc),
    }
}

/// The reply that the files are refused.
pub(crate) fn refused<S: Shelf>(
    alloc: Global,
    order: &Order,
    refusal: &Refusal,
    shelf: &mut S,
) -> Reply
    requires in_range { IsNumberInRange order.now.call.command }
    requires names { length order.now.call.files ≡ length (roles_of order.now.call.command) }
    ensures reply { IsRefusalReply (S.files shelf.old) order.now refusal.now result }
    ensures same { S.files shelf.new ≡ S.files shelf.old }
    ensures later { S.faults shelf.old ≤ S.faults shelf.new }
    ensures reads { MakesAtMost 2 (S.calls shelf.old) (S.calls shelf.new) }
{
    let file = refused_file(alloc, order, refusal, shelf);
    let beside = beside_file(alloc, order, refusal, shelf);
    reply_of(
        alloc,
        order,
        said(alloc, order, refusal, file.items(), beside.items()),
    )
}

/// The reply that the files of a corner, counted from 1, are refused, and why they are.
pub(crate) fn refused_corner<S: Shelf>(
    alloc: Global,
    order: &Order,
    corner: u32,
    own: &Refusal,
    shelf: &mut S,
) -> Reply
    requires in_range { IsNumberInRange order.now.call.command }
    requires names { length order.now.call.files ≡ length (roles_of order.now.call.command) }
    ensures reply { IsCornerReply (S.files shelf.old) order.now corner own.now result }
    ensures same { S.files shelf.new ≡ S.files shelf.old }
    ensures later { S.faults shelf.old ≤ S.faults shelf.new }
    ensures reads { MakesAtMost 2 (S.calls shelf.old) (S.calls shelf.new) }
{
    let outer = Refusal::Corner { file: corner };
    let file = refused_file(alloc, order, teller(&outer, own), shelf);
    let beside = beside_file(alloc, order, own, shelf);
    reply_of(
        alloc,
        order,
        said_of_corner(alloc, order, corner, own, file.items(), beside.items()),
    )
}

/// The reply that a gate of a library, by its number in the list of names, can't be a cell of the clock.
pub(crate) fn gate_reply(alloc: Global, order: &Order, at: usize, why: &str) -> Reply
    ensures message { IsMessage Status.Usage result }
    ensures no_read { result.status ≢ Status.ReadFault }
    ensures no_write { result.status ≢ Status.WriteFault }
{
    let name = match order.call.gates.items().get(at) {
        Some(name) => shown(name),
        None => "?",
    };
    match format!(in alloc; "'--clock-cell {name}' {why}") {
        Ok(said) => Reply::message(alloc, Status::Usage, &said),
        Err(_) => Reply::out_of_memory(alloc),
    }
}
