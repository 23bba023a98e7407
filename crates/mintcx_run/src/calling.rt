//! From words to the reply.
ghost use Rattle.std.specs.Prelude.{◌≡◌, ◌≢◌, ◌<◌, ◌≤◌, ◌+◌, ◌⊎◌, ℕ, List, true, IfSome, length, map, string_bytes};
ghost use Rattle.mintc_text.specs.Limits.{large};
ghost use Rattle.mintc_text.specs.Outside.{Rose};
ghost use Rattle.mintc_timing.specs.Limits.{IsWithinLimits};
ghost use Rattle.mintc_command.specs.Answers.{MakesAtMost};
ghost use Rattle.mintc_command_answers.specs.Commands.{IsNumberInRange, roles_of};
ghost use Rattle.mintc_command_answers.specs.declared.status.Status.TheVariants.{ReadFault, WriteFault};
ghost use Rattle.mintcx_answers.specs.Answers.{IsOnFiles};
ghost use Rattle.mintcx_translation.specs.Calls.{cells_place, takes_four};
ghost use Rattle.mintcx_run.specs.Libraries.{restored};
ghost use Rattle.mintcx_run.specs.Replies.{IsApartReply, IsCallReply, IsDesignReply, IsGivenReply, IsHaltReply};
ghost use Rattle.mintcx_run.specs.Replies.{IsMadeReply, IsMessage, IsOwnReply, IsTextsReply};
ghost use Rattle.mintcx_run.specs.Replies.{IsOutOfMemory, IsPlaced, IsReply, IsTakenReply, IsUnfitReply, beside_of};
ghost use Rattle.mintcx_run.specs.Replies.{command_as, has_schedule, place_of, read_as, takes_schedules, told_place};
ghost use Rattle.mintcx_run.specs.Warned.{AreAllWarned, AreClampsTold};

use crate::answers::{Told, answer_of, is_own};
use crate::apart::{in_place, make_apart, of_table};
use crate::libraries::{describe, restored};
use crate::orders::{Order, order_for};
use crate::projects::given_of;
use crate::reading::read_files;
use crate::refusals::{gate_reply, refused, refused_corner};
use crate::reply::{Beside, Place, Reply};
use crate::taking::take_files;
use crate::warned::{all_warnings, clamps_for};
use mintc_command_answers::{Command, Job, Status};
use mintc_text::{Bytes, Name, Shelf};
use mintc_timing::Flat;
use mintcx_answers::Halt;
use mintcx_apart::{Apart, Halt as EdgeHalt, Obstacle, table_apart};
use mintcx_clock_cells::Unfit;
use mintcx_requests::{Given, Manner};
use mintcx_translation::{Aspect, Call, cells_place};
use std::alloc::Global;

/// Where an answer goes.
fn place_of(manner: Manner) -> Place
    ensures { result ≡ place_of manner }
{
    if manner.quiet {
        return Place::Nowhere;
    }
    match manner.output {
        Some(name) => Place::File(name),
        None => Place::Output,
    }
}

/// The file of a certificate.
fn beside_of(name: Option<Name>, certificate: Option<Bytes>) -> Option<Beside>
    ensures { result ≡ beside_of name certificate }
{
    match (name, certificate) {
        (Some(name), Some(text)) => Some(Beside { name, text }),
        _ => None,
    }
}

/// Where what is told goes: messages to the second sink.
fn told_place(manner: Manner, is_message: bool) -> Place
    ensures { result ≡ told_place manner is_message }
{
    if is_message {
        Place::Errors
    } else {
        place_of(manner)
    }
}

/// The reply that tells an answer, where its order wants it, and warnings.
fn placed(order: Order, told: Told, warnings: Bytes) -> Reply
    ensures placed { IsPlaced order told result }
    ensures warned { result.warnings ≡ warnings }
{
    Reply {
        status: told.status,
        place: told_place(order.manner, told.is_message),
        text: told.text,
        beside: beside_of(order.call.certificate, told.certificate),
        warnings,
    }
}

/// Whether the last file begins as the text of a schedule does.
fn has_schedule(files: &[Bytes]) -> bool
    ensures { result ≡ has_schedule files.now }
{
    !files.is_empty() && files[files.len() - 1].items().starts_with(b"schedule ")
}

/// Whether what is told of a certificate is told of a schedule's own text too.
fn takes_schedules(aspect: Aspect) -> bool
    ensures { result ≡ takes_schedules aspect }
{
    matches!(aspect, Aspect::Clocks | Aspect::Picture)
}

/// The command of a call, once its files are read: the clocks and the picture of a schedule's own text are those of
/// `check`.
fn command_as(aspect: Aspect, command: Command, files: &[Bytes]) -> Command
    ensures value { result ≡ command_as aspect command files.now }
    ensures count { length (roles_of result) ≡ length (roles_of command) }
    ensures in_range { IsNumberInRange command → IsNumberInRange result }
    ensures on_files { IsOnFiles command → IsOnFiles result }
    ensures four { takes_four result ≡ takes_four command }
{
    match command {
        Command::OfDesign {
            job: Job::Verify,
            source,
        } if takes_schedules(aspect) => {
            let job = if has_schedule(files) {
                Job::Check
            } else {
                Job::Verify
            };
            Command::OfDesign { job, source }
        }
        _ => command,
    }
}

/// An order, once its files are read.
fn read_as(order: Order, files: &[Bytes]) -> Order
    ensures value { result ≡ read_as order files.now }
    ensures count { length (roles_of result.call.command) ≡ length (roles_of order.call.command) }
    ensures in_range { IsNumberInRange order.call.command → IsNumberInRange result.call.command }
    ensures on_files { IsOnFiles order.call.command → IsOnFiles result.call.command }
    ensures four { takes_four result.call.command ≡ takes_four order.call.command }
{
    let command = command_as(order.call.aspect, order.call.command, files);
    Order {
        call: Call {
            command,
            ..order.call
        },
        manner: order.manner,
    }
}

/// The reply to an order of the texts that are given, with these warnings; for people it is one of the design at hand,
/// where there is one.
fn texts_reply<S: Shelf>(
    alloc: Global,
    order: Order,
    shown: Option<Flat>,
    mut files: Vec<Bytes>,
    warnings: Bytes,
    shelf: &mut S,
) -> Reply
    requires count { length order.call.files ≡ length (roles_of order.call.command) }
    requires files { length files.items ≡ length (roles_of order.call.command) }
    requires in_range { IsNumberInRange order.call.command }
    requires on_files { IsOnFiles order.call.command }
    requires within { IfSome shown (IsWithinLimits large) }
    ensures reply { IsOutOfMemory result ⊎ IsTextsReply (S.files shelf.old) shown order files.items warnings result }
    ensures no_fault { result.status ≢ WriteFault }
    ensures no_read { result.status ≢ ReadFault }
    ensures same { S.files shelf.new ≡ S.files shelf.old }
    ensures later { S.faults shelf.old ≤ S.faults shelf.new }
    ensures reads { MakesAtMost 2 (S.calls shelf.old) (S.calls shelf.new) }
{
    match answer_of(alloc, &order, shown, files.as_mut_slice()) {
        Ok(told) => placed(order, told, warnings),
        Err(Halt::Refused(refusal)) => refused(alloc, &order, &refusal, shelf),
        Err(Halt::Corner { corner, own }) => refused_corner(alloc, &order, corner, &own, shelf),
        Err(Halt::OutOfMemory) => Reply::out_of_memory(alloc),
    }
}

/// mintc's own answer to an order of a design with edges apart, asked of the design's table, or that no table can say
/// it.
#[tactic(auto, using(crate::proofs::ApartLaws::four_roles))]
fn own_reply<S: Shelf>(
    alloc: Global,
    order: Order,
    flat: Flat,
    files: Vec<Bytes>,
    warnings: Bytes,
    shelf: &mut S,
) -> Reply
    requires count { length order.call.files ≡ length (roles_of order.call.command) }
    requires files { length files.items ≡ length (roles_of order.call.command) }
    requires in_range { IsNumberInRange order.call.command }
    requires on_files { IsOnFiles order.call.command }
    requires four { takes_four order.call.command ≡ true }
    ensures reply { IsOutOfMemory result ⊎ IsOwnReply (S.files shelf.old) order files.items warnings flat result }
    ensures no_fault { result.status ≢ WriteFault }
    ensures no_read { result.status ≢ ReadFault }
    ensures same { S.files shelf.new ≡ S.files shelf.old }
    ensures later { S.faults shelf.old ≤ S.faults shelf.new }
    ensures reads { MakesAtMost 2 (S.calls shelf.old) (S.calls shelf.new) }
{
    match table_apart(alloc, flat) {
        Ok(Apart::Said(table)) => {
            let texts = in_place(table, files);
            texts_reply(alloc, of_table(order), None, texts, warnings, shelf)
        }
        Ok(Apart::Unsaid(obstacle)) => unsaid_reply(alloc, &obstacle),
        Err(_) => Reply::out_of_memory(alloc),
    }
}

/// The reply where there is a design with edges apart, of what is taken of the files of an order: mintc's own answer is
/// that of the design's table, and what is told to people is told of the design itself.
fn made_reply<S: Shelf>(
    alloc: Global,
    order: Order,
    flat: Flat,
    files: Vec<Bytes>,
    warnings: Bytes,
    shelf: &mut S,
) -> Reply
    requires count { length order.call.files ≡ length (roles_of order.call.command) }
    requires files { length files.items ≡ length (roles_of order.call.command) }
    requires in_range { IsNumberInRange order.call.command }
    requires on_files { IsOnFiles order.call.command }
    requires four { takes_four order.call.command ≡ true }
    requires within { IsWithinLimits large flat }
    ensures reply { IsOutOfMemory result ⊎ IsMadeReply (S.files shelf.old) order files.items warnings flat result }
    ensures no_fault { result.status ≢ WriteFault }
    ensures no_read { result.status ≢ ReadFault }
    ensures same { S.files shelf.new ≡ S.files shelf.old }
    ensures later { S.faults shelf.old ≤ S.faults shelf.new }
    ensures reads { MakesAtMost 2 (S.calls shelf.old) (S.calls shelf.new) }
{
    if is_own(&order) {
        own_reply(alloc, order, flat, files, warnings, shelf)
    } else {
        texts_reply(alloc, order, Some(flat), files, warnings, shelf)
    }
}

/// The reply that no table can say a design.
fn unsaid_reply(alloc: Global, obstacle: &Obstacle) -> Reply
    ensures message { IsMessage Status.Found result }
    ensures no_fault { result.status ≢ WriteFault }
    ensures no_read { result.status ≢ ReadFault }
{
    match format!(in alloc; "edges can't be kept apart: {obstacle}; give '--edges merged'") {
        Ok(said) => Reply::message(alloc, Status::Found, &said),
        Err(_) => Reply::out_of_memory(alloc),
    }
}

/// What is said of a gate that is no cell of its library.
const UNKNOWN: &str = "names no cell of the library";

/// What is said of a gate that can't carry the clock alone.
const UNUSABLE: &str = "names no gate of one input and one output, which follows or inverts it";

/// The reply where there is no design with edges apart.
fn halt_reply<S: Shelf>(alloc: Global, order: &Order, why: &EdgeHalt, shelf: &mut S) -> Reply
    requires in_range { IsNumberInRange order.now.call.command }
    requires names { length order.now.call.files ≡ length (roles_of order.now.call.command) }
    ensures reply { IsHaltReply (S.files shelf.old) order.now why.now result }
    ensures no_fault { result.status ≢ WriteFault }
    ensures no_read { result.status ≢ ReadFault }
    ensures same { S.files shelf.new ≡ S.files shelf.old }
    ensures later { S.faults shelf.old ≤ S.faults shelf.new }
    ensures reads { MakesAtMost 2 (S.calls shelf.old) (S.calls shelf.new) }
{
    match why {
        EdgeHalt::Refused(refusal) => refused(alloc, order, refusal, shelf),
        EdgeHalt::Unknown { at } => gate_reply(alloc, order, *at, UNKNOWN),
        EdgeHalt::Unusable { at } => gate_reply(alloc, order, *at, UNUSABLE),
        EdgeHalt::OutOfMemory => Reply::out_of_memory(alloc),
    }
}

/// The reply to an order of the design with edges apart of what is taken of its files, with these warnings.
fn apart_reply<S: Shelf>(
    alloc: Global,
    order: Order,
    files: Vec<Bytes>,
    warnings: Bytes,
    shelf: &mut S,
) -> Reply
    requires count { length order.call.files ≡ length (roles_of order.call.command) }
    requires files { length files.items ≡ length (roles_of order.call.command) }
    requires in_range { IsNumberInRange order.call.command }
    requires on_files { IsOnFiles order.call.command }
    requires four { takes_four order.call.command ≡ true }
    ensures reply { IsOutOfMemory result ⊎ IsApartReply (S.files shelf.old) order files.items warnings result }
    ensures no_fault { result.status ≢ WriteFault }
    ensures no_read { result.status ≢ ReadFault }
    ensures same { S.files shelf.new ≡ S.files shelf.old }
    ensures later { S.faults shelf.old ≤ S.faults shelf.new }
    ensures reads { MakesAtMost 2 (S.calls shelf.old) (S.calls shelf.new) }
{
    match make_apart(alloc, &order, files.as_slice()) {
        Ok(flat) => made_reply(alloc, order, flat, files, warnings, shelf),
        Err(why) => halt_reply(alloc, &order, &why, shelf),
    }
}

/// The reply to an order of the texts that are given, or, where edges are kept apart, of what is taken of its files;
/// `library` is what was taken of a library that is described, and `clamps` are the warnings of delays below 0.
#[tactic(auto, using(crate::proofs::ApartLaws::cells_among))]
fn design_reply<S: Shelf>(
    alloc: Global,
    order: Order,
    library: Option<Bytes>,
    files: Vec<Bytes>,
    clamps: Bytes,
    shelf: &mut S,
) -> Reply
    requires count { length order.call.files ≡ length (roles_of order.call.command) }
    requires files { length files.items ≡ length (roles_of order.call.command) }
    requires in_range { IsNumberInRange order.call.command }
    requires on_files { IsOnFiles order.call.command }
    requires four { order.call.apart ≡ true → takes_four order.call.command ≡ true }
    ensures reply { (fronts : List (List ℕ)) → AreClampsTold order fronts clamps → IsOutOfMemory result
        ⊎ ((warnings : List ℕ) × AreAllWarned order fronts files.items warnings × IsDesignReply (S.files shelf.old)
        order (restored files.items (cells_place order.call.command) library) files.items warnings result) }
    ensures no_fault { result.status ≢ WriteFault }
    ensures no_read { result.status ≢ ReadFault }
    ensures same { S.files shelf.new ≡ S.files shelf.old }
    ensures later { S.faults shelf.old ≤ S.faults shelf.new }
    ensures reads { MakesAtMost 2 (S.calls shelf.old) (S.calls shelf.new) }
{
    let warnings = all_warnings(alloc, &order, clamps, files.as_slice());
    if order.call.apart {
        let at = cells_place(order.call.command);
        let taken = restored(files, at, library);
        apart_reply(alloc, order, taken, warnings, shelf)
    } else {
        texts_reply(alloc, order, None, files, warnings, shelf)
    }
}

/// The reply to an order whose library has no description.
fn unfit_reply<S: Shelf>(alloc: Global, order: &Order, why: &Unfit, shelf: &mut S) -> Reply
    requires in_range { IsNumberInRange order.now.call.command }
    requires names { length order.now.call.files ≡ length (roles_of order.now.call.command) }
    ensures reply { IsUnfitReply (S.files shelf.old) order.now why.now result }
    ensures no_fault { result.status ≢ WriteFault }
    ensures no_read { result.status ≢ ReadFault }
    ensures same { S.files shelf.new ≡ S.files shelf.old }
    ensures later { S.faults shelf.old ≤ S.faults shelf.new }
    ensures reads { MakesAtMost 2 (S.calls shelf.old) (S.calls shelf.new) }
{
    match why {
        Unfit::Refused(refusal) => refused(alloc, order, refusal, shelf),
        Unfit::Unknown { at } => gate_reply(alloc, order, *at, UNKNOWN),
        Unfit::Unusable { at } => gate_reply(alloc, order, *at, UNUSABLE),
        Unfit::OutOfMemory => Reply::out_of_memory(alloc),
    }
}

/// The reply to an order whose library is described, of what is taken of its files, and of the warnings of delays below
/// 0.
fn described_reply<S: Shelf>(
    alloc: Global,
    order: Order,
    mut files: Vec<Bytes>,
    clamps: Bytes,
    shelf: &mut S,
) -> Reply
    requires count { length order.call.files ≡ length (roles_of order.call.command) }
    requires files { length files.items ≡ length (roles_of order.call.command) }
    requires in_range { IsNumberInRange order.call.command }
    requires on_files { IsOnFiles order.call.command }
    requires described { order.call.of_library ≡ true }
    requires four { order.call.apart ≡ true → takes_four order.call.command ≡ true }
    requires library { cells_place order.call.command < length order.call.files }
    ensures reply { (fronts : List (List ℕ)) → AreClampsTold order fronts clamps →
        IsTakenReply (S.files shelf.old) order fronts files.items result }
    ensures no_fault { result.status ≢ WriteFault }
    ensures no_read { result.status ≢ ReadFault }
    ensures same { S.files shelf.new ≡ S.files shelf.old }
    ensures later { S.faults shelf.old ≤ S.faults shelf.new }
    ensures reads { MakesAtMost 2 (S.calls shelf.old) (S.calls shelf.new) }
{
    let at = cells_place(order.call.command);
    match describe(alloc, at, order.call.gates.items(), files.as_mut_slice()) {
        Ok(library) => design_reply(alloc, order, Some(library), files, clamps, shelf),
        Err(why) => unfit_reply(alloc, &order, &why, shelf),
    }
}

/// The reply to an order, of what is taken of its files, and of the warnings of delays below 0.
fn taken_reply<S: Shelf>(
    alloc: Global,
    order: Order,
    files: Vec<Bytes>,
    clamps: Bytes,
    shelf: &mut S,
) -> Reply
    requires count { length order.call.files ≡ length (roles_of order.call.command) }
    requires files { length files.items ≡ length (roles_of order.call.command) }
    requires in_range { IsNumberInRange order.call.command }
    requires on_files { IsOnFiles order.call.command }
    requires library { order.call.of_library ≡ true → cells_place order.call.command < length order.call.files }
    requires four { order.call.apart ≡ true → takes_four order.call.command ≡ true }
    ensures reply { (fronts : List (List ℕ)) → AreClampsTold order fronts clamps →
        IsTakenReply (S.files shelf.old) order fronts files.items result }
    ensures no_fault { result.status ≢ WriteFault }
    ensures no_read { result.status ≢ ReadFault }
    ensures same { S.files shelf.new ≡ S.files shelf.old }
    ensures later { S.faults shelf.old ≤ S.faults shelf.new }
    ensures reads { MakesAtMost 2 (S.calls shelf.old) (S.calls shelf.new) }
{
    if order.call.of_library {
        described_reply(alloc, order, files, clamps, shelf)
    } else {
        design_reply(alloc, order, None, files, clamps, shelf)
    }
}

/// The reply to a call, over a shelf.
fn call_reply<S: Shelf>(alloc: Global, order: Order, shelf: &mut S) -> Reply
    requires count { length order.call.files ≡ length (roles_of order.call.command) }
    requires in_range { IsNumberInRange order.call.command }
    requires on_files { IsOnFiles order.call.command }
    requires library { order.call.of_library ≡ true → cells_place order.call.command < length order.call.files }
    requires four { order.call.apart ≡ true → takes_four order.call.command ≡ true }
    ensures reply { IsCallReply (S.files shelf.old) order result }
    ensures no_fault { result.status ≢ WriteFault }
    ensures same { S.files shelf.new ≡ S.files shelf.old }
    ensures later { S.faults shelf.old ≤ S.faults shelf.new }
    ensures cause { result.status ≡ ReadFault → Rose (S.faults shelf.old) (S.faults shelf.new) }
    ensures reads { MakesAtMost (length order.call.files + 2) (S.calls shelf.old) (S.calls shelf.new) }
{
    let mut files = match read_files(alloc, shelf, order.call.files.items()) {
        Ok(files) => files,
        Err(reply) => return reply,
    };
    let clamps = clamps_for(alloc, &order, files.as_slice());
    match take_files(alloc, &order, files.as_mut_slice()) {
        Ok(()) => {
            let order = read_as(order, files.as_slice());
            taken_reply(alloc, order, files, clamps, shelf)
        }
        Err(_) => Reply::out_of_memory(alloc),
    }
}

/// The reply to what the words give, over a shelf.
fn given_reply<S: Shelf>(alloc: Global, given: Given, shelf: &mut S) -> Reply
    ensures reply { (reads : ℕ) × IsGivenReply given (S.files shelf.old) reads result
        × MakesAtMost reads (S.calls shelf.old) (S.calls shelf.new) }
    ensures no_fault { result.status ≢ WriteFault }
    ensures same { S.files shelf.new ≡ S.files shelf.old }
    ensures cause { result.status ≡ ReadFault → Rose (S.faults shelf.old) (S.faults shelf.new) }
{
    match order_for(alloc, given, shelf) {
        Ok(order) => call_reply(alloc, order, shelf),
        Err(reply) => reply,
    }
}

/// The reply to the words, over a shelf.
pub(crate) fn reply_to<S: Shelf>(alloc: Global, words: &[String], shelf: &mut S) -> Reply
    ensures reply { (reads : ℕ) × IsReply (map string_bytes words.now) (S.files shelf.old) reads result
        × MakesAtMost reads (S.calls shelf.old) (S.calls shelf.new) }
    ensures no_fault { result.status ≢ WriteFault }
    ensures same { S.files shelf.new ≡ S.files shelf.old }
    ensures cause { result.status ≡ ReadFault → Rose (S.faults shelf.old) (S.faults shelf.new) }
{
    match given_of(alloc, words) {
        Ok(given) => given_reply(alloc, given, shelf),
        Err(reply) => reply,
    }
}
