//! From words to an order: a call of mintc, and how its answer is given.
ghost use Rattle.std.specs.Prelude.{◌≡◌, ◌≢◌, ◌<◌, ◌≤◌, true, Ok, length, IfOk, IfErr, MatchOption};
ghost use Rattle.mintc_text.specs.Outside.{Rose};
ghost use Rattle.mintc_command.specs.Answers.{MakesAtMost};
ghost use Rattle.mintc_command_answers.specs.Commands.{IsNumberInRange, roles_of};
ghost use Rattle.mintcx_answers.specs.Answers.{IsOnFiles};
ghost use Rattle.mintcx_requests.specs.Requests.{request_of};
ghost use Rattle.mintcx_translation.specs.Calls.{cells_place, takes_four};
ghost use Rattle.mintcx_run.specs.Replies.{IsEarlyReply, IsExplanationReply, IsFaultyReply, IsGapReply};
ghost use Rattle.mintcx_run.specs.Replies.{IsOrderOf, IsOrdered, IsOtherReply, IsPageOf, IsPageOfRefusal};
ghost use Rattle.mintcx_run.specs.Replies.{NamesNoRefusal, NamesNone};

use crate::projects::settings_of;
use crate::reply::{Place, Reply};
use mintc_command_answers::Status;
use mintc_text::{Name, Shelf};
use mintcx_explanations::{explanation_of, topic_number, warning_explanation};
use mintcx_project::Settings;
use mintcx_requests::{Design, Given, Manner, Request, Task, request_of};
use mintcx_translation::{Call, NoCall, call_of};
use std::alloc::Global;

/// A call of mintc, and how its answer is given.
#[derive(Drop)]
pub(crate) struct Order {
    pub(crate) call: Call,
    pub(crate) manner: Manner,
}

/// What is asked, or what is wrong with it.
fn asked_of(alloc: Global, given: Given, settings: Settings) -> Result<Request, Reply>
    ensures value { IfOk result (λ asked. request_of given settings ≡ Ok asked) }
    ensures reply { IfErr result (IsFaultyReply given settings) }
{
    match request_of(given, settings) {
        Ok(asked) => Ok(asked),
        Err(fault) => Err(Reply::message(alloc, Status::Usage, &fault)),
    }
}

/// The call of mintc for a task on a design, or what isn't there yet.
fn design_order(
    alloc: Global,
    task: Task,
    design: Design,
    clamp: bool,
    manner: Manner,
) -> Result<Order, Reply>
    ensures value { IfOk result (IsOrderOf (Request.OfDesign task design clamp manner)) }
    ensures count { IfOk result (λ order. length order.call.files ≡ length (roles_of order.call.command)) }
    ensures in_range { IfOk result (λ order. IsNumberInRange order.call.command) }
    ensures on_files { IfOk result (λ order. IsOnFiles order.call.command) }
    ensures library { IfOk result (λ order. order.call.of_library ≡ true → cells_place order.call.command < length order.call.files) }
    ensures apart { IfOk result (λ order. order.call.apart ≡ true → takes_four order.call.command ≡ true) }
    ensures reply { IfErr result (IsGapReply (Request.OfDesign task design clamp manner)) }
{
    match call_of(alloc, manner.format, clamp, task, design) {
        Ok(call) => Ok(Order { call, manner }),
        Err(NoCall::Missing(gap)) => Err(Reply::message(alloc, Status::Usage, &gap)),
        Err(NoCall::OutOfMemory) => Err(Reply::out_of_memory(alloc)),
    }
}

/// The page of the refusal that a topic names.
fn refusal_page(topic: &[u8]) -> Option<&'static str>
    ensures { MatchOption result (NamesNoRefusal topic.now) (λ page. IsPageOfRefusal topic.now page.now) }
{
    explanation_of(topic_number(topic)?)
}

/// The page of the refusal or of the warning that a topic names.
fn page_of(topic: &[u8]) -> Option<&'static str>
    ensures { MatchOption result (NamesNone topic.now) (λ page. IsPageOf topic.now page.now) }
{
    match refusal_page(topic) {
        Some(page) => Some(page),
        None => warning_explanation(topic),
    }
}

/// The page that a topic names, or that it names none.
fn explanation_reply(alloc: Global, topic: &Name) -> Reply
    ensures reply { IsExplanationReply topic.now result }
    ensures no_read { result.status ≢ Status.ReadFault }
    ensures no_write { result.status ≢ Status.WriteFault }
{
    match page_of(topic.bytes()) {
        Some(page) => Reply::saying(alloc, Status::Done, Place::Output, page.as_bytes()),
        None => Reply::message(
            alloc,
            Status::Usage,
            &"there is no such page; refusals are 1 to 19, 21 and 22, warnings 'outputs' and 'same-phase'",
        ),
    }
}

/// The call of mintc for a request, or the reply to one that is none.
fn order_of(alloc: Global, asked: Request) -> Result<Order, Reply>
    ensures value { IfOk result (IsOrderOf asked) }
    ensures count { IfOk result (λ order. length order.call.files ≡ length (roles_of order.call.command)) }
    ensures in_range { IfOk result (λ order. IsNumberInRange order.call.command) }
    ensures on_files { IfOk result (λ order. IsOnFiles order.call.command) }
    ensures library { IfOk result (λ order. order.call.of_library ≡ true → cells_place order.call.command < length order.call.files) }
    ensures apart { IfOk result (λ order. order.call.apart ≡ true → takes_four order.call.command ≡ true) }
    ensures reply { IfErr result (IsOtherReply asked) }
{
    match asked {
        Request::Explain { topic } => Err(explanation_reply(alloc, &topic)),
        Request::OfDesign {
            task,
            design,
            clamp,
            manner,
        } => design_order(alloc, task, design, clamp, manner),
    }
}

/// What is asked of mintc, or why nothing is that is there.
pub(crate) fn order_for<S: Shelf>(
    alloc: Global,
    given: Given,
    shelf: &mut S,
) -> Result<Order, Reply>
    ensures value { IfOk result (IsOrdered given (S.files shelf.old)) }
    ensures count { IfOk result (λ order. length order.call.files ≡ length (roles_of order.call.command)) }
    ensures in_range { IfOk result (λ order. IsNumberInRange order.call.command) }
    ensures on_files { IfOk result (λ order. IsOnFiles order.call.command) }
    ensures library { IfOk result (λ order. order.call.of_library ≡ true → cells_place order.call.command < length order.call.files) }
    ensures apart { IfOk result (λ order. order.call.apart ≡ true → takes_four order.call.command ≡ true) }
    ensures reply { IfErr result (IsEarlyReply given (S.files shelf.old)) }
    ensures no_fault { IfErr result (λ reply. reply.status ≢ Status.WriteFault) }
    ensures same { S.files shelf.new ≡ S.files shelf.old }
    ensures later { S.faults shelf.old ≤ S.faults shelf.new }
    ensures cause { IfErr result
        (λ reply. reply.status ≡ Status.ReadFault → Rose (S.faults shelf.old) (S.faults shelf.new)) }
    ensures reads { MakesAtMost 1 (S.calls shelf.old) (S.calls shelf.new) }
{
    let settings = settings_of(alloc, shelf, &given.project)?;
    let asked = asked_of(alloc, given, settings)?;
    order_of(alloc, asked)
}
