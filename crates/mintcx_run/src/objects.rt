//! Refusals, as objects.
ghost use Rattle.std.specs.Prelude.{◌≡◌, IfOk};
ghost use Rattle.mintc_command_answers.specs.Commands.{IsNumberInRange, roles_of};
ghost use Rattle.mintcx_run.specs.Replies.{IsCauseOf, IsCornerObject, IsObjectText, command_word, spotted_of};

use crate::orders::Order;
use mintc_command_answers::{Command, Job};
use mintc_text::{Bytes, OutOfMemory, Refusal};
use mintcx_json::{Cause, Refused, Spotted, refused_json};
use mintcx_refusals::{
    Inputs, Marked, Parts, corner_parts, refusal_number, refusal_parts, refusal_what,
};
use std::alloc::Global;

/// The word of a command.
fn command_word(command: Command) -> &'static str
    ensures { result.now ≡ command_word command }
{
    match command {
        Command::OfDesign { job, .. } => match job {
            Job::Check => "check",
            Job::Optimise => "optimise",
            Job::Verify => "verify",
            Job::Report => "report",
            Job::Safe => "safe",
            Job::Slack => "slack",
        },
        Command::Sample { .. } => "sample",
        Command::Corners { .. } => "corners",
    }
}

/// What is marked, as an object has it.
fn spotted_of(marked: &Option<Marked>) -> Option<Spotted>
    ensures { result ≡ spotted_of marked.now }
{
    match marked {
        Some(marked) => Some(Spotted {
            line: marked.spot.line as u64,
            column: marked.spot.column as u64,
            length: marked.length as u64,
        }),
        None => None,
    }
}

/// The files of an order, as refusals speak of them, with the bytes of the one beside.
fn inputs_of<'a>(order: &'a Order, beside: &'a [u8]) -> Inputs<'a>
    requires { IsNumberInRange order.now.call.command }
    ensures roles { result.roles.now ≡ roles_of order.now.call.command }
    ensures names { result.names.now ≡ order.now.call.files }
{
    Inputs {
        roles: order.call.command.roles(),
        names: order.call.files.items(),
        beside,
    }
}

/// A refusal with its number, and what it is in words.
fn cause_of<'a>(refusal: &'a Refusal, message: &'a [u8]) -> Cause<'a>
    ensures { IsCauseOf refusal.now result }
{
    Cause {
        number: refusal_number(refusal),
        refusal,
        message,
    }
}

/// A refusal in parts, as an object has it.
fn told_of<'a>(
    command: Command,
    cause: Cause<'a>,
    own: Option<Cause<'a>>,
    parts: &'a Parts<'a>,
) -> Refused<'a>
    ensures command { result.command.now ≡ command_word command }
    ensures cause { result.cause ≡ cause.entry }
    ensures own { result.own ≡ own.entry }
    ensures name { result.file.now ≡ parts.now.name.now }
    ensures spotted { result.spotted ≡ spotted_of parts.now.marked }
{
    Refused {
        command: command_word(command),
        cause,
        own,
        file: parts.name,
        spotted: spotted_of(&parts.marked),
        label: parts.label.items(),
        help: parts.help.items(),
    }
}

/// The object of a refusal, with the bytes of the file that it speaks of, and of the one beside it.
pub(crate) fn refusal_object<'a>(
    alloc: Global,
    order: &'a Order,
    refusal: &'a Refusal,
    file: &[u8],
    beside: &'a [u8],
) -> Result<Bytes, OutOfMemory>
    requires { IsNumberInRange order.now.call.command }
    ensures { IfOk result (IsObjectText order.now file.now refusal.now) }
{
    let inputs = inputs_of(order, beside);
    let parts = refusal_parts(alloc, refusal, &inputs, file)?;
    let cause = cause_of(refusal, parts.what.items());
    let told = told_of(order.call.command, cause, None, &parts);
    refused_json(alloc, &told)
}

/// The object of a corner that is refused, counted from 1, and of what its own files are refused for, with the bytes of
/// the file that this speaks of, and of the one beside it.
pub(crate) fn corner_object<'a>(
    alloc: Global,
    order: &'a Order,
    corner: u32,
    own: &'a Refusal,
    file: &[u8],
    beside: &'a [u8],
) -> Result<Bytes, OutOfMemory>
    requires { IsNumberInRange order.now.call.command }
    ensures { IfOk result (IsCornerObject order.now file.now corner own.now) }
{
    let inputs = inputs_of(order, beside);
    let outer = Refusal::Corner { file: corner };
    let parts = corner_parts(alloc, corner, own, &inputs, file)?;
    let own_what = refusal_what(alloc, own, &inputs, file)?;
    let cause = cause_of(&outer, parts.what.items());
    let own_cause = cause_of(own, own_what.items());
    let told = told_of(order.call.command, cause, Some(own_cause), &parts);
    refused_json(alloc, &told)
}
