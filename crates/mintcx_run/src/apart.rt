//! The design with edges apart of an order of four files, and its table in their place.
ghost use Rattle.std.specs.Prelude.{◌≡◌, ◌≤◌, ◌+◌, true, length, IfErr, IfOk};
ghost use Rattle.mintc_text.specs.Limits.{large};
ghost use Rattle.mintc_timing.specs.Limits.{IsWithinLimits};
ghost use Rattle.mintc_command_answers.specs.Commands.{IsNumberInRange, roles_of};
ghost use Rattle.mintcx_answers.specs.Answers.{IsOnFiles};
ghost use Rattle.mintcx_translation.specs.Calls.{takes_four};
ghost use Rattle.mintcx_run.specs.Apart.{IsMade, IsUnmade, in_place, is_of_library, lone, of_table, on_table};

use crate::orders::Order;
use mintc_command_answers::{Command, Source, too_long};
use mintc_text::{Bytes, Limits, Names};
use mintc_timing::Flat;
use mintcx_apart::{Halt, design_apart};
use mintcx_translation::Call;
use std::alloc::Global;

/// Whether the cells of a command are those of a library, which may be described for it.
fn is_of_library(command: Command, described: bool) -> bool
    ensures { result ≡ is_of_library command described }
{
    match command {
        Command::OfDesign {
            source: Source::Liberty,
            ..
        } => true,
        _ => described,
    }
}

/// The design with edges apart of what is taken of the files of an order, or why there is none.
#[tactic(auto, using(crate::proofs::ApartLaws::four_roles))]
pub(crate) fn make_apart(alloc: Global, order: &Order, files: &[Bytes]) -> Result<Flat, Halt>
    requires count { length files.now ≡ length (roles_of order.now.call.command) }
    requires in_range { IsNumberInRange order.now.call.command }
    requires four { takes_four order.now.call.command ≡ true }
    ensures value { IfOk result (IsMade order.now files.now) }
    ensures within { IfOk result (IsWithinLimits large) }
    ensures halt { IfErr result (IsUnmade order.now files.now) }
{
    let limits = Limits::large();
    if let Some(refusal) = too_long(&limits, order.call.command.roles(), files) {
        return Err(Halt::Refused(refusal));
    }
    let is_library = is_of_library(order.call.command, order.call.of_library);
    design_apart(alloc, &limits, is_library, order.call.gates.items(), files)
}

/// The first of four items, and those behind them.
#[tactic(auto, using(crate::proofs::ApartLaws::lone_is))]
fn lone<T: Drop>(mut items: Vec<T>) -> Vec<T>
    requires { 4 ≤ length items.items }
    ensures { result.items ≡ lone items.items }
{
    items.remove(3);
    items.remove(2);
    items.remove(1);
    items
}

/// Texts, with one in the place of the first four.
#[tactic(auto, using(crate::proofs::ApartLaws::first_put, crate::proofs::ApartLaws::put_length))]
pub(crate) fn in_place(text: Bytes, texts: Vec<Bytes>) -> Vec<Bytes>
    requires { 4 ≤ length texts.items }
    ensures value { result.items ≡ in_place text texts.items }
    ensures count { length result.items + 3 ≡ length texts.items }
{
    let mut texts = lone(texts);
    texts[0] = text;
    texts
}

/// A command, asked of a table.
#[tactic(auto, using(crate::proofs::ApartLaws::table_roles))]
fn on_table(command: Command) -> Command
    ensures value { result ≡ on_table command }
    ensures in_range { IsNumberInRange command → IsNumberInRange result }
    ensures on_files { IsOnFiles command → IsOnFiles result }
    ensures count { takes_four command ≡ true → length (roles_of result) + 3 ≡ length (roles_of command) }
{
    match command {
        Command::OfDesign { job, source: _ } => Command::OfDesign {
            job,
            source: Source::Table,
        },
        _ => command,
    }
}

/// An order of four files, asked of a table in their place, which goes by the name of the netlist.
#[tactic(auto, using(crate::proofs::ApartLaws::lone_length, crate::proofs::ApartLaws::four_roles))]
pub(crate) fn of_table(order: Order) -> Order
    requires count { length order.call.files ≡ length (roles_of order.call.command) }
    requires four { takes_four order.call.command ≡ true }
    ensures value { result ≡ of_table order }
    ensures names { length result.call.files ≡ length (roles_of result.call.command) }
    ensures count { length (roles_of result.call.command) + 3 ≡ length (roles_of order.call.command) }
    ensures in_range { IsNumberInRange order.call.command → IsNumberInRange result.call.command }
    ensures on_files { IsOnFiles order.call.command → IsOnFiles result.call.command }
{
    let Call {
        command,
        aspect,
        of_library: _,
        gates,
        clamp,
        apart,
        files,
        certificate,
    } = order.call;
    let files = lone(files.into_vec());
    Order {
        call: Call {
            command: on_table(command),
            aspect,
            of_library: false,
            gates,
            clamp,
            apart,
            files: Names::new(files),
            certificate,
        },
        manner: order.manner,
    }
}
