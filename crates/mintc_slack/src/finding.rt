//! The slack of each pair.
ghost use Rattle.std.specs.Prelude.{◌≡◌, ◌<◌, ◌≤◌, ℕ, IfOk, OnOk, length};
ghost use Rattle.std.specs.Bool.{OnFalse};
ghost use Rattle.mintc_text.specs.declared.limits.TheConstants.{SHORT_NODES};
ghost use Rattle.mintc_text.specs.declared.limits.TheConstants.{MOST_SLACK};
ghost use Rattle.mintc_timing.specs.Design.{element_count};
ghost use Rattle.mintc_timing.specs.Links.{links_of, node_count};
ghost use Rattle.mintc_timing.specs.Right.{IsLeastCycle};
ghost use Rattle.mintc_constraints.specs.Ordinary.{constraints_of};
ghost use Rattle.mintc_slack.specs.Short.{IsShortCycle};
ghost use Rattle.mintc_ratio.specs.Tested.{NoneForbids};
ghost use Rattle.mintc_slack.specs.WalkedFrom.{AreSettled};
ghost use Rattle.mintc_slack.specs.Answers.{IsSlackAnswer};
ghost use Rattle.mintc_slack.specs.Entries.{AreEntries, HasSettled, entry_at};
ghost use Rattle.mintc_slack.specs.Ready.{IsReady};
ghost use Rattle.mintc_slack.specs.Slack.{AreSlacks};

use crate::pair_room::slack_of;
use crate::walked::{SlackWalks, longest_walks_from, prepare};
use mintc_certificate::Departures;
use mintc_constraints::{LinkList, Room, links};
use mintc_fraction::Fraction;
use mintc_graph_walks::Steps;
use mintc_ratio::{Outcome, search};
use mintc_text::OutOfMemory;
use mintc_timing::System;
use std::alloc::Global;
use std::sync::ledger::Ledger;

/// The least cycle of a design, in lowest terms, with the slack of each of its pairs in their order, in
/// femtoseconds; or that no schedule is right.
#[derive(Drop)]
pub enum Slacks {
    Least { cycle: Fraction, extra: Departures },
    Never,
}

/// A pair's number behind the element that it enters.
#[derive(Clone, Copy, PartialEq, Eq, PartialOrd, Ord, Drop)]
pub(crate) struct Entry {
    pub to: u32,
    pub number: usize,
}

/// The pairs, by the elements that they enter.
fn entries(alloc: Global, system: &System) -> Result<Vec<Entry>, OutOfMemory>
    ensures { IfOk result (λ entries. AreEntries system.now entries.items) }
{
    let mut entries = Vec::new(alloc);
    for number in 0..system.pairs().len() {
        let to = system.pair(number).to;
        entries.push(Entry { to, number })?;
    }
    entries.sort_unstable();
    Ok(entries)
}

/// Whether an entry is the first one of its element.
fn is_first(entries: &[Entry], place: usize) -> bool
    requires { place < length entries.now }
    ensures { OnFalse result (HasSettled entries.now place (entry_at entries.now place).to) }
{
    place == 0 || entries[place - 1].to != entries[place].to
}

/// Makes the room's values those of the element of an entry; entries before it may have made them so.
fn turn_to<L: Ledger>(
    entries: &[Entry],
    place: usize,
    walker: &mut SlackWalks,
    room: &mut Room,
    steps: &mut Steps<L>,
) -> Result<(), OutOfMemory>
    requires place { place < length entries.now }
    requires entries { AreEntries walker.old.system.now entries.now }
    requires ready { IsReady walker.old.system.now walker.old.list.now walker.old.at.now walker.old }
    requires free { NoneForbids walker.old.list.now.links walker.old.at.now }
    requires nodes { walker.old.list.now.nodes ≤ room.old.nodes }
    requires chain { length room.old.chain ≤ walker.old.list.now.nodes }
    requires settled { (l : ℕ) → HasSettled entries.now place l →
        AreSettled walker.old.system.now walker.old.at.now l room.old.values }
    ensures settled { OnOk result
        (AreSettled walker.old.system.now walker.old.at.now (entry_at entries.now place).to room.new.values) }
    ensures nodes { room.new.nodes ≡ room.old.nodes }
    ensures chain { length room.new.chain ≤ walker.old.list.now.nodes }
    ensures kept { walker.new ≡ record walker.old { distances = walker.new.distances; ahead = walker.new.ahead } }
    ensures count { length walker.new.distances.items ≡ length walker.old.distances.items }
{
    let _flat = walker.system.flat();
    if is_first(entries, place) {
        longest_walks_from(walker, entries[place].to, room, steps)?;
    }
    Ok(())
}

/// The slack of each pair.
#[tactic(auto, using(crate::proofs::EntryLaws::entry_number))]
fn extras<L: Ledger>(
    alloc: Global,
    system: &System,
    list: &LinkList,
    cycle: &Fraction,
    room: &mut Room,
    steps: &mut Steps<L>,
) -> Result<Departures, OutOfMemory>
    requires list { list.now ≡ constraints_of (node_count system.now.flat) (links_of system.now) }
    requires cycle { IsShortCycle cycle.now }
    requires short { list.now.nodes ≤ SHORT_NODES }
    requires free { NoneForbids list.now.links cycle.now }
    requires nodes { list.now.nodes ≤ room.old.nodes }
    requires chain { length room.old.chain ≤ list.now.nodes }
    requires least { IsLeastCycle system.now cycle.now.num cycle.now.den }
    ensures { IfOk result (AreSlacks system.now cycle.now.num cycle.now.den) }
{
    let mut walker = prepare(alloc, system, list, cycle, room, steps)?;
    let mut extra = vec![in alloc; 0; system.pairs().len()]?;
    let entries = entries(alloc, system)?;
    for place in 0..entries.len() {
        turn_to(&entries, place, &mut walker, room, steps)?;
        let number = entries[place].number;
        extra[number] = slack_of(system, cycle, room.values(), number);
    }
    Ok(Departures::new(extra))
}

/// The least cycle of a system, with the slack of each pair: by how many whole femtoseconds its delay may grow with
/// the least cycle staying as it is, while one more makes it greater or leaves no right schedule. `Never` comes
/// exactly where no schedule is right.
#[tactic(auto, using(crate::proofs::SearchLaws::few_in_chain))]
pub fn slack<L: Ledger>(
    alloc: Global,
    system: &System,
    steps: &mut Steps<L>,
) -> Result<Slacks, OutOfMemory>
    requires { element_count system.now.flat ≤ MOST_SLACK }
    ensures { IfOk result (IsSlackAnswer system.now) }
{
    let list = links(alloc, system)?;
    let mut room = Room::reserve(alloc, list.nodes() as usize, list.items().len())?;
    match search(&list, &mut room, steps) {
        Outcome::Never => Ok(Slacks::Never),
        Outcome::Least { cycle } => {
            let extra = extras(alloc, system, &list, &cycle, &mut room, steps)?;
            Ok(Slacks::Least { cycle, extra })
        }
    }
}
