//! One turn of the search: a test of the ratio that is held, or of the middle of what is left.
ghost use Rattle.std.specs.Prelude.{◌≡◌, ◌<◌, ◌≤◌, ◌+◌, pos, ◌≤ℤ◌, length};
ghost use Rattle.mintc_timing.specs.Links.{delay_of};
ghost use Rattle.mintc_constraints.specs.Ordinary.{IsOrdinary};
ghost use Rattle.mintc_ratio.specs.Chains.{NamesChain, links_at};
ghost use Rattle.mintc_ratio.specs.Climbing.{IsHalving, IsHeld, IsJump, IsOfChain, top_of};

use crate::searching::Outcome;
use crate::sums::{Sums, grid_of, ratio_of, sums_of};
use crate::{Test, test_at};
use mintc_constraints::{LinkList, Room};
use mintc_fraction::Fraction;
use mintc_graph_walks::Steps;
use std::sync::ledger::Ledger;

/// What a turn finds.
#[derive(Clone, Copy, Debug)]
pub(crate) enum TestResult {
    /// The search is over.
    Found { outcome: Outcome },
    /// The room holds a chain with these sums.
    Held { sums: Sums },
    /// No chain forbids the cycle time that was tested.
    Free,
}

/// The chain in the room as a turn: one that forbids every cycle time ends the search.
pub(crate) fn turn_of(links: &LinkList, room: &Room) -> TestResult
    requires chain { NamesChain links.now.links room.now.chain }
    requires low { pos 1 ≤ℤ delay_of (links_at links.now.links room.now.chain) }
    ensures { IsOfChain links.now room.now result }
{
    let sums = sums_of(links.nodes(), links.items(), room.chain());
    if sums.cycles == 0 {
        TestResult::Found {
            outcome: Outcome::Never,
        }
    } else {
        TestResult::Held { sums }
    }
}

/// Tests the ratio of the chain that the room holds.
pub(crate) fn test_held_ratio<L: Ledger>(
    links: &LinkList,
    held: Sums,
    room: &mut Room,
    steps: &mut Steps<L>,
) -> TestResult
    requires nodes { links.now.nodes ≤ room.old.nodes }
    requires links { length links.now.links ≤ room.old.links }
    requires held { IsHeld links.now room.old held }
    requires kept { IsOrdinary links.now }
    ensures turn { IsJump links.now held room.new result }
    ensures nodes { room.new.nodes ≡ room.old.nodes }
    ensures links { room.new.links ≡ room.old.links }
    ensures late { room.new.late ≡ room.old.late }
    ensures early { room.new.early ≡ room.old.early }
    ensures some { steps.old < steps.new }
    ensures cost { steps.new ≤ steps.old + links.now.nodes + 1 }
{
    let cycle = ratio_of(held);
    match test_at(links, &cycle, room, steps) {
        Test::Values => TestResult::Found {
            outcome: Outcome::Least { cycle },
        },
        Test::Chain => turn_of(links, room),
    }
}

/// Tests the cycle time of so many parts of the grid.
pub(crate) fn test_midpoint<L: Ledger>(
    links: &LinkList,
    held: Sums,
    middle: i128,
    room: &mut Room,
    steps: &mut Steps<L>,
) -> TestResult
    requires nodes { links.now.nodes ≤ room.old.nodes }
    requires links { length links.now.links ≤ room.old.links }
    requires held { IsHeld links.now room.old held }
    requires low { pos 0 ≤ℤ middle }
    requires high { middle ≤ℤ top_of links.now.nodes }
    ensures turn { IsHalving links.now middle room.old room.new result }
    ensures nodes { room.new.nodes ≡ room.old.nodes }
    ensures links { room.new.links ≡ room.old.links }
    ensures late { room.new.late ≡ room.old.late }
    ensures early { room.new.early ≡ room.old.early }
    ensures some { steps.old < steps.new }
    ensures cost { steps.new ≤ steps.old + links.now.nodes + 1 }
{
    let at = Fraction::new(middle, grid_of(links.nodes()));
    match test_at(links, &at, room, steps) {
        Test::Values => TestResult::Free,
        Test::Chain => turn_of(links, room),
    }
}
