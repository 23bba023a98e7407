//! The search for the least cycle time.
ghost use Rattle.std.specs.Prelude.{◌≡◌, ◌≤◌, ◌+◌, ◌*◌, ℕ, length};
ghost use Rattle.mintc_constraints.specs.Ordinary.{most_nodes};
ghost use Rattle.mintc_ratio.specs.Climbing.{IsClimbing, most_halvings, most_tests, top_of};
ghost use Rattle.mintc_ratio.specs.Searched.{HasSearched};

use crate::advancing::{SearchState, take_turn};
use crate::rest::hold_rest;
use crate::sums::Sums;
use crate::turns::{TestResult, turn_of};
use crate::{Test, test_at};
use mintc_constraints::{LinkList, Room};
use mintc_fraction::Fraction;
use mintc_graph_walks::Steps;
use mintc_text::limits::MOST_LINK_DELAY;
use std::sync::ledger::Ledger;

/// What the search for the least cycle time finds.
#[derive(Clone, Copy, Debug)]
pub enum Outcome {
    /// The least cycle time that no chain forbids, in femtoseconds and in lowest terms.
    Least { cycle: Fraction },
    /// Some chain forbids every cycle time.
    Never,
}

/// The greatest delay of a link, in femtoseconds.
const GREATEST: i128 = MOST_LINK_DELAY as i128;

/// A part of the grid that no chain's ratio exceeds.
fn top_of(nodes: u32) -> i128
    requires { nodes ≤ most_nodes }
    ensures { result ≡ top_of nodes }
{
    let nodes = i128::from(nodes);
    GREATEST * nodes * nodes * nodes
}

/// Searches on from a chain in the room, in as many steps as are left.
fn search_from<L: Ledger>(
    links: &LinkList,
    first: Sums,
    begun: u64,
    room: &mut Room,
    steps: &mut Steps<L>,
) -> Outcome
    requires nodes { links.now.nodes ≤ room.old.nodes }
    requires links { length links.now.links ≤ room.old.links }
    requires climbing { (start : ℕ)
        × IsClimbing links.now start begun room.old first (top_of links.now.nodes) (most_halvings links.now.nodes)
        steps.old }
    ensures searched { HasSearched links.now room.new result }
    ensures nodes { room.new.nodes ≡ room.old.nodes }
    ensures links { room.new.links ≡ room.old.links }
    ensures late { room.new.late ≡ room.old.late }
    ensures early { room.new.early ≡ room.old.early }
    ensures cost { (start : ℕ) → IsClimbing links.now start begun room.old first (top_of links.now.nodes)
        (most_halvings links.now.nodes) steps.old →
        steps.new ≤ start + most_tests links.now.nodes * (links.now.nodes + 1) }
{
    let mut held = first;
    let mut high = top_of(links.nodes());
    loop {
        match take_turn(links, held, high, begun, room, steps) {
            SearchState::Over { outcome } => return outcome,
            SearchState::On {
                held: next,
                high: lower,
            } => {
                held = next;
                high = lower;
            }
        }
    }
}

/// The least cycle time that no chain of the links forbids.
///
/// `Least`: the room's `values` are those of the greatest walks at `cycle`, as numerators over its denominator, and
/// its `chain` has the link numbers, counted from 0, of a chain that forbids every smaller cycle time. `Never`:
/// exactly where some chain forbids every cycle time, and the room's `chain` has such a one. Neither chain enters a
/// node twice.
pub fn search<L: Ledger>(links: &LinkList, room: &mut Room, steps: &mut Steps<L>) -> Outcome
    requires nodes { links.now.nodes ≤ room.old.nodes }
    requires links { length links.now.links ≤ room.old.links }
    ensures searched { HasSearched links.now room.new result }
    ensures nodes { room.new.nodes ≡ room.old.nodes }
    ensures links { room.new.links ≡ room.old.links }
    ensures late { room.new.late ≡ room.old.late }
    ensures early { room.new.early ≡ room.old.early }
    ensures cost { steps.new ≤ steps.old + most_tests links.now.nodes * (links.now.nodes + 1) }
{
    let begun = steps.taken();
    let rest = Fraction::new(0, 1);
    match test_at(links, &rest, room, steps) {
        Test::Values => {
            hold_rest(links, room);
            Outcome::Least { cycle: rest }
        }
        Test::Chain => match turn_of(links, room) {
            TestResult::Found { outcome } => outcome,
            TestResult::Held { sums } => search_from(links, sums, begun, room, steps),
            TestResult::Free => unreachable!(),
        },
    }
}
