//! One turn of the search, and what it leaves to search.
ghost use Rattle.std.specs.Prelude.{◌≡◌, ◌<◌, ◌≤◌, ◌/◌, ◌^◌, ℕ, pos, ◌+ℤ◌, ◌-ℤ◌, ◌≤ℤ◌, length};
ghost use Rattle.mintc_ratio.specs.Climbing.{IsAdvanced, IsClimbing};

use crate::budget::may_jump;
use crate::searching::Outcome;
use crate::sums::{Sums, low_of};
use crate::turns::{TestResult, test_held_ratio, test_midpoint};
use mintc_constraints::{LinkList, Room};
use mintc_graph_walks::Steps;
use std::sync::ledger::Ledger;

/// What a turn leaves.
#[derive(Clone, Copy, Debug)]
pub(crate) enum SearchState {
    /// The search is over.
    Over { outcome: Outcome },
    /// The room holds a chain with these sums, and no chain with a cycle forbids the cycle time of `high` parts of
    /// the grid.
    On { held: Sums, high: i128 },
}

/// How many parts of the grid lie between two.
fn width_of(low: i128, high: i128) -> u128
    requires from { pos 0 ≤ℤ low }
    requires order { low ≤ℤ high }
    requires most { high ≤ℤ pos (2 ^ 75) }
    ensures { pos result ≡ high -ℤ low }
{
    (high - low) as u128
}

/// The part of the grid in the middle of a range.
fn middle_of(low: i128, width: u128) -> i128
    requires from { pos 0 ≤ℤ low }
    requires most { low ≤ℤ pos (2 ^ 75) }
    requires width { width ≤ 2 ^ 75 }
    ensures { result ≡ low +ℤ pos (width / 2) }
{
    low + (width / 2) as i128
}

/// Tests the ratio of the chain that the room holds, where enough steps are left or the search is near its end;
/// else the middle between this ratio and `high`.
pub(crate) fn take_turn<L: Ledger>(
    links: &LinkList,
    held: Sums,
    high: i128,
    begun: u64,
    room: &mut Room,
    steps: &mut Steps<L>,
) -> SearchState
    requires nodes { links.now.nodes ≤ room.old.nodes }
    requires links { length links.now.links ≤ room.old.links }
    requires climbing { (start : ℕ) × (halvings : ℕ)
        × IsClimbing links.now start begun room.old held high halvings steps.old }
    ensures advanced { (start halvings : ℕ) → IsClimbing links.now start begun room.old held high halvings steps.old →
        IsAdvanced links.now start begun room.new steps.new result }
    ensures nodes { room.new.nodes ≡ room.old.nodes }
    ensures links { room.new.links ≡ room.old.links }
    ensures late { room.new.late ≡ room.old.late }
    ensures early { room.new.early ≡ room.old.early }
    ensures some { steps.old < steps.new }
{
    let nodes = links.nodes();
    let low = low_of(nodes, held);
    let width = width_of(low, high);
    if may_jump(nodes, begun, steps.taken(), width) {
        match test_held_ratio(links, held, room, steps) {
            TestResult::Found { outcome } => SearchState::Over { outcome },
            TestResult::Held { sums } => SearchState::On { held: sums, high },
            TestResult::Free => unreachable!(),
        }
    } else {
        let middle = middle_of(low, width);
        match test_midpoint(links, held, middle, room, steps) {
            TestResult::Found { outcome } => SearchState::Over { outcome },
            TestResult::Held { sums } => SearchState::On { held: sums, high },
            TestResult::Free => SearchState::On { held, high: middle },
        }
    }
}
