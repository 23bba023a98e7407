//! The test of one cycle time.
ghost use Rattle.std.specs.Prelude.{◌≡◌, ◌≢◌, ◌<◌, ◌≤◌, ◌+◌, ◌^◌, ℕ, pos, ◌≤ℤ◌, length};
ghost use Rattle.mintc_graph_walks.specs.Walks.{value_at};
ghost use Rattle.mintc_constraints.specs.Ordinary.{IsOrdinary};
ghost use Rattle.mintc_ratio.specs.Tested.{HasTested};

use crate::weighed::LinksAt;
use mintc_constraints::{LinkList, Room};
use mintc_fraction::Fraction;
use mintc_graph_walks::{Answer, Steps, UNREACHED};
use std::sync::ledger::Ledger;

/// What a test of a cycle time finds.
#[derive(Clone, Copy, Debug, PartialEq, Eq)]
pub enum Test {
    /// No chain forbids it, and the room holds the values of the greatest walks.
    Values,
    /// Some chain forbids it, and the room holds one.
    Chain,
}

/// Makes the values those where walks begin: 0 at node 0, and none elsewhere.
fn begin(room: &mut Room, nodes: usize)
    requires some { 0 < nodes }
    requires nodes { nodes ≤ room.old.nodes }
    ensures kept { room.new ≡ record room.old { values = room.new.values } }
    ensures count { length room.new.values ≡ nodes }
    ensures origin { value_at room.new.values 0 ≡ pos 0 }
    ensures others { (node : ℕ) → node < nodes → node ≢ 0 → value_at room.new.values node ≡ UNREACHED }
{
    room.fill_values(nodes);
    for node in 1..nodes {
        room.set_values(node, UNREACHED);
    }
}

/// Makes the chain empty where it is longer than there are nodes.
fn cut_chain(room: &mut Room, nodes: usize)
    ensures kept { room.new ≡ record room.old { chain = room.new.chain } }
    ensures short { length room.new.chain ≤ nodes }
    ensures same { length room.old.chain ≤ nodes → room.new.chain ≡ room.old.chain }
{
    if room.chain().len() > nodes {
        room.fill_chain(0);
    }
}

/// Whether some chain of the links forbids the cycle time `at`, in femtoseconds.
///
/// `Values`: none does. The room's `values` then have for each node the greatest delay of a walk from node 0, a
/// link counting `delay - cycles * at`, as a numerator over the denominator of `at`; its `chain` is as it was,
/// other than one that is longer than there are nodes. `Chain`: the room's `chain` has the link numbers, counted
/// from 0, of a chain that forbids it and enters no node twice.
pub fn test_at<L: Ledger>(
    links: &LinkList,
    at: &Fraction,
    room: &mut Room,
    steps: &mut Steps<L>,
) -> Test
    requires nodes { links.now.nodes ≤ room.old.nodes }
    requires links { length links.now.links ≤ room.old.links }
    requires low { pos 0 ≤ℤ at.now.num }
    requires num { at.now.num ≤ℤ pos (10 ^ 23) }
    requires den { at.now.den ≤ℤ pos (10 ^ 9) }
    ensures tested { HasTested links.now at.now room.old room.new result }
    ensures nodes { room.new.nodes ≡ room.old.nodes }
    ensures links { room.new.links ≡ room.old.links }
    ensures late { room.new.late ≡ room.old.late }
    ensures early { room.new.early ≡ room.old.early }
    ensures some { steps.old < steps.new }
    ensures cost { steps.new ≤ steps.old + links.now.nodes + 1 }
    ensures kept { IsOrdinary links.now }
{
    let nodes = links.nodes();
    cut_chain(room, nodes as usize);
    begin(room, nodes as usize);
    let (num, den) = (at.num(), at.den());
    let network = LinksAt {
        nodes,
        links: links.items(),
        num,
        den,
    };
    match room.walk(&network, steps) {
        Answer::Values => Test::Values,
        Answer::Chain { .. } => Test::Chain,
    }
}
