//! The chain of the first two nodes, which shows that no cycle time is below 0.
ghost use Rattle.std.specs.Prelude.{◌≡◌, ◌≤◌, ◌<◌, ◌^◌, ◌↔◌, IsTrue, pos, length};
ghost use Rattle.mintc_constraints.specs.Ordinary.{HasPlainLink};
ghost use Rattle.mintc_timing.specs.Links.{cycles_of, delay_of};
ghost use Rattle.mintc_ratio.specs.Chains.{NamesChain, links_at};
ghost use Rattle.mintc_ratio.specs.Climbing.{IsPlainAt};

use mintc_constraints::{LinkList, Room};
use mintc_timing::Link;

/// Whether a link has no delay, and leads from one node to another with so many cycles.
fn is_plain(link: &Link, from: u32, to: u32, cycles: u32) -> bool
    ensures { IsTrue result ↔ ((link.now.from ≡ from) × (link.now.to ≡ to) × (link.now.delay ≡ pos 0)
        × (link.now.cycles ≡ cycles)) }
{
    link.from == from && link.to == to && link.delay == 0 && link.cycles == cycles
}

/// The number of a link that has no delay, and leads from one node to another with so many cycles.
fn plain_link(links: &[Link], from: u32, to: u32, cycles: u32) -> u32
    requires few { length links.now < 2 ^ 32 }
    requires there { HasPlainLink links.now from to cycles }
    ensures { IsPlainAt links.now from to cycles result }
{
    for (number, link) in links.iter().enumerate() {
        if is_plain(link, from, to, cycles) {
            return number as u32;
        }
    }
    unreachable!()
}

/// Makes the room's chain the one that leads from node 0 to node 1 and back: it has no delay, and a cycle.
pub(crate) fn hold_rest(links: &LinkList, room: &mut Room)
    requires { links.now.nodes ≤ room.old.nodes }
    ensures kept { room.new ≡ record room.old { chain = room.new.chain } }
    ensures chain { NamesChain links.now.links room.new.chain }
    ensures delay { delay_of (links_at links.now.links room.new.chain) ≡ pos 0 }
    ensures cycles { cycles_of (links_at links.now.links room.new.chain) ≡ pos 1 }
{
    let forth = plain_link(links.items(), 0, 1, 0);
    let back = plain_link(links.items(), 1, 0, 1);
    room.fill_chain(2);
    room.set_chain(0, forth);
    room.set_chain(1, back);
}
