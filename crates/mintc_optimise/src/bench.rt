//! The search of a design, in two steps: first all its memory, then the search, which takes none.
ghost use Rattle.std.specs.Prelude.{◌≡◌, ◌≤◌, ◌+◌, ◌*◌, IfOk};
ghost use Rattle.mintc_ratio.specs.Climbing.{most_tests};

use mintc_constraints::{LinkList, Room, links};
use mintc_graph_walks::Steps;
use mintc_ratio::{Outcome, search};
use mintc_text::OutOfMemory;
use mintc_timing::System;
use std::alloc::Global;
use std::marker::Model;
use std::sync::ledger::Ledger;

/// The links of a design, and a room for the search over them.
#[derive(Drop)]
pub struct Bench {
    links: LinkList,
    room: Room,
}

impl Model for Bench {
    ghost use Rattle.mintc_optimise.specs.Benches.{IsRoomy, Workplace, workplace_of};

    ghost Value = { Workplace };

    ghost view = { λ b. workplace_of b.links b.room };

    ghost invariant = { λ b. IsRoomy (workplace_of b.links b.room) };
}

impl Bench {
    ghost use Rattle.mintc_timing.specs.Paths.{HasEnds};
    ghost use Rattle.mintc_constraints.specs.Ordinary.{constraints_of};
    ghost use Rattle.mintc_ratio.specs.Searched.{HasSearched};
    ghost use Rattle.mintc_timing.specs.Design.{Timing};
    ghost use Rattle.mintc_timing.specs.Limits.{IsDesign};
    ghost use Rattle.mintc_timing.specs.Links.{links_of, node_count};
    ghost use Rattle.mintc_timing.specs.Order.{IsTiming};
    ghost use Rattle.mintc_optimise.specs.Benches.{IsSolved};
    ghost use Rattle.mintc_optimise.specs.Bounded.{NeverOnlyWithBounds};

    /// A bench for a system's links.
    pub fn reserve(alloc: Global, system: &System) -> Result<Bench, OutOfMemory>
        ensures list { IfOk result (λ bench. bench.list
            ≡ constraints_of (node_count system.now.flat) (links_of system.now)) }
        ensures design { IsDesign system.now.flat }
        ensures kept { IsTiming system.now.flat system.now.order system.now.pairs }
    {
        let list = links(alloc, system)?;
        let room = Room::reserve(alloc, list.nodes() as usize, list.items().len())?;
        Ok(Bench { links: list, room })
    }

    /// The least cycle time that no chain of the links forbids, as `search` finds it; it is the least of all right
    /// schedules of each design with these links, and without bounds there is one. Takes no memory. The links stay,
    /// so that a second call has the same outcome.
    pub fn solve<L: Ledger>(&mut self, steps: &mut Steps<L>) -> Outcome
        ensures searched { HasSearched self.old.list self.new.room result }
        ensures solved { (t : Timing) → IsDesign t.flat → HasEnds t →
            self.old.list ≡ constraints_of (node_count t.flat) (links_of t) → IsSolved t self.new.room result }
        ensures bounded { (t : Timing) → IsDesign t.flat → HasEnds t →
            self.old.list ≡ constraints_of (node_count t.flat) (links_of t) → NeverOnlyWithBounds t.flat result }
        ensures kept { self.new.list ≡ self.old.list }
        ensures cost { steps.new ≤ steps.old + most_tests self.old.list.nodes * (self.old.list.nodes + 1) }
    {
        search(&self.links, &mut self.room, steps)
    }

    /// The links.
    pub fn links(&self) -> &LinkList
        ensures { result.now ≡ self.now.list }
    {
        &self.links
    }

    /// The room.
    pub fn room(&self) -> &Room
        ensures { result.now ≡ self.now.room }
    {
        &self.room
    }
}
