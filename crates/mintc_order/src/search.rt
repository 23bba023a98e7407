//! A depth-first search from bit to bit (R. E. Tarjan, "Depth-first search and linear graph algorithms", 1972),
//! which gives out each bit after all bits that its arcs enter.
ghost use Rattle.std.specs.Prelude.{◌≡◌, ◌≢◌, ◌<◌, ◌≤◌, ◌^◌, ◌-◌, ◌+◌, [], ℕ, List, length, IfOk, IfErr, OnOk, IsTrue};
ghost use Rattle.std.specs.Prelude.{IsFalse, slice_index, slice_set, replicate};

use crate::outgoing::OutgoingArcs;
use mintc_text::{Numbers, Refusal, Stop};
use std::alloc::{AllocError, Global};

/// The mark of a bit that isn't met.
const UNMET: u32 = 0;

/// The mark of a bit that is given out.
const GIVEN: u32 = 1;

/// What a search has found.
#[derive(Drop)]
pub(crate) struct Search {
    /// For each bit its mark, or its place in the path, counted from 2.
    pub marks: Vec<u32>,
    /// Bits that aren't given out, each but the first entered by the next arc of the one before.
    pub path: Vec<u32>,
    /// For each bit of the path the place of its next arc: all bits that the arcs before it enter are given out.
    pub nexts: Vec<u32>,
    /// The bits that are given out.
    pub given: Vec<u32>,
}

impl Search {
    ghost use Rattle.mintc_text.specs.Stops.{StopsAt};
    ghost use Rattle.mintc_timing.specs.declared.parts.TimingArc.{TimingArc};
    ghost use Rattle.mintc_order.specs.OutgoingArcs.{AreLeaving, AreParts};
    ghost use Rattle.mintc_order.specs.Refusals.{NamesLoop};
    ghost use Rattle.mintc_order.specs.Listings.{AreAll};
    ghost use Rattle.mintc_order.specs.Searches.{ArePassed, EndsAt, IsClosing, IsSearch, IsSearching, steps_of};

    /// A search that has met no bit.
    pub(crate) fn new(alloc: Global, bits: usize) -> Result<Search, AllocError>
        ensures marks { IfOk result (λ s. s.marks.items ≡ replicate bits 0) }
        ensures path { IfOk result (λ s. s.path.items ≡ []) }
        ensures nexts { IfOk result (λ s. s.nexts.items ≡ []) }
        ensures given { IfOk result (λ s. s.given.items ≡ []) }
    {
        Ok(Search {
            marks: vec![in alloc; 0; bits]?,
            path: Vec::new(alloc),
            nexts: Vec::new(alloc),
            given: Vec::with_capacity(alloc, bits)?,
        })
    }

    /// Takes a bit that isn't met to the path.
    fn enter(&mut self, ranges: &OutgoingArcs, bit: u32) -> Result<(), AllocError>
        requires few { length self.old.marks.items < 2 ^ 32 - 2 }
        requires search { IsSearching (length self.old.marks.items) ranges.now self.old }
        requires bit { bit < length self.old.marks.items }
        requires unmet { slice_index self.old.marks.items bit ≡ 0 }
        requires ends { EndsAt ranges.now.starts.items ranges.now.ends.items self.old.path.items self.old.nexts.items
            bit }
        ensures search { OnOk result (IsSearching (length self.old.marks.items) ranges.now self.new) }
        ensures stays { OnOk result ((v : ℕ) → slice_index self.old.marks.items v ≢ 0 →
            slice_index self.new.marks.items v ≢ 0) }
        ensures met { OnOk result (slice_index self.new.marks.items bit ≢ 0) }
        ensures step { OnOk result (steps_of self.new ≡ steps_of self.old + 1) }
    {
        self.path.push(bit)?;
        self.nexts.push(ranges.starts[bit as usize])?;
        self.marks[bit as usize] = self.path.len() as u32 + 1;
        Ok(())
    }

    /// The first place from this one on whose arc enters a bit that isn't given out, or where the arcs stop.
    fn pass(&self, ends: &[u32], first: u32, stop: u32) -> u32
        requires first { first ≤ stop }
        requires stop { stop ≤ length ends.now }
        requires ends { (k : ℕ) → k < length ends.now → slice_index ends.now k < length self.now.marks.items }
        ensures first { first ≤ result }
        ensures stop { result ≤ stop }
        ensures passed { ArePassed ends.now self.now.marks.items first result }
        ensures next { result < stop → slice_index self.now.marks.items (slice_index ends.now result) ≢ 1 }
    {
        let mut next = first;
        while next < stop && self.marks[ends[next as usize] as usize] == GIVEN {
            next += 1;
        }
        next
    }

    /// Gives out the path's last bit, where all bits that its arcs enter are given out.
    fn give_out(&mut self, ranges: &OutgoingArcs, bit: u32) -> Result<(), AllocError>
        requires search { IsSearching (length self.old.marks.items) ranges.now self.old }
        requires some { 0 < length self.old.path.items }
        requires last { slice_index self.old.path.items (length self.old.path.items - 1) ≡ bit }
        requires through { slice_index self.old.nexts.items (length self.old.path.items - 1)
            ≡ slice_index ranges.now.starts.items (bit + 1) }
        ensures search { OnOk result (IsSearching (length self.old.marks.items) ranges.now self.new) }
        ensures stays { OnOk result ((v : ℕ) → slice_index self.old.marks.items v ≢ 0 →
            slice_index self.new.marks.items v ≢ 0) }
        ensures step { OnOk result (steps_of self.new ≡ steps_of self.old + 1) }
    {
        let _ = self.path.pop();
        let _ = self.nexts.pop();
        self.marks[bit as usize] = GIVEN;
        self.given.push(bit)?;
        Ok(())
    }

    /// The next arcs of the path's bits from this place on.
    fn cycle_from(
        &self,
        alloc: Global,
        numbers: &[u32],
        first: usize,
    ) -> Result<Vec<u32>, AllocError>
        requires inside { (i : ℕ) → i < length self.now.nexts.items →
            slice_index self.now.nexts.items i < length numbers.now }
        requires first { first ≤ length self.now.nexts.items }
        ensures { IfOk result
            (λ arcs. IsClosing numbers.now self.now.nexts.items first (length self.now.nexts.items) arcs.items) }
    {
        let mut arcs = Vec::new(alloc);
        for place in first..self.nexts.len() {
            arcs.push(numbers[self.nexts[place] as usize])?;
        }
        Ok(arcs)
    }

    /// The refusal with a loop: the next arcs of the path's bits from the one of this mark, to which the path leads
    /// back.
    fn refuse(&self, alloc: Global, ranges: &OutgoingArcs, bit: u32) -> Stop
        requires search { IsSearching (length self.now.marks.items) ranges.now self.now }
        requires bit { bit < length self.now.marks.items }
        requires met { slice_index self.now.marks.items bit ≢ 0 }
        requires waits { slice_index self.now.marks.items bit ≢ 1 }
        requires ends { EndsAt ranges.now.starts.items ranges.now.ends.items self.now.path.items self.now.nexts.items
            bit }
        ensures { (arcs : List TimingArc) →
            AreLeaving arcs (length self.now.marks.items) ranges.now.starts.items ranges.now.numbers.items
            ranges.now.ends.items → AreAll arcs ranges.now.numbers.items → StopsAt (NamesLoop arcs) result }
    {
        let first = self.marks[bit as usize] as usize - 2;
        match self.cycle_from(alloc, &ranges.numbers, first) {
            Ok(arcs) => Stop::Refused(Refusal::CombinationalLoop {
                arcs: Numbers::new(arcs),
            }),
            Err(_) => Stop::OutOfMemory,
        }
    }

    /// Passes the arcs of the path's last bit, as far as the bits that they enter are given out, and gives the next
    /// one's place.
    fn go_on(&mut self, ranges: &OutgoingArcs, bit: u32) -> u32
        requires search { IsSearching (length self.old.marks.items) ranges.now self.old }
        requires some { 0 < length self.old.path.items }
        requires last { slice_index self.old.path.items (length self.old.path.items - 1) ≡ bit }
        ensures search { IsSearching (length self.old.marks.items) ranges.now self.new }
        ensures marks { self.new.marks.items ≡ self.old.marks.items }
        ensures path { self.new.path.items ≡ self.old.path.items }
        ensures given { self.new.given.items ≡ self.old.given.items }
        ensures at { slice_index self.new.nexts.items (length self.old.path.items - 1) ≡ result }
        ensures stop { result ≤ slice_index ranges.now.starts.items (bit + 1) }
        ensures next { result < slice_index ranges.now.starts.items (bit + 1) →
            slice_index self.old.marks.items (slice_index ranges.now.ends.items result) ≢ 1 }
    {
        let last = self.nexts.len() - 1;
        let next = self.pass(
            &ranges.ends,
            self.nexts[last],
            ranges.starts[bit as usize + 1],
        );
        self.nexts[last] = next;
        next
    }

    /// Takes a bit to the path, or gives out the path's last, or says that there is none.
    fn step(&mut self, alloc: Global, ranges: &OutgoingArcs) -> Result<bool, Stop>
        requires few { length self.old.marks.items < 2 ^ 32 - 2 }
        requires search { IsSearching (length self.old.marks.items) ranges.now self.old }
        ensures search { OnOk result (IsSearching (length self.old.marks.items) ranges.now self.new) }
        ensures stays { OnOk result ((v : ℕ) → slice_index self.old.marks.items v ≢ 0 →
            slice_index self.new.marks.items v ≢ 0) }
        ensures step { IfOk result (λ more. IsTrue more → steps_of self.new ≡ steps_of self.old + 1) }
        ensures empty { IfOk result (λ more. IsFalse more → self.new.path.items ≡ []) }
        ensures stop { (arcs : List TimingArc) →
            AreLeaving arcs (length self.old.marks.items) ranges.now.starts.items ranges.now.numbers.items
            ranges.now.ends.items → AreAll arcs ranges.now.numbers.items → IfErr result (StopsAt (NamesLoop arcs)) }
    {
        let Some(&bit) = self.path.last() else {
            return Ok(false);
        };
        let next = self.go_on(ranges, bit);
        if next == ranges.starts[bit as usize + 1] {
            self.give_out(ranges, bit)?;
            return Ok(true);
        }
        let end = ranges.ends[next as usize];
        if self.marks[end as usize] > UNMET {
            return Err(self.refuse(alloc, ranges, end));
        }
        self.enter(ranges, end)?;
        Ok(true)
    }

    /// Gives out all bits to which arcs lead from the root, and the root.
    pub(crate) fn follow(
        &mut self,
        alloc: Global,
        ranges: &OutgoingArcs,
        root: u32,
    ) -> Result<(), Stop>
        requires few { length self.old.marks.items < 2 ^ 32 - 2 }
        requires search { IsSearching (length self.old.marks.items) ranges.now self.old }
        requires root { root < length self.old.marks.items }
        requires empty { self.old.path.items ≡ [] }
        ensures search { OnOk result (IsSearching (length self.old.marks.items) ranges.now self.new) }
        ensures stays { OnOk result ((v : ℕ) → slice_index self.old.marks.items v ≢ 0 →
            slice_index self.new.marks.items v ≢ 0) }
        ensures empty { OnOk result (self.new.path.items ≡ []) }
        ensures met { OnOk result (slice_index self.new.marks.items root ≢ 0) }
        ensures stop { (arcs : List TimingArc) →
            AreLeaving arcs (length self.old.marks.items) ranges.now.starts.items ranges.now.numbers.items
            ranges.now.ends.items → AreAll arcs ranges.now.numbers.items → IfErr result (StopsAt (NamesLoop arcs)) }
    {
        if self.marks[root as usize] > UNMET {
            return Ok(());
        }
        self.enter(ranges, root)?;
        while self.step(alloc, ranges)? {}
        Ok(())
    }
}
