//! Pairs as they are found.
ghost use Rattle.std.specs.Prelude.{◌≡◌, ◌<◌, ◌≤◌, ◌^◌, ◌+◌, ◌*◌, ◌++◌, ◌∷◌, List, [], length, OnOk};
ghost use Rattle.mintc_text.specs.declared.limits.TheConstants.{MOST_ELEMENTS};

use crate::filled::Filled;
use crate::rows::Rows;
use mintc_bitset::Stamps;
use mintc_paths_sums::{SparseRows, Sums, sum_in};
use mintc_text::OutOfMemory;
use mintc_timing::Pair;
use std::alloc::Global;

/// The first pairs found, and the number of all.
#[derive(Drop)]
pub(crate) struct Found {
    pub pairs: Vec<Pair>,
    pub count: u64,
    /// How many pairs are kept: more are only counted.
    pub most: usize,
    /// The elements whose inputs are reached in the block at hand, in ascending order.
    pub ends: Vec<u32>,
}

impl Found {
    ghost use Rattle.mintc_paths.specs.Found.{AreEnds, IsFoundBefore};
    ghost use Rattle.mintc_timing.specs.Design.{Design};
    ghost use Rattle.mintc_lanes.specs.Lanes.{lane_at};
    ghost use Rattle.mintc_paths_sums.specs.Placed.{placed};
    ghost use Rattle.mintc_paths.specs.Sums.{AreMarked, AreRows};
    ghost use Rattle.mintc_paths.specs.Reached.{IsPaired, IsPairedLane, AreExtremes};

    /// No pairs so far, of which so many are kept.
    pub(crate) fn new(alloc: Global, most: usize) -> Found
        ensures pairs { result.pairs.items ≡ [] }
        ensures count { result.count ≡ 0 }
        ensures most { result.most ≡ most }
    {
        Found {
            pairs: Vec::new(alloc),
            count: 0,
            most,
            ends: Vec::new(alloc),
        }
    }

    /// Counts a pair, and lists it while fewer are listed than are kept.
    pub(crate) fn add(&mut self, pair: Pair) -> Result<(), OutOfMemory>
        requires { self.old.count < 2 ^ 62 }
        ensures count { OnOk result (self.new.count ≡ self.old.count + 1) }
        ensures pairs { OnOk result (self.old.count < self.old.most →
            self.new.pairs.items ≡ self.old.pairs.items ++ pair ∷ []) }
        ensures most { self.new.most ≡ self.old.most }
        ensures ends { self.new.ends.items ≡ self.old.ends.items }
    {
        if self.count < self.most as u64 {
            self.pairs.push(pair)?;
        }
        self.count += 1;
        Ok(())
    }

    /// The pair of two elements, whose sums are in this lane, if they are a pair.
    #[tactic(auto, using(crate::proofs::SharedFinding::IsAdded_none))]
    fn add_at(&mut self, from: u32, to: u32, sums: &Sums, lane: usize) -> Result<(), OutOfMemory>
        requires count { self.old.count < 2 ^ 62 }
        requires lane { lane < 8 }
        ensures found { OnOk result ((design : Design) →
            IsPaired design from to (lane_at sums.now.greatest lane) (lane_at sums.now.least lane)
            → IsFoundBefore design from to self.old → IsFoundBefore design from (to + 1) self.new) }
        ensures most { self.new.most ≡ self.old.most }
        ensures ends { self.new.ends.items ≡ self.old.ends.items }
    {
        let Some(max) = sum_in(&sums.greatest, lane) else {
            return Ok(());
        };
        let Some(min) = sum_in(&sums.least, lane) else {
            return Ok(());
        };
        self.add(Pair { from, to, min, max })
    }

    /// The pairs from an element, whose sums are in this lane. It leads to none but the ends.
    fn add_from(
        &mut self,
        sums: &SparseRows,
        rows: &Rows,
        element: u32,
        lane: usize,
    ) -> Result<(), OutOfMemory>
        ghost design: { Design }
        requires limit { length design.elements ≤ MOST_ELEMENTS }
        requires bits { 2 * length design.elements ≤ length sums.now }
        requires rows { AreRows (length sums.now) rows.now }
        requires ends { AreEnds rows.now.of_bits.items sums.now (length design.elements) self.old.ends.items }
        requires element { element < length design.elements }
        requires lane { lane < 8 }
        requires paired { IsPairedLane design (placed rows.now.of_bits.items sums.now) element lane }
        requires found { IsFoundBefore design element 0 self.old }
        ensures found { OnOk result (IsFoundBefore design (element + 1) 0 self.new) }
        ensures most { self.new.most ≡ self.old.most }
        ensures ends { self.new.ends.items ≡ self.old.ends.items }
    {
        for number in 0..self.ends.len() {
            let to = self.ends[number];
            let row = rows.of_bits[2 * to as usize];
            self.add_at(element, to, sums.at(row as usize), lane)?;
        }
        Ok(())
    }

    /// Lists the elements whose inputs are reached.
    fn list_ends(&mut self, reached: &Stamps, rows: &Rows, elements: u32) -> Result<(), OutOfMemory>
        requires limit { elements ≤ MOST_ELEMENTS }
        requires bits { 2 * elements ≤ length reached.now }
        requires rows { AreRows (length reached.now) rows.now }
        ensures count { self.new.count ≡ self.old.count }
        ensures pairs { self.new.pairs.items ≡ self.old.pairs.items }
        ensures most { self.new.most ≡ self.old.most }
        ensures ends { OnOk result ((sums : List Sums) → AreMarked sums reached.now →
            AreEnds rows.now.of_bits.items sums elements self.new.ends.items) }
    {
        self.ends.clear();
        for to in 0..elements {
            let row = rows.of_bits[2 * to as usize];
            if reached.at(row as usize) {
                self.ends.push(to)?;
            }
        }
        Ok(())
    }

    /// The pairs from a block's elements, of a design with so many.
    pub(crate) fn add_all(&mut self, block: &Filled, elements: u32) -> Result<(), OutOfMemory>
        ghost design: { Design }
        requires elements { elements ≡ length design.elements }
        requires limit { elements ≤ MOST_ELEMENTS }
        requires bits { 2 * elements ≤ length block.now.sums.now }
        requires inside { block.now.first + block.now.lanes ≤ elements }
        requires extremes { AreExtremes design block.now.first block.now.lanes
            (placed block.now.rows.now.of_bits.items block.now.sums.now) }
        requires found { IsFoundBefore design block.now.first 0 self.old }
        ensures found { OnOk result (IsFoundBefore design (block.now.first + block.now.lanes) 0 self.new) }
        ensures most { self.new.most ≡ self.old.most }
    {
        self.list_ends(block.reached, block.rows, elements)?;
        for lane in 0..block.lanes {
            self.add_from(block.sums, block.rows, block.first + lane as u32, lane)?;
        }
        Ok(())
    }
}
