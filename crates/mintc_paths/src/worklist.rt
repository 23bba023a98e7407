//! The arcs that leave the rows that are reached, so that no others are looked at. They stand in a set of their
//! places along a sequence, or are all there are, where the last search looked at most of them.
ghost use Rattle.std.specs.Prelude.{◌≡◌, ◌≢◌, ◌<◌, ◌≤◌, ◌^◌, ℕ, true, length, slice_set, IfOk};
ghost use Rattle.mintc_paths.specs.Worklist.{IsReady, IsOn, IsAwake};
ghost use Rattle.mintc_bitset.specs.BitSet.{IsIn, room};
ghost use Rattle.mintc_timing.specs.Paths.{arc_at};
ghost use Rattle.mintc_paths.specs.Leaving.{AreLeaving};

use crate::rows::ArcSequence;
use mintc_bitset::{BitSet, Stamps};
use std::alloc::{AllocError, Global};

/// The arcs along a sequence that are awake.
#[derive(Drop)]
pub struct Worklist {
    /// The places of the arcs that leave rows which are reached and are still to come, unless all are awake.
    places: BitSet,
    /// Whether all arcs are awake.
    all: bool,
    /// How often a row was reached since the beginning of a search.
    reaches: usize,
}

/// Takes in the arcs that leave a row.
#[inline(never)]
fn wake(places: &mut BitSet, sequence: &ArcSequence, row: usize)
    requires room { length sequence.now.along.items ≤ room places.old.words.items }
    requires row { row < length sequence.now.leaving.lasts.items }
    requires leaving { AreLeaving sequence.now.along.items (length sequence.now.leaving.lasts.items)
        sequence.now.leaving }
    ensures count { length places.new.words.items ≡ length places.old.words.items }
    ensures kept { (place : ℕ) → IsIn places.old.words.items place → IsIn places.new.words.items place }
    ensures awake { (place : ℕ) → place < length sequence.now.along.items →
        (arc_at sequence.now.along.items place).from ≡ row → IsIn places.new.words.items place }
{
    for place in sequence.leaving.at(row) {
        places.insert(place);
    }
}

impl Worklist {
    /// No arcs, with room for so many.
    pub fn new(alloc: Global, arcs: usize) -> Result<Worklist, AllocError>
        requires { arcs < 2 ^ 32 }
        ensures ready { IfOk result (IsReady arcs) }
    {
        let places = BitSet::new(alloc, arcs)?;
        Ok(Worklist {
            places,
            all: false,
            reaches: 0,
        })
    }

    /// Begins a search. All of so many arcs are awake in it if most of them brought something in the last one.
    pub fn renew(&mut self, arcs: usize)
        requires ready { IsReady arcs self.old }
        ensures ready { IsReady arcs self.new }
    {
        self.all = self.reaches > arcs / 2;
        self.reaches = 0;
    }

    /// The place of the first arc from this one on that is awake.
    #[inline(always)]
    pub fn next(&self, place: usize) -> usize
        requires few { length self.now.places.words.items ≤ 2 ^ 32 }
        ensures from { place ≤ result }
        ensures none { (other : ℕ) → place ≤ other → other < result → IsOn self.now other → ⊥ }
    {
        if self.all {
            return place;
        }
        self.places.next(place)
    }

    /// Takes away the arc at a place.
    #[inline(always)]
    pub fn pass(&mut self, place: usize)
        ensures count { length self.new.places.words.items ≡ length self.old.places.words.items }
        ensures others { (other : ℕ) → other ≢ place → IsOn self.old other → IsOn self.new other }
    {
        if !self.all {
            self.places.remove(place);
        }
    }

    /// Marks a row as reached, and wakes the arcs that leave it.
    #[inline(always)]
    pub fn reach(&mut self, reached: &mut Stamps, sequence: &ArcSequence, row: u32)
        requires row { row < length reached.old }
        requires leaving { AreLeaving sequence.now.along.items (length reached.old) sequence.now.leaving }
        requires ready { IsReady (length sequence.now.along.items) self.old }
        ensures reached { reached.new ≡ slice_set reached.old row true }
        ensures awake { (place : ℕ) → IsAwake sequence.now.along.items place reached.old self.old
            → IsAwake sequence.now.along.items place reached.new self.new }
    {
        let at = row as usize;
        if !reached.at(at) {
            reached.set(at);
            if !self.all {
                wake(&mut self.places, sequence, at);
            }
        }
        self.reaches = self.reaches.wrapping_add(1);
    }
}
