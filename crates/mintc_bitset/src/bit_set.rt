//! The set and its calls.
ghost use Rattle.std.specs.Prelude.{◌≡◌, ◌≢◌, ◌<◌, ◌≤◌, ◌*◌, ◌^◌, ℕ, length, IfOk};
ghost use Rattle.mintc_bitset.specs.BitSet.{IsIn, room};

use std::alloc::{AllocError, Global};

/// A set of places, which are counted from 0.
#[derive(Drop)]
pub struct BitSet {
    /// A bit for each place, 64 in a word.
    pub words: Vec<u64>,
}

/// Takes a place in.
#[inline(always)]
fn insert(words: &mut [u64], place: usize)
    requires { place < room words.old }
    ensures inserted { IsIn words.new place }
    ensures kept { (other : ℕ) → IsIn words.old other → IsIn words.new other }
    ensures only { (other : ℕ) → other ≢ place → IsIn words.new other → IsIn words.old other }
{
    words[place / 64] |= 1 << (place % 64);
}

/// Takes a place out.
#[inline(always)]
fn take_out(words: &mut [u64], place: usize)
    requires { place < room words.old }
    ensures removed { IsIn words.new place → ⊥ }
    ensures others { (other : ℕ) → other ≢ place → IsIn words.old other → IsIn words.new other }
    ensures only { (other : ℕ) → IsIn words.new other → IsIn words.old other }
{
    words[place / 64] &= !(1 << (place % 64));
}

/// The first place that is in the words from this one on, or the room's end where there is none.
#[inline(never)]
fn next_from(words: &[u64], word: usize) -> usize
    requires few { length words.now ≤ 2 ^ 32 }
    requires word { word ≤ length words.now }
    ensures from { 64 * word ≤ result }
    ensures is_in { result < room words.now → IsIn words.now result }
    ensures none { (other : ℕ) → 64 * word ≤ other → other < result → IsIn words.now other → ⊥ }
{
    let mut at = word;
    while at < words.len() {
        let bits = words[at];
        if bits > 0 {
            return 64 * at + bits.trailing_zeros() as usize;
        }
        at += 1;
    }
    64 * at
}

/// The first place that is in the words from this place on. Where there is none, a place at the room's end or past it.
#[inline(always)]
fn next_in(words: &[u64], place: usize) -> usize
    requires { length words.now ≤ 2 ^ 32 }
    ensures from { place ≤ result }
    ensures is_in { result < room words.now → IsIn words.now result }
    ensures none { (other : ℕ) → place ≤ other → other < result → IsIn words.now other → ⊥ }
{
    let word = place / 64;
    if word >= words.len() {
        return place;
    }
    let bits = words[word] >> (place % 64);
    if bits > 0 {
        return place + bits.trailing_zeros() as usize;
    }
    next_from(words, word + 1)
}

impl BitSet {
    /// No places, with room for so many.
    pub fn new(alloc: Global, count: usize) -> Result<BitSet, AllocError>
        requires { count < 2 ^ 32 }
        ensures room { IfOk result (λ places. count ≤ room places.words.items) }
        ensures few { IfOk result (λ places. length places.words.items ≤ 2 ^ 32) }
        ensures none { IfOk result (λ places. (place : ℕ) → IsIn places.words.items place → ⊥) }
    {
        let words = vec![in alloc; 0; count / 64 + 1]?;
        Ok(BitSet { words })
    }

    /// Takes a place in.
    #[inline(always)]
    pub fn insert(&mut self, place: usize)
        requires { place < room self.old.words.items }
        ensures count { length self.new.words.items ≡ length self.old.words.items }
        ensures inserted { IsIn self.new.words.items place }
        ensures kept { (other : ℕ) → IsIn self.old.words.items other → IsIn self.new.words.items other }
        ensures only { (other : ℕ) → other ≢ place → IsIn self.new.words.items other → IsIn self.old.words.items other }
    {
        insert(&mut self.words, place);
    }

    /// Takes a place out.
    #[inline(always)]
    pub fn remove(&mut self, place: usize)
        ensures count { length self.new.words.items ≡ length self.old.words.items }
        ensures removed { IsIn self.new.words.items place → ⊥ }
        ensures others { (other : ℕ) → other ≢ place → IsIn self.old.words.items other →
            IsIn self.new.words.items other }
        ensures only { (other : ℕ) → IsIn self.new.words.items other → IsIn self.old.words.items other }
    {
        if place / 64 < self.words.len() {
            take_out(&mut self.words, place);
        }
    }

    /// The first place that is in the set from this one on. Where there is none, a place at the room's end or past it.
    #[inline(always)]
    pub fn next(&self, place: usize) -> usize
        requires { length self.now.words.items ≤ 2 ^ 32 }
        ensures from { place ≤ result }
        ensures is_in { result < room self.now.words.items → IsIn self.now.words.items result }
        ensures none { (other : ℕ) → place ≤ other → other < result → IsIn self.now.words.items other → ⊥ }
    {
        next_in(&self.words, place)
    }
}
