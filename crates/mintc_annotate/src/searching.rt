//! The search back from a bit.
ghost use Rattle.std.specs.Prelude.{◌≡◌, ◌<◌, ◌≤◌, ◌++◌, ◌∷◌, [], ℕ, List, length, slice_index_or, None, IfOk, OnOk};
ghost use Rattle.std.specs.Prelude.{MatchOption, All, map};
ghost use Rattle.std.specs.Bool.{OnTrue};
ghost use Rattle.std.specs.List.{range_with_len};
ghost use Rattle.mintc_text.specs.declared.limits.TheConstants.{MOST_INNER};
ghost use Rattle.mintc_annotate.specs.Phases.{EndsAt};
ghost use Rattle.mintc_annotate.specs.Searches.{AreDrivers, IsTable, AreLongJumps, first_jump, then_jump, doubled_jump};
ghost use Rattle.mintc_annotate.specs.Searches.{spot_after};
ghost use Rattle.mintc_annotate.specs.declared.searching.Drive.{Drive};
ghost use Rattle.mintc_annotate.specs.declared.searching.Spot.{Spot};

use mintc_text::OutOfMemory;
use std::alloc::Global;

/// What drives a bit: another bit. The level that is looked for turns where the cell between them inverts.
#[derive(Clone, Copy)]
pub(crate) struct Drive {
    pub(crate) to: u32,
    pub(crate) from: u32,
    pub(crate) inverts: bool,
}

/// A bit, with the level that is looked for there.
#[derive(Clone, Copy)]
pub struct Spot {
    pub bit: u32,
    pub high: bool,
}

/// A way back from a bit: where it leads, and whether the level turns on it.
#[derive(Clone, Copy)]
pub(crate) struct Jump {
    pub(crate) bit: u32,
    pub(crate) turns: bool,
}

/// So many bits that nothing drives.
pub(crate) fn no_drivers(alloc: Global, count: usize) -> Result<Vec<Option<Drive>>, OutOfMemory>
    ensures { IfOk result (λ table. AreDrivers [] count table.items) }
{
    let mut table = Vec::with_capacity(alloc, count)?;
    for number in 0..count {
        table.push(None)?;
    }
    Ok(table)
}

/// Adds what drives a bit, unless something drives it already.
pub(crate) fn add(table: &mut [Option<Drive>], drive: Drive)
    requires to { drive.to < length table.old }
    requires from { drive.from < length table.old }
    ensures size { length table.new ≡ length table.old }
    ensures added { (ds : List Drive) → AreDrivers ds (length table.old) table.old →
        AreDrivers (ds ++ drive ∷ []) (length table.old) table.new }
{
    let at = drive.to as usize;
    if table[at].is_none() {
        table[at] = Some(drive);
    }
}

/// One step back from a bit, and none where nothing drives it.
fn first_jump(table: &[Option<Drive>], bit: usize) -> Jump
    requires size { length table.now ≤ MOST_INNER }
    requires bit { bit < length table.now }
    ensures { result ≡ first_jump bit (slice_index_or table.now bit None) }
{
    match table[bit] {
        Some(drive) => Jump {
            bit: drive.from,
            turns: drive.inverts,
        },
        None => Jump {
            bit: bit as u32,
            turns: false,
        },
    }
}

/// One step back from each bit.
fn first_jumps(alloc: Global, table: &[Option<Drive>]) -> Result<Vec<Jump>, OutOfMemory>
    requires { length table.now ≤ MOST_INNER }
    ensures { IfOk result
        (λ v. v.items ≡ map (λ b. first_jump b (slice_index_or table.now b None))
        (range_with_len 0 (length table.now))) }
{
    let mut found = Vec::with_capacity(alloc, table.len())?;
    for bit in 0..table.len() {
        found.push(first_jump(table, bit))?;
    }
    Ok(found)
}

/// One way back and then another.
fn then_jump(one: Jump, other: Jump) -> Jump
    ensures { result ≡ then_jump one other }
{
    Jump {
        bit: other.bit,
        turns: one.turns != other.turns,
    }
}

/// Whether two ways back are one.
fn is_same_way(one: Jump, other: Jump) -> bool
    ensures { OnTrue result (one ≡ other) }
{
    one.bit == other.bit && one.turns == other.turns
}

/// Twice as many steps, in the place of what the list had. Whether these are the ways that were taken twice.
fn twice_as_far(jumps: &[Jump], found: &mut Vec<Jump>) -> Result<bool, OutOfMemory>
    requires { All (λ j. j.bit < length jumps.now) jumps.now }
    ensures twice { OnOk result (found.new.items ≡ map (doubled_jump jumps.now) jumps.now) }
    ensures ended { IfOk result (λ ended. OnTrue ended (map (doubled_jump jumps.now) jumps.now ≡ jumps.now)) }
{
    let mut ended = true;
    found.clear();
    for &jump in jumps {
        let twice = then_jump(jump, jumps[jump.bit as usize]);
        ended = ended && is_same_way(twice, jump);
        found.push(twice)?;
    }
    Ok(ended)
}

/// At least as many steps back from each bit as there are bits: so each search that ends is at its end. In each round
/// the steps of the round before are taken twice, until none of them leads on.
pub(crate) fn jumps(alloc: Global, table: &[Option<Drive>]) -> Result<Vec<Jump>, OutOfMemory>
    requires size { length table.now ≤ MOST_INNER }
    requires table { IsTable table.now }
    ensures { IfOk result (λ v. (ds : List Drive) → AreDrivers ds (length table.now) table.now →
        AreLongJumps ds (length table.now) v.items) }
{
    let mut found = first_jumps(alloc, table)?;
    let mut other = Vec::with_capacity(alloc, table.len())?;
    let mut steps = 1;
    while steps < table.len() {
        if twice_as_far(&found, &mut other)? {
            return Ok(found);
        }
        let twice = other;
        other = found;
        found = twice;
        steps += steps;
    }
    Ok(found)
}

/// Where a way back leads from a spot.
fn spot_after(jump: Jump, spot: Spot) -> Spot
    ensures { result ≡ spot_after jump spot.high }
{
    Spot {
        bit: jump.bit,
        high: if jump.turns { !spot.high } else { spot.high },
    }
}

/// Where the search from a spot ends; None where it goes round.
pub(crate) fn end_of(table: &[Option<Drive>], jumps: &[Jump], start: Spot) -> Option<Spot>
    requires jumps { (length jumps.now ≡ length table.now) × All (λ j. j.bit < length table.now) jumps.now }
    requires start { start.bit < length table.now }
    ensures { (ds : List Drive) → AreDrivers ds (length table.now) table.now →
        AreLongJumps ds (length table.now) jumps.now →
        MatchOption result ((n : ℕ) (end : Spot) → EndsAt ds n start end → ⊥) (λ end. (n : ℕ) × EndsAt ds n start end) }
{
    let end = spot_after(jumps[start.bit as usize], start);
    match table[end.bit as usize] {
        None => Some(end),
        Some(_) => None,
    }
}
