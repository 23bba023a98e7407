//! The sums in the rows that are reached. Memory is taken for these rows alone.
ghost use Rattle.std.specs.Prelude.{◌≡◌, ◌≢◌, ◌<◌, ◌≤◌, ◌+◌, ℕ, Some, pos, length, replicate, IfOk, OnOk};
ghost use Rattle.std.specs.Int.{int_max, int_min};
ghost use Rattle.mintc_lanes.specs.Lanes.{lane_at, AreJoined};
ghost use Rattle.mintc_timing.specs.Limits.{IsDelay};
ghost use Rattle.mintc_paths_sums.specs.SparseRows.{places_of, place_at, AreNumbered};
ghost use Rattle.mintc_paths_sums.specs.Sums.{sums_at, IsBounded, most_sum};
ghost use Rattle.mintc_paths_sums.specs.Placed.{placed};

use crate::sums::{NO_SUMS, Sums};
use mintc_lanes::{max_plus_row, min_plus_row, plus_row};
use mintc_timing::TimingArc;
use std::alloc::{AllocError, Global};
use std::marker::Model;

/// Sums in rows, seen as the list of them.
#[derive(Drop)]
pub struct SparseRows {
    /// For each row a number. By how much it is above the base is the place of the row's sums, 0 where there are none.
    numbers: Vec<u32>,
    /// It is raised where all sums are taken away, and begins anew past 2^31. A block has less than 2^24 rows.
    base: u32,
    /// The sums that are held. Those at place 0 are none.
    sums: Vec<Sums>,
}

impl Model for SparseRows {
    ghost use Rattle.std.specs.Prelude.{List};
    ghost use Rattle.mintc_paths_sums.specs.declared.sums.Sums.{Sums};
    ghost use Rattle.mintc_paths_sums.specs.SparseRows.{places_of, AreNumbered};
    ghost use Rattle.mintc_paths_sums.specs.Placed.{placed};

    ghost Value = { List Sums };

    ghost view = { λ h. placed (places_of h.base h.numbers.items) h.sums.items };

    ghost invariant = { λ h. AreNumbered h.base h.numbers.items h.sums.items };
}

/// The place of a row, 0 where it has none.
fn slot_of(numbers: &[u32], base: u32, row: usize) -> usize
    requires { row < length numbers.now }
    ensures { result ≡ place_at (places_of base numbers.now) row }
{
    numbers[row].saturating_sub(base) as usize
}

/// Gives the next place to a row that has none.
#[tactic(auto, using(crate::proofs::Give::given_kept, crate::proofs::Give::given_own, crate::proofs::Give::given_all))]
fn give(
    numbers: &mut Vec<u32>,
    base: u32,
    sums: &mut Vec<Sums>,
    row: u32,
) -> Result<usize, AllocError>
    requires row { row < length numbers.old.items }
    requires held { AreNumbered base numbers.old.items sums.old.items }
    requires none { place_at (places_of base numbers.old.items) row ≡ 0 }
    ensures held { AreNumbered base numbers.new.items sums.new.items }
    ensures kept { (other : ℕ) → sums_at (placed (places_of base numbers.new.items) sums.new.items) other
        ≡ sums_at (placed (places_of base numbers.old.items) sums.old.items) other }
    ensures count { length numbers.new.items ≡ length numbers.old.items }
    ensures place { IfOk result (λ place. place ≡ place_at (places_of base numbers.new.items) row) }
    ensures some { IfOk result (λ place. place ≢ 0) }
{
    let place = sums.len();
    let number = base as usize + place;
    if number >= u32::MAX as usize {
        return Err(AllocError);
    }
    sums.push(NO_SUMS)?;
    numbers[row as usize] = number as u32;
    Ok(place)
}

/// The place of a row, which gets one if it has none.
fn hold(
    numbers: &mut Vec<u32>,
    base: u32,
    sums: &mut Vec<Sums>,
    row: u32,
) -> Result<usize, AllocError>
    requires row { row < length numbers.old.items }
    requires held { AreNumbered base numbers.old.items sums.old.items }
    ensures held { AreNumbered base numbers.new.items sums.new.items }
    ensures kept { (other : ℕ) → sums_at (placed (places_of base numbers.new.items) sums.new.items) other
        ≡ sums_at (placed (places_of base numbers.old.items) sums.old.items) other }
    ensures count { length numbers.new.items ≡ length numbers.old.items }
    ensures place { IfOk result (λ place. place ≡ place_at (places_of base numbers.new.items) row) }
    ensures some { IfOk result (λ place. place ≢ 0) }
{
    let place = slot_of(numbers, base, row as usize);
    if place > 0 {
        return Ok(place);
    }
    give(numbers, base, sums, row)
}

/// Takes the numbers of all rows back.
fn take_back(numbers: &mut [u32])
    ensures { numbers.new ≡ replicate (length numbers.old) 0 }
{
    numbers.fill(0);
}

/// Begins a lane: the empty path leads from a bit to itself.
fn begin_lane(sums: &mut Sums, lane: usize)
    requires lane { lane < 8 }
    ensures lanes { (other : ℕ) → other ≢ lane
        → (lane_at sums.new.greatest other ≡ lane_at sums.old.greatest other)
        × (lane_at sums.new.least other ≡ lane_at sums.old.least other) }
    ensures own { (lane_at sums.new.greatest lane ≡ Some (pos 0)) × (lane_at sums.new.least lane ≡ Some (pos 0)) }
{
    sums.greatest[lane] = 0;
    sums.least[lane] = 0;
}

/// Joins sums, along an arc, to those in the row that it enters.
fn join_rows(sums: &mut Sums, others: &Sums, arc: TimingArc)
    requires min { IsDelay arc.min }
    requires max { IsDelay arc.max }
    requires bounded { IsBounded most_sum sums.old }
    requires others_bounded { IsBounded most_sum others.now }
    ensures greatest { AreJoined int_max sums.old.greatest others.now.greatest arc.max sums.new.greatest }
    ensures least { AreJoined int_min sums.old.least others.now.least arc.min sums.new.least }
    ensures bounded { (most : ℕ) → IsBounded most others.now → IsBounded most sums.old →
        IsBounded (most + 1000000000) sums.new }
{
    max_plus_row(&mut sums.greatest, &others.greatest, arc.max);
    min_plus_row(&mut sums.least, &others.least, arc.min);
}

/// The sums, along an arc, to a row that has none.
fn led_on(others: &Sums, arc: TimingArc) -> Sums
    requires min { IsDelay arc.min }
    requires max { IsDelay arc.max }
    requires others_bounded { IsBounded most_sum others.now }
    ensures greatest { AreJoined int_max NO_SUMS.greatest others.now.greatest arc.max result.greatest }
    ensures least { AreJoined int_min NO_SUMS.least others.now.least arc.min result.least }
    ensures bounded { (most : ℕ) → IsBounded most others.now → IsBounded (most + 1000000000) result }
{
    Sums {
        greatest: plus_row(&others.greatest, arc.max),
        least: plus_row(&others.least, arc.min),
    }
}

impl SparseRows {
    /// No sums in so many rows.
    #[tactic(auto, using(crate::proofs::Give::all_zero, crate::proofs::Give::AreHeld_none))]
    pub fn new(alloc: Global, rows: usize) -> Result<SparseRows, AllocError>
        ensures count { IfOk result (λ held. length held ≡ rows) }
        ensures none { IfOk result (λ held. (row : ℕ) → row < rows → sums_at held row ≡ NO_SUMS) }
    {
        Ok(SparseRows {
            numbers: vec![in alloc; 0; rows]?,
            base: 0,
            sums: vec![in alloc; NO_SUMS; 1]?,
        })
    }

    /// How many rows there are.
    pub fn len(&self) -> usize
        ensures { result ≡ length self.now }
    {
        self.numbers.len()
    }

    /// The sums in a row.
    pub fn at(&self, row: usize) -> &Sums
        requires { row < length self.now }
        ensures { result.now ≡ sums_at self.now row }
    {
        let place = slot_of(&self.numbers, self.base, row);
        &self.sums[place]
    }

    /// Takes all sums away.
    pub fn clear(&mut self)
        ensures count { length self.new ≡ length self.old }
        ensures none { (row : ℕ) → row < length self.new → sums_at self.new row ≡ NO_SUMS }
    {
        if self.base < 1 << 31 {
            self.raise();
        } else {
            self.begin_anew();
        }
    }

    /// Takes all sums away, so that no row has a place: the base is raised.
    fn raise(&mut self)
        ensures count { length self.new ≡ length self.old }
        ensures none { (row : ℕ) → row < length self.new → sums_at self.new row ≡ NO_SUMS }
    {
        self.base += (self.sums.len() - 1) as u32;
        self.sums.truncate(1);
    }

    /// Takes all sums away, and the numbers of all rows.
    fn begin_anew(&mut self)
        ensures count { length self.new ≡ length self.old }
        ensures none { (row : ℕ) → row < length self.new → sums_at self.new row ≡ NO_SUMS }
    {
        take_back(&mut self.numbers);
        self.base = 0;
        self.sums.truncate(1);
    }

    /// Begins a lane in a row: the empty path leads from a bit to itself.
    pub fn begin(&mut self, row: u32, lane: usize) -> Result<(), AllocError>
        requires row { row < length self.old }
        requires lane { lane < 8 }
        ensures count { length self.new ≡ length self.old }
        ensures others { (other : ℕ) → other ≢ row → sums_at self.new other ≡ sums_at self.old other }
        ensures lanes { OnOk result ((other : ℕ) → other ≢ lane
            → (lane_at (sums_at self.new row).greatest other ≡ lane_at (sums_at self.old row).greatest other)
            × (lane_at (sums_at self.new row).least other ≡ lane_at (sums_at self.old row).least other)) }
        ensures own { OnOk result ((lane_at (sums_at self.new row).greatest lane ≡ Some (pos 0))
            × (lane_at (sums_at self.new row).least lane ≡ Some (pos 0))) }
    {
        let place = hold(&mut self.numbers, self.base, &mut self.sums, row)?;
        begin_lane(&mut self.sums[place], lane);
        Ok(())
    }

    /// Joins the sums in the row that the arc leaves, along the arc, to those in the row that it enters.
    pub fn join(&mut self, arc: TimingArc) -> Result<(), AllocError>
        requires from { arc.from < length self.old }
        requires to { arc.to < length self.old }
        requires min { IsDelay arc.min }
        requires max { IsDelay arc.max }
        requires from_bounded { IsBounded most_sum (sums_at self.old arc.from) }
        requires to_bounded { IsBounded most_sum (sums_at self.old arc.to) }
        ensures count { length self.new ≡ length self.old }
        ensures others { (row : ℕ) → row ≢ arc.to → sums_at self.new row ≡ sums_at self.old row }
        ensures greatest { OnOk result
            (AreJoined int_max (sums_at self.old arc.to).greatest (sums_at self.old arc.from).greatest arc.max
            (sums_at self.new arc.to).greatest) }
        ensures least { OnOk result
            (AreJoined int_min (sums_at self.old arc.to).least (sums_at self.old arc.from).least arc.min
            (sums_at self.new arc.to).least) }
        ensures bounded { OnOk result ((most : ℕ) → IsBounded most (sums_at self.old arc.from) →
            IsBounded most (sums_at self.old arc.to) → IsBounded (most + 1000000000) (sums_at self.new arc.to)) }
    {
        let place = slot_of(&self.numbers, self.base, arc.to as usize);
        if place > 0 {
            let left = slot_of(&self.numbers, self.base, arc.from as usize);
            let from = self.sums[left];
            join_rows(&mut self.sums[place], &from, arc);
            return Ok(());
        }
        let place = give(&mut self.numbers, self.base, &mut self.sums, arc.to)?;
        let left = slot_of(&self.numbers, self.base, arc.from as usize);
        let others = self.sums[left];
        self.sums[place] = led_on(&others, arc);
        Ok(())
    }
}
