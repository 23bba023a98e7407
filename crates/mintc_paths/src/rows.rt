//! The rows of the bits' sums. They stand in the order in which the arcs come to their bits, so that arcs that are
//! carried along one after another find their sums near each other.
ghost use Rattle.std.specs.Prelude.{◌≡◌, ◌≢◌, ◌+◌, ◌-◌, ◌*◌, ◌<◌, ◌^◌, ℕ, length, All, IfOk};
ghost use Rattle.mintc_timing.specs.Order.{IsOrder};
ghost use Rattle.mintc_paths_sums.specs.Placed.{row_of};
ghost use Rattle.mintc_paths.specs.Leaving.{AreLeaving};
ghost use Rattle.mintc_paths.specs.Sums.{AreRows, IsMet, IsSequence, moved};

use mintc_adjacency::Adjacency;
use mintc_timing::{Flat, Order, TimingArc};
use std::alloc::{AllocError, Global};

/// A row for each bit, and no row for two.
#[derive(Drop)]
pub struct Rows {
    /// The row of each bit.
    pub of_bits: Vec<u32>,
    /// The bit of each row.
    pub bits: Vec<u32>,
}

impl Rows {
    /// For each of so many bits the row of its own number.
    pub fn plain(alloc: Global, count: usize) -> Result<Rows, AllocError>
        requires { count < 2 ^ 32 }
        ensures rows { IfOk result (λ rows. AreRows count rows) }
        ensures own { IfOk result (λ rows. (bit : ℕ) → bit < count → row_of rows.of_bits.items bit ≡ bit) }
    {
        let mut of_bits = Vec::with_capacity(alloc, count)?;
        for bit in 0..count {
            of_bits.push(bit as u32)?;
        }
        let bits = of_bits.clone()?;
        Ok(Rows { of_bits, bits })
    }

    /// Gives the row to the bit, and the bit's old row to the one that had it.
    fn give(&mut self, bit: u32, row: u32)
        requires bit { bit < length self.old.of_bits.items }
        requires row { row < length self.old.of_bits.items }
        requires rows { AreRows (length self.old.of_bits.items) self.old }
        ensures rows { AreRows (length self.old.of_bits.items) self.new }
        ensures row { row_of self.new.of_bits.items bit ≡ row }
        ensures others { (other : ℕ) → other ≢ bit → other ≢ row_of self.old.bits.items row →
            row_of self.new.of_bits.items other ≡ row_of self.old.of_bits.items other }
    {
        let other = self.bits[row as usize];
        let before = self.of_bits[bit as usize];
        self.of_bits[bit as usize] = row;
        self.bits[row as usize] = bit;
        self.of_bits[other as usize] = before;
        self.bits[before as usize] = other;
    }

    /// Gives the next row to the bit, unless it has one of those that are given. How many are given then.
    pub fn meet(&mut self, bit: u32, given: u32) -> u32
        requires few { length self.old.of_bits.items < 2 ^ 32 }
        requires bit { bit < length self.old.of_bits.items }
        requires rows { AreRows (length self.old.of_bits.items) self.old }
        ensures rows { AreRows (length self.old.of_bits.items) self.new }
        ensures met { IsMet self.old.of_bits.items bit given self.new.of_bits.items result }
    {
        if self.of_bits[bit as usize] < given {
            return given;
        }
        self.give(bit, given);
        given + 1
    }

    /// The arc from row to row.
    fn arc_by_rows(&self, arc: TimingArc) -> TimingArc
        requires from { arc.from < length self.now.of_bits.items }
        requires to { arc.to < length self.now.of_bits.items }
        ensures { result ≡ moved self.now.of_bits.items arc }
    {
        TimingArc {
            from: self.of_bits[arc.from as usize],
            to: self.of_bits[arc.to as usize],
            min: arc.min,
            max: arc.max,
        }
    }
}

/// The arcs that leave each of so many rows.
pub(crate) fn arcs_by_row(
    alloc: Global,
    along: &[TimingArc],
    rows: usize,
) -> Result<Adjacency, AllocError>
    requires few { length along.now < 2 ^ 32 - 1 }
    requires inside { All (λ arc. arc.from < rows) along.now }
    ensures { IfOk result (AreLeaving along.now rows) }
{
    let mut leaving = Adjacency::new(alloc, rows, along.len())?;
    for (place, arc) in along.iter().enumerate() {
        leaving.add(place, arc.from);
    }
    Ok(leaving)
}

/// The arcs in their order, one after another as they are carried along, each from row to row.
#[derive(Drop)]
pub struct ArcSequence {
    pub rows: Rows,
    pub along: Vec<TimingArc>,
    pub leaving: Adjacency,
}

impl ArcSequence {
    /// The sequence over rows in the order in which the arcs come to the bits.
    #[tactic(auto, using(mintc_timing::proofs::SharedOrdered::inside, crate::proofs::Filling::arc_inside))]
    pub fn along(alloc: Global, flat: &Flat, order: &Order) -> Result<ArcSequence, AllocError>
        requires { IsOrder flat.now.arcs order.now }
        ensures { IfOk result
            (λ sequence. IsSequence (2 * length flat.now.elements + length flat.now.inner) flat.now.arcs order.now
            sequence) }
    {
        let arcs = flat.arcs();
        let numbers = order.arcs().items();
        let mut rows = Rows::plain(alloc, flat.bit_count())?;
        let mut along = Vec::with_capacity(alloc, numbers.len())?;
        let mut given = 0;
        for number in numbers {
            let arc = arcs[*number as usize];
            given = rows.meet(arc.from, given);
            given = rows.meet(arc.to, given);
            along.push(rows.arc_by_rows(arc))?;
        }
        let leaving = arcs_by_row(alloc, &along, rows.of_bits.len())?;
        Ok(ArcSequence {
            rows,
            along,
            leaving,
        })
    }

    /// The sequence over these rows.
    #[tactic(auto, using(mintc_timing::proofs::SharedOrdered::inside, crate::proofs::Filling::arc_inside))]
    pub fn new(
        alloc: Global,
        flat: &Flat,
        order: &Order,
        rows: Rows,
    ) -> Result<ArcSequence, AllocError>
        requires order { IsOrder flat.now.arcs order.now }
        requires rows { AreRows (2 * length flat.now.elements + length flat.now.inner) rows }
        ensures sequence { IfOk result
            (λ sequence. IsSequence (2 * length flat.now.elements + length flat.now.inner) flat.now.arcs order.now
            sequence) }
        ensures rows { IfOk result (λ sequence. sequence.rows ≡ rows) }
    {
        let arcs = flat.arcs();
        let numbers = order.arcs().items();
        let mut along = Vec::with_capacity(alloc, numbers.len())?;
        for number in numbers {
            along.push(rows.arc_by_rows(arcs[*number as usize]))?;
        }
        let leaving = arcs_by_row(alloc, &along, rows.of_bits.len())?;
        Ok(ArcSequence {
            rows,
            along,
            leaving,
        })
    }
}
