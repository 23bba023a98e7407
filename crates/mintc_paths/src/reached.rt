//! The rows that a search has reached. Nothing is promised of it.
ghost use Rattle.std.specs.Prelude.{◌<◌, ◌≤◌, IfSome};

use crate::trace::Extreme;
use std::alloc::{AllocError, Global};

/// The best sum that is found to a row, in femtoseconds, and the arc by which it comes.
#[derive(Clone, Copy)]
pub struct Arrival {
    pub sum: u32,
    pub arc: u32,
}

/// The arrival at the bit where paths begin.
pub const START: Arrival = Arrival { sum: 0, arc: 0 };

impl Arrival {
    /// The arrival where an arc ends that begins here.
    pub fn led_on(self, delay: u32, arc: u32) -> Arrival {
        Arrival {
            sum: self.sum.wrapping_add(delay),
            arc,
        }
    }

    /// Whether it is better than another one; of two with one sum, the one by the arc of the lesser number is.
    fn is_better(self, extreme: Extreme, other: Arrival) -> bool {
        if self.sum == other.sum {
            return self.arc < other.arc;
        }
        match extreme {
            Extreme::Greatest => self.sum > other.sum,
            Extreme::Least => self.sum < other.sum,
        }
    }
}

/// Marks of rows, with arrivals.
#[derive(Drop)]
pub struct Reached {
    /// A bit for each row, in words of 64: whether it is reached, and isn't left.
    marks: Vec<u64>,
    /// For each row the best arrival since it was marked.
    arrivals: Vec<Arrival>,
}

impl Reached {
    /// No marks for so many rows.
    pub fn new(alloc: Global, rows: usize) -> Result<Reached, AllocError> {
        Ok(Reached {
            marks: vec![in alloc; 0; rows / 64 + 1]?,
            arrivals: vec![in alloc; START; rows]?,
        })
    }

    /// The number of rows.
    pub fn rows(&self) -> usize {
        self.arrivals.len()
    }

    /// Brings an arrival to a row, which is then marked.
    pub fn bring(&mut self, extreme: Extreme, row: u32, arrival: Arrival) {
        let row = row as usize;
        if row >= self.arrivals.len() || row / 64 >= self.marks.len() {
            return;
        }
        let mark = 1 << (row % 64);
        let marked = self.marks[row / 64] & mark != 0;
        if !marked || arrival.is_better(extreme, self.arrivals[row]) {
            self.marks[row / 64] |= mark;
            self.arrivals[row] = arrival;
        }
    }

    /// The first marked row of a word from this place on, as a place in the word.
    pub fn next(&self, word: u32, place: u32) -> Option<u32>
        ensures from { IfSome result (λ next. place ≤ next) }
        ensures inside { IfSome result (λ next. next < 64) }
    {
        if place >= 64 || word as usize >= self.marks.len() {
            return None;
        }
        let left = self.marks[word as usize] >> place;
        let next = place + left.trailing_zeros();
        if next < 64 { Some(next) } else { None }
    }

    /// Takes away the marks of a word.
    pub fn clear(&mut self, word: u32) {
        if (word as usize) < self.marks.len() {
            self.marks[word as usize] = 0;
        }
    }

    /// Takes away all marks.
    pub fn clear_all(&mut self) {
        self.marks.fill(0);
    }

    /// The arrival at a row that is marked.
    pub fn marked(&self, row: u32) -> Option<Arrival> {
        let word = self.marks.get(row as usize / 64)?;
        if *word & 1 << (row % 64) == 0 {
            return None;
        }
        self.at(row)
    }

    /// The arrival at a row.
    pub fn at(&self, row: u32) -> Option<Arrival> {
        self.arrivals.get(row as usize).copied()
    }
}
