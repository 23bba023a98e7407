//! Paths of some pairs, one after another. The memory of the search is taken once. Where the pairs are many, each path
//! is searched among the rows between its two elements, where they are few, among all arcs. Nothing is promised of the search but that it ends: what it finds is checked,
//! and where it isn't the path that is wanted, that one is found by a sweep over all arcs, as `path_of` does.
ghost use Rattle.std.specs.Prelude.{◌≡◌, ◌<◌, ◌^◌, IfOk};
ghost use Rattle.mintc_timing.specs.Paths.{IsPath, input_of, greatest_delay, least_delay};
ghost use Rattle.mintc_paths.specs.Finding.{IsDelayOf, IsListedWith};

use crate::listed::{Wanted, is_listed_with};
use crate::reached::{Reached, START};
use crate::route::best_path;
use crate::successors::Successors;
use crate::trace::{Extreme, delay_at};
use mintc_text::{Numbers, OutOfMemory};
use mintc_timing::{System, TimingArc};
use std::alloc::{AllocError, Global};

/// How many paths are asked for at least, so that steps in rows cost less than sweeps over all arcs.
const MANY: usize = 5;

/// How many arcs are gathered at a time.
const BLOCK: usize = 64;

/// An arc from a bit to itself, which brings nothing.
const NO_ARC: TimingArc = TimingArc {
    from: 0,
    to: 0,
    min: 0,
    max: 0,
};

/// A search for paths in a system.
#[derive(Drop)]
pub struct Finder {
    /// The steps in rows, where many paths are asked for. Else each bit is a row, and a search is a sweep over all arcs.
    steps: Option<Successors>,
    reached: Reached,
    /// How many of the paths that were asked for the search hasn't found.
    missed: u64,
}

/// Takes the steps from a row to the rows up to the last one.
fn leave(reached: &mut Reached, steps: &Successors, extreme: Extreme, row: u32, last: u32) {
    let Some(arrival) = reached.at(row) else {
        return;
    };
    for step in steps.from_row(row) {
        if step.row <= last {
            let next = arrival.led_on(step.delay(extreme), step.arc);
            reached.bring(extreme, step.row, next);
        }
    }
}

/// Leaves the marked rows of a word, one after another, and takes their marks away.
fn leave_word(reached: &mut Reached, steps: &Successors, extreme: Extreme, word: u32, last: u32)
    requires { word < 2 ^ 26 }
{
    let mut place = 0;
    while let Some(next) = reached.next(word, place) {
        leave(reached, steps, extreme, 64 * word + next, last);
        place = next + 1;
    }
    reached.clear(word);
}

/// Finds the best sums from one bit to the bits whose rows aren't after that of another one.
fn sweep_rows(reached: &mut Reached, steps: &Successors, extreme: Extreme, from: u32, to: u32) {
    let (first, last) = (steps.row_of(from), steps.row_of(to));
    if last as usize >= reached.rows() {
        return;
    }
    reached.bring(extreme, first, START);
    for word in first / 64..last / 64 + 1 {
        leave_word(reached, steps, extreme, word, last);
    }
}

/// Takes an arc, of this number, where the bit that it leaves is reached.
fn take(reached: &mut Reached, extreme: Extreme, arc: &TimingArc, number: u32) {
    if let Some(arrival) = reached.marked(arc.from) {
        let delay = u32::try_from(delay_at(extreme, arc)).unwrap_or(0);
        reached.bring(extreme, arc.to, arrival.led_on(delay, number));
    }
}

/// Takes arcs of these numbers, one after another. They are gathered first, so that none waits for the one before.
fn take_all(reached: &mut Reached, extreme: Extreme, arcs: &[TimingArc], numbers: &[u32]) {
    let mut gathered = [NO_ARC; BLOCK];
    for (place, number) in gathered.iter_mut().zip(numbers) {
        *place = arcs.get(*number as usize).copied().unwrap_or(NO_ARC);
    }
    for (arc, number) in gathered.iter().zip(numbers) {
        take(reached, extreme, arc, *number);
    }
}

/// Finds the best sums from one bit to all others.
fn sweep_arcs(reached: &mut Reached, extreme: Extreme, system: &System, from: u32) {
    reached.clear_all();
    reached.bring(extreme, from, START);
    let arcs = system.flat().arcs();
    for numbers in system.order().arcs().items().chunks(BLOCK) {
        take_all(reached, extreme, arcs, numbers);
    }
}

impl Finder {
    /// A search for so many paths in a system, which is to be that of each call.
    pub fn new(alloc: Global, system: &System, paths: usize) -> Result<Finder, OutOfMemory> {
        let mut steps = None;
        let mut rows = system.flat().bit_count();
        if paths >= MANY {
            let in_rows = Successors::new(alloc, system.flat(), system.order())?;
            rows = in_rows.given as usize;
            steps = Some(in_rows);
        }
        let reached = Reached::new(alloc, rows)?;
        Ok(Finder {
            steps,
            reached,
            missed: 0,
        })
    }

    /// Finds the best sums from one bit to those on paths to another one.
    fn sweep(&mut self, extreme: Extreme, system: &System, from: u32, to: u32) {
        match &self.steps {
            Some(steps) => sweep_rows(&mut self.reached, steps, extreme, from, to),
            None => sweep_arcs(&mut self.reached, extreme, system, from),
        }
    }

    /// The row of a bit.
    fn row_of(&self, bit: u32) -> u32 {
        match &self.steps {
            Some(steps) => steps.row_of(bit),
            None => bit,
        }
    }

    /// The arc by which the best sum to a bit comes.
    fn last_arc(&self, bit: u32) -> Option<u32> {
        let arrival = self.reached.at(self.row_of(bit))?;
        Some(arrival.arc)
    }

    /// How many arcs lead back from one bit to another, or 0 where they don't.
    fn count_back(&self, arcs: &[TimingArc], end: u32, start: u32) -> usize {
        let mut bit = end;
        for count in 0..self.reached.rows() {
            if bit == start {
                return count;
            }
            match self.last_arc(bit) {
                Some(number) if (number as usize) < arcs.len() => bit = arcs[number as usize].from,
                _ => return 0,
            }
        }
        0
    }

    /// Makes the list the arcs that lead to a bit.
    fn trace_back(&self, arcs: &[TimingArc], end: u32, path: &mut [u32]) {
        let mut bit = end;
        for place in 0..path.len() {
            match self.last_arc(bit) {
                Some(number) if (number as usize) < arcs.len() => {
                    path[path.len() - 1 - place] = number;
                    bit = arcs[number as usize].from;
                }
                _ => return,
            }
        }
    }

    /// A list of arcs that the search takes for a best path between two bits.
    fn search(
        &mut self,
        alloc: Global,
        extreme: Extreme,
        system: &System,
        start: u32,
        end: u32,
    ) -> Result<Vec<u32>, AllocError> {
        let arcs = system.flat().arcs();
        self.sweep(extreme, system, start, end);
        let count = self.count_back(arcs, end, start);
        let mut path = vec![in alloc; 0; count]?;
        self.trace_back(arcs, end, &mut path);
        Ok(path)
    }

    /// The arcs of a path that is asked for.
    fn path_by(
        &mut self,
        alloc: Global,
        system: &System,
        wanted: Wanted,
    ) -> Result<Numbers, OutOfMemory>
        requires { IsDelayOf wanted.extreme system.now.pairs wanted.from wanted.to wanted.delay }
        ensures { IfOk result (IsListedWith wanted.extreme system.now.flat.arcs wanted.from wanted.to wanted.delay) }
    {
        let flat = system.flat();
        let (start, end) = (2 * wanted.from + 1, 2 * wanted.to);
        let path = self.search(alloc, wanted.extreme, system, start, end)?;
        if is_listed_with(flat, &path, wanted) {
            return Ok(Numbers::new(path));
        }
        self.missed = self.missed.saturating_add(1);
        best_path(alloc, wanted.extreme, system, wanted.from, wanted.to)
    }

    /// How many of the paths that were asked for the search hasn't found, so that a sweep over all arcs had to.
    /// Nothing is promised of it; tests see that it stays 0.
    pub fn missed(&self) -> u64 {
        self.missed
    }

    /// The arcs of a listed path from one element to another with the greatest sum, which is `delay`, in
    /// femtoseconds. It is as `path_of`; where many are asked for it takes time for the arcs between the two elements alone.
    pub fn path_of(
        &mut self,
        alloc: Global,
        system: &System,
        from: u32,
        to: u32,
        delay: i64,
    ) -> Result<Numbers, OutOfMemory>
        requires { IsDelayOf Extreme.Greatest system.now.pairs from to delay }
        ensures path { IfOk result (λ path. IsPath system.now.flat.arcs from path (input_of to)) }
        ensures delay { IfOk result (λ path. greatest_delay system.now.flat.arcs path ≡ delay) }
    {
        let wanted = Wanted {
            extreme: Extreme::Greatest,
            from,
            to,
            delay,
        };
        self.path_by(alloc, system, wanted)
    }

    /// The arcs of a listed path from one element to another with the least sum, which is `delay`, in femtoseconds.
    /// It is as `shortest_path_of`; where many are asked for it takes time for the arcs between the two elements alone.
    pub fn shortest_path_of(
        &mut self,
        alloc: Global,
        system: &System,
        from: u32,
        to: u32,
        delay: i64,
    ) -> Result<Numbers, OutOfMemory>
        requires { IsDelayOf Extreme.Least system.now.pairs from to delay }
        ensures path { IfOk result (λ path. IsPath system.now.flat.arcs from path (input_of to)) }
        ensures delay { IfOk result (λ path. least_delay system.now.flat.arcs path ≡ delay) }
    {
        let wanted = Wanted {
            extreme: Extreme::Least,
            from,
            to,
            delay,
        };
        self.path_by(alloc, system, wanted)
    }
}
