//! The arcs of a design in their order, each from place to place. A bit gets a place when the first arc comes to it,
//! and gives it back with the last arc that leaves it: so labels which are carried one after another stand near each
//! other in memory, and there are no more of them than are needed at one time.
ghost use Rattle.std.specs.Prelude.{◌≡◌, ◌≢◌, ◌+◌, ◌-◌, ◌*◌, ◌^◌, ◌<◌, ◌≤◌};
ghost use Rattle.std.specs.Prelude.{ℕ, false, length, slice_index_or, IfOk, OnOk};
ghost use Rattle.mintc_timing.specs.Limits.{IsDelay};
ghost use Rattle.mintc_timing.specs.Order.{IsOrder};
ghost use Rattle.mintc_checker.specs.Course.{bare, moved, place_at, step_at, AreApart, AreLasts, AreOrdered, ArePlaces};
ghost use Rattle.mintc_checker.specs.Course.{AreSteps, IsCourse, IsEntry, IsExit, IsGiven, IsOutput};

use crate::reading::arc_at_place;
use mintc_text::OutOfMemory;
use mintc_timing::{Flat, Order, TimingArc};
use std::alloc::Global;

/// An arc with its greatest delay in femtoseconds: from bit to bit at first, then from place to place.
#[derive(Clone, Copy)]
pub(crate) struct Step {
    pub(crate) from: u32,
    pub(crate) to: u32,
    pub(crate) max: i64,
}

/// Places of bits, counted from 1.
#[derive(Drop)]
pub(crate) struct Places {
    /// The place of each bit, 0 where it has none.
    pub(crate) of_bits: Vec<u32>,
    /// How many there are.
    pub(crate) given: u32,
    /// Those that bits gave back.
    free: Vec<u32>,
}

/// The arcs in their order, from place to place.
#[derive(Drop)]
pub(crate) struct Course {
    pub(crate) places: Places,
    pub(crate) steps: Vec<Step>,
    /// Whether each step is the last that leaves its bit.
    pub(crate) lasts: Vec<bool>,
}

impl Places {
    /// No places, of so many bits.
    fn new(alloc: Global, bits: usize) -> Result<Places, OutOfMemory>
        ensures places { IfOk result AreApart }
        ensures count { IfOk result (λ places. length places.of_bits.items ≡ bits) }
        ensures none { IfOk result (λ places. (bit : ℕ) → place_at places.of_bits.items bit ≡ 0) }
        ensures given { IfOk result (λ places. places.given ≡ 0) }
    {
        let of_bits = vec![in alloc; 0; bits]?;
        let free = Vec::with_capacity(alloc, bits)?;
        Ok(Places {
            of_bits,
            given: 0,
            free,
        })
    }

    /// A place for a bit: the one that was given back last, or the next one.
    fn give(&mut self) -> u32
        requires few { self.old.given < 2 ^ 32 - 1 }
        ensures of_bits { self.new.of_bits ≡ self.old.of_bits }
        ensures place { IsGiven self.old self.new result }
    {
        match self.free.pop() {
            Some(place) => place,
            None => {
                self.given += 1;
                self.given
            }
        }
    }

    /// The place of a bit that an arc enters. The bit gets one if it has none.
    fn enter(&mut self, bit: u32) -> u32
        requires bit { bit < length self.old.of_bits.items }
        requires few { self.old.given < 2 ^ 32 - 1 }
        ensures { IsEntry self.old self.new bit result }
    {
        let place = self.of_bits[bit as usize];
        if place > 0 {
            return place;
        }
        let place = self.give();
        self.of_bits[bit as usize] = place;
        place
    }

    /// The place of a bit that an arc leaves. The bit gives it back with the last one.
    fn leave(&mut self, bit: u32, is_last: bool) -> Result<u32, OutOfMemory>
        requires bit { bit < length self.old.of_bits.items }
        ensures of_bits { OnOk result (self.new.of_bits ≡ self.old.of_bits) }
        ensures given { OnOk result (self.new.given ≡ self.old.given) }
        ensures own { IfOk result (λ place. place ≡ place_at self.old.of_bits.items bit) }
        ensures free { OnOk result (IsExit self.old self.new bit is_last) }
    {
        let place = self.of_bits[bit as usize];
        if is_last && place > 0 {
            self.free.push(place)?;
        }
        Ok(place)
    }
}

/// Gives places to the outputs of all elements.
fn enter_outputs(places: &mut Places, flat: &Flat)
    requires count { length places.old.of_bits.items ≡ 2 * length flat.now.elements + length flat.now.inner }
    requires places { AreApart places.old }
    requires none { (bit : ℕ) → place_at places.old.of_bits.items bit ≡ 0 }
    requires given { places.old.given ≡ 0 }
    ensures places { AreApart places.new }
    ensures count { length places.new.of_bits.items ≡ length places.old.of_bits.items }
    ensures outputs { (bit : ℕ) → IsOutput (length flat.now.elements) bit →
        place_at places.new.of_bits.items bit ≢ 0 }
    ensures others { (bit : ℕ) → place_at places.new.of_bits.items bit ≢ 0 →
        IsOutput (length flat.now.elements) bit }
    ensures given { places.new.given ≤ length flat.now.elements }
{
    for number in 0..flat.element_count() {
        places.enter(2 * number + 1);
    }
}

/// An arc as a step from bit to bit.
fn bare_step(arc: TimingArc) -> Step
    requires { IsDelay arc.max }
    ensures { result ≡ bare arc }
{
    Step {
        from: arc.from,
        to: arc.to,
        max: arc.max,
    }
}

/// Appends the arcs in their order. Nothing else is done here: so the arcs, which stand far from each other in memory,
/// are fetched side by side.
fn add_arcs(steps: &mut Vec<Step>, flat: &Flat, order: &Order) -> Result<(), OutOfMemory>
    requires order { IsOrder flat.now.arcs order.now }
    requires none { length steps.old.items ≡ 0 }
    ensures { OnOk result (steps.new.items ≡ moved flat.now.arcs order.now) }
{
    for place in 0..order.arcs().items().len() {
        let step = bare_step(arc_at_place(flat, order, place));
        steps.push(step)?;
    }
    Ok(())
}

/// Marks the last of the steps that leave each bit.
fn mark_lasts(lasts: &mut [bool], steps: &[Step], are_left: &mut [bool])
    requires count { length lasts.old ≡ length steps.now }
    requires steps { (i : ℕ) → i < length steps.now → (step_at steps.now i).from < length are_left.old }
    requires none { (bit : ℕ) → slice_index_or are_left.old bit false ≡ false }
    ensures { AreLasts steps.now lasts.new }
{
    for place in (0..steps.len()).rev() {
        let from = steps[place].from as usize;
        lasts[place] = !are_left[from];
        are_left[from] = true;
    }
}

/// Makes steps from bit to bit those from place to place. The bits that have places are entered by none.
fn place_all(steps: &mut [Step], places: &mut Places, lasts: &[bool]) -> Result<(), OutOfMemory>
    requires arcs { AreOrdered (length places.old.of_bits.items) steps.old }
    requires lasts { AreLasts steps.old lasts.now }
    requires few { places.old.given + length steps.old < 2 ^ 32 - 1 }
    requires places { AreApart places.old }
    requires entered { (i : ℕ) → i < length steps.old →
        place_at places.old.of_bits.items (step_at steps.old i).to ≡ 0 }
    ensures count { OnOk result (length places.new.of_bits.items ≡ length places.old.of_bits.items) }
    ensures places { OnOk result (ArePlaces (λ bit. place_at places.old.of_bits.items bit ≢ 0)
        steps.old lasts.now (length steps.old) places.new) }
    ensures steps { OnOk result (AreSteps steps.old (length steps.old) places.new.of_bits.items steps.new) }
{
    for place in 0..steps.len() {
        let arc = steps[place];
        let to = places.enter(arc.to);
        let from = places.leave(arc.from, lasts[place])?;
        steps[place] = Step {
            from,
            to,
            max: arc.max,
        };
    }
    Ok(())
}

/// Whether each of the steps is the last that leaves its bit.
fn lasts_of(alloc: Global, steps: &[Step], bits: usize) -> Result<Vec<bool>, OutOfMemory>
    requires { (i : ℕ) → i < length steps.now → (step_at steps.now i).from < bits }
    ensures { IfOk result (λ lasts. AreLasts steps.now lasts.items) }
{
    let mut lasts = vec![in alloc; false; steps.len()]?;
    let mut are_left = vec![in alloc; false; bits]?;
    mark_lasts(&mut lasts, steps, &mut are_left);
    Ok(lasts)
}

/// The course of a design's arcs in this order. All outputs have places.
pub(crate) fn course_of(alloc: Global, flat: &Flat, order: &Order) -> Result<Course, OutOfMemory>
    requires { IsOrder flat.now.arcs order.now }
    ensures { IfOk result (IsCourse flat.now order.now) }
{
    let mut places = Places::new(alloc, flat.bit_count())?;
    enter_outputs(&mut places, flat);
    let mut steps = Vec::with_capacity(alloc, order.arcs().items().len())?;
    add_arcs(&mut steps, flat, order)?;
    let lasts = lasts_of(alloc, &steps, flat.bit_count())?;
    let _elements = flat.elements();
    place_all(&mut steps, &mut places, &lasts)?;
    Ok(Course {
        places,
        steps,
        lasts,
    })
}
