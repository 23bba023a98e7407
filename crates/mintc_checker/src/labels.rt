//! Labels of phases at bits: when data comes there at the latest.
ghost use Rattle.std.specs.Prelude.{◌≡◌, ◌≢◌, ◌+◌, ◌*◌, ◌^◌, ◌<◌, ◌≤◌, ◌+ℤ◌, ◌*ℤ◌};
ghost use Rattle.std.specs.Prelude.{ℕ, length, None, Some, IfOk, IsTrue, All, unsigned_abs};
ghost use Rattle.std.specs.Int.{int_max};
ghost use Rattle.mintc_lanes.specs.Lanes.{lane_at, AreJoined, AreLanes};
ghost use Rattle.mintc_timing.specs.Departures.{departure};
ghost use Rattle.mintc_timing.specs.Limits.{IsDelay, IsDesign, IsTime};
ghost use Rattle.mintc_timing.specs.Order.{IsOrder};
ghost use Rattle.mintc_certificate.specs.Ranges.{IsDeparture};
ghost use Rattle.mintc_checker.specs.Course.{AreInside, AreOutputPlaces, IsCourse, IsOutput, placed};
ghost use Rattle.mintc_timing.specs.Design.{element_at};
ghost use Rattle.mintc_checker.specs.Judged.{AreTimelyLabels};
ghost use Rattle.mintc_checker.specs.Labels.{AreRows, IsStart, label_at, labels_at};
ghost use Rattle.mintc_checker.specs.Rows.{AreRowsAlong};

use crate::course::{Course, Places, Step, course_of};
use crate::departing_design::DepartingDesign;
use mintc_lanes::{ABSENT, max_plus_row};
use mintc_text::OutOfMemory;
use mintc_timing::Order;
use mintc_timing_links::times_denominator;
use std::alloc::Global;
use std::marker::Model;

/// A label for each phase at a bit, in femtoseconds times a denominator; that of phase p in lane p - 1.
#[derive(Clone, Copy)]
pub(crate) struct Labels {
    pub(crate) lanes: [i64; 8],
}

/// The labels where no trail leads.
pub(crate) const NO_LABELS: Labels = Labels { lanes: [ABSENT; 8] };

/// Labels by bits, seen as their list. Those of a bit that some arc leaves are dropped once they are carried on.
#[derive(Drop)]
pub(crate) struct LabelTable {
    /// For each bit the place of its labels.
    places: Vec<u32>,
    /// The labels at the places. Those at place 0 are of the bits to which no trail leads.
    rows: Vec<Labels>,
}

impl Model for LabelTable {
    ghost use Rattle.std.specs.Prelude.{List};
    ghost use Rattle.mintc_checker.specs.declared.labels.Labels.{Labels};
    ghost use Rattle.mintc_checker.specs.Course.{AreInside, placed};

    ghost Value = { List Labels };

    ghost view = { λ t. placed t.places.items t.rows.items };

    ghost invariant = { λ t. AreInside t.places.items t.rows.items };
}

impl LabelTable {
    /// The labels of bits at these places.
    fn new(places: Vec<u32>, rows: Vec<Labels>) -> LabelTable
        requires { AreInside places.items rows.items }
        ensures { result ≡ placed places.items rows.items }
    {
        LabelTable { places, rows }
    }

    /// The labels at a bit.
    fn at(&self, bit: usize) -> &Labels
        requires { bit < length self.now }
        ensures { result.now ≡ labels_at self.now bit }
    {
        &self.rows[self.places[bit] as usize]
    }
}

/// What a lane holds, if it is present.
fn lane_in(labels: &Labels, lane: usize) -> Option<i64>
    requires { lane < 8 }
    ensures { result ≡ lane_at labels.now.lanes lane }
{
    let label = labels.lanes[lane];
    if label == ABSENT { None } else { Some(label) }
}

/// The label in a lane at a bit, if some trail leads there.
pub(crate) fn label_in(labels: &LabelTable, bit: usize, lane: usize) -> Option<i64>
    requires bit { bit < length labels.now }
    requires lane { lane < 8 }
    ensures { result ≡ label_at labels.now bit lane }
{
    lane_in(labels.at(bit), lane)
}

/// The departure of an element; one past the end is 0.
pub(crate) fn departure_at(departures: &[i64], number: usize) -> i64
    requires { All IsDeparture departures.now }
    ensures value { result ≡ departure departures.now number }
    ensures range { IsDeparture result }
{
    if number < departures.len() {
        departures[number]
    } else {
        0
    }
}

/// When an element's data leaves its output.
fn output_time(departing: &DepartingDesign<'_>, number: u32) -> i64
    requires number { number < length departing.now.flat.now.elements }
    ensures value { result
        ≡ departure departing.now.departures.now number +ℤ
        (element_at departing.now.flat.now number).dq_max *ℤ departing.now.den }
    ensures range { IsTime result }
{
    departure_at(departing.departures, number as usize)
        + times_denominator(departing.flat.element(number).dq_max, departing.den)
}

/// Begins a lane at a place.
fn begin(rows: &mut [Labels], place: usize, lane: usize, time: i64)
    requires place { place < length rows.old }
    requires lane { lane < 8 }
    requires time { IsTime time }
    ensures others { (other : ℕ) → other ≢ place → labels_at rows.new other ≡ labels_at rows.old other }
    ensures lanes { (other : ℕ) → other ≢ lane → label_at rows.new place other ≡ label_at rows.old place other }
    ensures own { label_at rows.new place lane ≡ Some time }
{
    let at = &mut rows[place];
    at.lanes[lane] = time;
}

/// Begins the lane of an element's phase at its output.
fn begin_element(rows: &mut [Labels], departing: &DepartingDesign<'_>, places: &Places, number: u32)
    requires number { number < length departing.now.flat.now.elements }
    requires places { AreOutputPlaces (length departing.now.flat.now.elements) places.now }
    requires count { length rows.old ≡ places.now.given + 1 }
    requires rows { AreRows departing.now.flat.now departing.now.den departing.now.departures.now
        (IsOutput number) IsStart places.now.of_bits.items rows.old }
    ensures { AreRows departing.now.flat.now departing.now.den departing.now.departures.now
        (IsOutput (number + 1)) IsStart places.now.of_bits.items rows.new }
{
    let lane = departing.flat.element(number).phase as usize - 1;
    let time = output_time(departing, number);
    let place = places.of_bits[2 * number as usize + 1];
    begin(rows, place as usize, lane, time);
}

/// Makes the labels those of the empty paths.
fn begin_all(rows: &mut [Labels], departing: &DepartingDesign<'_>, places: &Places)
    requires places { AreOutputPlaces (length departing.now.flat.now.elements) places.now }
    requires count { length rows.old ≡ places.now.given + 1 }
    requires absent { (row : ℕ) → row < length rows.old → labels_at rows.old row ≡ NO_LABELS }
    ensures rows { AreRows departing.now.flat.now departing.now.den departing.now.departures.now
        (IsOutput (length departing.now.flat.now.elements)) IsStart places.now.of_bits.items rows.new }
    ensures design { IsDesign departing.now.flat.now }
{
    for number in 0..departing.flat.element_count() {
        begin_element(rows, departing, places, number);
    }
}

/// Carries the labels at one place to another, with a number added to each.
fn carry(rows: &mut [Labels], from: u32, to: u32, add: i64)
    requires from { from < length rows.old }
    requires to { to < length rows.old }
    requires add { unsigned_abs add ≤ 10 ^ 18 }
    requires from_lanes { AreLanes (labels_at rows.old from).lanes }
    requires to_lanes { AreLanes (labels_at rows.old to).lanes }
    ensures others { (place : ℕ) → place ≢ to → labels_at rows.new place ≡ labels_at rows.old place }
    ensures joined { AreJoined int_max (labels_at rows.old to).lanes (labels_at rows.old from).lanes add
        (labels_at rows.new to).lanes }
{
    let row = rows[from as usize].lanes;
    let at = &mut rows[to as usize];
    max_plus_row(&mut at.lanes, &row, add);
}

/// Carries the labels along a step.
fn carry_step(rows: &mut [Labels], departing: &DepartingDesign<'_>, step: Step)
    requires from { step.from < length rows.old }
    requires to { step.to < length rows.old }
    requires delay { IsDelay step.max }
    requires from_lanes { AreLanes (labels_at rows.old step.from).lanes }
    requires to_lanes { AreLanes (labels_at rows.old step.to).lanes }
    ensures others { (place : ℕ) → place ≢ step.to → labels_at rows.new place ≡ labels_at rows.old place }
    ensures joined { AreJoined int_max (labels_at rows.old step.to).lanes (labels_at rows.old step.from).lanes
        (step.max *ℤ departing.now.den) (labels_at rows.new step.to).lanes }
{
    carry(
        rows,
        step.from,
        step.to,
        times_denominator(step.max, departing.den),
    );
}

/// Drops the labels at a place after the last step that leaves its bit.
fn finish(rows: &mut [Labels], place: u32, is_last: bool)
    requires { place < length rows.old }
    ensures others { (other : ℕ) → (IsTrue is_last → other ≢ place) →
        labels_at rows.new other ≡ labels_at rows.old other }
    ensures none { IsTrue is_last → (lane : ℕ) → lane < 8 → label_at rows.new place lane ≡ None }
{
    if is_last {
        rows[place as usize] = NO_LABELS;
    }
}

/// Carries the labels along all arcs. Those that no later arc needs are dropped.
fn carry_all(rows: &mut [Labels], departing: &DepartingDesign<'_>, order: &Order, course: &Course)
    requires order { IsOrder departing.now.flat.now.arcs order.now }
    requires course { IsCourse departing.now.flat.now order.now course.now }
    requires places { length rows.old ≡ course.now.places.given + 1 }
    requires rows { AreRowsAlong departing.now.flat.now departing.now.den departing.now.departures.now
        order.now course.now 0 rows.old }
    ensures { AreRowsAlong departing.now.flat.now departing.now.den departing.now.departures.now
        order.now course.now (length order.now) rows.new }
{
    let _elements = departing.flat.elements();
    for place in 0..order.arcs().items().len() {
        let step = course.steps[place];
        carry_step(rows, departing, step);
        finish(rows, step.from, course.lasts[place]);
    }
}

/// Makes the labels those of the design.
fn fill(rows: &mut [Labels], departing: &DepartingDesign<'_>, order: &Order, course: &Course)
    requires order { IsOrder departing.now.flat.now.arcs order.now }
    requires course { IsCourse departing.now.flat.now order.now course.now }
    requires places { length rows.old ≡ course.now.places.given + 1 }
    requires absent { (row : ℕ) → row < length rows.old → labels_at rows.old row ≡ NO_LABELS }
    ensures { AreTimelyLabels departing.now.flat.now departing.now.den departing.now.departures.now
        (placed course.now.places.of_bits.items rows.new) }
{
    begin_all(rows, departing, &course.places);
    carry_all(rows, departing, order, course);
}

/// The labels at the inputs of all elements.
#[tactic(auto, using(crate::proofs::Placed::AreInside_given))]
pub(crate) fn labels_of(
    alloc: Global,
    departing: &DepartingDesign<'_>,
    order: &Order,
) -> Result<LabelTable, OutOfMemory>
    requires order { IsOrder departing.now.flat.now.arcs order.now }
    ensures { IfOk result
        (AreTimelyLabels departing.now.flat.now departing.now.den departing.now.departures.now) }
{
    let course = course_of(alloc, departing.flat, order)?;
    let mut rows = vec![in alloc; NO_LABELS; course.places.given as usize + 1]?;
    fill(&mut rows, departing, order, &course);
    Ok(LabelTable::new(course.places.of_bits, rows))
}
