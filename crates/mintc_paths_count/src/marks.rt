//! Marks at bits, of up to 128 elements at a time: whether a path leads there from each of them.
ghost use Rattle.std.specs.Prelude.{◌≡◌, ◌≢◌, ◌⊎◌, ◌+◌, ◌*◌, ◌<◌, ◌≤◌, ℕ, List, length, max, slice_index_or, false, OnOk};
ghost use Rattle.mintc_text.specs.declared.limits.TheConstants.{MOST_ELEMENTS};
ghost use Rattle.mintc_timing.specs.Paths.{input_of};
ghost use Rattle.mintc_timing.specs.declared.parts.TimingArc.{TimingArc};
ghost use Rattle.mintc_paths_sums.specs.Placed.{row_of};
ghost use Rattle.mintc_paths.specs.Worklist.{IsReady, IsAwake};
ghost use Rattle.mintc_paths.specs.Leaving.{AreLeaving};
ghost use Rattle.mintc_paths.specs.Ordered.{Ordered, IsSequenceOf};
ghost use Rattle.mintc_paths.specs.Sums.{AreRows};
ghost use Rattle.mintc_paths_count.specs.Count.{AreListed};
ghost use Rattle.mintc_paths_count.specs.Marks.{mark_in, marks_at, AreMarksBegun, AreMarksAlong, AreMarksReached};

use mintc_bitset::Stamps;
use mintc_paths::{ArcSequence, Rows, Worklist};
use mintc_timing::TimingArc;
use std::alloc::AllocError;

/// The marks of 128 elements, a bit for each.
#[derive(Clone, Copy)]
pub(crate) struct Marks {
    pub words: [u64; 2],
}

/// The marks where no path leads.
pub(crate) const NO_MARKS: Marks = Marks { words: [0; 2] };

/// The mark of a lane, 1 where it is set.
pub(crate) fn mark_of(marks: &Marks, lane: usize) -> u64
    requires { lane < 128 }
    ensures { result ≡ mark_in marks.now lane }
{
    (marks.words[lane / 64] >> (lane % 64)) & 1
}

/// Sets the mark of a lane in a row.
fn set(marks: &mut [Marks], row: usize, lane: usize)
    requires row { row < length marks.old }
    requires lane { lane < 128 }
    ensures others { (other : ℕ) → other ≢ row → marks_at marks.new other ≡ marks_at marks.old other }
    ensures lanes { (other : ℕ) → other ≢ lane →
        mark_in (marks_at marks.new row) other ≡ mark_in (marks_at marks.old row) other }
    ensures own { mark_in (marks_at marks.new row) lane ≡ 1 }
{
    let at = &mut marks[row];
    at.words[lane / 64] |= 1 << (lane % 64);
}

/// How many rows are looked at together, of which mostly none is reached.
const ROWS_TOGETHER: usize = 64;

/// Whether one of these rows is reached.
fn is_any_reached(reached: &Stamps, first: usize, end: usize) -> bool
    requires { end ≤ length reached.now }
    ensures { result ≡ false → (row : ℕ) → first ≤ row → row < end → slice_index_or reached.now row false ≡ false }
{
    let mut any = false;
    for row in first..end {
        any |= reached.at(row);
    }
    any
}

/// Takes away the marks in these rows.
fn wipe_rows(marks: &mut [Marks], first: usize, end: usize)
    requires order { first ≤ end }
    requires within { end ≤ length marks.old }
    ensures none { (row : ℕ) → first ≤ row → row < end → marks_at marks.new row ≡ NO_MARKS }
    ensures others { (row : ℕ) → (row < first) ⊎ (end ≤ row) → marks_at marks.new row ≡ marks_at marks.old row }
{
    for row in first..end {
        marks[row] = NO_MARKS;
    }
}

/// Takes away the marks in the rows that were reached.
fn wipe(marks: &mut [Marks], reached: &mut Stamps)
    requires marked { AreMarksReached marks.old reached.old }
    ensures none { (row : ℕ) → row < length marks.new → marks_at marks.new row ≡ NO_MARKS }
    ensures marked { AreMarksReached marks.new reached.new }
    ensures off { (row : ℕ) → slice_index_or reached.new row false ≡ false }
{
    let mut first = 0;
    while first < marks.len() {
        let end = marks.len().min(first + ROWS_TOGETHER);
        if is_any_reached(reached, first, end) {
            wipe_rows(marks, first, end);
        }
        first = end;
    }
    reached.clear();
}

/// Sets the marks of so many elements, each at its own output, and no others.
fn begin(
    marks: &mut [Marks],
    reached: &mut Stamps,
    awake: &mut Worklist,
    sequence: &ArcSequence,
    first: u32,
    lanes: usize,
)
    requires lanes { lanes ≤ 128 }
    requires outputs { 2 * (first + lanes) ≤ length marks.old }
    requires rows { AreRows (length marks.old) sequence.now.rows }
    requires leaving { AreLeaving sequence.now.along.items (length marks.old) sequence.now.leaving }
    requires marked { AreMarksReached marks.old reached.old }
    requires ready { IsReady (length sequence.now.along.items) awake.old }
    ensures begun { AreMarksBegun (length marks.old) sequence.now.rows.of_bits.items first lanes marks.new }
    ensures marked { AreMarksReached marks.new reached.new }
    ensures awake { IsAwake sequence.now.along.items 0 reached.new awake.new }
{
    wipe(marks, reached);
    awake.renew(sequence.along.len());
    for lane in 0..lanes {
        let row = sequence.rows.of_bits[2 * (first as usize + lane) + 1];
        set(marks, row as usize, lane);
        awake.reach(reached, sequence, row);
    }
}

/// The marks that are set in one of two rows.
#[tactic(auto, using(std::proofs::lemmas::Nat::Bits::bit_at_or))]
fn union_of(a: &Marks, b: &Marks) -> Marks
    ensures { (lane : ℕ) → lane < 128 → mark_in result lane ≡ max (mark_in a.now lane) (mark_in b.now lane) }
{
    Marks {
        words: [a.words[0] | b.words[0], a.words[1] | b.words[1]],
    }
}

/// Sets in the row that the arc enters what is set in the row that it leaves, if that is reached.
fn carry(
    marks: &mut [Marks],
    reached: &mut Stamps,
    awake: &mut Worklist,
    sequence: &ArcSequence,
    arc: TimingArc,
)
    requires from { arc.from < length marks.old }
    requires to { arc.to < length marks.old }
    requires marked { AreMarksReached marks.old reached.old }
    requires leaving { AreLeaving sequence.now.along.items (length marks.old) sequence.now.leaving }
    requires ready { IsReady (length sequence.now.along.items) awake.old }
    ensures marked { AreMarksReached marks.new reached.new }
    ensures awake { (place : ℕ) → IsAwake sequence.now.along.items place reached.old awake.old
        → IsAwake sequence.now.along.items place reached.new awake.new }
    ensures others { (row : ℕ) → row ≢ arc.to → marks_at marks.new row ≡ marks_at marks.old row }
    ensures joined { (lane : ℕ) → lane < 128
        → mark_in (marks_at marks.new arc.to) lane
        ≡ max (mark_in (marks_at marks.old arc.to) lane) (mark_in (marks_at marks.old arc.from) lane) }
{
    if reached.at(arc.from as usize) {
        awake.reach(reached, sequence, arc.to);
        let to = arc.to as usize;
        marks[to] = union_of(&marks[to], &marks[arc.from as usize]);
    }
}

/// Makes the marks those of the listed paths, and of the empty ones, from so many elements. A row without marks isn't
/// marked as reached. Only the arcs that leave rows that are reached are looked at.
pub(crate) fn mark_all(
    marks: &mut [Marks],
    reached: &mut Stamps,
    awake: &mut Worklist,
    sequence: &ArcSequence,
    first: u32,
    lanes: usize,
)
    ghost of: { Ordered }
    requires sequence { IsSequenceOf (length marks.old) of sequence.now }
    requires lanes { lanes ≤ 128 }
    requires elements { first + lanes ≤ length of.design.elements }
    requires marked { AreMarksReached marks.old reached.old }
    requires ready { IsReady (length sequence.now.along.items) awake.old }
    ensures marked { AreMarksReached marks.new reached.new }
    ensures ready { IsReady (length sequence.now.along.items) awake.new }
    ensures along { AreMarksAlong (length marks.old) of.design.arcs of.order
        (length of.order) sequence.now.rows.of_bits.items first lanes marks.new }
{
    begin(marks, reached, awake, sequence, first, lanes);
    let mut place = awake.next(0);
    while place < sequence.along.len() {
        awake.pass(place);
        let arc = sequence.along[place];
        carry(marks, reached, awake, sequence, arc);
        place = awake.next(place + 1);
    }
}

/// The marks at the inputs of the elements.
pub(crate) fn gather(ends: &mut [Marks], marks: &[Marks], rows: &Rows)
    requires inputs { 2 * length ends.old ≤ length marks.now }
    requires rows { AreRows (length marks.now) rows.now }
    ensures { (to : ℕ) → to < length ends.new →
        marks_at ends.new to ≡ marks_at marks.now (row_of rows.now.of_bits.items (input_of to)) }
{
    for to in 0..ends.len() {
        ends[to] = marks[rows.of_bits[2 * to] as usize];
    }
}

/// Lists the elements whose inputs are reached, in ascending order.
pub(crate) fn list_reached(
    listed: &mut Vec<u32>,
    reached: &Stamps,
    rows: &Rows,
    elements: u32,
) -> Result<(), AllocError>
    requires limit { elements ≤ MOST_ELEMENTS }
    requires inputs { 2 * elements ≤ length reached.now }
    requires rows { AreRows (length reached.now) rows.now }
    ensures { OnOk result ((marks : List Marks) → AreMarksReached marks reached.now
        → AreListed (λ to. marks_at marks (row_of rows.now.of_bits.items (input_of to))
        ≡ NO_MARKS) elements listed.new.items) }
{
    listed.clear();
    for to in 0..elements {
        let row = rows.of_bits[2 * to as usize];
        if reached.at(row as usize) {
            listed.push(to)?;
        }
    }
    Ok(())
}
