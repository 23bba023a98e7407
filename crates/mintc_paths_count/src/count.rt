//! The number of a design's pairs.
ghost use Rattle.std.specs.Prelude.{◌≡◌, ◌<◌, ◌≤◌, ◌+◌, ◌*◌, length, IfOk, IfErr, OnOk};
ghost use Rattle.mintc_text.specs.declared.limits.TheConstants.{MOST_ELEMENTS};
ghost use Rattle.mintc_text.specs.Limits.{AreLimits};
ghost use Rattle.mintc_text.specs.Stops.{StopsAt};
ghost use Rattle.mintc_timing.specs.Design.{Design};
ghost use Rattle.mintc_timing.specs.Order.{IsOrder, ArePathsShort};
ghost use Rattle.mintc_paths.specs.Worklist.{IsReady};
ghost use Rattle.mintc_paths_count.specs.Bound.{HasFewPairs};
ghost use Rattle.mintc_paths_count.specs.Count.{AreEndsOf, AreListed, IsCountBefore, IsPairCount};
ghost use Rattle.mintc_paths_count.specs.Marks.{marks_at, AreMarksReached};
ghost use Rattle.mintc_paths.specs.Found.{most_count};
ghost use Rattle.mintc_paths.specs.Ordered.{Ordered, IsSequenceOf, ordered};
ghost use Rattle.mintc_paths.specs.Refusals.{IsExtremesRefusal};
ghost use Rattle.mintc_paths.specs.Sums.{IsSequence};

use crate::back::count_back;
use crate::bound::are_plainly_few;
use crate::marks::{Marks, NO_MARKS, gather, list_reached, mark_all, mark_of};
use mintc_bitset::Stamps;
use mintc_paths::{
    ArcSequence, Worklist, bound_is_within_limit, extremes, is_backward_cheaper, sequence_of,
};
use mintc_text::{Kind, Limits, Refusal, Stop};
use mintc_timing::{Flat, Order};
use std::alloc::{AllocError, Global};

/// The number of pairs before and from an element, whose marks at the inputs are in this lane. No path leads to an
/// input that isn't listed.
#[tactic(auto, using(crate::proofs::Listing::IsCountToEnd_more))]
fn count_from(count: u64, ends: &[Marks], listed: &[u32], element: u32, lane: usize) -> u64
    ghost design: { Design }
    requires inputs { length ends.now ≡ length design.elements }
    requires few { length design.elements ≤ MOST_ELEMENTS }
    requires element { element < length design.elements }
    requires lane { lane < 128 }
    requires ends { AreEndsOf design element lane ends.now }
    requires listed { AreListed (λ to. marks_at ends.now to ≡ NO_MARKS) (length design.elements) listed.now }
    requires count { IsCountBefore design element 0 count }
    ensures { IsCountBefore design (element + 1) 0 result }
{
    let mut count = count;
    for to in listed {
        count += mark_of(&ends[*to as usize], lane);
    }
    count
}

/// The number of all pairs of a design with as many elements as there are ends, which are marked by 128 at a time.
fn count_each(
    alloc: Global,
    sequence: &ArcSequence,
    marks: &mut [Marks],
    reached: &mut Stamps,
    awake: &mut Worklist,
    ends: &mut [Marks],
) -> Result<u64, AllocError>
    ghost of: { Ordered }
    requires sequence { IsSequenceOf (length marks.old) of sequence.now }
    requires inputs { length ends.old ≡ length of.design.elements }
    requires marked { AreMarksReached marks.old reached.old }
    requires ready { IsReady (length sequence.now.along.items) awake.old }
    ensures { IfOk result (IsCountBefore of.design (length of.design.elements) 0) }
{
    let elements = ends.len() as u32;
    let mut listed = Vec::new(alloc);
    let mut count = 0;
    let mut first = 0;
    while first < elements {
        let lanes = (elements - first).min(128);
        mark_all(marks, reached, awake, sequence, first, lanes as usize);
        gather(ends, marks, &sequence.rows);
        list_reached(&mut listed, reached, &sequence.rows, elements)?;
        for lane in 0..lanes {
            count = count_from(count, ends, &listed, first + lane, lane as usize);
        }
        first += lanes;
    }
    Ok(count)
}

/// The number of all pairs of a design with so many elements, along a sequence of its arcs.
pub(crate) fn count_along(
    alloc: Global,
    sequence: &ArcSequence,
    elements: u32,
) -> Result<u64, AllocError>
    ghost of: { Ordered }
    requires sequence { IsSequenceOf (length sequence.now.rows.of_bits.items) of sequence.now }
    requires count { elements ≡ length of.design.elements }
    ensures count { IfOk result (IsCountBefore of.design (length of.design.elements) 0) }
{
    let bits = sequence.rows.of_bits.len();
    let mut marks = vec![in alloc; NO_MARKS; bits]?;
    let mut reached = Stamps::new(alloc, bits)?;
    let mut awake = Worklist::new(alloc, sequence.along.len())?;
    let mut ends = vec![in alloc; NO_MARKS; elements as usize]?;
    count_each(
        alloc,
        sequence,
        &mut marks,
        &mut reached,
        &mut awake,
        &mut ends,
    )
}

/// The number of all pairs, from the outputs on.
fn count_forward(
    alloc: Global,
    flat: &Flat,
    order: &Order,
    sequence: &ArcSequence,
) -> Result<u64, AllocError>
    ghost of: { Ordered }
    requires of { of ≡ ordered flat.now order.now }
    requires order { IsOrder flat.now.arcs order.now }
    requires sequence { IsSequence (2 * length flat.now.elements + length flat.now.inner) flat.now.arcs order.now
        sequence.now }
    ensures { IfOk result (IsCountBefore flat.now (length flat.now.elements) 0) }
{
    let elements = flat.element_count();
    count_along(alloc, sequence, elements)
}

/// The number of all pairs, by the way that has less to carry. Without inner bits that is from the outputs on.
fn count_all(
    alloc: Global,
    flat: &Flat,
    order: &Order,
    sequence: ArcSequence,
) -> Result<u64, AllocError>
    requires order { IsOrder flat.now.arcs order.now }
    requires sequence { IsSequence (2 * length flat.now.elements + length flat.now.inner) flat.now.arcs order.now
        sequence }
    ensures count { IfOk result (IsCountBefore flat.now (length flat.now.elements) 0) }
    ensures few { IfOk result (λ count. count ≤ most_count) }
{
    if !flat.inner().items().is_empty() && is_backward_cheaper(alloc, flat)? {
        return count_back(alloc, flat, order, sequence);
    }
    count_forward(alloc, flat, order, &sequence)
}

/// Refuses a design with more pairs than the limit, or with a path that is too long. The pairs aren't counted where a
/// look at the arcs tells that they are few. The refusals are those of `extremes`.
pub fn refuse_pairs(alloc: Global, limits: &Limits, flat: &Flat, order: &Order) -> Result<(), Stop>
    requires { IsOrder flat.now.arcs order.now }
    ensures few { OnOk result (HasFewPairs limits.now flat.now) }
    ensures short { OnOk result (ArePathsShort flat.now) }
    ensures stop { IfErr result (StopsAt (IsExtremesRefusal limits.now flat.now)) }
    ensures kept { AreLimits limits.now }
{
    if are_plainly_few(alloc, limits, flat, order)? {
        return Ok(());
    }
    count_pairs(alloc, limits, flat, order)?;
    Ok(())
}

/// The number of the design's pairs, without a list of them. The refusals are those of `extremes`.
pub fn count_pairs(alloc: Global, limits: &Limits, flat: &Flat, order: &Order) -> Result<u64, Stop>
    requires { IsOrder flat.now.arcs order.now }
    ensures count { IfOk result (IsPairCount flat.now) }
    ensures few { IfOk result (λ count. count ≤ limits.now.pairs) }
    ensures short { OnOk result (ArePathsShort flat.now) }
    ensures stop { IfErr result (StopsAt (IsExtremesRefusal limits.now flat.now)) }
    ensures kept { AreLimits limits.now }
{
    let most = limits.most();
    let sequence = sequence_of(alloc, flat, order)?;
    let known_short = bound_is_within_limit(alloc, flat, order, &sequence)?;
    if !known_short {
        let pairs = extremes(alloc, limits, flat, order)?;
        return Ok(pairs.len() as u64);
    }
    let count = count_all(alloc, flat, order, sequence)?;
    let limit = most.pairs as u64;
    if count > limit {
        return Err(Stop::Refused(Refusal::Limit {
            kind: Kind::Pairs,
            count,
        }));
    }
    Ok(count)
}
