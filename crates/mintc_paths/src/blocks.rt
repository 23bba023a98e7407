//! The pairs of a design, by eight elements at a time.
ghost use Rattle.std.specs.Prelude.{◌≡◌, ◌<◌, ◌≤◌, ◌+◌, ◌*◌, ◌^◌, ℕ, length, IfOk, IfErr, OnOk};
ghost use Rattle.std.specs.Bool.{OnTrue};
ghost use Rattle.mintc_text.specs.Stops.{StopsAt};
ghost use Rattle.mintc_timing.specs.Order.{IsOrder, ArePathsShort};
ghost use Rattle.mintc_paths.specs.Worklist.{IsReady};
ghost use Rattle.mintc_paths.specs.Found.{IsFoundBefore, most_count};
ghost use Rattle.mintc_paths.specs.Ordered.{Ordered, ordered};
ghost use Rattle.mintc_paths.specs.Plans.{IsPlanOf};
ghost use Rattle.mintc_paths.specs.Sums.{IsSequence, AreMarked};
ghost use Rattle.mintc_paths.specs.Refusals.{IsPathRange};

use crate::filled::Filled;
use crate::found::Found;
use crate::long::refuse_long;
use crate::rows::ArcSequence;
use crate::sums::fill;
use crate::worklist::Worklist;
use mintc_bitset::Stamps;
use mintc_paths_sums::SparseRows;
use mintc_text::Stop;
use mintc_timing::{Flat, Order};
use std::alloc::{AllocError, Global};

/// The sequence over rows in the order in which the arcs come to the bits.
pub fn sequence_of(alloc: Global, flat: &Flat, order: &Order) -> Result<ArcSequence, AllocError>
    requires { IsOrder flat.now.arcs order.now }
    ensures { IfOk result
        (λ sequence. IsSequence (2 * length flat.now.elements + length flat.now.inner) flat.now.arcs order.now
        sequence) }
{
    ArcSequence::along(alloc, flat, order)
}

/// What all blocks have in common: a sequence, how many elements its design has, how many pairs are kept, and whether
/// it is known that no path there is too long.
#[derive(Clone, Copy)]
pub(crate) struct Plan<'a> {
    pub sequence: &'a ArcSequence,
    pub elements: u32,
    pub most: usize,
    pub known_short: bool,
}

/// Finds the pairs from all elements, whose sums go through `sums`.
fn find_each(
    alloc: Global,
    plan: &Plan,
    sums: &mut SparseRows,
    reached: &mut Stamps,
    awake: &mut Worklist,
) -> Result<Found, Stop>
    ghost of: { Ordered }
    requires plan { IsPlanOf (length sums.old) of plan.now }
    requires marked { AreMarked sums.old reached.old }
    requires ready { IsReady (length plan.now.sequence.now.along.items) awake.old }
    ensures found { IfOk result (IsFoundBefore of.design (length of.design.elements) 0) }
    ensures few { IfOk result (λ found. found.count ≤ most_count) }
    ensures most { IfOk result (λ found. found.most ≡ plan.now.most) }
    ensures short { OnOk result (ArePathsShort of.design) }
    ensures stop { IfErr result (StopsAt (IsPathRange of.design)) }
{
    let mut found = Found::new(alloc, plan.most);
    let mut first = 0;
    while first < plan.elements {
        let lanes = (plan.elements - first).min(8);
        fill(sums, reached, awake, plan.sequence, first, lanes as usize)?;
        let block = Filled {
            sums,
            reached,
            rows: &plan.sequence.rows,
            first,
            lanes: lanes as usize,
        };
        refuse_long(&block, plan.known_short)?;
        found.add_all(&block, plan.elements)?;
        first += lanes;
    }
    Ok(found)
}

/// Finds the pairs of a design along a sequence of its arcs.
pub(crate) fn find_along(alloc: Global, plan: &Plan) -> Result<Found, Stop>
    ghost of: { Ordered }
    requires { IsPlanOf (length plan.now.sequence.now.rows.of_bits.items) of plan.now }
    ensures found { IfOk result (IsFoundBefore of.design (length of.design.elements) 0) }
    ensures few { IfOk result (λ found. found.count ≤ most_count) }
    ensures most { IfOk result (λ found. found.most ≡ plan.now.most) }
    ensures short { OnOk result (ArePathsShort of.design) }
    ensures stop { IfErr result (StopsAt (IsPathRange of.design)) }
{
    let bits = plan.sequence.rows.of_bits.len();
    let mut sums = SparseRows::new(alloc, bits)?;
    let mut reached = Stamps::new(alloc, bits)?;
    let mut awake = Worklist::new(alloc, plan.sequence.along.len())?;
    find_each(alloc, plan, &mut sums, &mut reached, &mut awake)
}

/// Finds the pairs from the outputs on, and keeps so many of them.
pub(crate) fn find_forward(
    alloc: Global,
    most: usize,
    flat: &Flat,
    order: &Order,
    sequence: &ArcSequence,
    known_short: bool,
) -> Result<Found, Stop>
    ghost of: { Ordered }
    requires of { of ≡ ordered flat.now order.now }
    requires order { IsOrder flat.now.arcs order.now }
    requires sequence { IsSequence (2 * length flat.now.elements + length flat.now.inner) flat.now.arcs order.now
        sequence.now }
    requires known { OnTrue known_short (ArePathsShort flat.now) }
    ensures found { IfOk result (IsFoundBefore flat.now (length flat.now.elements) 0) }
    ensures few { IfOk result (λ found. found.count ≤ most_count) }
    ensures most { IfOk result (λ found. found.most ≡ most) }
    ensures short { OnOk result (ArePathsShort flat.now) }
    ensures stop { IfErr result (StopsAt (IsPathRange flat.now)) }
{
    let elements = flat.element_count();
    let plan = Plan {
        sequence,
        elements,
        most,
        known_short,
    };
    find_along(alloc, &plan)
}
