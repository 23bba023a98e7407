//! Links weighed against values that meet them all, so that none asks for more than it has (D. B. Johnson, "Efficient
//! algorithms for shortest paths in sparse networks", 1977).
ghost use Rattle.std.specs.Prelude.{◌≡◌, ◌<◌, ◌≤◌, ℕ, All, IfOk, length, map};
ghost use Rattle.std.specs.Bool.{OnTrue};
ghost use Rattle.std.specs.List.Sorted.{IsPermutation};
ghost use Rattle.mintc_text.specs.declared.limits.TheConstants.{MOST_LINK_DELAY};
ghost use Rattle.mintc_slack.specs.Short.{IsShortCycle};
ghost use Rattle.mintc_graph_walks.specs.Bounds.{IsWithin};
ghost use Rattle.mintc_graph_walks.specs.Walks.{value_at};
ghost use Rattle.mintc_slack.specs.Gaps.{ArePotentials, IsInside, gap_of};
ghost use Rattle.mintc_slack.specs.Rows.{AreInRows, IsNext};

use crate::arithmetic::{asked_of, minus_both};
use mintc_constraints::LinkList;
use mintc_fraction::Fraction;
use mintc_text::OutOfMemory;
use mintc_timing::Link;
use std::alloc::Global;

/// A link, and by how much the value of its end exceeds what the link brings there, in femtoseconds times the cycle's
/// denominator. They are in order by the node that they leave, and those of a node the least first.
#[derive(Clone, Copy, PartialEq, Eq, PartialOrd, Ord, Drop)]
pub(crate) struct ReducedCost {
    pub from: u32,
    pub rest: i64,
    pub to: u32,
}

/// Gaps in order, and for each node the place at which its row begins, those that leave it.
#[derive(Drop)]
pub(crate) struct Rows {
    pub gaps: Vec<ReducedCost>,
    pub firsts: Vec<usize>,
}

/// The gap of a link.
fn weigh(link: &Link, at: &Fraction, potentials: &[i128]) -> ReducedCost
    requires from { link.now.from < length potentials.now }
    requires to { link.now.to < length potentials.now }
    requires delay { IsWithin MOST_LINK_DELAY link.now.delay }
    requires cycles { link.now.cycles ≤ 1 }
    requires cycle { IsShortCycle at.now }
    requires small { (node : ℕ) → node < length potentials.now →
        IsWithin 30000000000000000 (value_at potentials.now node) }
    ensures { result ≡ gap_of at.now potentials.now link.now }
{
    let (from, to) = (potentials[link.from as usize], potentials[link.to as usize]);
    let rest = minus_both(to, from, asked_of(link, at));
    ReducedCost {
        from: link.from,
        rest: rest as i64,
        to: link.to,
    }
}

/// The gaps of links, in order.
pub(crate) fn gaps(
    alloc: Global,
    list: &LinkList,
    at: &Fraction,
    potentials: &[i128],
) -> Result<Vec<ReducedCost>, OutOfMemory>
    requires { ArePotentials list.now at.now potentials.now }
    ensures { IfOk result (λ gaps. IsPermutation (map (gap_of at.now potentials.now) list.now.links) gaps.items) }
{
    let mut gaps = Vec::new(alloc);
    for link in list.items() {
        gaps.push(weigh(link, at, potentials))?;
    }
    gaps.sort_unstable();
    Ok(gaps)
}

/// Where the row of each node begins.
pub(crate) fn firsts(
    alloc: Global,
    gaps: &[ReducedCost],
    nodes: u32,
) -> Result<Vec<usize>, OutOfMemory> {
    let mut firsts = vec![in alloc; 0; nodes as usize]?;
    for place in (0..gaps.len()).rev() {
        if let Some(first) = firsts.get_mut(gaps[place].from as usize) {
            *first = place;
        }
    }
    Ok(firsts)
}

/// Whether a gap begins its row, or stands behind one of the same row that is no greater.
fn is_in_row(gaps: &[ReducedCost], firsts: &[usize], place: usize) -> bool
    requires { place < length gaps.now }
    ensures { OnTrue result (IsNext gaps.now firsts.now place) }
{
    let gap = gaps[place];
    let first = firsts.get(gap.from as usize).copied().unwrap_or(0);
    if first >= place {
        return first == place;
    }
    let before = gaps[place - 1];
    before.from == gap.from && before.rest <= gap.rest
}

/// Whether all gaps stand in their rows.
pub(crate) fn are_in_rows(gaps: &[ReducedCost], firsts: &[usize]) -> bool
    ensures { OnTrue result (AreInRows gaps.now firsts.now) }
{
    for place in 0..gaps.len() {
        if !is_in_row(gaps, firsts, place) {
            return false;
        }
    }
    true
}

/// The rows of the same gaps the other way, from their ends to their beginnings.
pub(crate) fn turned(alloc: Global, gaps: &[ReducedCost], nodes: u32) -> Result<Rows, OutOfMemory>
    requires { All (IsInside nodes) gaps.now }
    ensures { IfOk result (λ rows. All (IsInside nodes) rows.gaps.items) }
{
    let mut turned = Vec::with_capacity(alloc, gaps.len())?;
    for gap in gaps {
        let (from, rest, to) = (gap.to, gap.rest, gap.from);
        turned.push(ReducedCost { from, rest, to })?;
    }
    turned.sort_unstable();
    let firsts = firsts(alloc, &turned, nodes)?;
    Ok(Rows {
        gaps: turned,
        firsts,
    })
}
