//! Distances from a node over gaps, the nearest node first (E. W. Dijkstra, "A note on two problems in connexion
//! with graphs", 1959). Nothing is proved of that order: each distance is that of some walk, and whether they are
//! the least is tested at the end.
ghost use Rattle.std.specs.Prelude.{◌≡◌, ◌≢◌, ◌<◌, ℕ, List, pos, ◌≤ℤ◌, All, length};
ghost use Rattle.std.specs.Bool.{OnTrue};
ghost use Rattle.std.specs.List.{Contains};
ghost use Rattle.mintc_graph_walks.specs.Walks.{value_at};
ghost use Rattle.mintc_slack.specs.Gaps.{AreInRange, AreLeast, AreShorter, IsInside};
ghost use Rattle.mintc_slack.specs.declared.nearest.TheConstants.{FAR as far};
ghost use Rattle.mintc_slack.specs.Rows.{AreInRows, IsRowLeast};

use crate::arithmetic::sum;
use crate::reduced_costs::{ReducedCost, Rows};
use mintc_text::OutOfMemory;
use std::alloc::Global;
use std::cmp::Reverse;
use std::collections::BinaryHeap;

/// The distance of a node that no walk is known to, in femtoseconds times the cycle's denominator. Others are less.
pub(crate) const FAR: i64 = 100_000_000_000_000_000;

/// The nodes that are ahead, each with its distance, the nearest first.
pub(crate) type Ahead = BinaryHeap<(Reverse<i64>, u32), Global>;

/// Makes the distances those where walks begin: 0 at a node, and far elsewhere.
pub(crate) fn begin_at(distances: &mut Vec<i64>, from: u32)
    requires inside { from < length distances.old.items }
    ensures count { length distances.new.items ≡ length distances.old.items }
    ensures here { value_at distances.new.items from ≡ pos 0 }
    ensures others { (node : ℕ) → node < length distances.new.items → node ≢ from →
        value_at distances.new.items node ≡ far }
{
    distances.fill(FAR);
    distances[from as usize] = 0;
}

/// Makes the distance of a gap's end that of its beginning and the gap, where that is less; says whether it did.
fn shorten(gap: ReducedCost, distances: &mut Vec<i64>) -> bool
    requires inside { IsInside (length distances.old.items) gap }
    requires range { AreInRange distances.old.items }
    ensures count { length distances.new.items ≡ length distances.old.items }
    ensures shorter { (hub : ℕ) (gaps : List ReducedCost) → Contains gaps gap →
        AreShorter hub gaps distances.old.items distances.new.items }
{
    let distance = sum(distances[gap.from as usize], gap.rest);
    if distance < distances[gap.to as usize] {
        distances[gap.to as usize] = distance;
        return true;
    }
    false
}

/// Shortens the distance of a gap's end, and puts the end among the nodes that are ahead, where it did.
#[inline(always)]
fn pass(gap: ReducedCost, distances: &mut Vec<i64>, ahead: &mut Ahead) -> Result<(), OutOfMemory>
    requires inside { IsInside (length distances.old.items) gap }
    requires range { AreInRange distances.old.items }
    ensures { (hub : ℕ) (gaps : List ReducedCost) → Contains gaps gap →
        AreShorter hub gaps distances.old.items distances.new.items }
{
    if shorten(gap, distances) {
        ahead.push((Reverse(distances[gap.to as usize]), gap.to))?;
    }
    Ok(())
}

/// Shortens the distances behind the gaps that leave a node, as long as they are within a limit.
fn leave(
    rows: &Rows,
    node: u32,
    limit: i64,
    distances: &mut Vec<i64>,
    ahead: &mut Ahead,
) -> Result<(), OutOfMemory>
    requires inside { All (IsInside (length distances.old.items)) rows.now.gaps.items }
    requires range { AreInRange distances.old.items }
    ensures { (hub : ℕ) → AreShorter hub rows.now.gaps.items distances.old.items distances.new.items }
{
    let first = rows.firsts.get(node as usize).copied().unwrap_or(0);
    for place in first..rows.gaps.len() {
        let gap = rows.gaps[place];
        if gap.from != node || sum(distances[gap.from as usize], gap.rest) > limit {
            break;
        }
        pass(gap, distances, ahead)?;
    }
    Ok(())
}

/// Shortens distances from a node, until the hub is the nearest of those ahead, or none is within the limit.
pub(crate) fn walk(
    rows: &Rows,
    from: u32,
    hub: u32,
    limit: i64,
    distances: &mut Vec<i64>,
    ahead: &mut Ahead,
) -> Result<(), OutOfMemory>
    requires inside { All (IsInside (length distances.old.items)) rows.now.gaps.items }
    requires range { AreInRange distances.old.items }
    ensures { AreShorter hub rows.now.gaps.items distances.old.items distances.new.items }
{
    ahead.clear();
    leave(rows, from, limit, distances, ahead)?;
    for _step in 0..rows.gaps.len() {
        let Some((Reverse(distance), node)) = ahead.pop() else {
            break;
        };
        if node == hub {
            break;
        }
        if distances.get(node as usize).copied().unwrap_or(FAR) == distance {
            leave(rows, node, limit, distances, ahead)?;
        }
    }
    Ok(())
}

/// Makes no distance greater than that of the hub, from which each node is as near.
pub(crate) fn cap_at(hub: u32, distances: &mut Vec<i64>)
    requires inside { hub < length distances.old.items }
    requires range { AreInRange distances.old.items }
    ensures count { length distances.new.items ≡ length distances.old.items }
    ensures home { (node : ℕ) → node < length distances.new.items →
        value_at distances.new.items node ≤ℤ value_at distances.new.items hub }
    ensures shorter { (gaps : List ReducedCost) → AreShorter hub gaps distances.old.items distances.new.items }
{
    let home = distances[hub as usize];
    for node in 0..distances.len() {
        if distances[node] > home {
            distances[node] = home;
        }
    }
}

/// Whether no gap of a node's row makes a distance less, where none is above that of home.
fn is_row_least(rows: &Rows, node: usize, home: i64, distances: &[i64]) -> bool
    requires node { node < length distances.now }
    requires inside { All (IsInside (length distances.now)) rows.now.gaps.items }
    requires range { AreInRange distances.now }
    requires home { (node : ℕ) → node < length distances.now → value_at distances.now node ≤ℤ home }
    requires rows { AreInRows rows.now.gaps.items rows.now.firsts.items }
    ensures { OnTrue result (IsRowLeast rows.now.gaps.items node distances.now) }
{
    if distances[node] >= home {
        return true;
    }
    let first = rows.firsts.get(node).copied().unwrap_or(0);
    for place in first..rows.gaps.len() {
        let gap = rows.gaps[place];
        let distance = sum(distances[gap.from as usize], gap.rest);
        if gap.from as usize != node || distance >= home {
            return true;
        }
        if distance < distances[gap.to as usize] {
            return false;
        }
    }
    true
}

/// Whether no gap makes a distance less, where none is above that of home.
pub(crate) fn are_least(rows: &Rows, home: i64, distances: &[i64]) -> bool
    requires inside { All (IsInside (length distances.now)) rows.now.gaps.items }
    requires range { AreInRange distances.now }
    requires home { (node : ℕ) → node < length distances.now → value_at distances.now node ≤ℤ home }
    requires rows { AreInRows rows.now.gaps.items rows.now.firsts.items }
    ensures { OnTrue result (AreLeast rows.now.gaps.items distances.now) }
{
    for node in 0..distances.len() {
        if !is_row_least(rows, node, home, distances) {
            return false;
        }
    }
    true
}
