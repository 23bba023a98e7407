//! Lists of links that tests write.
ghost use Rattle.std.specs.Prelude.{◌≡◌, ◌<◌, ℕ, List, length, All};
ghost use Rattle.std.specs.Bool.{OnTrue};
ghost use Rattle.mintc_constraints.specs.Ordinary.{HasPlainLink, IsOrdinary, IsOrdinaryLink, Leads, constraints_of};
ghost use Rattle.mintc_timing.specs.Links.{link_at};
ghost use Rattle.mintc_ratio.specs.Climbing.{IsPlainAt};

use mintc_constraints::LinkList;
use mintc_timing::{Link, LinkKind};
use std::alloc::{AllocError, Global};

/// A link's from, to, delay and cycles.
pub(crate) type Row = (u32, u32, i64, u32);

/// The links of the clock with two phases, before those that phases have with one another through their elements.
pub(crate) const TWO_PHASES: &[Row] = &[
    (0, 1, 0, 0),
    (0, 3, 0, 0),
    (1, 0, 0, 1),
    (3, 0, 0, 1),
    (1, 3, 0, 0),
    (2, 1, 0, 1),
    (4, 3, 0, 1),
    (1, 2, 0, 0),
    (3, 4, 0, 0),
];

/// The rows of several slices, one after another.
pub(crate) fn joined(alloc: Global, parts: &[&[Row]]) -> Result<Vec<Row>, AllocError> {
    let mut rows = Vec::new(alloc);
    for part in parts {
        rows.extend_from_slice(part)?;
    }
    Ok(rows)
}

fn is_ordinary_link(nodes: u32, link: &Link) -> bool
    ensures { OnTrue result (IsOrdinaryLink nodes link.now) }
{
    link.from < nodes
        && link.to < nodes
        && link.cycles <= 1
        && -4_000_000_000 <= link.delay
        && link.delay <= 2_000_000_000
}

fn are_ordinary_links(nodes: u32, links: &[Link]) -> bool
    ensures { OnTrue result (All (IsOrdinaryLink nodes) links.now) }
{
    links.iter().all(|link| is_ordinary_link(nodes, link))
}

/// The link of a number.
fn numbered(links: &[Link], number: usize) -> &Link
    requires { number < length links.now }
    ensures { result.now ≡ link_at links.now number }
{
    &links[number]
}

/// Whether the link of this number has no delay, and leads from one node to another with so many cycles.
fn is_plain_at(links: &[Link], number: usize, from: u32, to: u32, cycles: u32) -> bool
    requires { number < length links.now }
    ensures { OnTrue result (IsPlainAt links.now from to cycles number) }
{
    let link = numbered(links, number);
    link.from == from && link.to == to && link.delay == 0 && link.cycles == cycles
}

fn has_plain(links: &[Link], from: u32, to: u32, cycles: u32) -> bool
    ensures { OnTrue result (HasPlainLink links.now from to cycles) }
{
    for number in 0..links.len() {
        if is_plain_at(links, number, from, to, cycles) {
            return true;
        }
    }
    false
}

/// Whether a link leads to the node from one with a smaller number.
fn is_entered(links: &[Link], node: u32) -> bool
    ensures { OnTrue result ((e : ℕ) × (e < length links.now) × ((link_at links.now e).from < node)
        × ((link_at links.now e).to ≡ node)) }
{
    for number in 0..links.len() {
        let link = numbered(links, number);
        if link.from < node && link.to == node {
            return true;
        }
    }
    false
}

/// Whether each node but the first is entered from one with a smaller number, and so at the end of a walk from node 0.
fn are_entered(nodes: u32, links: &[Link]) -> bool
    ensures { OnTrue result ((node : ℕ) → node < nodes → (walk : List ℕ) × Leads links.now 0 walk node) }
{
    for node in 1..nodes {
        if !is_entered(links, node) {
            return false;
        }
    }
    true
}

fn is_ordinary(nodes: u32, links: &[Link]) -> bool
    ensures { OnTrue result (IsOrdinary (constraints_of nodes links.now)) }
{
    3 <= nodes
        && nodes <= 20017
        && links.len() < 1 << 28
        && are_ordinary_links(nodes, links)
        && has_plain(links, 0, 1, 0)
        && has_plain(links, 1, 0, 1)
        && are_entered(nodes, links)
}

fn link_of(row: Row) -> Link {
    let (from, to, delay, cycles) = row;
    Link {
        kind: LinkKind::Other { index: 0 },
        from,
        to,
        delay,
        cycles,
    }
}

/// A list of these links between so many nodes, or none where it isn't ordinary.
pub(crate) fn list_of(alloc: Global, nodes: u32, rows: &[Row]) -> Option<LinkList> {
    let mut links = Vec::new(alloc);
    for row in rows {
        links.push(link_of(*row)).ok()?;
    }
    if !is_ordinary(nodes, &links) {
        return None;
    }
    Some(LinkList::new(nodes, links))
}
