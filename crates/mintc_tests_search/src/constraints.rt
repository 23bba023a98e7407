//! `links` of mintc_constraints: with memory, a system has its links.

use crate::link_rows::{Row, TWO_PHASES, joined};
use crate::systems::system_of;
use mintc_constraints::{Link, LinkList, links};
use std::alloc::Global;
use std::process::Abort;
use std::test::Fail;

/// A design with two phases, bounds of each kind, and nothing else.
const BOUNDED: &str =
    "table 1\nphases 2\nphase p\nphase q\nelements 0\ninner 0\narcs 0\nbounds 2\nbound o o 50 1\nbound e1 s2 -5 0\n\
     end\n";

/// From, to, delay and cycles of a link.
fn parts(link: &Link) -> Row {
    (link.from, link.to, link.delay, link.cycles)
}

/// The links of its bounds.
const BOUNDS: &[Row] = &[(0, 0, 50, 1), (2, 3, -5, 0)];

/// Links are those of these rows.
fn are_links(rt: &impl Abort, links: &[Link], rows: &[Row]) {
    assert!(rt; links.len() == rows.len());
    for (link, want) in links.iter().zip(rows) {
        let found = parts(link);
        assert!(rt; found == *want, "from {} to {}", want.0, want.1);
    }
}

/// The list of links of that design.
fn listed(rt: &impl Abort, alloc: Global) -> Option<LinkList> {
    let system = system_of(rt, alloc, BOUNDED)?;
    links(alloc, &system).ok()
}

#[test]
fn phases_and_bounds_have_their_links(rt: HostRuntime) -> Result<(), Fail> {
    let list = listed(&rt, rt.alloc()).ok_or("no links")?;
    assert!(rt; list.nodes() == 5);
    let rows = joined(rt.alloc(), &[TWO_PHASES, BOUNDS])?;
    are_links(&rt, list.items(), &rows);
    Ok(())
}
