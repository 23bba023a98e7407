//! `corners` of mintc_corners: with memory, the worked corners have the certificates that are worked out by hand.
ghost use Rattle.std.specs.Prelude.{◌≡◌, ◌<◌, IfSome};
ghost use Rattle.mintc_corners.specs.CornerOptimum.{IsCornerInRange};

mod alike;

use crate::systems::system_of_text;
use alike::are_corners;
use mintc_corners::{CornerCertificate, corners, corners_text};
use mintc_graph_walks::Steps;
use mintc_timing::System;
use std::alloc::Global;
use std::marker::Brand;
use std::process::Abort;
use std::sync::ledger::{Blank, Ledger};
use std::test::Fail;

/// The tables of the corners, the text of their certificate before the chain, and the texts of the chains that are
/// right.
#[derive(Clone, Copy)]
struct Row {
    name: &'static str,
    tables: &'static [&'static str],
    answer: &'static str,
    chains: &'static [&'static str],
}

/// The certificate of systems.
fn found<L: Ledger>(alloc: Global, systems: &[System], blank: Blank) -> Option<CornerCertificate>
    requires name { blank.name ≡ L.name }
    requires parts { blank.parts ≡ L.parts }
    requires part { 0 < L.parts }
    ensures { IfSome result IsCornerInRange }
{
    if systems.len() < 2 || systems.len() > 4 || !are_corners(systems) {
        return None;
    }
    let mut steps = Steps::<L>::open(blank);
    corners(alloc, systems, &mut steps).ok()
}

/// Two flops that feed each other: neither corner's own best schedule, with its second phase at 60 or at 30, serves
/// the other.
const TWO: Row = Row {
    name: "corners-two-files",
    tables: &[
        "table 2\nphases 2\nphase p1\nphase p2\nelements 2\nelement a 1 flop 0 - 0 0 0\n\
         element b 2 flop 0 - 0 0 0\ninner 0\narcs 2\narc q0 d1 60 60\narc q1 d0 40 40\nbounds 0\nend\n",
        "table 2\nphases 2\nphase p1\nphase p2\nelements 2\nelement a 1 flop 0 - 0 0 0\n\
         element b 2 flop 0 - 0 0 0\ninner 0\narcs 2\narc q0 d1 30 30\narc q1 d0 70 70\nbounds 0\nend\n",
    ],
    answer: "corners 1\nleast\nden 1\ncycle 130\nphases 2\nphase 0 0\nphase 60 0\ncorners 2\ndepartures 2\n\
        departure 0\ndeparture 0\ndepartures 2\ndeparture 0\ndeparture 0\n",
    chains: &["chain 4\nreach 1 0 1 1 0\nsetup 1 1\nreach 2 1 0 1 1\nsetup 2 0\nend\n"],
};

/// Two latches that feed each other, in three corners: the third one's loop is the longest, and each has departures
/// of its own.
const THREE: Row = Row {
    name: "three",
    tables: &[
        "table 1\nphases 2\nphase p1\nphase p2\nelements 2\nelement a 1 5 - 0 0 0\nelement b 2 5 - 0 0 0\ninner 0\n\
         arcs 2\narc q0 d1 60 60\narc q1 d0 40 40\nbounds 0\nend\n",
        "table 1\nphases 2\nphase p1\nphase p2\nelements 2\nelement a 1 5 - 0 0 0\nelement b 2 5 - 0 0 0\ninner 0\n\
         arcs 2\narc q0 d1 30 30\narc q1 d0 70 70\nbounds 0\nend\n",
        "table 1\nphases 2\nphase p1\nphase p2\nelements 2\nelement a 1 5 - 0 0 0\nelement b 2 5 - 0 0 0\ninner 0\n\
         arcs 2\narc q0 d1 45 45\narc q1 d0 56 56\nbounds 0\nend\n",
    ],
    answer: "corners 1\nleast\nden 1\ncycle 101\nphases 2\nphase 0 5\nphase 5 60\ncorners 3\ndepartures 2\n\
        departure 0\ndeparture 55\ndepartures 2\ndeparture 0\ndeparture 25\ndepartures 2\ndeparture 0\n\
        departure 40\n",
    chains: &["chain 2\nreach 3 0 1 1 0\nreach 3 1 0 1 1\nend\n"],
};

/// Three flops in a ring: each of three corners asks for the most of one path, and the fourth for a width.
const FOUR: Row = Row {
    name: "four",
    tables: &[
        "table 2\nphases 3\nphase p1\nphase p2\nphase p3\nelements 3\nelement a 1 flop 0 - 0 0 0\n\
         element b 2 flop 0 - 0 0 0\nelement c 3 flop 0 - 0 0 0\ninner 0\narcs 3\narc q0 d1 60 60\n\
         arc q1 d2 10 10\narc q2 d0 10 10\nbounds 0\nend\n",
        "table 2\nphases 3\nphase p1\nphase p2\nphase p3\nelements 3\nelement a 1 flop 0 - 0 0 0\n\
         element b 2 flop 0 - 0 0 0\nelement c 3 flop 0 - 0 0 0\ninner 0\narcs 3\narc q0 d1 10 10\n\
         arc q1 d2 50 50\narc q2 d0 10 10\nbounds 0\nend\n",
        "table 2\nphases 3\nphase p1\nphase p2\nphase p3\nelements 3\nelement a 1 flop 0 - 0 0 0\n\
         element b 2 flop 0 - 0 0 0\nelement c 3 flop 0 - 0 0 0\ninner 0\narcs 3\narc q0 d1 10 10\n\
         arc q1 d2 10 10\narc q2 d0 40 40\nbounds 0\nend\n",
        "table 2\nphases 3\nphase p1\nphase p2\nphase p3\nelements 3\nelement a 1 flop 0 - 0 0 7\n\
         element b 2 flop 0 - 0 0 0\nelement c 3 flop 0 - 0 0 0\ninner 0\narcs 3\narc q0 d1 20 20\n\
         arc q1 d2 20 20\narc q2 d0 20 20\nbounds 0\nend\n",
    ],
    answer: "corners 1\nleast\nden 1\ncycle 150\nphases 3\nphase 0 7\nphase 60 0\nphase 110 0\ncorners 4\n\
        departures 3\ndeparture 0\ndeparture 0\ndeparture 0\ndepartures 3\ndeparture 0\ndeparture 0\n\
        departure 0\ndepartures 3\ndeparture 0\ndeparture 0\ndeparture 0\ndepartures 3\ndeparture 0\n\
        departure 0\ndeparture 0\n",
    chains: &[
        "chain 6\nreach 1 0 1 1 0\nsetup 1 1\nreach 2 1 2 1 1\nsetup 2 2\nreach 3 2 0 1 2\nsetup 3 0\nend\n",
    ],
};

/// Each corner alone has a cycle time, but together they start the third phase later than the bound says.
const HOPELESS: Row = Row {
    name: "hopeless",
    tables: &[
        "table 2\nphases 3\nphase p1\nphase p2\nphase p3\nelements 3\nelement a 1 flop 0 - 0 0 0\n\
         element b 2 flop 0 - 0 0 0\nelement c 3 flop 0 - 0 0 0\ninner 0\narcs 3\narc q0 d1 60 60\n\
         arc q1 d2 30 30\narc q2 d0 10 10\nbounds 1\nbound s3 s1 -100 0\nend\n",
        "table 2\nphases 3\nphase p1\nphase p2\nphase p3\nelements 3\nelement a 1 flop 0 - 0 0 0\n\
         element b 2 flop 0 - 0 0 0\nelement c 3 flop 0 - 0 0 0\ninner 0\narcs 3\narc q0 d1 30 30\n\
         arc q1 d2 70 70\narc q2 d0 10 10\nbounds 1\nbound s3 s1 -100 0\nend\n",
    ],
    answer: "corners 1\nnever\n",
    chains: &["chain 5\nreach 1 0 1 1 0\nsetup 1 1\nreach 2 1 2 1 1\nsetup 2 2\nbound 0\nend\n"],
};

/// The systems of a row.
fn systems_of(rt: &impl Abort, alloc: Global, row: &Row) -> Option<Vec<System>> {
    let mut systems = Vec::new(alloc);
    for table in row.tables {
        systems.push(system_of_text(rt, alloc, table).ok()?).ok()?;
    }
    Some(systems)
}

/// The certificate of a row.
fn certificate_of(rt: &impl Abort, alloc: Global, row: &Row) -> Option<CornerCertificate>
    ensures { IfSome result IsCornerInRange }
{
    found::<Brand>(alloc, &systems_of(rt, alloc, row)?, Blank::new(1))
}

/// The text of a row's certificate.
fn certificate_text(rt: &impl Abort, alloc: Global, row: &Row) -> Option<Vec<u8>> {
    corners_text(alloc, &certificate_of(rt, alloc, row)?).ok()
}

/// Whether a text is the answer of a row, with one of its chains.
fn is_of_row(row: &Row, text: &[u8]) -> bool {
    match text.strip_prefix(row.answer.as_bytes()) {
        Some(chain) => row.chains.iter().any(|c| c.as_bytes() == chain),
        None => false,
    }
}

#[test]
fn worked_corners_have_their_certificates(rt: HostRuntime) -> Result<(), Fail> {
    for row in &[TWO, THREE, FOUR, HOPELESS] {
        let text = certificate_text(&rt, rt.alloc(), row).ok_or(row.name)?;
        assert!(rt; is_of_row(row, text.as_slice()), "{}", row.name);
    }
    Ok(())
}
