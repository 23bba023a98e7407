//! mintc_optimise: its `Bench` finds the same cycle time each time, and a chain begins with the link that comes first.
ghost use Rattle.std.specs.Prelude.{◌≡◌, ◌<◌};

use crate::systems::system_of;
use mintc_certificate::write;
use mintc_graph_walks::Steps;
use mintc_optimise::{Bench, optimise};
use mintc_ratio::Outcome;
use mintc_tests_designs::{TWO_CERTIFICATE, TWO_LATCHES};
use mintc_timing::System;
use std::alloc::Global;
use std::marker::Brand;
use std::process::Abort;
use std::sync::ledger::{Blank, Ledger};
use std::test::Fail;

/// The cycle times that two searches on one bench find.
fn solved_twice<L: Ledger>(bench: &mut Bench, blank: Blank) -> Option<[(i128, i128); 2]>
    requires name { blank.name ≡ L.name }
    requires parts { blank.parts ≡ L.parts }
    requires part { 0 < L.parts }
{
    let mut steps = Steps::<L>::open(blank);
    let Outcome::Least { cycle: first } = bench.solve(&mut steps) else {
        return None;
    };
    let Outcome::Least { cycle: second } = bench.solve(&mut steps) else {
        return None;
    };
    Some([(first.num(), first.den()), (second.num(), second.den())])
}

/// A bench for the ring.
fn bench_of(rt: &impl Abort, alloc: Global) -> Option<Bench> {
    let system = system_of(rt, alloc, TWO_LATCHES)?;
    Bench::reserve(alloc, &system).ok()
}

#[test]
fn bench_solves_twice(rt: HostRuntime) {
    match bench_of(&rt, rt.alloc()) {
        Some(mut bench) => {
            let cycles = solved_twice::<Brand>(&mut bench, Blank::new(1));
            assert!(rt; cycles == Some([(100, 1), (100, 1)]));
        }
        None => panic!(rt; "no bench"),
    }
}

/// The text of a system's optimum.
fn optimum_text<L: Ledger>(alloc: Global, system: &System, blank: Blank) -> Option<Vec<u8>>
    requires name { blank.name ≡ L.name }
    requires parts { blank.parts ≡ L.parts }
    requires part { 0 < L.parts }
{
    let mut steps = Steps::<L>::open(blank);
    match optimise(alloc, system, &mut steps) {
        Ok(certificate) => write(alloc, &certificate).ok(),
        Err(_) => None,
    }
}

/// The text of the optimum of the ring.
fn text_of_ring(rt: &impl Abort, alloc: Global) -> Option<Vec<u8>> {
    let system = system_of(rt, alloc, TWO_LATCHES)?;
    optimum_text::<Brand>(alloc, &system, Blank::new(1))
}

// The search finds the way from the second latch to the first before the way back.
#[test]
fn a_chain_begins_with_the_link_that_comes_first(rt: HostRuntime) -> Result<(), Fail> {
    let text = text_of_ring(&rt, rt.alloc()).ok_or("no certificate")?;
    assert!(rt; text.as_slice() == TWO_CERTIFICATE.as_bytes());
    Ok(())
}
