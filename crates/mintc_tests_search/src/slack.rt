//! `slack` of mintc_slack: the slack of each pair at the least cycle, and a design without one.
ghost use Rattle.std.specs.Prelude.{◌≡◌, ◌<◌};

use crate::systems::system_of;
use mintc_graph_walks::Steps;
use mintc_slack::{Slacks, slack};
use mintc_tests_designs::{HELD, HOPELESS, OWN_LOOP, TWO_LATCHES};
use mintc_text::limits::MOST_SLACK;
use mintc_timing::{Pair, System};
use std::alloc::Global;
use std::marker::Brand;
use std::process::Abort;
use std::sync::ledger::{Blank, Ledger};
use std::test::Fail;

/// The slacks of a system, and how many steps were taken; none where it has more elements than slacks are found for.
fn found<L: Ledger>(alloc: Global, system: &System, blank: Blank) -> Option<(Slacks, u64)>
    requires name { blank.name ≡ L.name }
    requires parts { blank.parts ≡ L.parts }
    requires part { 0 < L.parts }
{
    if system.flat().element_count() as usize > MOST_SLACK {
        return None;
    }
    let mut steps = Steps::<L>::open(blank);
    let slacks = slack(alloc, system, &mut steps).ok()?;
    Some((slacks, steps.taken()))
}

/// The slacks of a system.
fn slacks_of(alloc: Global, system: &System) -> Option<Slacks> {
    let (slacks, _) = found::<Brand>(alloc, system, Blank::new(1))?;
    Some(slacks)
}

/// A pair's elements, and its slack.
type Wanted = (u32, u32, i64);

/// A table, its least cycle time as a numerator and a denominator, and the slack of each of its pairs.
type Case = (&'static str, (i128, i128), &'static [Wanted]);

const CASES: &[Case] = &[
    (TWO_LATCHES, (100, 1), &[(0, 1, 0), (1, 0, 0)]),
    (OWN_LOOP, (100, 1), &[(0, 0, 85), (0, 1, 0), (1, 0, 0)]),
    (HELD, (51, 2), &[(0, 1, 0), (1, 0, 0)]),
];

/// Whether these pairs have these slacks.
fn are_slacks(pairs: &[Pair], extra: &[i64], wanted: &[Wanted]) -> bool {
    pairs.len() == wanted.len()
        && extra.len() == wanted.len()
        && pairs
            .iter()
            .zip(wanted)
            .all(|(p, w)| p.from == w.0 && p.to == w.1)
        && extra.iter().zip(wanted).all(|(e, w)| *e == w.2)
}

/// Whether this is the cycle time, and these the slacks of a system's pairs.
fn are_least(system: &System, found: &Slacks, cycle: (i128, i128), wanted: &[Wanted]) -> bool {
    match found {
        Slacks::Least {
            cycle: least,
            extra,
        } => (least.num(), least.den()) == cycle
            && are_slacks(system.pairs(), extra.items(), wanted),
        Slacks::Never => false,
    }
}

/// Whether a system has this least cycle time and these slacks.
fn has_slacks(alloc: Global, system: &System, cycle: (i128, i128), wanted: &[Wanted]) -> bool {
    match slacks_of(alloc, system) {
        Some(found) => are_least(system, &found, cycle, wanted),
        None => false,
    }
}

/// A case has its cycle time and its slacks.
fn is_as_wanted(rt: &impl Abort, alloc: Global, case: &Case) {
    let (table, cycle, wanted) = *case;
    match system_of(rt, alloc, table) {
        Some(system) => assert!(rt; has_slacks(alloc, &system, cycle, wanted), "{table}"),
        None => panic!(rt; "refused"),
    }
}

#[test]
fn each_pair_has_its_slack(rt: HostRuntime) {
    for case in CASES {
        is_as_wanted(&rt, rt.alloc(), case);
    }
}

#[test]
fn a_hopeless_design_has_no_slack(rt: HostRuntime) -> Result<(), Fail> {
    let system = system_of(&rt, rt.alloc(), HOPELESS).ok_or("refused")?;
    assert!(rt; matches!(slacks_of(rt.alloc(), &system), Some(Slacks::Never)));
    Ok(())
}
