//! `safe` of mintc_safe: what a hold costs, each field of a safe certificate, a design without holds, and one whose
//! hold can't be kept.
ghost use Rattle.std.specs.Prelude.{◌≡◌, ◌<◌};

use crate::systems::system_of;
use mintc_certificate::{Certificate, Member};
use mintc_graph_walks::Steps;
use mintc_optimise::optimise;
use mintc_safe::{SafeCertificate, SafeMember, safe};
use mintc_tests_designs::{HELD, HELD_TOO_LONG, TWO_LATCHES};
use mintc_timing::{Schedule, System};
use std::alloc::Global;
use std::marker::Brand;
use std::process::Abort;
use std::sync::ledger::{Blank, Ledger};
use std::test::Fail;

/// The safe certificate of a system.
fn found<L: Ledger>(alloc: Global, system: &System, blank: Blank) -> Option<SafeCertificate>
    requires name { blank.name ≡ L.name }
    requires parts { blank.parts ≡ L.parts }
    requires part { 0 < L.parts }
{
    let mut steps = Steps::<L>::open(blank);
    safe(alloc, system, &mut steps).ok()
}

/// The safe certificate of a table.
fn certificate_of(rt: &impl Abort, alloc: Global, table: &str) -> Option<SafeCertificate> {
    let system = system_of(rt, alloc, table)?;
    found::<Brand>(alloc, &system, Blank::new(1))
}

/// The certificate of a system, with no hold kept.
fn optimum<L: Ledger>(alloc: Global, system: &System, blank: Blank) -> Option<Certificate>
    requires name { blank.name ≡ L.name }
    requires parts { blank.parts ≡ L.parts }
    requires part { 0 < L.parts }
{
    let mut steps = Steps::<L>::open(blank);
    optimise(alloc, system, &mut steps).ok()
}

/// The cycle time of a certificate: its numerator and its denominator.
fn cycle_of(certificate: &Certificate) -> Option<(i64, i64)> {
    match certificate {
        Certificate::Least { schedule, .. } => Some((schedule.cycle, schedule.den)),
        Certificate::Never { .. } => None,
    }
}

/// The least cycle time of a table, with no hold kept.
fn least(rt: &impl Abort, alloc: Global, table: &str) -> Option<(i64, i64)> {
    let system = system_of(rt, alloc, table)?;
    let certificate = optimum::<Brand>(alloc, &system, Blank::new(1))?;
    cycle_of(&certificate)
}

/// A schedule's denominator, cycle, starts and widths, and the departures.
type Wanted = (i64, i64, &'static [i64], &'static [i64], &'static [i64]);

/// Whether a schedule and departures are these.
fn are(schedule: &Schedule, departures: &[i64], wanted: &Wanted) -> bool {
    let (den, cycle, starts, widths, all) = *wanted;
    schedule.den == den
        && schedule.cycle == cycle
        && schedule.starts.items() == starts
        && schedule.widths.items() == widths
        && departures == all
}

/// Whether a certificate has this schedule and these departures.
fn has_times(certificate: &SafeCertificate, wanted: &Wanted) -> bool {
    match certificate {
        SafeCertificate::Least {
            schedule,
            departures,
            ..
        } => are(schedule, departures.items(), wanted),
        SafeCertificate::Never { .. } => false,
    }
}

const OF_HELD: Wanted = (1, 29, &[0], &[2], &[0, 2]);

#[test]
fn a_hold_costs_cycle_time(rt: HostRuntime) -> Result<(), Fail> {
    let certificate = certificate_of(&rt, rt.alloc(), HELD).ok_or("no certificate")?;
    assert!(rt; has_times(&certificate, &OF_HELD));
    assert!(rt; least(&rt, rt.alloc(), HELD) == Some((51, 2)));
    Ok(())
}

const OF_TWO_LATCHES: Wanted = (1, 100, &[0, 10], &[10, 30], &[0, 20]);

#[test]
fn a_design_without_holds_keeps_its_least_cycle(rt: HostRuntime) -> Result<(), Fail> {
    let certificate = certificate_of(&rt, rt.alloc(), TWO_LATCHES).ok_or("no certificate")?;
    assert!(rt; has_times(&certificate, &OF_TWO_LATCHES));
    Ok(())
}

/// Whether a member is the hold of the first element, which the second one feeds over the second arc.
fn is_hold(member: &SafeMember) -> bool {
    match member {
        SafeMember::Hold {
            from: 1,
            to: 0,
            arcs,
        } => arcs.items() == [1].as_slice(),
        _ => false,
    }
}

/// Whether a member is the path from the first element to the second over the first arc.
fn is_reach(member: &SafeMember) -> bool {
    match member {
        SafeMember::Plain {
            member: Member::Reach {
                from: 0,
                to: 1,
                arcs,
            },
        } => arcs.items() == [0].as_slice(),
        _ => false,
    }
}

/// Whether a member is the opening of the first element.
fn is_opening(member: &SafeMember) -> bool {
    matches!(
        member,
        SafeMember::Plain {
            member: Member::Opening { element: 0 }
        }
    )
}

/// Whether a member is the setup of the second element.
fn is_setup(member: &SafeMember) -> bool {
    matches!(
        member,
        SafeMember::Plain {
            member: Member::Setup { element: 1 }
        }
    )
}

/// Whether a member is the width of the phase.
fn is_width(member: &SafeMember) -> bool {
    matches!(
        member,
        SafeMember::Plain {
            member: Member::Width { phase: 1 }
        }
    )
}

/// Whether these are the members of the chain of a hold, from any of them on.
fn are_of_hold(chain: &[SafeMember]) -> bool {
    chain.len() == 4
        && chain.iter().any(is_opening)
        && chain.iter().any(is_reach)
        && chain.iter().any(is_setup)
        && chain.iter().any(is_hold)
}

#[test]
fn a_chain_names_the_hold_that_it_keeps(rt: HostRuntime) -> Result<(), Fail> {
    match certificate_of(&rt, rt.alloc(), HELD) {
        Some(SafeCertificate::Least { chain, .. }) => assert!(rt; are_of_hold(chain.items())),
        _ => panic!(rt; "no schedule"),
    }
    Ok(())
}

/// Whether these are the members of the chain of a hold that can't be kept, from any of them on.
fn are_of_long_hold(chain: &[SafeMember]) -> bool {
    chain.len() == 2 && chain.iter().any(is_width) && chain.iter().any(is_hold)
}

#[test]
fn a_hold_longer_than_its_path_is_never_kept(rt: HostRuntime) -> Result<(), Fail> {
    match certificate_of(&rt, rt.alloc(), HELD_TOO_LONG) {
        Some(SafeCertificate::Never { chain }) => assert!(rt; are_of_long_hold(chain.items())),
        _ => panic!(rt; "a schedule"),
    }
    Ok(())
}
