//! `examine` of mintc_checker: certificates that pass, and for each of the seven tests some that fail it first.
ghost use Rattle.mintc_certificate.specs.Ranges.{IsCertificateInRange};

use crate::systems::system_of;
use mintc_certificate::{Certificate, read};
use mintc_checker::{Verdict, examine, examine_flat};
use mintc_tests_designs::{TWO_CERTIFICATE, TWO_ENABLED, TWO_FLOPS, TWO_LATCHES};
use mintc_text::Limits;
use mintc_timing::System;
use std::alloc::Global;
use std::process::Abort;
use std::test::Fail;

/// The verdict of both calls on a certificate, where they agree.
fn agreed(alloc: Global, system: &System, certificate: &Certificate) -> Option<Verdict>
    requires { IsCertificateInRange certificate.now }
{
    let _pairs = system.pairs();
    let of_flat = examine_flat(alloc, system.flat(), system.order(), certificate).ok()?;
    let of_system = examine(alloc, system, certificate).ok()?;
    if of_flat == of_system {
        Some(of_system)
    } else {
        None
    }
}

/// The verdict of both calls on a text of a certificate, where they agree.
fn judged(alloc: Global, system: &System, text: &str) -> Option<Verdict> {
    if text.len() > 1_000 {
        return None;
    }
    let certificate = read(alloc, &Limits::usual(), text.as_bytes()).ok()?;
    agreed(alloc, system, &certificate)
}

/// The verdict on a text after one text in it is put in place of another.
fn judged_with(
    alloc: Global,
    system: &System,
    text: &str,
    old: &str,
    new: &str,
) -> Option<Verdict> {
    let edited = text.replacen(alloc, old, new, 1).ok()?;
    judged(alloc, system, &edited)
}

/// The verdict on a text in version 2 and on the same in version 1, where they agree.
fn judged_in_both(alloc: Global, system: &System, text: &str) -> Option<Verdict> {
    let second = judged(alloc, system, text)?;
    let first = judged_with(alloc, system, text, "certificate 2", "certificate 1")?;
    if first == second { Some(second) } else { None }
}

/// A certificate with one text in place of another, and its verdict.
type Edit = (&'static str, &'static str, Verdict);

/// The verdict on an edited certificate in both versions, where they agree.
fn judged_in_both_with(
    alloc: Global,
    system: &System,
    certificate: &str,
    edit: &Edit,
) -> Option<Verdict> {
    let text = certificate.replacen(alloc, edit.0, edit.1, 1).ok()?;
    judged_in_both(alloc, system, &text)
}

/// Edited certificates have their verdicts.
fn are_judged(rt: &impl Abort, alloc: Global, system: &System, certificate: &str, edits: &[Edit]) {
    for (old, new, verdict) in edits {
        let found = judged_with(alloc, system, certificate, old, new);
        assert!(rt; found == Some(*verdict), "{new}");
    }
}

/// Edited certificates have their verdicts in both versions.
fn are_judged_in_both(
    rt: &impl Abort,
    alloc: Global,
    system: &System,
    certificate: &str,
    edits: &[Edit],
) {
    for edit in edits {
        let found = judged_in_both_with(alloc, system, certificate, edit);
        assert!(rt; found == Some(edit.2), "{}", edit.1);
    }
}

/// Edits of the certificate of two latches.
const OF_LATCHES: &[Edit] = &[
    ("least", "least", Verdict::Valid),
    (
        "phase 0 10\nphase 10 30\ndepartures 2\ndeparture 0\n",
        "phase 0 15\nphase 15 30\ndepartures 2\ndeparture 5\n",
        Verdict::Valid,
    ),
    (
        "den 1\ncycle 100\nphases 2\nphase 0 10\nphase 10 30\ndepartures 2\ndeparture 0\ndeparture 20\n",
        "den 3\ncycle 300\nphases 2\nphase 0 30\nphase 30 90\ndepartures 2\ndeparture 0\ndeparture 60\n",
        Verdict::Valid,
    ),
    (
        "departures 2\ndeparture 0\ndeparture 20\n",
        "departures 1\ndeparture 0\n",
        Verdict::Invalid(1),
    ),
    ("phases 2\nphase 0 10\n", "phases 1\n", Verdict::Invalid(1)),
    ("phase 10 30", "phase 5 30", Verdict::Invalid(2)),
    ("phase 10 30", "phase 10 101", Verdict::Invalid(2)),
    ("departure 20", "departure 21", Verdict::Invalid(4)),
    ("departure 20", "departure 19", Verdict::Invalid(4)),
    ("phase 10 30", "phase 10 29", Verdict::Invalid(5)),
    (
        "chain 2\nreach 0 1 1 0\nreach 1 0 1 1\n",
        "chain 1\nreach 0 1 1 0\n",
        Verdict::Invalid(6),
    ),
    ("reach 0 1 1 0", "reach 0 1 1 1", Verdict::Invalid(6)),
    (
        "reach 0 1 1 0\nreach 1 0 1 1",
        "apart 1 1\ncycle 1",
        Verdict::Invalid(6),
    ),
    ("cycle 100", "cycle 101", Verdict::Invalid(7)),
    (
        "reach 0 1 1 0\nreach 1 0 1 1",
        "start 1\ncycle 1",
        Verdict::Invalid(7),
    ),
];

#[test]
fn certificates_of_latches_are_judged(rt: HostRuntime) -> Result<(), Fail> {
    let alloc = rt.alloc();
    let system = system_of(&rt, alloc, TWO_LATCHES).ok_or("no system")?;
    are_judged_in_both(&rt, alloc, &system, TWO_CERTIFICATE, OF_LATCHES);
    Ok(())
}

/// The certificate of the two flops.
const FLOPS_LEAST: &str =
    "certificate 2\nleast\nden 1\ncycle 100\nphases 1\nphase 0 0\ndepartures 2\ndeparture 0\ndeparture 0\nchain 2\n\
     reach 0 1 1 0\nsetup 1\nend\n";

/// Edits of that, which both versions may say.
const OF_FLOPS: &[Edit] = &[
    ("least", "least", Verdict::Valid),
    ("phase 0 0", "phase 100 100", Verdict::Valid),
    (
        "departures 2\ndeparture 0\n",
        "departures 1\n",
        Verdict::Invalid(1),
    ),
    ("phase 0 0", "phase 101 0", Verdict::Invalid(2)),
    (
        "departures 2\ndeparture 0\n",
        "departures 2\ndeparture 5\n",
        Verdict::Invalid(4),
    ),
    ("cycle 100", "cycle 99", Verdict::Invalid(5)),
    ("reach 0 1 1 0", "reach 0 1 1 1", Verdict::Invalid(6)),
    ("reach 0 1 1 0", "reach 0 1 2 0 1", Verdict::Invalid(6)),
    (
        "reach 0 1 1 0\nsetup 1",
        "width 1\napart 1 1",
        Verdict::Invalid(6),
    ),
    (
        "chain 2\nreach 0 1 1 0\nsetup 1\n",
        "chain 1\nsetup 1\n",
        Verdict::Invalid(6),
    ),
    ("cycle 100", "cycle 101", Verdict::Invalid(7)),
    (
        "reach 0 1 1 0\nsetup 1",
        "reach 1 0 1 1\nsetup 0",
        Verdict::Invalid(7),
    ),
    (
        "reach 0 1 1 0\nsetup 1",
        "open 0\nsetup 0",
        Verdict::Invalid(7),
    ),
];

/// Edits of that, which version 2 alone may say.
const OF_FLOPS_IN_2: &[Edit] = &[
    (
        "departures 2\ndeparture 0\n",
        "departures 2\ndeparture -5\n",
        Verdict::Invalid(4),
    ),
    (
        "reach 0 1 1 0\nsetup 1",
        "opened 0\nspan 1",
        Verdict::Invalid(6),
    ),
];

#[test]
fn certificates_of_flops_are_judged(rt: HostRuntime) -> Result<(), Fail> {
    let alloc = rt.alloc();
    let system = system_of(&rt, alloc, TWO_FLOPS).ok_or("no system")?;
    are_judged_in_both(&rt, alloc, &system, FLOPS_LEAST, OF_FLOPS);
    are_judged(&rt, alloc, &system, FLOPS_LEAST, OF_FLOPS_IN_2);
    Ok(())
}

/// The certificate of the two latches of which the first opens its output late.
const ENABLED_LEAST: &str =
    "certificate 2\nleast\nden 1\ncycle 100\nphases 2\nphase 0 10\nphase 10 24\ndepartures 2\ndeparture -6\n\
     departure 14\nchain 2\nreach 0 1 1 0\nreach 1 0 1 1\nend\n";

/// Edits of that.
const OF_ENABLED: &[Edit] = &[
    ("least", "least", Verdict::Valid),
    (
        "departure -6\ndeparture 14\n",
        "departure -5\ndeparture 15\n",
        Verdict::Invalid(5),
    ),
    (
        "24\ndepartures 2\ndeparture -6\ndeparture 14\n",
        "25\ndepartures 2\ndeparture -5\ndeparture 15\n",
        Verdict::Valid,
    ),
    (
        "departures 2\ndeparture -6\n",
        "departures 1\n",
        Verdict::Invalid(1),
    ),
    ("phase 10 24", "phase 9 24", Verdict::Invalid(2)),
    (
        "departure -6\ndeparture 14\n",
        "departure -7\ndeparture 13\n",
        Verdict::Invalid(4),
    ),
    ("departure -6", "departure 0", Verdict::Invalid(4)),
    ("phase 10 24", "phase 10 23", Verdict::Invalid(5)),
    ("phase 0 10", "phase 0 9", Verdict::Invalid(5)),
    ("reach 1 0 1 1", "reach 1 0 1 0", Verdict::Invalid(6)),
    ("chain 2\nreach 0 1 1 0\n", "chain 1\n", Verdict::Invalid(6)),
    ("cycle 100", "cycle 101", Verdict::Invalid(7)),
    (
        "reach 0 1 1 0\nreach 1 0 1 1",
        "opened 0\nspan 1",
        Verdict::Invalid(7),
    ),
];

#[test]
fn certificates_with_enable_delays_are_judged(rt: HostRuntime) -> Result<(), Fail> {
    let alloc = rt.alloc();
    let system = system_of(&rt, alloc, TWO_ENABLED).ok_or("no system")?;
    are_judged(&rt, alloc, &system, ENABLED_LEAST, OF_ENABLED);
    assert!(rt; judged_in_both(alloc, &system, TWO_CERTIFICATE) == Some(Verdict::Valid));
    Ok(())
}

/// Edits of a certificate where a bound is met: one has a loop by itself in place of a path.
const OF_MET: &[Edit] = &[
    ("least", "least", Verdict::Valid),
    (
        "chain 2\nreach 0 1 1 0\n",
        "chain 2\nbound 0\n",
        Verdict::Invalid(6),
    ),
];

/// The certificate as it is where a bound is broken.
const OF_BROKEN: &[Edit] = &[("least", "least", Verdict::Invalid(3))];

/// The bound that a table gets in place of none, and the edits of its certificate.
const OF_BOUNDS: &[(&str, &[Edit])] = &[
    ("bounds 1\nbound o o 100 1\n", OF_MET),
    ("bounds 1\nbound o o 101 1\n", OF_BROKEN),
];

/// The system of an edited table.
fn edited_system(
    rt: &impl Abort,
    alloc: Global,
    table: &str,
    old: &str,
    new: &str,
) -> Option<System> {
    let text = table.replacen(alloc, old, new, 1).ok()?;
    system_of(rt, alloc, &text)
}

/// The edited certificate of a table has its verdicts where the table has a bound.
fn bound_is_judged(
    rt: &impl Abort,
    alloc: Global,
    optimum: &(&str, &str),
    bound: &str,
    edits: &[Edit],
) -> Result<(), Fail> {
    let (table, certificate) = *optimum;
    let system = edited_system(rt, alloc, table, "bounds 0\n", bound).ok_or("no system")?;
    are_judged(rt, alloc, &system, certificate, edits);
    Ok(())
}

/// Tables, and their certificates.
const OPTIMA: &[(&str, &str)] = &[
    (TWO_LATCHES, TWO_CERTIFICATE),
    (TWO_FLOPS, FLOPS_LEAST),
    (TWO_ENABLED, ENABLED_LEAST),
];

#[test]
fn certificates_with_bounds_are_judged(rt: HostRuntime) -> Result<(), Fail> {
    for optimum in OPTIMA {
        for (bound, edits) in OF_BOUNDS {
            bound_is_judged(&rt, rt.alloc(), optimum, bound, edits)?;
        }
    }
    Ok(())
}

/// One latch that a bound leaves no room.
const STUCK: &str =
    "table 3\nphases 1\nphase p\nelements 1\nelement a 1 latch 10 - 5 5 5 5 0\ninner 0\narcs 0\nbounds 1\n\
     bound e1 s1 -9 0\nend\n";

/// The certificate of that latch.
const STUCK_NEVER: &str = "certificate 2\nnever\nchain 3\nopen 0\nsetup 0\nbound 0\nend\n";

/// The verdict on the certificate of that latch on its edited table.
fn judged_on(rt: &impl Abort, alloc: Global, edit: &Edit) -> Option<Verdict> {
    let system = edited_system(rt, alloc, STUCK, edit.0, edit.1)?;
    judged_in_both(alloc, &system, STUCK_NEVER)
}

/// Edits of that.
const OF_STUCK: &[Edit] = &[
    ("never", "never", Verdict::Valid),
    ("bound 0", "bound 1", Verdict::Invalid(6)),
    ("chain 3\nopen 0\n", "chain 2\n", Verdict::Invalid(6)),
    ("bound 0", "span 1", Verdict::Invalid(7)),
];

/// An edit of that, which version 2 alone may say.
const OF_STUCK_IN_2: &[Edit] = &[(
    "chain 3\nopen 0\nsetup 0\n",
    "chain 2\nopened 0\n",
    Verdict::Valid,
)];

/// Edits of the table, and the verdict on that certificate.
const OF_STUCK_TABLE: &[Edit] = &[
    ("5 5 0\n", "9 9 0\n", Verdict::Valid),
    ("-9", "-10", Verdict::Invalid(7)),
    (
        "5 5 0\ninner 0\narcs 0\nbounds 1\nbound e1 s1 -9",
        "6 6 0\ninner 0\narcs 0\nbounds 1\nbound e1 s1 -10",
        Verdict::Valid,
    ),
    ("5 5 0\n", "4 4 0\n", Verdict::Invalid(7)),
];

#[test]
fn chains_alone_are_judged(rt: HostRuntime) -> Result<(), Fail> {
    let alloc = rt.alloc();
    let system = system_of(&rt, alloc, STUCK).ok_or("no system")?;
    are_judged_in_both(&rt, alloc, &system, STUCK_NEVER, OF_STUCK);
    are_judged(&rt, alloc, &system, STUCK_NEVER, OF_STUCK_IN_2);
    Ok(())
}

#[test]
fn chains_alone_are_judged_on_other_tables(rt: HostRuntime) {
    for edit in OF_STUCK_TABLE {
        let found = judged_on(&rt, rt.alloc(), edit);
        assert!(rt; found == Some(edit.2), "{}", edit.1);
    }
}
