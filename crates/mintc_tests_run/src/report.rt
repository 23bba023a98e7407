//! mintc_report: the line of each refusal and of verdicts; with memory they are there.
use mintc_checker::Verdict;
use mintc_report::verdict_text;
use mintc_text::{Kind, Numbers, Refusal, Role};
use mintc_text_refusals::refusal_text;
use std::alloc::Global;
use std::process::Abort;
use std::test::Fail;

/// A refusal has this line.
fn shows(rt: &impl Abort, alloc: Global, refusal: Refusal, line: &str) {
    match refusal_text(alloc, &refusal) {
        Ok(text) => assert!(rt; text.as_slice() == line.as_bytes(), "{line}"),
        Err(_) => panic!(rt; "no memory"),
    }
}

#[test]
fn refusals_1_2_and_10_have_their_lines(rt: HostRuntime) {
    let alloc = rt.alloc();
    shows(
        &rt,
        alloc,
        Refusal::Syntax {
            role: Role::Netlist,
            entry: 12,
        },
        "refused 1 netlist 12\n",
    );
    shows(
        &rt,
        alloc,
        Refusal::TooLong { role: Role::Delays },
        "refused 2 delays\n",
    );
    shows(
        &rt,
        alloc,
        Refusal::NoInstance {
            role: Role::Clock,
            entry: 0,
        },
        "refused 10 clock 0\n",
    );
}

#[test]
fn refusals_3_to_9_have_their_lines(rt: HostRuntime) {
    let alloc = rt.alloc();
    shows(&rt, alloc, Refusal::NameTwice { entry: 3 }, "refused 3 3\n");
    shows(&rt, alloc, Refusal::NoModule { entry: 4 }, "refused 4 4\n");
    shows(
        &rt,
        alloc,
        Refusal::Recursive { entry: 50 },
        "refused 5 50\n",
    );
    shows(&rt, alloc, Refusal::NoPin { entry: 6 }, "refused 6 6\n");
    shows(&rt, alloc, Refusal::Width { entry: 7 }, "refused 7 7\n");
    shows(
        &rt,
        alloc,
        Refusal::TwoDrivers { entry: 8 },
        "refused 8 8\n",
    );
    shows(
        &rt,
        alloc,
        Refusal::TopUnclear { count: 0 },
        "refused 9 0\n",
    );
}

#[test]
fn refusals_11_to_15_18_and_22_have_their_lines(rt: HostRuntime) {
    let alloc = rt.alloc();
    shows(&rt, alloc, Refusal::NoArc { entry: 11 }, "refused 11 11\n");
    shows(&rt, alloc, Refusal::Negative { entry: 1 }, "refused 12 1\n");
    shows(
        &rt,
        alloc,
        Refusal::BadCell { entry: 2, rule: 8 },
        "refused 13 2 8\n",
    );
    shows(
        &rt,
        alloc,
        Refusal::BadClock { entry: 0, rule: 1 },
        "refused 14 0 1\n",
    );
    shows(
        &rt,
        alloc,
        Refusal::NoPhase { element: 1999 },
        "refused 15 1999\n",
    );
    shows(&rt, alloc, Refusal::Range { entry: 18 }, "refused 18 18\n");
    shows(&rt, alloc, Refusal::Corner { file: 4 }, "refused 22 4\n");
}

#[test]
fn refusals_16_17_19_and_21_have_their_lines(rt: HostRuntime) -> Result<(), Fail> {
    let alloc = rt.alloc();
    let arcs = Numbers::new(vec![in alloc; 5, 0, 4294967295]?);
    shows(
        &rt,
        alloc,
        Refusal::CombinationalLoop { arcs },
        "refused 16 3 5 0 4294967295\n",
    );
    shows(
        &rt,
        alloc,
        Refusal::Limit {
            kind: Kind::Leaves,
            count: 1_000_000_000,
        },
        "refused 17 leaves 1000000000\n",
    );
    shows(
        &rt,
        alloc,
        Refusal::PhaseMismatch {
            design: 2,
            schedule: 8,
        },
        "refused 19 2 8\n",
    );
    shows(
        &rt,
        alloc,
        Refusal::PathRange { element: 0, bit: 3 },
        "refused 21 0 3\n",
    );
    Ok(())
}

/// A verdict has this line.
fn says(rt: &impl Abort, alloc: Global, verdict: Verdict, line: &str) {
    match verdict_text(alloc, &verdict) {
        Ok(text) => assert!(rt; text.as_slice() == line.as_bytes(), "{line}"),
        Err(_) => panic!(rt; "no memory"),
    }
}

#[test]
fn verdicts_have_their_lines(rt: HostRuntime) {
    let alloc = rt.alloc();
    says(&rt, alloc, Verdict::Valid, "valid\n");
    says(&rt, alloc, Verdict::Invalid(1), "invalid 1\n");
    says(&rt, alloc, Verdict::Invalid(7), "invalid 7\n");
}
