//! The text of certificates, which mintc_certificate reads and writes: texts that come back, and the line at fault
//! (refusal 1).

use mintc_certificate::{Certificate, Member, read, write};
use mintc_tests_designs::TWO_CERTIFICATE;
use mintc_text::{Limits, Refusal, Role, Stop};
use std::alloc::{AllocError, Global};
use std::process::Abort;
use std::test::Fail;

/// One member of each kind.
const NEVER: &str =
    "certificate 2\nnever\nchain 11\nstart 1\ncycle 2\norder 3\nspan 4\nwidth 5\napart 6 7\nopen 8\nopened 9\n\
     reach 10 11 2 12 13\nsetup 14\nbound 999999999\nend\n";

/// The text of the certificate that a text is read as.
fn rewritten(alloc: Global, text: &[u8]) -> Option<Vec<u8>> {
    if text.len() > 67_108_864 {
        return None;
    }
    match read(alloc, &Limits::usual(), text) {
        Ok(certificate) => write(alloc, &certificate).ok(),
        Err(_) => None,
    }
}

/// The faulty line of a text, 0 where there is none.
fn fault(alloc: Global, text: &[u8]) -> u32 {
    if text.len() > 67_108_864 {
        return 0;
    }
    match read(alloc, &Limits::usual(), text) {
        Err(
            Stop::Refused(
                Refusal::Syntax {
                    role: Role::Certificate,
                    entry,
                },
            ),
        ) => entry,
        _ => 0,
    }
}

/// A certificate without a schedule of so many members.
fn members(alloc: Global, count: u32) -> Result<String, AllocError> {
    let mut text = format!(in alloc; "certificate 2\nnever\nchain {count}\n")?;
    for _ in 0..count {
        text.push_str("start 1\n")?;
    }
    text.push_str("end\n")?;
    Ok(text)
}

/// What a text is read as is written as that other text.
fn is_rewritten(rt: &impl Abort, alloc: Global, text: &str, wanted: &str) {
    match rewritten(alloc, text.as_bytes()) {
        Some(again) => assert!(rt; again.as_slice() == wanted.as_bytes(), "{wanted}"),
        None => panic!(rt; "refused"),
    }
}

#[test]
fn certificates_are_read_and_written_again(rt: HostRuntime) {
    let alloc = rt.alloc();
    is_rewritten(&rt, alloc, TWO_CERTIFICATE, TWO_CERTIFICATE);
    is_rewritten(&rt, alloc, NEVER, NEVER);
}

#[test]
fn early_departures_and_many_members_are_written_again(rt: HostRuntime) -> Result<(), Fail> {
    let alloc = rt.alloc();
    let early = TWO_CERTIFICATE.replacen(alloc, "departure 0", "departure -100000000000000", 1)?;
    is_rewritten(&rt, alloc, &early, &early);
    let many = members(alloc, 4_096)?;
    is_rewritten(&rt, alloc, &many, &many);
    Ok(())
}

#[test]
fn both_versions_are_read_as_one_value(rt: HostRuntime) -> Result<(), Fail> {
    let first = TWO_CERTIFICATE.replacen(rt.alloc(), "certificate 2", "certificate 1", 1)?;
    is_rewritten(&rt, rt.alloc(), &first, TWO_CERTIFICATE);
    Ok(())
}

/// Whether these are the members of `NEVER`, of one kind each.
fn are_of_never(items: &[Member]) -> bool {
    items.len() == 11
        && matches!(&items[2], Member::Order { phase: 3 })
        && matches!(&items[5], Member::Apart { i: 6, j: 7 })
        && matches!(&items[6], Member::Opening { element: 8 })
        && matches!(&items[7], Member::Opened { element: 9 })
        && is_reach(&items[8])
}

/// Whether this is the member of `NEVER` with a path.
fn is_reach(member: &Member) -> bool {
    match member {
        Member::Reach {
            from: 10,
            to: 11,
            arcs,
        } => arcs.items() == [12, 13].as_slice(),
        _ => false,
    }
}

#[test]
fn members_have_their_numbers(rt: HostRuntime) -> Result<(), Fail> {
    let text = NEVER.as_bytes();
    assert!(rt; text.len() < 1_000);
    match read(rt.alloc(), &Limits::usual(), text) {
        Ok(Certificate::Never { chain }) => assert!(rt; are_of_never(chain.items())),
        _ => panic!(rt; "no chain alone"),
    }
    Ok(())
}

/// A text has its fault at this line, or none.
fn has_fault(rt: &impl Abort, alloc: Global, text: &str, line: u32) {
    assert!(rt; fault(alloc, text.as_bytes()) == line, "{text}");
}

/// Each cut of a text has its fault at the cut, and the whole has none.
fn is_faulty_at_cuts(rt: &impl Abort, alloc: Global, whole: &str) {
    let text = whole.as_bytes();
    let mut line: u32 = 1;
    for (cut, byte) in text.iter().enumerate() {
        assert!(rt; fault(alloc, &text[..cut]) == line, "{cut}");
        line = line.saturating_add((*byte == b'\n') as u32);
    }
    has_fault(rt, alloc, whole, 0);
}

#[test]
fn refusal_1_names_the_line_at_a_cut(rt: HostRuntime) {
    is_faulty_at_cuts(&rt, rt.alloc(), TWO_CERTIFICATE);
    is_faulty_at_cuts(&rt, rt.alloc(), NEVER);
}

#[test]
fn refusal_1_comes_where_the_end_is_missing(rt: HostRuntime) -> Result<(), Fail> {
    let endless = TWO_CERTIFICATE.replacen(rt.alloc(), "end\n", "", 1)?;
    has_fault(&rt, rt.alloc(), &endless, 14);
    Ok(())
}

#[test]
fn refusal_1_names_the_faulty_line(rt: HostRuntime) -> Result<(), Fail> {
    let alloc = rt.alloc();
    for (old, new, line) in &[
        ("certificate 2", "certificate 0", 1),
        ("certificate 2", "certificate 3", 1),
        ("least", "most", 2),
        ("least", "never", 3),
        ("den 1", "den 0", 3),
        ("den 1", "den 100001", 3),
        ("cycle 100", "cycle 100000000000001", 4),
        ("phases 2", "phases 9", 5),
        ("phase 10 30", "phase 10 -1", 7),
        ("departures 2", "departures 1", 10),
        ("departures 2", "departures 3", 11),
        ("departure 0", "departure -0", 9),
        ("departure 0", "departure -100000000000001", 9),
        ("departure 20", "departure 100000000000001", 10),
        ("chain 2", "chain 0", 11),
        ("chain 2", "chain 4097", 11),
        ("chain 2", "chain 1", 13),
        ("chain 2", "chain 3", 14),
        ("reach 0 1 1 0", "reach 0 1 0", 12),
        ("reach 0 1 1 0", "reach 0 1 2 0", 12),
        ("reach 0 1 1 0", "reach 0 1 1 0 0", 12),
        ("reach 0 1 1 0", "reach 0 1 1 1000000000", 12),
        ("reach 0 1 1 0", "reach 0 1 1 00", 12),
        ("reach 0 1 1 0", "start", 12),
        ("reach 0 1 1 0", "apart 1", 12),
        ("reach 0 1 1 0", "bound 1 2", 12),
        ("reach 0 1 1 0", "hold 0 1 1 0", 12),
        ("end\n", "end", 14),
        ("end\n", "end\n\n", 15),
        ("end\n", "end\nend\n", 15),
    ] {
        let text = TWO_CERTIFICATE.replacen(alloc, old, new, 1)?;
        has_fault(&rt, alloc, &text, *line);
    }
    Ok(())
}

#[test]
fn refusal_1_comes_of_too_many_members(rt: HostRuntime) -> Result<(), Fail> {
    let many = members(rt.alloc(), 4_097)?;
    has_fault(&rt, rt.alloc(), &many, 3);
    Ok(())
}

#[test]
fn refusal_1_comes_of_a_line_of_version_2_in_version_1(rt: HostRuntime) -> Result<(), Fail> {
    let alloc = rt.alloc();
    for (old, new, line) in &[
        ("departure 0", "departure -1", 9),
        ("reach 0 1 1 0", "opened 0", 12),
    ] {
        let second = TWO_CERTIFICATE.replacen(alloc, old, new, 1)?;
        has_fault(&rt, alloc, &second, 0);
        let first = second.replacen(alloc, "certificate 2", "certificate 1", 1)?;
        has_fault(&rt, alloc, &first, *line);
    }
    Ok(())
}
