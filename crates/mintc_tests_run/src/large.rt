//! Runs within the large limits: designs that `run` refuses are answered, and what is one past a limit is refused
//! (refusal 17).
use super::harness::{CLOCK, Wanted, is_answered, is_wanted, run_large};
use super::limits::{CHAINS, LEAVES, many_departures, many_elements, modules};
use mintc_command::Status;
use mintc_tests_designs::{TWO_CELLS, TWO_LATCHES, shelf_of};
use mintc_text::OutOfMemory;
use std::alloc::{AllocError, Global};
use std::process::Abort;
use std::test::Fail;

/// A run within the large limits ends as it may.
fn is_large(
    rt: &impl Abort,
    alloc: Global,
    files: &[(&str, &str)],
    line: &str,
    wanted: Wanted<'_>,
) -> Result<(), OutOfMemory> {
    let (status, taken) = run_large(alloc, files, line)?;
    assert!(rt; is_wanted(status, taken.as_slice(), wanted), "{}", wanted.1);
    Ok(())
}

/// A run within the large limits is refused with this answer.
fn is_too_large(
    rt: &impl Abort,
    alloc: Global,
    files: &[(&str, &str)],
    line: &str,
    answer: &str,
) -> Result<(), OutOfMemory> {
    is_large(rt, alloc, files, line, (Status::Refused, answer, &[""]))
}

/// A run within the usual limits is refused with this answer.
fn is_refused_as_usual(
    rt: &impl Abort,
    alloc: Global,
    files: &[(&str, &str)],
    line: &str,
    answer: &str,
) -> Result<(), OutOfMemory> {
    let mut shelf = shelf_of(alloc, files, &[])?;
    let wanted = (Status::Refused, answer.as_bytes());
    is_answered(rt, alloc, &mut shelf, line, None, wanted);
    Ok(())
}

// The usual limits have 2,000 elements.
#[test]
fn tables_of_2001_and_of_20000_elements_are_answered(rt: HostRuntime) -> Result<(), Fail> {
    let alloc = rt.alloc();
    for count in &[2_001, 20_000] {
        let front = many_departures(alloc, *count)?;
        let table = many_elements(alloc, *count)?;
        let wanted = (Status::Done, front.as_str(), CHAINS);
        is_large(&rt, alloc, &[("t", &table)], "optimise table t", wanted)?;
    }
    Ok(())
}

#[test]
fn slacks_are_of_2000_elements_at_most(rt: HostRuntime) -> Result<(), Fail> {
    let alloc = rt.alloc();
    let most = many_elements(alloc, 2_000)?;
    let slacks = (
        Status::Done,
        "cycle 100/1\n",
        ["slack a b 0\nslack b a 0\n"].as_slice(),
    );
    is_large(&rt, alloc, &[("t", &most)], "slack table t", slacks)?;
    let more = many_elements(alloc, 2_001)?;
    let answer = "refused 17 elements 2001\n";
    is_too_large(&rt, alloc, &[("t", &more)], "slack table t", answer)?;
    Ok(())
}

/// The table of the two latches, with so many inner bits that no arc enters or leaves.
fn with_inner(alloc: Global, count: u32) -> Result<String, AllocError> {
    let row = format!(in alloc; "inner {count}\n")?;
    TWO_LATCHES.replacen(alloc, "inner 0\n", &row, 1)
}

#[test]
fn refusal_17_of_large_tables(rt: HostRuntime) -> Result<(), Fail> {
    let alloc = rt.alloc();
    for (table, answer) in [
        (many_elements(alloc, 20_001)?, "refused 17 elements 20001\n"),
        (with_inner(alloc, 8_388_609)?, "refused 17 inner 8388609\n"),
    ] {
        is_too_large(&rt, alloc, &[("t", &table)], "optimise table t", answer)?;
    }
    Ok(())
}

/// A run of `optimise` within the large limits on a netlist is refused with this answer.
fn is_too_large_netlist(
    rt: &impl Abort,
    alloc: Global,
    netlist: &str,
    answer: &str,
) -> Result<(), OutOfMemory> {
    let files = [
        ("v", netlist),
        ("d", "(DELAYFILE)"),
        ("c", TWO_CELLS),
        ("k", CLOCK),
    ];
    is_too_large(rt, alloc, &files, "optimise files v d c k", answer)
}

#[test]
fn refusal_17_of_scopes_depth_and_leaves_of_large_netlists(rt: HostRuntime) -> Result<(), Fail> {
    let alloc = rt.alloc();
    for (count, instances, body, answer) in &[
        (20, 2, "", "refused 17 scopes 1048575\n"),
        (33, 1, "", "refused 17 depth 33\n"),
        (19, 2, LEAVES, "refused 17 leaves 1048576\n"),
    ] {
        let netlist = modules(alloc, *count, *instances, body)?;
        is_too_large_netlist(&rt, alloc, &netlist, answer)?;
    }
    Ok(())
}

/// A table of so many latches, each of which leads to each.
fn each_to_each(alloc: Global, count: usize) -> Result<String, AllocError> {
    let mut text = format!(in alloc; "table 1\nphases 1\nphase p\nelements {count}\n")?;
    for _ in 0..count {
        text.push_str("element a 1 0 - 0 0 0\n")?;
    }
    let arcs = count.saturating_mul(2);
    text.push_str(&format!(in alloc; "inner 1\narcs {arcs}\n")?)?;
    for number in 0..count {
        text.push_str(&format!(in alloc; "arc q{number} n0 0 0\narc n0 d{number} 0 0\n")?)?;
    }
    text.push_str("bounds 0\nend\n")?;
    Ok(text)
}

// 448 latches have more pairs than the usual limits.
#[test]
fn a_table_of_200704_pairs_is_answered(rt: HostRuntime) -> Result<(), Fail> {
    let alloc = rt.alloc();
    let few = each_to_each(alloc, 448)?;
    let answer = "refused 17 pairs 200704\n";
    is_refused_as_usual(&rt, alloc, &[("t", &few)], "report table t", answer)?;
    let (status, _) = run_large(alloc, &[("t", &few)], "report table t")?;
    assert!(&rt; status == Status::Done);
    Ok(())
}

/// A certificate that no schedule is right, with so many members.
fn members(alloc: Global, count: u32) -> Result<String, AllocError> {
    let mut text = format!(in alloc; "certificate 2\nnever\nchain {count}\n")?;
    for _ in 0..count {
        text.push_str("start 1\n")?;
    }
    text.push_str("end\n")?;
    Ok(text)
}

// The usual limits have 4,096 members.
#[test]
fn a_certificate_of_4097_members_is_read(rt: HostRuntime) -> Result<(), Fail> {
    let alloc = rt.alloc();
    let chain = members(alloc, 4_097)?;
    let files = [("t", TWO_LATCHES), ("x", chain.as_str())];
    let answer = "refused 1 certificate 3\n";
    is_refused_as_usual(&rt, alloc, &files, "verify table t x", answer)?;
    let wanted = (Status::Found, "invalid 6\n", [""].as_slice());
    is_large(&rt, alloc, &files, "verify table t x", wanted)?;
    Ok(())
}

#[test]
fn refusal_1_of_more_than_32768_members(rt: HostRuntime) -> Result<(), Fail> {
    let alloc = rt.alloc();
    let chain = members(alloc, 32_769)?;
    let files = [("t", TWO_LATCHES), ("x", chain.as_str())];
    let answer = "refused 1 certificate 3\n";
    is_too_large(&rt, alloc, &files, "verify table t x", answer)?;
    Ok(())
}
