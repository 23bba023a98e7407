//! `count_pairs` and `refuse_pairs` of mintc_paths_count: small designs whose pairs are listed and counted, and the
//! limits.
use crate::cases::{
    ABOVE_LIMIT, AT_LIMIT, Case, DIAMOND, ELEVEN, ENDS, INNER, NINE, NONE, PARALLEL, PATHS, SELVES,
    UNLED, push_elements, push_row, text_of,
};
use crate::systems::{design_of_text, system_of_text};
use mintc_order::order;
use mintc_paths_count::{count_pairs, refuse_pairs};
use mintc_text::{Limits, Refusal, Stop};
use mintc_timing::Flat;
use std::alloc::{AllocError, Global};
use std::process::Abort;
use std::test::Fail;

/// How many pairs `extremes` lists for a table.
fn listed(rt: &impl Abort, alloc: Global, text: &str) -> Option<u64> {
    match system_of_text(rt, alloc, text) {
        Ok(system) => Some(system.pairs().len() as u64),
        Err(_) => None,
    }
}

/// Adds arcs from six outputs to one inner bit, and from there and from one output to three inputs.
fn push_few(alloc: Global, text: &mut String) -> Result<(), AllocError> {
    text.push_str("inner 1\narcs 10\n")?;
    for from in 0..6 {
        let delay = from + 1;
        push_row(text, format!(in alloc; "arc q{from} n0 {delay} {delay}\n"))?;
    }
    text.push_str("arc n0 d1 0 0\narc n0 d4 7 8\narc q2 d3 9 9\narc q2 d4 1 1\nbounds 0\nend\n")
}

/// A table in which few inputs are entered, so that pairs are counted from the inputs back.
fn few_text(alloc: Global) -> Result<String, AllocError> {
    let mut text = String::from_str(alloc, "table 1\nphases 1\nphase p\nelements 6\n")?;
    push_elements(&mut text, 6)?;
    push_few(alloc, &mut text)?;
    Ok(text)
}

/// Adds so many elements, and their arcs to and from the inner bit.
fn push_crowd(alloc: Global, text: &mut String, elements: usize) -> Result<(), AllocError> {
    for element in 0..elements {
        push_row(text, format!(in alloc; "element e{element} 1 0 - 0 0 0\n"))?;
    }
    let arcs = elements.saturating_mul(2);
    push_row(text, format!(in alloc; "inner 1\narcs {arcs}\n"))?;
    for element in 0..elements {
        push_row(
            text,
            format!(in alloc; "arc q{element} n0 1 1\narc n0 d{element} 1 1\n"),
        )?;
    }
    text.push_str("bounds 0\nend\n")
}

/// A table where so many elements lead to one inner bit, which leads to each of them.
fn crowd_text(alloc: Global, elements: usize) -> Result<String, AllocError> {
    let mut text = format!(in alloc; "table 1\nphases 1\nphase p\nelements {elements}\n")?;
    push_crowd(alloc, &mut text, elements)?;
    Ok(text)
}

/// What `count_pairs` gives for a design.
fn counted_of(alloc: Global, flat: &Flat) -> Result<u64, Stop> {
    let order = order(alloc, flat)?;
    count_pairs(alloc, &Limits::usual(), flat, &order)
}

/// What `count_pairs` gives for a table.
fn counted(rt: &impl Abort, alloc: Global, text: &str) -> Result<u64, Stop> {
    let flat = design_of_text(rt, alloc, text)?;
    counted_of(alloc, &flat)
}

/// What `refuse_pairs` says of a table.
fn refused(rt: &impl Abort, alloc: Global, text: &str) -> Result<(), Stop> {
    let flat = design_of_text(rt, alloc, text)?;
    let order = order(alloc, &flat)?;
    refuse_pairs(alloc, &Limits::usual(), &flat, &order)
}

/// What `count_pairs` gives for a case.
fn counted_case(rt: &impl Abort, alloc: Global, case: &Case) -> Result<u64, Stop> {
    match text_of(alloc, case) {
        Ok(text) => counted(rt, alloc, &text),
        Err(_) => Err(Stop::OutOfMemory),
    }
}

/// What `count_pairs` gives where so many elements lead to one inner bit.
fn counted_crowd(rt: &impl Abort, alloc: Global, elements: usize) -> Result<u64, Stop> {
    match crowd_text(alloc, elements) {
        Ok(text) => counted(rt, alloc, &text),
        Err(_) => Err(Stop::OutOfMemory),
    }
}

/// How many pairs are counted for a case, where as many are listed.
fn counted_as_listed(rt: &impl Abort, alloc: Global, case: &Case) -> Option<u64> {
    let text = text_of(alloc, case).ok()?;
    let count = counted(rt, alloc, &text).ok();
    if count == listed(rt, alloc, &text) {
        count
    } else {
        None
    }
}

#[test]
fn as_many_pairs_are_counted_as_listed(rt: HostRuntime) {
    for case in &[
        NINE, INNER, PATHS, AT_LIMIT, UNLED, NONE, PARALLEL, SELVES, ENDS, DIAMOND, ELEVEN,
    ] {
        let count = counted_as_listed(&rt, rt.alloc(), case);
        assert!(rt; count.is_some(), "{}", case.name);
    }
}

#[test]
fn pairs_are_counted_from_few_inputs_back(rt: HostRuntime) -> Result<(), Fail> {
    let text = few_text(rt.alloc())?;
    assert!(rt; counted(&rt, rt.alloc(), &text).ok() == Some(13));
    Ok(())
}

#[test]
fn the_most_pairs_that_there_may_be_are_counted(rt: HostRuntime) {
    assert!(rt; counted_crowd(&rt, rt.alloc(), 447).ok() == Some(199_809));
}

#[test]
fn refusal_17_has_the_count_of_pairs(rt: HostRuntime) {
    match counted_crowd(&rt, rt.alloc(), 448) {
        Err(Stop::Refused(Refusal::Limit { kind: _, count })) => {
            assert!(rt; count == 200_704, "{count}");
        }
        _ => panic!(rt; "accepted"),
    }
}

#[test]
fn refusal_21_comes_where_a_path_is_too_long(rt: HostRuntime) {
    match counted_case(&rt, rt.alloc(), &ABOVE_LIMIT) {
        Err(Stop::Refused(Refusal::PathRange { element, bit })) => {
            assert!(rt; element == 0 && bit == 0, "{element} {bit}");
        }
        _ => panic!(rt; "accepted"),
    }
}

#[test]
fn pairs_are_refused_where_their_count_is(rt: HostRuntime) -> Result<(), Fail> {
    for case in &[NINE, INNER, PATHS, AT_LIMIT, NONE, ENDS, ABOVE_LIMIT] {
        let text = text_of(rt.alloc(), case)?;
        let is_counted = counted(&rt, rt.alloc(), &text).is_ok();
        assert!(rt;
            refused(&rt, rt.alloc(), &text).is_ok() == is_counted,
            "{}",
            case.name
        );
    }
    Ok(())
}

#[test]
fn pairs_that_are_plainly_few_are_accepted(rt: HostRuntime) -> Result<(), Fail> {
    let text = crowd_text(rt.alloc(), 447)?;
    assert!(rt; refused(&rt, rt.alloc(), &text).is_ok());
    let text = crowd_text(rt.alloc(), 448)?;
    assert!(rt; refused(&rt, rt.alloc(), &text).is_err());
    Ok(())
}
