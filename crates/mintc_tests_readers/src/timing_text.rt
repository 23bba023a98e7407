//! Tables and schedules of mintc_timing_text: their values, the line at fault (refusal 1), and the limits that are
//! counted while a table is read (refusal 17).

use mintc_tests_designs::{TWO_ENABLED, TWO_FLOPS, TWO_LATCHES, TWO_SCHEDULE};
use mintc_text::{Kind, Limits, Refusal, Role, Stop};
use mintc_timing::{Element, Flat, TimingArc};
use mintc_timing_text::{read_schedule, read_table};
use std::alloc::{AllocError, Global};
use std::process::Abort;
use std::test::Fail;

/// The faulty line of a table, 0 where there is none.
fn table_fault(alloc: Global, text: &[u8]) -> u32 {
    if text.len() > 67_108_864 {
        return 0;
    }
    match read_table(alloc, &Limits::usual(), text) {
        Err(
            Stop::Refused(
                Refusal::Syntax {
                    role: Role::Table,
                    entry,
                },
            ),
        ) => entry,
        _ => 0,
    }
}

/// The faulty line of a schedule, 0 where there is none.
fn schedule_fault(text: &[u8]) -> u32 {
    if text.len() > 67_108_864 {
        return 0;
    }
    match read_schedule(text) {
        Err(
            Refusal::Syntax {
                role: Role::Schedule,
                entry,
            },
        ) => entry,
        _ => 0,
    }
}

/// The quantity for which a table is refused, and its count.
fn table_limit(alloc: Global, text: &[u8]) -> Option<(Kind, u64)> {
    if text.len() > 67_108_864 {
        return None;
    }
    match read_table(alloc, &Limits::usual(), text) {
        Err(Stop::Refused(Refusal::Limit { kind, count })) => Some((kind, count)),
        _ => None,
    }
}

/// The design of a table.
fn design(rt: &impl Abort, alloc: Global, text: &str) -> Option<Flat> {
    assert!(rt; text.len() < 1_000);
    read_table(alloc, &Limits::usual(), text.as_bytes()).ok()
}

/// Adds a head with a count, and this row so many times.
fn add_rows(
    text: &mut String,
    alloc: Global,
    head: &str,
    count: u32,
    row: &str,
) -> Result<(), AllocError> {
    text.push_str(&format!(in alloc; "{head} {count}\n")?)?;
    for _ in 0..count {
        text.push_str(row)?;
    }
    Ok(())
}

/// A table with so many phases, elements and bounds.
fn table_of(alloc: Global, phases: u32, elements: u32, bounds: u32) -> Result<String, AllocError> {
    let mut text = String::new(alloc);
    let element = "element e 1 0 - 0 0 0\n";
    add_rows(&mut text, alloc, "table 1\nphases", phases, "phase p\n")?;
    add_rows(&mut text, alloc, "elements", elements, element)?;
    add_rows(
        &mut text,
        alloc,
        "inner 0\narcs 0\nbounds",
        bounds,
        "bound o s1 5 1\n",
    )?;
    text.push_str("end\n")?;
    Ok(text)
}

/// Whether this is the second latch of the ring.
fn is_second(element: &Element) -> bool {
    element.name.bytes() == b"b".as_slice()
        && matches!(
            element,
            Element {
                phase: 2,
                flop: false,
                setup: 10,
                has_hold: false,
                dq_min: 10,
                dq_max: 10,
                cq_min: 10,
                cq_max: 10,
                width: 0,
                ..
            }
        )
}

/// Whether this is the second arc of the ring.
fn is_second_arc(arc: &TimingArc) -> bool {
    arc.from == 3 && arc.to == 0 && arc.min == 60 && arc.max == 60
}

/// Whether a design has two phases, two elements and two arcs, of which the second ones are those of the ring.
fn is_ring(design: &Flat) -> bool {
    match (design.elements(), design.arcs()) {
        ([_, element], [_, arc]) => {
            design.phases().items().len() == 2 && is_second(element) && is_second_arc(arc)
        }
        _ => false,
    }
}

#[test]
fn a_ring_of_latches_is_read(rt: HostRuntime) -> Result<(), Fail> {
    let ring = design(&rt, rt.alloc(), TWO_LATCHES).ok_or("refused")?;
    assert!(rt; is_ring(&ring));
    Ok(())
}

#[test]
fn flops_are_read(rt: HostRuntime) -> Result<(), Fail> {
    let flops = design(&rt, rt.alloc(), TWO_FLOPS).ok_or("refused")?;
    assert!(rt; flops.elements().iter().all(|e| e.flop));
    Ok(())
}

/// Whether a latch has these delays from its data at most, and from its opening edge.
fn has_delays(element: &Element, dq_max: i64, cq_min: i64, cq_max: i64) -> bool {
    element.dq_max == dq_max && element.cq_min == cq_min && element.cq_max == cq_max
}

#[test]
fn enable_delays_are_read(rt: HostRuntime) -> Result<(), Fail> {
    let enable = design(&rt, rt.alloc(), TWO_ENABLED).ok_or("refused")?;
    let [element, _] = enable.elements() else {
        return Err(Fail::from("other elements"));
    };
    assert!(rt; has_delays(element, 10, 4, 4));
    Ok(())
}

/// Each cut of a table has its fault at the cut, and the whole has none.
fn is_faulty_at_cuts(rt: &impl Abort, alloc: Global, text: &[u8]) {
    let mut line: u32 = 1;
    for (cut, byte) in text.iter().enumerate() {
        assert!(rt; table_fault(alloc, &text[..cut]) == line, "{cut}");
        line = line.saturating_add((*byte == b'\n') as u32);
    }
    assert!(rt; table_fault(alloc, text) == 0);
}

#[test]
fn a_cut_table_has_its_fault_at_the_cut(rt: HostRuntime) {
    is_faulty_at_cuts(&rt, rt.alloc(), TWO_LATCHES.as_bytes());
    is_faulty_at_cuts(&rt, rt.alloc(), TWO_FLOPS.as_bytes());
    is_faulty_at_cuts(&rt, rt.alloc(), TWO_ENABLED.as_bytes());
}

#[test]
fn a_cut_schedule_has_its_fault_at_the_cut(rt: HostRuntime) {
    let mut line: u32 = 1;
    let text = TWO_SCHEDULE.as_bytes();
    for (cut, byte) in text.iter().enumerate() {
        assert!(rt; schedule_fault(&text[..cut]) == line, "{cut}");
        line = line.saturating_add((*byte == b'\n') as u32);
    }
    assert!(rt; schedule_fault(text) == 0);
}

/// A table in which one text stands for another has its fault at this line.
fn has_fault(
    rt: &impl Abort,
    alloc: Global,
    table: &str,
    old: &str,
    new: &str,
    line: u32,
) -> Result<(), AllocError> {
    let text = table.replacen(alloc, old, new, 1)?;
    assert!(rt; table_fault(alloc, text.as_bytes()) == line, "{new}");
    Ok(())
}

#[test]
fn refusal_1_names_the_faulty_line_of_a_table(rt: HostRuntime) -> Result<(), Fail> {
    let alloc = rt.alloc();
    for (old, new, line) in &[
        ("table 1", "table 4", 1),
        ("phases 2", "phases 0", 2),
        ("phase phi2", "phase  phi2", 4),
        ("b 2 10", "b 3 10", 7),
        ("b 2 10", "b 2 010", 7),
        ("- 10 10 0\nel", "- 11 10 0\nel", 6),
        ("- 10 10 0\nel", "-0 10 10 0\nel", 6),
        ("element a 1 10", "element a 1 latch 10", 6),
        ("arc q0 d1", "arc d0 d1", 10),
        ("arc q0 d1", "arc q2 d1", 10),
        ("arc q0 d1", "arc n0 d1", 10),
        ("end\n", "end\n\n", 14),
        ("end\n", "end \n", 13),
    ] {
        has_fault(&rt, alloc, TWO_LATCHES, old, new, *line)?;
    }
    has_fault(&rt, alloc, TWO_ENABLED, "1 latch", "1 flop", 6)?;
    Ok(())
}

#[test]
fn refusal_1_names_the_faulty_line_of_a_schedule(rt: HostRuntime) -> Result<(), Fail> {
    let alloc = rt.alloc();
    for (old, new, line) in &[
        ("den 1", "den 0", 2),
        ("den 1", "den 100001", 2),
        ("cycle 100", "cycle 100000000000001", 3),
        ("cycle 100", "cycle -1", 3),
        ("phases 2", "phases 9", 4),
        ("end\n", "end\nend\n", 8),
    ] {
        let text = TWO_SCHEDULE.replacen(alloc, old, new, 1)?;
        assert!(rt; schedule_fault(text.as_bytes()) == *line, "{new}");
    }
    Ok(())
}

/// Whether a table in form is refused for this quantity and its count, or for none.
fn has_limit(alloc: Global, text: &[u8], limit: Option<(Kind, u64)>) -> bool {
    table_fault(alloc, text) == 0 && table_limit(alloc, text) == limit
}

#[test]
fn refusal_17_has_the_count_of_phases_elements_and_bounds(rt: HostRuntime) -> Result<(), Fail> {
    let alloc = rt.alloc();
    for (phases, elements, bounds, limit) in &[
        (8, 2_000, 64, None),
        (9, 0, 0, Some((Kind::Phases, 9))),
        (1, 2_001, 65, Some((Kind::Elements, 2_001))),
        (1, 0, 65, Some((Kind::Bounds, 65))),
    ] {
        let text = table_of(alloc, *phases, *elements, *bounds)?;
        assert!(rt;
            has_limit(alloc, text.as_bytes(), *limit),
            "{phases} {elements} {bounds}"
        );
    }
    Ok(())
}

#[test]
fn refusal_17_has_the_count_of_inner_bits(rt: HostRuntime) -> Result<(), Fail> {
    let alloc = rt.alloc();
    let inner = TWO_LATCHES.replacen(alloc, "inner 0", "inner 999999999", 1)?;
    assert!(rt; table_limit(alloc, inner.as_bytes()) == Some((Kind::Inner, 999_999_999)));
    Ok(())
}

/// The count of so many arcs, and the rows of all but the two of the ring.
fn more_arcs(alloc: Global, count: u32) -> Result<String, AllocError> {
    let mut text = format!(in alloc; "arcs {count}\n")?;
    for _ in 2..count {
        text.push_str("arc q0 d1 20 20\n")?;
    }
    Ok(text)
}

/// The ring with so many arcs.
fn with_arcs(alloc: Global, count: u32) -> Result<String, AllocError> {
    let more = more_arcs(alloc, count)?;
    TWO_LATCHES.replacen(alloc, "arcs 2\n", &more, 1)
}

#[test]
fn refusal_17_has_the_count_of_arcs(rt: HostRuntime) -> Result<(), Fail> {
    let alloc = rt.alloc();
    for (count, limit) in &[(524_288, None), (524_289, Some((Kind::Arcs, 524_289)))] {
        let text = with_arcs(alloc, *count)?;
        assert!(rt; has_limit(alloc, text.as_bytes(), *limit), "{count}");
    }
    Ok(())
}
