//! Pairs and paths of mintc_paths: the worked designs, small ones against a plain listing of all paths, and the limits.
ghost use Rattle.std.specs.Prelude.{◌<◌, ◌≤◌, length};
ghost use Rattle.std.specs.Bool.{OnTrue};
ghost use Rattle.mintc_paths.specs.Trace.{IsPairOf};

use crate::cases::{
    ABOVE_LIMIT, AT_LIMIT, Case, DIAMOND, ELEVEN, ENDS, INNER, NINE, NONE, PARALLEL, PATHS, SELVES,
    UNLED, push_elements, push_row, text_of,
};
use crate::systems::system_of_text;
use mintc_paths::{Finder, path_of, shortest_path_of};
use mintc_text::{Kind, Refusal, Stop};
use mintc_timing::{Pair, System, TimingArc};
use std::alloc::{AllocError, Global};
use std::process::Abort;
use std::test::Fail;

/// Whether some pair is of these two elements.
fn is_pair(pairs: &[Pair], from: u32, to: u32) -> bool
    ensures { OnTrue result (IsPairOf pairs.now from to) }
{
    for place in 0..pairs.len() {
        let pair = pairs[place];
        if pair.from == from && pair.to == to {
            return true;
        }
    }
    false
}

/// The system of a case, or what stops it.
fn built(rt: &impl Abort, alloc: Global, case: &Case) -> Result<System, Stop> {
    match text_of(alloc, case) {
        Ok(text) => system_of_text(rt, alloc, &text),
        Err(_) => Err(Stop::OutOfMemory),
    }
}

/// The system of a case.
fn system_of(rt: &impl Abort, alloc: Global, case: &Case) -> Option<System> {
    built(rt, alloc, case).ok()
}

/// What a list of pairs gives for two elements.
fn given(pairs: &[Pair], from: u32, to: u32) -> Option<(i64, i64)> {
    for pair in pairs {
        if pair.from == from && pair.to == to {
            return Some((pair.min, pair.max));
        }
    }
    None
}

/// The least and the greatest sum of those so far and of one more path.
fn joined(best: Option<(i64, i64)>, min: i64, max: i64) -> (i64, i64) {
    match best {
        None => (min, max),
        Some((least, greatest)) => (least.min(min), greatest.max(max)),
    }
}

/// The least and the greatest sum of the paths from a bit to another along at most so many arcs, each path by itself.
/// The empty path leads from a bit to itself.
fn listed(arcs: &[TimingArc], from: u32, to: u32, most: usize) -> Option<(i64, i64)> {
    let mut best = if from == to { Some((0, 0)) } else { None };
    if most == 0 {
        return best;
    }
    for arc in arcs {
        if arc.from == from {
            if let Some((min, max)) = listed(arcs, arc.to, to, most - 1) {
                let (min, max) = (min.saturating_add(arc.min), max.saturating_add(arc.max));
                best = Some(joined(best, min, max));
            }
        }
    }
    best
}

/// Inner bits enter 3 inputs and are entered by 9 outputs, so sums are carried from the inputs back.
const FEW_ENTERED: Case = Case {
    name: "few inputs that inner bits enter",
    elements: 10,
    inner: 5,
    arcs: &[
        "q0 n0 0 1",
        "q1 n1 1 2",
        "q2 n2 2 4",
        "q3 n0 3 4",
        "q4 n3 4 8",
        "q5 n1 5 6",
        "q6 n4 6 9",
        "q7 n2 7 7",
        "q9 n3 8 8",
        "n0 n1 1 5",
        "n0 n2 2 2",
        "n1 n3 0 9",
        "n2 n3 3 3",
        "n3 n4 1 2",
        "n4 d7 2 2",
        "n3 d2 0 1",
        "n1 d9 4 6",
        "q2 d0 1 9",
        "q7 d1 2 3",
        "q9 d7 1 1",
        "q8 d8 5 5",
    ],
};

/// The same with an arc of 10^9 femtoseconds, so that the first path that is too long is looked for.
const FEW_ENTERED_TOO_LONG: Case = Case {
    name: "few inputs that inner bits enter, and a path that is too long",
    elements: 3,
    inner: 2,
    arcs: &[
        "q0 n0 1 1",
        "q1 n0 5 6",
        "q2 n0 3 3",
        "n0 n1 999999996 999999996",
        "n1 d2 0 0",
    ],
};

/// A pair: its elements, and the sum of each of its paths.
type Wanted = (u32, u32, i64);

const NINE_PAIRS: &[Wanted] = &[
    (0, 0, 1),
    (1, 0, 2),
    (2, 0, 3),
    (3, 0, 4),
    (4, 0, 5),
    (5, 0, 6),
    (6, 0, 7),
    (7, 0, 8),
    (8, 0, 9),
];

const INNER_PAIRS: &[Wanted] = &[(0, 1, 20), (1, 0, 60)];

/// A list has these pairs and no others.
fn check_pairs(rt: &impl Abort, pairs: &[Pair], wanted: &[Wanted]) {
    assert!(rt; pairs.len() == wanted.len());
    for (from, to, sum) in wanted {
        assert!(rt;
            given(pairs, *from, *to) == Some((*sum, *sum)),
            "from {from} to {to}"
        );
    }
}

/// A case has these pairs and no others.
fn has_pairs(rt: &impl Abort, case: &Case, wanted: &[Wanted], alloc: Global) {
    match system_of(rt, alloc, case) {
        Some(system) => check_pairs(rt, system.pairs(), wanted),
        None => panic!(rt; "{}", case.name),
    }
}

#[test]
fn worked_designs_have_their_pairs(rt: HostRuntime) {
    has_pairs(&rt, &NINE, NINE_PAIRS, rt.alloc());
    has_pairs(&rt, &INNER, INNER_PAIRS, rt.alloc());
}

/// Whether the pairs of a system with so many elements are those of a listing.
fn has_listed(system: &System, elements: u32) -> bool
    requires { elements ≤ 11 }
{
    let arcs = system.flat().arcs();
    for from in 0..elements {
        for to in 0..elements {
            let wanted = listed(arcs, 2 * from + 1, 2 * to, arcs.len());
            if given(system.pairs(), from, to) != wanted {
                return false;
            }
        }
    }
    true
}

/// Whether a case is small, and its pairs are those of a listing.
fn is_as_listed(rt: &impl Abort, alloc: Global, case: &Case) -> bool {
    match system_of(rt, alloc, case) {
        Some(system) => case.elements <= 11 && has_listed(&system, case.elements),
        None => false,
    }
}

#[test]
fn pairs_are_those_of_a_listing(rt: HostRuntime) {
    for case in &[
        NINE,
        INNER,
        PATHS,
        UNLED,
        NONE,
        PARALLEL,
        SELVES,
        ENDS,
        DIAMOND,
        ELEVEN,
        FEW_ENTERED,
    ] {
        assert!(rt; is_as_listed(&rt, rt.alloc(), case), "{}", case.name);
    }
}

/// Whether the paths with the greatest and the least sum for these elements have these arcs.
fn are_paths(
    alloc: Global,
    system: &System,
    ends: (u32, u32),
    greatest: &[u32],
    least: &[u32],
) -> bool {
    let (from, to) = ends;
    if !is_pair(system.pairs(), from, to) {
        return false;
    }
    let Ok(longest) = path_of(alloc, system, from, to) else {
        return false;
    };
    let Ok(shortest) = shortest_path_of(alloc, system, from, to) else {
        return false;
    };
    longest.items() == greatest && shortest.items() == least
}

#[test]
fn paths_have_the_greatest_and_the_least_sum(rt: HostRuntime) {
    let alloc = rt.alloc();
    match system_of(&rt, alloc, &PATHS) {
        Some(system) => assert!(rt; are_paths(alloc, &system, (0, 1), &[0], &[1, 2])),
        None => panic!(rt; "refused"),
    }
}

/// Whether a path with the greatest sum is found for the pair at this place.
fn is_found(alloc: Global, finder: &mut Finder, system: &System, place: usize) -> bool
    requires { place < length system.now.pairs }
{
    let pair = system.pairs()[place];
    finder
        .path_of(alloc, system, pair.from, pair.to, pair.max)
        .is_ok()
}

/// Whether a path with the least sum is found for the pair at this place.
fn is_shortest_found(alloc: Global, finder: &mut Finder, system: &System, place: usize) -> bool
    requires { place < length system.now.pairs }
{
    let pair = system.pairs()[place];
    finder
        .shortest_path_of(alloc, system, pair.from, pair.to, pair.min)
        .is_ok()
}

/// Whether a finder finds both paths for each pair of a system.
fn are_found(alloc: Global, finder: &mut Finder, system: &System) -> bool {
    for place in 0..system.pairs().len() {
        if !is_found(alloc, finder, system, place) {
            return false;
        }
        if !is_shortest_found(alloc, finder, system, place) {
            return false;
        }
    }
    true
}

/// So few paths are asked for that a search is a sweep over all arcs.
const FEW: usize = 1;

/// So many paths are asked for that steps stand in rows.
const MANY: usize = 1000;

/// Whether the search by itself finds both paths for each pair of a system, where so many are asked for.
fn are_searched(alloc: Global, system: &System, paths: usize) -> bool {
    let Ok(mut finder) = Finder::new(alloc, system, paths) else {
        return false;
    };
    are_found(alloc, &mut finder, system) && finder.missed() == 0
}

/// The same, one way and the other.
fn are_all_searched(alloc: Global, system: &System) -> bool {
    are_searched(alloc, system, FEW) && are_searched(alloc, system, MANY)
}

/// Whether the search by itself finds both paths for each pair of a case.
fn is_searched(rt: &impl Abort, alloc: Global, case: &Case) -> bool {
    match system_of(rt, alloc, case) {
        Some(system) => are_all_searched(alloc, &system),
        None => false,
    }
}

#[test]
fn searches_find_the_paths(rt: HostRuntime) {
    for case in &[NINE, INNER, PATHS, PARALLEL, SELVES, ENDS, DIAMOND, ELEVEN] {
        assert!(rt; is_searched(&rt, rt.alloc(), case), "{}", case.name);
    }
}

/// Two paths that take as long, of which the arc into the input with the lesser number comes from the second inner bit.
const TIE: Case = Case {
    name: "two paths that take as long",
    elements: 2,
    inner: 2,
    arcs: &["q0 n0 1 1", "q0 n1 1 1", "n1 d1 2 2", "n0 d1 2 2"],
};

/// The same with the arcs in the other order.
const TIE_TURNED: Case = Case {
    name: "two paths that take as long, the last arcs first",
    elements: 2,
    inner: 2,
    arcs: &["n0 d1 2 2", "n1 d1 2 2", "q0 n1 1 1", "q0 n0 1 1"],
};

/// Whether a finder of so many paths takes these arcs for the slowest and for the fastest path of the one pair of a
/// system.
fn takes(alloc: Global, system: &System, arcs: &[u32], paths: usize) -> bool {
    if system.pairs().len() != 1 {
        return false;
    }
    let pair = system.pairs()[0];
    let Ok(mut finder) = Finder::new(alloc, system, paths) else {
        return false;
    };
    let Ok(slowest) = finder.path_of(alloc, system, pair.from, pair.to, pair.max) else {
        return false;
    };
    match finder.shortest_path_of(alloc, system, pair.from, pair.to, pair.min) {
        Ok(fastest) => slowest.items() == arcs && fastest.items() == arcs,
        Err(_) => false,
    }
}

/// A finder takes these arcs for the one pair of a case, one way and the other.
fn is_taken(rt: &impl Abort, alloc: Global, case: &Case, arcs: &[u32]) {
    let Some(system) = system_of(rt, alloc, case) else {
        panic!(rt; "refused");
    };
    for paths in [FEW, MANY] {
        assert!(rt;
            takes(alloc, &system, arcs, paths),
            "{}, {paths} paths",
            case.name
        );
    }
}

#[test]
fn of_best_paths_that_with_the_least_arcs_is_taken(rt: HostRuntime) {
    is_taken(&rt, rt.alloc(), &TIE, &[1, 2]);
    is_taken(&rt, rt.alloc(), &TIE_TURNED, &[3, 0]);
}

/// The rows of a design before the arcs between its inner bits.
const DEEP: &str =
    "table 1\nphases 1\nphase p\nelements 2\nelement a 1 0 - 0 0 0\nelement b 1 0 - 0 0 0\ninner 140\narcs 280\n\
arc q0 n0 3 4\narc q1 n70 0 1\narc n139 d1 2 2\narc n40 d0 7 7\n";

/// Adds arcs from each inner bit to the next and to the one after it.
fn push_deep(alloc: Global, text: &mut String) -> Result<(), AllocError> {
    for bit in 0..138 {
        let (next, other) = (bit + 1, bit + 2);
        push_row(
            text,
            format!(in alloc; "arc n{bit} n{next} 1 2\narc n{bit} n{other} 1 5\n"),
        )?;
    }
    text.push_str("bounds 0\nend\n")
}

/// A row of 140 inner bits with arcs to the next bit and to the one after it, so that rows fill several words of marks.
fn deep_text(alloc: Global) -> Result<String, AllocError> {
    let mut text = String::from_str(alloc, DEEP)?;
    push_deep(alloc, &mut text)?;
    Ok(text)
}

/// The system of that design.
fn deep_system(rt: &impl Abort, alloc: Global) -> Option<System> {
    match deep_text(alloc) {
        Ok(text) => system_of_text(rt, alloc, &text).ok(),
        Err(_) => None,
    }
}

#[test]
fn searches_go_through_many_rows(rt: HostRuntime) {
    let alloc = rt.alloc();
    match deep_system(&rt, alloc) {
        Some(system) => {
            assert!(rt; system.pairs().len() == 3);
            assert!(rt; are_all_searched(alloc, &system));
        }
        None => panic!(rt; "refused"),
    }
}

/// Whether a finder, which may be of another system, finds the paths of a case.
fn finds(rt: &impl Abort, alloc: Global, finder: &mut Finder, case: &Case) -> bool {
    match system_of(rt, alloc, case) {
        Some(system) => are_found(alloc, finder, &system),
        None => false,
    }
}

/// A finder finds the paths of some cases.
fn finds_all(rt: &impl Abort, alloc: Global, finder: &mut Finder) {
    for case in &[PARALLEL, SELVES, ELEVEN] {
        assert!(rt; finds(rt, alloc, finder, case), "{}", case.name);
    }
}

/// A finder of so many paths in the system of a case.
fn finder_of(rt: &impl Abort, alloc: Global, case: &Case, paths: usize) -> Option<Finder> {
    match system_of(rt, alloc, case) {
        Some(system) => Finder::new(alloc, &system, paths).ok(),
        None => None,
    }
}

#[test]
fn finders_of_another_system_find_the_paths(rt: HostRuntime) {
    for paths in [FEW, MANY] {
        match finder_of(&rt, rt.alloc(), &NINE, paths) {
            Some(mut finder) => finds_all(&rt, rt.alloc(), &mut finder),
            None => panic!(rt; "no finder"),
        }
    }
}

#[test]
fn a_sum_at_the_limit_is_accepted(rt: HostRuntime) {
    assert!(rt; system_of(&rt, rt.alloc(), &AT_LIMIT).is_some());
}

/// The element and the bit of the path of a case that is too long.
fn too_long(rt: &impl Abort, alloc: Global, case: &Case) -> Option<(u32, u32)> {
    match built(rt, alloc, case) {
        Err(Stop::Refused(Refusal::PathRange { element, bit })) => Some((element, bit)),
        _ => None,
    }
}

#[test]
fn refusal_21_names_the_element_and_the_bit(rt: HostRuntime) {
    let alloc = rt.alloc();
    assert!(rt; too_long(&rt, alloc, &ABOVE_LIMIT) == Some((0, 0)));
    assert!(rt; too_long(&rt, alloc, &FEW_ENTERED_TOO_LONG) == Some((1, 4)));
}

/// Adds an inner bit that 2,000 outputs enter and that leads to 101 inputs.
fn push_many(alloc: Global, text: &mut String) -> Result<(), AllocError> {
    text.push_str("inner 1\narcs 2101\n")?;
    for from in 0..2000 {
        push_row(text, format!(in alloc; "arc q{from} n0 1 2\n"))?;
    }
    for to in 0..101 {
        push_row(text, format!(in alloc; "arc n0 d{to} 3 4\n"))?;
    }
    text.push_str("bounds 0\nend\n")
}

/// A table with that inner bit.
fn many_text(alloc: Global) -> Result<String, AllocError> {
    let mut text = String::from_str(alloc, "table 1\nphases 1\nphase p\nelements 2000\n")?;
    push_elements(&mut text, 2000)?;
    push_many(alloc, &mut text)?;
    Ok(text)
}

/// How many pairs a table has, where they are too many.
fn too_many(rt: &impl Abort, alloc: Global, text: &str) -> Option<u64> {
    match system_of_text(rt, alloc, text) {
        Err(
            Stop::Refused(
                Refusal::Limit {
                    kind: Kind::Pairs,
                    count,
                },
            ),
        ) => Some(count),
        _ => None,
    }
}

#[test]
fn refusal_17_has_the_count_of_pairs(rt: HostRuntime) -> Result<(), Fail> {
    let text = many_text(rt.alloc())?;
    assert!(rt; too_many(&rt, rt.alloc(), &text) == Some(202_000));
    Ok(())
}
