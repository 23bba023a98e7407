//! `presort` of mintc_liberty: places of a text come in the order of the names that stand there.
use mintc_liberty::{Names, presort};
use mintc_liberty_tokens::Scanner;
use std::alloc::{AllocError, Global};
use std::cmp::Ordering;
use std::process::Abort;

/// Names cut out of a text: each begins and ends by its place.
#[derive(Drop)]
struct Cuttings {
    name: &'static str,
    text: &'static [u8],
    longest: usize,
}

impl Names for Cuttings {
    fn name(&self, place: u32) -> &[u8] {
        let from = (place as usize).saturating_mul(7) % self.text.len().max(1);
        let size = place as usize % self.longest.max(1);
        let end = from.saturating_add(size).min(self.text.len());
        if from <= end {
            &self.text[from..end]
        } else {
            &[]
        }
    }
}

/// By names, and by places where the names are the same.
fn compare<N: Names>(names: &N, one: u32, two: u32) -> Ordering {
    names.name(one).cmp(names.name(two)).then(one.cmp(&two))
}

/// Whether each place comes before the next by its name, and by itself where names are the same.
fn are_in_order<N: Names>(names: &N, places: &[u32]) -> bool {
    let Some(first) = places.first() else {
        return true;
    };
    let mut before = *first;
    for place in &places[1..] {
        if compare(names, before, *place) != Ordering::Less {
            return false;
        }
        before = *place;
    }
    true
}

/// Whether so many places, from the last to the first, come in order.
fn comes_in_order<N: Names>(
    alloc: Global,
    names: &N,
    count: u32,
    room: usize,
) -> Result<bool, AllocError> {
    let mut places = Vec::new(alloc);
    for place in 0..count {
        places.push(count - 1 - place)?;
    }
    presort(alloc, names, &mut places, room)?;
    Ok(are_in_order(names, &places))
}

const MIXED: Cuttings = Cuttings {
    name: "mixed",
    text: b"the quick brown fox jumps over 13 lazy dogs & 2 cats; \
        2 cats_and_2_cats were the quick ones, brown_fox_7 not",
    longest: 12,
};

/// Long beginnings in common, names that are beginnings of others, and empty names.
const ALIKE: Cuttings = Cuttings {
    name: "alike",
    text: b"aaaaaaaaaaaaaaaaaaaaaaaaaaaaaaaaaaaaaaaaaaaaaaaaaaaaaaaaaaaaaaaaaaaaaaaaaaaaaaaaaaaaaaaaaaab",
    longest: 90,
};

const EQUAL: Cuttings = Cuttings {
    name: "equal",
    text: b"a",
    longest: 2,
};

const FEW: &[u32] = &[0, 1, 2, 3, 40, 5_000, 65_536];

const MORE: &[u32] = &[65_537];

const MANY: &[u32] = &[300_000];

/// Each of these counts of places comes in order.
fn come_in_order(rt: &impl Abort, alloc: Global, names: &Cuttings, counts: &[u32], room: usize) {
    for count in counts {
        assert!(rt;
            comes_in_order(alloc, names, *count, room) == Ok(true),
            "{count} {}",
            names.name
        );
    }
}

#[test]
fn few_places_come_in_order(rt: HostRuntime) {
    come_in_order(&rt, rt.alloc(), &MIXED, FEW, 100_000);
    come_in_order(&rt, rt.alloc(), &ALIKE, FEW, 100_000);
}

#[test]
fn more_places_come_in_order(rt: HostRuntime) {
    come_in_order(&rt, rt.alloc(), &MIXED, MORE, 100_000);
    come_in_order(&rt, rt.alloc(), &ALIKE, MORE, 300_000);
    come_in_order(&rt, rt.alloc(), &EQUAL, MORE, 100_000);
}

#[test]
fn many_mixed_places_come_in_order(rt: HostRuntime) {
    come_in_order(&rt, rt.alloc(), &MIXED, MANY, 100_000);
}

#[test]
fn many_alike_places_come_in_order(rt: HostRuntime) {
    come_in_order(&rt, rt.alloc(), &ALIKE, MANY, 300_000);
}

#[test]
fn many_equal_places_come_in_order(rt: HostRuntime) {
    come_in_order(&rt, rt.alloc(), &EQUAL, MANY, 100_000);
}

/// The places of `c`, `a`, `b` and `a` in a library.
#[test]
fn cells_of_a_library_come_in_order(rt: HostRuntime) {
    let library = Scanner::new(b"library(l){cell(c){}cell(\"a\"){}cell(b){}cell(a){}}");
    let mut places = [16, 25, 36, 45];
    let done = presort(rt.alloc(), &library, &mut places, 4);
    assert!(rt; done == Ok(()), "no memory");
    assert!(rt; places == [25, 45, 36, 16], "{places:?}");
}
