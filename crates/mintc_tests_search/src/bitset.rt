//! `BitSet` of mintc_bitset: places that are put in and taken out come one after another.
ghost use Rattle.std.specs.Prelude.{◌≡◌, ◌≤◌, ◌^◌, length};
ghost use Rattle.mintc_bitset.specs.BitSet.{room};

use mintc_bitset::BitSet;
use std::process::Abort;

/// Puts places into a set, and takes some out of it.
fn fill(places: &mut BitSet)
    requires { 200 ≤ room places.old.words.items }
    ensures { length places.new.words.items ≡ length places.old.words.items }
{
    places.insert(199);
    places.insert(63);
    places.insert(65);
    places.insert(64);
    places.insert(127);
    places.insert(63);
    places.remove(65);
    places.remove(1_000_000);
}

/// The places that are in the set before the room's end, one after another.
fn come_in_order(rt: &impl Abort, places: &BitSet)
    requires { length places.now.words.items ≤ 2 ^ 32 }
{
    let mut at = 0;
    for next in &[63, 64, 127, 199, 256] {
        at = places.next(at);
        assert!(rt; at == *next, "the place {next}");
        at += 1;
    }
    assert!(rt; places.next(1000) == 1000, "past the room");
    assert!(rt; places.next(64) == 64, "the place itself");
}

#[test]
fn places_come_in_order(rt: HostRuntime) {
    match BitSet::new(rt.alloc(), 200) {
        Ok(mut places) => {
            fill(&mut places);
            come_in_order(&rt, &places);
        }
        Err(_) => panic!(rt; "no memory"),
    }
}
