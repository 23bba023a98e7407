//! Where a chain begins.
ghost use Rattle.std.specs.Prelude.{◌≡◌, ◌≤◌, ◌<◌, length, All};
ghost use Rattle.mintcx_chain.specs.Names.{IsShort, IsStage};
ghost use Rattle.mintcx_chain.specs.Turning.{comes_before, moment_of, sooner, HasTurned, IsBeginning};

use crate::stages::{Stage, Stages};
use mintc_timing::Flat;

/// When an element departs, by its node; 0 of other nodes.
fn departure_of(flat: &Flat, departures: &[i64], node: u32) -> i64
    ensures { result ≡ moment_of flat.now departures.now node }
{
    let edges = 2 * flat.phase_count();
    if node <= edges {
        return 0;
    }
    match departures.get((node - edges - 1) as usize) {
        Some(departure) => *departure,
        None => 0,
    }
}

/// Whether a chain begins at one node sooner than at another: at time 0, then at the start and the end of each phase in
/// turn, then at the element that departs sooner, and of several at that of the lesser number.
fn comes_before(flat: &Flat, departures: &[i64], node: u32, other: u32) -> bool
    ensures { result ≡ comes_before flat.now departures.now node other }
{
    let edges = 2 * flat.phase_count();
    let (first, second) = (
        departure_of(flat, departures, node),
        departure_of(flat, departures, other),
    );
    if node <= edges || other <= edges || first == second {
        node < other
    } else {
        first < second
    }
}

/// Of two stages by their places the one at which a chain begins sooner, the first of them where neither does.
fn sooner(flat: &Flat, departures: &[i64], stages: &[Stage], first: usize, other: usize) -> usize
    requires first { first < length stages.now }
    requires other { other < length stages.now }
    ensures { result ≡ sooner flat.now departures.now stages.now first other }
{
    if comes_before(flat, departures, stages[other].from, stages[first].from) {
        other
    } else {
        first
    }
}

/// The place of the stage at which a chain begins: no other stage leads from a node that comes sooner. Departures are
/// numerators over one denominator; a missing one counts as 0.
pub fn beginning(flat: &Flat, departures: &[i64], stages: &[Stage]) -> usize
    requires { 1 ≤ length stages.now }
    ensures { IsBeginning flat.now departures.now stages.now result }
{
    let mut first = 0;
    for at in 0..stages.len() {
        first = sooner(flat, departures, stages, first, at);
    }
    first
}

/// The stages of a chain from its beginning round to it.
pub fn turned(flat: &Flat, departures: &[i64], stages: Stages) -> Stages
    requires { 1 ≤ length stages }
    ensures turned { HasTurned flat.now departures.now stages result }
    ensures count { length result ≡ length stages }
    ensures each { All (IsStage flat.now) stages → All (IsStage flat.now) result }
    ensures short { All IsShort stages → All IsShort result }
{
    let first = beginning(flat, departures, stages.items());
    let mut items = stages.into_vec();
    items.rotate_left(first);
    Stages::new(items)
}
