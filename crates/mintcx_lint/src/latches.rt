//! Pairs of latches on one phase.
ghost use Rattle.std.specs.Prelude.{◌≡◌, ◌<◌, ◌≤◌, ◌+◌, ◌^◌, ◌-◌, ◌++◌, ◌∷◌, [], List, MatchOption, filter};
ghost use Rattle.std.specs.Prelude.{length, IfSome, ℕ};
ghost use Rattle.mintc_timing.specs.declared.parts.Pair.{Pair};
ghost use Rattle.mintc_timing.specs.Design.{element_count, pair_at};
ghost use Rattle.mintcx_lint.specs.Latches.{IsInside, IsSamePhase, IsTally, is_latch, joins_latches, same_pairs};

use mintc_timing::{Flat, Pair, System};

/// Pairs of elements that lead from a latch to a latch on the same phase.
#[derive(Clone, Copy)]
pub struct SamePhase {
    /// How many there are, 1 at least.
    pub count: usize,
    /// The first of them, in the order of a system's pairs.
    pub first: Pair,
}

/// Some pairs: how many, and the first.
#[derive(Clone, Copy)]
struct Tally {
    count: usize,
    first: Option<Pair>,
}

/// Some pairs and one more.
fn with_pair(tally: Tally, pair: Pair) -> Tally
    requires { tally.count < 2 ^ 64 - 1 }
    ensures tallied { (pairs : List Pair) → IsTally pairs tally → IsTally (pairs ++ pair ∷ []) result }
    ensures few { result.count ≤ tally.count + 1 }
    ensures inside { (count : ℕ) → pair.from < count → pair.to < count → IsInside count tally → IsInside count result }
{
    Tally {
        count: tally.count + 1,
        first: Some(tally.first.unwrap_or(pair)),
    }
}

/// Whether an element is a latch, where the first elements are latches and flops, and so many.
fn is_latch(flat: &Flat, storage: usize, element: u32) -> bool
    requires { element < element_count flat.now }
    ensures { result ≡ is_latch flat.now storage element }
{
    (element as usize) < storage && !flat.element(element).flop
}

/// Whether a pair leads from a latch to a latch on the same phase.
fn joins_latches(flat: &Flat, storage: usize, pair: &Pair) -> bool
    requires from { pair.now.from < element_count flat.now }
    requires to { pair.now.to < element_count flat.now }
    ensures { result ≡ joins_latches flat.now storage pair.now }
{
    is_latch(flat, storage, pair.from)
        && is_latch(flat, storage, pair.to)
        && flat.element(pair.from).phase == flat.element(pair.to).phase
}

/// Some pairs, and the pair of a number where it leads from a latch to a latch on the same phase.
fn with_number(tally: Tally, system: &System, storage: usize, number: usize) -> Tally
    requires number { number < length system.now.pairs }
    requires few { tally.count < 2 ^ 64 - 1 }
    ensures tallied { (pairs : List Pair) → IsTally pairs tally → IsTally
        (pairs ++ filter (joins_latches system.now.flat storage) (pair_at system.now number ∷ [])) result }
    ensures few { result.count ≤ tally.count + 1 }
    ensures inside { IsInside (element_count system.now.flat) tally → IsInside (element_count system.now.flat) result }
{
    let pair = system.pair(number);
    if joins_latches(system.flat(), storage, pair) {
        with_pair(tally, *pair)
    } else {
        tally
    }
}

/// The pairs that lead from a latch to a latch on the same phase: how many, and the first.
fn tally_of(system: &System, storage: usize) -> Tally
    ensures tallied { IsTally (same_pairs system.now storage) result }
    ensures inside { IsInside (element_count system.now.flat) result }
{
    let mut tally = Tally {
        count: 0,
        first: None,
    };
    for number in 0..system.pairs().len() {
        tally = with_number(tally, system, storage, number);
    }
    tally
}

/// The pairs of a system that lead from a latch to a latch on the same phase. The first `storage` elements are its
/// latches and flops, and those behind them listed ports. None where there is no such pair.
pub fn same_phase(system: &System, storage: usize) -> Option<SamePhase>
    ensures found { MatchOption result (same_pairs system.now storage ≡ []) (IsSamePhase system.now storage) }
    ensures from { IfSome result (λ found. found.first.from < element_count system.now.flat) }
    ensures to { IfSome result (λ found. found.first.to < element_count system.now.flat) }
{
    let tally = tally_of(system, storage);
    match tally.first {
        Some(first) => Some(SamePhase {
            count: tally.count,
            first,
        }),
        None => None,
    }
}
