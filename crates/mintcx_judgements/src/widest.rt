//! Which element wants the widest pulses of a phase, and which data two phases let through.
ghost use Rattle.std.specs.Prelude.{◌≡◌, ◌<◌, length, IfSome};
ghost use Rattle.std.specs.List.{range_with_len};
ghost use Rattle.mintc_timing.specs.Clocking.{is_pair_between};
ghost use Rattle.mintc_timing.specs.Design.{element_count, pair_at};
ghost use Rattle.mintcx_judgements.specs.Rules.{first_between, wider_of, widest_on};
ghost use Rattle.mintcx_judgements.specs.Sources.{numbers_of};

use crate::told::Told;

/// Of two elements, the second where it asks for the wider pulses, else the first.
fn wider(told: &Told<'_>, best: Option<u32>, element: u32) -> Option<u32>
    requires best { IfSome best (λ l. l < element_count told.now.system.now.flat) }
    requires element { element < element_count told.now.system.now.flat }
    ensures value { result ≡ wider_of told.now.system.now.flat best element }
    ensures inside { IfSome result (λ l. l < element_count told.now.system.now.flat) }
{
    let Some(best) = best else {
        return Some(element);
    };
    if told.element(best).width < told.element(element).width {
        Some(element)
    } else {
        Some(best)
    }
}

/// The first of the elements on a phase that ask for the widest pulses.
pub(crate) fn widest_on(told: &Told<'_>, phase: u32) -> Option<u32>
    ensures value { result ≡ widest_on told.now.system.now.flat phase
        (range_with_len 0 (element_count told.now.system.now.flat)) }
    ensures inside { IfSome result (λ l. l < element_count told.now.system.now.flat) }
{
    let mut best = None;
    for number in 0..told.flat().element_count() {
        if told.element(number).phase == phase {
            best = wider(told, best, number);
        }
    }
    best
}

/// Whether a pair leads from an element on a phase to a latch on another.
fn is_between(told: &Told<'_>, i: u32, j: u32, pair: usize) -> bool
    requires { pair < length told.now.system.now.pairs }
    ensures { result ≡ is_pair_between told.now.system.now.flat i j (pair_at told.now.system.now pair) }
{
    let joined = told.system.pair(pair);
    let to = told.element(joined.to);
    told.element(joined.from).phase == i && to.phase == j && !to.flop
}

/// The first pair from an element on a phase to a latch on another.
#[tactic(auto, using(crate::proofs::BetweenLaws::between))]
pub(crate) fn first_between(told: &Told<'_>, i: u32, j: u32) -> Option<usize>
    ensures value { result ≡ first_between told.now.system.now i j (numbers_of told.now.system.now) }
    ensures inside { IfSome result (λ n. n < length told.now.system.now.pairs) }
{
    for number in 0..told.system.pairs().len() {
        if is_between(told, i, j, number) {
            return Some(number);
        }
    }
    None
}
