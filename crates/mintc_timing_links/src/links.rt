//! Links, one of each kind.
ghost use Rattle.std.specs.Prelude.{◌≡◌, ◌<◌, ◌≤◌, ◌+◌, length};
ghost use Rattle.mintc_text.specs.declared.limits.TheConstants.{MOST_PHASES};
ghost use Rattle.mintc_timing.specs.Clocking.{least_width};
ghost use Rattle.mintc_timing.specs.Limits.{IsBound, IsDelay, IsPhase, IsSpan};
ghost use Rattle.mintc_timing.specs.Links.{output_node};
ghost use Rattle.mintc_timing.specs.Links.{apart_link as apart_link_of, bound_link as bound_link_of};
ghost use Rattle.mintc_timing.specs.Links.{cycle_link as cycle_link_of, opening_link as opening_link_of};
ghost use Rattle.mintc_timing.specs.Links.{opened_link as opened_link_of, order_link as order_link_of};
ghost use Rattle.mintc_timing.specs.Links.{reach_link as reach_link_of, setup_link as setup_link_of};
ghost use Rattle.mintc_timing.specs.Links.{span_link as span_link_of, start_link as start_link_of};
ghost use Rattle.mintc_timing.specs.Links.{width_link as width_link_of};

use mintc_timing::{Bound, Flat, Link, LinkKind, crosses, end_node, point_node, start_node};

/// The node that the output of an element starts from.
fn output(flat: &Flat, number: u32) -> u32
    requires { number < length flat.now.elements }
    ensures { result ≡ output_node flat.now number }
{
    let element = flat.element(number);
    if element.flop {
        start_node(element.phase)
    } else {
        flat.element_node(number)
    }
}

/// A phase starts at time 0 or later. Phases are counted from 1.
pub fn start_link(phase: u32) -> Link
    requires { IsPhase MOST_PHASES phase }
    ensures { result ≡ start_link_of phase }
{
    Link {
        kind: LinkKind::Start { phase },
        from: 0,
        to: start_node(phase),
        delay: 0,
        cycles: 0,
    }
}

/// A phase starts within the cycle.
pub fn cycle_link(phase: u32) -> Link
    requires { IsPhase MOST_PHASES phase }
    ensures { result ≡ cycle_link_of phase }
{
    Link {
        kind: LinkKind::Cycle { phase },
        from: start_node(phase),
        to: 0,
        delay: 0,
        cycles: 1,
    }
}

/// The next phase starts no sooner.
pub fn order_link(phase: u32) -> Link
    requires phase { IsPhase MOST_PHASES phase }
    requires next { IsPhase MOST_PHASES (phase + 1) }
    ensures { result ≡ order_link_of phase }
{
    Link {
        kind: LinkKind::Order { phase },
        from: start_node(phase),
        to: start_node(phase + 1),
        delay: 0,
        cycles: 0,
    }
}

/// A phase is no wider than the cycle.
pub fn span_link(phase: u32) -> Link
    requires { IsPhase MOST_PHASES phase }
    ensures { result ≡ span_link_of phase }
{
    Link {
        kind: LinkKind::Span { phase },
        from: end_node(phase),
        to: start_node(phase),
        delay: 0,
        cycles: 1,
    }
}

/// The greatest of 0 and the widths that elements on the phase ask for, in femtoseconds.
pub fn width_needed(flat: &Flat, phase: u32) -> i64
    ensures value { result ≡ least_width flat.now phase }
    ensures range { IsDelay result }
{
    let mut width = 0;
    for element in flat.elements() {
        if element.phase == phase {
            width = i64::max(width, element.width);
        }
    }
    width
}

/// A phase is as wide as its elements ask.
pub fn width_link(flat: &Flat, phase: u32) -> Link
    requires { IsPhase MOST_PHASES phase }
    ensures value { result ≡ width_link_of flat.now phase }
    ensures range { IsSpan result.delay }
{
    Link {
        kind: LinkKind::Width { phase },
        from: start_node(phase),
        to: end_node(phase),
        delay: width_needed(flat, phase),
        cycles: 0,
    }
}

/// Phase `i` starts no sooner than phase `j` ends, the cycles taken off.
pub fn apart_link(i: u32, j: u32) -> Link
    requires first { IsPhase MOST_PHASES i }
    requires second { IsPhase MOST_PHASES j }
    ensures value { result ≡ apart_link_of i j }
    ensures cycles { result.cycles ≤ 1 }
{
    Link {
        kind: LinkKind::Apart { i, j },
        from: end_node(j),
        to: start_node(i),
        delay: 0,
        cycles: crosses(j, i),
    }
}

/// How long after its phase's start an element opens, in femtoseconds; at a flop, its setup before the start.
fn opening_delay(flat: &Flat, number: u32) -> i64
    requires { number < length flat.now.elements }
    ensures value { result ≡ (opening_link_of flat.now number).delay }
    ensures range { IsSpan result }
{
    let element = flat.element(number);
    if element.flop {
        -element.setup
    } else {
        element.cq_max - element.dq_max
    }
}

/// A latch's data leaves no sooner than its opening lets it. A flop's moment is at most the setup before its phase.
/// Elements are counted from 0.
pub fn opening_link(flat: &Flat, number: u32) -> Link
    requires { number < length flat.now.elements }
    ensures value { result ≡ opening_link_of flat.now number }
    ensures range { IsSpan result.delay }
{
    let element = flat.element(number);
    Link {
        kind: LinkKind::Opening { element: number },
        from: start_node(element.phase),
        to: flat.element_node(number),
        delay: opening_delay(flat, number),
        cycles: 0,
    }
}

/// A latch's phase is as wide as its setup.
pub fn opened_link(flat: &Flat, number: u32) -> Link
    requires { number < length flat.now.elements }
    ensures value { result ≡ opened_link_of flat.now number }
    ensures range { IsSpan result.delay }
{
    let element = flat.element(number);
    Link {
        kind: LinkKind::Opened { element: number },
        from: start_node(element.phase),
        to: end_node(element.phase),
        delay: element.setup,
        cycles: 0,
    }
}

/// The data of element `to` comes so many femtoseconds and the delay of element `from` after that of `from`.
pub fn reach_link(flat: &Flat, from: u32, to: u32, delay: i64) -> Link
    requires from { from < length flat.now.elements }
    requires to { to < length flat.now.elements }
    requires delay { IsDelay delay }
    ensures value { result ≡ reach_link_of flat.now from to delay }
    ensures range { IsSpan result.delay }
    ensures cycles { result.cycles ≤ 1 }
{
    let first = flat.element(from);
    let second = flat.element(to);
    Link {
        kind: LinkKind::Reach { from, to },
        from: output(flat, from),
        to: flat.element_node(to),
        delay: first.dq_max + delay,
        cycles: crosses(first.phase, second.phase),
    }
}

/// A latch's data is there the setup before its phase ends, a flop's before its phase starts.
pub fn setup_link(flat: &Flat, number: u32) -> Link
    requires { number < length flat.now.elements }
    ensures value { result ≡ setup_link_of flat.now number }
    ensures range { IsSpan result.delay }
{
    let element = flat.element(number);
    let to = if element.flop {
        start_node(element.phase)
    } else {
        end_node(element.phase)
    };
    Link {
        kind: LinkKind::Setup { element: number },
        from: flat.element_node(number),
        to,
        delay: element.setup,
        cycles: 0,
    }
}

/// A bound's later point comes after its earlier one. Bounds are counted from 0.
pub fn bound_link(index: u32, bound: &Bound) -> Link
    requires { IsBound 8 bound.now }
    ensures value { result ≡ bound_link_of index bound.now }
    ensures range { IsSpan result.delay }
    ensures cycles { result.cycles ≤ 1 }
{
    Link {
        kind: LinkKind::Bound { index },
        from: point_node(bound.from),
        to: point_node(bound.to),
        delay: bound.gap,
        cycles: bound.cycles,
    }
}
