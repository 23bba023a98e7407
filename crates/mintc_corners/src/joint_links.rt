//! The links of a corner among those of all corners.
ghost use Rattle.std.specs.Prelude.{◌≡◌, ◌<◌, ◌≤◌};
ghost use Rattle.mintc_text.specs.declared.limits.TheConstants.{MOST_ELEMENTS, MOST_NODES};
ghost use Rattle.mintc_corners.specs.Lifted.{HasLowKind, IsLow, lifted_delay as lifted_delay_of};
ghost use Rattle.mintc_corners.specs.Lifted.{lifted_kind as lifted_kind_of, lifted_link, lifted_node as lifted_node_of};
ghost use Rattle.mintc_corners.specs.Lifted.{widest};

use mintc_timing::{Link, LinkKind, System};
use mintc_timing_links::width_needed;

/// The number of a corner's node among those of all: time 0 and the nodes of the clock keep theirs, and the
/// elements come after those of the corners before.
fn lifted_node(clock: u32, before: u32, node: u32) -> u32
    requires node { node < MOST_NODES }
    requires before { before ≤ MOST_ELEMENTS }
    ensures { result ≡ lifted_node_of clock before node }
{
    if clock < node { before + node } else { node }
}

/// What a corner's link stands for, its elements numbered among those of all.
fn lifted_kind(before: u32, kind: LinkKind) -> LinkKind
    requires kind { HasLowKind kind }
    requires before { before ≤ MOST_ELEMENTS }
    ensures { result ≡ lifted_kind_of before kind }
{
    match kind {
        LinkKind::Opening { element } => LinkKind::Opening {
            element: before + element,
        },
        LinkKind::Opened { element } => LinkKind::Opened {
            element: before + element,
        },
        LinkKind::Reach { from, to } => LinkKind::Reach {
            from: before + from,
            to: before + to,
        },
        LinkKind::Setup { element } => LinkKind::Setup {
            element: before + element,
        },
        _ => kind,
    }
}

/// The greatest least width of a phase over all corners, in femtoseconds.
#[tactic(auto, using(crate::proofs::WidestLaws::widest_begun))]
fn width_of_all(systems: &[System], phase: u32) -> i64
    ensures { result ≡ widest systems.now phase }
{
    let mut width = 0;
    for system in systems {
        width = width.max(width_needed(system.flat(), phase));
    }
    width
}

/// What a corner's link asks for, in femtoseconds: of a width, the greatest over all corners.
fn lifted_delay(systems: &[System], link: &Link) -> i64
    ensures { result ≡ lifted_delay_of (widest systems.now) link.now.kind link.now.delay }
{
    match link.kind {
        LinkKind::Width { phase } => width_of_all(systems, phase),
        _ => link.delay,
    }
}

/// A corner's link among those of all.
pub(crate) fn joint_link(systems: &[System], clock: u32, before: u32, link: &Link) -> Link
    requires link { IsLow link.now }
    requires before { before ≤ MOST_ELEMENTS }
    ensures { result ≡ lifted_link (widest systems.now) clock before link.now }
{
    Link {
        kind: lifted_kind(before, link.kind),
        from: lifted_node(clock, before, link.from),
        to: lifted_node(clock, before, link.to),
        delay: lifted_delay(systems, link),
        cycles: link.cycles,
    }
}
