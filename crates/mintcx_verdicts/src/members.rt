//! Which members of a chain are the design's.
ghost use Rattle.std.specs.Prelude.{◌≡◌, ◌<◌, length, All, IfSome, IsTrue, IsFalse, None, ◌↔◌};
ghost use Rattle.std.specs.Bool.{OnTrue};
ghost use Rattle.mintc_text.specs.declared.limits.TheConstants.{MOST_PHASES};
ghost use Rattle.mintc_timing.specs.Clocking.{feeds_of};
ghost use Rattle.mintc_timing.specs.Design.{phase_count, element_at};
ghost use Rattle.mintc_timing.specs.Limits.{IsPhase};
ghost use Rattle.mintc_timing.specs.Paths.{IsPath, Leads, arc_at, input_of};
ghost use Rattle.mintc_certificate.specs.Valid.{IsMember};
ghost use Rattle.mintcx_verdicts.specs.Chains.{IsFedTable, IsStrange};

use mintc_certificate::Member;
use mintc_timing::{Flat, System, TimingArc, feeds};

/// Whether an arc exists and leaves a bit.
fn leaves(arcs: &[TimingArc], number: u32, bit: u32) -> bool
    ensures { IsTrue result ↔ ((number < length arcs.now) × ((arc_at arcs.now number).from ≡ bit)) }
{
    (number as usize) < arcs.len() && arcs[number as usize].from == bit
}

/// Whether the arcs of a path lead from one bit to another.
fn leads(arcs: &[TimingArc], from: u32, path: &[u32], to: u32) -> bool
    ensures { IsTrue result ↔ Leads arcs.now from path.now to }
{
    let mut at = from;
    for number in path {
        if !leaves(arcs, *number, at) {
            return false;
        }
        at = arcs[*number as usize].to;
    }
    at == to
}

/// Whether a phase is one of the design's.
fn is_phase(flat: &Flat, phase: u32) -> bool
    ensures phase { IsTrue result ↔ IsPhase (length flat.now.phases) phase }
    ensures few { OnTrue result (IsPhase MOST_PHASES phase) }
{
    1 <= phase && phase <= flat.phase_count()
}

/// Whether an element is one of the design's.
fn is_element(flat: &Flat, element: u32) -> bool
    ensures { IsTrue result ↔ (element < length flat.now.elements) }
{
    element < flat.element_count()
}

/// Whether an element is a latch of the design.
fn is_latch(flat: &Flat, element: u32) -> bool
    ensures { IsTrue result ↔ ((element < length flat.now.elements) × IsFalse (element_at flat.now element).flop) }
{
    is_element(flat, element) && !flat.element(element).flop
}

/// Whether a phase is one of the design's, and feeds another one of them.
fn is_apart(system: &System, fed: &[bool], i: u32, j: u32) -> bool
    requires { IsFedTable system.now fed.now }
    ensures { IsTrue result ↔ (IsPhase (phase_count system.now.flat) i × IsPhase (phase_count system.now.flat) j
        × IsTrue (feeds_of system.now i j)) }
{
    let flat = system.flat();
    is_phase(flat, i) && is_phase(flat, j) && fed[8 * (i as usize - 1) + (j as usize - 1)]
}

/// Whether a path of arcs leads from the output of one element to the input of another.
fn is_reach(flat: &Flat, from: u32, to: u32, path: &[u32]) -> bool
    ensures { IsTrue result ↔ ((from < length flat.now.elements) × (to < length flat.now.elements)
        × IsPath flat.now.arcs from path.now (input_of to)) }
{
    is_element(flat, from)
        && is_element(flat, to)
        && !path.is_empty()
        && leads(flat.arcs(), 2 * from + 1, path, 2 * to)
}

/// Whether a member is one of the design's.
fn is_member(system: &System, fed: &[bool], member: &Member) -> bool
    requires { IsFedTable system.now fed.now }
    ensures { IsTrue result ↔ IsMember system.now member.now }
{
    let flat = system.flat();
    match member {
        Member::Start { phase } => is_phase(flat, *phase),
        Member::Cycle { phase } => is_phase(flat, *phase),
        Member::Order { phase } => 1 <= *phase && *phase < flat.phase_count(),
        Member::Span { phase } => is_phase(flat, *phase),
        Member::Width { phase } => is_phase(flat, *phase),
        Member::Apart { i, j } => is_apart(system, fed, *i, *j),
        Member::Opening { element } => is_element(flat, *element),
        Member::Opened { element } => is_latch(flat, *element),
        Member::Reach { from, to, arcs } => is_reach(flat, *from, *to, arcs.items()),
        Member::Setup { element } => is_element(flat, *element),
        Member::Bound { index } => (*index as usize) < flat.bounds().len(),
    }
}

/// The place of the first member that isn't the design's, counted from 0.
pub(crate) fn first_strange(system: &System, members: &[Member]) -> Option<usize>
    ensures strange { IfSome result (IsStrange system.now members.now) }
    ensures none { result ≡ None → All (IsMember system.now) members.now }
{
    let fed = feeds(system);
    for place in 0..members.len() {
        if !is_member(system, fed.as_slice(), &members[place]) {
            return Some(place);
        }
    }
    None
}
