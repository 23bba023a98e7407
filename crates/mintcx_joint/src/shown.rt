//! By which corner the members of a chain are shown, and their stages.
ghost use Rattle.std.specs.Prelude.{◌≡◌, ◌<◌, ◌≤◌, length, IfOk};
ghost use Rattle.mintc_text.specs.declared.limits.TheConstants.{MOST_NODES};
ghost use Rattle.mintc_timing.specs.Limits.{IsDesign, IsSpan};
ghost use Rattle.mintc_certificate.specs.CertificateText.{IsCounted};
ghost use Rattle.mintc_certificate.specs.Valid.{IsNamed, link_of as link_of_member};
ghost use Rattle.mintc_corners.specs.CornerOptimum.{IsOfClock};
ghost use Rattle.mintcx_chain.specs.Names.{IsShort, IsStage};
ghost use Rattle.mintcx_chain.specs.Stages.{stage_of as stage_in};
ghost use Rattle.mintcx_joint.specs.Shown.{corner_of, design_of, joint_node, joint_stage, own_stage, wider};
ghost use Rattle.mintcx_joint.specs.Shown.{widest_corner, IsShown};

use mintc_certificate::{Member, link_of};
use mintc_corners::CornerMember;
use mintc_text::OutOfMemory;
use mintc_timing::{Link, System};
use mintc_timing_links::width_needed;
use mintcx_chain::{Stage, Why, stage_of};
use std::alloc::Global;

/// Of two corners, counted from 0, the one that asks for more width of a phase, the first of them where neither does.
fn wider(systems: &[System], phase: u32, first: usize, other: usize) -> usize
    requires first { first < length systems.now }
    requires other { other < length systems.now }
    ensures value { result ≡ wider systems.now phase first other }
    ensures there { result < length systems.now }
{
    let least = width_needed(systems[first].flat(), phase);
    if least < width_needed(systems[other].flat(), phase) {
        other
    } else {
        first
    }
}

/// The first corner, counted from 0, that asks for the greatest width of a phase.
fn widest_corner(systems: &[System], phase: u32) -> usize
    requires { 1 ≤ length systems.now }
    ensures { result ≡ widest_corner systems.now phase }
{
    let mut widest = 0;
    for corner in 0..systems.len() {
        widest = wider(systems, phase, widest, corner);
    }
    widest
}

/// The corner, counted from 0, that shows a member: its own. One of the clock is shown by the first corner, but a width
/// by the first that asks for the greatest.
pub fn corner_of(systems: &[System], member: &CornerMember) -> usize
    requires { 1 ≤ length systems.now }
    ensures { result ≡ corner_of systems.now member.now }
{
    match &member.member {
        Member::Width { phase } => widest_corner(systems, *phase),
        _ => (member.corner as usize).saturating_sub(1),
    }
}

/// The link that a member of the clock stands for.
fn clock_link(system: &System, member: &Member) -> Link
    requires named { IsNamed system.now.flat member.now }
    requires counted { IsCounted member.now }
    ensures value { result ≡ link_of_member system.now.flat member.now }
    ensures range { IsSpan result.delay }
    ensures cycles { result.cycles ≤ 1 }
    ensures design { IsDesign system.now.flat }
{
    link_of(system.flat(), member)
}

/// The stage that a member of the clock stands for.
fn clock_stage(system: &System, member: &Member) -> Stage
    requires clock { IsOfClock member.now }
    requires named { IsNamed system.now.flat member.now }
    requires counted { IsCounted member.now }
    ensures value { result ≡ stage_in system.now.flat member.now }
    ensures stage { IsStage system.now.flat result }
    ensures short { IsShort result }
{
    let link = clock_link(system, member);
    Stage {
        from: link.from,
        to: link.to,
        delay: link.delay,
        cycles: link.cycles,
        why: Why::Rule { kind: link.kind },
    }
}

/// The stage that a member stands for in the corner that shows it.
pub fn own_stage(
    alloc: Global,
    systems: &[System],
    member: &CornerMember,
) -> Result<Stage, OutOfMemory>
    requires { IsShown systems.now member.now }
    ensures value { IfOk result (λ stage. stage ≡ own_stage systems.now member.now) }
    ensures stage { IfOk result (IsStage (design_of systems.now member.now)) }
    ensures short { IfOk result IsShort }
{
    let system = &systems[corner_of(systems, member)];
    if member.corner == 0 {
        Ok(clock_stage(system, &member.member))
    } else {
        stage_of(alloc, system, &member.member)
    }
}

/// The number of a corner's node among those of all: time 0 and the nodes of the clock keep theirs, and the elements of
/// each corner come after those of the one before.
fn joint_node(systems: &[System], corner: usize, node: u32) -> u32
    requires few { length systems.now ≤ 4 }
    requires corner { corner < length systems.now }
    requires node { node < MOST_NODES }
    ensures { result ≡ joint_node systems.now corner node }
{
    let first = systems[0].flat();
    if 2 * first.phase_count() < node {
        corner as u32 * first.element_count() + node
    } else {
        node
    }
}

/// The same stage, beginning at its node among those of all corners.
pub(crate) fn joint_stage(
    alloc: Global,
    systems: &[System],
    member: &CornerMember,
) -> Result<Stage, OutOfMemory>
    requires few { length systems.now ≤ 4 }
    requires shown { IsShown systems.now member.now }
    ensures value { IfOk result (λ stage. stage ≡ joint_stage systems.now member.now) }
    ensures short { IfOk result IsShort }
{
    let corner = corner_of(systems, member);
    let _flat = systems[corner].flat();
    let mut stage = own_stage(alloc, systems, member)?;
    stage.from = joint_node(systems, corner, stage.from);
    Ok(stage)
}
