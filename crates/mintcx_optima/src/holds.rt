//! The stages of a chain that keeps holds too.
ghost use Rattle.std.specs.Prelude.{◌≡◌, ◌<◌, ◌^◌, ◌-ℤ◌, length, map, if◌then◌else◌, All, IfOk};
ghost use Rattle.mintc_text.specs.declared.limits.TheConstants.{MOST_PHASES};
ghost use Rattle.mintc_timing.specs.declared.parts.TimingArc.{TimingArc as Arc};
ghost use Rattle.mintc_timing.specs.Limits.{IsDelay, IsGap, IsPhase};
ghost use Rattle.mintc_timing.specs.Design.{element_count};
ghost use Rattle.mintc_timing.specs.Order.{ArePathsShort};
ghost use Rattle.mintc_timing.specs.Links.{end_node as end_of, start_node as start_of};
ghost use Rattle.mintc_timing.specs.Paths.{IsPath, input_of, least_delay};
ghost use Rattle.mintc_safe.specs.SafeOptimum.{IsSafeCounted, IsSafeMember};
ghost use Rattle.mintcx_chain.specs.Names.{IsShort, IsStage};
ghost use Rattle.mintcx_optima.specs.Safe.{hold_stage, safe_stage};

use mintc_safe::SafeMember;
use mintc_text::{Numbers, OutOfMemory};
use mintc_timing::{Element, Flat, System, TimingArc, crosses, end_node, start_node};
use mintcx_chain::{Stage, Stages, Why, stage_of};
use std::alloc::Global;

/// The sum of the least delays along a path, in femtoseconds.
fn least_delay(arcs: &[TimingArc], path: &[u32]) -> i64
    requires path { All (λ n. n < length arcs.now) path.now }
    requires few { length path.now < 10 ^ 9 }
    requires arcs { All (λ (arc : Arc). IsDelay arc.min) arcs.now }
    ensures { result ≡ least_delay arcs.now path.now }
{
    let mut delay = 0;
    for number in path {
        delay += arcs[*number as usize].min;
    }
    delay
}

/// Where the hold of an element begins: at its phase's end, or, of a flop, at its start.
fn hold_node(element: &Element) -> u32
    requires { IsPhase MOST_PHASES element.now.phase }
    ensures { result ≡ (if element.now.flop then start_of element.now.phase else end_of element.now.phase) }
{
    if element.flop {
        start_node(element.phase)
    } else {
        end_node(element.phase)
    }
}

/// The least delay of a path from an element to another, in femtoseconds.
fn path_delay(flat: &Flat, from: u32, to: u32, path: &[u32]) -> i64
    requires short { ArePathsShort flat.now }
    requires few { length path.now < 10 ^ 9 }
    requires from { from < element_count flat.now }
    requires path { IsPath flat.now.arcs from path.now (input_of to) }
    ensures value { result ≡ least_delay flat.now.arcs path.now }
    ensures range { IsDelay result }
{
    least_delay(flat.arcs(), path)
}

/// By how much the hold of one element outlasts the soonest data of another, which takes so long to it, in
/// femtoseconds.
fn hold_delay(first: &Element, second: &Element, least: i64) -> i64
    requires first { IsDelay first.now.cq_min }
    requires second { IsGap second.now.hold }
    requires least { IsDelay least }
    ensures value { result ≡ second.now.hold -ℤ first.now.cq_min -ℤ least }
{
    second.hold - first.cq_min - least
}

/// The stage of the hold of the second of two elements, which the first one feeds along the arcs of a path.
#[tactic(auto, using(crate::proofs::HoldLaws::hold_inside, crate::proofs::HoldLaws::hold_short))]
fn hold_stage(
    alloc: Global,
    system: &System,
    from: u32,
    to: u32,
    path: &[u32],
) -> Result<Stage, OutOfMemory>
    requires member { IsSafeMember system.now (SafeMember.Hold from to path.now) }
    requires counted { IsSafeCounted (SafeMember.Hold from to path.now) }
    ensures value { IfOk result (λ stage. stage ≡ hold_stage system.now.flat from to path.now) }
    ensures stage { IfOk result (IsStage system.now.flat) }
    ensures short { IfOk result IsShort }
{
    let flat = system.flat();
    let (first, second) = (flat.element(from), flat.element(to));
    let least = path_delay(flat, from, to, path);
    Ok(Stage {
        from: hold_node(second),
        to: start_node(first.phase),
        delay: hold_delay(first, second, least),
        cycles: 1 - crosses(first.phase, second.phase),
        why: Why::Hold {
            from,
            to,
            arcs: Numbers::new(Vec::from_slice(alloc, path)?),
        },
    })
}

/// The stage that a member stands for.
fn safe_stage(alloc: Global, system: &System, member: &SafeMember) -> Result<Stage, OutOfMemory>
    requires member { IsSafeMember system.now member.now }
    requires counted { IsSafeCounted member.now }
    ensures value { IfOk result (λ stage. stage ≡ safe_stage system.now.flat member.now) }
    ensures stage { IfOk result (IsStage system.now.flat) }
    ensures short { IfOk result IsShort }
{
    match member {
        SafeMember::Plain { member } => stage_of(alloc, system, member),
        SafeMember::Hold { from, to, arcs } => hold_stage(alloc, system, *from, *to, arcs.items()),
    }
}

/// The stages of the members of a chain, in their order.
pub(crate) fn safe_stages(
    alloc: Global,
    system: &System,
    members: &[SafeMember],
) -> Result<Stages, OutOfMemory>
    requires members { All (IsSafeMember system.now) members.now }
    requires counted { All IsSafeCounted members.now }
    ensures value { IfOk result (λ stages. stages ≡ map (safe_stage system.now.flat) members.now) }
    ensures each { IfOk result (λ stages. All (IsStage system.now.flat) stages) }
    ensures short { IfOk result (λ stages. All IsShort stages) }
{
    let mut stages = Vec::new(alloc);
    for member in members {
        stages.push(safe_stage(alloc, system, member)?)?;
    }
    Ok(Stages::new(stages))
}
