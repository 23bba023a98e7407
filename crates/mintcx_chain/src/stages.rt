//! The stages of a chain.
ghost use Rattle.std.specs.Prelude.{◌≡◌, ◌≤◌, map, All, IfOk};
ghost use Rattle.mintc_timing.specs.Limits.{IsDesign, IsSpan};
ghost use Rattle.mintc_certificate.specs.CertificateText.{IsCounted};
ghost use Rattle.mintc_certificate.specs.Valid.{IsMember, link_of as link_of_member};
ghost use Rattle.mintcx_chain.specs.Names.{IsShort, IsStage};
ghost use Rattle.mintcx_chain.specs.Stages.{stage_of, why_of};

use mintc_certificate::{Member, link_of};
use mintc_text::{Items, Numbers, OutOfMemory};
use mintc_timing::{Link, LinkKind, System};
use std::alloc::Global;

/// Why a stage is there. Elements and arcs are counted from 0.
#[derive(Drop)]
pub enum Why {
    /// By a rule of the clock, a setup, an opening or a bound.
    Rule { kind: LinkKind },
    /// Data goes from one element to another along the arcs of a path.
    Reach { from: u32, to: u32, arcs: Numbers },
    /// The hold of the second element, which the first one feeds along the arcs of a path.
    Hold { from: u32, to: u32, arcs: Numbers },
}

/// A stage of a chain: a link from one node to another, with its delay in femtoseconds and its cycles, and why it is
/// there.
#[derive(Drop)]
pub struct Stage {
    pub from: u32,
    pub to: u32,
    pub delay: i64,
    pub cycles: u32,
    pub why: Why,
}

/// Stages in the order of their chain, seen as their list.
pub type Stages = Items<Stage>;

/// The link of a member of a system.
fn link_in(system: &System, member: &Member) -> Link
    requires member { IsMember system.now member.now }
    requires counted { IsCounted member.now }
    ensures value { result ≡ link_of_member system.now.flat member.now }
    ensures range { IsSpan result.delay }
    ensures cycles { result.cycles ≤ 1 }
    ensures design { IsDesign system.now.flat }
{
    link_of(system.flat(), member)
}

/// Why a member is there, with the kind of its link.
fn why_of(alloc: Global, kind: LinkKind, member: &Member) -> Result<Why, OutOfMemory>
    ensures { IfOk result (λ why. why ≡ why_of kind member.now) }
{
    match member {
        Member::Reach { from, to, arcs } => Ok(Why::Reach {
            from: *from,
            to: *to,
            arcs: Numbers::new(Vec::from_slice(alloc, arcs.items())?),
        }),
        _ => Ok(Why::Rule { kind }),
    }
}

/// The stage that a member stands for.
#[tactic(auto, using(crate::proofs::StageLaws::stage_inside))]
pub fn stage_of(alloc: Global, system: &System, member: &Member) -> Result<Stage, OutOfMemory>
    requires member { IsMember system.now member.now }
    requires counted { IsCounted member.now }
    ensures value { IfOk result (λ stage. stage ≡ stage_of system.now.flat member.now) }
    ensures stage { IfOk result (IsStage system.now.flat) }
    ensures short { IfOk result IsShort }
{
    let link = link_in(system, member);
    Ok(Stage {
        from: link.from,
        to: link.to,
        delay: link.delay,
        cycles: link.cycles,
        why: why_of(alloc, link.kind, member)?,
    })
}

/// The stages of the members of a chain, in their order.
pub fn stages_of(alloc: Global, system: &System, members: &[Member]) -> Result<Stages, OutOfMemory>
    requires members { All (IsMember system.now) members.now }
    requires counted { All IsCounted members.now }
    ensures value { IfOk result (λ stages. stages ≡ map (stage_of system.now.flat) members.now) }
    ensures each { IfOk result (λ stages. All (IsStage system.now.flat) stages) }
    ensures short { IfOk result (λ stages. All IsShort stages) }
{
    let mut stages = Vec::new(alloc);
    for member in members {
        stages.push(stage_of(alloc, system, member)?)?;
    }
    Ok(Stages::new(stages))
}
