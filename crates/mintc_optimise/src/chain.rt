//! The members of a chain of links.
ghost use Rattle.std.specs.Prelude.{◌≡◌, ◌<◌, ◌-ℤ◌, IfOk, All, Contains, length};
ghost use Rattle.mintc_timing.specs.Design.{element_at};
ghost use Rattle.mintc_timing.specs.Limits.{IsDesign};
ghost use Rattle.mintc_timing.specs.Links.{links_of};
ghost use Rattle.mintc_timing.specs.Order.{IsTiming};
ghost use Rattle.mintc_paths.specs.declared.trace.Extreme.TheVariants.{Greatest};
ghost use Rattle.mintc_paths.specs.Finding.{IsDelayOf};
ghost use Rattle.mintc_optimise.specs.Making.{StandForAll, StandsFor};

use mintc_certificate::{Member, Members};
use mintc_constraints::{Link, LinkKind};
use mintc_paths::Finder;
use mintc_text::OutOfMemory;
use mintc_timing::System;
use std::alloc::Global;

/// The greatest delay of the pair of a reach, in femtoseconds: what the reach asks for beside its first element's
/// own delay.
fn pair_delay(system: &System, link: &Link, from: u32, to: u32) -> i64
    requires link { Contains (links_of system.now) link.now }
    requires kind { link.now.kind ≡ LinkKind.Reach from to }
    requires design { IsDesign system.now.flat }
    requires kept { IsTiming system.now.flat system.now.order system.now.pairs }
    ensures value { result ≡ link.now.delay -ℤ (element_at system.now.flat from).dq_max }
    ensures pair { IsDelayOf Greatest system.now.pairs from to result }
{
    link.delay - system.element(from).dq_max
}

/// The member for a link of the system. A reach has a path with the greatest sum.
pub fn member_of(
    alloc: Global,
    system: &System,
    finder: &mut Finder,
    link: &Link,
) -> Result<Member, OutOfMemory>
    requires { Contains (links_of system.now) link.now }
    ensures { IfOk result (StandsFor system.now link.now) }
{
    let _flat = system.flat();
    match link.kind {
        LinkKind::Start { phase } => Ok(Member::Start { phase }),
        LinkKind::Cycle { phase } => Ok(Member::Cycle { phase }),
        LinkKind::Order { phase } => Ok(Member::Order { phase }),
        LinkKind::Span { phase } => Ok(Member::Span { phase }),
        LinkKind::Width { phase } => Ok(Member::Width { phase }),
        LinkKind::Apart { i, j } => Ok(Member::Apart { i, j }),
        LinkKind::Opening { element } => Ok(Member::Opening { element }),
        LinkKind::Opened { element } => Ok(Member::Opened { element }),
        LinkKind::Reach { from, to } => {
            let delay = pair_delay(system, link, from, to);
            let arcs = finder.path_of(alloc, system, from, to, delay)?;
            Ok(Member::Reach { from, to, arcs })
        }
        LinkKind::Setup { element } => Ok(Member::Setup { element }),
        LinkKind::Bound { index } => Ok(Member::Bound { index }),
        LinkKind::Other { .. } => unreachable!(),
    }
}

/// The members for the links of these numbers, in their order.
pub fn members(
    alloc: Global,
    system: &System,
    links: &[Link],
    chain: &[u32],
) -> Result<Members, OutOfMemory>
    requires links { links.now ≡ links_of system.now }
    requires chain { All (λ e. e < length links.now) chain.now }
    ensures { IfOk result (StandForAll system.now links.now chain.now) }
{
    let mut finder = Finder::new(alloc, system, chain.len())?;
    let mut members = Vec::new(alloc);
    for number in chain {
        let member = member_of(alloc, system, &mut finder, &links[*number as usize])?;
        members.push(member)?;
    }
    Ok(Members::new(members))
}
