//! The members for a chain of safe links.
ghost use Rattle.std.specs.Prelude.{◌≡◌, ◌<◌, ℕ, IfOk, IsTrue, MatchOption, All, Contains, length};
ghost use Rattle.mintc_timing.specs.Design.{pair_at};
ghost use Rattle.mintc_timing.specs.Limits.{IsDesign};
ghost use Rattle.mintc_timing.specs.Links.{links_of};
ghost use Rattle.mintc_timing.specs.Order.{IsTiming};
ghost use Rattle.mintc_safe.specs.SafeOptimum.{StandForAll, StandsFor};
ghost use Rattle.mintc_safe.specs.Hold.{hold_link_of, is_held as is_held_of, safe_links_of};

use crate::{SafeMember, SafeMemberList};
use mintc_constraints::{Link, LinkKind};
use mintc_optimise::member_of;
use mintc_paths::Finder;
use mintc_text::OutOfMemory;
use mintc_timing::System;
use std::alloc::Global;

/// The number of the pair whose hold a safe link is of. None of a link of the design.
fn held_pair(link: &Link) -> Option<u32>
    ensures { MatchOption result ((n : ℕ) → link.now.kind ≡ LinkKind.Other n →
        ⊥) (λ n. link.now.kind ≡ LinkKind.Other n) }
{
    match link.kind {
        LinkKind::Other { index } => Some(index),
        _ => None,
    }
}

/// The member for the hold of a pair's second element. It has a path with the least sum.
fn hold_of(
    alloc: Global,
    system: &System,
    finder: &mut Finder,
    number: u32,
) -> Result<SafeMember, OutOfMemory>
    requires number { number < length system.now.pairs }
    requires held { IsTrue (is_held_of system.now.flat (number, pair_at system.now number)) }
    ensures { IfOk result (StandsFor system.now (hold_link_of system.now.flat (number, pair_at system.now number))) }
{
    let pair = system.pair(number as usize);
    let arcs = finder.shortest_path_of(alloc, system, pair.from, pair.to, pair.min)?;
    Ok(SafeMember::Hold {
        from: pair.from,
        to: pair.to,
        arcs,
    })
}

/// The member for a link of the design. A reach has a path with the greatest sum.
fn plain_of(
    alloc: Global,
    system: &System,
    finder: &mut Finder,
    link: &Link,
) -> Result<SafeMember, OutOfMemory>
    requires link { Contains (links_of system.now) link.now }
    requires design { IsDesign system.now.flat }
    requires kept { IsTiming system.now.flat system.now.order system.now.pairs }
    ensures { IfOk result (StandsFor system.now link.now) }
{
    let member = member_of(alloc, system, finder, link)?;
    Ok(SafeMember::Plain { member })
}

/// The member for a safe link of the system.
fn safe_member_of(
    alloc: Global,
    system: &System,
    finder: &mut Finder,
    link: &Link,
) -> Result<SafeMember, OutOfMemory>
    requires link { Contains (safe_links_of system.now) link.now }
    requires design { IsDesign system.now.flat }
    requires kept { IsTiming system.now.flat system.now.order system.now.pairs }
    ensures { IfOk result (StandsFor system.now link.now) }
{
    match held_pair(link) {
        Some(number) => hold_of(alloc, system, finder, number),
        None => plain_of(alloc, system, finder, link),
    }
}

/// The members for the safe links of these numbers.
pub(crate) fn members(
    alloc: Global,
    system: &System,
    links: &[Link],
    chain: &[u32],
) -> Result<SafeMemberList, OutOfMemory>
    requires links { links.now ≡ safe_links_of system.now }
    requires chain { All (λ e. e < length links.now) chain.now }
    requires design { IsDesign system.now.flat }
    requires kept { IsTiming system.now.flat system.now.order system.now.pairs }
    ensures { IfOk result (StandForAll system.now links.now chain.now) }
{
    let mut finder = Finder::new(alloc, system, chain.len())?;
    let mut members = Vec::new(alloc);
    for number in chain {
        let member = safe_member_of(alloc, system, &mut finder, &links[*number as usize])?;
        members.push(member)?;
    }
    Ok(SafeMemberList::new(members))
}
