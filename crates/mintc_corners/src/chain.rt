//! The members for a chain of joint links.
ghost use Rattle.std.specs.Prelude.{◌≡◌, ◌<◌, ◌≤◌, ◌+◌, IfOk, All, length, map, flat_map};
ghost use Rattle.mintc_text.specs.declared.limits.TheConstants.{MOST_ELEMENTS};
ghost use Rattle.mintc_timing.specs.Links.{link_at};
ghost use Rattle.mintc_corners.specs.Joined.{IsPlace, joined_links, own_list, corner_number, StandForAll, StandsFor};
ghost use Rattle.mintc_corners.specs.Joint.{AreCorners};
ghost use Rattle.mintc_corners.specs.Laws.{AreSystems};

use crate::{CornerMember, CornerMemberList};
use mintc_certificate::Member;
use mintc_constraints::LinkList;
use mintc_optimise::member_of;
use mintc_paths::Finder;
use mintc_text::OutOfMemory;
use mintc_timing::System;
use std::alloc::Global;

/// Of which corner a joint link is, counted from 0, and its number among that corner's links.
fn corner_of_link(lists: &[LinkList], number: usize) -> (usize, usize)
    requires { number < length (flat_map (λ l. l.links) lists.now) }
    ensures { IsPlace lists.now number result.0 result.1 }
{
    let mut rest = number;
    for corner in 0..lists.len() {
        let count = lists[corner].items().len();
        if rest < count {
            return (corner, rest);
        }
        rest -= count;
    }
    unreachable!()
}

/// The number that a member bears: that of its delay file, from 1, or 0 for one of the clock and for a bound.
fn number_of(corner: usize, member: &Member) -> u32
    requires { corner < 4 }
    ensures { result ≡ corner_number corner member.now }
{
    match member {
        Member::Opening { .. } | Member::Opened { .. } => corner as u32 + 1,
        Member::Reach { .. } | Member::Setup { .. } => corner as u32 + 1,
        _ => 0,
    }
}

/// The member for a joint link, by its number. A reach has a path with the greatest sum in its corner.
#[tactic(auto, using(crate::proofs::SharedPlaceLaws::joined_length))]
fn corner_member_of(
    alloc: Global,
    systems: &[System],
    lists: &[LinkList],
    finders: &mut Vec<Finder>,
    number: u32,
) -> Result<CornerMember, OutOfMemory>
    requires few { length systems.now ≤ 4 }
    requires some { 1 ≤ length systems.now }
    requires alike { AreCorners systems.now }
    requires elements { length (flat_map (λ t. t.flat.elements) systems.now) ≤ MOST_ELEMENTS }
    requires kept { AreSystems systems.now }
    requires lists { lists.now ≡ map own_list systems.now }
    requires finders { length finders.old.items ≡ length systems.now }
    requires number { number < length (joined_links systems.now) }
    ensures member { IfOk result (StandsFor systems.now (link_at (joined_links systems.now) number)) }
    ensures finders { length finders.new.items ≡ length systems.now }
{
    let (corner, own) = corner_of_link(lists, number as usize);
    let link = &lists[corner].items()[own];
    let member = member_of(alloc, &systems[corner], &mut finders[corner], link)?;
    Ok(CornerMember {
        corner: number_of(corner, &member),
        member,
    })
}

/// A search for so many paths in each corner.
fn all_finders(alloc: Global, systems: &[System], paths: usize) -> Result<Vec<Finder>, OutOfMemory>
    ensures { IfOk result (λ finders. length finders.items ≡ length systems.now) }
{
    let mut finders = Vec::new(alloc);
    for system in systems {
        finders.push(Finder::new(alloc, system, paths)?)?;
    }
    Ok(finders)
}

/// The members for the joint links of these numbers.
pub(crate) fn members(
    alloc: Global,
    systems: &[System],
    lists: &[LinkList],
    chain: &[u32],
) -> Result<CornerMemberList, OutOfMemory>
    requires few { length systems.now ≤ 4 }
    requires some { 1 ≤ length systems.now }
    requires alike { AreCorners systems.now }
    requires elements { length (flat_map (λ t. t.flat.elements) systems.now) ≤ MOST_ELEMENTS }
    requires kept { AreSystems systems.now }
    requires lists { lists.now ≡ map own_list systems.now }
    requires chain { All (λ e. e < length (joined_links systems.now)) chain.now }
    ensures { IfOk result (StandForAll systems.now chain.now) }
{
    let mut finders = all_finders(alloc, systems, chain.len())?;
    let mut members = Vec::new(alloc);
    for number in chain {
        let member = corner_member_of(alloc, systems, lists, &mut finders, *number)?;
        members.push(member)?;
    }
    Ok(CornerMemberList::new(members))
}
