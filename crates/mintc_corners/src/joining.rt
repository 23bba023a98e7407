//! The links of all corners over one clock.
ghost use Rattle.std.specs.Prelude.{◌≡◌, ◌≤◌, ◌++◌, ◌*◌, IfOk, OnOk, All, length, map, flat_map};
ghost use Rattle.mintc_text.specs.declared.limits.TheConstants.{MOST_ELEMENTS};
ghost use Rattle.mintc_constraints.specs.Ordinary.{constraints_of};
ghost use Rattle.mintc_corners.specs.Lifted.{IsLow, lifted_link, widest};
ghost use Rattle.mintc_corners.specs.Joint.{joint_nodes, AreCorners};
ghost use Rattle.mintc_corners.specs.Joined.{joined_links, own_list};
ghost use Rattle.mintc_corners.specs.Laws.{AreSystems};

use crate::joint_links::joint_link;
use mintc_constraints::{Link, LinkList, links};
use mintc_text::OutOfMemory;
use mintc_timing::System;
use std::alloc::Global;

/// The links of each corner.
pub(crate) fn own_lists(alloc: Global, systems: &[System]) -> Result<Vec<LinkList>, OutOfMemory>
    ensures lists { IfOk result (λ lists. lists.items ≡ map own_list systems.now) }
    ensures kept { OnOk result (AreSystems systems.now) }
{
    let mut lists = Vec::new(alloc);
    for system in systems {
        lists.push(links(alloc, system)?)?;
    }
    Ok(lists)
}

/// Appends the links of a corner, numbered among those of all.
fn append_corner(
    systems: &[System],
    clock: u32,
    before: u32,
    links: &[Link],
    items: &mut Vec<Link>,
) -> Result<(), OutOfMemory>
    requires links { All IsLow links.now }
    requires before { before ≤ MOST_ELEMENTS }
    ensures { OnOk result (items.new.items ≡ items.old.items
        ++ map (lifted_link (widest systems.now) clock before) links.now) }
{
    for link in links {
        items.push(joint_link(systems, clock, before, link))?;
    }
    Ok(())
}

/// How many nodes the clock has beside time 0: the start and the end of each phase.
pub(crate) fn clock_nodes(system: &System) -> u32
    ensures value { result ≡ 2 * length system.now.flat.phases }
    ensures range { result ≤ 16 }
{
    2 * system.flat().phase_count()
}

/// The links of all corners: those of each in turn, over one clock, the widths raised to the greatest.
pub(crate) fn joint_links(
    alloc: Global,
    systems: &[System],
    lists: &[LinkList],
) -> Result<LinkList, OutOfMemory>
    requires few { length systems.now ≤ 4 }
    requires some { 1 ≤ length systems.now }
    requires alike { AreCorners systems.now }
    requires elements { length (flat_map (λ t. t.flat.elements) systems.now) ≤ MOST_ELEMENTS }
    requires kept { AreSystems systems.now }
    requires lists { lists.now ≡ map own_list systems.now }
    ensures { IfOk result (λ list. list ≡ constraints_of (joint_nodes systems.now) (joined_links systems.now)) }
{
    let clock = clock_nodes(&systems[0]);
    let mut before = 0;
    let mut items = Vec::new(alloc);
    for corner in 0..systems.len() {
        append_corner(systems, clock, before, lists[corner].items(), &mut items)?;
        before += systems[corner].flat().element_count();
    }
    Ok(LinkList::new(1 + clock + before, items))
}
