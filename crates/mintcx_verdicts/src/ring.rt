//! The sixth test in words.
ghost use Rattle.std.specs.Prelude.{◌≡◌, ◌<◌, ◌++◌, length, slice_index_or, None, All, IfSome, IsTrue, OnOk, ℕ, ◌↔◌};
ghost use Rattle.mintc_text.specs.declared.limits.TheConstants.{MOST_MEMBERS};
ghost use Rattle.mintc_text.specs.Lines.{ended};
ghost use Rattle.mintc_timing.specs.Links.{no_link, node_count};
ghost use Rattle.mintc_timing.specs.Order.{ArePathsShort};
ghost use Rattle.mintc_certificate.specs.Ranges.{IsChainInRange};
ghost use Rattle.mintc_certificate.specs.Valid.{IsNamed, IsRing, links_of_members};
ghost use Rattle.mintcx_verdicts.specs.Chains.{IsBreak, IsChainReason, LeadsOn, after_word, break_line, place_after};
ghost use Rattle.mintcx_verdicts.specs.Chains.{member_words, strange_line};
ghost use Rattle.mintcx_verdicts.specs.Verdicts.{IsWritten};

use crate::members::first_strange;
use mintc_certificate::{Member, link_of};
use mintc_text::{Lines, OutOfMemory};
use mintc_timing::{Flat, Link, System};
use mintcx_frame::{put_node, put_number};

/// The link of the member at a place.
fn link_at(flat: &Flat, members: &[Member], place: usize) -> Link
    requires short { ArePathsShort flat.now }
    requires named { All (IsNamed flat.now) members.now }
    requires chain { IsChainInRange members.now }
    requires place { place < length members.now }
    ensures value { result ≡ slice_index_or (links_of_members flat.now members.now) place no_link }
    ensures from { result.from < node_count flat.now }
    ensures to { result.to < node_count flat.now }
{
    let _phases = flat.phases();
    link_of(flat, &members[place])
}

/// The place behind another, the first one behind the last.
fn place_after(members: &[Member], place: usize) -> usize
    requires { place < length members.now }
    ensures value { result ≡ place_after members.now place }
    ensures inside { result < length members.now }
{
    if place + 1 == members.len() {
        0
    } else {
        place + 1
    }
}

/// Whether the member of a place leads to the one behind it.
fn leads_on(flat: &Flat, members: &[Member], place: usize) -> bool
    requires short { ArePathsShort flat.now }
    requires named { All (IsNamed flat.now) members.now }
    requires chain { IsChainInRange members.now }
    requires place { place < length members.now }
    ensures { IsTrue result ↔ LeadsOn flat.now members.now place }
{
    let next = place_after(members, place);
    link_at(flat, members, place).to == link_at(flat, members, next).from
}

/// The place of the first member that doesn't lead to the next one, counted from 0.
fn first_break(flat: &Flat, members: &[Member]) -> Option<usize>
    requires short { ArePathsShort flat.now }
    requires named { All (IsNamed flat.now) members.now }
    requires chain { IsChainInRange members.now }
    ensures some { IfSome result (IsBreak flat.now members.now) }
    ensures none { result ≡ None → (n : ℕ) → n < length members.now → LeadsOn flat.now members.now n }
{
    for place in 0..members.len() {
        if !leads_on(flat, members, place) {
            return Some(place);
        }
    }
    None
}

/// Writes which member is told of. Members are counted from 1 in the text.
fn put_member(lines: &mut Lines, place: usize) -> Result<(), OutOfMemory>
    requires { place < MOST_MEMBERS }
    ensures { OnOk result (lines.new ≡ lines.old ++ member_words place) }
{
    lines.put(b"  member ")?;
    put_number(lines, place as u64 + 1)
}

/// Writes that a member is not the design's.
fn put_strange(lines: &mut Lines, place: usize) -> Result<(), OutOfMemory>
    requires { place < MOST_MEMBERS }
    ensures { OnOk result (lines.new ≡ lines.old ++ ended (strange_line place)) }
{
    put_member(lines, place)?;
    lines.put(b" is none of the design's constraints\n")
}

/// The words for the member behind another.
fn after_word(members: &[Member], place: usize) -> &'static [u8]
    requires { place < length members.now }
    ensures { result.now ≡ after_word members.now place }
{
    if place + 1 == members.len() {
        b", and the first begins at "
    } else {
        b", and the next begins at "
    }
}

/// Writes that a member does not lead to the next one.
fn put_break(
    lines: &mut Lines,
    flat: &Flat,
    members: &[Member],
    place: usize,
) -> Result<(), OutOfMemory>
    requires short { ArePathsShort flat.now }
    requires named { All (IsNamed flat.now) members.now }
    requires chain { IsChainInRange members.now }
    requires place { place < length members.now }
    ensures { OnOk result (lines.new ≡ lines.old ++ ended (break_line flat.now members.now place)) }
{
    let end = link_at(flat, members, place).to;
    let begin = link_at(flat, members, place_after(members, place)).from;
    put_member(lines, place)?;
    lines.put(b" leads to ")?;
    put_node(lines, flat, end)?;
    lines.put(after_word(members, place))?;
    put_node(lines, flat, begin)?;
    lines.put(b"\n")
}

/// Writes what is wrong with the members of a chain: which isn't the design's, or which doesn't lead to the next one.
pub(crate) fn put_ring(
    lines: &mut Lines,
    system: &System,
    members: &[Member],
) -> Result<(), OutOfMemory>
    requires chain { IsChainInRange members.now }
    requires fails { IsRing system.now members.now → ⊥ }
    ensures { OnOk result (IsWritten (IsChainReason system.now members.now) lines.old lines.new) }
{
    let flat = system.flat();
    if let Some(place) = first_strange(system, members) {
        return put_strange(lines, place);
    }
    match first_break(flat, members) {
        Some(place) => put_break(lines, flat, members, place),
        None => unreachable!(),
    }
}
