//! The tests of a chain: its members, that it leads round, and its sums.
ghost use Rattle.std.specs.Prelude.{◌≡◌, ◌<◌, ◌≤◌, length, slice_index_or, All, IsTrue, ◌↔◌};
ghost use Rattle.std.specs.Bool.{OnTrue};
ghost use Rattle.mintc_timing.specs.declared.link.Link.{Link as LinkValue};
ghost use Rattle.mintc_graph.specs.Rings.{IsClosed};
ghost use Rattle.mintc_timing.specs.Limits.{IsSpan};
ghost use Rattle.mintc_timing.specs.Order.{ArePathsShort};
ghost use Rattle.mintc_certificate.specs.CertificateText.{IsCounted};
ghost use Rattle.mintc_certificate.specs.Ranges.{IsChainInRange};
ghost use Rattle.mintc_certificate.specs.Valid.{IsMember, IsRing, links_of_members, IsNamed};
ghost use Rattle.mintc_timing.specs.Links.{IsTight, IsStuck, no_link};
ghost use Rattle.mintc_checker.specs.Decided.{Decides, IsFed};

use crate::clocked_design::ClockedDesign;
use crate::members::is_member;
use mintc_certificate::{Member, link_of, sums_of};
use mintc_timing::{Flat, Link};

/// Whether all members are the design's.
fn are_members(flat: &Flat, fed: &[bool], members: &[Member]) -> bool
    requires { IsFed flat.now fed.now }
    ensures named { OnTrue result (All (IsNamed flat.now) members.now) }
    ensures members { Decides flat.now result (λ t. All (IsMember t) members.now) }
{
    for member in members {
        if !is_member(flat, fed, member) {
            return false;
        }
    }
    true
}

/// The link of the member at a place.
fn link_at(flat: &Flat, members: &[Member], place: usize) -> Link
    requires short { ArePathsShort flat.now }
    requires named { All (IsNamed flat.now) members.now }
    requires counted { All IsCounted members.now }
    requires place { place < length members.now }
    ensures value { result ≡ slice_index_or (links_of_members flat.now members.now) place no_link }
    ensures range { IsSpan result.delay }
    ensures cycles { result.cycles ≤ 1 }
{
    link_of(flat, &members[place])
}

/// Whether the links of the members lead round in a ring.
fn lead_round(flat: &Flat, members: &[Member]) -> bool
    requires short { ArePathsShort flat.now }
    requires named { All (IsNamed flat.now) members.now }
    requires chain { IsChainInRange members.now }
    ensures { IsTrue result ↔ IsClosed (λ (k : LinkValue). k.from) (λ (k : LinkValue). k.to)
        (links_of_members flat.now members.now) }
{
    let first = link_at(flat, members, 0);
    let mut at = first.to;
    for place in 1..members.len() {
        let next = link_at(flat, members, place);
        if next.from != at {
            return false;
        }
        at = next.to;
    }
    at == first.from
}

/// Whether the members are the design's and lead round in a ring: the sixth test.
pub(crate) fn are_ring(flat: &Flat, fed: &[bool], members: &[Member]) -> bool
    requires short { ArePathsShort flat.now }
    requires fed { IsFed flat.now fed.now }
    requires chain { IsChainInRange members.now }
    ensures named { OnTrue result (All (IsNamed flat.now) members.now) }
    ensures ring { Decides flat.now result (λ t. IsRing t members.now) }
{
    are_members(flat, fed, members) && lead_round(flat, members)
}

/// Whether the ring has a cycle, and takes exactly its cycles: the seventh test of a certificate with a schedule.
pub(crate) fn is_tight(clocked: &ClockedDesign<'_>, members: &[Member]) -> bool
    requires short { ArePathsShort clocked.now.flat.now }
    requires named { All (IsNamed clocked.now.flat.now) members.now }
    requires chain { IsChainInRange members.now }
    ensures { IsTrue result ↔ IsTight (links_of_members clocked.now.flat.now members.now) clocked.now.schedule.now.cycle
        clocked.now.schedule.now.den }
{
    let sums = sums_of(clocked.flat, members);
    1 <= sums.cycles && sums.delay * clocked.schedule.den == sums.cycles * clocked.schedule.cycle
}

/// Whether the ring asks for time and has no cycle: the seventh test of a certificate without a schedule.
pub(crate) fn is_stuck(flat: &Flat, members: &[Member]) -> bool
    requires short { ArePathsShort flat.now }
    requires named { All (IsNamed flat.now) members.now }
    requires chain { IsChainInRange members.now }
    ensures { IsTrue result ↔ IsStuck (links_of_members flat.now members.now) }
{
    let sums = sums_of(flat, members);
    sums.cycles == 0 && 0 < sums.delay
}
