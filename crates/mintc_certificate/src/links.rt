//! The links that members stand for.
ghost use Rattle.std.specs.Prelude.{◌≡◌, ◌<◌, ◌≤◌, ◌^◌, length, All};
ghost use Rattle.mintc_timing.specs.declared.parts.TimingArc.{TimingArc as Arc};
ghost use Rattle.mintc_timing.specs.Limits.{IsDelay, IsSpan};
ghost use Rattle.mintc_timing.specs.Links.{reach_link as reach_link_of};
ghost use Rattle.mintc_timing.specs.Order.{ArePathsShort};
ghost use Rattle.mintc_timing.specs.Paths.{IsPath, greatest_delay, input_of};
ghost use Rattle.mintc_certificate.specs.CertificateText.{IsCounted};
ghost use Rattle.mintc_certificate.specs.Valid.{IsNamed, link_of as link_of_member};

use crate::Member;
use mintc_timing::{Flat, Link, TimingArc};
use mintc_timing_links::{
    apart_link, bound_link, cycle_link, opened_link, opening_link, order_link, reach_link,
    setup_link, span_link, start_link, width_link,
};

/// The sum of the greatest delays along a path, in femtoseconds.
fn path_delay(arcs: &[TimingArc], path: &[u32]) -> i64
    requires path { All (λ n. n < length arcs.now) path.now }
    requires few { length path.now < 10 ^ 9 }
    requires arcs { All (λ (arc : Arc). IsDelay arc.max) arcs.now }
    ensures { result ≡ greatest_delay arcs.now path.now }
{
    let mut delay = 0;
    for number in path {
        delay += arcs[*number as usize].max;
    }
    delay
}

/// The link of a reach, with the delay of its own path.
fn path_link(flat: &Flat, from: u32, to: u32, path: &[u32]) -> Link
    requires short { ArePathsShort flat.now }
    requires few { length path.now < 10 ^ 9 }
    requires from { from < length flat.now.elements }
    requires to { to < length flat.now.elements }
    requires path { IsPath flat.now.arcs from path.now (input_of to) }
    ensures value { result ≡ reach_link_of flat.now from to (greatest_delay flat.now.arcs path.now) }
    ensures range { IsSpan result.delay }
    ensures cycles { result.cycles ≤ 1 }
{
    reach_link(flat, from, to, path_delay(flat.arcs(), path))
}

/// The link that a member stands for: its nodes, its delay in femtoseconds and its cycles. A reach has the delay of its
/// own path, which may be less than the greatest of its two elements.
pub fn link_of(flat: &Flat, member: &Member) -> Link
    requires short { ArePathsShort flat.now }
    requires named { IsNamed flat.now member.now }
    requires counted { IsCounted member.now }
    ensures value { result ≡ link_of_member flat.now member.now }
    ensures range { IsSpan result.delay }
    ensures cycles { result.cycles ≤ 1 }
{
    let bounds = flat.bounds();
    match member {
        Member::Start { phase } => start_link(*phase),
        Member::Cycle { phase } => cycle_link(*phase),
        Member::Order { phase } => order_link(*phase),
        Member::Span { phase } => span_link(*phase),
        Member::Width { phase } => width_link(flat, *phase),
        Member::Apart { i, j } => apart_link(*i, *j),
        Member::Opening { element } => opening_link(flat, *element),
        Member::Opened { element } => opened_link(flat, *element),
        Member::Reach { from, to, arcs } => path_link(flat, *from, *to, arcs.items()),
        Member::Setup { element } => setup_link(flat, *element),
        Member::Bound { index } => bound_link(*index, &bounds[*index as usize]),
    }
}
