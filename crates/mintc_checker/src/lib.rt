//! The judgement of a certificate by itself: seven tests, without a search.
//!
//! A certificate of a least cycle is a schedule with departures, and a chain of links that forbids each smaller
//! cycle. The tests ask in turn for its counts, the clock, the bounds, exact departures, the setups, that the chain
//! is a ring of the design's links, and its sums. It needs no list of pairs: data that leaves the elements of a
//! phase is carried along the arcs in their order, so that each bit has a label for each phase, the last time at
//! which data comes there from it. Departures, setups and which phase feeds which are read off the labels. This is
//! the longest path by levels of static timing analysis, once for each phase.
//!
//! A chain of links that leads round forbids each cycle time at which its delay is more than its cycles take. So
//! two tests show what a chain does: the first goes over its members one by one, the second adds up their links.
//! They ask for which phase feeds which, and for nothing else that has to be found: a reach has the arcs of its
//! path with it. With a schedule the chain has to take exactly its cycles at the cycle time; without one it has to
//! ask for time and have no cycle.
//!
//! So that a mistake of the search can't hide in its own judge, this crate stands on none of the search's crates;
//! of a certificate it takes what its members are and their links. The crates above get a verdict, and that a valid
//! certificate is that of the least cycle time.
#![tactic(auto)]

ghost use Rattle.std.specs.Prelude.{◌≡◌, IfOk};
ghost use Rattle.mintc_certificate.specs.Optimal.{IsOptimal};
ghost use Rattle.mintc_certificate.specs.Ranges.{IsCertificateInRange};
ghost use Rattle.mintc_timing.specs.Design.{Timing};
ghost use Rattle.mintc_timing.specs.Order.{IsOrder, ArePathsShort};
ghost use Rattle.mintc_timing.specs.Paths.{ArePairs};
ghost use Rattle.mintc_checker.specs.Verdicts.{IsVerdict};

mod arrivals;
mod chain;
mod clocked_design;
mod course;
mod departing_design;
mod examining;
mod labels;
mod members;
mod reading;
mod schedule_tests;
mod verdict;

use examining::judge;
use mintc_certificate::{Certificate, valid_is_optimal};
use mintc_text::OutOfMemory;
use mintc_timing::{Flat, Order, System};
use std::alloc::Global;
pub use verdict::Verdict;

/// The verdict on a certificate of a design: valid, or the number of the first of the seven tests that it fails. The
/// number of the design's pairs is free, and so is which order of its arcs is given.
pub fn examine_flat(
    alloc: Global,
    flat: &Flat,
    order: &Order,
    certificate: &Certificate,
) -> Result<Verdict, OutOfMemory>
    requires order { IsOrder flat.now.arcs order.now }
    requires short { ArePathsShort flat.now }
    requires in_range { IsCertificateInRange certificate.now }
    ensures verdict { IfOk result (λ verdict. (t : Timing) → t.flat ≡ flat.now → ArePairs t.flat t.pairs →
        IsVerdict t certificate.now verdict) }
    ensures optimal { IfOk result (λ verdict. verdict ≡ Verdict.Valid → (t : Timing) → t.flat ≡ flat.now →
        ArePairs t.flat t.pairs → IsOptimal t certificate.now) }
{
    valid_is_optimal();
    let _elements = flat.elements();
    judge(alloc, flat, order, certificate)
}

/// The verdict on a certificate of a system: valid, or the number of the first of the seven tests that it fails.
pub fn examine(
    alloc: Global,
    system: &System,
    certificate: &Certificate,
) -> Result<Verdict, OutOfMemory>
    requires { IsCertificateInRange certificate.now }
    ensures verdict { IfOk result (IsVerdict system.now certificate.now) }
    ensures optimal { IfOk result (λ verdict. verdict ≡ Verdict.Valid → IsOptimal system.now certificate.now) }
{
    examine_flat(alloc, system.flat(), system.order(), certificate)
}
