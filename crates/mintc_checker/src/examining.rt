//! The seven tests in their order.
ghost use Rattle.std.specs.Prelude.{IfOk};
ghost use Rattle.mintc_timing.specs.Order.{IsOrder, ArePathsShort};
ghost use Rattle.mintc_certificate.specs.Ranges.{IsCertificateInRange, IsChainInRange, IsLeastInRange};
ghost use Rattle.mintc_certificate.specs.Valid.{HasCounts};
ghost use Rattle.mintc_checker.specs.Decided.{IsFed, OfTiming};
ghost use Rattle.mintc_checker.specs.Judged.{AreTimelyLabels};
ghost use Rattle.mintc_checker.specs.Verdicts.{IsFirstOfSchedule, IsVerdict};

use crate::Verdict;
use crate::arrivals::{are_exact, keep_setups};
use crate::chain::{are_ring, is_stuck, is_tight};
use crate::clocked_design::ClockedDesign;
use crate::departing_design::DepartingDesign;
use crate::labels::{LabelTable, labels_of};
use crate::schedule_tests::{feeds_table, has_counts, keeps_bounds, keeps_clock};
use mintc_certificate::{Certificate, Member};
use mintc_text::OutOfMemory;
use mintc_timing::{Flat, Order, Schedule};
use std::alloc::Global;

/// The number of the first test from the second to the fifth that a schedule with departures fails.
fn first_of_schedule(
    clocked: &ClockedDesign<'_>,
    departures: &[i64],
    labels: &LabelTable,
    fed: &[bool],
) -> Option<u32>
    requires counts { HasCounts clocked.now.flat.now clocked.now.schedule.now departures.now }
    requires labels { AreTimelyLabels clocked.now.flat.now clocked.now.schedule.now.den departures.now labels.now }
    requires fed { IsFed clocked.now.flat.now fed.now }
    ensures { OfTiming clocked.now.flat.now (λ t. IsFirstOfSchedule t clocked.now.schedule.now departures.now result) }
{
    if !keeps_clock(clocked, fed) {
        return Some(2);
    }
    if !keeps_bounds(clocked) {
        return Some(3);
    }
    if !are_exact(clocked, labels, departures) {
        return Some(4);
    }
    if !keep_setups(clocked, labels, departures) {
        return Some(5);
    }
    None
}

/// The verdict on a schedule with departures and a chain.
fn judge_least(
    alloc: Global,
    flat: &Flat,
    order: &Order,
    schedule: &Schedule,
    departures: &[i64],
    chain: &[Member],
) -> Result<Verdict, OutOfMemory>
    requires order { IsOrder flat.now.arcs order.now }
    requires short { ArePathsShort flat.now }
    requires in_range { IsLeastInRange schedule.now departures.now chain.now }
    ensures { IfOk result
        (λ verdict. OfTiming flat.now
        (λ t. IsVerdict t (Certificate.Least schedule.now departures.now chain.now) verdict)) }
{
    if !has_counts(flat, schedule, departures) {
        return Ok(Verdict::Invalid(1));
    }
    let departing = DepartingDesign {
        flat,
        departures,
        den: schedule.den,
    };
    let labels = labels_of(alloc, &departing, order)?;
    let fed = feeds_table(&departing, &labels);
    let clocked = ClockedDesign { flat, schedule };
    if let Some(test) = first_of_schedule(&clocked, departures, &labels, &fed) {
        return Ok(Verdict::Invalid(test));
    }
    if !are_ring(flat, &fed, chain) {
        return Ok(Verdict::Invalid(6));
    }
    if !is_tight(&clocked, chain) {
        return Ok(Verdict::Invalid(7));
    }
    Ok(Verdict::Valid)
}

/// The verdict on a chain alone.
fn judge_never(
    alloc: Global,
    flat: &Flat,
    order: &Order,
    chain: &[Member],
) -> Result<Verdict, OutOfMemory>
    requires order { IsOrder flat.now.arcs order.now }
    requires short { ArePathsShort flat.now }
    requires in_range { IsChainInRange chain.now }
    ensures { IfOk result (λ verdict. OfTiming flat.now (λ t. IsVerdict t (Certificate.Never chain.now) verdict)) }
{
    let departing = DepartingDesign {
        flat,
        departures: &[],
        den: 1,
    };
    let labels = labels_of(alloc, &departing, order)?;
    let fed = feeds_table(&departing, &labels);
    if !are_ring(flat, &fed, chain) {
        return Ok(Verdict::Invalid(6));
    }
    if !is_stuck(flat, chain) {
        return Ok(Verdict::Invalid(7));
    }
    Ok(Verdict::Valid)
}

/// The verdict on a certificate.
pub(crate) fn judge(
    alloc: Global,
    flat: &Flat,
    order: &Order,
    certificate: &Certificate,
) -> Result<Verdict, OutOfMemory>
    requires order { IsOrder flat.now.arcs order.now }
    requires short { ArePathsShort flat.now }
    requires in_range { IsCertificateInRange certificate.now }
    ensures { IfOk result (λ verdict. OfTiming flat.now (λ t. IsVerdict t certificate.now verdict)) }
{
    match certificate {
        Certificate::Least {
            schedule,
            departures,
            chain,
        } => judge_least(
            alloc,
            flat,
            order,
            schedule,
            departures.items(),
            chain.items(),
        ),
        Certificate::Never { chain } => judge_never(alloc, flat, order, chain.items()),
    }
}
