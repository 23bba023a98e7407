//! Numerators at a cycle time of the search, and what is reckoned with them: they are so small that nothing overflows.
ghost use Rattle.std.specs.Prelude.{◌≡◌, ◌≤◌, ◌+ℤ◌, ◌-ℤ◌, neg_ℤ};
ghost use Rattle.mintc_text.specs.declared.limits.TheConstants.{MOST_LINK_DELAY};
ghost use Rattle.mintc_fraction.specs.Ratio.{IsModest, over};
ghost use Rattle.mintc_ratio.specs.Greatest.{asked_by_link};
ghost use Rattle.mintc_slack.specs.Short.{IsShortCycle};
ghost use Rattle.mintc_graph_walks.specs.Bounds.{IsWithin};
ghost use Rattle.mintc_slack.specs.PairRoom.{IsWhole};

use mintc_fraction::Fraction;
use mintc_ratio::weight_at;
use mintc_timing::Link;

/// What a link asks for.
pub(crate) fn asked_of(link: &Link, at: &Fraction) -> i128
    requires delay { IsWithin MOST_LINK_DELAY link.now.delay }
    requires cycles { link.now.cycles ≤ 1 }
    requires cycle { IsShortCycle at.now }
    ensures value { result ≡ asked_by_link at.now link.now }
    ensures small { IsWithin 13000000000000 result }
{
    weight_at(link, at)
}

/// A difference less a third number.
pub(crate) fn minus_both(x: i128, y: i128, z: i128) -> i128
    requires x { IsWithin 30000000000000000 x }
    requires y { IsWithin 30000000000000000 y }
    requires z { IsWithin 100000000000000000 z }
    ensures value { result ≡ x -ℤ y -ℤ z }
    ensures small { IsWithin 160000000000000000 result }
{
    x - y - z
}

/// What a sum leaves of nothing.
pub(crate) fn negated_sum(x: i128, y: i128) -> i128
    requires x { IsWithin 200000000000000000 x }
    requires y { IsWithin 13000000000000 y }
    ensures value { result ≡ neg_ℤ (x +ℤ y) }
    ensures small { IsWithin 400000000000000000 result }
{
    -(x + y)
}

/// The sum of two distances.
pub(crate) fn sum(x: i64, y: i64) -> i64
    requires x { IsWithin 100000000000000000 x }
    requires y { IsWithin 100000000000000000 y }
    ensures { result ≡ x +ℤ y }
{
    x + y
}

/// A number over a cycle time's denominator.
fn over_den(left: i128, cycle: &Fraction) -> Fraction
    requires cycle { IsShortCycle cycle.now }
    requires left { IsWithin 400000000000000000 left }
    ensures value { result ≡ over left cycle.now.den }
    ensures modest { IsModest result }
{
    Fraction::new(left, cycle.den())
}

/// The greatest whole number that fits in a number over a cycle time's denominator.
fn floor_of(left: i128, cycle: &Fraction) -> i128
    requires cycle { IsShortCycle cycle.now }
    requires left { IsWithin 400000000000000000 left }
    ensures whole { IsWhole cycle.now left result }
    ensures range { IsWithin 1000000000000000000 result }
{
    over_den(left, cycle).floor_at(1)
}

/// The same with 64 bits.
pub(crate) fn floor_to_i64(left: i128, cycle: &Fraction) -> i64
    requires cycle { IsShortCycle cycle.now }
    requires left { IsWithin 400000000000000000 left }
    ensures whole { IsWhole cycle.now left result }
    ensures range { IsWithin 1000000000000000000 result }
{
    floor_of(left, cycle) as i64
}
