//! What walks leave of a pair's cycles.
ghost use Rattle.std.specs.Prelude.{◌≡◌, ◌<◌, ◌≤◌, length};
ghost use Rattle.mintc_timing.specs.Design.{element_count, pair_at};
ghost use Rattle.mintc_timing.specs.Limits.{IsDesign, IsSpan};
ghost use Rattle.mintc_timing.specs.Right.{IsLeastCycle};
ghost use Rattle.mintc_timing.specs.Paths.{HasEnds};
ghost use Rattle.mintc_timing.specs.Links.{node_count};
ghost use Rattle.mintc_slack.specs.Short.{IsShortCycle};
ghost use Rattle.mintc_graph_walks.specs.Bounds.{IsWithin};
ghost use Rattle.mintc_slack.specs.WalkedFrom.{AreSettled, AreSmall};
ghost use Rattle.mintc_slack.specs.PairRoom.{reach_of as reach_of_pair, room_of};
ghost use Rattle.mintc_slack.specs.Slack.{IsSlack};

use crate::arithmetic::{asked_of, floor_to_i64, negated_sum};
use mintc_fraction::Fraction;
use mintc_timing::{Link, System};
use mintc_timing_links::reach_link;

/// The link of a pair.
fn reach(system: &System, number: usize) -> Link
    requires { number < length system.now.pairs }
    ensures value { result ≡ reach_of_pair system.now.flat (pair_at system.now number) }
    ensures range { IsSpan result.delay }
    ensures cycles { result.cycles ≤ 1 }
    ensures from { result.from < node_count system.now.flat }
    ensures design { IsDesign system.now.flat }
    ensures ends { HasEnds system.now }
{
    let pair = system.pair(number);
    reach_link(system.flat(), pair.from, pair.to, pair.max)
}

/// What the greatest walk from a pair's end back to its beginning, and the pair itself, leave of their cycles.
fn room_left(system: &System, cycle: &Fraction, values: &[i128], number: usize) -> i128
    requires number { number < length system.now.pairs }
    requires cycle { IsShortCycle cycle.now }
    requires count { length values.now ≡ node_count system.now.flat }
    requires small { AreSmall system.now.flat values.now }
    ensures value { result ≡ room_of system.now.flat cycle.now values.now (pair_at system.now number) }
    ensures range { IsWithin 400000000000000000 result }
    ensures design { IsDesign system.now.flat }
    ensures ends { HasEnds system.now }
{
    let link = reach(system, number);
    negated_sum(values[link.from as usize], asked_of(&link, cycle))
}

/// The slack of a pair.
pub(crate) fn slack_of(system: &System, cycle: &Fraction, values: &[i128], number: usize) -> i64
    requires number { number < length system.now.pairs }
    requires cycle { IsShortCycle cycle.now }
    requires least { IsLeastCycle system.now cycle.now.num cycle.now.den }
    requires settled { AreSettled system.now cycle.now (pair_at system.now number).to values.now }
    ensures slack { IsSlack system.now cycle.now.num cycle.now.den number result }
    ensures range { IsWithin 1000000000000000000 result }
{
    floor_to_i64(room_left(system, cycle, values, number), cycle)
}
