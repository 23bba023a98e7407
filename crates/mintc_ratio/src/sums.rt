//! The sums of a chain, and its ratio.
ghost use Rattle.std.specs.Prelude.{◌≡◌, ◌≤◌, ◌*◌, ℕ, pos, ◌≤ℤ◌};
ghost use Rattle.mintc_constraints.specs.Ordinary.{IsOrdinary, constraints_of, most_nodes};
ghost use Rattle.mintc_fraction.specs.Ratio.{IsEqual, over};
ghost use Rattle.mintc_ratio.specs.Chains.{NamesChain, links_at};
ghost use Rattle.mintc_ratio.specs.Climbing.{IsLow, grid_of};
ghost use Rattle.mintc_ratio.specs.Searched.{IsCycle, IsOfNodes};
ghost use Rattle.mintc_ratio.specs.Sums.{HasSums, IsSmall, most_delay};

use crate::weighed::nth_link;
use mintc_fraction::Fraction;
use mintc_timing::Link;

/// The sums over a chain's links: their delays, in femtoseconds, and their cycles.
#[derive(Clone, Copy, Debug)]
pub(crate) struct Sums {
    pub delay: i64,
    pub cycles: u32,
}

/// The sums over the links of these numbers.
pub(crate) fn sums_of(nodes: u32, links: &[Link], chain: &[u32]) -> Sums
    requires ordinary { IsOrdinary (constraints_of nodes links.now) }
    requires chain { NamesChain links.now chain.now }
    ensures sums { HasSums (links_at links.now chain.now) result }
    ensures small { IsSmall nodes result }
{
    let mut delay = 0;
    let mut cycles = 0;
    for number in chain {
        let link = nth_link(links, *number as usize);
        delay += link.delay;
        cycles += link.cycles;
    }
    Sums { delay, cycles }
}

/// The ratio of sums with a cycle: the delay over the cycles, in lowest terms.
pub(crate) fn ratio_of(sums: Sums) -> Fraction
    requires turns { 1 ≤ sums.cycles }
    requires cycles { sums.cycles ≤ most_nodes }
    requires low { pos 0 ≤ℤ sums.delay }
    requires high { sums.delay ≤ℤ most_delay }
    ensures value { IsEqual result (over sums.delay (pos sums.cycles)) }
    ensures cycle { IsCycle result }
    ensures small { (nodes : ℕ) → sums.cycles ≤ nodes → sums.delay ≤ℤ pos (nodes * 2000000000) →
        IsOfNodes nodes result }
{
    Fraction::new(i128::from(sums.delay), i128::from(sums.cycles)).reduced()
}

/// How many parts of the grid a femtosecond has, for so many nodes.
pub(crate) fn grid_of(nodes: u32) -> i128
    requires { nodes ≤ most_nodes }
    ensures { result ≡ grid_of nodes }
{
    2 * i128::from(nodes) * i128::from(nodes)
}

/// The greatest part of the grid that the ratio of the sums isn't below.
pub(crate) fn low_of(nodes: u32, sums: Sums) -> i128
    requires some { 1 ≤ nodes }
    requires nodes { nodes ≤ most_nodes }
    requires turns { 1 ≤ sums.cycles }
    requires cycles { sums.cycles ≤ most_nodes }
    requires low { pos 0 ≤ℤ sums.delay }
    requires high { sums.delay ≤ℤ most_delay }
    ensures { IsLow nodes sums result }
{
    Fraction::new(i128::from(sums.delay), i128::from(sums.cycles)).floor_at(grid_of(nodes))
}
