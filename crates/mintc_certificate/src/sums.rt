//! The sums over a chain.
ghost use Rattle.std.specs.Prelude.{◌≡◌, pos, negsuc, ◌≤ℤ◌, All};
ghost use Rattle.mintc_text.specs.declared.limits.TheConstants.{MOST_MEMBERS};
ghost use Rattle.mintc_timing.specs.Links.{cycles_of, delay_of};
ghost use Rattle.mintc_timing.specs.Order.{ArePathsShort};
ghost use Rattle.mintc_certificate.specs.Valid.{IsNamed, links_of_members};
ghost use Rattle.mintc_certificate.specs.Ranges.{IsChainInRange};

use crate::links::link_of;
use crate::members::Member;
use mintc_timing::Flat;

/// The sums over a chain: its delay in femtoseconds, and its cycles.
#[derive(Clone, Copy)]
pub struct ChainSums {
    pub delay: i64,
    pub cycles: i64,
}

/// The sums over the links of the members.
pub fn sums_of(flat: &Flat, members: &[Member]) -> ChainSums
    requires short { ArePathsShort flat.now }
    requires named { All (IsNamed flat.now) members.now }
    requires chain { IsChainInRange members.now }
    ensures delay { result.delay ≡ delay_of (links_of_members flat.now members.now) }
    ensures cycles { result.cycles ≡ cycles_of (links_of_members flat.now members.now) }
    ensures delay_range { (negsuc 65535999999999 ≤ℤ result.delay) × (result.delay ≤ℤ pos 65536000000000) }
    ensures cycles_range { (pos 0 ≤ℤ result.cycles) × (result.cycles ≤ℤ pos MOST_MEMBERS) }
{
    let mut delay = 0;
    let mut cycles = 0;
    for member in members {
        let link = link_of(flat, member);
        delay += link.delay;
        cycles += i64::from(link.cycles);
    }
    ChainSums { delay, cycles }
}
