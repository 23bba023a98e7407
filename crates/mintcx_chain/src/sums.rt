//! The sums over a chain.
ghost use Rattle.std.specs.Prelude.{◌≡◌, ◌≤◌, pos, ◌≤ℤ◌, negsuc, length, All};
ghost use Rattle.mintc_text.specs.declared.limits.TheConstants.{MOST_MEMBERS};
ghost use Rattle.mintcx_chain.specs.Names.{IsShort};
ghost use Rattle.mintcx_chain.specs.Sums.{cycles_of, delay_of};

use crate::stages::Stage;

/// The delay of a chain in femtoseconds, and its cycles.
#[derive(Clone, Copy, Drop)]
pub struct Sums {
    pub delay: i64,
    pub cycles: u64,
}

/// The sums over the stages of a chain.
pub fn sums_of(stages: &[Stage]) -> Sums
    requires short { All IsShort stages.now }
    requires most { length stages.now ≤ MOST_MEMBERS }
    ensures delay { result.delay ≡ delay_of stages.now }
    ensures cycles { result.cycles ≡ cycles_of stages.now }
    ensures least { negsuc 131071999999999 ≤ℤ result.delay }
    ensures greatest { result.delay ≤ℤ pos 131072000000000 }
    ensures few { result.cycles ≤ MOST_MEMBERS }
{
    let mut delay = 0;
    let mut cycles = 0;
    for stage in stages {
        delay += stage.delay;
        cycles += u64::from(stage.cycles);
    }
    Sums { delay, cycles }
}
