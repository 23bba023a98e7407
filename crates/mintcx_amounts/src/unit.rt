//! Units of time.
ghost use Rattle.std.specs.Prelude.{◌≡◌, ◌≤◌, ◌^◌};
ghost use Rattle.mintc_fraction.specs.Ratio.{IsModest};
ghost use Rattle.mintcx_amounts.specs.Units.{femtoseconds, unit_of, unit_word};

use mintc_fraction::Fraction;

/// A unit of time.
#[derive(Clone, Copy, Debug, PartialEq, Eq)]
pub enum Unit {
    /// A femtosecond.
    Femto,
    /// A picosecond, 1,000 femtoseconds.
    Pico,
    /// A nanosecond, 1,000,000 femtoseconds.
    Nano,
}

impl Unit {
    /// The unit for the times of an answer with this cycle time, in femtoseconds: femtoseconds below 10^4 of them,
    /// picoseconds below 10^8, else nanoseconds.
    #[tactic(auto, using(crate::proofs::UnitLaws::cases))]
    pub fn of_cycle(cycle: &Fraction) -> Unit
        requires { IsModest cycle.now }
        ensures { result ≡ unit_of cycle.now }
    {
        if cycle.num() < 10_000 * cycle.den() {
            Unit::Femto
        } else if cycle.num() < 100_000_000 * cycle.den() {
            Unit::Pico
        } else {
            Unit::Nano
        }
    }

    /// How many femtoseconds it has.
    pub fn femtoseconds(self) -> u128
        ensures value { result ≡ femtoseconds self }
        ensures some { 1 ≤ result }
        ensures few { result ≤ 10 ^ 6 }
    {
        match self {
            Unit::Femto => 1,
            Unit::Pico => 1_000,
            Unit::Nano => 1_000_000,
        }
    }

    /// Its name in texts.
    pub fn word(self) -> &'static [u8]
        ensures { result.now ≡ unit_word self }
    {
        match self {
            Unit::Femto => b"fs",
            Unit::Pico => b"ps",
            Unit::Nano => b"ns",
        }
    }
}
