//! Frequencies of cycle times.
ghost use Rattle.std.specs.Prelude.{◌≡◌, ◌≤◌, ◌++◌, ◌^◌, pos, ◌≤ℤ◌, length, take, OnErr, OnOk};
ghost use Rattle.mintc_fraction.specs.Ratio.{IsModest};
ghost use Rattle.mintcx_amounts.specs.Frequencies.{band_word, frequency_of, frequency_text};

use crate::decimal::put_with_point;
use mintc_fraction::Fraction;
use mintc_text::{Lines, OutOfMemory};

/// A unit of frequency.
#[derive(Clone, Copy)]
pub(crate) enum Band {
    /// A megahertz.
    Mega,
    /// A gigahertz.
    Giga,
    /// A terahertz.
    Tera,
}

impl Band {
    /// Its name in texts, after a blank.
    fn word(self) -> &'static [u8]
        ensures { result.now ≡ band_word self }
    {
        match self {
            Band::Mega => b" MHz",
            Band::Giga => b" GHz",
            Band::Tera => b" THz",
        }
    }
}

/// A frequency in thousandths of its unit.
#[derive(Clone, Copy)]
pub(crate) struct Frequency {
    pub(crate) thousandths: u128,
    pub(crate) band: Band,
}

/// The frequency of a cycle time in femtoseconds, rounded down: in MHz below 10^4 of them, in GHz below 10^4 of these,
/// else in THz.
fn frequency_of(cycle: &Fraction) -> Frequency
    requires modest { IsModest cycle.now }
    requires some { pos 1 ≤ℤ cycle.now.num }
    ensures value { result ≡ frequency_of cycle.now }
    ensures few { result.thousandths ≤ 10 ^ 37 }
{
    let mega = cycle.den().unsigned_abs() * 1_000_000_000_000 / cycle.num().unsigned_abs();
    let giga = mega / 1_000;
    if mega < 10_000_000 {
        Frequency {
            thousandths: mega,
            band: Band::Mega,
        }
    } else if giga < 10_000_000 {
        Frequency {
            thousandths: giga,
            band: Band::Giga,
        }
    } else {
        Frequency {
            thousandths: giga / 1_000,
            band: Band::Tera,
        }
    }
}

/// Writes the frequency of a cycle time in femtoseconds, with three places and its unit. It is rounded down.
///
/// A want of memory may leave a part of it behind.
pub fn put_frequency(lines: &mut Lines, cycle: &Fraction) -> Result<(), OutOfMemory>
    requires modest { IsModest cycle.now }
    requires some { pos 1 ≤ℤ cycle.now.num }
    ensures ok { OnOk result (lines.new ≡ lines.old ++ frequency_text cycle.now) }
    ensures err { OnErr result (take (length lines.old) lines.new ≡ lines.old) }
{
    let frequency = frequency_of(cycle);
    put_with_point(lines, frequency.thousandths, 3)?;
    lines.put(frequency.band.word())
}
