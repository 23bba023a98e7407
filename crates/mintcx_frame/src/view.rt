//! How an answer is shown.
ghost use Rattle.std.specs.Prelude.{◌≡◌};
ghost use Rattle.mintc_fraction.specs.Ratio.{IsModest};
ghost use Rattle.mintcx_frame.specs.Ends.{unit_for};

use mintc_fraction::Fraction;
use mintc_text::Name;
use mintcx_amounts::Unit;
use mintcx_manners::{Limit, TimeUnit};

/// How an answer is shown: what it is about, as `ring` or `ring under own.schedule`, the unit of its times, how many
/// rows of a list, and whether its design has each element twice, once for each edge of data.
#[derive(Drop)]
pub struct View {
    pub subject: Name,
    pub unit: TimeUnit,
    pub limit: Limit,
    pub apart: bool,
}

impl View {
    /// The unit of the times of an answer with this cycle time in femtoseconds: the one that is asked for, else the one
    /// that fits the cycle.
    pub fn unit_for(&self, cycle: &Fraction) -> Unit
        requires { IsModest cycle.now }
        ensures { result ≡ unit_for self.now.unit cycle.now }
    {
        match self.unit {
            TimeUnit::Auto => Unit::of_cycle(cycle),
            TimeUnit::Fs => Unit::Femto,
            TimeUnit::Ps => Unit::Pico,
            TimeUnit::Ns => Unit::Nano,
        }
    }
}
