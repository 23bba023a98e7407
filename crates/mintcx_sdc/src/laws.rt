//! Laws of what is written. Each function does nothing of its own: its contract is the law.
ghost use Rattle.mintcx_sdc.specs.Times.{TimesAreExact};

use mintcx_amounts::amounts;

/// The decimal of each time, read back, is the time exactly.
pub fn times_are_exact()
    ensures { TimesAreExact }
{
    amounts();
}
