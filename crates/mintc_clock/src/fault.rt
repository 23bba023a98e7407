//! Why the items of a list gave no values.

use mintc_text::OutOfMemory;
use std::alloc::AllocFailed;

/// Why the items of a list gave no values.
#[derive(Clone, Copy, Debug)]
pub(crate) enum Fault {
    /// The item of that number, from 1, is the first that fails.
    Item(u32),
    /// Memory was wanting.
    OutOfMemory,
}

impl From<OutOfMemory> for Fault {
    ghost use Rattle.std.specs.Prelude.{◌≡◌};
    ghost use Rattle.mintc_clock.specs.declared.fault.Fault.TheVariants as fault;

    ghost from_gives = { λ _ e. e ≡ fault.OutOfMemory };

    fn from(_: OutOfMemory) -> Self {
        Fault::OutOfMemory
    }
}

impl<T: Drop> From<AllocFailed<T>> for Fault {
    ghost use Rattle.std.specs.Prelude.{◌≡◌};
    ghost use Rattle.mintc_clock.specs.declared.fault.Fault.TheVariants as fault;

    ghost from_gives = { λ _ e. e ≡ fault.OutOfMemory };

    fn from(_: AllocFailed<T>) -> Self {
        Fault::OutOfMemory
    }
}
