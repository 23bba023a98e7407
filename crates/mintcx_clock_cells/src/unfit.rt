//! Why a library with gates for the clock isn't given.
use mintc_text::{OutOfMemory, Refusal};

/// Why the cells of a library with gates for the clock aren't given.
#[derive(Debug, Drop)]
pub enum Unfit {
    /// The library's text is refused.
    Refused(Refusal),
    /// No cell has the name at this place of the list of gates, counted from 0.
    Unknown { at: usize },
    /// The gate at this place of the list can't carry the clock alone: it hasn't one input and one output, or its
    /// output neither always follows the input nor always is its opposite.
    Unusable { at: usize },
    /// Memory was wanting.
    OutOfMemory,
}

impl From<OutOfMemory> for Unfit {
    ghost use Rattle.std.specs.Prelude.{◌≡◌};
    ghost use Rattle.mintcx_clock_cells.specs.declared.unfit.Unfit.TheVariants as unfit;

    ghost from_gives = { λ _ e. e ≡ unfit.OutOfMemory };

    fn from(_: OutOfMemory) -> Self {
        Unfit::OutOfMemory
    }
}
