//! Why a library with gates for the clock gives no design.
use mintc_text::{OutOfMemory, Refusal, Stop};
use mintcx_clock_cells::Unfit;

/// Why four files, of which one is a library with gates for the clock, give no design.
#[derive(Debug, Drop)]
pub enum Halt {
    /// They are refused so.
    Refused(Refusal),
    /// No cell has the name at this place of the list of gates, counted from 0.
    Unknown { at: usize },
    /// The gate at this place of the list, counted from 0, can't carry the clock alone.
    Unusable { at: usize },
    /// Memory was wanting.
    OutOfMemory,
}

impl From<Stop> for Halt {
    ghost use Rattle.std.specs.Prelude.{◌≡◌};
    ghost use Rattle.mintcx_edges.specs.Halts.{halt_of};

    ghost from_gives = { λ stop halt. halt ≡ halt_of stop };

    fn from(stop: Stop) -> Self {
        match stop {
            Stop::Refused(refusal) => Halt::Refused(refusal),
            Stop::OutOfMemory => Halt::OutOfMemory,
        }
    }
}

impl From<Unfit> for Halt {
    ghost use Rattle.std.specs.Prelude.{◌≡◌};
    ghost use Rattle.mintcx_edges.specs.Halts.{unfit_halt};

    ghost from_gives = { λ why halt. halt ≡ unfit_halt why };

    fn from(why: Unfit) -> Self {
        match why {
            Unfit::Refused(refusal) => Halt::Refused(refusal),
            Unfit::Unknown { at } => Halt::Unknown { at },
            Unfit::Unusable { at } => Halt::Unusable { at },
            Unfit::OutOfMemory => Halt::OutOfMemory,
        }
    }
}

impl From<OutOfMemory> for Halt {
    ghost use Rattle.std.specs.Prelude.{◌≡◌};
    ghost use Rattle.mintcx_edges.specs.declared.halt.Halt.TheVariants as halt;

    ghost from_gives = { λ _ e. e ≡ halt.OutOfMemory };

    fn from(_: OutOfMemory) -> Self {
        Halt::OutOfMemory
    }
}
