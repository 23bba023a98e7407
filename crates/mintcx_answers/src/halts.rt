//! Why a question has no answer.
ghost use Rattle.std.specs.Prelude.{◌≡◌};

use mintc_text::{OutOfMemory, Refusal, Stop};

/// Why a question has no answer.
#[derive(Debug, Drop)]
pub enum Halt {
    /// Its files are refused so.
    Refused(Refusal),
    /// The files of this corner, counted from 1, are the first that are refused, and so they are.
    Corner { corner: u32, own: Refusal },
    /// Memory was wanting.
    OutOfMemory,
}

impl From<Stop> for Halt {
    ghost use Rattle.std.specs.Prelude.{◌≡◌};
    ghost use Rattle.mintcx_answers.specs.Halts.{halt_of};

    ghost from_gives = { λ stop halt. halt ≡ halt_of stop };

    fn from(stop: Stop) -> Self {
        match stop {
            Stop::Refused(refusal) => Halt::Refused(refusal),
            Stop::OutOfMemory => Halt::OutOfMemory,
        }
    }
}

impl From<OutOfMemory> for Halt {
    ghost use Rattle.std.specs.Prelude.{◌≡◌};
    ghost use Rattle.mintcx_answers.specs.declared.halts.Halt.TheVariants as halt;

    ghost from_gives = { λ _ e. e ≡ halt.OutOfMemory };

    fn from(_: OutOfMemory) -> Self {
        Halt::OutOfMemory
    }
}
