//! The explanation of a number.
ghost use Rattle.std.specs.Prelude.{MatchOption};
ghost use Rattle.mintcx_explanations.specs.Explanations.{IsOfNumber, IsRefusalNumber};

use crate::{delays, descriptions, designs, netlists, texts};

/// The explanation of the refusal with a number. None where no refusal has it.
pub fn explanation_of(number: u32) -> Option<&'static str>
    ensures { MatchOption result (IsRefusalNumber number → ⊥)
        (λ text. IsRefusalNumber number × IsOfNumber number text.now) }
{
    match number {
        1 => Some(texts::syntax()),
        2 => Some(texts::too_long()),
        3 => Some(netlists::name_twice()),
        4 => Some(netlists::no_module()),
        5 => Some(netlists::recursive()),
        6 => Some(netlists::no_pin()),
        7 => Some(netlists::width()),
        8 => Some(netlists::two_drivers()),
        9 => Some(netlists::top_unclear()),
        10 => Some(delays::no_instance()),
        11 => Some(delays::no_arc()),
        12 => Some(delays::negative()),
        13 => Some(descriptions::bad_cell()),
        14 => Some(descriptions::bad_clock()),
        15 => Some(descriptions::no_phase()),
        16 => Some(designs::combinational_loop()),
        17 => Some(designs::limit()),
        18 => Some(delays::range()),
        19 => Some(designs::phase_mismatch()),
        21 => Some(designs::path_range()),
        22 => Some(designs::corner()),
        _ => None,
    }
}
