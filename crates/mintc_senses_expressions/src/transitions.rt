//! Transitions: which edges at a start make which edges at an end.
ghost use Rattle.std.specs.Prelude.{◌≡◌};
ghost use Rattle.mintc_senses_expressions.specs.Transitions.{no_transitions, same_edges, all_transitions, turned};
ghost use Rattle.mintc_senses_expressions.specs.Transitions.{together, has_some, all_if_some};

/// Which edges at one place, as an input of a gate, may make which edges at another one, as its output.
#[derive(Clone, Copy, Debug)]
pub struct Transitions {
    pub rise_to_rise: bool,
    pub rise_to_fall: bool,
    pub fall_to_rise: bool,
    pub fall_to_fall: bool,
}

impl Transitions {
    /// No edge makes any.
    pub fn none() -> Transitions
        ensures { result ≡ no_transitions }
    {
        Transitions {
            rise_to_rise: false,
            rise_to_fall: false,
            fall_to_rise: false,
            fall_to_fall: false,
        }
    }

    /// Each edge makes its own kind.
    pub fn same() -> Transitions
        ensures { result ≡ same_edges }
    {
        Transitions {
            rise_to_rise: true,
            rise_to_fall: false,
            fall_to_rise: false,
            fall_to_fall: true,
        }
    }

    /// Each edge may make both.
    pub fn all() -> Transitions
        ensures { result ≡ all_transitions }
    {
        Transitions {
            rise_to_rise: true,
            rise_to_fall: true,
            fall_to_rise: true,
            fall_to_fall: true,
        }
    }

    /// The edges at the end turned.
    pub fn turned(self) -> Transitions
        ensures { result ≡ turned self }
    {
        Transitions {
            rise_to_rise: self.rise_to_fall,
            rise_to_fall: self.rise_to_rise,
            fall_to_rise: self.fall_to_fall,
            fall_to_fall: self.fall_to_rise,
        }
    }

    /// Those of one and those of the other.
    pub fn with(self, other: Transitions) -> Transitions
        ensures { result ≡ together self other }
    {
        Transitions {
            rise_to_rise: self.rise_to_rise || other.rise_to_rise,
            rise_to_fall: self.rise_to_fall || other.rise_to_fall,
            fall_to_rise: self.fall_to_rise || other.fall_to_rise,
            fall_to_fall: self.fall_to_fall || other.fall_to_fall,
        }
    }

    /// Whether some edge makes some.
    pub fn has_some(self) -> bool
        ensures { result ≡ has_some self }
    {
        (self.rise_to_rise || self.rise_to_fall) || (self.fall_to_rise || self.fall_to_fall)
    }

    /// All where there is one.
    pub(crate) fn all_if_some(self) -> Transitions
        ensures { result ≡ all_if_some self }
    {
        if self.has_some() {
            Transitions::all()
        } else {
            Transitions::none()
        }
    }
}
