//! The limits of a run.
ghost use Rattle.std.specs.Prelude.{◌≡◌};
ghost use Rattle.mintc_text.specs.Limits.{AreLimits, large, usual};

use crate::limits::Most;
use std::marker::Model;

/// What a run takes at most: numbers that are within the limits of what can be worked on, and with which each chain
/// that enters no moment twice can be said.
#[derive(Clone, Copy)]
pub struct Limits {
    most: Most,
}

impl Model for Limits {
    ghost use Rattle.mintc_text.specs.Limits.{AreLimits};
    ghost use Rattle.mintc_text.specs.declared.limits.Most.{Most};

    ghost Value = { Most };

    ghost view = { λ l. l.most };

    ghost invariant = { λ l. AreLimits l.most };

    ghost inverse = { λ m. record { most = m } };
}

impl Limits {
    /// These limits.
    pub fn new(most: Most) -> Limits
        requires { AreLimits most }
        ensures { result ≡ most }
    {
        Limits { most }
    }

    /// The limits of `mintc`.
    pub fn usual() -> Limits
        ensures { result ≡ usual }
    {
        Limits::new(Most {
            bytes: 67_108_864,
            elements: 2_000,
            inner: 262_144,
            arcs: 524_288,
            pairs: 200_000,
            scopes: 50_000,
            leaves: 50_000,
            members: 4_096,
            slack: 2_000,
        })
    }

    /// The largest limits.
    pub fn large() -> Limits
        ensures { result ≡ large }
    {
        Limits::new(Most {
            bytes: 1_073_741_824,
            elements: 20_000,
            inner: 8_388_608,
            arcs: 16_777_216,
            pairs: 10_000_000,
            scopes: 1_000_000,
            leaves: 1_000_000,
            members: 32_768,
            slack: 2_000,
        })
    }

    /// The numbers.
    pub fn most(&self) -> Most
        ensures value { result ≡ self.now }
        ensures kept { AreLimits self.now }
    {
        self.most
    }
}
