//! Certificates: what shows that a cycle time is the least, or that no schedule is right.
ghost use Rattle.std.specs.Prelude.{◌≡◌};

use crate::Members;
use mintc_text::Items;
use mintc_timing::Schedule;

/// A departure for each element, as numerators over the schedule's denominator, seen as their list.
pub type Departures = Items<i64>;

/// What shows that the cycle of a schedule is the least, or that no schedule is right.
#[derive(Drop)]
pub enum Certificate {
    /// A right schedule with its departures, and a chain that forbids every smaller cycle.
    Least {
        schedule: Schedule,
        departures: Departures,
        chain: Members,
    },
    /// A chain that forbids every cycle.
    Never {
        chain: Members,
    },
}
