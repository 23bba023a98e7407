//! Designs with what the tests read beside them.
ghost use Rattle.std.specs.Prelude.{◌≡◌, length};
ghost use Rattle.mintc_timing.specs.Limits.{IsInRange};

use mintc_timing::{Flat, Schedule};

/// A design with a schedule that fits it: its numbers are in range, and it has the design's phases.
#[derive(Clone, Copy)]
pub(crate) struct ClockedDesign<'a> {
    pub flat: &'a Flat,
    pub schedule: &'a Schedule,
    ghost in_range: { IsInRange schedule.now },
    ghost phases: { length schedule.now.starts ≡ length flat.now.phases },
}
