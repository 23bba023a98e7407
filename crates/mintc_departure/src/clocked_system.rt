//! A system with a schedule that fits it.
ghost use Rattle.std.specs.Prelude.{◌≡◌, ◌≤◌, length};
ghost use Rattle.mintc_text.specs.declared.limits.TheConstants.{MOST_PHASES};
ghost use Rattle.mintc_timing.specs.Design.{phase_count};
ghost use Rattle.mintc_timing.specs.Limits.{IsInRange};

use mintc_timing::{Schedule, System};

/// A system, and a schedule in range that has its phases.
#[derive(Clone, Copy)]
pub(crate) struct ClockedSystem<'a> {
    pub system: &'a System,
    pub schedule: &'a Schedule,
    ghost in_range: { IsInRange schedule.now },
    ghost phases: { length schedule.now.starts ≡ phase_count system.now.flat },
}

impl ClockedSystem<'_> {
    ghost use Rattle.mintc_timing.specs.Design.{element_count};
    ghost use Rattle.mintc_departure.specs.Clocked.{IsClocked};

    /// The number of its elements.
    pub fn count(&self) -> usize
        ensures value { result ≡ element_count self.now.system.now.flat }
        ensures kept { IsClocked self.now.system.now self.now.schedule.now }
    {
        self.system.flat().elements().len()
    }

    /// The number of its phases.
    pub fn phase_count(&self) -> usize
        ensures value { result ≡ phase_count self.now.system.now.flat }
        ensures few { result ≤ MOST_PHASES }
    {
        self.system.flat().phases().items().len()
    }
}
