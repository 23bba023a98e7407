//! Phases that a clock can't have both: of one name, or of one port and one level.
ghost use Rattle.std.specs.Prelude.{◌≡◌, ◌<◌, ◌^◌, [], not, None, length, IfOk, OnOk, MatchResult};
ghost use Rattle.mintc_clock.specs.ClockOf.{first_clash, names_of};
ghost use Rattle.mintc_clock.specs.Reads.{FailsAt};
ghost use Rattle.mintc_clock.specs.Taken.{has_port, has_some, with_port, with_phase, AreTaken};

use crate::clock::PhaseDef;
use crate::fault::Fault;
use mintc_text::OutOfMemory;
use mintc_text_names::NameSet;
use std::alloc::Global;

/// What the phases so far have taken: their names, and their ports at each level.
#[derive(Drop)]
pub(crate) struct Taken {
    pub(crate) names: NameSet,
    pub(crate) highs: NameSet,
    pub(crate) lows: NameSet,
}

impl Taken {
    /// What no phase has taken.
    fn new(alloc: Global) -> Taken
        ensures { AreTaken [] result }
    {
        Taken {
            names: NameSet::new(alloc),
            highs: NameSet::new(alloc),
            lows: NameSet::new(alloc),
        }
    }

    /// Takes a phase's port at its level, and says whether it was free.
    fn take_port(&mut self, alloc: Global, phase: &PhaseDef) -> Result<bool, OutOfMemory>
        ensures free { IfOk result (λ free. free ≡ not (has_port self.old phase.now)) }
        ensures taken { OnOk result (self.new ≡ with_port self.old phase.now) }
    {
        if phase.high {
            self.highs.add(alloc, phase.port.bytes())
        } else {
            self.lows.add(alloc, phase.port.bytes())
        }
    }

    /// Takes what a phase has, and says whether all of it was free.
    fn take(&mut self, alloc: Global, phase: &PhaseDef) -> Result<bool, OutOfMemory>
        ensures free { IfOk result (λ free. free ≡ not (has_some self.old phase.now)) }
        ensures taken { OnOk result (self.new ≡ with_phase self.old phase.now) }
    {
        let named = self.names.add(alloc, phase.name.bytes())?;
        let ported = self.take_port(alloc, phase)?;
        Ok(named && ported)
    }

    /// Takes what some phases have, unless one clashes with an earlier one: then the number, from 1, of the first
    /// that does.
    fn take_all(&mut self, alloc: Global, phases: &[PhaseDef]) -> Result<(), Fault>
        requires few { length phases.now < 2 ^ 32 }
        requires none { AreTaken [] self.old }
        ensures { MatchResult result (λ _. (first_clash 1 [] phases.now ≡ None)
            × AreTaken phases.now self.new) (FailsAt (first_clash 1 [] phases.now)) }
    {
        for number in 0..phases.len() {
            let free = self.take(alloc, &phases[number])?;
            if !free {
                return Err(Fault::Item(number as u32 + 1));
            }
        }
        Ok(())
    }
}

/// The names of some phases, unless one clashes with an earlier one: then the number, from 1, of the first that does.
pub(crate) fn names_of(alloc: Global, phases: &[PhaseDef]) -> Result<NameSet, Fault>
    requires { length phases.now < 2 ^ 32 }
    ensures { MatchResult result (λ names. (first_clash 1 [] phases.now ≡ None)
        × (names ≡ names_of phases.now)) (FailsAt (first_clash 1 [] phases.now)) }
{
    let mut taken = Taken::new(alloc);
    taken.take_all(alloc, phases)?;
    Ok(taken.names)
}
