//! What was judged, and the data that decides it.
ghost use Rattle.std.specs.Prelude.{◌≡◌, length, IfOk};
ghost use Rattle.mintc_fraction.specs.Ratio.{IsModest, over};
ghost use Rattle.mintc_timing.specs.Design.{phase_count};
ghost use Rattle.mintc_timing.specs.Limits.{IsDesign, IsInRange};
ghost use Rattle.mintcx_judgements.specs.Sources.{AreGreatest, number_by};
ghost use Rattle.mintcx_judgements.specs.declared.causes.Sought.TheVariants.{First, Last};

use crate::causes::{Sought, causes};
use crate::told::Told;
use mintc_fraction::Fraction;
use mintc_text::OutOfMemory;
use mintc_timing::{Schedule, System};
use mintcx_amounts::Unit;
use std::alloc::Global;

/// What was judged: a system under a schedule, with the late and the early departures of its elements, as numerators
/// over the schedule's denominator. They are empty where they do not settle.
#[derive(Clone, Copy)]
pub struct Judged<'a> {
    pub system: &'a System,
    pub schedule: &'a Schedule,
    pub late: &'a [i64],
    pub early: &'a [i64],
}

/// Departures, and the pair into each element whose data comes last, or first.
#[derive(Drop)]
pub struct Causes<'a> {
    pub told: Told<'a>,
    pub late: &'a [i64],
    pub early: &'a [i64],
    pub latest: Vec<Option<usize>>,
    pub earliest: Vec<Option<usize>>,
    ghost latest_are: { AreGreatest told.system.now (number_by Last told.system.now told.schedule.now late.now)
        (length told.system.now.pairs) latest.items },
    ghost earliest_are: { AreGreatest told.system.now (number_by First told.system.now told.schedule.now early.now)
        (length told.system.now.pairs) earliest.items },
}

impl Causes<'_> {
    ghost use Rattle.std.specs.Prelude.{◌<◌, IfSome};
    ghost use Rattle.mintc_timing.specs.Design.{element_count};
    ghost use Rattle.mintcx_judgements.specs.Sources.{earliest_into, latest_into};

    /// The pair into an element whose data comes last.
    pub fn latest(&self, element: u32) -> Option<usize>
        requires { element < element_count self.now.told.system.now.flat }
        ensures value { result
            ≡ latest_into self.now.told.system.now self.now.told.schedule.now self.now.late.now element }
        ensures inside { IfSome result (λ n. n < length self.now.told.system.now.pairs) }
    {
        self.latest[element as usize]
    }

    /// The pair whose data comes first.
    pub fn earliest(&self, element: u32) -> Option<usize>
        requires { element < element_count self.now.told.system.now.flat }
        ensures value { result
            ≡ earliest_into self.now.told.system.now self.now.told.schedule.now self.now.early.now element }
        ensures inside { IfSome result (λ n. n < length self.now.told.system.now.pairs) }
    {
        self.earliest[element as usize]
    }
}

/// The cycle time of a schedule, in femtoseconds.
pub(crate) fn cycle_time(schedule: &Schedule) -> Fraction
    requires { IsInRange schedule.now }
    ensures value { result ≡ over schedule.now.cycle schedule.now.den }
    ensures modest { IsModest result }
{
    Fraction::new(i128::from(schedule.cycle), i128::from(schedule.den))
}

/// What was judged, with the data that decides it.
pub fn causes_of<'a>(
    alloc: Global,
    judged: &Judged<'a>,
    unit: Unit,
) -> Result<Causes<'a>, OutOfMemory>
    requires in_range { IsInRange judged.now.schedule.now }
    requires phases { length judged.now.schedule.now.starts ≡ phase_count judged.now.system.now.flat }
    ensures system { IfOk result (λ causes. causes.told.system.now ≡ judged.now.system.now) }
    ensures schedule { IfOk result (λ causes. causes.told.schedule.now ≡ judged.now.schedule.now) }
    ensures unit { IfOk result (λ causes. causes.told.unit ≡ unit) }
    ensures late { IfOk result (λ causes. causes.late.now ≡ judged.now.late.now) }
    ensures early { IfOk result (λ causes. causes.early.now ≡ judged.now.early.now) }
    ensures design { IsDesign judged.now.system.now.flat }
{
    let told = Told {
        system: judged.system,
        schedule: judged.schedule,
        unit,
    };
    let latest = causes(alloc, &told, Sought::Last, judged.late)?;
    let earliest = causes(alloc, &told, Sought::First, judged.early)?;
    Ok(Causes {
        told,
        late: judged.late,
        early: judged.early,
        latest,
        earliest,
    })
}
