//! What a text tells of: a system under a schedule.
ghost use Rattle.std.specs.Prelude.{◌≡◌, ◌<◌, length, slice_index_or};
ghost use Rattle.mintc_timing.specs.Design.{element_at, element_count, phase_count};
ghost use Rattle.mintc_timing.specs.Limits.{IsBound, IsElement, IsInRange, IsPhase};
ghost use Rattle.mintcx_frame.specs.Names.{element_name, phase_name};
ghost use Rattle.mintcx_judgements.specs.Rules.{no_bound};

use mintc_timing::{Bound, Element, Flat, Schedule, System};
use mintcx_amounts::Unit;

/// A system, a schedule in range that has its phases, and the unit of the times that are told.
#[derive(Clone, Copy)]
pub struct Told<'a> {
    pub system: &'a System,
    pub schedule: &'a Schedule,
    pub unit: Unit,
    ghost in_range: { IsInRange schedule.now },
    ghost phases: { length schedule.now.starts ≡ phase_count system.now.flat },
}

impl<'a> Told<'a> {
    ghost use Rattle.mintc_timing.specs.Limits.{IsDesign};

    /// The design.
    pub fn flat(&self) -> &'a Flat
        ensures value { result.now ≡ self.now.system.now.flat }
        ensures design { IsDesign self.now.system.now.flat }
        ensures phases { length self.now.schedule.now.starts ≡ phase_count self.now.system.now.flat }
        ensures in_range { IsInRange self.now.schedule.now }
    {
        self.system.flat()
    }

    /// The schedule.
    pub fn schedule(&self) -> &'a Schedule
        ensures value { result.now ≡ self.now.schedule.now }
        ensures phases { length result.now.starts ≡ phase_count self.now.system.now.flat }
        ensures in_range { IsInRange result.now }
    {
        self.schedule
    }

    /// An element.
    pub fn element(&self, number: u32) -> &'a Element
        requires { number < element_count self.now.system.now.flat }
        ensures value { result.now ≡ element_at self.now.system.now.flat number }
        ensures kept { IsElement (phase_count self.now.system.now.flat) result.now }
    {
        self.system.element(number)
    }

    /// The name of an element.
    pub fn element_name(&self, number: u32) -> &'a [u8]
        requires { number < element_count self.now.system.now.flat }
        ensures { result.now ≡ element_name self.now.system.now.flat number }
    {
        self.system.element(number).name.bytes()
    }

    /// The name of a phase, which is counted from 1.
    pub fn phase_name(&self, phase: u32) -> &'a [u8]
        requires { IsPhase (phase_count self.now.system.now.flat) phase }
        ensures { result.now ≡ phase_name self.now.system.now.flat phase }
    {
        self.system.flat().phases().items()[phase as usize - 1].bytes()
    }

    /// A bound. Bounds are counted from 0.
    pub fn bound(&self, number: u32) -> &'a Bound
        requires { number < length self.now.system.now.flat.bounds }
        ensures value { result.now ≡ slice_index_or self.now.system.now.flat.bounds number no_bound }
        ensures kept { IsBound (phase_count self.now.system.now.flat) result.now }
        ensures design { IsDesign self.now.system.now.flat }
    {
        &self.system.flat().bounds()[number as usize]
    }
}
