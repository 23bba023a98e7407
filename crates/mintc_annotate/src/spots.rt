//! Where the phases stand.
ghost use Rattle.std.specs.Prelude.{◌≡◌, ◌<◌, ◌^◌, ◌-◌, length, None, IfOk, MatchResult};
ghost use Rattle.mintc_text.specs.Stops.{StopsAt};
ghost use Rattle.mintc_annotate_resolve.specs.Ports.{AreInside, place_in, if_input};
ghost use Rattle.mintc_annotate.specs.ClockPorts.{has_phases_in, first_false, IsPortRefusal};
ghost use Rattle.mintc_annotate.specs.Phases.{spots_of};

use crate::searching::Spot;
use mintc_annotate_resolve::port_bit_named;
use mintc_clock::PhaseDef;
use mintc_flatten_hierarchy::TopPort;
use mintc_text::{Name, Refusal, Role, Stop};
use std::alloc::Global;

/// The bit of a phase: of an input.
fn phase_bit(names: &[Name], ports: &[TopPort], text: &[u8]) -> Option<u32>
    requires { AreInside (length names.now) ports.now }
    ensures { result ≡ if_input (place_in names.now ports.now text.now) }
{
    match port_bit_named(names, ports, text) {
        Some(place) => if place.output { None } else { Some(place.bit) },
        None => None,
    }
}

/// Where the phases stand. The refusal is NoInstance with the first phase whose port isn't one bit of an input.
pub(crate) fn spots_of(
    alloc: Global,
    names: &[Name],
    ports: &[TopPort],
    phases: &[PhaseDef],
) -> Result<Vec<Spot>, Stop>
    requires { AreInside (length names.now) ports.now }
    ensures value { MatchResult result
        (λ v. (first_false (has_phases_in names.now ports.now phases.now) ≡ None)
        × (v.items ≡ spots_of names.now ports.now phases.now))
        (StopsAt (IsPortRefusal (has_phases_in names.now ports.now phases.now))) }
    ensures few { IfOk result (λ v. length v.items < 2 ^ 32 - 1) }
{
    if phases.len() as u64 >= 4_294_967_295 {
        return Err(Stop::OutOfMemory);
    }
    let mut spots = Vec::new(alloc);
    for number in 0..phases.len() {
        let phase = &phases[number];
        let Some(bit) = phase_bit(names, ports, phase.port.bytes()) else {
            return Err(Stop::Refused(Refusal::NoInstance {
                role: Role::Clock,
                entry: number as u32 + 1,
            }));
        };
        spots.push(Spot {
            bit,
            high: phase.high,
        })?;
    }
    Ok(spots)
}
