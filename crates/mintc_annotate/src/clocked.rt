//! The ports that a clock names.
ghost use Rattle.std.specs.Prelude.{◌≤◌, length, All, MatchResult};
ghost use Rattle.mintc_text.specs.Stops.{StopsAt};
ghost use Rattle.mintc_annotate_resolve.specs.Ports.{AreInside};
ghost use Rattle.mintc_annotate.specs.ClockPorts.{has_ports_in, IsPortRefusal};
ghost use Rattle.mintc_annotate.specs.Clocked.{AreClocked};

use crate::listing::count_bits;
use crate::searching::Spot;
use crate::spots::spots_of;
use mintc_clock::Clock;
use mintc_flatten_hierarchy::TopPort;
use mintc_text::{Name, Stop};
use std::alloc::Global;

/// Where the phases of a clock stand, and how many bits its listed inputs and outputs have, each up to `MOST_TOLD`.
#[derive(Drop)]
pub struct Clocked {
    pub spots: Vec<Spot>,
    pub inputs: u64,
    pub outputs: u64,
}

/// The ports that a clock names. The refusal is NoInstance of the clock, with the first phase whose port isn't one
/// bit of an input, or the first listed port that isn't there.
pub fn clock_ports(
    alloc: Global,
    names: &[Name],
    ports: &[TopPort],
    clock: &Clock,
) -> Result<Clocked, Stop>
    requires inside { AreInside (length names.now) ports.now }
    requires some { All (λ p. 1 ≤ length p.bits) ports.now }
    ensures { MatchResult result (AreClocked names.now ports.now clock.now)
        (StopsAt (IsPortRefusal (has_ports_in names.now ports.now clock.now))) }
{
    let phases = clock.phases.items();
    let inputs = clock.inputs.items();
    let outputs = clock.outputs.items();
    if phases.len() >= 1_000_000_000
        || inputs.len() >= 1_000_000_000
        || outputs.len() >= 1_000_000_000
    {
        return Err(Stop::OutOfMemory);
    }
    let spots = spots_of(alloc, names, ports, phases)?;
    let before = phases.len() as u32;
    let input_bits = count_bits(ports, false, inputs, before)?;
    let output_bits = count_bits(ports, true, outputs, before + inputs.len() as u32)?;
    Ok(Clocked {
        spots,
        inputs: input_bits,
        outputs: output_bits,
    })
}
