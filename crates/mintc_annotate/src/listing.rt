//! The bits of listed ports.
ghost use Rattle.std.specs.Prelude.{◌≡◌, ◌<◌, ◌≤◌, ◌+◌, ◌++◌, ◌&&◌, [], length, map, min, is_some, bytes_eq, unwrap_or};
ghost use Rattle.std.specs.Prelude.{None, All, IfOk, OnOk, OnErr, MatchResult};
ghost use Rattle.std.specs.Bool.{beq};
ghost use Rattle.mintc_text.specs.Stops.{StopsAt};
ghost use Rattle.mintc_flatten_hierarchy.specs.Shape.{IsPort};
ghost use Rattle.mintc_clock.specs.ClockOf.{first_failing};
ghost use Rattle.mintc_annotate_resolve.specs.Ports.{AreInside};
ghost use Rattle.mintc_annotate.specs.ClockPorts.{listed_in, has_listed_in, IsEntryRefusal};
ghost use Rattle.mintc_annotate.specs.Gathered.{AreBits, AreListed};
ghost use Rattle.mintc_annotate.specs.Made.{bits_in};
ghost use Rattle.mintc_annotate.specs.Counts.{with_port, place_bit};

use mintc_clock::{Clock, Listed};
use mintc_flatten_hierarchy::{Hierarchy, TopPort};
use mintc_text::limits::MOST_TOLD;
use mintc_text::{OutOfMemory, Refusal, Role, Stop};
use std::alloc::Global;

/// A bit of a listed port: the place of the port in its list, and the bit.
#[derive(Clone, Copy)]
pub struct ListedBit {
    pub place: usize,
    pub bit: u32,
}

/// The bits of the listed inputs and of the listed outputs.
#[derive(Drop)]
pub struct ListedBits {
    pub inputs: Vec<ListedBit>,
    pub outputs: Vec<ListedBit>,
}

/// Whether a port has this name and this direction.
fn is_called(port: &TopPort, output: bool, text: &[u8]) -> bool
    ensures { result ≡ (bytes_eq port.now.name text.now && beq port.now.output output) }
{
    port.name.bytes() == text && port.output == output
}

/// The bits of the whole port of a direction that is listed; none where there is no such port.
fn port_bits<'a>(ports: &'a [TopPort], output: bool, listed: &Listed) -> &'a [u32]
    ensures { result.now ≡ unwrap_or (listed_in ports.now output listed.now) [] }
{
    for port in ports {
        if is_called(port, output, listed.port.bytes()) {
            return port.bits.items();
        }
    }
    &[]
}

/// A count with more added, or `MOST_TOLD` where it is larger.
fn add_up_to_most(count: u64, more: usize) -> u64
    requires { count ≤ MOST_TOLD }
    ensures { result ≡ min (count + more) MOST_TOLD }
{
    let more = (more as u64).min(MOST_TOLD);
    (count + more).min(MOST_TOLD)
}

/// How many bits listed ports have, or `MOST_TOLD` where there are more. The refusal is NoInstance of the clock
/// with the first that is no whole port of this direction; entries are counted on from those before.
pub(crate) fn count_bits(
    ports: &[TopPort],
    output: bool,
    listed: &[Listed],
    before: u32,
) -> Result<u64, Stop>
    requires ports { All (λ p. 1 ≤ length p.bits) ports.now }
    requires before { before ≤ 2000000000 }
    requires few { length listed.now < 1000000000 }
    ensures { MatchResult result
        (λ n. (first_failing (λ test. test) (before + 1) (has_listed_in ports.now output listed.now) ≡ None)
        × (n ≡ min (length (bits_in ports.now output listed.now)) MOST_TOLD))
        (StopsAt (IsEntryRefusal
        (first_failing (λ test. test) (before + 1) (has_listed_in ports.now output listed.now)))) }
{
    let mut total = 0;
    for number in 0..listed.len() {
        let bits = port_bits(ports, output, &listed[number]);
        if bits.is_empty() {
            return Err(Stop::Refused(Refusal::NoInstance {
                role: Role::Clock,
                entry: before + number as u32 + 1,
            }));
        }
        total = add_up_to_most(total, bits.len());
    }
    Ok(total)
}

/// Adds the bits of a listed port.
fn push_bits(found: &mut Vec<ListedBit>, place: usize, bits: &[u32]) -> Result<(), OutOfMemory>
    ensures { OnOk result (found.new.items ≡ found.old.items ++ map (place_bit place) bits.now) }
{
    for &bit in bits {
        found.push(ListedBit { place, bit })?;
    }
    Ok(())
}

/// The bits of listed ports, in file order and from the rightmost.
fn bits_in(
    alloc: Global,
    ports: &[TopPort],
    output: bool,
    listed: &[Listed],
) -> Result<Vec<ListedBit>, OutOfMemory>
    ensures { IfOk result (λ v. (map (with_port listed.now) v.items ≡ bits_in ports.now output listed.now)
        × All (λ x. x.place < length listed.now) v.items) }
{
    let mut found = Vec::new(alloc);
    for place in 0..listed.len() {
        push_bits(&mut found, place, port_bits(ports, output, &listed[place]))?;
    }
    Ok(found)
}

/// The bits of the listed ports of a hierarchy's top.
fn bits_of(
    alloc: Global,
    hierarchy: &Hierarchy,
    output: bool,
    listed: &[Listed],
) -> Result<Vec<ListedBit>, OutOfMemory>
    requires { All (IsPort hierarchy.now) hierarchy.now.ports }
    ensures { IfOk result (λ v. AreBits hierarchy.now output listed.now v.items) }
{
    bits_in(alloc, hierarchy.ports.items(), output, listed)
}

/// The bits of the inputs and of the outputs that a clock lists.
pub fn listed_bits(
    alloc: Global,
    hierarchy: &Hierarchy,
    clock: &Clock,
) -> Result<ListedBits, OutOfMemory>
    requires { All (IsPort hierarchy.now) hierarchy.now.ports }
    ensures { IfOk result (AreListed hierarchy.now clock.now) }
{
    Ok(ListedBits {
        inputs: bits_of(alloc, hierarchy, false, clock.inputs.items())?,
        outputs: bits_of(alloc, hierarchy, true, clock.outputs.items())?,
    })
}
