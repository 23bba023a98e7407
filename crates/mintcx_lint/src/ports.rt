//! Ports of the top of which a clock description says nothing.
ghost use Rattle.std.specs.Prelude.{◌≡◌, ◌<◌, ◌+◌, ◌^◌, ◌&&◌, [], false, filter, true, IfOk, IfSome};
ghost use Rattle.std.specs.Prelude.{MatchOption, OnOk};
ghost use Rattle.std.specs.Bool.{beq};
ghost use Rattle.std.specs.List.{count_by, fold, list_any};
ghost use Rattle.mintc_text_names.specs.Names.{is_among, with_name};
ghost use Rattle.mintcx_lint.specs.Leaving.{IsFirst, is_left};
ghost use Rattle.mintcx_lint.specs.Ports.{IsUnlisted, count_of, is_bit_of, is_on, names_of, unlisted};

use mintc_clock::{Clock, Listed, PhaseDef};
use mintc_flatten_hierarchy::TopPort;
use mintc_text::{Name, OutOfMemory};
use mintc_text_names::NameSet;
use std::alloc::Global;

/// Ports of the top that no phase and no list names.
#[derive(Drop)]
pub struct Unlisted {
    /// How many of them are inputs.
    pub inputs: usize,
    /// How many are outputs.
    pub outputs: usize,
    /// The name of the first, in the order of the top's port list.
    pub first: Name,
}

/// The phases of a clock description, and the names of the ports that it lists.
#[derive(Drop)]
struct Named<'a> {
    phases: &'a [PhaseDef],
    listed: NameSet,
}

/// Whether a text names a bit of a port.
fn is_bit_of(port: &[u8], text: &[u8]) -> bool
    ensures { result ≡ is_bit_of port.now text.now }
{
    text.starts_with(port) && text.len() > port.len() && text[port.len()] == b'['
}

/// Whether a phase comes on a port, or on a bit of it.
fn is_on(port: &[u8], phase: &PhaseDef) -> bool
    ensures { result ≡ is_on port.now phase.now }
{
    phase.port.bytes() == port || is_bit_of(port, phase.port.bytes())
}

/// Whether some phase does.
fn has_phase(phases: &[PhaseDef], port: &[u8]) -> bool
    ensures { result ≡ list_any (is_on port.now) phases.now }
{
    for phase in phases {
        if is_on(port, phase) {
            return true;
        }
    }
    false
}

/// Takes in the names of listed ports.
fn add_listed(alloc: Global, names: &mut NameSet, listed: &[Listed]) -> Result<(), OutOfMemory>
    ensures { OnOk result (names.new ≡ fold with_name names.old (names_of listed.now)) }
{
    for port in listed {
        let _added = names.add(alloc, port.port.bytes())?;
    }
    Ok(())
}

/// The names of the ports that a clock description lists.
fn names_listed(alloc: Global, clock: &Clock) -> Result<NameSet, OutOfMemory>
    ensures { IfOk result (λ names. names
        ≡ fold with_name (fold with_name [] (names_of clock.now.inputs)) (names_of clock.now.outputs)) }
{
    let mut names = NameSet::new(alloc);
    add_listed(alloc, &mut names, clock.inputs.items())?;
    add_listed(alloc, &mut names, clock.outputs.items())?;
    Ok(names)
}

/// Whether a name is in a set.
fn has(names: &NameSet, name: &[u8]) -> bool
    ensures { result ≡ is_among name.now names.now }
{
    names.find(name).is_some()
}

/// Whether no phase and no list names a port.
fn is_left(named: &Named<'_>, port: &TopPort) -> bool
    ensures { result ≡ is_left named.now.phases.now named.now.listed port.now }
{
    let name = port.name.bytes();
    !(has_phase(named.phases, name) || has(&named.listed, name))
}

/// The same of a port of a direction.
fn is_left_of(named: &Named<'_>, port: &TopPort, output: bool) -> bool
    ensures { result
        ≡ (beq port.now.output output && is_left named.now.phases.now named.now.listed port.now) }
{
    port.output == output && is_left(named, port)
}

/// How many ports of a direction are left out.
fn count_left(ports: &[TopPort], named: &Named<'_>, output: bool) -> usize
    ensures value { result ≡ count_by
        (λ p. beq p.output output && is_left named.now.phases.now named.now.listed p) ports.now }
    ensures small { result < 2 ^ 63 }
{
    let mut count = 0;
    for port in ports {
        if is_left_of(named, port, output) {
            count += 1;
        }
    }
    count
}

/// The name of the first port that is left out.
fn first_left<'a>(ports: &'a [TopPort], named: &Named<'_>) -> Option<&'a [u8]>
    ensures { MatchOption result (filter (is_left named.now.phases.now named.now.listed) ports.now ≡ [])
        (λ name. IsFirst (filter (is_left named.now.phases.now named.now.listed) ports.now) name.now) }
{
    for port in ports {
        if is_left(named, port) {
            return Some(port.name.bytes());
        }
    }
    None
}

/// How many ports are left out, where this is the name of the first.
fn counted(
    alloc: Global,
    ports: &[TopPort],
    named: &Named<'_>,
    first: &[u8],
) -> Result<Unlisted, OutOfMemory>
    ensures name { IfOk result (λ found. found.first ≡ first.now) }
    ensures inputs { IfOk result (λ found. found.inputs
        ≡ count_of false (filter (is_left named.now.phases.now named.now.listed) ports.now)) }
    ensures outputs { IfOk result (λ found. found.outputs
        ≡ count_of true (filter (is_left named.now.phases.now named.now.listed) ports.now)) }
    ensures few { IfOk result (λ found. found.inputs + found.outputs < 2 ^ 64) }
{
    Ok(Unlisted {
        inputs: count_left(ports, named, false),
        outputs: count_left(ports, named, true),
        first: Name::new(alloc, first)?,
    })
}

/// The ports of the top that no phase and no list of a clock description names. None where there is no such port.
pub fn unlisted_ports(
    alloc: Global,
    ports: &[TopPort],
    clock: &Clock,
) -> Result<Option<Unlisted>, OutOfMemory>
    ensures found { IfOk result (λ found. MatchOption found (unlisted ports.now clock.now ≡ [])
        (IsUnlisted ports.now clock.now)) }
    ensures few { IfOk result (λ found. IfSome found (λ u. u.inputs + u.outputs < 2 ^ 64)) }
{
    let named = Named {
        phases: clock.phases.items(),
        listed: names_listed(alloc, clock)?,
    };
    match first_left(ports, &named) {
        Some(first) => Ok(Some(counted(alloc, ports, &named, first)?)),
        None => Ok(None),
    }
}
