//! The bits of ports by their texts.
ghost use Rattle.std.specs.Prelude.{◌≡◌, ◌<◌, ℕ, List, length, All, None, IfOk, OnOk};
ghost use Rattle.std.specs.Option.{option_or};
ghost use Rattle.mintc_annotate_resolve.specs.Ports.{whole_port, bit_called, place_in, AreInside};
ghost use Rattle.mintc_annotate_resolve.specs.Instances.{IsKey};
ghost use Rattle.mintc_annotate_resolve.specs.Places.{place_at, HasPlaces, only, whole_of, among_bits};

use crate::ports::PortBit;
use mintc_flatten_hierarchy::TopPort;
use mintc_text::{Name, OutOfMemory};
use std::alloc::Global;
use std::collections::HashMap;

/// Takes in a place under a text, unless the text has one already.
fn note(
    places: &mut HashMap<Vec<u8>, PortBit>,
    alloc: Global,
    text: &[u8],
    place: PortBit,
) -> Result<(), OutOfMemory>
    ensures { OnOk result (HasPlaces places.new (λ k. option_or (place_at places.old k) (only text.now place k))) }
{
    if places.contains_key(text) {
        return Ok(());
    }
    let key = Vec::from_slice(alloc, text)?;
    places.insert(key, place)?;
    Ok(())
}

/// Takes in a port of one bit under its whole name.
fn note_whole(
    places: &mut HashMap<Vec<u8>, PortBit>,
    alloc: Global,
    port: &TopPort,
) -> Result<(), OutOfMemory>
    ensures { OnOk result (HasPlaces places.new (λ k. option_or (place_at places.old k) (whole_of port.now k))) }
{
    let bits = port.bits.items();
    if bits.len() != 1 {
        return Ok(());
    }
    let bit = bits[0];
    note(
        places,
        alloc,
        port.name.bytes(),
        PortBit {
            output: port.output,
            bit,
        },
    )
}

/// Takes in all ports of one bit.
fn note_wholes(
    places: &mut HashMap<Vec<u8>, PortBit>,
    alloc: Global,
    ports: &[TopPort],
) -> Result<(), OutOfMemory>
    requires { (k : List ℕ) → place_at places.old k ≡ None }
    ensures { OnOk result (HasPlaces places.new (whole_port ports.now)) }
{
    for port in ports {
        note_whole(places, alloc, port)?;
    }
    Ok(())
}

/// Takes in the bits of a port under what they are called.
fn note_bits(
    places: &mut HashMap<Vec<u8>, PortBit>,
    alloc: Global,
    names: &[Name],
    port: &TopPort,
) -> Result<(), OutOfMemory>
    requires { All (λ b. b < length names.now) port.now.bits }
    ensures { OnOk result
        (HasPlaces places.new
        (λ k. option_or (place_at places.old k) (among_bits names.now port.now port.now.bits k))) }
{
    let bits = port.bits.items();
    for &bit in bits {
        note(
            places,
            alloc,
            names[bit as usize].bytes(),
            PortBit {
                output: port.output,
                bit,
            },
        )?;
    }
    Ok(())
}

/// Takes in the bits of all ports.
fn note_all_bits(
    places: &mut HashMap<Vec<u8>, PortBit>,
    alloc: Global,
    names: &[Name],
    ports: &[TopPort],
) -> Result<(), OutOfMemory>
    requires { AreInside (length names.now) ports.now }
    ensures { OnOk result
        (HasPlaces places.new (λ k. option_or (place_at places.old k) (bit_called names.now ports.now k))) }
{
    for port in ports {
        note_bits(places, alloc, names, port)?;
    }
    Ok(())
}

/// The places of all texts.
pub fn index_places(
    alloc: Global,
    names: &[Name],
    ports: &[TopPort],
) -> Result<HashMap<Vec<u8>, PortBit>, OutOfMemory>
    requires { AreInside (length names.now) ports.now }
    ensures { IfOk result (λ m. HasPlaces m (place_in names.now ports.now)) }
{
    let mut places = HashMap::new(alloc);
    note_wholes(&mut places, alloc, ports)?;
    note_all_bits(&mut places, alloc, names, ports)?;
    Ok(places)
}

/// The place of a text. After an error the key is of no use.
pub(crate) fn find_place(
    places: &HashMap<Vec<u8>, PortBit>,
    key: &mut Vec<u8>,
    text: &[u8],
) -> Result<Option<PortBit>, OutOfMemory>
    ensures { IfOk result (λ o. IsKey text.now × (o ≡ place_at places.now text.now)) }
{
    key.clear();
    key.extend_from_slice(text)?;
    Ok(places.get(key.as_slice()).copied())
}
