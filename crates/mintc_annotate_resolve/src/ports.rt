//! The ports that texts name.
ghost use Rattle.std.specs.Prelude.{◌≡◌, ◌<◌, length, All, find, map, bytes_eq, slice_index_or, [], ◌&&◌, ◌==◌};
ghost use Rattle.mintc_annotate_resolve.specs.Ports.{port_bit, whole_port, bit_called, place_in, AreInside};

use mintc_flatten_hierarchy::TopPort;
use mintc_text::Name;

/// A bit of a port of the top, and whether that is an output.
#[derive(Clone, Copy, Debug)]
pub struct PortBit {
    pub output: bool,
    pub bit: u32,
}

/// Whether a port has one bit and this name.
fn is_whole(port: &TopPort, text: &[u8]) -> bool
    ensures { result ≡ (bytes_eq port.now.name text.now && (length port.now.bits == 1)) }
{
    port.name.bytes() == text && port.bits.items().len() == 1
}

/// The bit of the one-bit port of this whole name.
fn whole_port(ports: &[TopPort], text: &[u8]) -> Option<PortBit>
    ensures { result ≡ whole_port ports.now text.now }
{
    for port in ports {
        if is_whole(port, text) {
            return Some(PortBit {
                output: port.output,
                bit: port.bits.items()[0],
            });
        }
    }
    None
}

/// The bit of a port that is called so.
fn bit_of(names: &[Name], port: &TopPort, text: &[u8]) -> Option<PortBit>
    requires { All (λ b. b < length names.now) port.now.bits }
    ensures { result ≡ find (λ p. bytes_eq (slice_index_or names.now p.bit []) text.now)
        (map (port_bit port.now.output) port.now.bits) }
{
    let bits = port.bits.items();
    for &bit in bits {
        if names[bit as usize].bytes() == text {
            return Some(PortBit {
                output: port.output,
                bit,
            });
        }
    }
    None
}

/// The bit of any port that is called so.
fn bit_called(names: &[Name], ports: &[TopPort], text: &[u8]) -> Option<PortBit>
    requires { AreInside (length names.now) ports.now }
    ensures { result ≡ bit_called names.now ports.now text.now }
{
    for port in ports {
        match bit_of(names, port, text) {
            Some(bit) => return Some(bit),
            None => {}
        }
    }
    None
}

/// The bit that a text names.
pub fn port_bit_named(names: &[Name], ports: &[TopPort], text: &[u8]) -> Option<PortBit>
    requires { AreInside (length names.now) ports.now }
    ensures { result ≡ place_in names.now ports.now text.now }
{
    match whole_port(ports, text) {
        Some(bit) => Some(bit),
        None => bit_called(names, ports, text),
    }
}
