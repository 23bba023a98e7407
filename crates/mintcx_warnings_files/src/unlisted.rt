//! The warning of ports of the top that no phase and no list names.
ghost use Rattle.std.specs.Prelude.{◌<◌, ◌≤◌, ◌+◌, ◌^◌, IfOk, IfSome, length};
ghost use Rattle.mintcx_warnings.specs.Ports.{ports_said};
ghost use Rattle.mintcx_warnings_files.specs.Written.{IsOfPorts, IsShownIn};

use crate::files::{File, scene};
use crate::parts::Parts;
use mintc_text::{Bytes, OutOfMemory};
use mintc_vlex::next_token;
use mintcx_finders::name_of;
use mintcx_lint::{Unlisted, unlisted_ports};
use mintcx_places::{Range, statement_range};
use mintcx_warnings::ports_text;
use std::alloc::Global;

/// Where a name stands first in a text between two places. None where it doesn't.
fn name_between(text: &[u8], from: usize, to: usize, name: &[u8]) -> Option<Range>
    ensures { IfSome result (λ range. range.from ≤ length text.now) }
{
    let mut at = from;
    while let Some(token) = next_token(text, at) {
        let range = Range {
            from: token.from,
            to: token.to,
        };
        if range.to > to {
            return None;
        }
        if name_of(text, &range) == name {
            return Some(range);
        }
        at = token.to;
    }
    None
}

/// Where a port stands in the statement that begins its module, behind the module's name. None where it isn't found.
fn port_place(text: &[u8], statement: u32, port: &[u8]) -> Option<Range>
    ensures { IfSome result (λ range. range.from ≤ length text.now) }
{
    let range = statement_range(text, statement)?;
    let keyword = next_token(text, range.from)?;
    let name = next_token(text, keyword.to)?;
    name_between(text, name.to, range.to, port)
}

/// The warning of some ports that no phase and no list names.
fn found_text(
    alloc: Global,
    found: &Unlisted,
    top: u32,
    netlist: &File<'_>,
) -> Result<Bytes, OutOfMemory>
    requires { found.now.inputs + found.now.outputs < 2 ^ 64 }
    ensures { IfOk result (IsShownIn netlist.now (ports_said found.now)) }
{
    let place = port_place(netlist.text, top, found.first.bytes());
    ports_text(alloc, found, &scene(netlist, place))
}

/// The warning of ports of the top that no phase and no list names; no byte where there are none.
pub(crate) fn unlisted_text(
    alloc: Global,
    parts: &Parts,
    netlist: &File<'_>,
) -> Result<Bytes, OutOfMemory>
    ensures { IfOk result (IsOfPorts netlist.now parts.now) }
{
    match unlisted_ports(alloc, parts.hierarchy.ports.items(), &parts.clock)? {
        Some(found) => found_text(alloc, &found, parts.top, netlist),
        None => Ok(Bytes::new(Vec::new(alloc))),
    }
}
