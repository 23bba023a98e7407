//! The ports of the top.
ghost use Rattle.std.specs.Prelude.{◌≡◌, Some, map, IfOk, IfSome};
ghost use Rattle.mintc_netlist_nets.specs.Tables.{table_of};
ghost use Rattle.mintc_netlist.specs.Connections.{port_of, ports_of};
ghost use Rattle.mintc_flatten_hierarchy.specs.Hierarchies.{top_port};

use mintc_flatten_hierarchy::TopPort;
use mintc_netlist::Module;
use mintc_netlist_nets::Nets;
use mintc_text::{Name, Numbers, OutOfMemory};
use std::alloc::Global;

/// Places of bits that all are there, as numbers.
fn numbers(alloc: Global, places: &[Option<u64>]) -> Result<Numbers, OutOfMemory>
    ensures { IfOk result (λ numbers. map Some numbers ≡ places.now) }
{
    let mut numbers = Vec::new(alloc);
    for place in places {
        let Some(number) = number(*place) else {
            return Err(OutOfMemory);
        };
        numbers.push(number)?;
    }
    Ok(Numbers::new(numbers))
}

/// A place as a number, where it is one and small.
fn number(place: Option<u64>) -> Option<u32>
    ensures { IfSome result (λ number. Some number ≡ place) }
{
    match place {
        Some(place) => u32::try_from(place).ok(),
        None => None,
    }
}

/// A port of the top.
fn port(alloc: Global, module: &Module, nets: &Nets, name: &Name) -> Result<TopPort, OutOfMemory>
    requires { nets.now ≡ table_of «module».now }
    ensures { IfOk result (λ port. port ≡ top_port (port_of «module».now name.now)) }
{
    let mut places = Vec::new(alloc);
    nets.push_net(alloc, module, name.bytes(), &mut places)?;
    Ok(TopPort {
        name: name.copy(alloc)?,
        output: nets.is_output(module, name.bytes()),
        bits: numbers(alloc, &places)?,
    })
}

/// The ports of the top.
pub(crate) fn top_ports(
    alloc: Global,
    module: &Module,
    nets: &Nets,
) -> Result<Vec<TopPort>, OutOfMemory>
    requires { nets.now ≡ table_of «module».now }
    ensures { IfOk result (λ ports. ports.items ≡ map top_port (ports_of «module».now)) }
{
    let mut ports = Vec::new(alloc);
    for name in module.ports.items() {
        let port = port(alloc, module, nets, name)?;
        ports.push(port)?;
    }
    Ok(ports)
}
