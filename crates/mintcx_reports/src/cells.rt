//! The cells of gates, by the paths of their instances in a netlist.
ghost use Rattle.std.specs.Prelude.{◌≡◌, length, IfOk};

use mintc_certificate::{Certificate, Member};
use mintc_netlist::{Item, Module, Netlist};
use mintc_text::{Name, Names, OutOfMemory};
use mintc_text_names::NameSet;
use mintc_timing::Flat;
use mintcx_chain::gate_of;
use std::alloc::Global;

/// The instances of a module by their names, of each name the first one, with the name of its cell.
#[derive(Drop)]
struct Instances<'a> {
    names: NameSet,
    cells: Vec<&'a Name>,
}

/// The modules of a netlist by their names, of each name the first one, with its instances.
#[derive(Drop)]
struct Modules<'a> {
    names: NameSet,
    instances: Vec<Instances<'a>>,
}

/// Takes in an instance. An item of another kind is passed over.
fn add_item<'a>(
    instances: &mut Instances<'a>,
    alloc: Global,
    item: &'a Item,
) -> Result<(), OutOfMemory> {
    if let Item::Instance { cell, name, .. } = item {
        if instances.names.add(alloc, name.bytes())? {
            instances.cells.push(cell)?;
        }
    }
    Ok(())
}

/// The instances of a module.
fn instances_of(alloc: Global, module: &Module) -> Result<Instances, OutOfMemory> {
    let mut instances = Instances {
        names: NameSet::new(alloc),
        cells: Vec::new(alloc),
    };
    for item in module.items.items() {
        add_item(&mut instances, alloc, item)?;
    }
    Ok(instances)
}

/// Takes in a module.
fn add_module<'a>(
    modules: &mut Modules<'a>,
    alloc: Global,
    module: &'a Module,
) -> Result<(), OutOfMemory> {
    if modules.names.add(alloc, module.name.bytes())? {
        modules.instances.push(instances_of(alloc, module)?)?;
    }
    Ok(())
}

/// The modules of a netlist.
fn modules_of(alloc: Global, netlist: &Netlist) -> Result<Modules, OutOfMemory> {
    let mut modules = Modules {
        names: NameSet::new(alloc),
        instances: Vec::new(alloc),
    };
    for module in netlist.modules.items() {
        add_module(&mut modules, alloc, module)?;
    }
    Ok(modules)
}

/// The cell of the instance of a name in a module, if there is one.
fn cell_in<'a>(modules: &'a Modules, module: usize, name: &[u8]) -> Option<&'a [u8]> {
    let instances = modules.instances.get(module)?;
    let cell = instances.cells.get(instances.names.find(name)?)?;
    Some(cell.bytes())
}

/// The place of the module of which the instance of a name is in a module, if it is of one.
fn module_in(modules: &Modules, module: usize, name: &[u8]) -> Option<usize> {
    modules.names.find(cell_in(modules, module, name)?)
}

/// The cell of the instance of a path, from the module of a place on: a part of the path up to a point that is the name
/// of an instance of another module leads into that module. Empty where the path leads to none.
fn cell_of<'a>(modules: &'a Modules, top: usize, path: &[u8]) -> &'a [u8] {
    let mut module = top;
    let mut begin = 0;
    for (end, byte) in path.iter().enumerate() {
        if *byte == b'.' {
            if let Some(inner) = module_in(modules, module, &path[begin..end]) {
                module = inner;
                begin = end + 1;
            }
        }
    }
    cell_in(modules, module, &path[begin..]).unwrap_or(b"")
}

/// Marks the arcs of a member.
fn mark_member(marks: &mut [bool], member: &Member)
    ensures { length marks.new ≡ length marks.old }
{
    if let Member::Reach { arcs, .. } = member {
        for number in arcs.items() {
            if let Some(mark) = marks.get_mut(*number as usize) {
                *mark = true;
            }
        }
    }
}

/// The members of the chain of a certificate.
fn members_of(certificate: &Certificate) -> &[Member] {
    match certificate {
        Certificate::Least { chain, .. } | Certificate::Never { chain } => chain.items(),
    }
}

/// Whether each of so many arcs is on the chain of a certificate.
fn marks_of(
    alloc: Global,
    count: usize,
    certificate: &Certificate,
) -> Result<Vec<bool>, OutOfMemory>
    ensures { IfOk result (λ marks. length marks.items ≡ count) }
{
    let mut marks = vec![in alloc; false; count]?;
    for member in members_of(certificate) {
        mark_member(&mut marks, member);
    }
    Ok(marks)
}

/// The cell of the gate of an arc. Empty where it is of no gate, and where its cell is unknown.
fn cell_of_arc<'a>(modules: &'a Modules, top: usize, flat: &Flat, number: u32) -> &'a [u8] {
    match gate_of(flat, number) {
        Some(gate) => cell_of(modules, top, gate),
        None => b"",
    }
}

/// The cells of the gates of the arcs that are marked, with an empty name for each other arc.
fn marked_cells(
    alloc: Global,
    modules: &Modules,
    top: usize,
    flat: &Flat,
    marks: &[bool],
) -> Result<Names, OutOfMemory>
    requires { length marks.now ≡ length flat.now.arcs }
    ensures { IfOk result (λ names. length names ≡ length flat.now.arcs) }
{
    let mut names = Vec::new(alloc);
    for number in 0..flat.arcs().len() as u32 {
        let cell = if marks[number as usize] {
            cell_of_arc(modules, top, flat, number)
        } else {
            b""
        };
        names.push(Name::new(alloc, cell)?)?;
    }
    Ok(Names::new(names))
}

/// The cells of the gates on the chain of a certificate of a design, which was made of a netlist from the module of
/// this name on: a name for each arc of the design, which is empty where the arc isn't on the chain, where it is of no
/// gate, and where its cell is unknown.
pub fn cells_of(
    alloc: Global,
    netlist: &Netlist,
    top: &[u8],
    flat: &Flat,
    certificate: &Certificate,
) -> Result<Names, OutOfMemory>
    ensures { IfOk result (λ names. length names ≡ length flat.now.arcs) }
{
    let modules = modules_of(alloc, netlist)?;
    let marks = marks_of(alloc, flat.arcs().len(), certificate)?;
    let top = modules.names.find(top).unwrap_or(0);
    marked_cells(alloc, &modules, top, flat, &marks)
}
