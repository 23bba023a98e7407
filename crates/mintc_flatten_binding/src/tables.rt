//! The nets of all modules of a netlist, and what stands beside them.
ghost use Rattle.std.specs.Prelude.{◌≡◌, map, IfOk};
ghost use Rattle.mintc_netlist_nets.specs.Tables.{table_of};

use mintc_cells::Cells;
use mintc_netlist::Module;
use mintc_netlist_nets::Nets;
use mintc_text::OutOfMemory;
use std::alloc::Global;

/// A module with the table of its nets.
#[derive(Clone, Copy)]
pub struct ModuleNets<'a> {
    pub part: &'a Module,
    pub nets: &'a Nets,
    ghost is_of: { nets.now ≡ table_of part.now },
}

/// The cells and the modules of a netlist, with the nets of each module.
#[derive(Clone, Copy)]
pub struct Source<'a> {
    pub cells: &'a Cells,
    pub modules: &'a [Module],
    pub nets: &'a [Nets],
    ghost are_of: { nets.now ≡ map table_of modules.now },
}

/// The nets of each module.
pub fn find_nets(alloc: Global, modules: &[Module]) -> Result<Vec<Nets>, OutOfMemory>
    ensures { IfOk result (λ nets. nets.items ≡ map table_of modules.now) }
{
    let mut tables = Vec::new(alloc);
    for module in modules {
        let nets = Nets::new(alloc, module)?;
        tables.push(nets)?;
    }
    Ok(tables)
}
