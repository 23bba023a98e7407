//! What names are declared as.
ghost use Rattle.std.specs.Prelude.{◌≡◌, [], map, fold, IfOk, OnOk};
ghost use Rattle.std.specs.List.{flat_map};
ghost use Rattle.mintc_netlist_nets.specs.Declaring.{look, with_declaration, declared_as, port_declarations};
ghost use Rattle.mintc_netlist_nets.specs.Declaring.{net_declarations};

use indexmap::IndexMap;
use mintc_netlist::{Item, Span};
use mintc_text::{Name, OutOfMemory};
use std::alloc::Global;
use std::marker::Model;

/// What a statement declares a name as: its range, where it is a vector, and whether it is an output port.
#[derive(Clone, Copy)]
pub struct Declaration {
    pub span: Option<Span>,
    pub output: bool,
}

/// Names with what they are declared as, each name with its first declaration. Seen as the list of these pairs.
#[derive(Drop)]
pub struct Declarations {
    entries: IndexMap<Vec<u8>, Declaration>,
}

impl Model for Declarations {
    ghost use Rattle.std.specs.Prelude.{ℕ, List, map};
    ghost use Rattle.mintc_netlist_nets.specs.declared.declared.Declaration.{Declaration};

    ghost Value = { List (List ℕ × Declaration) };

    ghost view = { λ d. map (λ e. (e.0.items, e.1)) d.entries.entries };
}

impl Declarations {
    /// No names.
    pub fn new(alloc: Global) -> Declarations
        ensures { result ≡ [] }
    {
        Declarations {
            entries: IndexMap::new(alloc),
        }
    }

    /// Takes a name in, where it isn't there.
    fn note(
        &mut self,
        alloc: Global,
        name: &[u8],
        declaration: Declaration,
    ) -> Result<(), OutOfMemory>
        ensures { OnOk result (self.new ≡ with_declaration self.old (name.now, declaration)) }
    {
        if self.entries.contains_key(name) {
            return Ok(());
        }
        let bytes = Vec::from_slice(alloc, name)?;
        self.entries.insert(bytes, declaration)?;
        Ok(())
    }

    /// Takes in the names of one declaration.
    fn note_all(
        &mut self,
        alloc: Global,
        names: &[Name],
        declaration: Declaration,
    ) -> Result<(), OutOfMemory>
        ensures { OnOk result (self.new ≡ fold with_declaration self.old (map (declared_as declaration) names.now)) }
    {
        for name in names {
            self.note(alloc, name.bytes(), declaration)?;
        }
        Ok(())
    }

    /// Takes in what an item declares as ports.
    pub fn note_ports(&mut self, alloc: Global, item: &Item) -> Result<(), OutOfMemory>
        ensures { OnOk result (self.new ≡ fold with_declaration self.old (port_declarations item.now)) }
    {
        match item {
            Item::Port {
                output,
                span,
                names,
                ..
            } => {
                let declaration = Declaration {
                    span: *span,
                    output: *output,
                };
                self.note_all(alloc, names.items(), declaration)
            }
            _ => Ok(()),
        }
    }

    /// Takes in what an item declares as nets.
    pub fn note_nets(&mut self, alloc: Global, item: &Item) -> Result<(), OutOfMemory>
        ensures { OnOk result (self.new ≡ fold with_declaration self.old (net_declarations item.now)) }
    {
        match item {
            Item::Wire { span, names, .. } => {
                let declaration = Declaration {
                    span: *span,
                    output: false,
                };
                self.note_all(alloc, names.items(), declaration)
            }
            _ => Ok(()),
        }
    }

    /// What items declare as ports.
    pub fn of_ports(alloc: Global, items: &[Item]) -> Result<Declarations, OutOfMemory>
        ensures { IfOk result (λ ds. ds ≡ fold with_declaration [] (flat_map port_declarations items.now)) }
    {
        let mut ports = Declarations::new(alloc);
        for item in items {
            ports.note_ports(alloc, item)?;
        }
        Ok(ports)
    }

    /// What items declare as nets.
    pub fn of_nets(alloc: Global, items: &[Item]) -> Result<Declarations, OutOfMemory>
        ensures { IfOk result (λ ds. ds ≡ fold with_declaration [] (flat_map net_declarations items.now)) }
    {
        let mut nets = Declarations::new(alloc);
        for item in items {
            nets.note_nets(alloc, item)?;
        }
        Ok(nets)
    }

    /// What a name is declared as.
    pub fn find(&self, name: &[u8]) -> Option<Declaration>
        ensures { result ≡ look name.now self.now }
    {
        self.entries.get(name).copied()
    }
}
