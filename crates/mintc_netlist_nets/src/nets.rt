//! The table of a module's nets.
ghost use Rattle.std.specs.Prelude.{◌≡◌, ◌<◌, ◌++◌, ◌∷◌, [], Some, length, map, slice_index_or, position, bytes_eq};
ghost use Rattle.std.specs.Prelude.{IfOk, OnOk};
ghost use Rattle.mintc_netlist.specs.Nets.{bit_of, bits_of, indexes, range_of, names_of, is_output, place_of};
ghost use Rattle.mintc_netlist_nets.specs.Tables.{table_of, declared_ports, declared_nets, bit_place, part_place};

use crate::declared::Declarations;
use crate::net_names::net_set;
use crate::spans::{bits, index_at, offset};
use mintc_netlist::{Module, Span};
use mintc_text::OutOfMemory;
use mintc_text_names::NameSet;
use std::alloc::Global;
use std::marker::Model;

/// The nets of a module by name: the place of each net's first bit among the bits of all nets of the module, the range
/// of each net, what names are declared as, and how many bits there are. Places are counted from 0.
#[derive(Drop)]
pub struct Nets {
    names: NameSet,
    firsts: Vec<u64>,
    spans: Vec<Option<Span>>,
    ports: Declarations,
    wires: Declarations,
    count: u64,
}

impl Model for Nets {
    ghost use Rattle.mintc_netlist_nets.specs.Tables.{NetTable};

    ghost Value = { NetTable };

    ghost view = { λ n. record {
      names = n.names;
      firsts = n.firsts.items;
      spans = n.spans.items;
      ports = n.ports;
      wires = n.wires;
      count = n.count;
    } };
}

/// The range of a name, by the declarations of a module.
fn range(
    module_nets: &Module,
    ports: &Declarations,
    wires: &Declarations,
    name: &[u8],
) -> Option<Span>
    requires ports { ports.now ≡ declared_ports module_nets.now }
    requires wires { wires.now ≡ declared_nets module_nets.now }
    ensures { result ≡ range_of module_nets.now name.now }
{
    match ports.find(name) {
        Some(declaration) => declaration.span,
        None => match wires.find(name) {
            Some(declaration) => declaration.span,
            None => None,
        },
    }
}

impl Nets {
    /// The nets of a module.
    pub fn new(alloc: Global, module_nets: &Module) -> Result<Nets, OutOfMemory>
        ensures { IfOk result (λ nets. nets ≡ table_of module_nets.now) }
    {
        let names = net_set(alloc, module_nets)?;
        let items = module_nets.items.items();
        let ports = Declarations::of_ports(alloc, items)?;
        let wires = Declarations::of_nets(alloc, items)?;
        let mut firsts = Vec::new(alloc);
        let mut spans = Vec::new(alloc);
        let mut count: u64 = 0;
        for place in 0..names.len() {
            let span = range(module_nets, &ports, &wires, names.name(place));
            let width = bits(span);
            let Some(next) = count.checked_add(width) else {
                return Err(OutOfMemory);
            };
            firsts.push(count)?;
            spans.push(span)?;
            count = next;
        }
        Ok(Nets {
            names,
            firsts,
            spans,
            ports,
            wires,
            count,
        })
    }

    /// How many nets there are.
    pub fn len(&self) -> usize
        ensures { result ≡ length self.now.names }
    {
        self.names.len()
    }

    /// The name of the net at a place among them.
    pub fn name(&self, place: usize) -> &[u8]
        requires { place < length self.now.names }
        ensures { result.now ≡ slice_index_or self.now.names place [] }
    {
        self.names.name(place)
    }

    /// How many bits the nets have.
    pub fn count(&self) -> u64
        ensures { result ≡ self.now.count }
    {
        self.count
    }

    /// The range of a name that was looked up: where it is found. A name that is no net's may be declared all the same.
    fn span_at(&self, module_nets: &Module, name: &[u8], found: Option<usize>) -> Option<Span>
        requires table { self.now ≡ table_of module_nets.now }
        requires found { found ≡ position (bytes_eq name.now) (names_of module_nets.now) }
        ensures { result ≡ range_of module_nets.now name.now }
    {
        match found {
            Some(place) => self.spans[place],
            None => range(module_nets, &self.ports, &self.wires, name),
        }
    }

    /// The range of a name.
    pub fn range(&self, module_nets: &Module, name: &[u8]) -> Option<Span>
        requires { self.now ≡ table_of module_nets.now }
        ensures { result ≡ range_of module_nets.now name.now }
    {
        self.span_at(module_nets, name, self.names.find(name))
    }

    /// Whether a name is declared as an output.
    pub fn is_output(&self, module_nets: &Module, name: &[u8]) -> bool
        requires { self.now ≡ table_of module_nets.now }
        ensures { result ≡ is_output module_nets.now name.now }
    {
        match self.ports.find(name) {
            Some(declaration) => declaration.output,
            None => false,
        }
    }

    /// The place of a bit of a name that was looked up: where the name is found, and its range.
    fn net_place(
        &self,
        module_nets: &Module,
        name: &[u8],
        found: Option<usize>,
        span: Option<Span>,
        index: Option<u32>,
    ) -> u64
        requires table { self.now ≡ table_of module_nets.now }
        requires found { found ≡ position (bytes_eq name.now) (names_of module_nets.now) }
        requires span { span ≡ range_of module_nets.now name.now }
        ensures { result ≡ place_of module_nets.now (bit_of name.now index) }
    {
        let count = self.count;
        match found {
            Some(place) => match offset(span, index) {
                Some(at) => self.firsts[place] + at,
                None => count,
            },
            None => count,
        }
    }

    /// Takes in the places of the bits of a vector, or of a part of one, from the rightmost.
    pub(crate) fn push_part(
        &self,
        alloc: Global,
        module_nets: &Module,
        name: &[u8],
        part: Span,
        places: &mut Vec<Option<u64>>,
    ) -> Result<(), OutOfMemory>
        requires { self.now ≡ table_of module_nets.now }
        ensures { OnOk result (places.new.items ≡ places.old.items
            ++ map (part_place module_nets.now name.now) (indexes part)) }
    {
        let found = self.names.find(name);
        let span = self.span_at(module_nets, name, found);
        for number in 0..bits(Some(part)) {
            let index = index_at(part, number as u32);
            let place = self.net_place(module_nets, name, found, span, Some(index));
            places.push(Some(place))?;
        }
        Ok(())
    }

    /// The place of a bit among the bits of the module's nets; how many these are, where it is none of them.
    pub fn place(&self, module_nets: &Module, name: &[u8], index: Option<u32>) -> u64
        requires { self.now ≡ table_of module_nets.now }
        ensures { result ≡ place_of module_nets.now (bit_of name.now index) }
    {
        let found = self.names.find(name);
        let span = self.span_at(module_nets, name, found);
        self.net_place(module_nets, name, found, span, index)
    }

    /// Takes in the places of the bits of a whole net from the rightmost.
    pub fn push_net(
        &self,
        alloc: Global,
        module_nets: &Module,
        name: &[u8],
        places: &mut Vec<Option<u64>>,
    ) -> Result<(), OutOfMemory>
        requires { self.now ≡ table_of module_nets.now }
        ensures { OnOk result (places.new.items ≡ places.old.items
            ++ map (bit_place module_nets.now) (bits_of name.now (range_of module_nets.now name.now))) }
    {
        let found = self.names.find(name);
        let span = self.span_at(module_nets, name, found);
        match span {
            Some(part) => self.push_part(alloc, module_nets, name, part, places),
            None => push_place(places, self.net_place(module_nets, name, found, span, None)),
        }
    }
}

/// Takes in one place.
pub(crate) fn push_place(places: &mut Vec<Option<u64>>, place: u64) -> Result<(), OutOfMemory>
    ensures { OnOk result (places.new.items ≡ places.old.items ++ Some place ∷ []) }
{
    places.push(Some(place))?;
    Ok(())
}
