//! Names that are given twice.
ghost use Rattle.std.specs.Prelude.{◌≡◌, ◌||◌, ◌++◌, ◌∷◌, [], None, false, bytes_eq, IfOk};
ghost use Rattle.std.specs.List.{filter_map};
ghost use Rattle.std.specs.Option.{option_map_or};
ghost use Rattle.mintc_text_names.specs.Names.{is_among};
ghost use Rattle.mintc_netlist.specs.Again.{comes_again};
ghost use Rattle.mintc_netlist.specs.Connections.{named_pins};
ghost use Rattle.mintc_flatten_hierarchy.specs.Faults.{is_name_twice};
ghost use Rattle.mintc_flatten_rules.specs.Firsts.{first_after};
ghost use Rattle.mintc_flatten_rules.specs.Twice.{AddsPin, first_again, is_pin_among};
ghost use Rattle.mintc_flatten_hierarchy.specs.Sources.{source_of, modules_of};
ghost use Rattle.mintc_netlist.specs.Statements.{first_at_fault};

use mintc_cells::Cells;
use mintc_netlist::{Connection, Item, Module, entry};
use mintc_text::{Name, OutOfMemory};
use mintc_text_names::NameSet;
use std::alloc::Global;

/// Takes in names up to the first that was there or comes twice, and says whether there is one.
fn add_again(alloc: Global, names: &mut NameSet, more: &[Name]) -> Result<bool, OutOfMemory>
    ensures again { IfOk result (λ again. again ≡ comes_again bytes_eq names.old more.now) }
    ensures names { IfOk result (λ again. again ≡ false → names.new ≡ names.old ++ more.now) }
{
    for name in more {
        if !names.add(alloc, name.bytes())? {
            return Ok(true);
        }
    }
    Ok(false)
}

/// So many connections are rather compared with one another than kept by the names of their pins.
const FEW: usize = 16;

/// Whether a connection names a pin.
fn is_to(pin: &[u8], connection: &Connection) -> bool
    ensures { result ≡ option_map_or (bytes_eq pin.now) connection.now.pin false }
{
    match &connection.pin {
        Some(other) => pin == other.bytes(),
        None => false,
    }
}

/// Whether one of some connections names a pin.
fn is_named(pin: &[u8], connections: &[Connection]) -> bool
    ensures { result ≡ is_among pin.now (named_pins connections.now) }
{
    for connection in connections {
        if is_to(pin, connection) {
            return true;
        }
    }
    false
}

/// Whether a connection names a pin that one before it names.
fn is_again(before: &[Connection], connection: &Connection) -> bool
    ensures { result ≡ is_pin_among (named_pins before.now) connection.now.pin }
{
    match &connection.pin {
        Some(pin) => is_named(pin.bytes(), before),
        None => false,
    }
}

/// Whether a pin is connected twice by name, of a few connections.
fn few_pins_again(connections: &[Connection]) -> bool
    ensures { result ≡ comes_again bytes_eq [] (named_pins connections.now) }
{
    for (number, connection) in connections.iter().enumerate() {
        if is_again(&connections[..number], connection) {
            return true;
        }
    }
    false
}

/// Whether a pin is connected twice by name.
fn pins_again(alloc: Global, connections: &[Connection]) -> Result<bool, OutOfMemory>
    ensures { IfOk result (λ again. again ≡ comes_again bytes_eq [] (named_pins connections.now)) }
{
    if connections.len() <= FEW {
        return Ok(few_pins_again(connections));
    }
    let mut names = NameSet::new(alloc);
    for connection in connections {
        if !add_pin(alloc, &mut names, connection)? {
            return Ok(true);
        }
    }
    Ok(false)
}

/// Takes in the pin that a connection names, and says whether it wasn't there.
fn add_pin(alloc: Global, names: &mut NameSet, connection: &Connection) -> Result<bool, OutOfMemory>
    ensures { IfOk result (λ new. AddsPin names.old names.new connection.now.pin new) }
{
    match &connection.pin {
        Some(pin) => names.add(alloc, pin.bytes()),
        None => Ok(true),
    }
}

/// The names that some items of a module give.
#[derive(Drop)]
pub(crate) struct Seen {
    ports: NameSet,
    nets: NameSet,
    instances: NameSet,
}

impl Seen {
    ghost use Rattle.mintc_flatten_rules.specs.Twice.{IsSeenBy, gives_item};
    ghost use Rattle.std.specs.Prelude.{List};
    ghost use Rattle.mintc_netlist.specs.declared.module.Item.{Item};

    /// No names.
    pub(crate) fn new(alloc: Global) -> Seen
        ensures { IsSeenBy result [] }
    {
        Seen {
            ports: NameSet::new(alloc),
            nets: NameSet::new(alloc),
            instances: NameSet::new(alloc),
        }
    }

    /// Takes in the names of a port declaration up to the first that comes again.
    fn ports_again(&mut self, alloc: Global, names: &[Name]) -> Result<bool, OutOfMemory>
        ensures again { IfOk result (λ again. again ≡ comes_again bytes_eq self.old.ports names.now) }
        ensures ports { IfOk result (λ again. again ≡ false → self.new.ports ≡ self.old.ports ++ names.now) }
        ensures nets { self.new.nets ≡ self.old.nets }
        ensures instances { self.new.instances ≡ self.old.instances }
    {
        add_again(alloc, &mut self.ports, names)
    }

    /// Takes in the names of a net declaration up to the first that comes again.
    fn nets_again(&mut self, alloc: Global, names: &[Name]) -> Result<bool, OutOfMemory>
        ensures again { IfOk result (λ again. again ≡ comes_again bytes_eq self.old.nets names.now) }
        ensures nets { IfOk result (λ again. again ≡ false → self.new.nets ≡ self.old.nets ++ names.now) }
        ensures ports { self.new.ports ≡ self.old.ports }
        ensures instances { self.new.instances ≡ self.old.instances }
    {
        add_again(alloc, &mut self.nets, names)
    }

    /// Takes in the name of an instance, and says whether it was there or a pin is connected twice.
    fn instance_again(
        &mut self,
        alloc: Global,
        name: &Name,
        connections: &[Connection],
    ) -> Result<bool, OutOfMemory>
        ensures again { IfOk result
            (λ again. again ≡ (is_among name.now self.old.instances
            || comes_again bytes_eq [] (named_pins connections.now))) }
        ensures instances { IfOk result (λ again. again ≡ false →
            self.new.instances ≡ self.old.instances ++ name.now ∷ []) }
        ensures ports { self.new.ports ≡ self.old.ports }
        ensures nets { self.new.nets ≡ self.old.nets }
    {
        if !self.instances.add(alloc, name.bytes())? {
            return Ok(true);
        }
        pins_again(alloc, connections)
    }

    /// Takes in the names that an item gives, and says whether it gives one again.
    pub(crate) fn again(&mut self, alloc: Global, item: &Item) -> Result<bool, OutOfMemory>
        ensures again { IfOk result (λ again. (before : List Item) → IsSeenBy self.old before →
            again ≡ gives_item before item.now) }
        ensures seen { IfOk result (λ again. (before : List Item) → IsSeenBy self.old before → again ≡ false →
            IsSeenBy self.new (before ++ item.now ∷ [])) }
    {
        match item {
            Item::Port { names, .. } => self.ports_again(alloc, names.items()),
            Item::Wire { names, .. } => self.nets_again(alloc, names.items()),
            Item::Assign { .. } => Ok(false),
            Item::Instance {
                name,
                connections,
                ..
            } => self.instance_again(alloc, name, connections.items()),
        }
    }

    /// The first item of a module that gives a name again, of all its items.
    fn first_again(&mut self, alloc: Global, part: &Module) -> Result<Option<u32>, OutOfMemory>
        requires none { IsSeenBy self.old [] }
        ensures { IfOk result (λ first. first ≡ first_after is_name_twice part.now [] part.now.items) }
    {
        let items = part.items.items();
        for item in items {
            if self.again(alloc, item)? {
                return Ok(Some(entry(item)));
            }
        }
        Ok(None)
    }
}

/// The first item of a module that gives a name again.
fn first_twice(alloc: Global, part: &Module) -> Result<Option<u32>, OutOfMemory>
    ensures { IfOk result (λ first. first ≡ first_after is_name_twice part.now [] part.now.items) }
{
    Seen::new(alloc).first_again(alloc, part)
}

/// Whether a name comes twice.
fn comes_twice(alloc: Global, names: &[Name]) -> Result<bool, OutOfMemory>
    ensures { IfOk result (λ again. again ≡ comes_again bytes_eq [] names.now) }
{
    let mut set = NameSet::new(alloc);
    add_again(alloc, &mut set, names)
}

/// Takes in the name of a module, and says whether it was there or a name comes twice in the port list.
fn module_again(alloc: Global, names: &mut NameSet, part: &Module) -> Result<bool, OutOfMemory>
    ensures again { IfOk result
        (λ again. again ≡ (is_among part.now.name names.old || comes_again bytes_eq [] part.now.ports)) }
    ensures names { IfOk result (λ again. again ≡ false → names.new ≡ names.old ++ part.now.name ∷ []) }
{
    if !names.add(alloc, part.name.bytes())? {
        return Ok(true);
    }
    comes_twice(alloc, part.ports.items())
}

/// The first statement of a module that gives a name again, where the modules before it have these names. Takes in
/// its name.
fn first_in_module(
    alloc: Global,
    names: &mut NameSet,
    part: &Module,
) -> Result<Option<u32>, OutOfMemory>
    ensures first { IfOk result (λ first. first ≡ first_again names.old part.now) }
    ensures names { IfOk result (λ first. first ≡ None → names.new ≡ names.old ++ part.now.name ∷ []) }
{
    if module_again(alloc, names, part)? {
        return Ok(Some(part.entry));
    }
    first_twice(alloc, part)
}

/// The first statement that gives a name a second time, of all modules.
fn first_in_modules(
    alloc: Global,
    names: &mut NameSet,
    cells: &Cells,
    modules: &[Module],
) -> Result<Option<u32>, OutOfMemory>
    requires none { names.old ≡ [] }
    ensures { IfOk result
        (λ entry. entry ≡ first_at_fault is_name_twice (modules_of (source_of cells.now modules.now))) }
{
    for module in modules {
        if cells.find(module.name.bytes()).is_some() {
            continue;
        }
        let first = first_in_module(alloc, names, module)?;
        if first.is_some() {
            return Ok(first);
        }
    }
    Ok(None)
}

/// The first statement that gives a name a second time.
pub(crate) fn name_twice(
    alloc: Global,
    cells: &Cells,
    modules: &[Module],
) -> Result<Option<u32>, OutOfMemory>
    ensures { IfOk result
        (λ entry. entry ≡ first_at_fault is_name_twice (modules_of (source_of cells.now modules.now))) }
{
    first_in_modules(alloc, &mut NameSet::new(alloc), cells, modules)
}
