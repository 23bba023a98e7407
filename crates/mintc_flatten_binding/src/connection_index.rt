//! What an instance connects to each pin.
ghost use Rattle.std.specs.Prelude.{◌≡◌, ◌<◌, ◌++◌, ◌∷◌, [], List, None, Some, slice_get, length, find, position, IfOk};
ghost use Rattle.std.specs.Prelude.{OnOk, IfSome, MatchOption};
ghost use Rattle.std.specs.Option.{option_and_then};
ghost use Rattle.mintc_netlist.specs.declared.module.Connection.{Connection};
ghost use Rattle.mintc_netlist.specs.Connections.{is_to, expression_at};

use mintc_netlist::{Connection, Expr, Item};
use mintc_text::OutOfMemory;
use mintc_text_names::NameSet;
use std::alloc::Global;

/// So many connections are rather looked through than kept by their names.
const FEW: usize = 16;

/// The connections of an instance by the names of their pins, where they are more than a few. Of connections in
/// order nothing is kept.
#[derive(Drop)]
pub struct ConnectionIndex {
    names: NameSet,
    numbers: Vec<usize>,
}

impl ConnectionIndex {
    ghost use Rattle.mintc_flatten_binding.specs.Wired.{IsConnectedBy, IsOfItem};

    /// No connections.
    fn empty(alloc: Global) -> ConnectionIndex
        ensures { IsConnectedBy result [] }
    {
        ConnectionIndex {
            names: NameSet::new(alloc),
            numbers: Vec::new(alloc),
        }
    }

    /// Takes in a connection with its number.
    fn add(
        &mut self,
        alloc: Global,
        connection: &Connection,
        number: usize,
    ) -> Result<(), OutOfMemory>
        ensures { OnOk result ((before : List Connection) → length before ≡ number → IsConnectedBy self.old before →
            IsConnectedBy self.new (before ++ connection.now ∷ [])) }
    {
        let Some(pin) = &connection.pin else {
            return Ok(());
        };
        if !self.names.add(alloc, pin.bytes())? {
            return Ok(());
        }
        self.numbers.push(number)?;
        Ok(())
    }

    /// Some connections by the names of their pins.
    fn by_pin_name(
        alloc: Global,
        connections: &[Connection],
    ) -> Result<ConnectionIndex, OutOfMemory>
        ensures { IfOk result (λ connected. IsConnectedBy connected connections.now) }
    {
        let mut connected = ConnectionIndex::empty(alloc);
        for (number, connection) in connections.iter().enumerate() {
            connected.add(alloc, connection, number)?;
        }
        Ok(connected)
    }

    /// The connections of an item.
    pub fn new(alloc: Global, item: &Item) -> Result<ConnectionIndex, OutOfMemory>
        ensures { IfOk result (λ connected. IsOfItem connected item.now) }
    {
        match item {
            Item::Instance {
                by_name,
                connections,
                ..
            } => {
                if *by_name && FEW < connections.items().len() {
                    ConnectionIndex::by_pin_name(alloc, connections.items())
                } else {
                    Ok(ConnectionIndex::empty(alloc))
                }
            }
            _ => Ok(ConnectionIndex::empty(alloc)),
        }
    }

    /// The number of the first connection to a pin.
    fn find(&self, name: &[u8]) -> Option<usize>
        requires { length self.now.numbers.items ≡ length self.now.names }
        ensures { (connections : List Connection) → IsConnectedBy self.now connections →
            result ≡ position (is_to name.now) connections }
    {
        match self.names.find(name) {
            Some(place) => Some(self.numbers[place]),
            None => None,
        }
    }

    /// The expression that is connected to the pin of a name.
    fn named_expression<'a>(&self, connections: &'a [Connection], name: &[u8]) -> Option<&'a Expr>
        requires { FEW < length connections.now → IsConnectedBy self.now connections.now }
        ensures { MatchOption result
            (option_and_then (λ (c : Connection). c.expr) (find (is_to name.now) connections.now) ≡ None)
            (λ expr. option_and_then (λ (c : Connection). c.expr) (find (is_to name.now) connections.now)
            ≡ Some expr.now) }
    {
        if connections.len() <= FEW {
            return look_through(connections, name);
        }
        match self.find(name) {
            Some(place) => expression_of(connections, place),
            None => None,
        }
    }

    /// The expression that an item connects to the pin of a number and a name.
    pub fn expression<'a>(&self, item: &'a Item, number: usize, name: &[u8]) -> Option<&'a Expr>
        requires { IsOfItem self.now item.now }
        ensures { MatchOption result (expression_at item.now number name.now ≡ None)
            (λ expr. expression_at item.now number name.now ≡ Some expr.now) }
    {
        match item {
            Item::Instance {
                by_name,
                connections,
                ..
            } => {
                if *by_name {
                    self.named_expression(connections.items(), name)
                } else {
                    expression_of(connections.items(), number)
                }
            }
            _ => None,
        }
    }
}

/// Whether a connection is to the pin of a name.
fn is_to(name: &[u8], connection: &Connection) -> bool
    ensures { result ≡ is_to name.now connection.now }
{
    match &connection.pin {
        Some(pin) => pin.bytes() == name,
        None => false,
    }
}

/// The expression of the first connection to the pin of a name.
fn look_through<'a>(connections: &'a [Connection], name: &[u8]) -> Option<&'a Expr>
    ensures { MatchOption result (option_and_then (λ (c : Connection). c.expr) (find (is_to name.now) connections.now)
        ≡ None)
        (λ expr. option_and_then (λ (c : Connection). c.expr) (find (is_to name.now) connections.now) ≡ Some expr.now) }
{
    for (number, connection) in connections.iter().enumerate() {
        if is_to(name, connection) {
            return expression_of(connections, number);
        }
    }
    None
}

/// The expression of the connection with a number.
fn expression_of(connections: &[Connection], number: usize) -> Option<&Expr>
    ensures { MatchOption result (option_and_then (λ (c : Connection). c.expr) (slice_get connections.now number)
        ≡ None)
        (λ expr. option_and_then (λ (c : Connection). c.expr) (slice_get connections.now number) ≡ Some expr.now) }
{
    if connections.len() <= number {
        return None;
    }
    match &connections[number].expr {
        Some(expr) => Some(expr),
        None => None,
    }
}
