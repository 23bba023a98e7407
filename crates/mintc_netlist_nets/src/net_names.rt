//! The nets of a module by name.
ghost use Rattle.std.specs.Prelude.{◌≡◌, ◌++◌, [], IfOk, OnOk};
ghost use Rattle.std.specs.List.{flat_map, filter_map, fold};
ghost use Rattle.std.specs.Option.{option_to_list};
ghost use Rattle.mintc_netlist.specs.declared.module.Connection.{Connection};
ghost use Rattle.mintc_netlist.specs.Nets.{net_names, piece_names, mentions, names_of};
ghost use Rattle.mintc_text_names.specs.Names.{with_name};

use mintc_netlist::{Connection, Item, Module, Piece};
use mintc_text::{Name, OutOfMemory};
use mintc_text_names::NameSet;
use std::alloc::Global;

/// Takes in names.
fn add_names(alloc: Global, names: &mut NameSet, more: &[Name]) -> Result<(), OutOfMemory>
    ensures { OnOk result (names.new ≡ fold with_name names.old more.now) }
{
    for name in more {
        names.add(alloc, name.bytes())?;
    }
    Ok(())
}

/// Takes in the names of an expression.
fn add_pieces(alloc: Global, names: &mut NameSet, pieces: &[Piece]) -> Result<(), OutOfMemory>
    ensures { OnOk result (names.new ≡ fold with_name names.old (flat_map piece_names pieces.now)) }
{
    for piece in pieces {
        add_piece(alloc, names, piece)?;
    }
    Ok(())
}

/// Takes in the name of a piece.
fn add_piece(alloc: Global, names: &mut NameSet, piece: &Piece) -> Result<(), OutOfMemory>
    ensures { OnOk result (names.new ≡ fold with_name names.old (piece_names piece.now)) }
{
    match piece {
        Piece::Net { name } => add_name(alloc, names, name),
        Piece::Bit { name, .. } => add_name(alloc, names, name),
        Piece::Part { name, .. } => add_name(alloc, names, name),
        Piece::Constant { .. } => Ok(()),
    }
}

/// Takes in a name.
fn add_name(alloc: Global, names: &mut NameSet, name: &Name) -> Result<(), OutOfMemory>
    ensures { OnOk result (names.new ≡ with_name names.old name.now) }
{
    names.add(alloc, name.bytes())?;
    Ok(())
}

/// Takes in the names of what is connected.
fn add_connections(
    alloc: Global,
    names: &mut NameSet,
    connections: &[Connection],
) -> Result<(), OutOfMemory>
    ensures { OnOk result
        (names.new ≡ fold with_name names.old
        (flat_map (flat_map piece_names) (filter_map (λ (c : Connection). c.expr) connections.now))) }
{
    for connection in connections {
        add_connection(alloc, names, connection)?;
    }
    Ok(())
}

/// Takes in the names of what a connection connects.
fn add_connection(
    alloc: Global,
    names: &mut NameSet,
    connection: &Connection,
) -> Result<(), OutOfMemory>
    ensures { OnOk result
        (names.new ≡ fold with_name names.old (flat_map (flat_map piece_names) (option_to_list connection.now.expr))) }
{
    match &connection.expr {
        Some(expr) => add_pieces(alloc, names, expr.items()),
        None => Ok(()),
    }
}

/// Takes in the names in the expressions of an item.
fn add_mentions(alloc: Global, names: &mut NameSet, item: &Item) -> Result<(), OutOfMemory>
    ensures { OnOk result (names.new ≡ fold with_name names.old (mentions item.now)) }
{
    match item {
        Item::Assign { left, right, .. } => {
            add_pieces(alloc, names, left.items())?;
            add_pieces(alloc, names, right.items())
        }
        Item::Instance { connections, .. } => add_connections(alloc, names, connections.items()),
        _ => Ok(()),
    }
}

/// Takes in the names that an item declares as nets.
fn add_declared(alloc: Global, names: &mut NameSet, item: &Item) -> Result<(), OutOfMemory>
    ensures { OnOk result (names.new ≡ fold with_name names.old (net_names item.now)) }
{
    match item {
        Item::Wire {
            names: declared,
            ..
        } => add_names(alloc, names, declared.items()),
        _ => Ok(()),
    }
}

/// Takes in the names that items declare as nets.
fn add_all_declared(alloc: Global, names: &mut NameSet, items: &[Item]) -> Result<(), OutOfMemory>
    ensures { OnOk result (names.new ≡ fold with_name names.old (flat_map net_names items.now)) }
{
    for item in items {
        add_declared(alloc, names, item)?;
    }
    Ok(())
}

/// Takes in the names in the expressions of items.
fn add_all_mentions(alloc: Global, names: &mut NameSet, items: &[Item]) -> Result<(), OutOfMemory>
    ensures { OnOk result (names.new ≡ fold with_name names.old (flat_map mentions items.now)) }
{
    for item in items {
        add_mentions(alloc, names, item)?;
    }
    Ok(())
}

/// The names of a module's nets, in their order.
pub(crate) fn net_set(alloc: Global, module: &Module) -> Result<NameSet, OutOfMemory>
    ensures { IfOk result (λ names. names ≡ names_of «module».now) }
{
    let mut names = NameSet::new(alloc);
    let items = module.items.items();
    add_names(alloc, &mut names, module.ports.items())?;
    add_all_declared(alloc, &mut names, items)?;
    add_all_mentions(alloc, &mut names, items)?;
    Ok(names)
}
