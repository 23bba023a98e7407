//! What statements say.
ghost use Rattle.std.specs.Prelude.{◌≡◌, ◌++◌, IfOk};

use mintc_netlist::ItemList;
use mintc_text::{Name, Names, OutOfMemory};

/// Moves items to the end of others.
pub(crate) fn append(items: ItemList, more: ItemList) -> Result<ItemList, OutOfMemory>
    ensures { IfOk result (λ all. all ≡ items ++ more) }
{
    let mut all = items.into_vec();
    let mut more = more.into_vec();
    all.append(&mut more)?;
    Ok(ItemList::new(all))
}

/// A module that is open, and whether its ports have directions already.
#[derive(Drop)]
pub(crate) struct OpenModule {
    pub entry: u32,
    pub name: Name,
    pub ports: Names,
    pub typed: bool,
    pub items: ItemList,
}

/// What a statement does.
#[derive(Drop)]
pub(crate) enum Said {
    /// It opens a module.
    Opens { open: OpenModule },
    /// It adds items to the open one. Declarations of ports may stand only after a plain list.
    Adds { ports: bool, items: ItemList },
    /// It closes the open one.
    Closes,
}
