//! A hierarchy as data.
//!
//! Scopes, leaves, inner bits and joins are counted from 0, each in the order of the walk from the top down. The
//! top is scope 0.
ghost use Rattle.std.specs.Prelude.{◌≡◌};

use mintc_text::{Items, Name, Numbers};

/// An instance of a module, or the top.
#[derive(Drop)]
pub struct Scope {
    /// The number of its module in the netlist.
    pub module: u32,
    /// The scope in which it stands; 0 for the top.
    pub parent: u32,
    /// The name of the instance; no byte for the top.
    pub name: Name,
}

/// An instance of a cell.
#[derive(Drop)]
pub struct Leaf {
    /// The scope in which it stands.
    pub scope: u32,
    /// The name of the instance.
    pub name: Name,
    /// The number of its cell.
    pub cell: u32,
    /// The inner bit of its first pin; the others follow in cell order.
    pub first_pin: u32,
    /// The statement of the instance, counted from 1.
    pub entry: u32,
}

/// A bit of a hierarchy.
#[derive(Drop)]
pub enum Inner {
    /// A bit of a net of a scope, with its index where the net has a range.
    Net {
        scope: u32,
        name: Name,
        index: Option<u32>,
    },
    /// A pin of a leaf.
    Pin {
        leaf: u32,
        pin: Name,
    },
}

/// One bit drives another. The numbers are those of inner bits.
#[derive(Clone, Copy)]
pub struct Join {
    pub from: u32,
    pub to: u32,
}

/// A port of the top, with the numbers of its inner bits from the rightmost.
#[derive(Drop)]
pub struct TopPort {
    pub name: Name,
    pub output: bool,
    pub bits: Numbers,
}

/// Scopes, seen as their list.
pub type ScopeList = Items<Scope>;

/// Leaves, seen as their list.
pub type LeafList = Items<Leaf>;

/// Inner bits, seen as their list.
pub type InnerList = Items<Inner>;

/// Joins, seen as their list.
pub type JoinList = Items<Join>;

/// Ports, seen as their list.
pub type TopPortList = Items<TopPort>;

/// What a netlist is from its top down.
#[derive(Drop)]
pub struct Hierarchy {
    pub scopes: ScopeList,
    pub leaves: LeafList,
    pub inner: InnerList,
    pub joins: JoinList,
    pub ports: TopPortList,
}
