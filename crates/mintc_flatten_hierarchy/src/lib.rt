//! The hierarchy of a netlist as data, and its definitions: scopes, leaves, bits and joins from the top down, or
//! the first refusal.
//!
//! A scope is an instance of a module, a leaf an instance of a cell, and both are numbered in the order in which a
//! walk from the top meets them. Each bit of a net of a scope, and each pin of a leaf, is an inner bit of its own, also
//! where connections make it one with another: a join leads from the one to the other, and no two joins end at one
//! bit. `specs/` says what the hierarchy of a netlist is, rule by rule, without the walk that builds it;
//! mintc_flatten builds it, and the crates that name bits, read delays and make designs stand on these lists alone.
#![tactic(auto)]

mod bindings;
mod hierarchy;
mod laws;

pub use bindings::Binding;
pub use hierarchy::{
    Hierarchy, Inner, InnerList, Join, JoinList, Leaf, LeafList, Scope, ScopeList, TopPort,
    TopPortList,
};
pub use laws::{bits_have_one_driver, hierarchies_are_in_shape, outputs_have_no_driver};
