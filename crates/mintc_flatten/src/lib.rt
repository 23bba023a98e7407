//! The hierarchy of a netlist: its scopes, leaves, bits and joins from the top down, numbered.
//!
//! First the rules on statements are asked in their order, then the one top is found, then the hierarchy's sizes
//! are counted, module by module, without building it. Only where they are within their limits does the walk build
//! it, so that a small file that describes a huge hierarchy costs little. The walk goes scope by scope, and of each
//! item takes in the joins: the bits that an assign or the pins of an instance bring together, place by place. The
//! crate above gets the lists, or the first refusal.
#![tactic(auto)]

mod counts;
mod flattening;
mod joins;
mod limits;
mod plan;
mod ports;
mod tops;
mod walk;

pub use flattening::flatten;
pub use mintc_flatten_hierarchy::{
    Hierarchy, Inner, InnerList, Join, JoinList, Leaf, LeafList, Scope, ScopeList, TopPort,
    TopPortList,
};
