//! Instances with what they connect.
use crate::ConnectionIndex;
use mintc_flatten_hierarchy::Binding;
use mintc_netlist::Item;

/// An instance with what it is of, and its connections.
#[derive(Clone, Copy)]
pub struct Instance<'a> {
    pub item: &'a Item,
    pub binding: Binding,
    pub connected: &'a ConnectionIndex,
}
