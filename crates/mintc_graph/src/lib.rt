//! Lists that lead: items that each go from one node to another, walked one after the other, or round in a ring.
//!
//! It holds definitions and their laws alone, no code. The arcs of a network, the arcs of a design and the links
//! between moments all lead from node to node. What it is to walk along them, by their numbers in a list or as a
//! list of their own, to come back to where a walk begins, and to add up what the items carry stands here once,
//! whatever the items are. The crates above say of what kind theirs are (`Leads` of mintc_graph_walks, mintc_timing
//! and mintc_constraints).
#![tactic(auto)]
