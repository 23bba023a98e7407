//! What the definitions say of one another: each law is the contract of a function that does nothing.
ghost use Rattle.mintc_ratio_laws.specs.Existence.{GreatestWalksExist, SearchesEnd};

/// Where no chain forbids a cycle time, there are greatest walks at it from each node that leads to node 0.
pub fn greatest_walks_exist()
    ensures { GreatestWalksExist }
{}

/// Each ordinary list has what a search leaves: the least cycle time, or a chain that forbids every one.
pub fn searches_end()
    ensures { SearchesEnd }
{}
