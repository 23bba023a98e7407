//! The members of a chain.
ghost use Rattle.std.specs.Prelude.{◌≡◌};

use mintc_text::{Items, Numbers};

/// A constraint of a design that stands in a chain. Phases are counted from 1, elements, bounds and arcs from 0. A
/// reach has the arcs of a listed path of its own, from the output of its first element to the input of its second.
#[derive(Drop)]
pub enum Member {
    Start { phase: u32 },
    Cycle { phase: u32 },
    Order { phase: u32 },
    Span { phase: u32 },
    Width { phase: u32 },
    Apart { i: u32, j: u32 },
    Opening { element: u32 },
    Opened { element: u32 },
    Reach { from: u32, to: u32, arcs: Numbers },
    Setup { element: u32 },
    Bound { index: u32 },
}

/// Members in the order of their chain, seen as their list.
pub type Members = Items<Member>;
