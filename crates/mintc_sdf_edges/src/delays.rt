//! What values of a delay text say, by edge.
ghost use Rattle.std.specs.Prelude.{◌≡◌};
ghost use Rattle.mintc_sdf_edges.specs.Edges.{both_edges, rising, falling};

use mintc_sdf::Delay;
use mintc_text::Items;

/// Edges of a signal.
#[derive(Clone, Copy, Debug, PartialEq, Eq)]
pub struct Edges {
    pub rise: bool,
    pub fall: bool,
}

/// What one value of a definition or check says: its own least and greatest number, in femtoseconds, as a delay; the
/// edges of the port that it begins at, which are both where none is given; and the edges of the other end that it
/// speaks of. A value without a number gives none.
#[derive(Debug, Drop)]
pub struct EdgeDelay {
    pub delay: Delay,
    pub edge: Edges,
    pub speaks: Edges,
}

/// Delays by edge, seen as their list.
pub type EdgeDelayList = Items<EdgeDelay>;

/// What a delay text says by edge.
#[derive(Debug, Drop)]
pub struct EdgeDelays {
    pub items: EdgeDelayList,
}

/// Both edges.
pub(crate) fn both_edges() -> Edges
    ensures { result ≡ both_edges }
{
    Edges {
        rise: true,
        fall: true,
    }
}

/// A rise alone.
pub(crate) fn rising() -> Edges
    ensures { result ≡ rising }
{
    Edges {
        rise: true,
        fall: false,
    }
}

/// A fall alone.
pub(crate) fn falling() -> Edges
    ensures { result ≡ falling }
{
    Edges {
        rise: false,
        fall: true,
    }
}
