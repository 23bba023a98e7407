//! Whether a design has edges merged.
ghost use Rattle.std.specs.Prelude.{◌≡◌};
ghost use Rattle.mintcx_project.specs.Edges.{edges_of};

/// What a design of four files says of the two edges of a signal.
#[derive(Clone, Copy, Debug, PartialEq, Eq)]
pub enum Edges {
    /// A delay is that of both edges: the least and the greatest of the two.
    Merged,
    /// Each element and each bit stands twice, once for data that comes to rise and once for data that comes to fall.
    Apart,
}

impl Edges {
    /// What a word says of edges, merged where it says nothing of them.
    pub fn of(word: &[u8]) -> Edges
        ensures { result ≡ edges_of word.now }
    {
        if word == b"apart".as_slice() {
            Edges::Apart
        } else {
            Edges::Merged
        }
    }
}
