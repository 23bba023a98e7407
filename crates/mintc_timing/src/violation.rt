//! The constraints that a schedule breaks.
use mintc_text::Numbers;

/// A constraint that doesn't hold. Phases are counted from 1, all else from 0.
#[derive(Drop)]
pub enum Broken {
    Cycle { phase: u32 },
    Order { phase: u32 },
    Span { phase: u32 },
    Width { phase: u32 },
    Apart { i: u32, j: u32 },
    Bound { index: u32 },
    Loop { pairs: Numbers },
    Setup { element: u32 },
    Hold { element: u32 },
}

/// A constraint and by how much it fails, as a numerator over the schedule's denominator.
#[derive(Drop)]
pub struct Violation {
    pub broken: Broken,
    pub amount: i64,
}
