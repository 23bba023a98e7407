//! Scales.

/// A stretch of time, and how many pixels it takes. Times are numerators over one denominator.
#[derive(Clone, Copy, Debug, PartialEq, Eq, Drop)]
pub struct Scale {
    /// When it begins.
    pub first: i128,
    /// When it ends.
    pub last: i128,
    /// How many pixels it takes.
    pub wide: u32,
}
