//! What is drawn.
use mintc_text::Bytes;

/// What is drawn, or why nothing is.
#[derive(Drop)]
pub enum Drawn {
    /// A picture, as SVG.
    Picture(Bytes),
    /// Nothing, as no schedule is right.
    NoSchedule,
    /// Nothing, as the cycle time is 0.
    NoCycle,
    /// Nothing, as it would show more than 80 cycles.
    TooLong,
    /// Nothing, as data never settles.
    Unsettled,
}
