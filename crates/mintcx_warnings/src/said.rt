//! What a warning says.
use mintc_text::Bytes;

/// What a warning says, in its parts: what is met, the label at its place, why it is worth a look, and what helps.
#[derive(Debug, Drop)]
pub struct Said {
    pub what: Bytes,
    pub label: Bytes,
    pub why: Bytes,
    pub help: Bytes,
}
