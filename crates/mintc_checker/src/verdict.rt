//! What a judgement of a certificate answers.

/// Valid, or the number, from 1 to 7, of the first test that fails.
#[derive(Clone, Copy, Debug, PartialEq, Eq)]
pub enum Verdict {
    Valid,
    Invalid(u32),
}
