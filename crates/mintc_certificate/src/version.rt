//! The versions of a certificate's text.

/// A version of the text. Both are read, the second is written.
#[derive(Clone, Copy, Debug, PartialEq, Eq)]
pub(crate) enum Version {
    /// No departures below 0, and no member `opened`.
    First,
    /// Departures from -10^14, and the member `opened`.
    Second,
}
