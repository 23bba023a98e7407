//! What was examined.

use mintc_certificate::Certificate;
use mintc_checker::Verdict;
use mintc_timing::{System, Violation};

/// What was examined: a certificate of a system, with its verdict, what the certificate's schedule breaks, and the
/// name of the design. What is broken is told of the second and the third test alone, and may be empty of others.
#[derive(Clone, Copy)]
pub struct Examined<'a> {
    pub system: &'a System,
    pub certificate: &'a Certificate,
    pub verdict: Verdict,
    pub violations: &'a [Violation],
    pub design: &'a [u8],
}
