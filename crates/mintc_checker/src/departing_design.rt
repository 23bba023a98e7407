//! Designs with what labels are made of.
ghost use Rattle.std.specs.Prelude.{All};
ghost use Rattle.mintc_timing.specs.Limits.{IsDenominator};
ghost use Rattle.mintc_timing.specs.Order.{ArePathsShort};
ghost use Rattle.mintc_certificate.specs.Ranges.{IsDeparture};

use mintc_timing::Flat;

/// A design whose paths are short, with departures over a denominator.
#[derive(Clone, Copy)]
pub(crate) struct DepartingDesign<'a> {
    pub flat: &'a Flat,
    pub departures: &'a [i64],
    pub den: i64,
    ghost short: { ArePathsShort flat.now },
    ghost in_range: { All IsDeparture departures.now },
    ghost is_den: { IsDenominator den },
}
