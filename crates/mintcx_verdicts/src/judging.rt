//! A schedule with the departures of a certificate.
ghost use Rattle.std.specs.Prelude.{All};
ghost use Rattle.mintc_certificate.specs.Ranges.{IsDeparture};

use mintcx_judgements::Told;

/// A system under a schedule, with departures in range, as numerators over the schedule's denominator.
#[derive(Clone, Copy)]
pub(crate) struct Judging<'a> {
    pub told: Told<'a>,
    pub departures: &'a [i64],
    ghost each: { All IsDeparture departures.now },
}
