//! Where times stand.
ghost use Rattle.std.specs.Prelude.{◌≡◌, ◌≤◌, pos, negsuc, ◌-ℤ◌, ◌*ℤ◌, ◌≤ℤ◌, ◌<ℤ◌, unsigned_abs};
ghost use Rattle.std.specs.Int.{int_div_euclid};
ghost use Rattle.mintcx_picture.specs.Places.{edge_of, pixels_of, place_of, shown_time, span_of, IsNearTime, IsScale};
ghost use Rattle.mintcx_picture.specs.Places.{IsScaleTime};

use crate::scale::Scale;

/// Where a stretch begins, in pixels.
pub const LEFT: u32 = 272;

/// The greatest whole number at most `x / y`.
fn quotient(x: i128, y: i128) -> i128
    requires { pos 1 ≤ℤ y }
    ensures { result ≡ int_div_euclid x y }
{
    x.div_euclid(y)
}

/// A time taken so many times.
#[tactic(auto, using(crate::proofs::PlaceLaws::times_low, crate::proofs::PlaceLaws::times_high))]
fn scaled(time: i128, wide: u32) -> i128
    requires low { negsuc 99999999999999999999999 ≤ℤ time }
    requires high { time ≤ℤ pos 100000000000000000000000 }
    requires wide { wide ≤ 2400 }
    ensures value { result ≡ time *ℤ pos wide }
    ensures low { negsuc 239999999999999999999999999 ≤ℤ result }
    ensures high { result ≤ℤ pos 240000000000000000000000000 }
{
    time * i128::from(wide)
}

/// A number that is from 0 to another.
fn small(number: i128, most: u32) -> u32
    requires low { pos 0 ≤ℤ number }
    requires high { number ≤ℤ pos most }
    ensures value { result ≡ unsigned_abs number }
    ensures most { result ≤ most }
{
    number as u32
}

/// How many pixels a stretch of time takes: 200 for each cycle, but at least 920 and at most 2,400.
fn wide_of(first: i128, last: i128, cycle: i64) -> u32
    requires first { IsScaleTime first }
    requires last { IsScaleTime last }
    requires cycle { pos 1 ≤ℤ cycle }
    ensures least { 920 ≤ result }
    ensures most { result ≤ 2400 }
{
    let wide = quotient(200 * (last - first), i128::from(cycle));
    if wide < 920 {
        920
    } else if wide > 2_400 {
        2_400
    } else {
        wide as u32
    }
}

/// The scale of a stretch of time, by the cycle time.
pub fn scale_of(first: i128, last: i128, cycle: i64) -> Scale
    requires some { first <ℤ last }
    requires first { IsScaleTime first }
    requires last { IsScaleTime last }
    requires cycle { pos 1 ≤ℤ cycle }
    ensures first { result.first ≡ first }
    ensures last { result.last ≡ last }
    ensures scale { IsScale result }
{
    Scale {
        first,
        last,
        wide: wide_of(first, last, cycle),
    }
}

impl Scale {
    /// Where the stretch ends, in pixels.
    pub fn edge(&self) -> u32
        requires { IsScale self.now }
        ensures value { result ≡ edge_of self.now }
        ensures least { 1192 ≤ result }
        ensures most { result ≤ 2672 }
    {
        LEFT + self.wide
    }

    /// How long the stretch is.
    fn span(&self) -> i128
        requires { IsScale self.now }
        ensures value { result ≡ span_of self.now }
        ensures some { pos 1 ≤ℤ result }
        ensures few { result ≤ℤ pos 20000000000000000000000 }
    {
        self.last - self.first
    }

    /// How long after the stretch begins a time is.
    fn since(&self, time: i128) -> i128
        requires scale { IsScale self.now }
        requires time { IsNearTime time }
        ensures value { result ≡ time -ℤ self.now.first }
        ensures low { negsuc 99999999999999999999999 ≤ℤ result }
        ensures high { result ≤ℤ pos 100000000000000000000000 }
    {
        time - self.first
    }

    /// How far from where the stretch begins a time stands, in pixels, to the nearest one.
    fn pixels(&self, time: i128) -> i128
        requires scale { IsScale self.now }
        requires time { IsNearTime time }
        ensures { result ≡ pixels_of self.now time }
    {
        let span = self.span();
        let since = self.since(time);
        let exact = scaled(since, self.wide);
        quotient(exact + exact + span, span + span)
    }

    /// Whether a time stands in the stretch, as it is drawn.
    pub fn holds(&self, time: i128) -> bool
        requires { IsScale self.now }
    {
        let span = self.span();
        if time < self.first - span || time > self.last + span {
            return false;
        }
        let pixels = self.pixels(time);
        0 <= pixels && pixels <= i128::from(self.wide)
    }

    /// The time of the stretch that is nearest to a time.
    fn shown(&self, time: i128) -> i128
        requires { IsScale self.now }
        ensures value { result ≡ shown_time self.now time }
        ensures low { self.now.first ≤ℤ result }
        ensures high { result ≤ℤ self.now.last }
    {
        time.max(self.first).min(self.last)
    }

    /// How far from where the stretch begins a time is shown, in pixels.
    #[tactic(auto, using(crate::proofs::PlaceLaws::inside_low, crate::proofs::PlaceLaws::inside_high))]
    fn shown_pixels(&self, time: i128) -> u32
        requires { IsScale self.now }
        ensures value { result ≡ unsigned_abs (pixels_of self.now (shown_time self.now time)) }
        ensures most { result ≤ self.now.wide }
    {
        let shown = self.shown(time);
        small(self.pixels(shown), self.wide)
    }

    /// Where a time stands, in pixels from the left: at the whole number nearest to its exact place, a half upwards. A
    /// time before the stretch stands where it begins, and one behind it where it ends.
    pub fn place(&self, time: i128) -> u32
        requires { IsScale self.now }
        ensures value { result ≡ place_of self.now time }
        ensures least { 272 ≤ result }
        ensures most { result ≤ 2672 }
    {
        LEFT + self.shown_pixels(time)
    }
}
