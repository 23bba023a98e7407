//! Products of times.
ghost use Rattle.std.specs.Prelude.{◌≡◌, ◌≤◌, pos, negsuc, ◌+ℤ◌, ◌-ℤ◌, ◌*ℤ◌, ◌≤ℤ◌};
ghost use Rattle.mintc_timing.specs.Limits.{IsDenominator};
ghost use Rattle.mintcx_chain.specs.Names.{IsStageDelay};
ghost use Rattle.mintcx_chart.specs.Ranges.{IsCycle, IsLap, IsLaps};

/// A span of femtoseconds as a numerator over a denominator.
#[tactic(auto, using(crate::proofs::TimeLaws::span_low, crate::proofs::TimeLaws::span_high))]
pub fn span_time(span: i64, den: i64) -> i64
    requires span { IsStageDelay span }
    requires den { IsDenominator den }
    ensures value { result ≡ span *ℤ den }
    ensures low { negsuc 399999999999999 ≤ℤ result }
    ensures high { result ≤ℤ pos 400000000000000 }
{
    span * den
}

/// A time with a span of femtoseconds behind it, over a denominator.
pub(crate) fn time_after(time: i128, span: i64, den: i64) -> i128
    requires low { negsuc 999999999999999999999999 ≤ℤ time }
    requires high { time ≤ℤ pos 1000000000000000000000000 }
    requires span { IsStageDelay span }
    requires den { IsDenominator den }
    ensures low { (time -ℤ pos 400000000000000) ≤ℤ result }
    ensures high { result ≤ℤ (time +ℤ pos 400000000000000) }
{
    time + i128::from(span_time(span, den))
}

/// So many cycles; -1 is the one before the first.
#[tactic(auto, using(crate::proofs::TimeLaws::laps_low, crate::proofs::TimeLaws::laps_high))]
pub fn laps_time(laps: i64, cycle: i64) -> i128
    requires laps { IsLaps laps }
    requires cycle { IsCycle cycle }
    ensures value { result ≡ laps *ℤ cycle }
    ensures low { negsuc 99999999999999 ≤ℤ result }
    ensures high { result ≤ℤ pos 100000000000000000000 }
{
    i128::from(laps) * i128::from(cycle)
}

/// When a lap begins, counted from 0.
#[tactic(auto, using(crate::proofs::TimeLaws::lap_low, crate::proofs::TimeLaws::lap_high))]
pub(crate) fn lap_time(lap: i128, cycle: i64) -> i128
    requires lap { IsLap lap }
    requires cycle { IsCycle cycle }
    ensures low { negsuc 9999999999999999999999999999999999999 ≤ℤ result }
    ensures high { result ≤ℤ pos 10000000000000000000000000000000000000 }
{
    lap * i128::from(cycle)
}

/// A time in femtoseconds over a denominator.
#[tactic(auto, using(crate::proofs::TimeLaws::over_low, crate::proofs::TimeLaws::over_high))]
pub(crate) fn over_den(time: i128, den: i64) -> i128
    requires time { IsLap time }
    requires den { IsDenominator den }
    ensures low { negsuc 9999999999999999999999999999 ≤ℤ result }
    ensures high { result ≤ℤ pos 10000000000000000000000000000 }
{
    time * i128::from(den)
}

/// So many steps of a time.
#[tactic(auto, using(crate::proofs::TimeLaws::steps_low, crate::proofs::TimeLaws::steps_high))]
pub(crate) fn steps_time(count: u32, step: i128) -> i128
    requires few { count ≤ 1000 }
    requires some { pos 1 ≤ℤ step }
    requires most { step ≤ℤ pos 10000000000000000000 }
    ensures low { pos 0 ≤ℤ result }
    ensures high { result ≤ℤ pos 10000000000000000000000 }
{
    i128::from(count) * step
}
