//! The bars of a histogram.
ghost use Rattle.std.specs.Prelude.{◌≡◌, ◌==◌, ◌<◌, ◌≤◌, ◌^◌, length};
ghost use Rattle.std.specs.Int.{div_ceil};
ghost use Rattle.mintcx_slacks.specs.Histograms.{IsStep, bar_of, count_of, lead_of, most_of, step_at};

/// How many steps are as much as the greatest slack.
const MOST_BARS: u64 = 12;

/// The number of the greatest step. Twelve of it are more than any slack.
const LAST_STEP: u32 = 54;

/// Its femtoseconds.
const GREATEST_STEP: u64 = 1_000_000_000_000_000_000;

/// A step of a histogram: its number, and how many femtoseconds it has.
#[derive(Clone, Copy)]
pub struct Step {
    pub number: u32,
    pub femtoseconds: u64,
}

/// The greatest of some slacks.
pub fn greatest(extra: &[i64]) -> u64
    ensures value { result ≡ most_of extra.now }
    ensures few { result ≤ 10 ^ 19 }
{
    let mut most = 0;
    for slack in extra {
        most = u64::max(most, slack.unsigned_abs());
    }
    most
}

/// The first digit of a step.
fn lead(number: u32) -> u64
    ensures value { result ≡ lead_of number }
    ensures some { 1 ≤ result }
    ensures few { result ≤ 5 }
{
    match number % 3 {
        0 => 1,
        1 => 2,
        _ => 5,
    }
}

/// The femtoseconds of a step: 1, 2, 5, 10, ..
#[tactic(auto, using(crate::proofs::Steps::few_zeros, crate::proofs::Steps::step_few, crate::proofs::Steps::step_some))]
fn step_at(number: u32) -> u64
    requires { number < 54 }
    ensures value { result ≡ step_at number }
    ensures some { 1 ≤ result }
    ensures few { result ≤ 10 ^ 18 }
{
    lead(number) * 10u64.pow(number / 3)
}

/// The least step of which twelve are as much as the greatest slack.
pub fn step_for(greatest: u64) -> Step
    requires { greatest ≤ 10 ^ 19 }
    ensures step { IsStep greatest result.number }
    ensures value { result.femtoseconds ≡ step_at result.number }
    ensures some { 1 ≤ result.femtoseconds }
    ensures few { result.femtoseconds ≤ 10 ^ 18 }
{
    for number in 0..LAST_STEP {
        let femtoseconds = step_at(number);
        if greatest <= MOST_BARS * femtoseconds {
            return Step {
                number,
                femtoseconds,
            };
        }
    }
    Step {
        number: LAST_STEP,
        femtoseconds: GREATEST_STEP,
    }
}

/// The bar of a slack: 0 for none, else by how many steps it is reached.
pub fn bar(slack: u64, step: u64) -> u64
    requires { 1 ≤ step }
    ensures { result ≡ div_ceil slack step }
{
    slack.div_ceil(step)
}

/// Whether a slack is of a bar.
fn is_of(slack: i64, step: u64, number: u64) -> bool
    requires { 1 ≤ step }
    ensures { result ≡ (bar_of step slack == number) }
{
    bar(slack.unsigned_abs(), step) == number
}

/// How many slacks are of a bar.
#[tactic(auto, using(crate::proofs::Steps::count_more))]
pub fn count(extra: &[i64], step: u64, number: u64) -> usize
    requires some { 1 ≤ step }
    ensures value { result ≡ count_of step extra.now number }
    ensures few { result ≤ length extra.now }
{
    let mut count = 0;
    for slack in extra {
        if is_of(*slack, step, number) {
            count += 1;
        }
    }
    count
}
