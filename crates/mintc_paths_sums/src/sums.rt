//! Sums of paths to a bit, from up to eight elements at a time.
ghost use Rattle.std.specs.Prelude.{◌≡◌, ◌<◌, IfSome, FitsSigned};
ghost use Rattle.std.specs.Int.{w64};
ghost use Rattle.mintc_lanes.specs.Lanes.{lane_at};

use mintc_lanes::ABSENT;

/// The greatest and least sums of the paths to a bit, in femtoseconds: a lane for each of eight elements, absent
/// where no path leads from it.
#[derive(Clone, Copy)]
pub struct Sums {
    pub greatest: [i64; 8],
    pub least: [i64; 8],
}

/// The sums where no path leads.
pub const NO_SUMS: Sums = Sums {
    greatest: [ABSENT; 8],
    least: [ABSENT; 8],
};

/// What a lane of a row holds, if it is present.
pub fn sum_in(row: &[i64; 8], lane: usize) -> Option<i64>
    requires { lane < 8 }
    ensures value { result ≡ lane_at row.now lane }
    ensures fits { IfSome result (λ sum. FitsSigned w64 sum) }
{
    let sum = row[lane];
    if sum == ABSENT { None } else { Some(sum) }
}
