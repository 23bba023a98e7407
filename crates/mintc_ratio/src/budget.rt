//! How many passes a search may still take.
ghost use Rattle.std.specs.Prelude.{◌≡◌, ◌<◌, ◌≤◌, ◌+◌, ◌-◌, ◌*◌, ◌^◌, ◌⊎◌, ℕ, min};
ghost use Rattle.std.specs.Bool.{OnFalse, OnTrue};
ghost use Rattle.mintc_constraints.specs.Ordinary.{most_nodes};
ghost use Rattle.mintc_ratio.specs.Climbing.{most_tests};

use mintc_text::limits::{MOST_TESTS, SHORT_NODES, SHORT_TESTS};

/// How often a range can be halved before it is one part of the grid.
fn halvings(width: u128) -> u32
    requires { width ≤ 2 ^ 80 }
    ensures reach { width ≤ 2 ^ result }
    ensures few { result ≤ 80 }
{
    for count in 0..80 {
        if width <= 1 << count {
            return count;
        }
    }
    80
}

/// How many tests a search takes at most, over so many nodes.
fn most_tests(nodes: u32) -> u64
    ensures { result ≡ most_tests nodes }
{
    if nodes as usize > SHORT_NODES {
        MOST_TESTS
    } else {
        SHORT_TESTS
    }
}

/// How many passes were taken since the counter said `begun`, or more.
fn spent(begun: u64, taken: u64) -> u64
    requires { begun ≤ taken }
    ensures { (start now : ℕ) → begun ≡ min start (2 ^ 64 - 1) → taken ≡ min now (2 ^ 64 - 1) → now ≤ start + 2 ^ 21 →
        now ≤ start + result }
{
    if begun >= 1 << 63 {
        1 << 21
    } else {
        taken - begun
    }
}

/// Whether the ratio that is held may be tested next: the range is one part of the grid, or enough passes are left
/// for this test and for all halvings of the range after it.
pub(crate) fn may_jump(nodes: u32, begun: u64, taken: u64, width: u128) -> bool
    requires nodes { nodes ≤ most_nodes }
    requires later { begun ≤ taken }
    requires width { width ≤ 2 ^ 80 }
    ensures wide { OnFalse result (2 ≤ width) }
    ensures left { OnTrue result ((width ≤ 1) ⊎ ((left : ℕ) × (width ≤ 2 ^ left)
        × ((start now : ℕ) → begun ≡ min start (2 ^ 64 - 1) → taken ≡ min now (2 ^ 64 - 1) → now ≤ start + 2 ^ 21 →
        now + (left + 2) * (nodes + 1) ≤ start + most_tests nodes * (nodes + 1)))) }
{
    if width <= 1 {
        return true;
    }
    let turns = u64::from(halvings(width)) + 2;
    let pass = u64::from(nodes) + 1;
    let used = spent(begun, taken);
    let most = most_tests(nodes) * pass;
    if used > most {
        return false;
    }
    used + turns * pass <= most
}
