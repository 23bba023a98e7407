//! The limits of what can be read, worked on and written, on which the proofs of arithmetic stand. A run may take
//! less, as its `Limits` say. Lengths of time are in femtoseconds.

/// Bytes of a file.
pub const MOST_BYTES: usize = 1_073_741_824;

/// Phases of a design, which has one at least.
pub const MOST_PHASES: usize = 8;

/// Latches, flops and listed ports of a design.
pub const MOST_ELEMENTS: usize = 20_000;

/// Bits of a design that are no input and no output of an element.
pub const MOST_INNER: usize = 8_388_608;

/// Arcs of a design.
pub const MOST_ARCS: usize = 16_777_216;

/// Bounds of a design.
pub const MOST_BOUNDS: usize = 64;

/// Pairs of elements that paths join.
pub const MOST_PAIRS: usize = 10_000_000;

/// Instances of modules, the top counted.
pub const MOST_SCOPES: usize = 1_000_000;

/// Instances of cells.
pub const MOST_LEAVES: usize = 1_000_000;

/// How deep scopes stand in one another; the top stands at 1.
pub const MOST_DEPTH: usize = 32;

/// A delay, a width and the sum of a path, and the absolute value of a setup, a hold and a gap.
pub const MOST_DELAY: i64 = 1_000_000_000;

/// The denominator of a schedule.
pub const MOST_DENOMINATOR: i64 = 100_000;

/// A numerator of a schedule, and the absolute value of that of a departure.
pub const MOST_NUMERATOR: i64 = 100_000_000_000_000;

/// Members of a certificate's chain.
pub const MOST_MEMBERS: usize = 32_768;

/// Latches and flops of a design for which slacks are found.
pub const MOST_SLACK: usize = 2_000;

/// Nodes of a design's constraints: its start, two of each phase and one of each element.
pub const MOST_NODES: usize = 1 + 2 * MOST_PHASES + MOST_ELEMENTS;

/// As `MOST_NODES`, of a design for which slacks are found.
pub const SHORT_NODES: usize = 1 + 2 * MOST_PHASES + MOST_SLACK;

/// The absolute value of a link's delay: four lengths of time of a design.
pub const MOST_LINK_DELAY: u64 = 4 * MOST_DELAY as u64;

/// How often the range of a ratio is halved until one of `MOST_NODES` nodes alone is left in it.
pub const MOST_HALVINGS: u32 = 75;

/// As `MOST_HALVINGS`, of at most `SHORT_NODES` nodes.
pub const SHORT_HALVINGS: u32 = 65;

const _: () = prove!(
    MOST_LINK_DELAY as u128 * (MOST_NODES * MOST_NODES * MOST_NODES) as u128 <= 1 << MOST_HALVINGS
);

const _: () = prove!(
    MOST_LINK_DELAY as u128 * (SHORT_NODES * SHORT_NODES * SHORT_NODES) as u128
        <= 1 << SHORT_HALVINGS
);

/// Tests of a ratio: one before all halvings, one for each, and two behind them.
pub const MOST_TESTS: u64 = MOST_HALVINGS as u64 + 3;

/// As `MOST_TESTS`, for at most `SHORT_NODES` nodes.
pub const SHORT_TESTS: u64 = SHORT_HALVINGS as u64 + 3;

/// A count that a line of a text can say.
pub const MOST_COUNT: u32 = 999_999_999;

/// A count that a refusal tells; larger ones are told as this.
pub const MOST_TOLD: u64 = 1_000_000_000;

/// Bits of a net.
pub const MOST_WIDTH: usize = 65_536;

/// How much a run takes at most. Phases, bounds and the depth of scopes have one limit for all runs, as have numbers.
#[derive(Clone, Copy, Debug, PartialEq, Eq)]
pub struct Most {
    /// Bytes of a file.
    pub bytes: usize,
    /// Latches and flops of a design.
    pub elements: usize,
    /// Bits of a design that are no input and no output of an element.
    pub inner: usize,
    /// Arcs of a design.
    pub arcs: usize,
    /// Pairs of elements that paths join.
    pub pairs: usize,
    /// Instances of modules, the top counted.
    pub scopes: usize,
    /// Instances of cells.
    pub leaves: usize,
    /// Members of a certificate's chain.
    pub members: usize,
    /// Latches and flops of a design for which slacks are found.
    pub slack: usize,
}
