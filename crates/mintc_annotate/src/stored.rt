//! The element of a latch or flop by what is said of it.
ghost use Rattle.std.specs.Prelude.{◌≡◌, false, MatchOption};
ghost use Rattle.mintc_annotate_resolve.specs.Pins.{is_storage};
ghost use Rattle.mintc_annotate_delays.specs.Ranges.{look};
ghost use Rattle.mintc_annotate.specs.Made.{first_range, unless_own_cq, greatest_or, is_latch, is_flop};
ghost use Rattle.mintc_annotate.specs.Said.{said_in, element_said};

use mintc_annotate_delays::Ranges;
use mintc_cells::Cell;
use mintc_text::Name;
use mintc_timing::Element;

/// What is said of a latch or flop, in femtoseconds: the least and the greatest, where anything is.
#[derive(Clone, Copy)]
pub struct SaidOf {
    /// its delay from the data
    pub dq: Option<(i64, i64)>,
    /// its delay from the enable
    pub cq: Option<(i64, i64)>,
    pub setup: Option<(i64, i64)>,
    pub hold: Option<(i64, i64)>,
    /// the width of its pulse
    pub width: Option<(i64, i64)>,
}

/// What is said of a leaf.
pub(crate) fn said_of(ranges: &Ranges, leaf: u32) -> SaidOf
    ensures { result ≡ said_in (look ranges.now) leaf }
{
    SaidOf {
        dq: ranges.dq(leaf),
        cq: ranges.cq(leaf),
        setup: ranges.setup(leaf),
        hold: ranges.hold(leaf),
        width: ranges.width(leaf),
    }
}

/// The first range that is there.
fn first_range(
    said: Option<(i64, i64)>,
    other: Option<(i64, i64)>,
    default: (i64, i64),
) -> (i64, i64)
    ensures { result ≡ first_range said other default }
{
    match said {
        Some(range) => range,
        None => match other {
            Some(range) => range,
            None => default,
        },
    }
}

/// The range that stands for another, unless the cell has delays of its own from the enable.
fn unless_own_cq(has_cq: bool, other: Option<(i64, i64)>) -> Option<(i64, i64)>
    ensures { result ≡ unless_own_cq has_cq other }
{
    if has_cq { None } else { other }
}

/// The greatest number that is said, else the default.
fn greatest_or(said: Option<(i64, i64)>, default: i64) -> i64
    ensures { result ≡ greatest_or said default }
{
    match said {
        Some(range) => range.1,
        None => default,
    }
}

/// The element of a latch of which this is said; None of any other cell.
fn latch_element(said: SaidOf, name: Name, phase: u32, cell: &Cell) -> Option<Element>
    ensures { MatchOption result (is_latch cell.now ≡ false) (λ e. e ≡ element_said said name phase cell.now) }
{
    match cell {
        Cell::Latch {
            setup,
            hold,
            has_hold,
            dq_min,
            dq_max,
            cq_min,
            cq_max,
            has_cq,
            width,
            ..
        } => {
            let dq = first_range(said.dq, unless_own_cq(*has_cq, said.cq), (*dq_min, *dq_max));
            let cq = first_range(said.cq, unless_own_cq(*has_cq, said.dq), (*cq_min, *cq_max));
            Some(Element {
                name,
                phase,
                flop: false,
                setup: greatest_or(said.setup, *setup),
                hold: greatest_or(said.hold, *hold),
                has_hold: said.hold.is_some() || *has_hold,
                dq_min: dq.0,
                dq_max: dq.1,
                cq_min: cq.0,
                cq_max: cq.1,
                width: greatest_or(said.width, *width),
            })
        }
        Cell::Flop { .. } | Cell::Gate { .. } | Cell::Clock { .. } => None,
    }
}

/// The element of a flop of which this is said; None of any other cell.
fn flop_element(said: SaidOf, name: Name, phase: u32, cell: &Cell) -> Option<Element>
    ensures { MatchOption result (is_flop cell.now ≡ false) (λ e. e ≡ element_said said name phase cell.now) }
{
    match cell {
        Cell::Flop {
            setup,
            hold,
            has_hold,
            cq_min,
            cq_max,
            width,
            ..
        } => {
            let cq = said.dq.unwrap_or((*cq_min, *cq_max));
            Some(Element {
                name,
                phase,
                flop: true,
                setup: greatest_or(said.setup, *setup),
                hold: greatest_or(said.hold, *hold),
                has_hold: said.hold.is_some() || *has_hold,
                dq_min: cq.0,
                dq_max: cq.1,
                cq_min: cq.0,
                cq_max: cq.1,
                width: greatest_or(said.width, *width),
            })
        }
        Cell::Latch { .. } | Cell::Gate { .. } | Cell::Clock { .. } => None,
    }
}

/// The element of a latch or flop of which this is said; None of any other cell.
pub fn element_of(said: SaidOf, name: Name, phase: u32, cell: &Cell) -> Option<Element>
    ensures { MatchOption result (is_storage cell.now ≡ false) (λ e. e ≡ element_said said name phase cell.now) }
{
    match cell {
        Cell::Latch { .. } => latch_element(said, name, phase, cell),
        Cell::Flop { .. } => flop_element(said, name, phase, cell),
        Cell::Gate { .. } | Cell::Clock { .. } => None,
    }
}
