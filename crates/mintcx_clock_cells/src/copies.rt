//! Copies of cells.
ghost use Rattle.std.specs.Prelude.{◌≡◌, IfOk};
ghost use Rattle.mintcx_clock_cells.specs.Seen.{IsLatch, IsFlop};

use mintc_cells::Cell;
use mintc_text::{Names, OutOfMemory};
use std::alloc::Global;

/// The same names once more.
fn copied_names(alloc: Global, names: &Names) -> Result<Names, OutOfMemory>
    ensures { IfOk result (λ copy. copy ≡ names.now) }
{
    let names = names.items();
    let mut copy = Vec::with_capacity(alloc, names.len())?;
    for name in names {
        copy.push(name.copy(alloc)?)?;
    }
    Ok(Names::new(copy))
}

/// The same latch once more.
fn copied_latch(alloc: Global, cell: &Cell) -> Result<Cell, OutOfMemory>
    requires { IsLatch cell.now }
    ensures { IfOk result (λ copy. copy ≡ cell.now) }
{
    match cell {
        Cell::Latch {
            pin_d,
            pin_g,
            high,
            outputs,
            ignored,
            setup,
            hold,
            has_hold,
            dq_min,
            dq_max,
            cq_min,
            cq_max,
            has_cq,
            width,
        } => Ok(Cell::Latch {
            pin_d: pin_d.copy(alloc)?,
            pin_g: pin_g.copy(alloc)?,
            high: *high,
            outputs: copied_names(alloc, outputs)?,
            ignored: copied_names(alloc, ignored)?,
            setup: *setup,
            hold: *hold,
            has_hold: *has_hold,
            dq_min: *dq_min,
            dq_max: *dq_max,
            cq_min: *cq_min,
            cq_max: *cq_max,
            has_cq: *has_cq,
            width: *width,
        }),
        Cell::Gate { .. } | Cell::Flop { .. } | Cell::Clock { .. } => unreachable!(),
    }
}

/// The same flop once more.
fn copied_flop(alloc: Global, cell: &Cell) -> Result<Cell, OutOfMemory>
    requires { IsFlop cell.now }
    ensures { IfOk result (λ copy. copy ≡ cell.now) }
{
    match cell {
        Cell::Flop {
            pin_d,
            pin_clock,
            rising,
            outputs,
            ignored,
            setup,
            hold,
            has_hold,
            cq_min,
            cq_max,
            width,
        } => Ok(Cell::Flop {
            pin_d: pin_d.copy(alloc)?,
            pin_clock: pin_clock.copy(alloc)?,
            rising: *rising,
            outputs: copied_names(alloc, outputs)?,
            ignored: copied_names(alloc, ignored)?,
            setup: *setup,
            hold: *hold,
            has_hold: *has_hold,
            cq_min: *cq_min,
            cq_max: *cq_max,
            width: *width,
        }),
        Cell::Gate { .. } | Cell::Latch { .. } | Cell::Clock { .. } => unreachable!(),
    }
}

/// The same cell once more.
pub(crate) fn copied(alloc: Global, cell: &Cell) -> Result<Cell, OutOfMemory>
    ensures { IfOk result (λ copy. copy ≡ cell.now) }
{
    match cell {
        Cell::Gate {
            inputs,
            outputs,
            min,
            max,
        } => Ok(Cell::Gate {
            inputs: copied_names(alloc, inputs)?,
            outputs: copied_names(alloc, outputs)?,
            min: *min,
            max: *max,
        }),
        Cell::Latch { .. } => copied_latch(alloc, cell),
        Cell::Flop { .. } => copied_flop(alloc, cell),
        Cell::Clock {
            input,
            output,
            invert,
            ignored,
        } => Ok(Cell::Clock {
            input: input.copy(alloc)?,
            output: output.copy(alloc)?,
            invert: *invert,
            ignored: copied_names(alloc, ignored)?,
        }),
    }
}
