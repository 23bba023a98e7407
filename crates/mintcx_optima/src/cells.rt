//! Cells of the tables of chains.
ghost use Rattle.std.specs.Prelude.{◌≡◌, ◌<◌, All, IfOk};
ghost use Rattle.mintc_fraction.specs.Ratio.{over};
ghost use Rattle.mintc_timing.specs.Design.{element_count};
ghost use Rattle.mintc_timing.specs.Limits.{IsDenominator};
ghost use Rattle.mintcx_chain.specs.Names.{elements_of};
ghost use Rattle.mintcx_chain.specs.Rows.{IsChainTime};
ghost use Rattle.mintcx_chain.specs.Through.{through_text};
ghost use Rattle.mintcx_amounts.specs.Amounts.{amount_text};
ghost use Rattle.mintcx_optima.specs.Tables.{lent_text};

use mintc_fraction::Fraction;
use mintc_text::{Lines, Name, OutOfMemory};
use mintc_timing::Flat;
use mintcx_amounts::Unit;
use mintcx_chain::{Stage, put_through};
use mintcx_frame::{amount_cell, time_cell, word_cell};
use std::alloc::Global;

/// What a latch borrows, as a cell; empty where it borrows nothing.
pub(crate) fn lent_cell(alloc: Global, time: i64, den: i64, unit: Unit) -> Result<Name, OutOfMemory>
    requires { IsDenominator den }
    ensures { IfOk result (λ cell. cell ≡ lent_text unit time den) }
{
    if time == 0 {
        word_cell(alloc, b"")
    } else {
        time_cell(alloc, time, den, unit)
    }
}

/// A time on a chain, a numerator over a denominator in femtoseconds, as a cell.
pub(crate) fn moment_cell(
    alloc: Global,
    time: i128,
    den: i64,
    unit: Unit,
) -> Result<Name, OutOfMemory>
    requires time { IsChainTime time }
    requires den { IsDenominator den }
    ensures { IfOk result (λ cell. cell ≡ amount_text unit (over time den)) }
{
    amount_cell(alloc, &Fraction::new(time, i128::from(den)), unit)
}

/// What a stage goes through, as a cell.
pub(crate) fn through_cell(alloc: Global, flat: &Flat, stage: &Stage) -> Result<Name, OutOfMemory>
    requires { All (λ l. l < element_count flat.now) (elements_of stage.now.why) }
    ensures { IfOk result (λ cell. cell ≡ through_text flat.now stage.now.why) }
{
    let mut lines = Lines::new(alloc);
    put_through(&mut lines, alloc, flat, &stage.why)?;
    word_cell(alloc, &lines.into_bytes())
}
