//! Copies of delays.
ghost use Rattle.std.specs.Prelude.{◌≡◌, IfOk};
ghost use Rattle.mintc_sdf_edges.specs.Telling.{with_span};

use mintc_sdf::{Delay, Subject, names_copy, place_copy};
use mintc_text::OutOfMemory;
use std::alloc::Global;

/// Copies a subject.
fn subject_copy(alloc: Global, subject: &Subject) -> Result<Subject, OutOfMemory>
    ensures { IfOk result (λ copy. copy ≡ subject.now) }
{
    match subject {
        Subject::Iopath { from, to } => {
            let from = from.copy(alloc)?;
            let to = to.copy(alloc)?;
            Ok(Subject::Iopath { from, to })
        }
        Subject::Interconnect { to } => Ok(Subject::Interconnect {
            to: names_copy(alloc, to)?,
        }),
        Subject::Port { pin } => Ok(Subject::Port {
            pin: pin.copy(alloc)?,
        }),
        Subject::Setup { pin } => Ok(Subject::Setup {
            pin: pin.copy(alloc)?,
        }),
        Subject::Hold { pin } => Ok(Subject::Hold {
            pin: pin.copy(alloc)?,
        }),
        Subject::Width { pin } => Ok(Subject::Width {
            pin: pin.copy(alloc)?,
        }),
    }
}

/// A copy of a delay with other numbers.
pub(crate) fn with_span(
    alloc: Global,
    delay: &Delay,
    least: i64,
    greatest: i64,
) -> Result<Delay, OutOfMemory>
    ensures { IfOk result (λ copy. copy ≡ with_span delay.now (least, greatest)) }
{
    let celltype = delay.celltype.copy(alloc)?;
    let place = place_copy(alloc, &delay.place)?;
    let subject = subject_copy(alloc, &delay.subject)?;
    Ok(Delay {
        entry: delay.entry,
        celltype,
        place,
        subject,
        least,
        greatest,
    })
}
