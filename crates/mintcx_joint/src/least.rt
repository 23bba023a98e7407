//! The text of the least cycle of all corners.
ghost use Rattle.std.specs.Prelude.{◌≡◌, ◌≤◌, ◌++◌, length, codes, IfOk, OnOk};
ghost use Rattle.mintc_timing.specs.Design.{phase_count};
ghost use Rattle.mintc_timing.specs.Limits.{IsInRange};
ghost use Rattle.mintcx_frame.specs.Ends.{head_text};
ghost use Rattle.mintcx_optima.specs.Least.{cycle_of as cycle_of_schedule};
ghost use Rattle.mintcx_joint.specs.Alone.{HasAlone};
ghost use Rattle.mintcx_joint.specs.CornersText.{cornered, deciding_text, least_text};
ghost use Rattle.mintcx_joint.specs.Shown.{corner_at, IsRing};

use crate::alone::{Corners, put_corners};
use crate::ring::Ring;
use crate::tables::{Scale, Telling, put_rows};
use mintc_text::{Lines, OutOfMemory};
use mintc_timing::{Schedule, System};
use mintcx_chain::sums_of;
use mintcx_frame::{View, put_foot, put_head, put_phases, word_cell};
use mintcx_optima::{cycle_of, put_counted, put_decided, unit_of};
use std::alloc::Global;

/// A view that is about so many corners too.
pub(crate) fn cornered(alloc: Global, count: usize, view: &View) -> Result<View, OutOfMemory>
    ensures { IfOk result (λ joint. joint ≡ cornered count view.now) }
{
    let mut subject = Lines::new(alloc);
    subject.put(view.subject.bytes())?;
    subject.put(b", ")?;
    put_counted(&mut subject, count as u64, b"corner")?;
    Ok(View {
        subject: word_cell(alloc, &subject.into_bytes())?,
        unit: view.unit,
        limit: view.limit,
        apart: view.apart,
    })
}

/// Writes the first line, with the cycle time of a schedule and the number of corners.
fn put_least_head(
    lines: &mut Lines,
    alloc: Global,
    count: usize,
    schedule: &Schedule,
    view: &View,
) -> Result<(), OutOfMemory>
    requires { IsInRange schedule.now }
    ensures { OnOk result (lines.new ≡ lines.old
        ++ head_text (codes "least") (cycle_of_schedule schedule.now) (cornered count view.now)) }
{
    let joint = cornered(alloc, count, view)?;
    put_head(lines, b"least", &cycle_of(schedule), &joint)
}

/// Writes the chain that decides: its sums, and its rows.
fn put_deciding(
    lines: &mut Lines,
    alloc: Global,
    systems: &[System],
    schedule: &Schedule,
    ring: &Ring,
    view: &View,
) -> Result<(), OutOfMemory>
    requires in_range { IsInRange schedule.now }
    requires ring { IsRing systems.now ring.now.members.now ring.now.stages.now ring.now.first }
    ensures { OnOk result (lines.new ≡ lines.old
        ++ deciding_text systems.now schedule.now ring.now.members.now ring.now.first view.now) }
{
    let scale = Scale {
        telling: Telling::Through,
        unit: unit_of(schedule, view),
        limit: view.limit,
    };
    let count = ring.members.len() as u64;
    put_decided(lines, count, &sums_of(ring.stages), scale.unit)?;
    lines.put(b"\n")?;
    put_rows(lines, alloc, systems, scale, ring)
}

/// Writes the text of the least cycle of all corners: its head, what each corner needs alone, the phases of the
/// schedule, and the chain that decides.
pub(crate) fn put_least(
    lines: &mut Lines,
    alloc: Global,
    corners: &Corners,
    schedule: &Schedule,
    ring: &Ring,
    view: &View,
) -> Result<(), OutOfMemory>
    requires some { 1 ≤ length corners.now.systems.now }
    requires in_range { IsInRange schedule.now }
    requires phases { length schedule.now.starts ≡ phase_count (corner_at corners.now.systems.now 0).flat }
    requires alone { HasAlone corners.now.systems.now corners.now.names.now corners.now.alone.now }
    requires ring { IsRing corners.now.systems.now ring.now.members.now ring.now.stages.now ring.now.first }
    ensures { OnOk result (lines.new ≡ lines.old ++ least_text corners.now.systems.now corners.now.names.now
        corners.now.alone.now schedule.now ring.now.members.now ring.now.first view.now) }
{
    let unit = unit_of(schedule, view);
    put_least_head(lines, alloc, corners.names.len(), schedule, view)?;
    lines.put(b"\n")?;
    put_corners(lines, alloc, corners, unit)?;
    lines.put(b"\n")?;
    put_phases(lines, alloc, corners.systems[0].flat(), schedule, unit)?;
    lines.put(b"\n")?;
    put_deciding(lines, alloc, corners.systems, schedule, ring, view)?;
    lines.put(b"\n")?;
    put_foot(lines, unit, b"")
}
