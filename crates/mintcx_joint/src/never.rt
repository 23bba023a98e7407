//! The text where no schedule is right in all corners.
ghost use Rattle.std.specs.Prelude.{◌≡◌, ◌≤◌, ◌++◌, pos, ◌≤ℤ◌, length, All, OnOk};
ghost use Rattle.mintc_text.specs.declared.limits.TheConstants.{MOST_MEMBERS};
ghost use Rattle.mintcx_chain.specs.Names.{IsShort};
ghost use Rattle.mintcx_optima.specs.Never.{asks_text, greatest_delay, unit_of};
ghost use Rattle.mintcx_joint.specs.Alone.{HasAlone};
ghost use Rattle.mintcx_joint.specs.CornersText.{claim_text, never_text};
ghost use Rattle.mintcx_joint.specs.Shown.{IsRing};

use crate::alone::{Corners, put_corners};
use crate::least::cornered;
use crate::ring::Ring;
use crate::tables::{Scale, Telling, put_rows};
use mintc_fraction::Fraction;
use mintc_text::{Lines, OutOfMemory};
use mintcx_amounts::Unit;
use mintcx_chain::{Stage, sums_of};
use mintcx_frame::{View, put_foot, put_subject, put_time};
use mintcx_optima::put_counted;
use std::alloc::Global;

/// The greatest delay of a stage of a chain, in femtoseconds; 0 where none is above 0.
fn greatest_delay(stages: &[Stage]) -> i64
    requires { All IsShort stages.now }
    ensures value { result ≡ greatest_delay stages.now }
    ensures least { pos 0 ≤ℤ result }
    ensures most { result ≤ℤ pos 4000000000 }
{
    let mut greatest = 0;
    for stage in stages {
        greatest = stage.delay.max(greatest);
    }
    greatest
}

/// The unit of the times, in which the longest stage stands for a cycle.
fn unit_of(stages: &[Stage], view: &View) -> Unit
    requires { All IsShort stages.now }
    ensures { result ≡ unit_of stages.now view.now }
{
    view.unit_for(&Fraction::new(i128::from(greatest_delay(stages)), 1))
}

/// Writes the first line: that no schedule is right.
fn put_claim(lines: &mut Lines, alloc: Global, count: usize, view: &View) -> Result<(), OutOfMemory>
    ensures { OnOk result (lines.new ≡ lines.old ++ claim_text count view.now) }
{
    let joint = cornered(alloc, count, view)?;
    lines.put(b"never  no schedule is right in all corners")?;
    put_subject(lines, &joint)
}

/// Writes the line that says how much more a chain asks for than there is.
fn put_asks(lines: &mut Lines, stages: &[Stage], unit: Unit) -> Result<(), OutOfMemory>
    requires short { All IsShort stages.now }
    requires most { length stages.now ≤ MOST_MEMBERS }
    ensures { OnOk result (lines.new ≡ lines.old ++ asks_text stages.now unit) }
{
    let sums = sums_of(stages);
    lines.put(b"a chain of ")?;
    put_counted(lines, stages.len() as u64, b"constraint")?;
    lines.put(b" asks for ")?;
    put_time(lines, &Fraction::new(i128::from(sums.delay), 1), unit)?;
    lines.put(b" more than there are, in no cycle:\n\n")
}

/// Writes the text where no schedule is right in all corners: what each corner needs alone, and the chain that forbids
/// every cycle time.
pub(crate) fn put_never(
    lines: &mut Lines,
    alloc: Global,
    corners: &Corners,
    ring: &Ring,
    view: &View,
) -> Result<(), OutOfMemory>
    requires alone { HasAlone corners.now.systems.now corners.now.names.now corners.now.alone.now }
    requires ring { IsRing corners.now.systems.now ring.now.members.now ring.now.stages.now ring.now.first }
    ensures { OnOk result (lines.new ≡ lines.old ++ never_text corners.now.systems.now corners.now.names.now
        corners.now.alone.now ring.now.members.now ring.now.first view.now) }
{
    let scale = Scale {
        telling: Telling::Because,
        unit: unit_of(ring.stages, view),
        limit: view.limit,
    };
    put_claim(lines, alloc, corners.names.len(), view)?;
    lines.put(b"\n")?;
    put_corners(lines, alloc, corners, scale.unit)?;
    lines.put(b"\n")?;
    put_asks(lines, ring.stages, scale.unit)?;
    put_rows(lines, alloc, corners.systems, scale, ring)?;
    lines.put(b"\n")?;
    put_foot(lines, scale.unit, b"")
}
