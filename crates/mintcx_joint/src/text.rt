//! The text of the optimum of several corners.
ghost use Rattle.std.specs.Prelude.{◌≡◌, ◌≤◌, length, All, IfOk};
ghost use Rattle.mintc_timing.specs.Design.{phase_count};
ghost use Rattle.mintc_timing.specs.Limits.{IsInRange};
ghost use Rattle.mintc_corners.specs.CornerOptimum.{IsCornerChainInRange, IsOptimumOf};
ghost use Rattle.mintc_corners.specs.Joint.{AreCorners};
ghost use Rattle.mintcx_joint.specs.Alone.{HasAlone};
ghost use Rattle.mintcx_joint.specs.CornersText.{IsCornersText, IsLeastOf, IsNeverOf};
ghost use Rattle.mintcx_joint.specs.Shown.{corner_at, IsShown};

use crate::alone::Corners;
use crate::least::put_least;
use crate::never::put_never;
use crate::ring::{Ring, joint_departures, joint_stages};
use mintc_certificate::Departures;
use mintc_corners::{CornerCertificate, CornerMember};
use mintc_text::{Bytes, Lines, OutOfMemory};
use mintc_timing::Schedule;
use mintcx_chain::beginning;
use mintcx_frame::View;
use std::alloc::Global;

/// The text of the least cycle time of a schedule, which the members of a chain decide.
fn least_of(
    alloc: Global,
    corners: &Corners,
    schedule: &Schedule,
    departures: &[Departures],
    members: &[CornerMember],
    view: &View,
) -> Result<Bytes, OutOfMemory>
    requires some { 1 ≤ length corners.now.systems.now }
    requires few { length corners.now.systems.now ≤ 4 }
    requires alone { HasAlone corners.now.systems.now corners.now.names.now corners.now.alone.now }
    requires in_range { IsInRange schedule.now }
    requires phases { length schedule.now.starts ≡ phase_count (corner_at corners.now.systems.now 0).flat }
    requires chain { IsCornerChainInRange members.now }
    requires shown { All (IsShown corners.now.systems.now) members.now }
    ensures { IfOk result (IsLeastOf corners.now.systems.now corners.now.names.now corners.now.alone.now
        schedule.now departures.now members.now view.now) }
{
    let stages = joint_stages(alloc, corners.systems, members)?;
    let departures = joint_departures(alloc, departures)?;
    let ring = Ring {
        members,
        stages: stages.items(),
        first: beginning(corners.systems[0].flat(), &departures, stages.items()),
    };
    let mut lines = Lines::new(alloc);
    put_least(&mut lines, alloc, corners, schedule, &ring, view)?;
    Ok(Bytes::new(lines.into_bytes()))
}

/// The text where the members of a chain forbid every cycle time.
fn never_of(
    alloc: Global,
    corners: &Corners,
    members: &[CornerMember],
    view: &View,
) -> Result<Bytes, OutOfMemory>
    requires some { 1 ≤ length corners.now.systems.now }
    requires few { length corners.now.systems.now ≤ 4 }
    requires alone { HasAlone corners.now.systems.now corners.now.names.now corners.now.alone.now }
    requires chain { IsCornerChainInRange members.now }
    requires shown { All (IsShown corners.now.systems.now) members.now }
    ensures { IfOk result (IsNeverOf corners.now.systems.now corners.now.names.now corners.now.alone.now
        members.now view.now) }
{
    let stages = joint_stages(alloc, corners.systems, members)?;
    let ring = Ring {
        members,
        stages: stages.items(),
        first: beginning(corners.systems[0].flat(), &[], stages.items()),
    };
    let mut lines = Lines::new(alloc);
    put_never(&mut lines, alloc, corners, &ring, view)?;
    Ok(Bytes::new(lines.into_bytes()))
}

/// The text of a certificate of the optimum of two to four corners, for people: what each corner needs alone, and the
/// joint cycle time with the phases of its schedule and the chain that forbids every smaller one, or the chain that
/// forbids every cycle time. The members of the chain stand with the numbers of their corners, counted from 1.
pub fn corners_text(
    alloc: Global,
    corners: &Corners,
    certificate: &CornerCertificate,
    view: &View,
) -> Result<Bytes, OutOfMemory>
    requires few { length corners.now.systems.now ≤ 4 }
    requires alike { AreCorners corners.now.systems.now }
    requires optimum { IsOptimumOf corners.now.systems.now certificate.now }
    requires alone { HasAlone corners.now.systems.now corners.now.names.now corners.now.alone.now }
    ensures { IfOk result (IsCornersText corners.now.systems.now corners.now.names.now corners.now.alone.now
        certificate.now view.now) }
{
    match certificate {
        CornerCertificate::Least {
            schedule,
            departures,
            chain,
        } => least_of(
            alloc,
            corners,
            schedule,
            departures.items(),
            chain.items(),
            view,
        ),
        CornerCertificate::Never { chain } => never_of(alloc, corners, chain.items(), view),
    }
}
