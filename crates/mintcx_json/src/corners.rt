//! The object of the optimum of several corners.
ghost use Rattle.std.specs.Prelude.{◌≡◌, ◌<◌, ◌≤◌, ◌++◌, ◌∷◌, [], codes, length, map, All, IfOk, OnOk};
ghost use Rattle.std.specs.List.{range_with_len};
ghost use Rattle.json.specs.Tree.{json_tokens};
ghost use Rattle.mintc_timing.specs.Design.{phase_count};
ghost use Rattle.mintc_timing.specs.Limits.{IsDenominator, IsInRange};
ghost use Rattle.mintc_corners.specs.CornerOptimum.{IsCornerChainInRange, IsOptimumOf};
ghost use Rattle.mintc_corners.specs.Joint.{AreCorners};
ghost use Rattle.mintcx_chain.specs.Turning.{turned};
ghost use Rattle.mintcx_joint.specs.Alone.{HasAlone};
ghost use Rattle.mintcx_joint.specs.Shown.{corner_at, IsRing, IsShown};
ghost use Rattle.mintcx_json.specs.Corners.{IsCornersObject, IsLeastObject, IsNeverObject, alone_value, corners_field};
ghost use Rattle.mintcx_json.specs.Corners.{deciding_field, forbidding_field, joint_value, least_value, member_value};
ghost use Rattle.mintcx_json.specs.Corners.{never_value};
ghost use Rattle.mintcx_json.specs.Objects.{array_of};
ghost use Rattle.mintcx_json.specs.Pieces.{fields_tokens, values_tokens};

use crate::chains::{cycles_take, put_stage_fields};
use crate::clocks::put_schedule;
use crate::fields::{put_count, put_head, put_name, put_whole};
use crate::sheet::Sheet;
use crate::verdicts::put_claim;
use mintc_certificate::Departures;
use mintc_corners::{CornerCertificate, CornerMember};
use mintc_text::{Bytes, OutOfMemory};
use mintc_timing::{Schedule, System};
use mintcx_chain::{beginning, sums_of};
use mintcx_frame::View;
use mintcx_joint::{
    Corners, Ring, corner_of, joint_departures, joint_stages, member_at, own_stage,
};
use std::alloc::Global;

/// Writes a corner, counted from 0.
fn put_alone(
    sheet: &mut Sheet,
    alloc: Global,
    corners: &Corners<'_>,
    corner: usize,
) -> Result<(), OutOfMemory>
    requires alone { HasAlone corners.now.systems.now corners.now.names.now corners.now.alone.now }
    requires corner { corner < length corners.now.names.now }
    ensures { OnOk result (sheet.new
        ≡ sheet.old ++ json_tokens (alone_value corners.now.names.now corners.now.alone.now corner)) }
{
    sheet.open()?;
    put_name(sheet, alloc, "delays", corners.names[corner].bytes())?;
    put_claim(sheet, "alone", &corners.alone[corner])?;
    sheet.close()
}

/// Writes corners, in order, as items of an array.
fn put_each_alone(
    sheet: &mut Sheet,
    alloc: Global,
    corners: &Corners<'_>,
) -> Result<(), OutOfMemory>
    requires { HasAlone corners.now.systems.now corners.now.names.now corners.now.alone.now }
    ensures { OnOk result (sheet.new ≡ sheet.old
        ++ values_tokens (map (alone_value corners.now.names.now corners.now.alone.now)
        (range_with_len 0 (length corners.now.names.now)))) }
{
    for corner in 0..corners.names.len() {
        put_alone(sheet, alloc, corners, corner)?;
    }
    Ok(())
}

/// Writes the member that has the corners.
fn put_corners(sheet: &mut Sheet, alloc: Global, corners: &Corners<'_>) -> Result<(), OutOfMemory>
    requires { HasAlone corners.now.systems.now corners.now.names.now corners.now.alone.now }
    ensures { OnOk result (sheet.new
        ≡ sheet.old ++ fields_tokens (corners_field corners.now.names.now corners.now.alone.now ∷ [])) }
{
    sheet.key("corners")?;
    sheet.open_array()?;
    put_each_alone(sheet, alloc, corners)?;
    sheet.close_array()
}

/// Writes a member of a chain.
fn put_member(
    sheet: &mut Sheet,
    alloc: Global,
    systems: &[System],
    den: i64,
    member: &CornerMember,
) -> Result<(), OutOfMemory>
    requires den { IsDenominator den }
    requires shown { IsShown systems.now member.now }
    ensures { OnOk result (sheet.new ≡ sheet.old ++ json_tokens (member_value systems.now den member.now)) }
{
    let flat = systems[corner_of(systems, member)].flat();
    let stage = own_stage(alloc, systems, member)?;
    sheet.open()?;
    put_count(sheet, "corner", u64::from(member.corner))?;
    put_stage_fields(sheet, alloc, flat, den, &stage)?;
    sheet.close()
}

/// Writes the members of a chain from where it begins, as items of an array.
fn put_each_member(
    sheet: &mut Sheet,
    alloc: Global,
    systems: &[System],
    den: i64,
    ring: &Ring<'_>,
) -> Result<(), OutOfMemory>
    requires den { IsDenominator den }
    requires ring { IsRing systems.now ring.now.members.now ring.now.stages.now ring.now.first }
    ensures { OnOk result (sheet.new ≡ sheet.old
        ++ values_tokens (map (member_value systems.now den) (turned ring.now.first ring.now.members.now))) }
{
    for at in 0..ring.members.len() {
        let member = member_at(ring.members, ring.first, at);
        put_member(sheet, alloc, systems, den, member)?;
    }
    Ok(())
}

/// Writes the member that has the members of a chain.
fn put_members(
    sheet: &mut Sheet,
    alloc: Global,
    systems: &[System],
    den: i64,
    ring: &Ring<'_>,
) -> Result<(), OutOfMemory>
    requires den { IsDenominator den }
    requires ring { IsRing systems.now ring.now.members.now ring.now.stages.now ring.now.first }
    ensures { OnOk result (sheet.new ≡ sheet.old ++ fields_tokens ((
      codes "members",
      array_of (map (member_value systems.now den) (turned ring.now.first ring.now.members.now)),
    ) ∷ [])) }
{
    sheet.key("members")?;
    sheet.open_array()?;
    put_each_member(sheet, alloc, systems, den, ring)?;
    sheet.close_array()
}

/// Writes a chain that takes so much time, in femtoseconds times a denominator.
fn put_joint(
    sheet: &mut Sheet,
    alloc: Global,
    systems: &[System],
    den: i64,
    delay: i64,
    ring: &Ring<'_>,
) -> Result<(), OutOfMemory>
    requires den { IsDenominator den }
    requires ring { IsRing systems.now ring.now.members.now ring.now.stages.now ring.now.first }
    ensures { OnOk result (sheet.new ≡ sheet.old
        ++ json_tokens (joint_value systems.now den delay ring.now.members.now ring.now.first)) }
{
    let sums = sums_of(ring.stages);
    sheet.open()?;
    put_whole(sheet, "delay", delay)?;
    put_count(sheet, "cycles", sums.cycles)?;
    put_members(sheet, alloc, systems, den, ring)?;
    sheet.close()
}

/// Writes the member that has the chain that decides the cycle time of a schedule.
fn put_deciding(
    sheet: &mut Sheet,
    alloc: Global,
    systems: &[System],
    schedule: &Schedule,
    ring: &Ring<'_>,
) -> Result<(), OutOfMemory>
    requires in_range { IsInRange schedule.now }
    requires ring { IsRing systems.now ring.now.members.now ring.now.stages.now ring.now.first }
    ensures { OnOk result (sheet.new ≡ sheet.old
        ++ fields_tokens (deciding_field systems.now schedule.now ring.now.members.now ring.now.first ∷ [])) }
{
    let sums = sums_of(ring.stages);
    let delay = cycles_take(sums.cycles, schedule.cycle);
    sheet.key("chain")?;
    put_joint(sheet, alloc, systems, schedule.den, delay, ring)
}

/// Writes the member that has a chain that forbids every cycle time, in whole femtoseconds.
fn put_forbidding(
    sheet: &mut Sheet,
    alloc: Global,
    systems: &[System],
    ring: &Ring<'_>,
) -> Result<(), OutOfMemory>
    requires { IsRing systems.now ring.now.members.now ring.now.stages.now ring.now.first }
    ensures { OnOk result (sheet.new
        ≡ sheet.old ++ fields_tokens (forbidding_field systems.now ring.now.members.now ring.now.first ∷ [])) }
{
    let sums = sums_of(ring.stages);
    sheet.key("chain")?;
    put_joint(sheet, alloc, systems, 1, sums.delay, ring)
}

/// Writes the object of the least cycle of a schedule.
fn put_least(
    sheet: &mut Sheet,
    alloc: Global,
    corners: &Corners<'_>,
    schedule: &Schedule,
    ring: &Ring<'_>,
    subject: &[u8],
) -> Result<(), OutOfMemory>
    requires some { 1 ≤ length corners.now.systems.now }
    requires in_range { IsInRange schedule.now }
    requires phases { length schedule.now.starts ≡ phase_count (corner_at corners.now.systems.now 0).flat }
    requires alone { HasAlone corners.now.systems.now corners.now.names.now corners.now.alone.now }
    requires ring { IsRing corners.now.systems.now ring.now.members.now ring.now.stages.now ring.now.first }
    ensures { OnOk result (sheet.new ≡ sheet.old ++ json_tokens (least_value corners.now.systems.now
        corners.now.names.now corners.now.alone.now schedule.now ring.now.members.now ring.now.first subject.now)) }
{
    let flat = corners.systems[0].flat();
    sheet.open()?;
    put_head(sheet, alloc, "corners", 0, "least", subject)?;
    put_schedule(sheet, alloc, flat, schedule)?;
    put_corners(sheet, alloc, corners)?;
    put_deciding(sheet, alloc, corners.systems, schedule, ring)?;
    sheet.close()
}

/// Writes the object of a chain that forbids every cycle time.
fn put_never(
    sheet: &mut Sheet,
    alloc: Global,
    corners: &Corners<'_>,
    ring: &Ring<'_>,
    subject: &[u8],
) -> Result<(), OutOfMemory>
    requires alone { HasAlone corners.now.systems.now corners.now.names.now corners.now.alone.now }
    requires ring { IsRing corners.now.systems.now ring.now.members.now ring.now.stages.now ring.now.first }
    ensures { OnOk result (sheet.new ≡ sheet.old ++ json_tokens (never_value corners.now.systems.now
        corners.now.names.now corners.now.alone.now ring.now.members.now ring.now.first subject.now)) }
{
    sheet.open()?;
    put_head(sheet, alloc, "corners", 1, "never", subject)?;
    put_whole(sheet, "den", 1)?;
    put_corners(sheet, alloc, corners)?;
    put_forbidding(sheet, alloc, corners.systems, ring)?;
    sheet.close()
}

/// The object of the least cycle of a schedule, which the members of a chain decide.
fn least_json(
    alloc: Global,
    corners: &Corners<'_>,
    schedule: &Schedule,
    departures: &[Departures],
    members: &[CornerMember],
    subject: &[u8],
) -> Result<Bytes, OutOfMemory>
    requires some { 1 ≤ length corners.now.systems.now }
    requires few { length corners.now.systems.now ≤ 4 }
    requires alone { HasAlone corners.now.systems.now corners.now.names.now corners.now.alone.now }
    requires in_range { IsInRange schedule.now }
    requires phases { length schedule.now.starts ≡ phase_count (corner_at corners.now.systems.now 0).flat }
    requires chain { IsCornerChainInRange members.now }
    requires shown { All (IsShown corners.now.systems.now) members.now }
    ensures { IfOk result (IsLeastObject corners.now.systems.now corners.now.names.now corners.now.alone.now
        schedule.now departures.now members.now subject.now) }
{
    let stages = joint_stages(alloc, corners.systems, members)?;
    let departures = joint_departures(alloc, departures)?;
    let ring = Ring {
        members,
        stages: stages.items(),
        first: beginning(corners.systems[0].flat(), &departures, stages.items()),
    };
    let mut sheet = Sheet::new(alloc);
    put_least(&mut sheet, alloc, corners, schedule, &ring, subject)?;
    sheet.into_text()
}

/// The object of the members of a chain that forbids every cycle time.
fn never_json(
    alloc: Global,
    corners: &Corners<'_>,
    members: &[CornerMember],
    subject: &[u8],
) -> Result<Bytes, OutOfMemory>
    requires some { 1 ≤ length corners.now.systems.now }
    requires few { length corners.now.systems.now ≤ 4 }
    requires alone { HasAlone corners.now.systems.now corners.now.names.now corners.now.alone.now }
    requires chain { IsCornerChainInRange members.now }
    requires shown { All (IsShown corners.now.systems.now) members.now }
    ensures { IfOk result (IsNeverObject corners.now.systems.now corners.now.names.now corners.now.alone.now
        members.now subject.now) }
{
    let stages = joint_stages(alloc, corners.systems, members)?;
    let ring = Ring {
        members,
        stages: stages.items(),
        first: beginning(corners.systems[0].flat(), &[], stages.items()),
    };
    let mut sheet = Sheet::new(alloc);
    put_never(&mut sheet, alloc, corners, &ring, subject)?;
    sheet.into_text()
}

/// The object of a certificate of the optimum of two to four corners: what each corner needs alone, and the joint cycle
/// time with its schedule and the chain that decides it, or the chain that forbids every cycle time. The members of the
/// chain stand with the numbers of their corners, counted from 1. Times are femtoseconds times `den`.
pub fn corners_json(
    alloc: Global,
    corners: &Corners<'_>,
    certificate: &CornerCertificate,
    view: &View,
) -> Result<Bytes, OutOfMemory>
    requires few { length corners.now.systems.now ≤ 4 }
    requires alike { AreCorners corners.now.systems.now }
    requires optimum { IsOptimumOf corners.now.systems.now certificate.now }
    requires alone { HasAlone corners.now.systems.now corners.now.names.now corners.now.alone.now }
    ensures { IfOk result (IsCornersObject corners.now.systems.now corners.now.names.now corners.now.alone.now
        certificate.now view.now.subject) }
{
    let subject = view.subject.bytes();
    match certificate {
        CornerCertificate::Least {
            schedule,
            departures,
            chain,
        } => least_json(
            alloc,
            corners,
            schedule,
            departures.items(),
            chain.items(),
            subject,
        ),
        CornerCertificate::Never { chain } => never_json(alloc, corners, chain.items(), subject),
    }
}
