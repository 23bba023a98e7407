//! The table of the chain of corners.
ghost use Rattle.std.specs.Prelude.{◌≡◌, ◌≤◌, ◌++◌, length, map, All, IfOk, OnOk};
ghost use Rattle.csv.specs.Writing.{row_text};
ghost use Rattle.mintc_corners.specs.CornerOptimum.{IsCornerChainInRange, IsOptimumOf};
ghost use Rattle.mintc_corners.specs.Joint.{AreCorners};
ghost use Rattle.mintcx_chain.specs.Turning.{turned};
ghost use Rattle.mintcx_joint.specs.Shown.{IsRing, IsShown};
ghost use Rattle.mintcx_csv.specs.Corners.{IsCornersTable, IsJointTable, member_fields, member_record, member_records};
ghost use Rattle.mintcx_csv.specs.Records.{IsBetween, text_so_far};
ghost use Rattle.mintcx_csv.specs.Tables.{IsTable, by_rfc, text_of as table_text};

use crate::records::{Records, no_records, numeral, put_record, text_of};
use itoa::Buffer;
use mintc_certificate::Departures;
use mintc_corners::{CornerCertificate, CornerMember};
use mintc_text::{Bytes, OutOfMemory};
use mintc_timing::System;
use mintcx_chain::{beginning, stage_from, stage_to};
use mintcx_joint::{Ring, corner_of, joint_departures, joint_stages, member_at, own_stage};
use std::alloc::Global;

/// Writes the head line.
fn put_member_head(records: &mut Records) -> Result<(), OutOfMemory>
    requires { IsBetween records.old }
    ensures between { OnOk result (IsBetween records.new) }
    ensures text { OnOk result (text_so_far records.new ≡ text_so_far records.old ++ row_text by_rfc member_fields) }
{
    put_record(records, &[b"corner", b"from", b"delay", b"cycles", b"to"])
}

/// Writes the row of a member.
fn put_member(
    records: &mut Records,
    alloc: Global,
    systems: &[System],
    member: &CornerMember,
) -> Result<(), OutOfMemory>
    requires between { IsBetween records.old }
    requires shown { IsShown systems.now member.now }
    ensures between { OnOk result (IsBetween records.new) }
    ensures text { OnOk result (text_so_far records.new
        ≡ text_so_far records.old ++ row_text by_rfc (member_record systems.now member.now)) }
{
    let flat = systems[corner_of(systems, member)].flat();
    let stage = own_stage(alloc, systems, member)?;
    let from = stage_from(alloc, flat, &stage)?;
    let to = stage_to(alloc, flat, &stage)?;
    let (mut corners, mut delays, mut counts) = (Buffer::new(), Buffer::new(), Buffer::new());
    let corner = numeral(&mut corners, i128::from(member.corner));
    let delay = numeral(&mut delays, i128::from(stage.delay));
    let cycles = numeral(&mut counts, i128::from(stage.cycles));
    put_record(records, &[corner, from.bytes(), delay, cycles, to.bytes()])
}

/// Writes the rows of the members of a chain from where it begins.
fn put_members(
    records: &mut Records,
    alloc: Global,
    systems: &[System],
    ring: &Ring<'_>,
) -> Result<(), OutOfMemory>
    requires between { IsBetween records.old }
    requires ring { IsRing systems.now ring.now.members.now ring.now.stages.now ring.now.first }
    ensures between { OnOk result (IsBetween records.new) }
    ensures text { OnOk result (text_so_far records.new ≡ text_so_far records.old
        ++ table_text (map (member_record systems.now) (turned ring.now.first ring.now.members.now))) }
{
    for at in 0..ring.members.len() {
        put_member(
            records,
            alloc,
            systems,
            member_at(ring.members, ring.first, at),
        )?;
    }
    Ok(())
}

/// The table of the members of a chain from where it begins.
fn ring_csv(alloc: Global, systems: &[System], ring: &Ring<'_>) -> Result<Bytes, OutOfMemory>
    requires { IsRing systems.now ring.now.members.now ring.now.stages.now ring.now.first }
    ensures { IfOk result (IsTable (member_records systems.now ring.now.members.now ring.now.first)) }
{
    let mut records = no_records(alloc);
    put_member_head(&mut records)?;
    put_members(&mut records, alloc, systems, ring)?;
    text_of(records)
}

/// The table of the members of a chain from its beginning by departures.
fn joint_csv(
    alloc: Global,
    systems: &[System],
    departures: &[Departures],
    members: &[CornerMember],
) -> Result<Bytes, OutOfMemory>
    requires some { 1 ≤ length systems.now }
    requires few { length systems.now ≤ 4 }
    requires chain { IsCornerChainInRange members.now }
    requires shown { All (IsShown systems.now) members.now }
    ensures { IfOk result (IsJointTable systems.now departures.now members.now) }
{
    let stages = joint_stages(alloc, systems, members)?;
    let departures = joint_departures(alloc, departures)?;
    let ring = Ring {
        members,
        stages: stages.items(),
        first: beginning(systems[0].flat(), &departures, stages.items()),
    };
    ring_csv(alloc, systems, &ring)
}

/// The table `corner,from,delay,cycles,to` of the chain of a certificate of two to four corners, from its beginning:
/// the number of each member's corner, counted from 1, or 0 of the clock, and how many whole femtoseconds it asks for,
/// in how many cycles, by its own corner's delays.
pub fn corners_csv(
    alloc: Global,
    systems: &[System],
    certificate: &CornerCertificate,
) -> Result<Bytes, OutOfMemory>
    requires some { 1 ≤ length systems.now }
    requires few { length systems.now ≤ 4 }
    requires alike { AreCorners systems.now }
    requires optimum { IsOptimumOf systems.now certificate.now }
    ensures { IfOk result (IsCornersTable systems.now certificate.now) }
{
    match certificate {
        CornerCertificate::Least {
            schedule: _,
            departures,
            chain,
        } => joint_csv(alloc, systems, departures.items(), chain.items()),
        CornerCertificate::Never { chain } => joint_csv(alloc, systems, &[], chain.items()),
    }
}
