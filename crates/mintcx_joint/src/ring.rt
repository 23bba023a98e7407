//! The chain of corners with its stages, from where it begins.
ghost use Rattle.std.specs.Prelude.{◌≡◌, ◌<◌, ◌≤◌, length, All, IfOk, slice_index_or};
ghost use Rattle.mintcx_chain.specs.Names.{IsShort};
ghost use Rattle.mintcx_chain.specs.Turning.{turned};
ghost use Rattle.mintcx_joint.specs.Shown.{joint_departures, joint_stages, IsShown};

use crate::shown::joint_stage;
use mintc_certificate::Departures;
use mintc_corners::CornerMember;
use mintc_text::OutOfMemory;
use mintc_timing::System;
use mintcx_chain::{Stage, Stages};
use std::alloc::Global;

/// The members of a chain with their stages, and the place of the one at which it begins.
#[derive(Clone, Copy)]
pub struct Ring<'a> {
    pub members: &'a [CornerMember],
    pub stages: &'a [Stage],
    pub first: usize,
}

/// The member of a place from the one at which a chain begins.
pub fn member_at<'a>(members: &'a [CornerMember], first: usize, at: usize) -> &'a CornerMember
    requires first { first < length members.now }
    requires at { at < length members.now }
    ensures { result.now ≡ slice_index_or (turned first members.now) at result.now }
{
    let left = members.len() - first;
    if at < left {
        &members[first + at]
    } else {
        &members[at - left]
    }
}

/// The stages of the members of a chain, in their order.
pub fn joint_stages(
    alloc: Global,
    systems: &[System],
    members: &[CornerMember],
) -> Result<Stages, OutOfMemory>
    requires few { length systems.now ≤ 4 }
    requires members { All (IsShown systems.now) members.now }
    ensures value { IfOk result (λ stages. stages ≡ joint_stages systems.now members.now) }
    ensures short { IfOk result (λ stages. All IsShort stages) }
{
    let mut stages = Vec::with_capacity(alloc, members.len())?;
    for member in members {
        stages.push(joint_stage(alloc, systems, member)?)?;
    }
    Ok(Stages::new(stages))
}

/// The departures of all corners, one after the other.
pub fn joint_departures(alloc: Global, departures: &[Departures]) -> Result<Vec<i64>, OutOfMemory>
    ensures { IfOk result (λ all. all.items ≡ joint_departures departures.now) }
{
    let mut all = Vec::new(alloc);
    for own in departures {
        all.extend_from_slice(own.items())?;
    }
    Ok(all)
}
