//! Ways back along joins.
ghost use Rattle.std.specs.Prelude.{◌≡◌, ◌<◌, ◌∷◌, List, length, All, IfOk, OnOk};
ghost use Rattle.std.specs.List.{range_with_len};
ghost use Rattle.mintc_flatten_hierarchy.specs.declared.hierarchy.Join.{Join};
ghost use Rattle.mintcx_lint_data.specs.Back.{AreBack, AreSources, twice_as_far};

use mintc_flatten_hierarchy::Join;
use mintc_text::OutOfMemory;
use std::alloc::Global;

/// Each bit by itself: no step back.
fn no_steps(alloc: Global, bits: u32) -> Result<Vec<u32>, OutOfMemory>
    ensures { IfOk result (λ v. v.items ≡ range_with_len 0 bits) }
{
    let mut found = Vec::with_capacity(alloc, bits as usize)?;
    for bit in 0..bits {
        found.push(bit)?;
    }
    Ok(found)
}

/// One step back along a join and others, of which it is the first, where there is one along the others.
fn step_along(found: &mut Vec<u32>, join: &Join)
    requires from { join.now.from < length found.old.items }
    requires to { join.now.to < length found.old.items }
    ensures { (joins : List Join) → AreBack joins 1 (length found.old.items) found.old.items
        → AreBack (join.now ∷ joins) 1 (length found.old.items) found.new.items }
{
    found[join.to as usize] = join.from;
}

/// One step back along joins: from the end of each to its beginning. Where several joins end at one bit, the first
/// counts.
fn one_step(alloc: Global, bits: u32, joins: &[Join]) -> Result<Vec<u32>, OutOfMemory>
    requires { All (λ j. (j.from < bits) × (j.to < bits)) joins.now }
    ensures { IfOk result (λ v. AreBack joins.now 1 bits v.items) }
{
    let mut found = no_steps(alloc, bits)?;
    for at in 0..joins.len() {
        step_along(&mut found, &joins[joins.len() - 1 - at]);
    }
    Ok(found)
}

/// Twice as many steps, in the place of what the list had.
fn twice_as_far(steps: &[u32], found: &mut Vec<u32>) -> Result<(), OutOfMemory>
    requires { All (λ b. b < length steps.now) steps.now }
    ensures { OnOk result (found.new.items ≡ twice_as_far steps.now) }
{
    found.clear();
    for &bit in steps {
        found.push(steps[bit as usize])?;
    }
    Ok(())
}

/// The bit that each bit has its data from: as many steps back along joins as there are bits, or more. In each round
/// the steps of the round before are taken twice.
pub(crate) fn sources(alloc: Global, bits: u32, joins: &[Join]) -> Result<Vec<u32>, OutOfMemory>
    requires { All (λ j. (j.from < bits) × (j.to < bits)) joins.now }
    ensures { IfOk result (λ v. AreSources joins.now bits v.items) }
{
    let mut found = one_step(alloc, bits, joins)?;
    let mut other = Vec::with_capacity(alloc, found.len())?;
    let mut steps = 1;
    while steps < bits as usize {
        twice_as_far(&found, &mut other)?;
        let twice = other;
        other = found;
        found = twice;
        steps += steps;
    }
    Ok(found)
}
