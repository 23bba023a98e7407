//! Listed outputs on a phase of flops.
ghost use Rattle.std.specs.Prelude.{◌≡◌, ◌&&◌, ◌==◌, ◌++◌, ◌∷◌, [], not, take, IfOk, OnOk};
ghost use Rattle.std.specs.List.{list_any};
ghost use Rattle.mintcx_lint.specs.Outputs.{has_flops_alone, late_outputs, numbers_on, on_phase};

use mintc_clock::Listed;
use mintc_text::{Numbers, OutOfMemory};
use mintc_timing::{Element, Flat};
use std::alloc::Global;

/// Whether some element is on a phase.
fn has_element_on(elements: &[Element], phase: u32) -> bool
    ensures { result ≡ list_any (λ e. e.phase == phase) elements.now }
{
    for element in elements {
        if element.phase == phase {
            return true;
        }
    }
    false
}

/// Whether some element that is no flop is on a phase.
fn has_latch_on(elements: &[Element], phase: u32) -> bool
    ensures { result ≡ list_any (λ e. (e.phase == phase) && not e.flop) elements.now }
{
    for element in elements {
        if element.phase == phase && !element.flop {
            return true;
        }
    }
    false
}

/// Whether there are flops on a phase and no latches, among so many of the first elements.
fn has_flops_alone(flat: &Flat, storage: usize, phase: u32) -> bool
    ensures { result ≡ has_flops_alone flat.now storage phase }
{
    let elements = flat.elements();
    let first = &elements[..storage.min(elements.len())];
    has_element_on(first, phase) && !has_latch_on(first, phase)
}

/// Adds the number of a listed output, where that is on a phase.
fn push_on(
    numbers: &mut Vec<u32>,
    listed: &Listed,
    number: u32,
    phase: u32,
) -> Result<(), OutOfMemory>
    ensures { OnOk result (numbers.new.items ≡ numbers.old.items ++ on_phase phase number listed.now) }
{
    if listed.phase == phase {
        numbers.push(number)?;
    }
    Ok(())
}

/// The numbers of the listed outputs on a phase, from 1 on.
fn numbers_on(alloc: Global, outputs: &[Listed], phase: u32) -> Result<Numbers, OutOfMemory>
    ensures { IfOk result (λ numbers. numbers ≡ numbers_on phase 1 outputs.now) }
{
    let mut numbers = Vec::new(alloc);
    for at in 0..outputs.len() {
        let number = u32::try_from(at + 1)?;
        push_on(&mut numbers, &outputs[at], number, phase)?;
    }
    Ok(Numbers::new(numbers))
}

/// The numbers, from 1 on, of the listed outputs that are due later than the next edge of their data's phase: those on
/// this phase, where all latches and flops on it are flops, and some are. The first `storage` elements are the latches
/// and flops.
pub fn late_outputs(
    alloc: Global,
    flat: &Flat,
    storage: usize,
    outputs: &[Listed],
    phase: u32,
) -> Result<Numbers, OutOfMemory>
    ensures { IfOk result (λ numbers. numbers ≡ late_outputs flat.now storage outputs.now phase) }
{
    if has_flops_alone(flat, storage, phase) {
        numbers_on(alloc, outputs, phase)
    } else {
        Ok(Numbers::new(Vec::new(alloc)))
    }
}
