//! Whether systems differ in numbers alone, so that a test may hand tables to `corners`.
ghost use Rattle.std.specs.Prelude.{◌≡◌, ◌≤◌, ◌*◌, IsTrue, length, map, flat_map};
ghost use Rattle.mintc_corners.specs.Joint.{AreCorners};
ghost use Rattle.mintc_timing.specs.Numbers.{DifferInNumbers, undelayed, unnumbered};

use mintc_text::Name;
use mintc_timing::{Bound, Element, Flat, Point, System, TimingArc};

/// Whether two names are one.
fn same_name(first: &Name, second: &Name) -> bool
    ensures { IsTrue result → second.now ≡ first.now }
{
    first.bytes() == second.bytes()
}

/// Whether two lists of names are one.
fn same_names(first: &[Name], second: &[Name]) -> bool
    ensures { IsTrue result → second.now ≡ first.now }
{
    if first.len() != second.len() {
        return false;
    }
    for index in 0..first.len() {
        if !same_name(&first[index], &second[index]) {
            return false;
        }
    }
    true
}

/// Whether two elements have one name, phase and kind.
fn same_element(first: &Element, second: &Element) -> bool
    ensures { IsTrue result → unnumbered second.now ≡ unnumbered first.now }
{
    same_name(&first.name, &second.name) && first.phase == second.phase && first.flop == second.flop
}

/// Whether two lists of elements are one but for numbers.
fn same_elements(first: &[Element], second: &[Element]) -> bool
    ensures { IsTrue result → map unnumbered second.now ≡ map unnumbered first.now }
{
    if first.len() != second.len() {
        return false;
    }
    for index in 0..first.len() {
        if !same_element(&first[index], &second[index]) {
            return false;
        }
    }
    true
}

/// Whether two lists of arcs lead from and to the same bits.
fn same_arcs(first: &[TimingArc], second: &[TimingArc]) -> bool
    ensures { IsTrue result → map undelayed second.now ≡ map undelayed first.now }
{
    if first.len() != second.len() {
        return false;
    }
    for index in 0..first.len() {
        if first[index].from != second[index].from || first[index].to != second[index].to {
            return false;
        }
    }
    true
}

/// Whether two points are one.
fn same_point(first: Point, second: Point) -> bool
    ensures { IsTrue result → second ≡ first }
{
    match (first, second) {
        (Point::Origin, Point::Origin) => true,
        (Point::Start(one), Point::Start(other)) => one == other,
        (Point::End(one), Point::End(other)) => one == other,
        _ => false,
    }
}

/// Whether two bounds are one.
fn same_bound(first: &Bound, second: &Bound) -> bool
    ensures { IsTrue result → second.now ≡ first.now }
{
    same_point(first.from, second.from)
        && same_point(first.to, second.to)
        && first.gap == second.gap
        && first.cycles == second.cycles
}

/// Whether two lists of bounds are one.
fn same_bounds(first: &[Bound], second: &[Bound]) -> bool
    ensures { IsTrue result → second.now ≡ first.now }
{
    if first.len() != second.len() {
        return false;
    }
    for index in 0..first.len() {
        if !same_bound(&first[index], &second[index]) {
            return false;
        }
    }
    true
}

/// Whether two designs differ in numbers alone.
fn alike(first: &Flat, second: &Flat) -> bool
    ensures { IsTrue result → DifferInNumbers first.now second.now }
{
    same_names(first.phases().items(), second.phases().items())
        && same_elements(first.elements(), second.elements())
        && same_names(first.inner().items(), second.inner().items())
        && same_arcs(first.arcs(), second.arcs())
        && same_bounds(first.bounds(), second.bounds())
}

/// Whether a system is small and differs from the first in numbers alone.
fn is_corner(first: &System, system: &System) -> bool
    ensures alike { IsTrue result → DifferInNumbers first.now.flat system.now.flat }
    ensures few { IsTrue result → length system.now.flat.elements ≤ 500 }
{
    system.flat().elements().len() <= 500 && alike(first.flat(), system.flat())
}

/// Whether systems are small and differ in numbers alone.
pub(super) fn are_corners(systems: &[System]) -> bool
    ensures alike { IsTrue result → AreCorners systems.now }
    ensures few { IsTrue result → length (flat_map (λ t. t.flat.elements) systems.now) ≤ length systems.now * 500 }
{
    if systems.is_empty() {
        return false;
    }
    for index in 0..systems.len() {
        if !is_corner(&systems[0], &systems[index]) {
            return false;
        }
    }
    true
}
