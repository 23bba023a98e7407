//! The place in its file that a refusal speaks of.
ghost use Rattle.std.specs.Prelude.{◌≡◌, ◌≤◌, IfNone, IfSome, false, length};
ghost use Rattle.std.specs.Prelude.{IfOk};
ghost use Rattle.mintcx_finders.specs.Places.{IsInside, IsRange};
ghost use Rattle.mintcx_refusals.specs.Places.{HasMark, HasNoPlace, HasNone, IsAt, IsPlace, IsPlaceAt, before};
ghost use Rattle.mintcx_refusals.specs.Places.{pointer_of};
ghost use Rattle.mintcx_refusals.specs.Loops.{from_second};

use crate::carriers::{Carried, Way, clock_of};
use mintc_text::{OutOfMemory, Refusal, Role};
use mintcx_finders::{
    Fault, Found, arc_lines, behaviour, broken_statement, cell_fault, clock_fault, far_number,
    field_fault, long_way, missing_cell, missing_instance, missing_pin, missing_port,
    missing_port_of_module, missing_way, name_twice, negative_number, possible_tops, ring,
    two_drivers, unclosed_list, unread_key, wrong_width,
};
use mintcx_places::{
    Range, delays_range, entry_range, library_statement_range, line_range, statement_range,
};
use std::alloc::Global;

/// What a refusal points at.
#[derive(Clone, Copy)]
pub(crate) enum Pointer {
    /// The statement of this number of the netlist.
    Statement(u32),
    /// The entry of this number of the delays.
    Entry(u32),
    /// The list that delays are.
    Delays,
    /// The statement of this number directly in the library.
    LibraryStatement(u32),
    /// The line of this number.
    Line(u32),
    /// Some place that is looked for.
    Somewhere,
    /// No place that is known.
    Nowhere,
}

/// A place of a file: what is pointed at, or the last line, statement or entry before it, where the file ends too soon.
/// What of it is marked, and why, if that is found: else all of it is marked. Of a latch or flop on no phase also how
/// its clock comes to it.
#[derive(Clone, Copy)]
pub(crate) struct Place {
    pub(crate) range: Range,
    pub(crate) is_last: bool,
    pub(crate) mark: Range,
    pub(crate) fault: Option<Fault>,
    pub(crate) way: Option<Way>,
}

/// The line of a schedule that says how many phases it has.
const PHASES_LINE: u32 = 4;

/// What a text out of form is at fault with.
fn syntax_pointer(role: Role, entry: u32) -> Pointer
    ensures { result ≡ pointer_of (Refusal.Syntax role entry) }
{
    match role {
        Role::Netlist => Pointer::Statement(entry),
        Role::Table | Role::Schedule | Role::Certificate => Pointer::Line(entry),
        Role::Delays => Pointer::Entry(entry),
        Role::Cells => Pointer::LibraryStatement(entry),
        Role::Clock => Pointer::Nowhere,
    }
}

/// What a refusal points at.
fn pointer_of(refusal: &Refusal) -> Pointer
    ensures { result ≡ pointer_of refusal.now }
{
    match refusal {
        Refusal::Syntax { role, entry } => syntax_pointer(*role, *entry),
        Refusal::NameTwice { entry }
        | Refusal::NoModule { entry }
        | Refusal::Recursive { entry }
        | Refusal::NoPin { entry }
        | Refusal::Width { entry }
        | Refusal::TwoDrivers { entry } => Pointer::Statement(*entry),
        Refusal::NoInstance {
            role: Role::Delays,
            entry,
        }
        | Refusal::NoArc { entry }
        | Refusal::Negative { entry }
        | Refusal::Range { entry } => Pointer::Entry(*entry),
        Refusal::PhaseMismatch { .. } => Pointer::Line(PHASES_LINE),
        Refusal::TopUnclear { .. }
        | Refusal::NoInstance {
            role: Role::Clock,
            ..
        }
        | Refusal::BadCell { .. }
        | Refusal::BadClock { .. }
        | Refusal::NoPhase { .. }
        | Refusal::CombinationalLoop { .. }
        | Refusal::PathRange { .. } => Pointer::Somewhere,
        Refusal::TooLong { .. }
        | Refusal::NoInstance { .. }
        | Refusal::Limit { .. }
        | Refusal::Corner { .. } => Pointer::Nowhere,
    }
}

/// The statement, the entry or the line before.
fn before(pointer: Pointer) -> Pointer
    ensures { result ≡ before pointer }
{
    match pointer {
        Pointer::Statement(number) => Pointer::Statement(number.saturating_sub(1)),
        Pointer::Entry(number) if number > 1 => Pointer::Entry(number - 1),
        Pointer::Entry(_) => Pointer::Delays,
        Pointer::LibraryStatement(number) => Pointer::LibraryStatement(number.saturating_sub(1)),
        Pointer::Line(number) => Pointer::Line(number.saturating_sub(1)),
        Pointer::Delays | Pointer::Somewhere | Pointer::Nowhere => Pointer::Nowhere,
    }
}

/// The range of what is pointed at.
fn range_at(file: &[u8], pointer: Pointer) -> Option<Range>
    ensures some { IfSome result (IsAt file.now pointer) }
    ensures within { IfSome result (λ range. (range.from ≤ range.to) × (range.to ≤ length file.now)) }
    ensures none { IfNone result (HasNone file.now pointer) }
{
    match pointer {
        Pointer::Statement(number) => statement_range(file, number),
        Pointer::Entry(number) => entry_range(file, number),
        Pointer::Delays => delays_range(file),
        Pointer::LibraryStatement(number) => library_statement_range(file, number),
        Pointer::Line(number) => line_range(file, number),
        Pointer::Somewhere | Pointer::Nowhere => None,
    }
}

/// A place all of which is marked.
fn whole(range: Range, is_last: bool) -> Place
    ensures range { result.range ≡ range }
    ensures last { result.is_last ≡ is_last }
    ensures mark { result.mark ≡ range }
{
    Place {
        range,
        is_last,
        mark: range,
        fault: None,
        way: None,
    }
}

/// The last place before what is pointed at and isn't there.
fn last_before(file: &[u8], pointer: Pointer) -> Option<Place>
    requires { HasNone file.now pointer }
    ensures some { IfSome result (IsPlaceAt file.now pointer) }
    ensures within { IfSome result (λ place. place.range.to ≤ length file.now) }
    ensures mark { IfSome result HasMark }
    ensures none { IfNone result (HasNone file.now (before pointer)) }
{
    match range_at(file, before(pointer)) {
        Some(range) => Some(whole(range, true)),
        None => None,
    }
}

/// The place of what is pointed at, or of the last before it, where the file ends too soon.
fn place_at(file: &[u8], pointer: Pointer) -> Option<Place>
    ensures some { IfSome result (IsPlaceAt file.now pointer) }
    ensures within { IfSome result (λ place. place.range.to ≤ length file.now) }
    ensures mark { IfSome result HasMark }
    ensures none { IfNone result (HasNone file.now pointer × HasNone file.now (before pointer)) }
{
    match range_at(file, pointer) {
        Some(range) => Some(whole(range, false)),
        None => last_before(file, pointer),
    }
}

/// What a finder finds in an entry of the delays that is out of form.
fn found_in_delays(file: &[u8], range: &Range) -> Option<Found>
    ensures { IfSome result (λ found. IsInside range.now found.range) }
{
    match unclosed_list(file, range) {
        Some(found) => Some(found),
        None => unread_key(file, range),
    }
}

/// What a finder finds in what stands last of a file that ends too soon.
fn found_in_last(file: &[u8], refusal: &Refusal, range: &Range) -> Option<Found>
    ensures { IfSome result (λ found. IsInside range.now found.range) }
{
    match refusal {
        Refusal::Syntax {
            role: Role::Delays,
            ..
        } => unclosed_list(file, range),
        _ => None,
    }
}

/// What a finder finds in a part of a text that is out of form.
fn found_out_of_form(file: &[u8], role: Role, range: &Range) -> Option<Found>
    requires order { range.now.from ≤ range.now.to }
    requires within { range.now.to ≤ length file.now }
    ensures { IfSome result (λ found. IsInside range.now found.range) }
{
    match role {
        Role::Netlist => behaviour(file, range),
        Role::Delays => found_in_delays(file, range),
        Role::Table | Role::Schedule | Role::Certificate => field_fault(file, range),
        Role::Cells => broken_statement(file, range),
        Role::Clock => None,
    }
}

/// The port or pin that isn't there: of a module of the netlist, else of a cell by the cell description.
fn found_port(
    alloc: Global,
    file: &[u8],
    beside: &[u8],
    range: &Range,
) -> Result<Option<Found>, OutOfMemory>
    ensures { IfOk result (λ o. IfSome o (λ found. IsInside range.now found.range)) }
{
    match missing_port_of_module(alloc, file, range)? {
        Some(found) => Ok(Some(found)),
        None => missing_pin(alloc, file, beside, range),
    }
}

/// What a finder finds in the statement of a refusal.
fn found_in_statement(
    alloc: Global,
    file: &[u8],
    beside: &[u8],
    refusal: &Refusal,
    range: &Range,
) -> Result<Option<Found>, OutOfMemory>
    ensures { IfOk result (λ o. IfSome o (λ found. IsInside range.now found.range)) }
{
    match refusal {
        Refusal::NameTwice { .. } => name_twice(alloc, file, range),
        Refusal::NoModule { .. } => Ok(missing_cell(file, range)),
        Refusal::Recursive { .. } => Ok(ring(file, range)),
        Refusal::NoPin { .. } => found_port(alloc, file, beside, range),
        Refusal::Width { .. } => wrong_width(alloc, file, range),
        Refusal::TwoDrivers { .. } => two_drivers(alloc, file, range),
        _ => Ok(None),
    }
}

/// What a finder finds in the line, the statement or the entry of a refusal.
fn found_in(
    alloc: Global,
    file: &[u8],
    beside: &[u8],
    refusal: &Refusal,
    range: &Range,
) -> Result<Option<Found>, OutOfMemory>
    requires order { range.now.from ≤ range.now.to }
    requires within { range.now.to ≤ length file.now }
    ensures { IfOk result (λ o. IfSome o (λ found. IsInside range.now found.range)) }
{
    match refusal {
        Refusal::Syntax { role, .. } => Ok(found_out_of_form(file, *role, range)),
        Refusal::NoInstance { .. } => Ok(missing_instance(file, range)),
        Refusal::NoArc { .. } => Ok(missing_way(file, range)),
        Refusal::Negative { .. } => Ok(negative_number(file, range)),
        Refusal::Range { .. } => Ok(far_number(file, range)),
        _ => found_in_statement(alloc, file, beside, refusal, range),
    }
}

/// A place of which what is found is marked, if anything is.
fn with_found(place: Place, found: Option<Found>) -> Place
    requires mark { HasMark place }
    requires inside { IfSome found (λ f. IsInside place.range f.range) }
    ensures range { result.range ≡ place.range }
    ensures last { result.is_last ≡ place.is_last }
    ensures mark { HasMark result }
{
    match found {
        Some(found) => Place {
            mark: found.range,
            fault: Some(found.fault),
            ..place
        },
        None => place,
    }
}

/// A place with what is found in it.
fn looked_through(
    alloc: Global,
    file: &[u8],
    beside: &[u8],
    refusal: &Refusal,
    place: Place,
) -> Result<Place, OutOfMemory>
    requires mark { HasMark place }
    requires within { place.range.to ≤ length file.now }
    ensures range { IfOk result (λ p. p.range ≡ place.range) }
    ensures last { IfOk result (λ p. p.is_last ≡ place.is_last) }
    ensures mark { IfOk result HasMark }
{
    if place.is_last {
        return Ok(with_found(place, found_in_last(file, refusal, &place.range)));
    }
    let found = found_in(alloc, file, beside, refusal, &place.range)?;
    Ok(with_found(place, found))
}

/// The arcs of a loop from the second one on, and the first one last.
fn from_second(alloc: Global, arcs: &[u32]) -> Result<Vec<u32>, OutOfMemory>
    ensures { IfOk result (λ turned. turned.items ≡ from_second arcs.now) }
{
    let mut turned = Vec::with_capacity(alloc, arcs.len())?;
    if let [first, rest @ ..] = arcs {
        turned.extend_from_slice(rest)?;
        turned.push(*first)?;
    }
    Ok(turned)
}

/// The lines of the arcs of a loop, from the second one on.
fn loop_lines(alloc: Global, file: &[u8], arcs: &[u32]) -> Result<Option<Found>, OutOfMemory>
    ensures { IfOk result (λ o. IfSome o (λ found. IsRange file.now found.range)) }
{
    let arcs = from_second(alloc, arcs)?;
    Ok(arc_lines(file, &arcs))
}

/// What is found of the places that are looked for in a whole file.
fn found_anywhere(
    alloc: Global,
    file: &[u8],
    refusal: &Refusal,
) -> Result<Option<Found>, OutOfMemory>
    ensures within { IfOk result (λ o. IfSome o (λ found. IsRange file.now found.range)) }
    ensures some { IfOk result (λ o. IfSome o (λ found. pointer_of refusal.now ≡ Pointer.Somewhere)) }
{
    match refusal {
        Refusal::TopUnclear { count } if *count > 0 => possible_tops(alloc, file),
        Refusal::NoInstance {
            role: Role::Clock,
            entry,
        } => Ok(missing_port(file, *entry)),
        Refusal::BadCell { entry, rule } => cell_fault(alloc, file, *entry, *rule),
        Refusal::BadClock { entry, rule } => Ok(clock_fault(file, *entry, *rule)),
        Refusal::CombinationalLoop { arcs } => loop_lines(alloc, file, arcs.items()),
        Refusal::PathRange { element, bit } => long_way(alloc, file, *element, *bit),
        _ => Ok(None),
    }
}

/// What is found, as a place.
fn place_found(found: Found) -> Place
    ensures range { result.range ≡ found.range }
    ensures mark { result.mark ≡ found.range }
    ensures last { result.is_last ≡ false }
{
    Place {
        range: found.range,
        is_last: false,
        mark: found.range,
        fault: Some(found.fault),
        way: None,
    }
}

/// A latch or flop that is on no phase, as a place.
fn place_carried(carried: Carried) -> Place
    ensures range { result.range ≡ carried.found.range }
    ensures mark { result.mark ≡ carried.found.range }
    ensures last { result.is_last ≡ false }
{
    Place {
        way: Some(carried.way),
        ..place_found(carried.found)
    }
}

/// The latch or flop of a number that is on no phase, as a place.
fn place_of_clock(
    alloc: Global,
    file: &[u8],
    beside: &[u8],
    element: u32,
) -> Result<Option<Place>, OutOfMemory>
    requires { HasNoPlace file.now (Refusal.NoPhase element) }
    ensures some { IfOk result (λ o. IfSome o (IsPlace file.now (Refusal.NoPhase element))) }
    ensures within { IfOk result (λ o. IfSome o (λ place. place.mark.from ≤ length file.now)) }
    ensures none { IfOk result (λ o. IfNone o (HasNoPlace file.now (Refusal.NoPhase element))) }
{
    match clock_of(alloc, file, beside, element)? {
        Some(carried) => Ok(Some(place_carried(carried))),
        None => Ok(None),
    }
}

/// The place of a refusal that is looked for in the whole file.
fn place_anywhere(
    alloc: Global,
    file: &[u8],
    beside: &[u8],
    refusal: &Refusal,
) -> Result<Option<Place>, OutOfMemory>
    requires { HasNoPlace file.now refusal.now }
    ensures some { IfOk result (λ o. IfSome o (IsPlace file.now refusal.now)) }
    ensures within { IfOk result (λ o. IfSome o (λ place. place.mark.from ≤ length file.now)) }
    ensures none { IfOk result (λ o. IfNone o (HasNoPlace file.now refusal.now)) }
{
    if let Refusal::NoPhase { element } = refusal {
        return place_of_clock(alloc, file, beside, *element);
    }
    match found_anywhere(alloc, file, refusal)? {
        Some(found) => Ok(Some(place_found(found))),
        None => Ok(None),
    }
}

/// The place that a refusal speaks of, or the last before it, where the file ends too soon. What is marked of it may be
/// found by the help of another file.
pub(crate) fn place_of(
    alloc: Global,
    file: &[u8],
    beside: &[u8],
    refusal: &Refusal,
) -> Result<Option<Place>, OutOfMemory>
    ensures some { IfOk result (λ o. IfSome o (IsPlace file.now refusal.now)) }
    ensures within { IfOk result (λ o. IfSome o (λ place. place.mark.from ≤ length file.now)) }
    ensures none { IfOk result (λ o. IfNone o (HasNoPlace file.now refusal.now)) }
{
    match place_at(file, pointer_of(refusal)) {
        Some(place) => Ok(Some(looked_through(alloc, file, beside, refusal, place)?)),
        None => place_anywhere(alloc, file, beside, refusal),
    }
}

/// What is found to be at fault.
pub(crate) fn fault_of(place: Option<Place>) -> Option<Fault> {
    match place {
        Some(place) => place.fault,
        None => None,
    }
}
