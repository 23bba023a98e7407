//! The latches that borrow.
ghost use Rattle.std.specs.Prelude.{◌≡◌, ◌<◌, ◌++◌, ◌∷◌, [], ℕ, ℤ, filter, length, All, IfOk, OnOk};
ghost use Rattle.mintc_timing.specs.Design.{element_count};
ghost use Rattle.mintcx_chain.specs.Rows.{IsClocked};
ghost use Rattle.mintcx_reports.specs.Borrowers.{AreBorrowers, AreFlags, borrow_cells, borrow_columns, borrow_grid};
ghost use Rattle.mintcx_reports.specs.Borrowers.{borrow_head, borrowers_text, count_text, edge_count_text, feeds};
ghost use Rattle.mintcx_reports.specs.Borrowers.{is_fed, latch_count_text, latches_of, listed_text, may_borrow};
ghost use Rattle.mintcx_reports.specs.Borrowers.{places_of};

use crate::told::Told;
use mintc_text::{Lines, Names, OutOfMemory};
use mintc_timing::{Schedule, System};
use mintcx_columns::{Column, Table};
use mintcx_frame::{View, kind_on_phase, put_more, put_number, shown_rows, time_cell, word_cell};
use mintcx_manners::Limit;
use std::alloc::Global;

/// A latch's place: less than 0 by what it borrows, and its number.
pub(crate) type Place = (i64, u32);

/// The latches of a system: how many may borrow, and the places of those that do, most first.
#[derive(Drop)]
pub(crate) struct Borrowing {
    pub(crate) latches: usize,
    pub(crate) places: Vec<Place>,
}

/// A flag for each element: whether some pair leads to it, and whether some pair leads on from it.
#[derive(Drop)]
struct Sides {
    fed: Vec<bool>,
    feeding: Vec<bool>,
}

/// The sides of the elements of a system.
fn sides_of(alloc: Global, system: &System) -> Result<Sides, OutOfMemory>
    ensures fed { IfOk result
        (λ sides. AreFlags (is_fed system.now.pairs) (element_count system.now.flat) sides.fed.items) }
    ensures feeding { IfOk result
        (λ sides. AreFlags (feeds system.now.pairs) (element_count system.now.flat) sides.feeding.items) }
{
    let count = system.flat().elements().len();
    let mut fed = vec![in alloc; false; count]?;
    let mut feeding = vec![in alloc; false; count]?;
    for pair in system.pairs() {
        fed[pair.to as usize] = true;
        feeding[pair.from as usize] = true;
    }
    Ok(Sides { fed, feeding })
}

/// Whether an element may borrow: a latch to which some pair leads, and from which some pair leads on.
fn may_borrow(system: &System, sides: &Sides, element: u32) -> bool
    requires element { element < element_count system.now.flat }
    requires fed { AreFlags (is_fed system.now.pairs) (element_count system.now.flat) sides.now.fed.items }
    requires feeding { AreFlags (feeds system.now.pairs) (element_count system.now.flat) sides.now.feeding.items }
    ensures { result ≡ may_borrow system.now element }
{
    !system.element(element).flop && sides.fed[element as usize] && sides.feeding[element as usize]
}

/// Adds an element, where it may borrow.
fn push_latch(
    latches: &mut Vec<u32>,
    system: &System,
    sides: &Sides,
    element: u32,
) -> Result<(), OutOfMemory>
    requires element { element < element_count system.now.flat }
    requires fed { AreFlags (is_fed system.now.pairs) (element_count system.now.flat) sides.now.fed.items }
    requires feeding { AreFlags (feeds system.now.pairs) (element_count system.now.flat) sides.now.feeding.items }
    ensures { OnOk result
        (latches.new.items ≡ latches.old.items ++ filter (may_borrow system.now) (element ∷ [])) }
{
    if !may_borrow(system, sides, element) {
        return Ok(());
    }
    latches.push(element)?;
    Ok(())
}

/// The latches that may borrow, by their numbers.
fn latches_of(alloc: Global, system: &System, sides: &Sides) -> Result<Vec<u32>, OutOfMemory>
    requires fed { AreFlags (is_fed system.now.pairs) (element_count system.now.flat) sides.now.fed.items }
    requires feeding { AreFlags (feeds system.now.pairs) (element_count system.now.flat) sides.now.feeding.items }
    ensures { IfOk result (λ latches. latches.items ≡ latches_of system.now) }
{
    let mut latches = Vec::new(alloc);
    for element in 0..system.flat().element_count() {
        push_latch(&mut latches, system, sides, element)?;
    }
    Ok(latches)
}

/// Adds the place of a latch, where its data departs after its phase starts.
fn push_place(
    places: &mut Vec<Place>,
    system: &System,
    schedule: &Schedule,
    departures: &[i64],
    latch: u32,
) -> Result<(), OutOfMemory>
    requires clocked { IsClocked system.now.flat schedule.now departures.now }
    requires latch { latch < element_count system.now.flat }
    ensures { OnOk result (places.new.items ≡ places.old.items ++ places_of departures.now (latch ∷ [])) }
{
    let departure = departures[latch as usize];
    if departure <= 0 {
        return Ok(());
    }
    places.push((-departure, latch))?;
    Ok(())
}

/// The places of those latches that borrow, in the order of the latches.
fn places_of(
    alloc: Global,
    system: &System,
    schedule: &Schedule,
    departures: &[i64],
    latches: &[u32],
) -> Result<Vec<Place>, OutOfMemory>
    requires clocked { IsClocked system.now.flat schedule.now departures.now }
    requires latches { All (λ l. l < element_count system.now.flat) latches.now }
    ensures { IfOk result (λ places. places.items ≡ places_of departures.now latches.now) }
{
    let mut places = Vec::new(alloc);
    for latch in latches {
        push_place(&mut places, system, schedule, departures, *latch)?;
    }
    Ok(places)
}

/// The latches of a system, by the departures of a schedule.
pub(crate) fn borrowing_of(
    alloc: Global,
    system: &System,
    schedule: &Schedule,
    departures: &[i64],
) -> Result<Borrowing, OutOfMemory>
    requires { IsClocked system.now.flat schedule.now departures.now }
    ensures latches { IfOk result (λ found. found.latches ≡ length (latches_of system.now)) }
    ensures places { IfOk result (λ found. AreBorrowers system.now departures.now found.places.items) }
    ensures inside { IfOk result (λ found. All (λ (place : ℤ × ℕ). place.1 < element_count system.now.flat)
        found.places.items) }
{
    let latches = latches_of(alloc, system, &sides_of(alloc, system)?)?;
    let mut places = places_of(alloc, system, schedule, departures, &latches)?;
    places.sort_unstable();
    Ok(Borrowing {
        latches: latches.len(),
        places,
    })
}

/// Writes the line that says how many latches of how many borrow.
fn put_latch_count(lines: &mut Lines, count: usize, all: usize) -> Result<(), OutOfMemory>
    ensures { OnOk result (lines.new ≡ lines.old ++ latch_count_text count all) }
{
    if count == 0 {
        return lines.put(b"no latch borrows\n");
    }
    if count == 1 {
        lines.put(b"1 latch of ")?;
        put_number(lines, all as u64)?;
        return lines.put(b" borrows:\n\n");
    }
    put_number(lines, count as u64)?;
    lines.put(b" latches of ")?;
    put_number(lines, all as u64)?;
    lines.put(b" borrow:\n\n")
}

/// Writes the line that says at how many edges of how many a latch borrows.
fn put_edge_count(lines: &mut Lines, count: usize, all: usize) -> Result<(), OutOfMemory>
    ensures { OnOk result (lines.new ≡ lines.old ++ edge_count_text count all) }
{
    if count == 0 {
        return lines.put(b"no latch borrows\n");
    }
    if count == 1 {
        lines.put(b"a latch borrows at 1 edge of ")?;
        put_number(lines, all as u64)?;
        return lines.put(b":\n\n");
    }
    lines.put(b"latches borrow at ")?;
    put_number(lines, count as u64)?;
    lines.put(b" edges of ")?;
    put_number(lines, all as u64)?;
    lines.put(b":\n\n")
}

/// Writes the line that counts latches, or their edges where these are kept apart.
fn put_count(lines: &mut Lines, apart: bool, count: usize, all: usize) -> Result<(), OutOfMemory>
    ensures { OnOk result (lines.new ≡ lines.old ++ count_text apart count all) }
{
    if apart {
        put_edge_count(lines, count, all)
    } else {
        put_latch_count(lines, count, all)
    }
}

/// The columns of the table of the latches that borrow.
fn borrow_columns(alloc: Global) -> Result<Vec<Column>, OutOfMemory>
    ensures { IfOk result (λ columns. columns.items ≡ borrow_columns) }
{
    let (left, right) = (Column::left(), Column::right());
    Ok(vec![in alloc; right, left, left]?)
}

/// Its first row.
fn borrow_head(alloc: Global) -> Result<Names, OutOfMemory>
    ensures { IfOk result (λ row. row ≡ borrow_head) }
{
    let borrows = word_cell(alloc, b"borrows")?;
    let element = word_cell(alloc, b"element")?;
    let on = word_cell(alloc, b"on")?;
    Ok(Names::new(vec![in alloc; borrows, element, on]?))
}

/// The cells of a latch: what it borrows, its name, and its kind and phase.
fn borrow_cells(
    alloc: Global,
    told: &Told,
    departures: &[i64],
    element: u32,
) -> Result<Names, OutOfMemory>
    requires clocked { IsClocked told.now.flat.now told.now.schedule.now departures.now }
    requires element { element < element_count told.now.flat.now }
    ensures { IfOk result (λ cells. cells
        ≡ borrow_cells told.now.flat.now told.now.schedule.now departures.now told.now.unit element) }
{
    let lent = departures[element as usize];
    let borrows = time_cell(alloc, lent, told.schedule.den, told.unit)?;
    let name = word_cell(alloc, told.flat.element(element).name.bytes())?;
    let on = kind_on_phase(alloc, told.flat, element)?;
    Ok(Names::new(vec![in alloc; borrows, name, on]?))
}

/// The table of some latches.
fn borrow_table(
    alloc: Global,
    told: &Told,
    departures: &[i64],
    places: &[Place],
) -> Result<Table, OutOfMemory>
    requires clocked { IsClocked told.now.flat.now told.now.schedule.now departures.now }
    requires places { All (λ (place : ℤ × ℕ). place.1 < element_count told.now.flat.now) places.now }
    ensures { IfOk result (λ table. table
        ≡ borrow_grid told.now.flat.now told.now.schedule.now departures.now told.now.unit places.now) }
{
    let mut table = Table::new(alloc, borrow_columns(alloc)?);
    table.push(borrow_head(alloc)?)?;
    for place in places {
        table.push(borrow_cells(alloc, told, departures, place.1)?)?;
    }
    Ok(table)
}

/// Writes the table of latches, as many as a limit allows, and the line for those that it leaves out; nothing of none.
fn put_listed(
    lines: &mut Lines,
    alloc: Global,
    told: &Told,
    departures: &[i64],
    places: &[Place],
    limit: Limit,
) -> Result<(), OutOfMemory>
    requires clocked { IsClocked told.now.flat.now told.now.schedule.now departures.now }
    requires places { All (λ (place : ℤ × ℕ). place.1 < element_count told.now.flat.now) places.now }
    ensures { OnOk result (lines.new ≡ lines.old
        ++ listed_text told.now.flat.now told.now.schedule.now departures.now told.now.unit limit places.now) }
{
    if places.is_empty() {
        return Ok(());
    }
    let shown = shown_rows(limit, places.len());
    let text = borrow_table(alloc, told, departures, &places[..shown])?.text(alloc)?;
    lines.put(&text)?;
    put_more(lines, limit, places.len())
}

/// Writes the latches that borrow, after the line that counts them.
pub(crate) fn put_borrowers(
    lines: &mut Lines,
    alloc: Global,
    told: &Told,
    departures: &[i64],
    borrowing: &Borrowing,
    view: &View,
) -> Result<(), OutOfMemory>
    requires clocked { IsClocked told.now.flat.now told.now.schedule.now departures.now }
    requires places { All (λ (place : ℤ × ℕ). place.1 < element_count told.now.flat.now) borrowing.now.places.items }
    ensures { OnOk result (lines.new ≡ lines.old ++ borrowers_text told.now.flat.now told.now.schedule.now
        departures.now told.now.unit view.now borrowing.now.latches borrowing.now.places.items) }
{
    put_count(lines, view.apart, borrowing.places.len(), borrowing.latches)?;
    put_listed(
        lines,
        alloc,
        told,
        departures,
        &borrowing.places,
        view.limit,
    )
}
