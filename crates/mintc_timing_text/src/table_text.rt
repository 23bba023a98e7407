//! Reading the text of a table.
ghost use Rattle.std.specs.Prelude.{◌≡◌, ◌≤◌, ◌<◌, ◌∷◌, ◌++◌, [], ℕ, List, OnOk, MatchOption, MatchResult, IfOk, IfErr};
ghost use Rattle.std.specs.Prelude.{Some, length, take, codes, decimal};
ghost use Rattle.mintc_text.specs.declared.limits.TheConstants.{MOST_BYTES};
ghost use Rattle.mintc_text.specs.ReadErrors.{Halts};
ghost use Rattle.mintc_text.specs.Stops.{StopsAt};
ghost use Rattle.mintc_timing.specs.declared.parts.Bound.{Bound};
ghost use Rattle.mintc_timing.specs.declared.parts.Element.{Element};
ghost use Rattle.mintc_timing.specs.declared.parts.TimingArc.{TimingArc};
ghost use Rattle.mintc_timing_text.specs.declared.table_lines.Version.{Version};
ghost use Rattle.mintc_timing.specs.Design.{Design, design_of};
ghost use Rattle.mintc_timing_text.specs.ElementWords.{named};
ghost use Rattle.mintc_timing_text.specs.Fields.{IsCount};
ghost use Rattle.mintc_timing.specs.Limits.{HasParts, IsWithinLimits, limit_of};
ghost use Rattle.mintc_timing_text.specs.Reading.{HasNone, HasRead, IsAt, number_after};
ghost use Rattle.mintc_timing_text.specs.TableReading.{AreKept, ArePartsOf};
ghost use Rattle.mintc_timing_text.specs.TableText.{NextOfTable, IsElementLine, IsArcLine, IsBoundLine, IsTableText};
ghost use Rattle.mintc_timing_text.specs.TableText.{IsTableFault, IsTableRefusal, inner_names, first, phase, element};
ghost use Rattle.mintc_timing_text.specs.TableText.{arc, bound, phases as before_phases, arcs as before_arcs};

use crate::Reader;
use crate::table_lines::{ElementNumbers, Version, arc_of, bound_of, element_of, version_of};
use itoa::write_digits;
use mintc_text::limits::{MOST_ARCS, MOST_BOUNDS, MOST_COUNT, MOST_ELEMENTS, MOST_PHASES};
use mintc_text::{Limits, Name, Names, OutOfMemory, ReadError, Refusal, Role, Stop};
use mintc_timing::{Bound, Element, Flat, TimingArc, first_over};
use std::alloc::Global;

/// The first items of a list, as many as a design may have, and how many there were.
#[derive(Drop)]
struct Listed<T> {
    kept: Vec<T>,
    count: u32,
}

/// What a table says.
#[derive(Drop)]
struct Parts {
    phases: Listed<Name>,
    elements: Listed<Element>,
    inner: u32,
    arcs: Listed<TimingArc>,
    bounds: Listed<Bound>,
}

/// Appends an item where there are fewer than `most`.
fn keep<T: Drop>(items: &mut Vec<T>, most: usize, item: T) -> Result<(), OutOfMemory>
    ensures { OnOk result ((all : List T) → items.old.items ≡ take most all →
        items.new.items ≡ take most (all ++ item ∷ [])) }
{
    if items.len() >= most {
        return Ok(());
    }
    items.push(item)?;
    Ok(())
}

/// Reads the line of an element.
fn element_line<'a>(
    reader: &mut Reader<'a>,
    version: Version,
    phases: u32,
) -> Option<(&'a [u8], ElementNumbers)>
    ensures read { MatchOption result
        (HasNone (IsElementLine version phases) reader.old.left)
        (λ found. HasRead (IsElementLine version phases) reader.old.left (named found.0.now found.1) reader.new.left) }
    ensures counted { reader.new.number ≡ number_after reader.old.number }
{
    let fields = reader.fields()?;
    element_of(fields, version, phases)
}

/// Reads the line of an arc.
fn arc_line(reader: &mut Reader, elements: u32, inner: u32) -> Option<TimingArc>
    requires elements { IsCount elements }
    requires inner { IsCount inner }
    ensures read { MatchOption result
        (HasNone (IsArcLine elements inner) reader.old.left)
        (λ x. HasRead (IsArcLine elements inner) reader.old.left x reader.new.left) }
    ensures counted { reader.new.number ≡ number_after reader.old.number }
{
    let fields = reader.fields()?;
    arc_of(fields, elements, inner)
}

/// Reads the line of a bound.
fn bound_line(reader: &mut Reader, phases: u32) -> Option<Bound>
    requires { IsCount phases }
    ensures read { MatchOption result
        (HasNone (IsBoundLine phases) reader.old.left)
        (λ x. HasRead (IsBoundLine phases) reader.old.left x reader.new.left) }
    ensures counted { reader.new.number ≡ number_after reader.old.number }
{
    let fields = reader.fields()?;
    bound_of(fields, phases)
}

/// An element of this name and these numbers.
fn element_with(alloc: Global, name: &[u8], numbers: ElementNumbers) -> Result<Element, OutOfMemory>
    ensures { IfOk result (λ e. e ≡ named name.now numbers) }
{
    let name = Name::new(alloc, name)?;
    Ok(Element {
        name,
        phase: numbers.phase,
        flop: numbers.flop,
        setup: numbers.setup,
        hold: numbers.hold,
        has_hold: numbers.has_hold,
        dq_min: numbers.dq_min,
        dq_max: numbers.dq_max,
        cq_min: numbers.cq_min,
        cq_max: numbers.cq_max,
        width: numbers.width,
    })
}

/// Reads the number of phases and their lines.
fn phases(alloc: Global, reader: &mut Reader) -> Result<Listed<Name>, ReadError>
    ensures read { (text : List ℕ) (v : Version) → IsAt NextOfTable first text reader.old (before_phases v) →
        MatchResult result
        (λ listed. (all : List (List ℕ)) × (1 ≤ length all) × AreKept MOST_PHASES all listed.kept.items listed.count
        × IsAt NextOfTable first text reader.new (phase v 0 (design_of all [] [] [] [])))
        (Halts (IsTableFault text reader.new.number)) }
    ensures few { IfOk result (λ listed. IsCount listed.count) }
{
    let Some(count) = reader.count_line(b"phases", 1, MOST_COUNT) else {
        return Err(ReadError::Malformed);
    };
    let mut kept = Vec::new(alloc);
    for _phase in 0..count {
        let Some(name) = reader.name_line(b"phase") else {
            return Err(ReadError::Malformed);
        };
        let name = Name::new(alloc, name)?;
        keep(&mut kept, MOST_PHASES, name)?;
    }
    Ok(Listed { kept, count })
}

/// Reads the number of elements and their lines, in a table of so many phases.
fn elements(
    alloc: Global,
    reader: &mut Reader,
    version: Version,
    phases: u32,
) -> Result<Listed<Element>, ReadError>
    ensures read { (text : List ℕ) (ps : List (List ℕ)) → length ps ≡ phases →
        IsAt NextOfTable first text reader.old (phase version 0 (design_of ps [] [] [] [])) →
        MatchResult result
        (λ listed. (all : List Element) × AreKept MOST_ELEMENTS all listed.kept.items listed.count
        × IsAt NextOfTable first text reader.new (element version 0 (design_of ps all [] [] [])))
        (Halts (IsTableFault text reader.new.number)) }
    ensures few { IfOk result (λ listed. IsCount listed.count) }
{
    let Some(count) = reader.count_line(b"elements", 0, MOST_COUNT) else {
        return Err(ReadError::Malformed);
    };
    let mut kept = Vec::new(alloc);
    for _element in 0..count {
        let Some((name, numbers)) = element_line(reader, version, phases) else {
            return Err(ReadError::Malformed);
        };
        let element = element_with(alloc, name, numbers)?;
        keep(&mut kept, MOST_ELEMENTS, element)?;
    }
    Ok(Listed { kept, count })
}

/// Reads the number of arcs and their lines, in a table of so many elements and inner bits.
fn arcs(
    alloc: Global,
    reader: &mut Reader,
    elements: u32,
    inner: u32,
) -> Result<Listed<TimingArc>, ReadError>
    requires elements { IsCount elements }
    requires inner { IsCount inner }
    ensures { (text : List ℕ) (ps : List (List ℕ)) (es : List Element) (ns : List (List ℕ)) → length es ≡ elements →
        length ns ≡ inner →
        IsAt NextOfTable first text reader.old (before_arcs (design_of ps es ns [] [])) →
        MatchResult result
        (λ listed. (all : List TimingArc) × AreKept MOST_ARCS all listed.kept.items listed.count
        × IsAt NextOfTable first text reader.new (arc 0 (design_of ps es ns all [])))
        (Halts (IsTableFault text reader.new.number)) }
{
    let Some(count) = reader.count_line(b"arcs", 0, MOST_COUNT) else {
        return Err(ReadError::Malformed);
    };
    let mut kept = Vec::new(alloc);
    for _arc in 0..count {
        let Some(arc) = arc_line(reader, elements, inner) else {
            return Err(ReadError::Malformed);
        };
        keep(&mut kept, MOST_ARCS, arc)?;
    }
    Ok(Listed { kept, count })
}

/// Reads the number of bounds and their lines, in a table of so many phases.
fn bounds(alloc: Global, reader: &mut Reader, phases: u32) -> Result<Listed<Bound>, ReadError>
    requires { IsCount phases }
    ensures { (text : List ℕ) (ps : List (List ℕ)) (es : List Element) (ns : List (List ℕ)) (xs : List TimingArc) →
        length ps ≡ phases →
        IsAt NextOfTable first text reader.old (arc 0 (design_of ps es ns xs [])) →
        MatchResult result
        (λ listed. (all : List Bound) × AreKept MOST_BOUNDS all listed.kept.items listed.count
        × IsAt NextOfTable first text reader.new (bound 0 (design_of ps es ns xs all)))
        (Halts (IsTableFault text reader.new.number)) }
{
    let Some(count) = reader.count_line(b"bounds", 0, MOST_COUNT) else {
        return Err(ReadError::Malformed);
    };
    let mut kept = Vec::new(alloc);
    for _bound in 0..count {
        let Some(bound) = bound_line(reader, phases) else {
            return Err(ReadError::Malformed);
        };
        keep(&mut kept, MOST_BOUNDS, bound)?;
    }
    Ok(Listed { kept, count })
}

/// Reads the lines before those of the arcs: the phases, the elements and the number of inner bits.
fn front(
    alloc: Global,
    reader: &mut Reader,
) -> Result<(Listed<Name>, Listed<Element>, u32), ReadError>
    ensures read { (text : List ℕ) → IsAt NextOfTable first text reader.old first →
        MatchResult result
        (λ r. (ps : List (List ℕ)) × (es : List Element) × AreKept MOST_PHASES ps r.0.kept.items r.0.count
        × AreKept MOST_ELEMENTS es r.1.kept.items r.1.count
        × IsAt NextOfTable first text reader.new (before_arcs (design_of ps es (inner_names r.2) [] [])))
        (Halts (IsTableFault text reader.new.number)) }
    ensures few { IfOk result (λ r. IsCount r.0.count × IsCount r.1.count × IsCount r.2) }
{
    let Some(number) = reader.count_line(b"table", 1, 3) else {
        return Err(ReadError::Malformed);
    };
    let names = phases(alloc, reader)?;
    let listed = elements(alloc, reader, version_of(number), names.count)?;
    let Some(inner) = reader.count_line(b"inner", 0, MOST_COUNT) else {
        return Err(ReadError::Malformed);
    };
    Ok((names, listed, inner))
}

/// Reads all lines of a table, and that none follows.
fn table(alloc: Global, reader: &mut Reader) -> Result<Parts, ReadError>
    ensures { (text : List ℕ) → IsAt NextOfTable first text reader.old first →
        MatchResult result
        (λ parts. (d : Design) × IsTableText text d × ArePartsOf d parts)
        (Halts (IsTableFault text reader.new.number)) }
{
    let (names, listed, inner) = front(alloc, reader)?;
    let joined = arcs(alloc, reader, listed.count, inner)?;
    let demands = bounds(alloc, reader, names.count)?;
    let Some(()) = reader.word_line(b"end") else {
        return Err(ReadError::Malformed);
    };
    let Some(()) = reader.end() else {
        return Err(ReadError::Malformed);
    };
    Ok(Parts {
        phases: names,
        elements: listed,
        inner,
        arcs: joined,
        bounds: demands,
    })
}

/// The name of an inner bit.
fn inner_name(alloc: Global, number: u32) -> Result<Name, OutOfMemory>
    ensures { IfOk result (λ name. name ≡ codes "n" ++ decimal number) }
{
    let mut room = [b'n'; 11];
    let start = write_digits(u64::from(number), &mut room, 11);
    Name::new(alloc, &room[start - 1..])
}

/// The names of so many inner bits.
fn inner_names(alloc: Global, count: u32) -> Result<Names, OutOfMemory>
    ensures { IfOk result (λ names. names ≡ inner_names count) }
{
    let mut names = Vec::with_capacity(alloc, count as usize)?;
    for number in 0..count {
        let name = inner_name(alloc, number)?;
        names.push(name)?;
    }
    Ok(Names::new(names))
}

/// The design of a table's parts.
fn flat_of(alloc: Global, limits: &Limits, parts: Parts) -> Result<Flat, Stop>
    requires { (d : Design) × HasParts d × ArePartsOf d parts }
    ensures value { IfOk result (λ flat. (d : Design) → ArePartsOf d parts → flat ≡ d) }
    ensures within { IfOk result (λ flat. IsWithinLimits limits.now flat) }
    ensures stop { IfErr result (StopsAt (λ r. (d : Design) → ArePartsOf d parts → limit_of limits.now d ≡ Some r)) }
{
    if let Some(refusal) = first_over(
        limits,
        parts.inner as usize,
        parts.phases.count as usize,
        parts.elements.count as usize,
        parts.arcs.count as usize,
        parts.bounds.count as usize,
    ) {
        return Err(Stop::Refused(refusal));
    }
    let inner = inner_names(alloc, parts.inner)?;
    let Parts {
        phases,
        elements,
        inner: _,
        arcs,
        bounds,
    } = parts;
    Ok(Flat::new(
        limits,
        Names::new(phases.kept),
        elements.kept,
        inner,
        arcs.kept,
        bounds.kept,
    )?)
}

/// The design of a table's text. The refusal is Syntax with the first line that is out of form, counted from 1, and
/// where all lines are in form Limit of the first quantity, in the order inner bits, phases, elements, arcs, bounds,
/// that passes its limit in this run.
pub fn read_table(alloc: Global, limits: &Limits, text: &[u8]) -> Result<Flat, Stop>
    requires { length text.now ≤ MOST_BYTES }
    ensures value { IfOk result (λ flat. IsTableText text.now flat) }
    ensures within { IfOk result (λ flat. IsWithinLimits limits.now flat) }
    ensures stop { IfErr result (StopsAt (IsTableRefusal limits.now text.now)) }
{
    let mut reader = Reader::new(text);
    match table(alloc, &mut reader) {
        Ok(parts) => flat_of(alloc, limits, parts),
        Err(ReadError::Malformed) => Err(Stop::Refused(Refusal::Syntax {
            role: Role::Table,
            entry: reader.number(),
        })),
        Err(ReadError::OutOfMemory) => Err(Stop::OutOfMemory),
    }
}
