//! The objects of judgements.
ghost use Rattle.std.specs.Prelude.{◌≡◌, ◌<◌, ◌++◌, ◌∷◌, [], codes, length, map, All, IfOk, OnOk};
ghost use Rattle.std.specs.List.{range_with_len};
ghost use Rattle.json.specs.Tree.{json_tokens};
ghost use Rattle.mintc_timing.specs.Design.{element_count, phase_count};
ghost use Rattle.mintc_timing.specs.Limits.{IsInRange};
ghost use Rattle.mintcx_judgements.specs.Named.{AreNamed, IsNamed};
ghost use Rattle.mintcx_judgements.specs.Sources.{from_of};
ghost use Rattle.mintcx_json.specs.Judgements.{IsFailObject, IsPassObject, bound_of, broken_word, departing_value};
ghost use Rattle.mintcx_json.specs.Judgements.{fail_value, names_of, pass_value, violation_value};
ghost use Rattle.mintcx_json.specs.Objects.{array_of, name};
ghost use Rattle.mintcx_json.specs.Pieces.{fields_tokens, values_tokens};

use crate::chains::put_bound;
use crate::clocks::{departure_at, kind_word, put_schedule};
use crate::fields::{put_head, put_name, put_whole, put_word};
use crate::sheet::Sheet;
use mintc_text::{Bytes, OutOfMemory};
use mintc_timing::{Broken, Flat, System, Violation};
use mintcx_frame::{View, phase_name};
use mintcx_judgements::{Judged, from_of};
use std::alloc::Global;

/// The late and the early departures of elements, as numerators over one denominator.
#[derive(Clone, Copy)]
struct Departing<'a> {
    late: &'a [i64],
    early: &'a [i64],
}

/// Writes an element with its departures.
fn put_departing(
    sheet: &mut Sheet,
    alloc: Global,
    flat: &Flat,
    departing: &Departing<'_>,
    number: u32,
) -> Result<(), OutOfMemory>
    requires { number < element_count flat.now }
    ensures { OnOk result (sheet.new
        ≡ sheet.old ++ json_tokens (departing_value flat.now departing.now.late.now departing.now.early.now number)) }
{
    let element = flat.element(number);
    sheet.open()?;
    put_name(sheet, alloc, "name", element.name.bytes())?;
    put_word(sheet, "kind", kind_word(element.flop))?;
    put_name(sheet, alloc, "phase", phase_name(flat, element.phase))?;
    put_whole(sheet, "late", departure_at(departing.late, number))?;
    put_whole(sheet, "early", departure_at(departing.early, number))?;
    sheet.close()
}

/// Writes the elements of a design with their departures, in order, as items of an array.
fn put_each_departing(
    sheet: &mut Sheet,
    alloc: Global,
    flat: &Flat,
    departing: &Departing<'_>,
) -> Result<(), OutOfMemory>
    ensures { OnOk result (sheet.new ≡ sheet.old
        ++ values_tokens (map (departing_value flat.now departing.now.late.now departing.now.early.now)
        (range_with_len 0 (element_count flat.now)))) }
{
    for number in 0..flat.element_count() {
        put_departing(sheet, alloc, flat, departing, number)?;
    }
    Ok(())
}

/// Writes the member that has the elements of a design with their departures.
fn put_all_departing(
    sheet: &mut Sheet,
    alloc: Global,
    flat: &Flat,
    departing: &Departing<'_>,
) -> Result<(), OutOfMemory>
    ensures { OnOk result (sheet.new ≡ sheet.old ++ fields_tokens ((
      codes "elements",
      array_of (map (departing_value flat.now departing.now.late.now departing.now.early.now)
          (range_with_len 0 (element_count flat.now))),
    ) ∷ [])) }
{
    sheet.key("elements")?;
    sheet.open_array()?;
    put_each_departing(sheet, alloc, flat, departing)?;
    sheet.close_array()
}

/// The word of a constraint's kind.
fn broken_word(broken: &Broken) -> &'static str
    ensures { result.now ≡ broken_word broken.now }
{
    match broken {
        Broken::Cycle { .. } => "cycle",
        Broken::Order { .. } => "order",
        Broken::Span { .. } => "span",
        Broken::Width { .. } => "width",
        Broken::Apart { .. } => "apart",
        Broken::Bound { .. } => "bound",
        Broken::Loop { .. } => "loop",
        Broken::Setup { .. } => "setup",
        Broken::Hold { .. } => "hold",
    }
}

/// Writes two names, as items of an array.
fn put_both(sheet: &mut Sheet, alloc: Global, one: &[u8], other: &[u8]) -> Result<(), OutOfMemory>
    ensures { OnOk result (sheet.new ≡ sheet.old ++ values_tokens (map name (one.now ∷ other.now ∷ []))) }
{
    sheet.name(alloc, one)?;
    sheet.name(alloc, other)
}

/// Writes the elements from which the data of pairs comes, as items of an array.
fn put_ring(
    sheet: &mut Sheet,
    alloc: Global,
    system: &System,
    pairs: &[u32],
) -> Result<(), OutOfMemory>
    requires { All (λ n. n < length system.now.pairs) pairs.now }
    ensures { OnOk result (sheet.new ≡ sheet.old ++ values_tokens (map name (map (from_of system.now) pairs.now))) }
{
    for pair in pairs {
        sheet.name(alloc, from_of(system, *pair))?;
    }
    Ok(())
}

/// Writes what a constraint is of, as items of an array.
fn put_names(
    sheet: &mut Sheet,
    alloc: Global,
    system: &System,
    broken: &Broken,
) -> Result<(), OutOfMemory>
    requires { IsNamed system.now broken.now }
    ensures { OnOk result (sheet.new ≡ sheet.old ++ values_tokens (map name (names_of system.now broken.now))) }
{
    let flat = system.flat();
    match broken {
        Broken::Cycle { phase } | Broken::Span { phase } | Broken::Width { phase } => {
            sheet.name(alloc, phase_name(flat, *phase))
        }
        Broken::Order { phase } => put_both(
            sheet,
            alloc,
            phase_name(flat, *phase),
            phase_name(flat, *phase + 1),
        ),
        Broken::Apart { i, j } => {
            put_both(sheet, alloc, phase_name(flat, *i), phase_name(flat, *j))
        }
        Broken::Bound { .. } => Ok(()),
        Broken::Loop { pairs } => put_ring(sheet, alloc, system, pairs.items()),
        Broken::Setup { element } | Broken::Hold { element } => {
            sheet.name(alloc, flat.element(*element).name.bytes())
        }
    }
}

/// Writes the member that tells what a constraint is of.
fn put_of(
    sheet: &mut Sheet,
    alloc: Global,
    system: &System,
    broken: &Broken,
) -> Result<(), OutOfMemory>
    requires { IsNamed system.now broken.now }
    ensures { OnOk result (sheet.new ≡ sheet.old
        ++ fields_tokens ((codes "of", array_of (map name (names_of system.now broken.now))) ∷ [])) }
{
    sheet.key("of")?;
    sheet.open_array()?;
    put_names(sheet, alloc, system, broken)?;
    sheet.close_array()
}

/// The bound that a constraint is, if it is one.
fn bound_of(broken: &Broken) -> Option<u32>
    ensures { result ≡ bound_of broken.now }
{
    match broken {
        Broken::Bound { index } => Some(*index),
        _ => None,
    }
}

/// Writes a violation.
fn put_violation(
    sheet: &mut Sheet,
    alloc: Global,
    system: &System,
    violation: &Violation,
) -> Result<(), OutOfMemory>
    requires { IsNamed system.now violation.now.broken }
    ensures { OnOk result (sheet.new ≡ sheet.old ++ json_tokens (violation_value system.now violation.now)) }
{
    sheet.open()?;
    put_word(sheet, "kind", broken_word(&violation.broken))?;
    put_whole(sheet, "by", violation.amount)?;
    put_of(sheet, alloc, system, &violation.broken)?;
    put_bound(sheet, bound_of(&violation.broken))?;
    sheet.close()
}

/// Writes violations, in their order, as items of an array.
fn put_each_violation(
    sheet: &mut Sheet,
    alloc: Global,
    system: &System,
    violations: &[Violation],
) -> Result<(), OutOfMemory>
    requires { AreNamed system.now violations.now }
    ensures { OnOk result (sheet.new ≡ sheet.old ++ values_tokens (map (violation_value system.now) violations.now)) }
{
    for violation in violations {
        put_violation(sheet, alloc, system, violation)?;
    }
    Ok(())
}

/// Writes the member that has violations.
pub(crate) fn put_violations(
    sheet: &mut Sheet,
    alloc: Global,
    system: &System,
    violations: &[Violation],
) -> Result<(), OutOfMemory>
    requires { AreNamed system.now violations.now }
    ensures { OnOk result (sheet.new ≡ sheet.old
        ++ fields_tokens ((codes "violations", array_of (map (violation_value system.now) violations.now)) ∷ [])) }
{
    sheet.key("violations")?;
    sheet.open_array()?;
    put_each_violation(sheet, alloc, system, violations)?;
    sheet.close_array()
}

/// Writes the object of a pass.
fn put_pass(
    sheet: &mut Sheet,
    alloc: Global,
    judged: &Judged<'_>,
    subject: &[u8],
) -> Result<(), OutOfMemory>
    requires in_range { IsInRange judged.now.schedule.now }
    requires phases { length judged.now.schedule.now.starts ≡ phase_count judged.now.system.now.flat }
    ensures { OnOk result (sheet.new ≡ sheet.old ++ json_tokens (pass_value judged.now.system.now
        judged.now.schedule.now judged.now.late.now judged.now.early.now subject.now)) }
{
    let flat = judged.system.flat();
    let departing = Departing {
        late: judged.late,
        early: judged.early,
    };
    sheet.open()?;
    put_head(sheet, alloc, "check", 0, "pass", subject)?;
    put_schedule(sheet, alloc, flat, judged.schedule)?;
    put_all_departing(sheet, alloc, flat, &departing)?;
    sheet.close()
}

/// Writes the object of a fail.
fn put_fail(
    sheet: &mut Sheet,
    alloc: Global,
    judged: &Judged<'_>,
    violations: &[Violation],
    subject: &[u8],
) -> Result<(), OutOfMemory>
    requires in_range { IsInRange judged.now.schedule.now }
    requires phases { length judged.now.schedule.now.starts ≡ phase_count judged.now.system.now.flat }
    requires named { AreNamed judged.now.system.now violations.now }
    ensures { OnOk result (sheet.new ≡ sheet.old
        ++ json_tokens (fail_value judged.now.system.now judged.now.schedule.now violations.now subject.now)) }
{
    let system = judged.system;
    sheet.open()?;
    put_head(sheet, alloc, "check", 1, "fail", subject)?;
    put_schedule(sheet, alloc, system.flat(), judged.schedule)?;
    put_violations(sheet, alloc, system, violations)?;
    sheet.close()
}

/// The object of a pass: the schedule, and the elements with their late and early departures. All of it stands there,
/// whatever the view's limit is. Times are femtoseconds times `den`.
pub fn pass_json(alloc: Global, judged: &Judged<'_>, view: &View) -> Result<Bytes, OutOfMemory>
    requires in_range { IsInRange judged.now.schedule.now }
    requires phases { length judged.now.schedule.now.starts ≡ phase_count judged.now.system.now.flat }
    ensures { IfOk result (IsPassObject judged.now.system.now judged.now.schedule.now judged.now.late.now
        judged.now.early.now view.now.subject) }
{
    let mut sheet = Sheet::new(alloc);
    put_pass(&mut sheet, alloc, judged, view.subject.bytes())?;
    sheet.into_text()
}

/// The object of a fail: the schedule, and all that it breaks, in the order of the violations. All of it stands there,
/// whatever the view's limit is. Times are femtoseconds times `den`.
pub fn fail_json(
    alloc: Global,
    judged: &Judged<'_>,
    violations: &[Violation],
    view: &View,
) -> Result<Bytes, OutOfMemory>
    requires in_range { IsInRange judged.now.schedule.now }
    requires phases { length judged.now.schedule.now.starts ≡ phase_count judged.now.system.now.flat }
    requires named { AreNamed judged.now.system.now violations.now }
    ensures { IfOk result (IsFailObject judged.now.system.now judged.now.schedule.now violations.now
        view.now.subject) }
{
    let mut sheet = Sheet::new(alloc);
    put_fail(&mut sheet, alloc, judged, violations, view.subject.bytes())?;
    sheet.into_text()
}
