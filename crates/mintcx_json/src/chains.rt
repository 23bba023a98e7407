//! Chains of constraints.
ghost use Rattle.std.specs.Prelude.{◌≡◌, ◌≤◌, ◌++◌, ◌∷◌, [], pos, negsuc, ◌*ℤ◌, ◌≤ℤ◌, codes, length, map, All, OnOk};
ghost use Rattle.json.specs.Tree.{json_tokens};
ghost use Rattle.mintc_text.specs.declared.limits.TheConstants.{MOST_MEMBERS};
ghost use Rattle.mintc_timing.specs.Limits.{IsDelay, IsDenominator, IsNumerator};
ghost use Rattle.mintc_timing.specs.Paths.{arc_at};
ghost use Rattle.mintcx_chain.specs.Names.{IsShort, IsStage, IsStageDelay};
ghost use Rattle.mintcx_json.specs.Chains.{arc_delay, arc_value, bound_fields, bound_of, chain_value, deciding_value};
ghost use Rattle.mintcx_json.specs.Chains.{end_name, forbidding_value, path_field, rule_word, stage_fields};
ghost use Rattle.mintcx_json.specs.Chains.{stage_value};
ghost use Rattle.mintcx_json.specs.Chains.{why_fields, why_word};
ghost use Rattle.mintcx_json.specs.Objects.{array_of};
ghost use Rattle.mintcx_json.specs.Pieces.{fields_tokens, values_tokens};

use crate::fields::{put_count, put_name, put_whole, put_word};
use crate::sheet::Sheet;
use mintc_text::OutOfMemory;
use mintc_timing::{Flat, LinkKind, Schedule, TimingArc};
use mintcx_chain::{Stage, Why, bit_name, stage_from, stage_to, sums_of};
use std::alloc::Global;

/// A span of femtoseconds over a denominator.
#[tactic(auto, using(crate::proofs::SpanLaws::span_low, crate::proofs::SpanLaws::span_high))]
fn span_of(span: i64, den: i64) -> i64
    requires span { IsStageDelay span }
    requires den { IsDenominator den }
    ensures value { result ≡ span *ℤ den }
    ensures low { negsuc 399999999999999 ≤ℤ result }
    ensures high { result ≤ℤ pos 400000000000000 }
{
    span * den
}

/// The name of a bit: an element's bit has that of the element.
fn end_name(flat: &Flat, bit: u32) -> &[u8]
    ensures { result.now ≡ end_name flat.now bit }
{
    if (bit as usize) < 2 * flat.elements().len() {
        flat.element(bit / 2).name.bytes()
    } else {
        bit_name(flat, bit)
    }
}

/// The arc of a number, and one of zeros past the end.
fn arc_at(flat: &Flat, number: u32) -> TimingArc
    ensures value { result ≡ arc_at flat.now.arcs number }
    ensures min { IsDelay result.min }
    ensures max { IsDelay result.max }
{
    match flat.arcs().get(number as usize) {
        Some(arc) => *arc,
        None => TimingArc {
            from: 0,
            to: 0,
            min: 0,
            max: 0,
        },
    }
}

/// The least delay of an arc, or its greatest one.
fn arc_delay(arc: &TimingArc, least: bool) -> i64
    requires min { IsDelay arc.now.min }
    requires max { IsDelay arc.now.max }
    ensures value { result ≡ arc_delay least arc.now }
    ensures range { IsDelay result }
{
    if least { arc.min } else { arc.max }
}

/// Writes an arc of a path.
fn put_arc(
    sheet: &mut Sheet,
    alloc: Global,
    flat: &Flat,
    den: i64,
    least: bool,
    number: u32,
) -> Result<(), OutOfMemory>
    requires { IsDenominator den }
    ensures { OnOk result (sheet.new ≡ sheet.old ++ json_tokens (arc_value flat.now den least number)) }
{
    let arc = arc_at(flat, number);
    sheet.open()?;
    put_count(sheet, "arc", u64::from(number))?;
    put_name(sheet, alloc, "to", end_name(flat, arc.to))?;
    put_whole(sheet, "delay", span_of(arc_delay(&arc, least), den))?;
    sheet.close()
}

/// Writes the arcs of a path, in order, as items of an array.
fn put_each_arc(
    sheet: &mut Sheet,
    alloc: Global,
    flat: &Flat,
    den: i64,
    least: bool,
    path: &[u32],
) -> Result<(), OutOfMemory>
    requires { IsDenominator den }
    ensures { OnOk result (sheet.new
        ≡ sheet.old ++ values_tokens (map (arc_value flat.now den least) path.now)) }
{
    for number in path {
        put_arc(sheet, alloc, flat, den, least, *number)?;
    }
    Ok(())
}

/// Writes the member that has the path that data takes.
fn put_path(
    sheet: &mut Sheet,
    alloc: Global,
    flat: &Flat,
    den: i64,
    least: bool,
    path: &[u32],
) -> Result<(), OutOfMemory>
    requires { IsDenominator den }
    ensures { OnOk result (sheet.new ≡ sheet.old ++ fields_tokens (path_field flat.now den least path.now)) }
{
    sheet.key("path")?;
    sheet.open_array()?;
    put_each_arc(sheet, alloc, flat, den, least, path)?;
    sheet.close_array()
}

/// The word of a rule's kind.
fn rule_word(kind: LinkKind) -> &'static str
    ensures { result.now ≡ rule_word kind }
{
    match kind {
        LinkKind::Start { .. } => "start",
        LinkKind::Cycle { .. } => "cycle",
        LinkKind::Order { .. } => "order",
        LinkKind::Span { .. } => "span",
        LinkKind::Width { .. } => "width",
        LinkKind::Apart { .. } => "apart",
        LinkKind::Opening { .. } => "opening",
        LinkKind::Opened { .. } => "opened",
        LinkKind::Reach { .. } => "reach",
        LinkKind::Setup { .. } => "setup",
        LinkKind::Bound { .. } => "bound",
        LinkKind::Other { .. } => "other",
    }
}

/// The word of why a stage is there.
fn why_word(why: &Why) -> &'static str
    ensures { result.now ≡ why_word why.now }
{
    match why {
        Why::Rule { kind } => rule_word(*kind),
        Why::Reach { .. } => "reach",
        Why::Hold { .. } => "hold",
    }
}

/// The bound that a rule is, if it is one.
fn bound_of(kind: LinkKind) -> Option<u32>
    ensures { result ≡ bound_of kind }
{
    match kind {
        LinkKind::Bound { index } => Some(index),
        _ => None,
    }
}

/// Writes the number of a bound, if there is one.
pub(crate) fn put_bound(sheet: &mut Sheet, bound: Option<u32>) -> Result<(), OutOfMemory>
    ensures { OnOk result (sheet.new ≡ sheet.old ++ fields_tokens (bound_fields bound)) }
{
    match bound {
        Some(index) => put_count(sheet, "bound", u64::from(index) + 1),
        None => Ok(()),
    }
}

/// Writes what more is said of why a stage is there.
fn put_why(
    sheet: &mut Sheet,
    alloc: Global,
    flat: &Flat,
    den: i64,
    why: &Why,
) -> Result<(), OutOfMemory>
    requires { IsDenominator den }
    ensures { OnOk result (sheet.new ≡ sheet.old ++ fields_tokens (why_fields flat.now den why.now)) }
{
    match why {
        Why::Rule { kind } => put_bound(sheet, bound_of(*kind)),
        Why::Reach { arcs, .. } => put_path(sheet, alloc, flat, den, false, arcs.items()),
        Why::Hold { arcs, .. } => put_path(sheet, alloc, flat, den, true, arcs.items()),
    }
}

/// Writes the members of the object of a member of a chain.
pub(crate) fn put_stage_fields(
    sheet: &mut Sheet,
    alloc: Global,
    flat: &Flat,
    den: i64,
    stage: &Stage,
) -> Result<(), OutOfMemory>
    requires den { IsDenominator den }
    requires stage { IsStage flat.now stage.now }
    requires short { IsShort stage.now }
    ensures { OnOk result (sheet.new ≡ sheet.old ++ fields_tokens (stage_fields flat.now den stage.now)) }
{
    let from = stage_from(alloc, flat, stage)?;
    let to = stage_to(alloc, flat, stage)?;
    put_word(sheet, "kind", why_word(&stage.why))?;
    put_name(sheet, alloc, "from", from.bytes())?;
    put_name(sheet, alloc, "to", to.bytes())?;
    put_whole(sheet, "delay", span_of(stage.delay, den))?;
    put_count(sheet, "cycles", u64::from(stage.cycles))?;
    put_why(sheet, alloc, flat, den, &stage.why)
}

/// Writes a member of a chain.
fn put_stage(
    sheet: &mut Sheet,
    alloc: Global,
    flat: &Flat,
    den: i64,
    stage: &Stage,
) -> Result<(), OutOfMemory>
    requires den { IsDenominator den }
    requires stage { IsStage flat.now stage.now }
    requires short { IsShort stage.now }
    ensures { OnOk result (sheet.new ≡ sheet.old ++ json_tokens (stage_value flat.now den stage.now)) }
{
    sheet.open()?;
    put_stage_fields(sheet, alloc, flat, den, stage)?;
    sheet.close()
}

/// Writes the members of a chain, in order, as items of an array.
fn put_each_stage(
    sheet: &mut Sheet,
    alloc: Global,
    flat: &Flat,
    den: i64,
    stages: &[Stage],
) -> Result<(), OutOfMemory>
    requires den { IsDenominator den }
    requires stages { All (IsStage flat.now) stages.now }
    requires short { All IsShort stages.now }
    ensures { OnOk result (sheet.new
        ≡ sheet.old ++ values_tokens (map (stage_value flat.now den) stages.now)) }
{
    for stage in stages {
        put_stage(sheet, alloc, flat, den, stage)?;
    }
    Ok(())
}

/// Writes the member that has the members of a chain.
fn put_stages(
    sheet: &mut Sheet,
    alloc: Global,
    flat: &Flat,
    den: i64,
    stages: &[Stage],
) -> Result<(), OutOfMemory>
    requires den { IsDenominator den }
    requires stages { All (IsStage flat.now) stages.now }
    requires short { All IsShort stages.now }
    ensures { OnOk result (sheet.new ≡ sheet.old
        ++ fields_tokens ((codes "members", array_of (map (stage_value flat.now den) stages.now)) ∷ [])) }
{
    sheet.key("members")?;
    sheet.open_array()?;
    put_each_stage(sheet, alloc, flat, den, stages)?;
    sheet.close_array()
}

/// Writes a chain that takes so much time, in femtoseconds times a denominator.
fn put_chain(
    sheet: &mut Sheet,
    alloc: Global,
    flat: &Flat,
    den: i64,
    delay: i64,
    stages: &[Stage],
) -> Result<(), OutOfMemory>
    requires den { IsDenominator den }
    requires most { length stages.now ≤ MOST_MEMBERS }
    requires stages { All (IsStage flat.now) stages.now }
    requires short { All IsShort stages.now }
    ensures { OnOk result (sheet.new
        ≡ sheet.old ++ json_tokens (chain_value flat.now den delay stages.now)) }
{
    let sums = sums_of(stages);
    sheet.open()?;
    put_whole(sheet, "delay", delay)?;
    put_count(sheet, "cycles", sums.cycles)?;
    put_stages(sheet, alloc, flat, den, stages)?;
    sheet.close()
}

/// How much time so many cycles take.
pub(crate) fn cycles_take(cycles: u64, cycle: i64) -> i64
    requires few { cycles ≤ MOST_MEMBERS }
    requires cycle { IsNumerator cycle }
    ensures { result ≡ pos cycles *ℤ cycle }
{
    cycles as i64 * cycle
}

/// Writes the member that has the chain that decides the cycle time of a schedule.
pub(crate) fn put_deciding(
    sheet: &mut Sheet,
    alloc: Global,
    flat: &Flat,
    schedule: &Schedule,
    stages: &[Stage],
) -> Result<(), OutOfMemory>
    requires den { IsDenominator schedule.now.den }
    requires cycle { IsNumerator schedule.now.cycle }
    requires most { length stages.now ≤ MOST_MEMBERS }
    requires stages { All (IsStage flat.now) stages.now }
    requires short { All IsShort stages.now }
    ensures { OnOk result (sheet.new
        ≡ sheet.old ++ fields_tokens ((codes "chain", deciding_value flat.now schedule.now stages.now) ∷ [])) }
{
    let sums = sums_of(stages);
    let delay = cycles_take(sums.cycles, schedule.cycle);
    sheet.key("chain")?;
    put_chain(sheet, alloc, flat, schedule.den, delay, stages)
}

/// Writes the member that has a chain that forbids a cycle time or every one, in whole femtoseconds.
pub(crate) fn put_forbidding(
    sheet: &mut Sheet,
    alloc: Global,
    flat: &Flat,
    stages: &[Stage],
) -> Result<(), OutOfMemory>
    requires most { length stages.now ≤ MOST_MEMBERS }
    requires stages { All (IsStage flat.now) stages.now }
    requires short { All IsShort stages.now }
    ensures { OnOk result (sheet.new
        ≡ sheet.old ++ fields_tokens ((codes "chain", forbidding_value flat.now stages.now) ∷ [])) }
{
    let sums = sums_of(stages);
    sheet.key("chain")?;
    put_chain(sheet, alloc, flat, 1, sums.delay, stages)
}
