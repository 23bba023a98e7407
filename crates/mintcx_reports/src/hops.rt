//! The hops of a stage as rows of a table: out of an element, along an arc, or by a rule.
ghost use Rattle.std.specs.Prelude.{◌≡◌, ◌<◌, ◌≤◌, ◌++◌, ◌∷◌, [], pos, negsuc, ◌+ℤ◌, ◌*ℤ◌, ◌≤ℤ◌};
ghost use Rattle.std.specs.Prelude.{codes, flat_map, length, All, OnOk, IfOk};
ghost use Rattle.std.specs.List.{range_with_len};
ghost use Rattle.mintc_text.specs.declared.limits.TheConstants.{MOST_COUNT};
ghost use Rattle.mintc_timing.specs.Design.{element_at, element_count};
ghost use Rattle.mintc_timing.specs.Paths.{arc_at};
ghost use Rattle.mintcx_chain.specs.Gates.{gate_of};
ghost use Rattle.mintcx_chain.specs.Names.{elements_of, IsShort, IsStage, IsStageDelay};
ghost use Rattle.mintcx_chain.specs.Rows.{IsChainTime};
ghost use Rattle.mintcx_reports.specs.Begins.{IsReportTime, IsTimed};
ghost use Rattle.mintcx_reports.specs.Hops.{IsTraced, arc_row, arc_text, hop_cells, hop_rows, out_rows, out_word};
ghost use Rattle.mintcx_reports.specs.Hops.{rule_text, stage_hops};

use crate::rules::put_rule;
use crate::told::Told;
use crate::wires::put_arc;
use mintc_fraction::Fraction;
use mintc_text::{Lines, Name, Names, OutOfMemory};
use mintc_timing::LinkKind;
use mintcx_chain::{Stage, Why};
use mintcx_columns::Table;
use mintcx_frame::{amount_cell, time_cell, word_cell};
use std::alloc::Global;

/// A hop: how long it takes in femtoseconds, and when it ends, over the schedule's denominator.
#[derive(Clone, Copy)]
struct Hop {
    delay: i64,
    ends: i128,
}

/// The cells of a hop's row.
fn hop_cells(alloc: Global, told: &Told, hop: Hop, what: &[u8]) -> Result<Names, OutOfMemory>
    requires timed { IsTimed told.now.flat.now told.now.schedule.now }
    requires ends { IsReportTime hop.ends }
    ensures { IfOk result (λ cells. cells
        ≡ hop_cells told.now.schedule.now told.now.unit hop.delay hop.ends what.now) }
{
    let cycle = word_cell(alloc, b"")?;
    let took = time_cell(alloc, hop.delay, 1, told.unit)?;
    let ends = Fraction::new(hop.ends, i128::from(told.schedule.den));
    let time = amount_cell(alloc, &ends, told.unit)?;
    let at = word_cell(alloc, what)?;
    Ok(Names::new(vec![in alloc; cycle, took, time, at]?))
}

/// Adds the row of a hop.
fn push_hop(
    table: &mut Table,
    alloc: Global,
    told: &Told,
    hop: Hop,
    what: &[u8],
) -> Result<(), OutOfMemory>
    requires columns { length table.old.columns ≡ 4 }
    requires timed { IsTimed told.now.flat.now told.now.schedule.now }
    requires ends { IsReportTime hop.ends }
    ensures columns { table.new.columns ≡ table.old.columns }
    ensures ok { OnOk result (table.new.rows ≡ table.old.rows
        ++ hop_cells told.now.schedule.now told.now.unit hop.delay hop.ends what.now ∷ []) }
{
    table.push(hop_cells(alloc, told, hop, what)?)
}

/// Adds the row of a hop; none of one that takes no time.
fn push_some(
    table: &mut Table,
    alloc: Global,
    told: &Told,
    hop: Hop,
    what: &[u8],
) -> Result<(), OutOfMemory>
    requires columns { length table.old.columns ≡ 4 }
    requires timed { IsTimed told.now.flat.now told.now.schedule.now }
    requires ends { IsReportTime hop.ends }
    ensures columns { table.new.columns ≡ table.old.columns }
    ensures ok { OnOk result (table.new.rows ≡ table.old.rows
        ++ hop_rows told.now.schedule.now told.now.unit hop.delay hop.ends what.now) }
{
    if hop.delay <= 0 {
        return Ok(());
    }
    push_hop(table, alloc, told, hop, what)
}

/// A delay over the schedule's denominator.
#[tactic(auto, using(crate::proofs::TimeLaws::spans))]
fn over_den(told: &Told, delay: i64) -> i128
    requires timed { IsTimed told.now.flat.now told.now.schedule.now }
    requires delay { IsStageDelay delay }
    ensures value { result ≡ delay *ℤ told.now.schedule.now.den }
    ensures low { negsuc 399999999999999 ≤ℤ result }
    ensures high { result ≤ℤ pos 400000000000000 }
    ensures some { pos 0 ≤ℤ delay → pos 0 ≤ℤ result }
    ensures most { delay ≤ℤ pos 1000000000 → result ≤ℤ pos 100000000000000 }
{
    i128::from(delay) * i128::from(told.schedule.den)
}

/// When data that departs at a time is out of an element, over the schedule's denominator.
fn out_at(told: &Told, element: u32, begin: i128) -> i128
    requires timed { IsTimed told.now.flat.now told.now.schedule.now }
    requires element { element < element_count told.now.flat.now }
    requires time { IsChainTime begin }
    ensures value { result ≡ begin +ℤ (element_at told.now.flat.now element).dq_max *ℤ told.now.schedule.now.den }
    ensures low { begin ≤ℤ result }
    ensures high { result ≤ℤ (begin +ℤ pos 400000000000000) }
{
    begin + over_den(told, told.flat.element(element).dq_max)
}

/// From which pin data goes out of an element.
fn out_word(flop: bool) -> &'static [u8]
    ensures { result.now ≡ out_word flop }
{
    if flop { b"  C -> Q" } else { b"  D -> Q" }
}

/// Adds the row out of an element whose data departs at a time; none where it takes no time.
fn push_out(
    table: &mut Table,
    alloc: Global,
    told: &Told,
    element: u32,
    begin: i128,
) -> Result<(), OutOfMemory>
    requires columns { length table.old.columns ≡ 4 }
    requires timed { IsTimed told.now.flat.now told.now.schedule.now }
    requires element { element < element_count told.now.flat.now }
    requires time { IsChainTime begin }
    ensures columns { table.new.columns ≡ table.old.columns }
    ensures ok { OnOk result (table.new.rows ≡ table.old.rows
        ++ out_rows told.now.flat.now told.now.schedule.now told.now.unit element begin) }
{
    let found = told.flat.element(element);
    let hop = Hop {
        delay: found.dq_max,
        ends: out_at(told, element, begin),
    };
    push_some(table, alloc, told, hop, out_word(found.flop))
}

/// What an arc on the way to an element is, behind two blanks.
fn arc_words(alloc: Global, told: &Told, number: u32, element: u32) -> Result<Name, OutOfMemory>
    requires arc { number < length told.now.flat.now.arcs }
    requires element { element < element_count told.now.flat.now }
    ensures { IfOk result (λ name. name ≡ codes "  " ++ arc_text told.now.flat.now told.now.cells.now element number
        (gate_of told.now.flat.now number)) }
{
    let mut what = Lines::new(alloc);
    what.put(b"  ")?;
    put_arc(&mut what, told, number, element)?;
    word_cell(alloc, &what.into_bytes())
}

/// Adds the row of an arc on the way to an element, at whose end data comes at a time; none where it takes no time.
fn push_arc(
    table: &mut Table,
    alloc: Global,
    told: &Told,
    number: u32,
    element: u32,
    ends: i128,
) -> Result<(), OutOfMemory>
    requires columns { length table.old.columns ≡ 4 }
    requires timed { IsTimed told.now.flat.now told.now.schedule.now }
    requires arc { number < length told.now.flat.now.arcs }
    requires element { element < element_count told.now.flat.now }
    requires time { IsReportTime ends }
    ensures columns { table.new.columns ≡ table.old.columns }
    ensures ok { OnOk result (table.new.rows ≡ table.old.rows
        ++ hop_rows told.now.schedule.now told.now.unit (arc_at told.now.flat.now.arcs number).max ends
        (codes "  " ++ arc_text told.now.flat.now told.now.cells.now element number
        (gate_of told.now.flat.now number))) }
{
    let what = arc_words(alloc, told, number, element)?;
    let hop = Hop {
        delay: told.flat.arcs()[number as usize].max,
        ends,
    };
    push_some(table, alloc, told, hop, what.bytes())
}

/// The delay of an arc over the schedule's denominator.
fn arc_time(told: &Told, number: u32) -> i128
    requires timed { IsTimed told.now.flat.now told.now.schedule.now }
    requires arc { number < length told.now.flat.now.arcs }
    ensures value { result ≡ (arc_at told.now.flat.now.arcs number).max *ℤ told.now.schedule.now.den }
    ensures low { pos 0 ≤ℤ result }
    ensures high { result ≤ℤ pos 100000000000000 }
{
    over_den(told, told.flat.arcs()[number as usize].max)
}

/// Adds the rows of the arcs of a path to an element, along which data goes from a time on.
fn push_arcs(
    table: &mut Table,
    alloc: Global,
    told: &Told,
    arcs: &[u32],
    element: u32,
    begin: i128,
) -> Result<(), OutOfMemory>
    requires columns { length table.old.columns ≡ 4 }
    requires timed { IsTimed told.now.flat.now told.now.schedule.now }
    requires few { length arcs.now ≤ MOST_COUNT }
    requires inside { All (λ n. n < length told.now.flat.now.arcs) arcs.now }
    requires element { element < element_count told.now.flat.now }
    requires low { negsuc 20000400000000000000 ≤ℤ begin }
    requires high { begin ≤ℤ pos 20000400000000000000 }
    ensures columns { table.new.columns ≡ table.old.columns }
    ensures ok { OnOk result (table.new.rows ≡ table.old.rows ++ flat_map (arc_row told.now.flat.now
        told.now.schedule.now told.now.cells.now told.now.unit element arcs.now begin)
        (range_with_len 0 (length arcs.now))) }
{
    let mut at = begin;
    for number in arcs {
        at += arc_time(told, *number);
        push_arc(table, alloc, told, *number, element, at)?;
    }
    Ok(())
}

/// What a rule asks for.
fn rule_words(
    alloc: Global,
    told: &Told,
    stage: &Stage,
    kind: LinkKind,
) -> Result<Name, OutOfMemory>
    requires stage { IsStage told.now.flat.now stage.now }
    requires rule { All (λ l. l < element_count told.now.flat.now) (elements_of (Why.Rule kind)) }
    ensures { IfOk result (λ name. name ≡ rule_text told.now.flat.now stage.now kind) }
{
    let mut what = Lines::new(alloc);
    put_rule(&mut what, alloc, told.flat, stage, kind)?;
    word_cell(alloc, &what.into_bytes())
}

/// Adds the row of a stage by a rule that begins at a time.
fn push_rule(
    table: &mut Table,
    alloc: Global,
    told: &Told,
    stage: &Stage,
    kind: LinkKind,
    begin: i128,
) -> Result<(), OutOfMemory>
    requires columns { length table.old.columns ≡ 4 }
    requires timed { IsTimed told.now.flat.now told.now.schedule.now }
    requires stage { IsStage told.now.flat.now stage.now }
    requires rule { All (λ l. l < element_count told.now.flat.now) (elements_of (Why.Rule kind)) }
    requires short { IsShort stage.now }
    requires time { IsChainTime begin }
    ensures columns { table.new.columns ≡ table.old.columns }
    ensures ok { OnOk result (table.new.rows ≡ table.old.rows
        ++ hop_cells told.now.schedule.now told.now.unit stage.now.delay
        (begin +ℤ stage.now.delay *ℤ told.now.schedule.now.den) (rule_text told.now.flat.now stage.now kind) ∷ []) }
{
    let what = rule_words(alloc, told, stage, kind)?;
    let hop = Hop {
        delay: stage.delay,
        ends: begin + over_den(told, stage.delay),
    };
    push_hop(table, alloc, told, hop, what.bytes())
}

/// Adds the rows of the hops of a stage that begins at a time.
pub(crate) fn push_hops(
    table: &mut Table,
    alloc: Global,
    told: &Told,
    stage: &Stage,
    begin: i128,
) -> Result<(), OutOfMemory>
    requires columns { length table.old.columns ≡ 4 }
    requires timed { IsTimed told.now.flat.now told.now.schedule.now }
    requires stage { IsStage told.now.flat.now stage.now }
    requires short { IsShort stage.now }
    requires traced { IsTraced told.now.flat.now stage.now }
    requires time { IsChainTime begin }
    ensures columns { table.new.columns ≡ table.old.columns }
    ensures ok { OnOk result (table.new.rows ≡ table.old.rows ++ stage_hops told.now.flat.now
        told.now.schedule.now told.now.cells.now told.now.unit begin stage.now stage.now.why) }
{
    match &stage.why {
        Why::Rule { kind } => push_rule(table, alloc, told, stage, *kind, begin),
        Why::Reach { from, to, arcs } => {
            push_out(table, alloc, told, *from, begin)?;
            let out = out_at(told, *from, begin);
            push_arcs(table, alloc, told, arcs.items(), *to, out)
        }
        Why::Hold { .. } => Ok(()),
    }
}
