//! The line of a refusal.
ghost use Rattle.std.specs.Prelude.{◌≡◌, ◌++◌, ◌∷◌, [], IfOk, OnOk, length, map, decimal};
ghost use Rattle.mintc_text.specs.Lines.{spaced};
ghost use Rattle.mintc_text.specs.Refusals.{role_word, kind_word, refusal_number, refusal_fields, refusal_line};

use crate::words::{put_number, put_word};
use mintc_text::{Kind, Lines, OutOfMemory, Refusal, Role};
use std::alloc::Global;

/// The word of a text.
fn role_word(role: Role) -> &'static [u8]
    ensures { result.now ≡ role_word role }
{
    match role {
        Role::Netlist => b"netlist",
        Role::Delays => b"delays",
        Role::Cells => b"cells",
        Role::Clock => b"clock",
        Role::Schedule => b"schedule",
        Role::Certificate => b"certificate",
        Role::Table => b"table",
    }
}

/// The word of a quantity.
fn kind_word(kind: Kind) -> &'static [u8]
    ensures { result.now ≡ kind_word kind }
{
    match kind {
        Kind::Scopes => b"scopes",
        Kind::Depth => b"depth",
        Kind::Leaves => b"leaves",
        Kind::Inner => b"inner",
        Kind::Phases => b"phases",
        Kind::Elements => b"elements",
        Kind::Arcs => b"arcs",
        Kind::Bounds => b"bounds",
        Kind::Pairs => b"pairs",
    }
}

/// Writes a refusal's number and the text that it speaks of.
fn put_text(lines: &mut Lines, refusal: u64, role: Role) -> Result<(), OutOfMemory>
    ensures { OnOk result (lines.new ≡ lines.old ++ spaced (decimal refusal ∷ role_word role ∷ [])) }
{
    put_number(lines, refusal)?;
    put_word(lines, role_word(role))
}

/// Writes a refusal's number, the text that it speaks of, and a place in it.
fn put_place(lines: &mut Lines, refusal: u64, role: Role, entry: u32) -> Result<(), OutOfMemory>
    ensures { OnOk result (lines.new ≡ lines.old ++ spaced (decimal refusal ∷ role_word role ∷ decimal entry ∷ [])) }
{
    put_text(lines, refusal, role)?;
    put_number(lines, entry as u64)
}

/// Writes a refusal's number and one field.
fn put_one(lines: &mut Lines, refusal: u64, field: u32) -> Result<(), OutOfMemory>
    ensures { OnOk result (lines.new ≡ lines.old ++ spaced (decimal refusal ∷ decimal field ∷ [])) }
{
    put_number(lines, refusal)?;
    put_number(lines, field as u64)
}

/// Writes a refusal's number and two fields.
fn put_two(lines: &mut Lines, refusal: u64, first: u32, second: u32) -> Result<(), OutOfMemory>
    ensures { OnOk result (lines.new ≡ lines.old ++ spaced (decimal refusal ∷ decimal first ∷ decimal second ∷ [])) }
{
    put_one(lines, refusal, first)?;
    put_number(lines, second as u64)
}

/// Writes a refusal's number, how many arcs a loop has, and the arcs.
fn put_loop(lines: &mut Lines, refusal: u64, arcs: &[u32]) -> Result<(), OutOfMemory>
    ensures { OnOk result (lines.new ≡ lines.old
        ++ spaced (decimal refusal ∷ decimal (length arcs.now) ∷ map decimal arcs.now)) }
{
    put_number(lines, refusal)?;
    put_number(lines, arcs.len() as u64)?;
    lines.numbers(arcs)
}

/// Writes a refusal's number, a quantity and how much it is.
fn put_limit(lines: &mut Lines, refusal: u64, kind: Kind, count: u64) -> Result<(), OutOfMemory>
    ensures { OnOk result (lines.new ≡ lines.old ++ spaced (decimal refusal ∷ kind_word kind ∷ decimal count ∷ [])) }
{
    put_number(lines, refusal)?;
    put_word(lines, kind_word(kind))?;
    put_number(lines, count)
}

/// Writes a refusal's number and its fields.
fn put_refusal(lines: &mut Lines, refusal: &Refusal) -> Result<(), OutOfMemory>
    ensures { OnOk result (lines.new ≡ lines.old
        ++ spaced (decimal (refusal_number refusal.now) ∷ refusal_fields refusal.now)) }
{
    match refusal {
        Refusal::Syntax { role, entry } => put_place(lines, 1, *role, *entry),
        Refusal::TooLong { role } => put_text(lines, 2, *role),
        Refusal::NameTwice { entry } => put_one(lines, 3, *entry),
        Refusal::NoModule { entry } => put_one(lines, 4, *entry),
        Refusal::Recursive { entry } => put_one(lines, 5, *entry),
        Refusal::NoPin { entry } => put_one(lines, 6, *entry),
        Refusal::Width { entry } => put_one(lines, 7, *entry),
        Refusal::TwoDrivers { entry } => put_one(lines, 8, *entry),
        Refusal::TopUnclear { count } => put_one(lines, 9, *count),
        Refusal::NoInstance { role, entry } => put_place(lines, 10, *role, *entry),
        Refusal::NoArc { entry } => put_one(lines, 11, *entry),
        Refusal::Negative { entry } => put_one(lines, 12, *entry),
        Refusal::BadCell { entry, rule } => put_two(lines, 13, *entry, *rule),
        Refusal::BadClock { entry, rule } => put_two(lines, 14, *entry, *rule),
        Refusal::NoPhase { element } => put_one(lines, 15, *element),
        Refusal::CombinationalLoop { arcs } => put_loop(lines, 16, arcs.items()),
        Refusal::Limit { kind, count } => put_limit(lines, 17, *kind, *count),
        Refusal::Range { entry } => put_one(lines, 18, *entry),
        Refusal::PhaseMismatch { design, schedule } => put_two(lines, 19, *design, *schedule),
        Refusal::PathRange { element, bit } => put_two(lines, 21, *element, *bit),
        Refusal::Corner { file } => put_one(lines, 22, *file),
    }
}

/// The line of a refusal: `refused`, its number and its fields, and a line feed. Of Corner it is the first line.
pub fn refusal_text(alloc: Global, refusal: &Refusal) -> Result<Vec<u8>, OutOfMemory>
    ensures { IfOk result (λ text. text.items ≡ refusal_line refusal.now) }
{
    let mut lines = Lines::new(alloc);
    lines.put(b"refused")?;
    put_refusal(&mut lines, refusal)?;
    lines.put(b"\n")?;
    Ok(lines.into_bytes())
}
