//! The lines of the members of a chain.
ghost use Rattle.std.specs.Prelude.{◌≡◌, ◌<◌, ◌≤◌, ◌++◌, ◌∷◌, [], OnOk, All, codes, decimal, map};
ghost use Rattle.mintc_text.specs.Lines.{ended, spaced, text_of, words};
ghost use Rattle.mintc_timing.specs.Design.{element_count, phase_count};
ghost use Rattle.mintc_timing.specs.Limits.{IsDesign, IsPhase, IsSpan};
ghost use Rattle.mintc_certificate.specs.CertificateText.{IsCounted};
ghost use Rattle.mintc_certificate.specs.Valid.{IsMember, link_of as link_of_member};
ghost use Rattle.mintc_report.specs.Reports.{amount_words, element_name, inner_name, later_arcs, member_lines};
ghost use Rattle.mintc_report.specs.Reports.{member_names, phase_name, through_line, IsInner, IsThrough};

use crate::writing::put_integer;
use mintc_certificate::{Member, link_of};
use mintc_text::{Lines, OutOfMemory};
use mintc_text_refusals::{put_number, put_word};
use mintc_timing::{Link, System};

/// The name of a phase, which is counted from 1.
fn phase_name(system: &System, phase: u32) -> &[u8]
    requires { IsPhase (phase_count system.now.flat) phase }
    ensures { result.now ≡ phase_name system.now.flat phase }
{
    system.flat().phases().items()[phase as usize - 1].bytes()
}

/// The name of an element.
fn element_name(system: &System, element: u32) -> &[u8]
    requires { element < element_count system.now.flat }
    ensures { result.now ≡ element_name system.now.flat element }
{
    system.element(element).name.bytes()
}

/// The name of an inner bit.
fn inner_name(system: &System, bit: u32) -> &[u8]
    requires { IsInner system.now.flat bit }
    ensures { result.now ≡ inner_name system.now.flat bit }
{
    let flat = system.flat();
    flat.inner().items()[bit as usize - 2 * flat.elements().len()].bytes()
}

/// Writes a kind and a name.
fn put_one(lines: &mut Lines, kind: &[u8], name: &[u8]) -> Result<(), OutOfMemory>
    ensures { OnOk result (lines.new ≡ lines.old ++ words (kind.now ∷ name.now ∷ [])) }
{
    lines.put(kind)?;
    put_word(lines, name)
}

/// Writes a kind and two names.
fn put_two(lines: &mut Lines, kind: &[u8], first: &[u8], second: &[u8]) -> Result<(), OutOfMemory>
    ensures { OnOk result (lines.new ≡ lines.old ++ words (kind.now ∷ first.now ∷ second.now ∷ [])) }
{
    put_one(lines, kind, first)?;
    put_word(lines, second)
}

/// Writes a bound by its number.
fn put_bound(lines: &mut Lines, index: u32) -> Result<(), OutOfMemory>
    ensures { OnOk result (lines.new ≡ lines.old ++ words (codes "bound" ∷ decimal index ∷ [])) }
{
    lines.put(b"bound")?;
    put_number(lines, index as u64)
}

/// Writes the kind of a member and what it names.
fn put_names(lines: &mut Lines, system: &System, member: &Member) -> Result<(), OutOfMemory>
    requires { IsMember system.now member.now }
    ensures { OnOk result (lines.new ≡ lines.old ++ words (member_names system.now.flat member.now)) }
{
    match member {
        Member::Start { phase } => put_one(lines, b"start", phase_name(system, *phase)),
        Member::Cycle { phase } => put_one(lines, b"cycle", phase_name(system, *phase)),
        Member::Order { phase } => put_one(lines, b"order", phase_name(system, *phase)),
        Member::Span { phase } => put_one(lines, b"span", phase_name(system, *phase)),
        Member::Width { phase } => put_one(lines, b"width", phase_name(system, *phase)),
        Member::Apart { i, j } => put_two(
            lines,
            b"apart",
            phase_name(system, *i),
            phase_name(system, *j),
        ),
        Member::Opening { element } => put_one(lines, b"open", element_name(system, *element)),
        Member::Opened { element } => put_one(lines, b"opened", element_name(system, *element)),
        Member::Reach { from, to, .. } => put_two(
            lines,
            b"reach",
            element_name(system, *from),
            element_name(system, *to),
        ),
        Member::Setup { element } => put_one(lines, b"setup", element_name(system, *element)),
        Member::Bound { index } => put_bound(lines, *index),
    }
}

/// Writes a delay in femtoseconds and cycles, and ends the line.
pub(crate) fn put_amounts(lines: &mut Lines, delay: i64, cycles: i64) -> Result<(), OutOfMemory>
    ensures { OnOk result (lines.new ≡ lines.old ++ (spaced (amount_words delay cycles) ++ 10 ∷ [])) }
{
    put_word(lines, b"delay")?;
    put_integer(lines, delay)?;
    put_word(lines, b"cycles")?;
    put_integer(lines, cycles)?;
    lines.put(b"\n")
}

/// The link of a member.
pub(crate) fn link_at(system: &System, member: &Member) -> Link
    requires member { IsMember system.now member.now }
    requires counted { IsCounted member.now }
    ensures value { result ≡ link_of_member system.now.flat member.now }
    ensures range { IsSpan result.delay }
    ensures cycles { result.cycles ≤ 1 }
    ensures design { IsDesign system.now.flat }
{
    link_of(system.flat(), member)
}

/// Writes the line of an inner bit on a path.
fn put_through(lines: &mut Lines, name: &[u8]) -> Result<(), OutOfMemory>
    ensures { OnOk result (lines.new ≡ lines.old ++ ended (words (codes "through" ∷ name.now ∷ []))) }
{
    put_one(lines, b"through", name)?;
    lines.put(b"\n")
}

/// Writes the lines of the bits that arcs leave.
fn put_throughs(lines: &mut Lines, system: &System, arcs: &[u32]) -> Result<(), OutOfMemory>
    requires { All (IsThrough system.now.flat) arcs.now }
    ensures { OnOk result (lines.new ≡ lines.old ++ text_of (map (through_line system.now.flat) arcs.now)) }
{
    for number in arcs {
        let bit = system.flat().arcs()[*number as usize].from;
        put_through(lines, inner_name(system, bit))?;
    }
    Ok(())
}

/// The arcs of a reach after its first. Other members have none.
fn later_arcs(member: &Member) -> &[u32]
    requires { IsCounted member.now }
    ensures { result.now ≡ later_arcs member.now }
{
    match member {
        Member::Reach { arcs, .. } => &arcs.items()[1..],
        _ => &[],
    }
}

/// Writes the lines of a member.
pub(crate) fn put_member(
    lines: &mut Lines,
    system: &System,
    member: &Member,
) -> Result<(), OutOfMemory>
    requires member { IsMember system.now member.now }
    requires counted { IsCounted member.now }
    ensures { OnOk result (lines.new ≡ lines.old ++ text_of (member_lines system.now.flat member.now)) }
{
    let link = link_at(system, member);
    put_names(lines, system, member)?;
    put_amounts(lines, link.delay, i64::from(link.cycles))?;
    put_throughs(lines, system, later_arcs(member))
}
