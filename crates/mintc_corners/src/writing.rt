//! The text of a corner certificate.
ghost use Rattle.std.specs.Prelude.{◌≡◌, ◌<◌, ◌^◌, ◌++◌, ◌∷◌, [], IfOk, OnOk, All, codes, length, map};
ghost use Rattle.mintc_text.specs.Lines.{ended, text_of, words};
ghost use Rattle.mintc_timing_text.specs.Fields.{number};
ghost use Rattle.mintc_timing.specs.Limits.{IsInRange};
ghost use Rattle.mintc_corners.specs.CornerOptimum.{IsCornerCounted, IsCornerInRange};
ghost use Rattle.mintc_corners.specs.CornerText.{all_departure_lines, corner_chain_lines, corner_lines, corner_words};
ghost use Rattle.mintc_corners.specs.declared.certificate.CornerCertificate.TheVariants.{Least, Never};

use crate::{CornerCertificate, CornerMember};
use mintc_certificate::{
    Departures, Member, put_count_line, put_departures, put_member, put_schedule,
};
use mintc_text::{Lines, OutOfMemory};
use mintc_timing::Schedule;
use std::alloc::Global;

/// Writes the line of a constraint of an element, with its corner before it.
fn put_element(lines: &mut Lines, word: &[u8], corner: u32, element: u32) -> Result<(), OutOfMemory>
    ensures { OnOk result (lines.new ≡ lines.old ++ ended (words (word.now ∷ number corner ∷ number element ∷ []))) }
{
    lines.put(word)?;
    lines.numbers(&[corner, element])?;
    lines.put(b"\n")
}

/// Writes the line of a reach, with its corner before its elements.
fn put_reach(
    lines: &mut Lines,
    corner: u32,
    from: u32,
    to: u32,
    arcs: &[u32],
) -> Result<(), OutOfMemory>
    requires { length arcs.now < 2 ^ 32 }
    ensures { OnOk result (lines.new ≡ lines.old
        ++ ended (words (codes "reach" ∷ number corner ∷ number from ∷ number to ∷ number (length arcs.now) ∷
        map number arcs.now))) }
{
    lines.put(b"reach")?;
    lines.numbers(&[corner, from, to, arcs.len() as u32])?;
    lines.numbers(arcs)?;
    lines.put(b"\n")
}

/// Writes the line of a member.
fn put_corner_member(lines: &mut Lines, item: &CornerMember) -> Result<(), OutOfMemory>
    requires { IsCornerCounted item.now }
    ensures { OnOk result (lines.new ≡ lines.old ++ ended (words (corner_words item.now))) }
{
    let corner = item.corner;
    match &item.member {
        Member::Opening { element } => put_element(lines, b"open", corner, *element),
        Member::Opened { element } => put_element(lines, b"opened", corner, *element),
        Member::Reach { from, to, arcs } => put_reach(lines, corner, *from, *to, arcs.items()),
        Member::Setup { element } => put_element(lines, b"setup", corner, *element),
        member => put_member(lines, member),
    }
}

/// Writes the lines of a chain, and the last line.
fn put_chain(lines: &mut Lines, members: &[CornerMember]) -> Result<(), OutOfMemory>
    requires { All IsCornerCounted members.now }
    ensures { OnOk result (lines.new ≡ lines.old ++ text_of (corner_chain_lines members.now)) }
{
    put_count_line(lines, b"chain", members.len() as u64)?;
    for member in members {
        put_corner_member(lines, member)?;
    }
    lines.put(b"end\n")
}

/// Writes the lines of the departures of each corner.
#[tactic(auto, using(crate::proofs::TextLaws::corner_more))]
fn put_all_departures(lines: &mut Lines, corners: &[Departures]) -> Result<(), OutOfMemory>
    ensures { OnOk result (lines.new ≡ lines.old ++ text_of (all_departure_lines corners.now)) }
{
    put_count_line(lines, b"corners", corners.len() as u64)?;
    for departures in corners {
        put_departures(lines, departures.items())?;
    }
    Ok(())
}

/// Writes the lines of a certificate with a schedule.
fn put_least(
    lines: &mut Lines,
    schedule: &Schedule,
    corners: &[Departures],
    chain: &[CornerMember],
) -> Result<(), OutOfMemory>
    requires schedule { IsInRange schedule.now }
    requires chain { All IsCornerCounted chain.now }
    ensures { OnOk result (lines.new ≡ lines.old ++ text_of (corner_lines (Least schedule.now corners.now chain.now))) }
{
    lines.put(b"corners 1\nleast\n")?;
    put_schedule(lines, schedule)?;
    put_all_departures(lines, corners)?;
    put_chain(lines, chain)
}

/// Writes the lines of a certificate without a schedule.
fn put_never(lines: &mut Lines, chain: &[CornerMember]) -> Result<(), OutOfMemory>
    requires { All IsCornerCounted chain.now }
    ensures { OnOk result (lines.new ≡ lines.old ++ text_of (corner_lines (Never chain.now))) }
{
    lines.put(b"corners 1\nnever\n")?;
    put_chain(lines, chain)
}

/// The text of a corner certificate. Its numbers are to be those that such a text can say.
pub fn corners_text(alloc: Global, certificate: &CornerCertificate) -> Result<Vec<u8>, OutOfMemory>
    requires { IsCornerInRange certificate.now }
    ensures { IfOk result (λ text. text.items ≡ text_of (corner_lines certificate.now)) }
{
    let mut lines = Lines::new(alloc);
    match certificate {
        CornerCertificate::Least {
            schedule,
            departures,
            chain,
        } => put_least(&mut lines, schedule, departures.items(), chain.items())?,
        CornerCertificate::Never { chain } => put_never(&mut lines, chain.items())?,
    }
    Ok(lines.into_bytes())
}
