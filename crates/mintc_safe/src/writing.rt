//! The text of a safe certificate.
ghost use Rattle.std.specs.Prelude.{◌≡◌, ◌++◌, IfOk, OnOk, All};
ghost use Rattle.mintc_text.specs.Lines.{ended, text_of, words};
ghost use Rattle.mintc_timing.specs.Limits.{IsInRange};
ghost use Rattle.mintc_safe.specs.SafeOptimum.{IsSafeCounted, IsSafeInRange};
ghost use Rattle.mintc_safe.specs.SafeText.{safe_chain_lines, safe_lines, safe_words};
ghost use Rattle.mintc_safe.specs.declared.certificate.SafeCertificate.TheVariants.{Least, Never};

use crate::{SafeCertificate, SafeMember};
use mintc_certificate::{put_count_line, put_departures, put_member, put_path, put_schedule};
use mintc_text::{Lines, OutOfMemory};
use mintc_timing::Schedule;
use std::alloc::Global;

/// Writes the line of a member.
fn put_safe_member(lines: &mut Lines, member: &SafeMember) -> Result<(), OutOfMemory>
    requires { IsSafeCounted member.now }
    ensures { OnOk result (lines.new ≡ lines.old ++ ended (words (safe_words member.now))) }
{
    match member {
        SafeMember::Plain { member } => put_member(lines, member),
        SafeMember::Hold { from, to, arcs } => put_path(lines, b"hold", *from, *to, arcs.items()),
    }
}

/// Writes the lines of a chain, and the last line.
fn put_chain(lines: &mut Lines, members: &[SafeMember]) -> Result<(), OutOfMemory>
    requires { All IsSafeCounted members.now }
    ensures { OnOk result (lines.new ≡ lines.old ++ text_of (safe_chain_lines members.now)) }
{
    put_count_line(lines, b"chain", members.len() as u64)?;
    for member in members {
        put_safe_member(lines, member)?;
    }
    lines.put(b"end\n")
}

/// Writes the lines of a certificate with a schedule.
fn put_least(
    lines: &mut Lines,
    schedule: &Schedule,
    departures: &[i64],
    chain: &[SafeMember],
) -> Result<(), OutOfMemory>
    requires schedule { IsInRange schedule.now }
    requires chain { All IsSafeCounted chain.now }
    ensures { OnOk result (lines.new ≡ lines.old
        ++ text_of (safe_lines (Least schedule.now departures.now chain.now))) }
{
    lines.put(b"safe 1\nleast\n")?;
    put_schedule(lines, schedule)?;
    put_departures(lines, departures)?;
    put_chain(lines, chain)
}

/// Writes the lines of a certificate without a schedule.
fn put_never(lines: &mut Lines, chain: &[SafeMember]) -> Result<(), OutOfMemory>
    requires { All IsSafeCounted chain.now }
    ensures { OnOk result (lines.new ≡ lines.old ++ text_of (safe_lines (Never chain.now))) }
{
    lines.put(b"safe 1\nnever\n")?;
    put_chain(lines, chain)
}

/// The text of a safe certificate. Its numbers are to be those that such a text can say.
pub fn safe_text(alloc: Global, certificate: &SafeCertificate) -> Result<Vec<u8>, OutOfMemory>
    requires { IsSafeInRange certificate.now }
    ensures { IfOk result (λ text. text.items ≡ text_of (safe_lines certificate.now)) }
{
    let mut lines = Lines::new(alloc);
    match certificate {
        SafeCertificate::Least {
            schedule,
            departures,
            chain,
        } => put_least(&mut lines, schedule, departures.items(), chain.items())?,
        SafeCertificate::Never { chain } => put_never(&mut lines, chain.items())?,
    }
    Ok(lines.into_bytes())
}
