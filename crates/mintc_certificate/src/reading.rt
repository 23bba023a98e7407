//! Reading the text of a certificate.
ghost use Rattle.std.specs.Prelude.{◌≡◌, ◌≤◌, ℕ, ℤ, List, Bool, MatchOption, MatchResult, IfOk, IfErr, IfSome, length};
ghost use Rattle.mintc_text.specs.declared.limits.TheConstants.{MOST_BYTES};
ghost use Rattle.mintc_text.specs.ReadErrors.{Halts};
ghost use Rattle.mintc_text.specs.Stops.{StopsAt};
ghost use Rattle.mintc_timing.specs.declared.clocking.Schedule.{Schedule};
ghost use Rattle.mintc_timing_text.specs.Reading.{HasNone, HasRead, IsAt, number_after};
ghost use Rattle.mintc_timing_text.specs.Texts.{den, phase};
ghost use Rattle.mintc_certificate.specs.declared.certificate.Certificate.{Certificate};
ghost use Rattle.mintc_certificate.specs.declared.members.Member.{Member};
ghost use Rattle.mintc_certificate.specs.declared.version.Version.{Version};
ghost use Rattle.mintc_certificate.specs.CertificateReading.{with_chain, before_chain};
ghost use Rattle.mintc_certificate.specs.CertificateText.{version_of, least_departure, IsChainLine, IsMemberLine};
ghost use Rattle.mintc_certificate.specs.CertificateText.{IsOutcomeLine};
ghost use Rattle.mintc_certificate.specs.CertificateText.{NextOfCertificate, IsCertificateText, IsCertificateFault};
ghost use Rattle.mintc_certificate.specs.CertificateText.{IsCertificateRefusal, first, scheduled, departure, link};
ghost use Rattle.mintc_certificate.specs.CertificateText.{never as no_schedule};
ghost use Rattle.mintc_certificate.specs.Ranges.{IsCertificateInRange};

use crate::member_lines::member_of;
use crate::version::Version;
use crate::{Certificate, Departures, Member, Members};
use mintc_text::limits::{MOST_COUNT, MOST_NUMERATOR};
use mintc_text::{Limits, ReadError, Refusal, Role, Stop};
use mintc_timing_text::{Fields, Reader, schedule_lines};
use std::alloc::Global;

/// The version of a text whose first line has this number.
fn version_of(number: u32) -> Version
    ensures { result ≡ version_of number }
{
    if number == 1 {
        Version::First
    } else {
        Version::Second
    }
}

/// The least departure that a version can say, a numerator over the schedule's denominator.
fn least_departure(version: Version) -> i64
    ensures { result ≡ least_departure version }
{
    match version {
        Version::First => 0,
        Version::Second => -MOST_NUMERATOR,
    }
}

/// Whether the line says `least`, and not `never`.
fn outcome_of(mut fields: Fields) -> Option<bool>
    ensures { MatchOption result ((b : Bool) → IsOutcomeLine b fields.entry → ⊥) (λ b. IsOutcomeLine b fields.entry) }
{
    let word = fields.word()?;
    fields.end()?;
    if word == b"least".as_slice() {
        return Some(true);
    }
    if word == b"never".as_slice() {
        Some(false)
    } else {
        None
    }
}

/// Reads the line that says whether a schedule follows.
fn outcome_line(reader: &mut Reader) -> Option<bool>
    ensures read { MatchOption result (HasNone IsOutcomeLine reader.old.left)
        (λ b. HasRead IsOutcomeLine reader.old.left b reader.new.left) }
    ensures counted { reader.new.number ≡ number_after reader.old.number }
{
    let fields = reader.fields()?;
    outcome_of(fields)
}

/// Reads the number of departures and their lines.
fn departures(alloc: Global, reader: &mut Reader, version: Version) -> Result<Departures, ReadError>
    ensures { (text : List ℕ) (most : ℕ) (s : Schedule) →
        IsAt (NextOfCertificate most) first text reader.old (scheduled version (phase 0 s)) →
        MatchResult result
        (λ ds. IsAt (NextOfCertificate most) first text reader.new (departure version 0 s ds))
        (Halts (IsCertificateFault most text reader.new.number)) }
{
    let least = least_departure(version);
    let Some(count) = reader.count_line(b"departures", 0, MOST_COUNT) else {
        return Err(ReadError::Malformed);
    };
    let mut found = Vec::new(alloc);
    for _departure in 0..count {
        let Some(departure) = reader.number_line(b"departure", least, MOST_NUMERATOR) else {
            return Err(ReadError::Malformed);
        };
        found.push(departure)?;
    }
    Ok(Departures::new(found))
}

/// Reads the line of a member.
#[tactic(auto, using(crate::proofs::MemberLaws::plain_words))]
fn member_line(alloc: Global, reader: &mut Reader, version: Version) -> Result<Member, ReadError>
    ensures read { MatchResult result
        (λ m. HasRead (IsMemberLine version) reader.old.left m reader.new.left)
        (Halts (HasNone (IsMemberLine version) reader.old.left)) }
    ensures counted { reader.new.number ≡ number_after reader.old.number }
{
    let Some(fields) = reader.fields() else {
        return Err(ReadError::Malformed);
    };
    member_of(alloc, fields, version)
}

/// Reads the line that says how many members follow.
fn chain_line(limits: &Limits, reader: &mut Reader) -> Option<u32>
    ensures read { MatchOption result
        (HasNone (IsChainLine limits.now.members) reader.old.left)
        (λ count. HasRead (IsChainLine limits.now.members) reader.old.left count reader.new.left) }
    ensures counted { reader.new.number ≡ number_after reader.old.number }
{
    let most = limits.most();
    reader.count_line(b"chain", 1, most.members as u32)
}

/// Reads the number of members and their lines.
fn members(
    alloc: Global,
    limits: &Limits,
    reader: &mut Reader,
    version: Version,
) -> Result<Members, ReadError>
    ensures { (text : List ℕ) (c : Certificate) → IsAt (NextOfCertificate limits.now.members) first text reader.old
        (before_chain version c) →
        MatchResult result
        (λ chain. IsAt (NextOfCertificate limits.now.members) first text reader.new (link version 0
        (with_chain c chain)))
        (Halts (IsCertificateFault limits.now.members text reader.new.number)) }
{
    let Some(count) = chain_line(limits, reader) else {
        return Err(ReadError::Malformed);
    };
    let mut found = Vec::new(alloc);
    for _member in 0..count {
        let member = member_line(alloc, reader, version)?;
        found.push(member)?;
    }
    Ok(Members::new(found))
}

/// Reads the lines of a chain and the last line, and that none follows.
fn chain(
    alloc: Global,
    limits: &Limits,
    reader: &mut Reader,
    version: Version,
) -> Result<Members, ReadError>
    ensures { (text : List ℕ) (c : Certificate) →
        IsAt (NextOfCertificate limits.now.members) first text reader.old (before_chain version c) →
        MatchResult result
        (λ chain. IsCertificateText limits.now.members text (with_chain c chain))
        (Halts (IsCertificateFault limits.now.members text reader.new.number)) }
{
    let chain = members(alloc, limits, reader, version)?;
    let Some(()) = reader.word_line(b"end") else {
        return Err(ReadError::Malformed);
    };
    let Some(()) = reader.end() else {
        return Err(ReadError::Malformed);
    };
    Ok(chain)
}

/// Reads the lines after `least`.
fn least(
    alloc: Global,
    limits: &Limits,
    reader: &mut Reader,
    version: Version,
) -> Result<Certificate, ReadError>
    ensures { (text : List ℕ) → IsAt (NextOfCertificate limits.now.members) first text reader.old
        (scheduled version den) →
        MatchResult result (IsCertificateText limits.now.members text) (Halts (IsCertificateFault limits.now.members
        text reader.new.number)) }
{
    let Some(schedule) = schedule_lines(reader) else {
        return Err(ReadError::Malformed);
    };
    let departures = departures(alloc, reader, version)?;
    let chain = chain(alloc, limits, reader, version)?;
    Ok(Certificate::Least {
        schedule,
        departures,
        chain,
    })
}

/// Reads the lines after `never`.
fn never(
    alloc: Global,
    limits: &Limits,
    reader: &mut Reader,
    version: Version,
) -> Result<Certificate, ReadError>
    ensures { (text : List ℕ) → IsAt (NextOfCertificate limits.now.members) first text reader.old (no_schedule version)
        →
        MatchResult result (IsCertificateText limits.now.members text) (Halts (IsCertificateFault limits.now.members
        text reader.new.number)) }
{
    let chain = chain(alloc, limits, reader, version)?;
    Ok(Certificate::Never { chain })
}

/// Reads all lines of a certificate, and that none follows.
fn certificate(
    alloc: Global,
    limits: &Limits,
    reader: &mut Reader,
) -> Result<Certificate, ReadError>
    ensures { (text : List ℕ) → IsAt (NextOfCertificate limits.now.members) first text reader.old first →
        MatchResult result (IsCertificateText limits.now.members text) (Halts (IsCertificateFault limits.now.members
        text reader.new.number)) }
{
    let Some(number) = reader.count_line(b"certificate", 1, 2) else {
        return Err(ReadError::Malformed);
    };
    let version = version_of(number);
    let Some(has_schedule) = outcome_line(reader) else {
        return Err(ReadError::Malformed);
    };
    if has_schedule {
        least(alloc, limits, reader, version)
    } else {
        never(alloc, limits, reader, version)
    }
}

/// The certificate of a text, of either version. The refusal is Syntax with the first line that is out of form, counted
/// from 1.
pub fn read(alloc: Global, limits: &Limits, text: &[u8]) -> Result<Certificate, Stop>
    requires { length text.now ≤ MOST_BYTES }
    ensures value { IfOk result (λ certificate. IsCertificateText limits.now.members text.now certificate) }
    ensures in_range { IfOk result IsCertificateInRange }
    ensures stop { IfErr result (StopsAt (IsCertificateRefusal limits.now.members text.now)) }
{
    let mut reader = Reader::new(text);
    match certificate(alloc, limits, &mut reader) {
        Ok(certificate) => Ok(certificate),
        Err(ReadError::Malformed) => Err(Stop::Refused(Refusal::Syntax {
            role: Role::Certificate,
            entry: reader.number(),
        })),
        Err(ReadError::OutOfMemory) => Err(Stop::OutOfMemory),
    }
}
