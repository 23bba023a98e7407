//! The text of a certificate.
ghost use Rattle.std.specs.Prelude.{◌≡◌, ◌<◌, ◌^◌, ◌++◌, ◌∷◌, IfOk, OnOk, length, map, zip, All};
ghost use Rattle.mintc_text.specs.Lines.{ended, text_of, words};
ghost use Rattle.mintc_timing_text.specs.Fields.{number};
ghost use Rattle.mintc_timing.specs.Limits.{IsInRange};
ghost use Rattle.mintc_certificate.specs.CertificateText.{IsCounted, member_words};
ghost use Rattle.mintc_certificate.specs.Ranges.{IsCertificateInRange};
ghost use Rattle.mintc_certificate.specs.Written.{chain_lines, departure_lines, least_lines, lines_of};
ghost use Rattle.mintc_timing_text.specs.LineForms.{count_line};
ghost use Rattle.mintc_certificate.specs.Written.{never_lines};
ghost use Rattle.mintc_timing_text.specs.LineForms.{number_line, phase_line, schedule_lines};

use crate::{Certificate, Member};
use mintc_text::{Lines, OutOfMemory};
use mintc_timing::Schedule;
use std::alloc::Global;

/// Writes a line of a word and a number.
fn put_number_line(lines: &mut Lines, word: &[u8], number: i64) -> Result<(), OutOfMemory>
    ensures { OnOk result (lines.new ≡ lines.old ++ ended (number_line word.now number)) }
{
    lines.put(word)?;
    lines.put(b" ")?;
    lines.number(i128::from(number))?;
    lines.put(b"\n")
}

/// Writes a line of a word and a count.
pub fn put_count_line(lines: &mut Lines, word: &[u8], count: u64) -> Result<(), OutOfMemory>
    ensures { OnOk result (lines.new ≡ lines.old ++ ended (count_line word.now count)) }
{
    lines.put(word)?;
    lines.put(b" ")?;
    lines.number(i128::from(count))?;
    lines.put(b"\n")
}

/// Writes the line of a phase.
fn put_phase_line(lines: &mut Lines, start: i64, width: i64) -> Result<(), OutOfMemory>
    ensures { OnOk result (lines.new ≡ lines.old ++ ended (phase_line (start, width))) }
{
    lines.put(b"phase ")?;
    lines.number(i128::from(start))?;
    lines.put(b" ")?;
    lines.number(i128::from(width))?;
    lines.put(b"\n")
}

/// Writes the line of each phase.
#[tactic(auto, using(crate::proofs::SharedWritingLaws::one_more))]
fn put_phases(lines: &mut Lines, starts: &[i64], widths: &[i64]) -> Result<(), OutOfMemory>
    requires { length widths.now ≡ length starts.now }
    ensures { OnOk result (lines.new ≡ lines.old ++ text_of (map phase_line (zip starts.now widths.now))) }
{
    for index in 0..starts.len() {
        put_phase_line(lines, starts[index], widths[index])?;
    }
    Ok(())
}

/// Writes the lines of a schedule.
pub fn put_schedule(lines: &mut Lines, schedule: &Schedule) -> Result<(), OutOfMemory>
    requires { IsInRange schedule.now }
    ensures { OnOk result (lines.new ≡ lines.old ++ text_of (schedule_lines schedule.now)) }
{
    let starts = schedule.starts.items();
    put_number_line(lines, b"den", schedule.den)?;
    put_number_line(lines, b"cycle", schedule.cycle)?;
    put_count_line(lines, b"phases", starts.len() as u64)?;
    put_phases(lines, starts, schedule.widths.items())
}

/// Writes the lines of departures.
#[tactic(auto, using(crate::proofs::SharedWritingLaws::one_more))]
pub fn put_departures(lines: &mut Lines, departures: &[i64]) -> Result<(), OutOfMemory>
    ensures { OnOk result (lines.new ≡ lines.old ++ text_of (departure_lines departures.now)) }
{
    put_count_line(lines, b"departures", departures.len() as u64)?;
    for departure in departures {
        put_number_line(lines, b"departure", *departure)?;
    }
    Ok(())
}

/// Writes the line of a word and numbers.
#[tactic(auto, using(crate::proofs::SharedWritingLaws::written))]
fn put_line(lines: &mut Lines, word: &[u8], numbers: &[u32]) -> Result<(), OutOfMemory>
    ensures { OnOk result (lines.new ≡ lines.old ++ ended (words (word.now ∷ map number numbers.now))) }
{
    lines.put(word)?;
    lines.numbers(numbers)?;
    lines.put(b"\n")
}

/// Writes the line of a word, two elements and a path between them: how many arcs it has, and then each.
#[tactic(auto, using(crate::proofs::SharedWritingLaws::written))]
pub fn put_path(
    lines: &mut Lines,
    word: &[u8],
    from: u32,
    to: u32,
    arcs: &[u32],
) -> Result<(), OutOfMemory>
    requires { length arcs.now < 2 ^ 32 }
    ensures { OnOk result (lines.new ≡ lines.old
        ++ ended (words (word.now ∷ number from ∷ number to ∷ number (length arcs.now) ∷ map number arcs.now))) }
{
    lines.put(word)?;
    lines.numbers(&[from, to, arcs.len() as u32])?;
    lines.numbers(arcs)?;
    lines.put(b"\n")
}

/// Writes the line of a member.
pub fn put_member(lines: &mut Lines, member: &Member) -> Result<(), OutOfMemory>
    requires { IsCounted member.now }
    ensures { OnOk result (lines.new ≡ lines.old ++ ended (words (member_words member.now))) }
{
    match member {
        Member::Start { phase } => put_line(lines, b"start", &[*phase]),
        Member::Cycle { phase } => put_line(lines, b"cycle", &[*phase]),
        Member::Order { phase } => put_line(lines, b"order", &[*phase]),
        Member::Span { phase } => put_line(lines, b"span", &[*phase]),
        Member::Width { phase } => put_line(lines, b"width", &[*phase]),
        Member::Apart { i, j } => put_line(lines, b"apart", &[*i, *j]),
        Member::Opening { element } => put_line(lines, b"open", &[*element]),
        Member::Opened { element } => put_line(lines, b"opened", &[*element]),
        Member::Reach { from, to, arcs } => put_path(lines, b"reach", *from, *to, arcs.items()),
        Member::Setup { element } => put_line(lines, b"setup", &[*element]),
        Member::Bound { index } => put_line(lines, b"bound", &[*index]),
    }
}

/// Writes the lines of a chain, and the last line.
fn put_chain(lines: &mut Lines, members: &[Member]) -> Result<(), OutOfMemory>
    requires { All IsCounted members.now }
    ensures { OnOk result (lines.new ≡ lines.old ++ text_of (chain_lines members.now)) }
{
    put_count_line(lines, b"chain", members.len() as u64)?;
    for member in members {
        put_member(lines, member)?;
    }
    lines.put(b"end\n")
}

/// Writes the lines of a certificate with a schedule.
fn put_least(
    lines: &mut Lines,
    schedule: &Schedule,
    departures: &[i64],
    chain: &[Member],
) -> Result<(), OutOfMemory>
    requires schedule { IsInRange schedule.now }
    requires chain { All IsCounted chain.now }
    ensures { OnOk result (lines.new ≡ lines.old ++ text_of (least_lines schedule.now departures.now chain.now)) }
{
    lines.put(b"certificate 2\nleast\n")?;
    put_schedule(lines, schedule)?;
    put_departures(lines, departures)?;
    put_chain(lines, chain)
}

/// Writes the lines of a certificate without a schedule.
fn put_never(lines: &mut Lines, chain: &[Member]) -> Result<(), OutOfMemory>
    requires { All IsCounted chain.now }
    ensures { OnOk result (lines.new ≡ lines.old ++ text_of (never_lines chain.now)) }
{
    lines.put(b"certificate 2\nnever\n")?;
    put_chain(lines, chain)
}

/// The text of a certificate, in version 2. Its numbers are to be those that such a text can say.
pub fn write(alloc: Global, certificate: &Certificate) -> Result<Vec<u8>, OutOfMemory>
    requires { IsCertificateInRange certificate.now }
    ensures { IfOk result (λ text. text.items ≡ text_of (lines_of certificate.now)) }
{
    let mut lines = Lines::new(alloc);
    match certificate {
        Certificate::Least {
            schedule,
            departures,
            chain,
        } => {
            put_least(&mut lines, schedule, departures.items(), chain.items())?;
            Ok(lines.into_bytes())
        }
        Certificate::Never { chain } => {
            put_never(&mut lines, chain.items())?;
            Ok(lines.into_bytes())
        }
    }
}
