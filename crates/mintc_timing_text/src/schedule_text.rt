//! Reading the text of a schedule.
ghost use Rattle.std.specs.Prelude.{◌≡◌, ◌≤◌, ℕ, ℤ, List, MatchOption, IfSome, IfOk, IfErr, length};
ghost use Rattle.mintc_text.specs.declared.limits.TheConstants.{MOST_BYTES};
ghost use Rattle.mintc_text.specs.declared.refusals.Role.{Role};
ghost use Rattle.mintc_timing.specs.Limits.{IsInRange, IsDenominator, IsNumerator};
ghost use Rattle.mintc_timing_text.specs.Reading.{Reading, HasPassed, HasStopped, IsAt};
ghost use Rattle.mintc_timing_text.specs.Texts.{NextAlone, AreAll, NextOfText, IsScheduleText, IsScheduleFault};
ghost use Rattle.mintc_timing_text.specs.Texts.{no_phases, schedule_of, den, phase, first};

use crate::Reader;
use arrayvec::ArrayVec;
use mintc_text::limits::{MOST_DENOMINATOR, MOST_NUMERATOR, MOST_PHASES};
use mintc_text::{Refusal, Role};
use mintc_timing::{PhaseNumbers, Schedule};

/// Reads the lines of so many phases: their starts and their widths.
fn phases(reader: &mut Reader, count: u32) -> Option<(PhaseNumbers, PhaseNumbers)>
    requires { count ≤ MOST_PHASES }
    ensures { (begun : Reading) (d t : ℤ) → HasPassed NextAlone den begun reader.old (phase count (no_phases d t)) →
        MatchOption result (HasStopped NextAlone AreAll den begun reader.new.number)
        (λ r. HasPassed NextAlone den begun reader.new (phase 0 (schedule_of d t r.0 r.1))) }
{
    let mut starts = ArrayVec::new();
    let mut widths = ArrayVec::new();
    for _phase in 0..count {
        let (start, width) = reader.phase_line()?;
        starts.push(start);
        widths.push(width);
    }
    Some((PhaseNumbers::new(starts), PhaseNumbers::new(widths)))
}

/// Reads the lines before those of the phases: `den`, the cycle time and the number of phases.
fn head(reader: &mut Reader) -> Option<(i64, i64, u32)>
    ensures read { MatchOption result
        (HasStopped NextAlone AreAll den reader.old reader.new.number)
        (λ r. HasPassed NextAlone den reader.old reader.new (phase r.2 (no_phases r.0 r.1))) }
    ensures few { IfSome result (λ r. r.2 ≤ MOST_PHASES) }
    ensures in_range { IfSome result (λ r. IsDenominator r.0 × IsNumerator r.1) }
{
    let den = reader.number_line(b"den", 1, MOST_DENOMINATOR)?;
    let cycle = reader.number_line(b"cycle", 0, MOST_NUMERATOR)?;
    let count = reader.count_line(b"phases", 1, MOST_PHASES as u32)?;
    Some((den, cycle, count))
}

/// Reads the lines of a schedule: its denominator, its cycle time and its phases.
pub fn schedule_lines(reader: &mut Reader) -> Option<Schedule>
    ensures { MatchOption result
        (HasStopped NextAlone AreAll den reader.old reader.new.number)
        (λ s. HasPassed NextAlone den reader.old reader.new (phase 0 s)) }
{
    let (den, cycle, count) = head(reader)?;
    let (starts, widths) = phases(reader, count)?;
    Some(Schedule {
        den,
        cycle,
        starts,
        widths,
    })
}

/// Reads all lines of a schedule's text, and that none follows.
fn schedule(reader: &mut Reader) -> Option<Schedule>
    ensures { (text : List ℕ) → IsAt NextOfText first text reader.old first →
        MatchOption result (IsScheduleFault text reader.new.number) (IsScheduleText text) }
{
    reader.count_line(b"schedule", 1, 1)?;
    let schedule = schedule_lines(reader)?;
    reader.word_line(b"end")?;
    reader.end()?;
    Some(schedule)
}

/// The schedule of a text. The refusal is Syntax with the first line that is out of form, counted from 1.
pub fn read_schedule(text: &[u8]) -> Result<Schedule, Refusal>
    requires { length text.now ≤ MOST_BYTES }
    ensures value { IfOk result (λ s. IsScheduleText text.now s) }
    ensures in_range { IfOk result IsInRange }
    ensures syntax { IfErr result (λ r. (n : ℕ) × (r ≡ Refusal.Syntax Role.Schedule n) × IsScheduleFault text.now n) }
{
    let mut reader = Reader::new(text);
    match schedule(&mut reader) {
        Some(schedule) => Ok(schedule),
        None => Err(Refusal::Syntax {
            role: Role::Schedule,
            entry: reader.number(),
        }),
    }
}
