//! The answer of `check`: the judgement of a schedule.
ghost use Rattle.std.specs.Prelude.{◌≡◌, ◌≤◌, ◌+◌, ◌*◌, [], length, IfOk, IfErr};
ghost use Rattle.mintc_text.specs.Stops.{StopsAt};
ghost use Rattle.mintc_timing.specs.Departures.{AreEarly, AreLate};
ghost use Rattle.mintc_timing.specs.Design.{element_count, phase_count};
ghost use Rattle.mintc_timing.specs.Limits.{IsInRange};
ghost use Rattle.mintc_timing.specs.Violations.{AreViolations};
ghost use Rattle.mintc_command_answers.specs.Jobs.{IsFileRefused, IsJobAnswer, IsJudgement, IsScheduleOf};
ghost use Rattle.mintc_command_answers.specs.Jobs.{IsScheduleRefused};

use crate::answer::Answer;
use crate::command::Job;
use crate::status::Status;
use mintc_constraints::Room;
use mintc_departure::violations;
use mintc_report::{fail_text, pass_text, violations_name_pairs};
use mintc_text::limits::MOST_BYTES;
use mintc_text::{Limits, OutOfMemory, Refusal, Stop};
use mintc_timing::{Schedule, System, Violation};
use mintc_timing_text::read_schedule;
use std::alloc::Global;

/// The schedule of a text, which is to have so many phases, or its first refusal.
pub fn schedule_of(text: &[u8], phases: u32) -> Result<Schedule, Refusal>
    requires text { length text.now ≤ MOST_BYTES }
    requires few { phases ≤ 8 }
    ensures value { IfOk result (λ schedule. IsScheduleOf text.now phases schedule) }
    ensures in_range { IfOk result IsInRange }
    ensures refusal { IfErr result (IsScheduleRefused text.now phases) }
{
    let schedule = read_schedule(text)?;
    let given = schedule.starts.items().len() as u32;
    if phases != given {
        return Err(Refusal::PhaseMismatch {
            design: phases,
            schedule: given,
        });
    }
    Ok(schedule)
}

/// A room for the judgement of a schedule.
pub fn room_for(alloc: Global, system: &System) -> Result<Room, OutOfMemory>
    ensures { IfOk result (λ room. 1 + 2 * phase_count system.now.flat + element_count system.now.flat ≤ room.nodes) }
{
    Room::reserve(alloc, system.flat().node_count() as usize, 0)
}

/// The judgement of a schedule that breaks just these: a pass where there are none, or a fail that names them.
fn judgement(
    alloc: Global,
    system: &System,
    schedule: &Schedule,
    violations: &[Violation],
    room: &Room,
) -> Result<Answer, OutOfMemory>
    requires in_range { IsInRange schedule.now }
    requires phases { length schedule.now.starts ≡ phase_count system.now.flat }
    requires violations { AreViolations system.now schedule.now violations.now }
    requires late { violations.now ≡ [] → AreLate system.now schedule.now room.now.late }
    requires early { violations.now ≡ [] → AreEarly system.now schedule.now room.now.early }
    ensures { IfOk result (λ answer. IsJudgement system.now schedule.now answer.status answer.text) }
{
    if violations.is_empty() {
        let text = pass_text(alloc, system, schedule, room)?;
        Ok(Answer::new(Status::Done, text))
    } else {
        violations_name_pairs();
        let text = fail_text(alloc, system, schedule, violations)?;
        Ok(Answer::new(Status::Found, text))
    }
}

/// The judgement of a schedule: a pass, or a fail with all its violations.
fn judge(alloc: Global, system: &System, schedule: &Schedule) -> Result<Answer, OutOfMemory>
    requires in_range { IsInRange schedule.now }
    requires phases { length schedule.now.starts ≡ phase_count system.now.flat }
    ensures { IfOk result (λ answer. IsJudgement system.now schedule.now answer.status answer.text) }
{
    let mut room = room_for(alloc, system)?;
    let violations = violations(alloc, system, schedule, &mut room)?;
    judgement(alloc, system, schedule, violations.as_slice(), &room)
}

/// The judgement of the schedule of a text, or why the text is refused.
pub(crate) fn check_answer(
    alloc: Global,
    limits: &Limits,
    system: &System,
    file: &[u8],
) -> Result<Answer, Stop>
    requires { length file.now ≤ MOST_BYTES }
    ensures value { IfOk result (λ answer. IsJobAnswer limits.now Job.Check system.now file.now answer.status
        answer.text) }
    ensures stop { IfErr result (StopsAt (IsFileRefused limits.now Job.Check system.now.flat file.now)) }
{
    let schedule = schedule_of(file, system.flat().phase_count())?;
    Ok(judge(alloc, system, &schedule)?)
}
