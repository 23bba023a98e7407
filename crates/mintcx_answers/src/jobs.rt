//! What is asked of a design, in a text for people.
ghost use Rattle.std.specs.Prelude.{◌≡◌, ◌≢◌, ◌≤◌, ◌+◌, ◌*◌, [], List, ℕ, length, IfOk, IfErr};
ghost use Rattle.mintc_fraction.specs.Ratio.{IsModest, over};
ghost use Rattle.mintc_text.specs.Stops.{StopsAt};
ghost use Rattle.mintc_text.specs.declared.limits.TheConstants.{MOST_SLACK};
ghost use Rattle.mintc_timing.specs.Design.{element_count, phase_count};
ghost use Rattle.mintc_timing.specs.Limits.{IsInRange};
ghost use Rattle.mintc_timing.specs.Violations.{AreViolations};
ghost use Rattle.mintc_certificate.specs.declared.certificate.Certificate.{Certificate};
ghost use Rattle.mintc_command_answers.specs.Jobs.{IsFileRefused, IsOptimum, IsScheduleRefused, certificate_status};
ghost use Rattle.mintc_command_answers.specs.Jobs.{safe_status, slack_status};
ghost use Rattle.mintc_safe.specs.SafeOptimum.{IsSafeInRange, IsSafeValid};
ghost use Rattle.mintc_slack.specs.Answers.{AreOfPairs};
ghost use Rattle.mintcx_answers.specs.Answers.{IsChainAnswer, IsCheckAnswer, IsCycleAnswer, IsFail, IsJobAnswer};
ghost use Rattle.mintcx_answers.specs.Answers.{IsCycleAsObject, IsCycleRows, IsFailAsObject, IsFailRows};
ghost use Rattle.mintcx_answers.specs.Answers.{IsJudgement, IsObjectAnswer, IsTextOfSafe};
ghost use Rattle.mintcx_answers.specs.Answers.{IsTextOfPass, IsToldFail};
ghost use Rattle.mintcx_answers.specs.Answers.{IsOptimiseAnswer, IsOptimumAnswer, IsSafeAnswer, IsSlacksAnswer};
ghost use Rattle.mintcx_answers.specs.Answers.{IsTextOfSlacks, IsToldReport, cycle_status, least_cycle};

use crate::reports::report_answer;
use crate::schedules::timed_answer;
use crate::verdicts::verify_answer;
use mintc_certificate::Certificate;
use mintc_command_answers::{
    Answer, Job, Source, Status, optimum, room_for, safe_from, schedule_of, slacks_from,
};
use mintc_constraints::Room;
use mintc_departure::{Settling, early, late, violations};
use mintc_fraction::Fraction;
use mintc_netlist::Netlist;
use mintc_safe::SafeCertificate;
use mintc_slack::Slacks;
use mintc_text::limits::MOST_BYTES;
use mintc_text::{Bytes, Kind, Limits, Name, OutOfMemory, Refusal, Stop};
use mintc_timing::{Schedule, System, Violation};
use mintcx_csv::{cycle_csv, fail_csv, optimum_csv, pass_csv, safe_csv, slack_csv};
use mintcx_cycles::{AtCycle, at_cycle_uncounted};
use mintcx_frame::View;
use mintcx_json::{Heading, cycle_json, fail_json, optimum_json, pass_json, safe_json, slack_json};
use mintcx_judgements::{Judged, fail_text, pass_text, violations_are_named};
use mintcx_optima::{cycle_text, optimum_text, safe_text};
use mintcx_slacks::{histogram_text, slack_text};
use mintcx_translation::Aspect;
use std::alloc::Global;
use std::marker::Brand;
use std::sync::ledger::Blank;

/// What is asked of the design of a source, and what of it is told; what is beside its files as they are called, and the
/// netlist that names the cells of a report's gates.
#[derive(Clone, Copy)]
pub(crate) struct Work<'a, 'b> {
    pub(crate) job: Job,
    pub(crate) source: Source,
    pub(crate) aspect: Aspect,
    pub(crate) beside: &'a [Name],
    pub(crate) netlist: Option<&'b Netlist>,
}

/// The text of a fail that breaks just these. Where its departures don't settle, it names none.
pub(crate) fn failed(
    alloc: Global,
    system: &System,
    schedule: &Schedule,
    violations: &[Violation],
    room: &mut Room,
    view: &View,
) -> Result<Bytes, OutOfMemory>
    requires in_range { IsInRange schedule.now }
    requires phases { length schedule.now.starts ≡ phase_count system.now.flat }
    requires violations { AreViolations system.now schedule.now violations.now }
    requires some { violations.now ≢ [] }
    requires room { 1 + 2 * phase_count system.now.flat + element_count system.now.flat ≤ room.old.nodes }
    ensures { IfOk result (IsFail system.now schedule.now view.now) }
{
    violations_are_named();
    match late(system, schedule, room) {
        Settling::Settled => {
            early(system, schedule, room);
            let judged = Judged {
                system,
                schedule,
                late: room.late(),
                early: room.early(),
            };
            fail_text(alloc, &judged, violations, view)
        }
        Settling::Loop => {
            let judged = Judged {
                system,
                schedule,
                late: &[],
                early: &[],
            };
            fail_text(alloc, &judged, violations, view)
        }
    }
}

/// The text of a pass, its table or its object.
fn passed(
    alloc: Global,
    aspect: Aspect,
    judged: &Judged<'_>,
    view: &View,
) -> Result<Bytes, OutOfMemory>
    requires in_range { IsInRange judged.now.schedule.now }
    requires phases { length judged.now.schedule.now.starts ≡ phase_count judged.now.system.now.flat }
    ensures { IfOk result (IsTextOfPass judged.now.system.now judged.now.schedule.now aspect judged.now.late.now
        judged.now.early.now view.now) }
{
    match aspect {
        Aspect::Rows => pass_csv(alloc, judged),
        Aspect::Object => pass_json(alloc, judged, view),
        Aspect::Whole
        | Aspect::Cycle(_)
        | Aspect::CycleRows(_)
        | Aspect::CycleObject(_)
        | Aspect::Histogram
        | Aspect::Schedule(_)
        | Aspect::Clocks
        | Aspect::Picture
        | Aspect::Table => pass_text(alloc, judged, view),
    }
}

/// What a schedule breaks of a system.
#[derive(Clone, Copy)]
struct Failing<'a> {
    system: &'a System,
    schedule: &'a Schedule,
    violations: &'a [Violation],
}

/// The table of a fail that breaks just these.
fn fail_rows(alloc: Global, failing: &Failing<'_>) -> Result<Bytes, OutOfMemory>
    requires violations { AreViolations failing.now.system.now failing.now.schedule.now failing.now.violations.now }
    requires some { failing.now.violations.now ≢ [] }
    ensures { IfOk result (IsFailRows failing.now.system.now failing.now.schedule.now) }
{
    violations_are_named();
    fail_csv(
        alloc,
        failing.system,
        failing.schedule.den,
        failing.violations,
    )
}

/// The object of a fail that breaks just these.
fn fail_object(alloc: Global, failing: &Failing<'_>, view: &View) -> Result<Bytes, OutOfMemory>
    requires in_range { IsInRange failing.now.schedule.now }
    requires phases { length failing.now.schedule.now.starts ≡ phase_count failing.now.system.now.flat }
    requires violations { AreViolations failing.now.system.now failing.now.schedule.now failing.now.violations.now }
    requires some { failing.now.violations.now ≢ [] }
    ensures { IfOk result (IsFailAsObject failing.now.system.now failing.now.schedule.now view.now) }
{
    violations_are_named();
    let judged = Judged {
        system: failing.system,
        schedule: failing.schedule,
        late: &[],
        early: &[],
    };
    fail_json(alloc, &judged, failing.violations, view)
}

/// The text of a fail that breaks just these, its table or its object.
fn told_fail(
    alloc: Global,
    aspect: Aspect,
    failing: &Failing<'_>,
    room: &mut Room,
    view: &View,
) -> Result<Bytes, OutOfMemory>
    requires in_range { IsInRange failing.now.schedule.now }
    requires phases { length failing.now.schedule.now.starts ≡ phase_count failing.now.system.now.flat }
    requires violations { AreViolations failing.now.system.now failing.now.schedule.now failing.now.violations.now }
    requires some { failing.now.violations.now ≢ [] }
    requires room { 1 + 2 * phase_count failing.now.system.now.flat + element_count failing.now.system.now.flat ≤ room.old.nodes }
    ensures { IfOk result (IsToldFail failing.now.system.now failing.now.schedule.now aspect view.now) }
{
    match aspect {
        Aspect::Rows => fail_rows(alloc, failing),
        Aspect::Object => fail_object(alloc, failing, view),
        Aspect::Whole
        | Aspect::Cycle(_)
        | Aspect::CycleRows(_)
        | Aspect::CycleObject(_)
        | Aspect::Histogram
        | Aspect::Schedule(_)
        | Aspect::Clocks
        | Aspect::Picture
        | Aspect::Table => failed(
            alloc,
            failing.system,
            failing.schedule,
            failing.violations,
            room,
            view,
        ),
    }
}

/// The judgement of a schedule: a pass, or a fail with all its violations.
fn judge(
    alloc: Global,
    aspect: Aspect,
    system: &System,
    schedule: &Schedule,
    view: &View,
) -> Result<Answer, OutOfMemory>
    requires in_range { IsInRange schedule.now }
    requires phases { length schedule.now.starts ≡ phase_count system.now.flat }
    ensures { IfOk result (λ answer. IsJudgement system.now schedule.now aspect view.now answer.status answer.text) }
{
    let mut room = room_for(alloc, system)?;
    let violations = violations(alloc, system, schedule, &mut room)?;
    if violations.is_empty() {
        let judged = Judged {
            system,
            schedule,
            late: room.late(),
            early: room.early(),
        };
        let text = passed(alloc, aspect, &judged, view)?;
        return Ok(Answer {
            status: Status::Done,
            text,
        });
    }
    let failing = Failing {
        system,
        schedule,
        violations: violations.as_slice(),
    };
    let text = told_fail(alloc, aspect, &failing, &mut room, view)?;
    Ok(Answer {
        status: Status::Found,
        text,
    })
}

/// The judgement of the schedule of a text, or why the text is refused.
fn check_answer(
    alloc: Global,
    aspect: Aspect,
    system: &System,
    file: &[u8],
    view: &View,
) -> Result<Answer, Stop>
    requires { length file.now ≤ MOST_BYTES }
    ensures value { IfOk result
        (λ answer. IsCheckAnswer system.now aspect file.now view.now answer.status answer.text) }
    ensures stop { IfErr result (StopsAt (IsScheduleRefused file.now (phase_count system.now.flat))) }
{
    let schedule = schedule_of(file, system.flat().phase_count())?;
    Ok(judge(alloc, aspect, system, &schedule, view)?)
}

/// How a run ends that has this certificate.
pub(crate) fn certificate_status(certificate: &Certificate) -> Status
    ensures { result ≡ certificate_status certificate.now }
{
    match certificate {
        Certificate::Least { .. } => Status::Done,
        Certificate::Never { .. } => Status::Found,
    }
}

/// The text of the optimum.
fn optimum_answer(alloc: Global, system: &System, view: &View) -> Result<Answer, OutOfMemory>
    ensures { IfOk result (λ answer. IsOptimumAnswer system.now view.now answer.status answer.text) }
{
    let certificate = optimum(alloc, system)?;
    let text = optimum_text(alloc, system, &certificate, view)?;
    let status = certificate_status(&certificate);
    Ok(Answer { status, text })
}

/// The table of the chain of the optimum.
fn chain_answer(alloc: Global, system: &System) -> Result<Answer, OutOfMemory>
    ensures { IfOk result (λ answer. IsChainAnswer system.now answer.status answer.text) }
{
    let certificate = optimum(alloc, system)?;
    let text = optimum_csv(alloc, system, &certificate)?;
    let status = certificate_status(&certificate);
    Ok(Answer { status, text })
}

/// The object of the optimum, as a command answers it.
fn object_answer(
    alloc: Global,
    command: &str,
    system: &System,
    view: &View,
) -> Result<Answer, OutOfMemory>
    ensures { IfOk result (λ answer. IsObjectAnswer command.now system.now view.now answer.status answer.text) }
{
    let certificate = optimum(alloc, system)?;
    let heading = Heading {
        command,
        subject: view.subject.bytes(),
    };
    let text = optimum_json(alloc, &heading, system, &certificate)?;
    let status = certificate_status(&certificate);
    Ok(Answer { status, text })
}

/// How a run ends that has found this at a cycle time.
pub(crate) fn cycle_status(found: &AtCycle) -> Status
    ensures { result ≡ cycle_status found.now }
{
    match found {
        AtCycle::Right { .. } => Status::Done,
        AtCycle::Short { .. } => Status::Found,
    }
}

/// The text of what there is at a cycle time in femtoseconds.
fn cycle_answer(
    alloc: Global,
    system: &System,
    cycle: u32,
    view: &View,
) -> Result<Answer, OutOfMemory>
    ensures { IfOk result (λ answer. IsCycleAnswer system.now cycle view.now answer.status answer.text) }
{
    let found = at_cycle_uncounted(alloc, system, cycle)?;
    let text = cycle_text(alloc, system, cycle, &found, view)?;
    let status = cycle_status(&found);
    Ok(Answer { status, text })
}

/// The table of what there is at a cycle time in femtoseconds.
fn cycle_rows(alloc: Global, system: &System, cycle: u32) -> Result<Answer, OutOfMemory>
    ensures { IfOk result (λ answer. IsCycleRows system.now cycle answer.status answer.text) }
{
    let found = at_cycle_uncounted(alloc, system, cycle)?;
    let text = cycle_csv(alloc, system, &found)?;
    let status = cycle_status(&found);
    Ok(Answer { status, text })
}

/// The object of what there is at a cycle time in femtoseconds.
fn cycle_object(
    alloc: Global,
    system: &System,
    cycle: u32,
    view: &View,
) -> Result<Answer, OutOfMemory>
    ensures { IfOk result (λ answer. IsCycleAsObject system.now cycle view.now answer.status answer.text) }
{
    let found = at_cycle_uncounted(alloc, system, cycle)?;
    let text = cycle_json(alloc, system, cycle, &found, view)?;
    let status = cycle_status(&found);
    Ok(Answer { status, text })
}

/// The text of the least cycle time, or of what there is at another one.
fn optimise_answer(
    alloc: Global,
    aspect: Aspect,
    system: &System,
    view: &View,
) -> Result<Answer, OutOfMemory>
    ensures { IfOk result (λ answer. IsOptimiseAnswer system.now aspect view.now answer.status answer.text) }
{
    match aspect {
        Aspect::Cycle(cycle) => cycle_answer(alloc, system, cycle, view),
        Aspect::Schedule(cycle) => timed_answer(alloc, cycle, system, view),
        Aspect::Rows => chain_answer(alloc, system),
        Aspect::CycleRows(cycle) => cycle_rows(alloc, system, cycle),
        Aspect::Object => object_answer(alloc, "optimise", system, view),
        Aspect::CycleObject(cycle) => cycle_object(alloc, system, cycle, view),
        Aspect::Whole | Aspect::Histogram | Aspect::Clocks | Aspect::Picture | Aspect::Table => {
            optimum_answer(alloc, system, view)
        }
    }
}

/// The report of the optimum, the rows of its chain, or its object.
fn told_report(
    alloc: Global,
    work: &Work<'_, '_>,
    system: &System,
    view: &View,
) -> Result<Answer, OutOfMemory>
    ensures { IfOk result (λ answer. IsToldReport system.now work.now.aspect view.now answer.status answer.text) }
{
    match work.aspect {
        Aspect::Rows => chain_answer(alloc, system),
        Aspect::Object => object_answer(alloc, "report", system, view),
        Aspect::Whole
        | Aspect::Cycle(_)
        | Aspect::CycleRows(_)
        | Aspect::CycleObject(_)
        | Aspect::Histogram
        | Aspect::Schedule(_)
        | Aspect::Clocks
        | Aspect::Picture
        | Aspect::Table => report_answer(alloc, work.netlist, system, view),
    }
}

/// The cycle time of a schedule, in femtoseconds.
pub(crate) fn cycle_of(schedule: &Schedule) -> Fraction
    requires { IsInRange schedule.now }
    ensures value { result ≡ over schedule.now.cycle schedule.now.den }
    ensures modest { IsModest result }
{
    Fraction::new(i128::from(schedule.cycle), i128::from(schedule.den))
}

/// The least cycle time in femtoseconds, 0 where no schedule is right.
fn least_cycle(alloc: Global, system: &System) -> Result<Fraction, OutOfMemory>
    ensures value { IfOk result
        (λ cycle. (least : Certificate) × IsOptimum system.now least × (cycle ≡ least_cycle least)) }
    ensures modest { IfOk result IsModest }
{
    let certificate = optimum(alloc, system)?;
    match &certificate {
        Certificate::Least { schedule, .. } => Ok(cycle_of(schedule)),
        Certificate::Never { .. } => Ok(Fraction::new(0, 1)),
    }
}

/// How a run ends that has this safe certificate.
fn safe_status(certificate: &SafeCertificate) -> Status
    ensures { result ≡ safe_status certificate.now }
{
    match certificate {
        SafeCertificate::Least { .. } => Status::Done,
        SafeCertificate::Never { .. } => Status::Found,
    }
}

/// The text of an optimum that keeps each hold, its table or its object, beside the cycle time without holds.
fn text_of_safe(
    alloc: Global,
    aspect: Aspect,
    system: &System,
    certificate: &SafeCertificate,
    without: &Fraction,
    view: &View,
) -> Result<Bytes, OutOfMemory>
    requires valid { IsSafeValid system.now certificate.now }
    requires in_range { IsSafeInRange certificate.now }
    requires without { IsModest without.now }
    ensures { IfOk result (IsTextOfSafe system.now aspect certificate.now without.now view.now) }
{
    match aspect {
        Aspect::Rows => safe_csv(alloc, system, certificate),
        Aspect::Object => safe_json(alloc, system, certificate, without, view),
        Aspect::Whole
        | Aspect::Cycle(_)
        | Aspect::CycleRows(_)
        | Aspect::CycleObject(_)
        | Aspect::Histogram
        | Aspect::Schedule(_)
        | Aspect::Clocks
        | Aspect::Picture
        | Aspect::Table => safe_text(alloc, system, certificate, without, view),
    }
}

/// The text of the optimum that keeps each hold.
fn safe_answer(
    alloc: Global,
    aspect: Aspect,
    system: &System,
    view: &View,
) -> Result<Answer, OutOfMemory>
    ensures { IfOk result (λ answer. IsSafeAnswer system.now aspect view.now answer.status answer.text) }
{
    let certificate = safe_from::<Brand>(alloc, system, Blank::new(1))?;
    let without = least_cycle(alloc, system)?;
    let text = text_of_safe(alloc, aspect, system, &certificate, &without, view)?;
    let status = safe_status(&certificate);
    Ok(Answer { status, text })
}

/// How a run ends that has these slacks.
fn slack_status(slacks: &Slacks) -> Status
    ensures { result ≡ slack_status slacks.now }
{
    match slacks {
        Slacks::Least { .. } => Status::Done,
        Slacks::Never => Status::Found,
    }
}

/// The text of slacks, a row for each pair, also as a table or an object, or a count of pairs for each bar.
fn text_of_slacks(
    alloc: Global,
    aspect: Aspect,
    system: &System,
    slacks: &Slacks,
    view: &View,
) -> Result<Bytes, OutOfMemory>
    requires { AreOfPairs system.now slacks.now }
    ensures { IfOk result (IsTextOfSlacks system.now aspect view.now slacks.now) }
{
    match aspect {
        Aspect::Histogram => histogram_text(alloc, system, slacks, view),
        Aspect::Rows => slack_csv(alloc, system, slacks),
        Aspect::Object => slack_json(alloc, system, slacks, view),
        Aspect::Whole
        | Aspect::Cycle(_)
        | Aspect::CycleRows(_)
        | Aspect::CycleObject(_)
        | Aspect::Schedule(_)
        | Aspect::Clocks
        | Aspect::Picture
        | Aspect::Table => slack_text(alloc, system, slacks, view),
    }
}

/// The text of the slacks at the least cycle time.
fn slack_answer_within(
    alloc: Global,
    aspect: Aspect,
    system: &System,
    view: &View,
) -> Result<Answer, OutOfMemory>
    requires { element_count system.now.flat ≤ MOST_SLACK }
    ensures { IfOk result (λ answer. IsSlacksAnswer system.now aspect view.now answer.status answer.text) }
{
    let slacks = slacks_from::<Brand>(alloc, system, Blank::new(1))?;
    let text = text_of_slacks(alloc, aspect, system, &slacks, view)?;
    let status = slack_status(&slacks);
    Ok(Answer { status, text })
}

/// The text of the slacks, or the limit of the elements for which slacks are found.
fn slack_answer(
    alloc: Global,
    limits: &Limits,
    aspect: Aspect,
    system: &System,
    view: &View,
) -> Result<Answer, Stop>
    ensures value { (beside : List (List ℕ)) (file : List ℕ) → IfOk result
        (λ answer. IsJobAnswer limits.now Job.Slack aspect beside system.now file view.now answer.status answer.text) }
    ensures stop { (file : List ℕ) → IfErr result
        (StopsAt (IsFileRefused limits.now Job.Slack system.now.flat file)) }
{
    let elements = system.flat().elements().len();
    if elements > limits.most().slack {
        return Err(Stop::Refused(Refusal::Limit {
            kind: Kind::Elements,
            count: elements as u64,
        }));
    }
    Ok(slack_answer_within(alloc, aspect, system, view)?)
}

/// The answer to a job on a system and on the file that stands beside the design's, or why that file is refused.
pub(crate) fn job_text(
    alloc: Global,
    limits: &Limits,
    work: &Work<'_, '_>,
    system: &System,
    file: &[u8],
    view: &View,
) -> Result<Answer, Stop>
    requires short { length file.now ≤ MOST_BYTES }
    ensures value { IfOk result
        (λ answer. IsJobAnswer limits.now work.now.job work.now.aspect work.now.beside.now system.now file.now view.now
        answer.status answer.text) }
    ensures stop { IfErr result (StopsAt (IsFileRefused limits.now work.now.job system.now.flat file.now)) }
{
    match work.job {
        Job::Check => check_answer(alloc, work.aspect, system, file, view),
        Job::Optimise => Ok(optimise_answer(alloc, work.aspect, system, view)?),
        Job::Verify => verify_answer(alloc, limits, work, system, file, view),
        Job::Report => Ok(told_report(alloc, work, system, view)?),
        Job::Safe => Ok(safe_answer(alloc, work.aspect, system, view)?),
        Job::Slack => slack_answer(alloc, limits, work.aspect, system, view),
    }
}
