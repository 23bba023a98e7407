//! What is answered to an order, of the first bytes of its files.
ghost use Rattle.std.specs.Prelude.{◌≡◌, ◌<◌, ◌≤◌, true, length, List, ℕ, None, Some, IfSome, IfOk, IfErr};
ghost use Rattle.mintc_text.specs.Limits.{large};
ghost use Rattle.mintc_timing.specs.Limits.{IsWithinLimits};
ghost use Rattle.mintc_text.specs.Stops.{StopsAt};
ghost use Rattle.mintc_command_answers.specs.Answers.{IsOfCommand};
ghost use Rattle.mintc_command_answers.specs.Commands.{IsNumberInRange, roles_of};
ghost use Rattle.mintc_command_answers.specs.Corners.{IsFirstRefused, corners_of};
ghost use Rattle.mintcx_answers.specs.Answers.{IsOnFiles};
ghost use Rattle.mintcx_answers.specs.Clocks.{job_of};
ghost use Rattle.mintcx_answers.specs.Halts.{HaltsAt};
ghost use Rattle.mintcx_answers.specs.Pictures.{job_of as job_for};
ghost use Rattle.mintcx_answers.specs.Shown.{IsFirstRefusalFor};
ghost use Rattle.mintcx_run.specs.Replies.{AreClocks, IsAnswered, IsCertified, IsForPeople};
ghost use Rattle.mintcx_run.specs.Replies.{IsLone, IsPlain, IsRefused, certified_source};
ghost use Rattle.mintcx_run.specs.Replies.{IsPictured, IsTable, IsToldOf, IsToldPicture, IsToldTable, IsUncertified};
ghost use Rattle.mintcx_run.specs.Replies.{IsUndrawn, has_one_form, is_own, motif_of};

use crate::orders::Order;
use crate::unsaid::{ClockText, clock_among, unsaid_text};
use mintc_command_answers::{Answer, Command, Job, Source, Status, answer_to};
use mintc_text::{Bytes, Limits, OutOfMemory, Stop};
use mintc_timing::Flat;
use mintcx_answers::{
    Clocks, Halt, Motif, Pictured, Question, Sketch, Stated, Statement, Tabled, answer_text,
    certified_text, clocks_text, names_beside, picture_for, subject_of, table_for, titles_of,
};
use mintcx_frame::View;
use mintcx_manners::Format;
use mintcx_picture::Drawn;
use mintcx_translation::{Aspect, Call};
use std::alloc::Global;

/// What is told of an order: a status and a text, whether that is a message, and a certificate that goes to a file.
#[derive(Drop)]
pub(crate) struct Told {
    pub(crate) status: Status,
    pub(crate) text: Bytes,
    pub(crate) is_message: bool,
    pub(crate) certificate: Option<Bytes>,
}

/// An order that is answered for people, and how its answer is shown.
#[derive(Clone, Copy)]
struct Asked<'a> {
    order: &'a Order,
    view: &'a View,
}

/// mintc's own answer to a call.
fn plain_answer(alloc: Global, order: &Order, files: &mut [Bytes]) -> Result<Told, OutOfMemory>
    requires count { length files.old ≡ length (roles_of order.now.call.command) }
    requires in_range { IsNumberInRange order.now.call.command }
    ensures { IfOk result (IsPlain order.now files.old) }
{
    let Answer { status, text } = answer_to(alloc, &Limits::large(), order.call.command, files)?;
    Ok(Told {
        status,
        text,
        is_message: false,
        certificate: None,
    })
}

/// How the answer to a call is shown, which speaks of a design with edges apart or of that of the files.
fn view_of(alloc: Global, order: &Order, apart: bool, files: &[Bytes]) -> Result<View, OutOfMemory>
    requires count { length files.now ≡ length (roles_of order.now.call.command) }
    requires names { length order.now.call.files ≡ length (roles_of order.now.call.command) }
    ensures unit { IfOk result (λ view. view.unit ≡ order.now.manner.unit) }
    ensures limit { IfOk result (λ view. view.limit ≡ order.now.manner.limit) }
    ensures apart { IfOk result (λ view. view.apart ≡ apart) }
{
    let subject = subject_of(alloc, order.call.command, order.call.files.items(), files)?;
    Ok(View {
        subject,
        unit: order.manner.unit,
        limit: order.manner.limit,
        apart,
    })
}

/// The source of the design of an optimum whose certificate goes to a file.
fn certified_source(call: &Call) -> Option<Source>
    ensures value { result ≡ certified_source call.now }
    ensures optimise { IfSome result (λ source. call.now.command ≡ Command.OfDesign Job.Optimise source) }
{
    match (call.command, &call.certificate) {
        (
            Command::OfDesign {
                job: Job::Optimise,
                source,
            },
            Some(_),
        ) => Some(source),
        _ => None,
    }
}

/// The optimum of a design for people, and its certificate.
fn certified_answer(
    alloc: Global,
    source: Source,
    shown: Option<Flat>,
    view: &View,
    files: &mut [Bytes],
) -> Result<Told, Stop>
    requires count { length files.old ≡ length (roles_of (Command.OfDesign Job.Optimise source)) }
    requires within { IfSome shown (IsWithinLimits large) }
    ensures value { IfOk result (IsCertified shown source files.old view.now) }
    ensures of_command { IfOk result (λ told. IsOfCommand told.status) }
    ensures stop { IfErr result
        (StopsAt (IsFirstRefusalFor large shown (Command.OfDesign Job.Optimise source) files.old)) }
{
    let told = certified_text(alloc, &Limits::large(), source, shown, view, files)?;
    Ok(Told {
        status: told.answer.status,
        text: told.answer.text,
        is_message: false,
        certificate: Some(told.certificate),
    })
}

/// The answer to a call for people, with no certificate beside it.
fn lone_answer(
    alloc: Global,
    asked: &Asked<'_>,
    shown: Option<Flat>,
    files: &mut [Bytes],
) -> Result<Told, Halt>
    requires count { length files.old ≡ length (roles_of asked.now.order.now.call.command) }
    requires names { length asked.now.order.now.call.files ≡ length (roles_of asked.now.order.now.call.command) }
    requires in_range { IsNumberInRange asked.now.order.now.call.command }
    requires on_files { IsOnFiles asked.now.order.now.call.command }
    requires within { IfSome shown (IsWithinLimits large) }
    ensures value { IfOk result (IsLone shown asked.now.order.now files.old asked.now.view.now) }
    ensures of_command { IfOk result (λ told. IsOfCommand told.status) }
    ensures halt { IfErr result (HaltsAt (IsFirstRefusalFor large shown asked.now.order.now.call.command files.old)
        (IsFirstRefused large (corners_of files.old) 1)) }
{
    let order = asked.order;
    let beside = names_beside(alloc, order.call.command, order.call.files.items(), files)?;
    let question = Question {
        command: order.call.command,
        aspect: order.call.aspect,
        beside: beside.items(),
    };
    let limits = Limits::large();
    let Answer { status, text } = answer_text(alloc, &limits, &question, shown, asked.view, files)?;
    Ok(Told {
        status,
        text,
        is_message: false,
        certificate: None,
    })
}

/// What is told of the clocks of a schedule, with the clock description that they are of.
fn told_of(
    alloc: Global,
    clocks: Clocks,
    clock: &Option<ClockText>,
    view: &View,
) -> Result<Told, OutOfMemory>
    ensures value { IfOk result (IsToldOf clocks) }
    ensures of_command { IfOk result (λ told. IsOfCommand told.status) }
{
    match clocks {
        Clocks::Said(text) => Ok(Told {
            status: Status::Done,
            text,
            is_message: false,
            certificate: None,
        }),
        Clocks::Denied(text) => Ok(Told {
            status: Status::Found,
            text,
            is_message: false,
            certificate: None,
        }),
        Clocks::Unsaid(obstacle) => Ok(Told {
            status: Status::Found,
            text: unsaid_text(alloc, clock, &obstacle, view)?,
            is_message: true,
            certificate: None,
        }),
    }
}

/// The clocks of a schedule that is stated in the last file.
fn clocks_answer(
    alloc: Global,
    asked: &Asked<'_>,
    stated: Stated,
    source: Source,
    shown: Option<Flat>,
    files: &mut [Bytes],
) -> Result<Told, Stop>
    requires count { length files.old ≡ length (roles_of (Command.OfDesign (job_of stated) source)) }
    requires names { length asked.now.order.now.call.files ≡ length files.old }
    requires within { IfSome shown (IsWithinLimits large) }
    ensures value { IfOk result (AreClocks shown stated source files.old asked.now.view.now) }
    ensures of_command { IfOk result (λ told. IsOfCommand told.status) }
    ensures stop { IfErr result
        (StopsAt (IsFirstRefusalFor large shown (Command.OfDesign (job_of stated) source) files.old)) }
{
    let names = asked.order.call.files.items();
    let titles = titles_of(alloc, source, names, files)?;
    let clock = clock_among(alloc, source, names, files)?;
    let statement = Statement {
        source,
        stated,
        titles: &titles,
        view: asked.view,
    };
    let clocks = clocks_text(alloc, &Limits::large(), &statement, shown, files)?;
    Ok(told_of(alloc, clocks, &clock, asked.view)?)
}

/// A message that nothing is drawn, and why.
fn undrawn(alloc: Global, why: &str) -> Result<Told, OutOfMemory>
    ensures value { IfOk result IsUndrawn }
    ensures of_command { IfOk result (λ told. IsOfCommand told.status) }
{
    let text = format!(in alloc; "error: nothing is drawn: {why}\n")?;
    Ok(Told {
        status: Status::Found,
        text: Bytes::new(text.into_bytes()),
        is_message: true,
        certificate: None,
    })
}

/// What is told where a picture is asked for.
fn told_picture(alloc: Global, pictured: Pictured) -> Result<Told, OutOfMemory>
    ensures value { IfOk result (IsToldPicture pictured) }
    ensures of_command { IfOk result (λ told. IsOfCommand told.status) }
{
    match pictured {
        Pictured::Shown(Drawn::Picture(text)) => Ok(Told {
            status: Status::Done,
            text,
            is_message: false,
            certificate: None,
        }),
        Pictured::Shown(Drawn::NoSchedule) => undrawn(alloc, "no schedule is right"),
        Pictured::Shown(Drawn::NoCycle) => undrawn(alloc, "the least cycle time is 0"),
        Pictured::Shown(Drawn::TooLong) => undrawn(alloc, "the chain takes more than 80 cycles"),
        Pictured::Shown(Drawn::Unsettled) => {
            undrawn(alloc, "data comes later each time round a loop")
        }
        Pictured::Denied(text) => Ok(Told {
            status: Status::Found,
            text,
            is_message: false,
            certificate: None,
        }),
    }
}

/// What is drawn for a job, where there is a picture.
fn motif_of(job: Job) -> Option<Motif>
    ensures value { result ≡ motif_of job }
    ensures same { IfSome result (λ motif. job_for motif ≡ job) }
{
    match job {
        Job::Optimise => Some(Motif::Optimum),
        Job::Verify => Some(Motif::Certificate),
        Job::Check => Some(Motif::Schedule),
        Job::Slack => Some(Motif::Slacks),
        Job::Report | Job::Safe => None,
    }
}

/// A picture of a design and of the file beside it.
fn picture_answer(
    alloc: Global,
    asked: &Asked<'_>,
    motif: Motif,
    source: Source,
    shown: Option<Flat>,
    files: &mut [Bytes],
) -> Result<Told, Stop>
    requires count { length files.old ≡ length (roles_of (Command.OfDesign (job_for motif) source)) }
    requires names { length asked.now.order.now.call.files ≡ length files.old }
    requires within { IfSome shown (IsWithinLimits large) }
    ensures value { IfOk result (IsPictured shown motif source files.old asked.now.view.now) }
    ensures of_command { IfOk result (λ told. IsOfCommand told.status) }
    ensures stop { IfErr result
        (StopsAt (IsFirstRefusalFor large shown (Command.OfDesign (job_for motif) source) files.old)) }
{
    let names = asked.order.call.files.items();
    let command = Command::OfDesign {
        job: motif.job(),
        source,
    };
    let beside = names_beside(alloc, command, names, files)?;
    let sketch = Sketch {
        source,
        motif,
        beside: beside.items(),
    };
    let limits = Limits::large();
    let pictured = picture_for(alloc, &limits, &sketch, shown, asked.view, files)?;
    Ok(told_picture(alloc, pictured)?)
}

/// What is told where a table is asked for.
fn told_table(alloc: Global, tabled: Tabled) -> Result<Told, OutOfMemory>
    ensures value { IfOk result (IsToldTable tabled) }
    ensures of_command { IfOk result (λ told. IsOfCommand told.status) }
{
    match tabled {
        Tabled::Said(text) => Ok(Told {
            status: Status::Done,
            text,
            is_message: false,
            certificate: None,
        }),
        Tabled::Unsaid(obstacle) => {
            let text = format!(in alloc; "error: the design has no table: {obstacle}\n")?;
            Ok(Told {
                status: Status::Found,
                text: Bytes::new(text.into_bytes()),
                is_message: true,
                certificate: None,
            })
        }
    }
}

/// A design as one table.
fn table_answer(
    alloc: Global,
    source: Source,
    shown: Option<Flat>,
    files: &mut [Bytes],
) -> Result<Told, Stop>
    requires count { length files.old ≡ length (roles_of (Command.OfDesign Job.Optimise source)) }
    requires within { IfSome shown (IsWithinLimits large) }
    ensures value { IfOk result (IsTable shown source files.old) }
    ensures of_command { IfOk result (λ told. IsOfCommand told.status) }
    ensures stop { IfErr result
        (StopsAt (IsFirstRefusalFor large shown (Command.OfDesign Job.Optimise source) files.old)) }
{
    let tabled = table_for(alloc, &Limits::large(), source, shown, files)?;
    Ok(told_table(alloc, tabled)?)
}

/// The answer to a call for people, of an optimum without a certificate beside it.
fn uncertified_answer(
    alloc: Global,
    asked: &Asked<'_>,
    shown: Option<Flat>,
    files: &mut [Bytes],
) -> Result<Told, Halt>
    requires count { length files.old ≡ length (roles_of asked.now.order.now.call.command) }
    requires names { length asked.now.order.now.call.files ≡ length (roles_of asked.now.order.now.call.command) }
    requires in_range { IsNumberInRange asked.now.order.now.call.command }
    requires on_files { IsOnFiles asked.now.order.now.call.command }
    requires within { IfSome shown (IsWithinLimits large) }
    ensures value { IfOk result (IsUncertified shown asked.now.order.now files.old asked.now.view.now) }
    ensures of_command { IfOk result (λ told. IsOfCommand told.status) }
    ensures halt { IfErr result (HaltsAt (IsFirstRefusalFor large shown asked.now.order.now.call.command files.old)
        (IsFirstRefused large (corners_of files.old) 1)) }
{
    match (asked.order.call.aspect, asked.order.call.command) {
        (
            Aspect::Clocks,
            Command::OfDesign {
                job: Job::Check,
                source,
            },
        ) => Ok(clocks_answer(alloc, asked, Stated::Schedule, source, shown, files)?),
        (
            Aspect::Clocks,
            Command::OfDesign {
                job: Job::Verify,
                source,
            },
        ) => Ok(clocks_answer(alloc, asked, Stated::Certificate, source, shown, files)?),
        (
            Aspect::Table,
            Command::OfDesign {
                job: Job::Optimise,
                source,
            },
        ) => Ok(table_answer(alloc, source, shown, files)?),
        (Aspect::Picture, Command::OfDesign { job, source }) => match motif_of(job) {
            Some(motif) => Ok(picture_answer(alloc, asked, motif, source, shown, files)?),
            None => lone_answer(alloc, asked, shown, files),
        },
        _ => lone_answer(alloc, asked, shown, files),
    }
}

/// The answer to a call for people.
fn people_answer(
    alloc: Global,
    order: &Order,
    shown: Option<Flat>,
    files: &mut [Bytes],
) -> Result<Told, Halt>
    requires count { length files.old ≡ length (roles_of order.now.call.command) }
    requires names { length order.now.call.files ≡ length (roles_of order.now.call.command) }
    requires in_range { IsNumberInRange order.now.call.command }
    requires on_files { IsOnFiles order.now.call.command }
    requires within { IfSome shown (IsWithinLimits large) }
    ensures value { IfOk result (IsForPeople shown order.now files.old) }
    ensures halt { IfErr result (HaltsAt (IsFirstRefusalFor large shown order.now.call.command files.old)
        (IsFirstRefused large (corners_of files.old) 1)) }
{
    let view = view_of(alloc, order, shown.is_some(), files)?;
    match certified_source(&order.call) {
        Some(source) => Ok(certified_answer(alloc, source, shown, &view, files)?),
        None => {
            let asked = Asked { order, view: &view };
            uncertified_answer(alloc, &asked, shown, files)
        }
    }
}

/// Whether what is told has one form alone.
fn has_one_form(aspect: Aspect) -> bool
    ensures { result ≡ has_one_form aspect }
{
    matches!(
        aspect,
        Aspect::Schedule(_) | Aspect::Clocks | Aspect::Picture | Aspect::Table
    )
}

/// Whether mintc's own answer is asked for.
pub(crate) fn is_own(order: &Order) -> bool
    ensures { result ≡ is_own order.now }
{
    matches!(order.manner.format, Format::Plain) && !has_one_form(order.call.aspect)
}

/// The answer to a call in its form, of the texts that are given; for people it is one of the design at hand, where
/// there is one.
pub(crate) fn answer_of(
    alloc: Global,
    order: &Order,
    shown: Option<Flat>,
    files: &mut [Bytes],
) -> Result<Told, Halt>
    requires count { length files.old ≡ length (roles_of order.now.call.command) }
    requires names { length order.now.call.files ≡ length (roles_of order.now.call.command) }
    requires in_range { IsNumberInRange order.now.call.command }
    requires on_files { IsOnFiles order.now.call.command }
    requires within { IfSome shown (IsWithinLimits large) }
    ensures value { IfOk result (IsAnswered shown order.now files.old) }
    ensures of_command { IfOk result (λ told. IsOfCommand told.status) }
    ensures halt { IfErr result (HaltsAt (IsRefused shown order.now files.old)
        (IsFirstRefused large (corners_of files.old) 1)) }
{
    if is_own(order) {
        Ok(plain_answer(alloc, order, files)?)
    } else {
        people_answer(alloc, order, shown, files)
    }
}
