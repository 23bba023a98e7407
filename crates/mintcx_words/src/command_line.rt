//! The command line, as clap takes it.
ghost use Rattle.std.specs.Prelude.{◌≡◌, ◌∷◌, [], true, false, codes, map, string_bytes, IfOk};
ghost use Rattle.clap.specs.Words.{app_of, rule_of};
ghost use Rattle.clap.specs.declared.builder.command.Command.TheViews.{out-Command};
ghost use Rattle.mintcx_words.specs.CommandLine.{option_rule, flag_rule, choice_rule, subject_rule, delays_rule};
ghost use Rattle.mintcx_words.specs.CommandLine.{front_rules, back_rules, form_rules, limit_rules, output_rules};
ghost use Rattle.mintcx_words.specs.CommandLine.{word_rule};
ghost use Rattle.mintcx_words.specs.CommandLine.{own_rules, bare, with_rules, with_design, with_answer, common};
ghost use Rattle.mintcx_words.specs.CommandLine.{command_of, bare_program, with_command, program_of, HasWords};
ghost use Rattle.mintcx_words.specs.Lines.{AreLocal, AreRules, IsCommandLine, IsParse};

use clap::{Arg, ArgAction, ArgMatches, Command, Error};
use mintcx_requests::{Asked, COMMANDS};
use std::alloc::{AllocError, Global};

/// The words that some options take.
#[derive(Clone, Copy)]
pub(crate) struct Choices<'a> {
    pub(crate) formats: &'a [&'a str],
    pub(crate) units: &'a [&'a str],
    pub(crate) edges: &'a [&'a str],
    pub(crate) errors: &'a [&'a str],
    pub(crate) colors: &'a [&'a str],
}

/// What stands below the help of the program.
const AFTER_HELP: &str =
    "A design is four files or one table, named by options or once in mintc.toml:

  [design]
  netlist = \"netlist.v\"
  sdf = \"delays.sdf\"
  lib = \"cells.lib\"       # or: cells = \"cells.toml\"
  clock = \"clock.toml\"
  edges = \"apart\"         # or: edges = \"merged\", as with cells where it isn't there

Status:
  0  an answer
  1  an answer, and something is wrong: a violation, no right schedule, no valid certificate
  2  an input is refused
  3  the words are no command
  4  a file can't be read
  5  the answer can't be written
  6  memory was wanting
  7  the words can't be read";

/// What help says of the program.
const ABOUT: &str =
    "How fast may this circuit be clocked? Least cycle times of latches, flops and multiphase clocks, \
    proved";

/// The words that some options take.
pub(crate) fn make_choices<'a>() -> Choices<'a>
    ensures { HasWords result }
{
    Choices {
        formats: &["text", "plain", "json", "csv"],
        units: &["auto", "fs", "ps", "ns"],
        edges: &["merged", "apart"],
        errors: &["full", "short"],
        colors: &["auto", "always", "never"],
    }
}

/// An option with one value.
fn option<'a>(alloc: Global, name: &'a str, value: &'a str, help: &'a str) -> Arg<'a>
    ensures rule { rule_of result ≡ option_rule name.entry.now }
    ensures local { result.global ≡ false }
{
    Arg::new(alloc, name)
        .long(name)
        .value_name(value)
        .help(help)
}

/// An option that names a part of the design.
fn part<'a>(alloc: Global, name: &'a str, value: &'a str, help: &'a str) -> Arg<'a>
    ensures rule { rule_of result ≡ option_rule name.entry.now }
    ensures local { result.global ≡ false }
{
    option(alloc, name, value, help).help_heading("Design")
}

/// An option that says how the answer is given.
fn manner<'a>(alloc: Global, name: &'a str, value: &'a str, help: &'a str) -> Arg<'a>
    ensures rule { rule_of result ≡ option_rule name.entry.now }
    ensures local { result.global ≡ false }
{
    option(alloc, name, value, help).help_heading("Answer")
}

/// An option that takes one of some words.
fn choice<'a>(
    alloc: Global,
    name: &'a str,
    value: &'a str,
    words: &'a [&'a str],
    default: &'a str,
    help: &'a str,
) -> Arg<'a>
    ensures rule { rule_of result ≡ choice_rule name.entry.now default.entry.now words.entry }
    ensures local { result.global ≡ false }
{
    manner(alloc, name, value, help)
        .default_value(default)
        .value_parser(words)
}

/// A flag.
fn flag<'a>(alloc: Global, name: &'a str, help: &'a str) -> Arg<'a>
    ensures rule { rule_of result ≡ flag_rule name.entry.now }
    ensures local { result.global ≡ false }
{
    Arg::new(alloc, name)
        .long(name)
        .action(ArgAction::SetTrue)
        .help(help)
}

/// What a command is about.
fn subject<'a>(alloc: Global, value: &'a str, required: bool, help: &'a str) -> Arg<'a>
    ensures rule { rule_of result ≡ subject_rule required }
    ensures local { result.global ≡ false }
{
    Arg::new(alloc, "subject")
        .value_name(value)
        .required(required)
        .help(help)
}

/// The option of the delays.
fn delays<'a>(alloc: Global, asked: Asked) -> Arg<'a>
    ensures rule { rule_of result ≡ delays_rule asked }
    ensures local { result.global ≡ false }
{
    if asked.has_table() {
        part(alloc, "sdf", "FILE", "Delays, in SDF")
    } else {
        part(
            alloc,
            "sdf",
            "FILE",
            "Delays, in SDF: two to four times, one for each corner",
        )
        .action(ArgAction::Append)
    }
}

/// The options that name a design, but for the last.
fn front_args<'a>(alloc: Global, asked: Asked) -> Result<Vec<Arg<'a>>, AllocError>
    ensures { IfOk result (λ v. AreRules (front_rules asked) v.items) }
{
    let project = part(
        alloc,
        "project",
        "FILE",
        "Names the files below once [default: mintc.toml, where there is one]",
    )
    .short('p');
    let netlist = part(alloc, "netlist", "FILE", "Structural Verilog");
    let cells = part(alloc, "cells", "FILE", "What the cells do, in TOML");
    let library = part(alloc, "lib", "FILE", "The same from a Liberty library");
    let clock_cell = part(
        alloc,
        "clock-cell",
        "CELL",
        "With --lib: this gate of one input and one output carries the clock alone",
    )
    .action(ArgAction::Append);
    let clock = part(
        alloc,
        "clock",
        "FILE",
        "Phases, bounds and listed ports, in TOML",
    );
    Ok(vec![in alloc;
        project,
        netlist,
        delays(alloc, asked),
        cells,
        library,
        clock_cell,
        clock,
    ]?)
}

/// The option of edges, which says nothing where it isn't given.
fn edge_choice<'a>(alloc: Global, words: &'a [&'a str], asked: Asked) -> Arg<'a>
    ensures rule { rule_of result ≡ word_rule (codes "edges") words.entry }
    ensures local { result.global ≡ false }
{
    let help = if asked.has_table() {
        "apart takes rising and falling delays each by itself: a cycle never longer \
        [default: apart with --lib, merged with --cells]"
    } else {
        "merged alone: corners are taken without edges apart"
    };
    part(alloc, "edges", "WORD", help).value_parser(words)
}

/// The last options that name a design.
fn back_args<'a>(
    alloc: Global,
    words: Choices<'a>,
    asked: Asked,
) -> Result<Vec<Arg<'a>>, AllocError>
    ensures { IfOk result (λ v. AreRules (back_rules words.entry asked) v.items) }
{
    let edges = edge_choice(alloc, words.edges, asked);
    let clamp = flag(
        alloc,
        "clamp-negative",
        "Take 0 for each delay below 0, and warn: safe for setups, not for holds",
    )
    .help_heading("Design");
    if asked.has_table() {
        let table = part(
            alloc,
            "table",
            "FILE",
            "One table in place of the four files",
        );
        Ok(vec![in alloc; table, edges, clamp]?)
    } else {
        Ok(vec![in alloc; edges, clamp]?)
    }
}

/// The options of the answer's form and unit.
fn form_args<'a>(alloc: Global, words: Choices<'a>) -> Result<Vec<Arg<'a>>, AllocError>
    ensures { IfOk result (λ v. AreRules (form_rules words.entry) v.items) }
{
    let format = choice(
        alloc,
        "format",
        "FORM",
        words.formats,
        "text",
        "plain is mintc's own text",
    );
    let unit = choice(
        alloc,
        "unit",
        "UNIT",
        words.units,
        "auto",
        "Of the times that are shown",
    );
    Ok(vec![in alloc; format, unit]?)
}

/// The option of the answer's rows, where it has some.
fn limit_args<'a>(alloc: Global, asked: Asked) -> Result<Vec<Arg<'a>>, AllocError>
    ensures { IfOk result (λ v. AreRules (limit_rules asked) v.items) }
{
    if asked.has_rows() {
        let limit = manner(alloc, "limit", "N", "Rows of a list, or all").default_value("10");
        Ok(vec![in alloc; limit]?)
    } else {
        Ok(Vec::new(alloc))
    }
}

/// The other options of the answer.
fn output_args<'a>(alloc: Global, words: Choices<'a>) -> Result<Vec<Arg<'a>>, AllocError>
    ensures { IfOk result (λ v. AreRules (output_rules words.entry) v.items) }
{
    let output = manner(
        alloc,
        "output",
        "FILE",
        "Write the answer here, once it is whole",
    )
    .short('o');
    let quiet = flag(alloc, "quiet", "Write no answer: the status says it")
        .short('q')
        .help_heading("Answer");
    let errors = choice(
        alloc,
        "errors",
        "FORM",
        words.errors,
        "full",
        "short is a line each, as FILE:LINE:COLUMN: error[N]: ..",
    );
    let color = choice(
        alloc,
        "color",
        "WHEN",
        words.colors,
        "auto",
        "auto: on a terminal, unless NO_COLOR is set",
    );
    Ok(vec![in alloc; output, quiet, errors, color]?)
}

/// The subject of a command that has one, its name, and whether it is required.
fn lone_subject<'a>(
    alloc: Global,
    value: &'a str,
    help: &'a str,
) -> Result<Vec<Arg<'a>>, AllocError>
    ensures { IfOk result (λ v. AreRules (subject_rule true ∷ []) v.items) }
{
    Ok(vec![in alloc; subject(alloc, value, true, help)]?)
}

/// The arguments of `optimise` alone.
fn optimise_args<'a>(alloc: Global) -> Result<Vec<Arg<'a>>, AllocError>
    ensures { IfOk result (λ v. AreRules (own_rules Asked.Optimise) v.items) }
{
    let certificate = option(
        alloc,
        "certificate",
        "FILE",
        "Write the certificate here, for `mintcx verify`",
    );
    let cycle = option(
        alloc,
        "cycle",
        "TIME",
        "Not the least: the earliest schedule of this cycle time, as 1400ps, or what forbids it",
    );
    Ok(vec![in alloc; certificate, cycle]?)
}

/// The arguments of `slack` alone.
fn slack_args<'a>(alloc: Global) -> Result<Vec<Arg<'a>>, AllocError>
    ensures { IfOk result (λ v. AreRules (own_rules Asked.Slack) v.items) }
{
    let histogram = flag(alloc, "histogram", "Count the pairs by their slack");
    Ok(vec![in alloc; histogram]?)
}

/// The arguments of `schedule` alone.
fn schedule_args<'a>(alloc: Global) -> Result<Vec<Arg<'a>>, AllocError>
    ensures { IfOk result (λ v. AreRules (own_rules Asked.Schedule) v.items) }
{
    let certificate = subject(
        alloc,
        "CERTIFICATE",
        false,
        "A certificate; without one the least cycle time is found",
    );
    let cycle = option(alloc, "cycle", "TIME", "Of this cycle time, as 1400ps");
    Ok(vec![in alloc; certificate, cycle]?)
}

/// The arguments of `draw` alone.
fn draw_args<'a>(alloc: Global) -> Result<Vec<Arg<'a>>, AllocError>
    ensures { IfOk result (λ v. AreRules (own_rules Asked.Draw) v.items) }
{
    let file = subject(
        alloc,
        "FILE",
        false,
        "A certificate or a schedule; without one the least cycle time is found",
    );
    let slack = flag(
        alloc,
        "histogram",
        "Draw the slacks of all pairs instead, as a histogram",
    )
    .long("slack");
    Ok(vec![in alloc; file, slack]?)
}

/// The arguments of a command alone.
fn own_args<'a>(alloc: Global, asked: Asked) -> Result<Vec<Arg<'a>>, AllocError>
    ensures { IfOk result (λ v. AreRules (own_rules asked) v.items) }
{
    match asked {
        Asked::Check => lone_subject(
            alloc,
            "SCHEDULE",
            "The schedule, as `mintcx schedule` writes it",
        ),
        Asked::Optimise => optimise_args(alloc),
        Asked::Verify => lone_subject(
            alloc,
            "CERTIFICATE",
            "The certificate, as `optimise --certificate` writes it",
        ),
        Asked::Slack => slack_args(alloc),
        Asked::Schedule => schedule_args(alloc),
        Asked::Sdc => lone_subject(alloc, "SCHEDULE", "A schedule or a certificate"),
        Asked::Draw => draw_args(alloc),
        Asked::Explain => lone_subject(alloc, "NUMBER", "The number in `error[NUMBER]`"),
        Asked::Report | Asked::Safe | Asked::Corners | Asked::Table => Ok(Vec::new(alloc)),
    }
}

/// A command with some more arguments.
fn with_args<'a>(command: Command<'a>, more: Vec<Arg<'a>>) -> Result<Command<'a>, AllocError>
    requires command { (out-Command command).has_globals ≡ false }
    requires args { AreLocal more.items }
    ensures { IfOk result (IsCommandLine (with_rules (app_of command.entry) (map rule_of more.entry.items))) }
{
    let longer = command.args(more)?;
    Ok(longer)
}

/// What help says of the command.
fn about(asked: Asked) -> &'static str {
    match asked {
        Asked::Check => "Judge a clock schedule: what it breaks, by how much and why",
        Asked::Optimise => {
            "Find the least cycle time, with a schedule and the chain that decides"
        }
        Asked::Verify => "Judge a certificate, by none of the code that finds one",
        Asked::Report => "Show the optimum gate by gate, and which latches borrow",
        Asked::Safe => "Find the least cycle time at which each hold is kept too",
        Asked::Slack => "Show how much each pair's delay may grow at the least cycle time",
        Asked::Corners => "Find one schedule that is right with two to four delay files",
        Asked::Schedule => {
            "Write a schedule for `check`: that of a certificate, or the earliest of a cycle time"
        }
        Asked::Sdc => "Write the clocks of a schedule as SDC, and when data comes to ports",
        Asked::Draw => {
            "Draw the schedule with the chain that decides, or how a schedule of yours fares, as SVG"
        }
        Asked::Table => "Write the design as one table, which mintc reads",
        Asked::Explain => "Explain a refusal at length",
    }
}

/// A command before its arguments.
fn bare<'a>(alloc: Global, asked: Asked) -> Result<Command<'a>, AllocError>
    ensures { IfOk result (IsCommandLine (bare asked)) }
{
    let name: &'a str = asked.word();
    let about: &'a str = about(asked);
    let command = Command::new(alloc, name).about(about);
    match asked {
        Asked::Optimise => command.visible_alias("optimize"),
        _ => Ok(command),
    }
}

/// A command with the options of a design.
fn with_design<'a>(
    alloc: Global,
    command: Command<'a>,
    words: Choices<'a>,
    asked: Asked,
) -> Result<Command<'a>, AllocError>
    requires { (out-Command command).has_globals ≡ false }
    ensures { IfOk result (IsCommandLine (with_design words.entry (app_of command.entry) asked)) }
{
    let command = with_args(command, front_args(alloc, asked)?)?;
    with_args(command, back_args(alloc, words, asked)?)
}

/// A command with the options of an answer.
fn with_answer<'a>(
    alloc: Global,
    command: Command<'a>,
    words: Choices<'a>,
    asked: Asked,
) -> Result<Command<'a>, AllocError>
    requires { (out-Command command).has_globals ≡ false }
    ensures { IfOk result (IsCommandLine (with_answer words.entry (app_of command.entry) asked)) }
{
    let command = with_args(command, form_args(alloc, words)?)?;
    let command = with_args(command, limit_args(alloc, asked)?)?;
    with_args(command, output_args(alloc, words)?)
}

/// A command with the options that most have.
fn common<'a>(alloc: Global, words: Choices<'a>, asked: Asked) -> Result<Command<'a>, AllocError>
    ensures { IfOk result (IsCommandLine (common words.entry asked)) }
{
    let command = bare(alloc, asked)?;
    match asked {
        Asked::Explain => Ok(command),
        _ => {
            let command = with_design(alloc, command, words, asked)?;
            with_answer(alloc, command, words, asked)
        }
    }
}

/// One of the commands.
fn command_of<'a>(
    alloc: Global,
    words: Choices<'a>,
    asked: Asked,
) -> Result<Command<'a>, AllocError>
    ensures { IfOk result (IsCommandLine (command_of words.entry asked)) }
{
    let command = common(alloc, words, asked)?;
    with_args(command, own_args(alloc, asked)?)
}

/// The program before its commands.
fn bare_program<'a>(alloc: Global) -> Result<Command<'a>, AllocError>
    ensures { IfOk result (IsCommandLine bare_program) }
{
    let command = Command::new(alloc, "mintcx")
        .bin_name("mintcx")?
        .version("0.1.0")
        .about(ABOUT)
        .subcommand_required(true)
        .arg_required_else_help(true)
        .after_help(AFTER_HELP);
    Ok(command)
}

/// A program with one more command.
fn with_command<'a>(
    alloc: Global,
    program: Command<'a>,
    words: Choices<'a>,
    asked: Asked,
) -> Result<Command<'a>, AllocError>
    requires { (out-Command program).has_globals ≡ false }
    ensures { IfOk result (IsCommandLine (with_command words.entry (app_of program.entry) asked)) }
{
    let command = command_of(alloc, words, asked)?;
    let larger = program.subcommand(command)?;
    Ok(larger)
}

/// The program.
fn program<'a>(alloc: Global, words: Choices<'a>) -> Result<Command<'a>, AllocError>
    ensures { IfOk result (IsCommandLine (program_of words.entry)) }
{
    let mut command = bare_program(alloc)?;
    for asked in COMMANDS {
        command = with_command(alloc, command, words, asked)?;
    }
    Ok(command)
}

/// The matches of a run's words, of which the first is the program's own name.
pub(crate) fn parse<'a>(
    alloc: Global,
    choices: Choices<'a>,
    words: &'a [String],
) -> Result<ArgMatches<'a>, Error>
    ensures { IsParse (program_of choices.entry) (map string_bytes words.entry.now) result }
{
    let command = program(alloc, choices)?;
    command.try_get_matches_from(words)
}
