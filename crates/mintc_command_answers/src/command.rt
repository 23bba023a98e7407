//! Which words are a command, and which one.
ghost use Rattle.std.specs.Prelude.{◌≡◌, ◌≢◌, ◌<◌, ◌+◌, ◌^◌, ◌∷◌, [], ℕ, MatchOption, decimal, drop, length};
ghost use Rattle.mintc_command_answers.specs.declared.command.Command.{Command};
ghost use Rattle.mintc_command_answers.specs.declared.command.Job.{Job};
ghost use Rattle.mintc_command_answers.specs.Commands.{bytes_of, job_word, source_word, roles_of, words_of, AreWordsOf};
ghost use Rattle.mintc_command_answers.specs.Commands.{IsCommand, IsNumberInRange};
ghost use Rattle.mintc_command_answers.specs.Contents.{content_roles};

use mintc_text::Role;

/// What is asked of a design.
#[derive(Clone, Copy, Debug, PartialEq, Eq)]
pub enum Job {
    /// To judge a schedule, whose file stands after those of the design.
    Check,
    /// For the least cycle time, as a certificate.
    Optimise,
    /// To judge a certificate, whose file stands after those of the design.
    Verify,
    /// For the least cycle time and what is critical, to be read.
    Report,
    /// For the least cycle time that keeps every hold, as a certificate.
    Safe,
    /// For how much the delay of each pair may grow at the least cycle time.
    Slack,
}

/// What a design is read from.
#[derive(Clone, Copy, Debug, PartialEq, Eq)]
pub enum Source {
    /// One file, a table.
    Table,
    /// Four files: a netlist, delays, cells and a clock.
    Files,
    /// Four files: a netlist, delays, a Liberty library, which has the cells, and a clock.
    Liberty,
}

/// A command, without the names of its files.
#[derive(Clone, Copy, Debug, PartialEq, Eq)]
pub enum Command {
    /// Something is asked of one design.
    OfDesign { job: Job, source: Source },
    /// For a summary of the sample of a number, a large design that needs no file.
    Sample { number: u64 },
    /// For the least cycle time of one schedule for so many delay files, from 2 to 4.
    Corners { count: u32 },
}

impl Command {
    /// How many words it begins with, before the names of its files.
    pub fn word_count(&self) -> usize
        ensures { result ≡ length (words_of self.now) }
    {
        match self {
            Command::OfDesign { .. } | Command::Sample { .. } => 2,
            Command::Corners { .. } => 1,
        }
    }

    /// What each of its files holds, in the order of the words.
    pub fn roles(&self) -> &'static [Role]
        requires { IsNumberInRange self.now }
        ensures { result.now ≡ roles_of self.now }
    {
        match *self {
            Command::OfDesign { job, source } => design_roles(job, source),
            Command::Sample { .. } => &[],
            Command::Corners { count } => corners_roles(count),
        }
    }

    /// What each of the texts holds that it works on: those of its files, or of its sample.
    pub fn content_roles(&self) -> &'static [Role]
        requires { IsNumberInRange self.now }
        ensures { result.now ≡ content_roles self.now }
    {
        match *self {
            Command::OfDesign { job, source } => design_roles(job, source),
            Command::Sample { .. } => files_roles(Job::Optimise),
            Command::Corners { count } => corners_roles(count),
        }
    }
}

/// What the files of a design hold, and the file beside them.
fn design_roles(job: Job, source: Source) -> &'static [Role]
    ensures { result.now ≡ roles_of (Command.OfDesign job source) }
{
    match source {
        Source::Table => table_roles(job),
        Source::Files | Source::Liberty => files_roles(job),
    }
}

/// What the files of a table's command hold.
fn table_roles(job: Job) -> &'static [Role]
    ensures { result.now ≡ roles_of (Command.OfDesign job Source.Table) }
{
    match job {
        Job::Check => &[Role::Table, Role::Schedule],
        Job::Verify => &[Role::Table, Role::Certificate],
        Job::Optimise | Job::Report | Job::Safe | Job::Slack => &[Role::Table],
    }
}

/// What the files of a netlist's command hold.
fn files_roles(job: Job) -> &'static [Role]
    ensures { result.now ≡ roles_of (Command.OfDesign job Source.Files) }
{
    match job {
        Job::Check => &[
            Role::Netlist,
            Role::Delays,
            Role::Cells,
            Role::Clock,
            Role::Schedule,
        ],
        Job::Verify => &[
            Role::Netlist,
            Role::Delays,
            Role::Cells,
            Role::Clock,
            Role::Certificate,
        ],
        Job::Optimise | Job::Report | Job::Safe | Job::Slack => {
            &[Role::Netlist, Role::Delays, Role::Cells, Role::Clock]
        }
    }
}

/// What the files of `corners` with so many delay files hold.
fn corners_roles(count: u32) -> &'static [Role]
    requires { IsNumberInRange (Command.Corners count) }
    ensures { result.now ≡ roles_of (Command.Corners count) }
{
    match count {
        2 => &[
            Role::Netlist,
            Role::Cells,
            Role::Clock,
            Role::Delays,
            Role::Delays,
        ],
        3 => &[
            Role::Netlist,
            Role::Cells,
            Role::Clock,
            Role::Delays,
            Role::Delays,
            Role::Delays,
        ],
        _ => &[
            Role::Netlist,
            Role::Cells,
            Role::Clock,
            Role::Delays,
            Role::Delays,
            Role::Delays,
            Role::Delays,
        ],
    }
}

/// The job that a word asks for.
fn job_of(word: &str) -> Option<Job>
    ensures { MatchOption result ((job : Job) → word.now ≢ job_word job) (λ job. word.now ≡ job_word job) }
{
    match word {
        "check" => Some(Job::Check),
        "optimise" => Some(Job::Optimise),
        "verify" => Some(Job::Verify),
        "report" => Some(Job::Report),
        "safe" => Some(Job::Safe),
        "slack" => Some(Job::Slack),
        _ => None,
    }
}

/// The source that a word names.
fn source_of(word: &str) -> Option<Source>
    ensures { MatchOption result ((source : Source) →
        word.now ≢ source_word source) (λ source. word.now ≡ source_word source) }
{
    match word {
        "table" => Some(Source::Table),
        "files" => Some(Source::Files),
        "liberty" => Some(Source::Liberty),
        _ => None,
    }
}

/// The number that a canonical numeral writes, from 0 to 18446744073709551615.
fn sample_number(word: &str) -> Option<u64>
    ensures { MatchOption result ((n : ℕ) → n < 2 ^ 64 → word.now ≢ decimal n) (λ n. word.now ≡ decimal n) }
{
    let bytes = word.as_bytes();
    if bytes.is_empty() || bytes[0] == b'+' || (bytes[0] == b'0' && bytes.len() > 1) {
        return None;
    }
    match word.parse::<u64>() {
        Ok(number) => Some(number),
        Err(_) => None,
    }
}

/// How many delay files `corners` has as the first of so many words: the others are the netlist, the cells, the
/// clock and from 2 to 4 delay files.
fn delay_count(words: usize) -> Option<u32>
    ensures { MatchOption result ((count : ℕ) → IsNumberInRange (Command.Corners count) → words ≢ count + 4)
        (λ count. IsNumberInRange (Command.Corners count) × (words ≡ count + 4)) }
{
    if 6 <= words && words <= 8 {
        Some((words - 4) as u32)
    } else {
        None
    }
}

/// The command that begins with two words.
fn command_by(first: &str, second: &str) -> Option<Command>
    ensures { MatchOption result ((command : Command) → IsNumberInRange command →
        first.now ∷ second.now ∷ [] ≢ words_of command)
        (λ command. (first.now ∷ second.now ∷ [] ≡ words_of command) × IsNumberInRange command) }
{
    if first == "sample" {
        let number = sample_number(second)?;
        return Some(Command::Sample { number });
    }
    let job = job_of(first)?;
    let source = source_of(second)?;
    Some(Command::OfDesign { job, source })
}

/// The command that the words are. The names of its files are the words after those that it begins with.
pub fn command_of(words: &[String]) -> Option<Command>
    ensures { MatchOption result (IsCommand (bytes_of words.now) → ⊥)
        (λ command. AreWordsOf command (bytes_of (drop (length (words_of command)) words.now)) (bytes_of words.now)) }
{
    if words.len() < 2 {
        return None;
    }
    let first = words[0].as_str();
    if first == "corners" {
        let count = delay_count(words.len())?;
        return Some(Command::Corners { count });
    }
    let command = command_by(first, words[1].as_str())?;
    if words.len() - 2 == command.roles().len() {
        Some(command)
    } else {
        None
    }
}
