//! The commands.
ghost use Rattle.std.specs.Prelude.{◌≡◌};
ghost use Rattle.mintcx_requests.specs.Commands.{word_of, has_table, has_rows};

/// What is asked.
#[derive(Clone, Copy, Debug, PartialEq, Eq)]
pub enum Asked {
    /// To judge a schedule.
    Check,
    /// For the least cycle time, with a schedule and the chain that decides.
    Optimise,
    /// To judge a certificate.
    Verify,
    /// For the optimum gate by gate.
    Report,
    /// For the least cycle time at which each hold is kept too.
    Safe,
    /// For how much each pair's delay may grow.
    Slack,
    /// For one schedule that is right with several delay files.
    Corners,
    /// For the text of a schedule.
    Schedule,
    /// For the clocks of a schedule as SDC.
    Sdc,
    /// For a drawing.
    Draw,
    /// For the design as one table.
    Table,
    /// For a refusal at length.
    Explain,
}

/// The commands, in the order of the help.
pub const COMMANDS: [Asked; 12] = [
    Asked::Check,
    Asked::Optimise,
    Asked::Verify,
    Asked::Report,
    Asked::Safe,
    Asked::Slack,
    Asked::Corners,
    Asked::Schedule,
    Asked::Sdc,
    Asked::Draw,
    Asked::Table,
    Asked::Explain,
];

impl Asked {
    /// The command's word.
    pub fn word(self) -> &'static str
        ensures { result.now ≡ word_of self }
    {
        match self {
            Asked::Check => "check",
            Asked::Optimise => "optimise",
            Asked::Verify => "verify",
            Asked::Report => "report",
            Asked::Safe => "safe",
            Asked::Slack => "slack",
            Asked::Corners => "corners",
            Asked::Schedule => "schedule",
            Asked::Sdc => "sdc",
            Asked::Draw => "draw",
            Asked::Table => "table",
            Asked::Explain => "explain",
        }
    }

    /// Whether the command takes one delay file, and so a table in place of the files.
    pub fn has_table(self) -> bool
        ensures { result ≡ has_table self }
    {
        !matches!(self, Asked::Corners)
    }

    /// Whether the answer has rows that a limit may cut.
    pub fn has_rows(self) -> bool
        ensures { result ≡ has_rows self }
    {
        matches!(
            self,
            Asked::Check
                | Asked::Optimise
                | Asked::Report
                | Asked::Safe
                | Asked::Slack
                | Asked::Corners
        )
    }
}
