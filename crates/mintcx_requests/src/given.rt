//! What the words of a run give, before the project file is read.

use crate::commands::Asked;
use mintc_text::Name;
use mintcx_manners::{Color, Detail, Format, TimeUnit};
use mintcx_project::Sources;

/// How the answer is to be given, by the words alone.
#[derive(Debug, Drop)]
pub struct MannerWords {
    pub format: Format,
    /// The unit, where the words name one.
    pub unit: Option<TimeUnit>,
    /// The text of the limit.
    pub limit: Option<Name>,
    pub output: Option<Name>,
    pub quiet: bool,
    pub detail: Detail,
    pub color: Color,
}

/// What a command alone is told.
#[derive(Debug, Drop)]
pub struct Particulars {
    /// The file that the command is about, or what is to be explained.
    pub subject: Option<Name>,
    /// Where a certificate is written.
    pub certificate: Option<Name>,
    /// The text of the cycle time.
    pub cycle: Option<Name>,
    /// Whether the slacks are counted, or drawn as counts.
    pub histogram: bool,
}

/// What the words of a run give, before the project file is read.
#[derive(Debug, Drop)]
pub struct Given {
    pub asked: Asked,
    pub particulars: Particulars,
    /// The project file that is named.
    pub project: Option<Name>,
    pub sources: Sources,
    /// Whether 0 is taken for each delay below 0.
    pub clamp: bool,
    pub manner: MannerWords,
}
