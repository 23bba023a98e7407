//! How an answer is given.
ghost use Rattle.std.specs.Prelude.{◌≡◌};
ghost use Rattle.mintcx_manners.specs.Manners.{format_of, unit_of, detail_of, color_of, limit_of};

use mintc_decimal::Decimal;

/// The form of an answer.
#[derive(Clone, Copy, Debug, PartialEq, Eq)]
pub enum Format {
    /// For people.
    Text,
    /// The text of `mintc`.
    Plain,
    /// One object of JSON.
    Json,
    /// One table of CSV.
    Csv,
}

/// The unit of the times that are shown.
#[derive(Clone, Copy, Debug, PartialEq, Eq)]
pub enum TimeUnit {
    /// The one that fits the cycle.
    Auto,
    /// Femtoseconds.
    Fs,
    /// Picoseconds.
    Ps,
    /// Nanoseconds.
    Ns,
}

/// How much is said of an error.
#[derive(Clone, Copy, Debug, PartialEq, Eq)]
pub enum Detail {
    /// The place, the line, the cause and the cure.
    Full,
    /// A line each.
    Short,
}

/// When colours are used.
#[derive(Clone, Copy, Debug, PartialEq, Eq)]
pub enum Color {
    /// On a terminal, unless the environment says otherwise.
    Auto,
    Always,
    Never,
}

/// How many rows of a list are shown.
#[derive(Clone, Copy, Debug, PartialEq, Eq)]
pub enum Limit {
    All,
    Rows(u32),
}

impl Format {
    /// The form that a word names, text where it names none.
    pub fn of(word: &[u8]) -> Format
        ensures { result ≡ format_of word.now }
    {
        if word == b"plain".as_slice() {
            Format::Plain
        } else if word == b"json".as_slice() {
            Format::Json
        } else if word == b"csv".as_slice() {
            Format::Csv
        } else {
            Format::Text
        }
    }
}

impl TimeUnit {
    /// The unit that a word names, auto where it names none.
    pub fn of(word: &[u8]) -> TimeUnit
        ensures { result ≡ unit_of word.now }
    {
        if word == b"fs".as_slice() {
            TimeUnit::Fs
        } else if word == b"ps".as_slice() {
            TimeUnit::Ps
        } else if word == b"ns".as_slice() {
            TimeUnit::Ns
        } else {
            TimeUnit::Auto
        }
    }
}

impl Detail {
    /// The detail that a word names, full where it names none.
    pub fn of(word: &[u8]) -> Detail
        ensures { result ≡ detail_of word.now }
    {
        if word == b"short".as_slice() {
            Detail::Short
        } else {
            Detail::Full
        }
    }
}

impl Color {
    /// The colours that a word names, auto where it names none.
    pub fn of(word: &[u8]) -> Color
        ensures { result ≡ color_of word.now }
    {
        if word == b"always".as_slice() {
            Color::Always
        } else if word == b"never".as_slice() {
            Color::Never
        } else {
            Color::Auto
        }
    }
}

impl Limit {
    /// The limit that a word names: `all`, or a whole number up to 10^9.
    pub fn of(word: &[u8]) -> Option<Limit>
        ensures { result ≡ limit_of word.now }
    {
        if word == b"all".as_slice() {
            return Some(Limit::All);
        }
        let number = Decimal::read(word)?;
        if !number.negative && number.places == 0 && number.digits <= 1_000_000_000 {
            Some(Limit::Rows(number.digits as u32))
        } else {
            None
        }
    }
}
