//! What finders find.
ghost use Rattle.std.specs.Prelude.{◌≡◌, IfSome};
ghost use Rattle.mintcx_finders.specs.Places.{IsInside, IsRange, bare, part};

use crate::clocks::Item;
use crate::enables::Unclocked;
use crate::header::Header;
use crate::library::Lack;
use crate::ways::LongWay;
use mintcx_places::Range;

/// What names stand for.
#[derive(Clone, Copy, Debug, PartialEq, Eq)]
pub enum Class {
    Module,
    Port,
    Net,
    Instance,
}

/// How a module has itself inside.
#[derive(Clone, Copy, Debug, PartialEq, Eq)]
pub enum Way {
    /// It has an instance of itself.
    Straight,
    /// It has an instance of a module that has one of it.
    Through,
    /// It takes more modules.
    Far,
}

/// How many places of one kind are found at most.
pub const MOST_PLACES: usize = 8;

/// Places of one kind, in their order.
pub type Places = [Option<Range>; MOST_PLACES];

/// A number of the delays as people read it, in femtoseconds.
#[derive(Clone, Copy, Debug, PartialEq, Eq)]
pub struct Number {
    /// Whether a minus stands before it.
    pub is_negative: bool,
    /// What stands behind that. None where it is no whole number, or a very large one.
    pub femtoseconds: Option<u64>,
}

/// What is wrong with an item of a description.
#[derive(Clone, Copy, Debug)]
pub enum Wrong {
    /// The item is, by itself.
    Whole,
    /// It doesn't have this key.
    Missing { key: &'static [u8] },
    /// It has a key that such items don't have.
    Extra,
    /// The value of a key is no whole number.
    NoWhole { key: Range },
    /// A name of a phase that none of these is.
    NoPhase { phases: Places },
}

/// What is at fault. Each range is one of the same text.
#[derive(Clone, Copy, Debug)]
pub enum Fault {
    /// The word is, by itself.
    Word,
    /// A field that is no whole number.
    NoNumber,
    /// Two fields: a least number above its greatest.
    Above {
        least: Range,
        greatest: Range,
    },
    /// A name that was given before, to another thing of its class.
    Again {
        class: Class,
        earlier: Range,
    },
    /// The cell of an instance of a module, whose name stands there.
    Cell {
        module: Range,
    },
    /// The same, where the cell is or holds that module.
    Ring {
        module: Range,
        way: Way,
    },
    /// A name that is driven, and was before.
    Driven {
        earlier: Range,
    },
    /// The names of modules that may be the top, the one found first.
    Tops {
        modules: Places,
    },
    /// The lines of arcs, the one found first.
    Arcs {
        arcs: Places,
    },
    /// The enable or clock pin of a latch or flop that is on no phase.
    Unclocked {
        unclocked: Unclocked,
    },
    /// A path that takes too long.
    Long {
        way: LongWay,
    },
    /// A port that a module doesn't have, the ports that it has first, and how many it has.
    NoPort {
        module: Range,
        ports: Places,
        count: usize,
    },
    /// A pin that a cell doesn't have, whose name stands there.
    NoPin {
        cell: Range,
    },
    /// So many bits that are connected to a port, which has others.
    Width {
        port: Range,
        bits: u64,
        wanted: u64,
    },
    /// A statement of a library, and the name of the one directly in the library that holds it, if that is another.
    Broken {
        lack: Lack,
        holder: Option<Range>,
    },
    /// A parenthesis of the delays that isn't closed.
    Unclosed,
    /// A keyword of the delays that isn't read.
    Keyword,
    /// The path of an instance.
    Instance {
        header: Header,
    },
    /// Pins of a cell at an instance: one, or two of an IOPATH.
    Pins {
        cell: Range,
        first: Range,
        last: Option<Range>,
        instance: Option<Range>,
        header: Header,
    },
    /// A number of an instance.
    Number {
        number: Number,
        instance: Option<Range>,
        header: Header,
    },
    /// A quote that isn't closed.
    OpenQuote,
    /// An item of a description, of a cell description the cell of this name.
    Item {
        cell: Option<Range>,
        wrong: Wrong,
    },
    /// A port that an item of the clock description names.
    Port {
        item: Item,
        name: Range,
    },
}

/// A range at fault, and why.
#[derive(Clone, Copy, Debug)]
pub struct Found {
    pub range: Range,
    pub fault: Fault,
}

/// The bytes of a range of a text; none where it isn't one.
pub fn bytes_of<'a>(text: &'a [u8], range: &Range) -> &'a [u8]
    ensures { result.now ≡ part text.now range.now }
{
    if range.from <= range.to && range.to <= text.len() {
        &text[range.from..range.to]
    } else {
        b""
    }
}

/// The name that a range of a text writes, without the backslash of an escaped one.
pub fn name_of<'a>(text: &'a [u8], range: &Range) -> &'a [u8]
    ensures { result.now ≡ bare (part text.now range.now) }
{
    match bytes_of(text, range) {
        [b'\\', name @ ..] => name,
        name => name,
    }
}

/// What is found, where it lies inside of the place that was looked through.
pub(crate) fn found_inside(outer: &Range, range: Range, fault: Fault) -> Option<Found>
    ensures inside { IfSome result (λ found. IsInside outer.now found.range) }
    ensures range { IfSome result (λ found. found.range ≡ range) }
    ensures fault { IfSome result (λ found. found.fault ≡ fault) }
{
    if outer.from <= range.from && range.from < range.to && range.to <= outer.to {
        Some(Found { range, fault })
    } else {
        None
    }
}

/// What is found, where it is in the text.
pub(crate) fn found_anywhere(text: &[u8], range: Option<Range>, fault: Fault) -> Option<Found>
    ensures { IfSome result (λ found. IsRange text.now found.range) }
{
    let range = range?;
    if range.from < range.to && range.to <= text.len() {
        Some(Found { range, fault })
    } else {
        None
    }
}
