//! What is drawn on, and the forms that are drawn.
ghost use Rattle.std.specs.Prelude.{◌≡◌, ◌+◌, ◌-◌, max};
ghost use Rattle.mintcx_chart.specs.Forms.{beam_form, bold_form, soft_form, words_form};

use crate::lanes::Lane;
use crate::waves::Wave;
use mintc_text::Name;
use mintcx_amounts::Unit;
use mintcx_picture::{Anchor, Area, Colour, Form, Label, Line, Paint, Scale, Solid, Step, Steps};

/// What is drawn: the rows and the phases, the scale of their times, the denominator of these and the cycle time, the
/// unit in which they are told, whether the design is a table, and how high the rows end, in pixels.
#[derive(Clone, Copy)]
pub struct Sheet<'a> {
    pub lanes: &'a [Lane],
    pub waves: &'a [Wave],
    pub scale: Scale,
    pub den: i64,
    pub cycle: i64,
    pub unit: Unit,
    pub table: bool,
    pub foot: u32,
}

/// Where something stands, in pixels from the upper left corner.
#[derive(Clone, Copy)]
pub struct Spot {
    pub x: u32,
    pub y: u32,
}

/// A text of a size, in a colour.
pub fn words(spot: Spot, text: Name, size: u32, fill: Colour, anchor: Anchor) -> Form
    ensures { result ≡ words_form spot text size fill anchor }
{
    Form::Text(Label {
        x: spot.x,
        y: spot.y,
        text,
        size,
        fill,
        anchor,
        bold: false,
    })
}

/// A bold text in ink.
pub fn bold_words(spot: Spot, text: Name, size: u32, anchor: Anchor) -> Form
    ensures { result ≡ bold_form spot text size anchor }
{
    Form::Text(Label {
        x: spot.x,
        y: spot.y,
        text,
        size,
        fill: Colour::Ink,
        anchor,
        bold: true,
    })
}

/// A small text beside others.
pub fn soft_words(spot: Spot, text: Name) -> Form
    ensures { result ≡ soft_form spot text }
{
    words(spot, text, 11, Colour::Soft, Anchor::Start)
}

/// A part of a row's height, from one place to another, in pixels.
#[derive(Clone, Copy)]
pub struct Beam {
    pub from: u32,
    pub to: u32,
    pub y: u32,
    pub height: u32,
}

impl Beam {
    /// How wide it is: one pixel at least.
    pub fn width(&self) -> u32
        ensures { result ≡ max ((self.now.to - self.now.from) + (self.now.from - self.now.to)) 1 }
    {
        self.to.abs_diff(self.from).max(1)
    }
}

/// A beam as a rectangle, with a text that is shown over it where there is one.
pub fn beam_of(beam: Beam, paint: Paint, tip: Option<Name>) -> Form
    ensures { result ≡ beam_form beam paint tip }
{
    Form::Rect(Area {
        x: beam.from.min(beam.to),
        y: beam.y,
        width: beam.width(),
        height: beam.height,
        paint,
        tip,
    })
}

/// A line of a width along a path.
pub fn stroke(steps: Vec<Step>, colour: Colour, width: u32) -> Form {
    Form::Line(Line {
        steps: Steps::new(steps),
        stroke: colour,
        width,
        dashed: false,
    })
}

/// What a closed path goes round.
pub fn filled(steps: Vec<Step>, fill: Colour) -> Form {
    Form::Solid(Solid {
        steps: Steps::new(steps),
        fill,
    })
}
