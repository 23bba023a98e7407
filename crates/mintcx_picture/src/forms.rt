//! The forms of a picture. Places and sizes are in pixels, from the upper left corner.
use crate::colours::Colour;
use crate::paths::Steps;
use mintc_text::Name;

/// Which part of a text stands at its place.
#[derive(Clone, Copy, Debug, PartialEq, Eq, Drop)]
pub enum Anchor {
    /// Its first letter.
    Start,
    /// Its middle.
    Middle,
    /// Its last letter.
    End,
}

/// A text: where it stands, and its size and colour.
#[derive(Drop)]
pub struct Label {
    pub x: u32,
    pub y: u32,
    pub text: Name,
    pub size: u32,
    pub fill: Colour,
    pub anchor: Anchor,
    pub bold: bool,
}

/// How a rectangle is painted.
#[derive(Clone, Copy, Debug, PartialEq, Eq, Drop)]
pub enum Paint {
    /// Its ground, in a colour.
    Filled(Colour),
    /// Its edge alone, in a colour.
    Outlined(Colour),
}

/// A rectangle, with a text that is shown over it where there is one.
#[derive(Drop)]
pub struct Area {
    pub x: u32,
    pub y: u32,
    pub width: u32,
    pub height: u32,
    pub paint: Paint,
    pub tip: Option<Name>,
}

/// A line along a path, with its width.
#[derive(Drop)]
pub struct Line {
    pub steps: Steps,
    pub stroke: Colour,
    pub width: u32,
    pub dashed: bool,
}

/// What a closed path goes round.
#[derive(Drop)]
pub struct Solid {
    pub steps: Steps,
    pub fill: Colour,
}

/// A form of a picture.
#[derive(Drop)]
pub enum Form {
    /// A text.
    Text(Label),
    /// A rectangle.
    Rect(Area),
    /// A line.
    Line(Line),
    /// A solid.
    Solid(Solid),
}
