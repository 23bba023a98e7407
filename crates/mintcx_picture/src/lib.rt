//! Pictures as SVG: their forms, and where times stand on a scale.
//!
//! A picture is a head and layers of forms: texts, rectangles and paths. Each form has one definition that says which
//! bytes are written for it; numbers are written as numerals, colours are of one list, and texts are escaped, so that
//! whatever a name is, no sign of it is read as SVG. A scale says where a time stands: at the whole number that is
//! nearest to its exact place. No call refuses: those that write may lack memory, and nothing else.
#![tactic(auto)]

mod colours;
mod drawn;
mod escapes;
mod forms;
mod laws;
mod numbers;
mod paths;
mod pictures;
mod places;
mod rooms;
mod scale;
mod writing;

pub use colours::Colour;
pub use drawn::Drawn;
pub use forms::{Anchor, Area, Form, Label, Line, Paint, Solid};
pub use laws::{escaped_texts_are_harmless, places_are_nearest};
pub use paths::{Step, Steps};
pub use pictures::{Head, Layer, picture_text};
pub use places::{LEFT, scale_of};
pub use rooms::{cut, room};
pub use scale::Scale;
