//! Charts: rows of elements on a scale of time, below the waves of a clock's phases.
//!
//! A row shows when its element is open, and a bar below it shows what takes its time. Everything that is drawn of a
//! time stands where the scale of the chart says; rows and bars stand in the order in which they are given. Here stand
//! the parts that charts have in common: the lines at the top, the axis, the waves, rows, bars and the legend. No call
//! refuses: those that take memory may lack it, and nothing else.
#![tactic(auto)]

mod axis;
mod bars;
mod ground;
mod lanes;
mod legend;
mod parts;
mod rows;
mod sheet;
mod stretch;
mod times;
mod told;
mod waves;
mod windows;
mod wording;

pub use bars::{arrow_begins, parts_layer, push_arrow, push_delay, push_diamond, push_joint};
pub use ground::{ground_of, put_cycle, shown_subject, title_of};
pub use lanes::{Holder, Kind, Lane, clock_holder, element_holder, height_of, put_kind_on_phase};
pub use legend::{push_legend, push_word};
pub use parts::{Lapse, Part, PartKind, Path, Travel, push_part, push_path};
pub use rows::push_rows;
pub use sheet::{Beam, Sheet, Spot, beam_of, bold_words, filled, soft_words, stroke, words};
pub use stretch::{Span, own_window, scale_for, with_time};
pub use times::{laps_time, span_time};
pub use told::{Told, number_at, phase_at};
pub use waves::{Wave, waves_of};
pub use wording::{name_of, put_moment, put_span};
