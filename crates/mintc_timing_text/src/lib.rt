//! The texts of lines: what tables and schedules say, and a reader of lines for other texts.
//!
//! A line is its words, and each text is one line after another in an order that its form fixes. A reader gives the
//! value of a text that is in form, else the number of the first line that is not.
#![tactic(auto)]

mod fields;
mod reader;
mod schedule_text;
mod table_lines;
mod table_text;
mod text_laws;

pub use fields::{Fields, is_name};
pub use reader::Reader;
pub use schedule_text::{read_schedule, schedule_lines};
pub use table_text::read_table;
pub use text_laws::{
    schedule_texts_are_plain, schedule_texts_are_their_lines, table_texts_are_plain,
    table_texts_are_their_lines, texts_are_canonical, texts_have_designs_or_refusals,
    texts_have_schedules_or_faults,
};
