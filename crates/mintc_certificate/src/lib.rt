//! Certificates: what shows that a cycle time is the least, or that none is right.
//!
//! A certificate is a schedule with its departures and a chain of constraints that forbids every smaller cycle
//! time, or a chain alone that forbids all. Here stand its parts, the links of its members, what makes it valid,
//! and its text.
#![tactic(auto)]

mod certificate;
mod laws;
mod links;
mod member_lines;
mod members;
mod reading;
mod sums;
mod text_laws;
mod version;
mod writing;

pub use certificate::{Certificate, Departures};
pub use laws::valid_is_optimal;
pub use links::link_of;
pub use members::{Member, Members};
pub use reading::read;
pub use sums::{ChainSums, sums_of};
pub use text_laws::{
    certificate_texts_are_canonical, certificate_texts_are_plain,
    texts_have_certificates_or_refusals, written_certificates_are_read,
};
pub use writing::{put_count_line, put_departures, put_member, put_path, put_schedule, write};
