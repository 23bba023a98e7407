//! The cells of a Liberty text.
//!
//! `library_of` gives the statements of a text's library, or the number of its Syntax, and `cells_of_library` the
//! cells that they mean. The code builds no statements: one pass finds the places where cells stand, which are
//! sorted by the names there, and each cell is read from its place. A cell that can't be used is passed over, so
//! one such cell refuses nothing.
//!
//! A sort by comparisons reads names all over the text, which is dear where there are millions. So places are
//! brought near their order first: they are put into parts by two bytes of their names, and a part that is small is
//! sorted by eight bytes at a time, which stand beside the places. What is promised of that is that no place is
//! lost or added.
#![tactic(auto)]

mod laws;
mod places;
mod presort_keys;
mod presort_names;
mod presort_parts;
mod presorting;
mod scanner_names;
mod texts;

pub use laws::texts_have_cells_or_faults;
pub use presort_names::Names;
pub use presorting::presort;
pub use texts::read_liberty;
