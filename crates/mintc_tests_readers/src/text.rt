//! mintc_text: files in memory and as they are, names, numerals, and texts that are read by lines and written.
mod adapters;
mod lines;
mod memory;
mod names;
mod numerals;
