//! Tests of the public calls of mintcx, of what no clause says: clap's texts, the messages, and rows of words with the
//! requests that they are; what there is at some cycle times; amounts, columns, frames, explanations, clocks as SDC and
//! designs as tables.
#![tactic(auto)]

#[cfg(test)]
mod amounts;
#[cfg(test)]
mod columns;
#[cfg(test)]
mod cycles;
#[cfg(test)]
mod explanations;
#[cfg(test)]
mod frame;
#[cfg(test)]
mod help_texts;
#[cfg(test)]
mod projects;
#[cfg(test)]
mod sdc;
#[cfg(test)]
mod shown;
#[cfg(test)]
mod tables;
#[cfg(test)]
mod words;
#[cfg(test)]
mod wrong_words;
