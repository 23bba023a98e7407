//! The cells of a description by their names: their kinds and their outputs.

use crate::cells::name_on;
use crate::described::{kind_in, outputs_in};
use crate::descriptions::has_long_strings;
use crate::drives::port_key;
use crate::found::bytes_of;
use crate::sections::{Section, line_at, section_at};
use mintc_text::OutOfMemory;
use mintc_text_names::NameSet;
use mintcx_places::Range;
use std::alloc::Global;

/// Kinds of described cells.
#[derive(Clone, Copy, Debug, PartialEq, Eq)]
pub enum CellKind {
    Gate,
    Latch,
    Flop,
    Clock,
}

/// The cells of a description: their names, their kinds in the same order, and their outputs, each behind its cell's
/// name.
#[derive(Drop)]
pub(crate) struct Kinds {
    names: NameSet,
    kinds: Vec<CellKind>,
    outputs: NameSet,
}

/// The kind that a word says.
fn kind_said(word: &[u8]) -> Option<CellKind> {
    if word == b"gate".as_slice() {
        Some(CellKind::Gate)
    } else if word == b"latch".as_slice() {
        Some(CellKind::Latch)
    } else if word == b"flop".as_slice() {
        Some(CellKind::Flop)
    } else if word == b"clock".as_slice() {
        Some(CellKind::Clock)
    } else {
        None
    }
}

impl Kinds {
    /// The kind of the cell of a name.
    pub(crate) fn kind(&self, name: &[u8]) -> Option<CellKind> {
        let place = self.names.find(name)?;
        match self.kinds.get(place) {
            Some(kind) => Some(*kind),
            None => None,
        }
    }

    /// Whether a pin is an output of a cell.
    pub(crate) fn is_output(
        &self,
        alloc: Global,
        cell: &[u8],
        pin: &[u8],
    ) -> Result<bool, OutOfMemory> {
        let key = port_key(alloc, cell, pin)?;
        Ok(self.outputs.find(key.items()).is_some())
    }

    /// Takes in the outputs of a cell.
    fn add_outputs(
        &mut self,
        alloc: Global,
        text: &[u8],
        section: &Section,
        name: &[u8],
    ) -> Result<(), OutOfMemory> {
        let pins = outputs_in(alloc, text, section)?;
        for pin in &pins {
            let key = port_key(alloc, name, *pin)?;
            let _added = self.outputs.add(alloc, key.items())?;
        }
        Ok(())
    }

    /// Takes in the cell that a line begins, if it begins one.
    fn add_cell(&mut self, alloc: Global, text: &[u8], line: &Range) -> Result<(), OutOfMemory> {
        let Some(range) = name_on(text, line) else {
            return Ok(());
        };
        let section = section_at(text, line);
        let Some(word) = kind_in(text, &section) else {
            return Ok(());
        };
        let Some(kind) = kind_said(word) else {
            return Ok(());
        };
        let name = bytes_of(text, &range);
        if self.names.add(alloc, name)? {
            self.kinds.push(kind)?;
        }
        self.add_outputs(alloc, text, &section, name)
    }
}

/// The cells of a description, none where it isn't scanned by its lines.
pub(crate) fn kinds_of(alloc: Global, text: &[u8]) -> Result<Kinds, OutOfMemory> {
    let mut kinds = Kinds {
        names: NameSet::new(alloc),
        kinds: Vec::new(alloc),
        outputs: NameSet::new(alloc),
    };
    if has_long_strings(text) {
        return Ok(kinds);
    }
    let mut at = 0;
    while let Some(line) = line_at(text, at) {
        kinds.add_cell(alloc, text, &line)?;
        at = line.to + 1;
    }
    Ok(kinds)
}
