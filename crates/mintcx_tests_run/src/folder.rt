//! A folder in memory.
ghost use Rattle.std.specs.Prelude.{◌≡◌, None, Some};

use mintc_text::Failed;
use mintcx_run::Folder;
use std::alloc::{AllocError, Global};
use std::marker::Model;

/// A folder with no folders in it, that keeps the name and the bytes of each file, one after the other, seen as the
/// count of faults.
#[derive(Drop)]
pub(crate) struct MemoryFolder {
    text: Vec<u8>,
    faults: u64,
}

impl Model for MemoryFolder {
    ghost use Rattle.std.specs.Prelude.{ℕ};

    ghost Value = { ℕ };

    ghost view = { λ s. s.faults };
}

impl MemoryFolder {
    /// A folder in which nothing was made.
    pub(crate) fn new(alloc: Global) -> MemoryFolder {
        MemoryFolder {
            text: Vec::new(alloc),
            faults: 0,
        }
    }

    /// Keeps the name and the bytes of a file.
    fn keep(&mut self, name: &[u8], bytes: &[u8]) -> Result<(), AllocError>
        ensures { self.new ≡ self.old }
    {
        self.text.extend_from_slice(name)?;
        self.text.extend_from_slice(bytes)
    }

    /// The names and the bytes of the files, one after the other.
    pub(crate) fn text(&self) -> &[u8] {
        &self.text
    }
}

impl Folder for MemoryFolder {
    ghost made = { λ _. None };

    ghost faults = { λ s. s };

    ghost calls = { λ _. None };

    /// Keeps the name and the bytes of a file that is no folder's.
    fn make(&mut self, name: &[u8], bytes: &[u8]) -> Result<(), Failed> {
        if !name.contains(&b'/') && self.keep(name, bytes).is_ok() {
            return Ok(());
        }
        self.faults = self.faults.saturating_add(1);
        Err(Failed)
    }
}
