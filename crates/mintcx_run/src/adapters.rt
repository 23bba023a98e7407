//! The outside as it is: files that are made.
ghost use Rattle.std.specs.Prelude.{◌≡◌, None, is_ok};
ghost use Rattle.mintc_text.specs.Outside.{faults_after};

use crate::folder::Folder;
use mintc_text::Failed;
use std::fs;
use std::io::Write;
use std::marker::Model;
use std::rt::Files;

/// The files that a runtime makes, seen as the count of faults. It tells neither files nor calls.
#[derive(Drop)]
pub struct OutputFolder<'a, R: Files> {
    runtime: &'a R,
    faults: u64,
}

impl<'a, R: Files> Model for OutputFolder<'a, R> {
    ghost use Rattle.std.specs.Prelude.{ℕ};

    ghost Value = { ℕ };

    ghost view = { λ s. s.faults };
}

/// Makes a file of these bytes, or fails.
fn make_file<R: Files>(runtime: &R, name: &[u8], bytes: &[u8]) -> Result<(), Failed> {
    let Ok(name) = std::str::from_utf8(name) else {
        return Err(Failed);
    };
    let Ok(mut file) = fs::create(runtime, name) else {
        return Err(Failed);
    };
    match file.write_all(bytes) {
        Ok(()) => Ok(()),
        Err(_) => Err(Failed),
    }
}

impl<'a, R: Files> OutputFolder<'a, R> {
    /// A folder of the runtime's files that has counted no fault.
    pub fn new(runtime: &'a R) -> OutputFolder<'a, R>
        ensures { result ≡ 0 }
    {
        OutputFolder { runtime, faults: 0 }
    }
}

impl<'a, R: Files> Folder for OutputFolder<'a, R> {
    ghost made = { λ _. None };

    ghost faults = { λ s. s };

    ghost calls = { λ _. None };

    /// Makes a file of these bytes, in place of one of its name. Each Err counts a fault.
    fn make(&mut self, name: &[u8], bytes: &[u8]) -> Result<(), Failed>
        ensures counted { self.new ≡ faults_after (is_ok result) self.old }
    {
        let made = make_file(self.runtime, name, bytes);
        if made.is_err() {
            self.faults = self.faults.saturating_add(1);
        }
        made
    }
}
