//! Where files are made.
ghost use Rattle.std.specs.Prelude.{◌≤◌, ℕ, Option, OnOk, OnErr};
ghost use Rattle.mintc_text.specs.Outside.{CountsCall, Files, Rose};
ghost use Rattle.mintcx_run.specs.Folders.{Makes};

use mintc_text::Failed;

/// Where files are made. Faults are counted, and the count never falls.
pub trait Folder {
    /// The files that were made, the last one first, where it tells them.
    ghost made: { Self → Option Files };

    /// How many faults there were.
    ghost faults: { Self → ℕ };

    /// How many calls there were, where it tells.
    ghost calls: { Self → Option ℕ };

    /// Makes a file of these bytes, in place of one of its name. Failed comes only where the count of faults rose; a
    /// front of the bytes may stand in the file then.
    fn make(&mut self, name: &[u8], bytes: &[u8]) -> Result<(), Failed>
        ensures ok { OnOk result (Makes (made self.old) (made self.new) name.now bytes.now) }
        ensures later { faults self.old ≤ faults self.new }
        ensures cause { OnErr result (Rose (faults self.old) (faults self.new)) }
        ensures counted { CountsCall (calls self.old) (calls self.new) };
}
