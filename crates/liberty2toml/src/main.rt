//! The program `liberty2toml`: a Liberty text to a description of its cells in TOML.
#![tactic(auto)]

use liberty2toml_command::convert;
use mintc_arguments::{status_of, words};
use mintc_text::{FolderShelf, StreamSink};
use std::process::ExitCode;

fn main(rt: HostRuntime) -> ExitCode {
    match words(&rt, 1) {
        Ok(words) => {
            let mut shelf = FolderShelf::new(&rt);
            let mut out = StreamSink::new(&rt);
            let status = convert(rt.alloc(), words.as_slice(), &mut shelf, &mut out);
            ExitCode::from(status.number())
        }
        Err(error) => ExitCode::from(status_of(&error)),
    }
}
