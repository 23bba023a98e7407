//! The program `mintc`: certified optimal clocking of circuits with level-sensitive latches.
#![tactic(auto)]

use mintc_arguments::{status_of, words};
use mintc_command::run;
use mintc_text::{FolderShelf, StreamSink};
use std::process::ExitCode;

fn main(rt: HostRuntime) -> ExitCode {
    match words(&rt, 1) {
        Ok(words) => {
            let mut shelf = FolderShelf::new(&rt);
            let mut out = StreamSink::new(&rt);
            let status = run(rt.alloc(), words.as_slice(), &mut shelf, &mut out);
            ExitCode::from(status.number())
        }
        Err(error) => ExitCode::from(status_of(&error)),
    }
}
