//! The program `mintc_large`: as `mintc`, of designs ten times as large.
#![tactic(auto)]

use mintc_arguments::{status_of, words};
use mintc_command::run_within;
use mintc_text::{FolderShelf, Limits, StreamSink};
use std::process::ExitCode;

fn main(rt: HostRuntime) -> ExitCode {
    match words(&rt, 1) {
        Ok(words) => {
            let mut shelf = FolderShelf::new(&rt);
            let mut out = StreamSink::new(&rt);
            let status = run_within(
                rt.alloc(),
                &Limits::large(),
                words.as_slice(),
                &mut shelf,
                &mut out,
            );
            ExitCode::from(status.number())
        }
        Err(error) => ExitCode::from(status_of(&error)),
    }
}
