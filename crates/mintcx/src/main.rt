//! The program `mintcx`: mintc for people.
#![tactic(auto)]

use mintc_arguments::{status_of, words};
use mintc_text::{FolderShelf, StreamSink};
use mintcx_run::{OutputFolder, run};
use std::process::ExitCode;

fn main(rt: HostRuntime) -> ExitCode {
    match words(&rt, 0) {
        Ok(words) => {
            let errors = rt.stderr();
            let mut shelf = FolderShelf::new(&rt);
            let mut out = StreamSink::new(&rt);
            let mut told = StreamSink::new(&errors);
            let mut folder = OutputFolder::new(&rt);
            let words = words.as_slice();
            let status = run(
                rt.alloc(),
                words,
                &mut shelf,
                &mut out,
                &mut told,
                &mut folder,
            );
            ExitCode::from(status.number())
        }
        Err(error) => ExitCode::from(status_of(&error)),
    }
}
