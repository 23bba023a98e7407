//! The arguments of a program, as words.
//!
//! What the system gives as arguments is in no contract: the gate tries each status of the programs.
#![tactic(auto)]

ghost use Rattle.std.specs.Prelude.{◌≡◌, ◌⊎◌};

use std::alloc::AllocError;
use std::rt::Env;
use std::{env, io};

/// The exit status of a program that has no words: 6 where memory was wanting, 7 where an argument isn't text.
pub fn status_of(error: &io::Error) -> u8
    ensures { (result ≡ 6) ⊎ (result ≡ 7) }
{
    if error.kind() == io::ErrorKind::OutOfMemory {
        6
    } else {
        7
    }
}

/// The words of a program but for the first ones, as many as `skipped`. Its own name is the first.
pub fn words(rt: &(impl Env + AllocGlobal), skipped: usize) -> io::Result<Vec<String>> {
    let mut words = Vec::new(rt.alloc());
    for word in env::args(rt)?.skip(skipped) {
        words.push(word)?;
    }
    Ok(words)
}
