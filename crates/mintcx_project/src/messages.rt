//! What is said of project files that say nothing.

use crate::project::ProjectFault;
use mintc_text::Name;
use std::error::Error;
use std::fmt;

/// A name as text.
fn shown(name: &Name) -> &str {
    match std::str::from_utf8(name.bytes()) {
        Ok(text) => text,
        Err(_) => "?",
    }
}

impl fmt::Display for ProjectFault {
    fn fmt<W: fmt::Write>(&self, f: &mut fmt::Formatter<W>) -> fmt::Result {
        match self {
            ProjectFault::NoToml(said) => {
                let said = shown(said);
                write!(f, "{said}")
            }
            ProjectFault::NoKey(key) => {
                let key = shown(key);
                write!(f, "`{key}` is no key here")
            }
            ProjectFault::BadValue(key) => {
                let key = shown(key);
                write!(f, "`{key}` doesn't take this value")
            }
            ProjectFault::OutOfMemory => write!(f, "memory was wanting"),
        }
    }
}

impl Error for ProjectFault {}
