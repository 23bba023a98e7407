//! What a run says, whole in memory.
ghost use Rattle.std.specs.Prelude.{◌≡◌};
ghost use Rattle.mintcx_run.specs.Replies.{IsMessage, IsOutOfMemory, IsSaying};

use mintc_command_answers::Status;
use mintc_text::{Bytes, Name, OutOfMemory};
use std::alloc::Global;
use std::fmt::Display;

/// Where a text goes.
#[derive(Debug, Drop)]
pub enum Place {
    /// To the first sink.
    Output,
    /// To the second sink.
    Errors,
    /// To a file of this name.
    File(Name),
    /// To none.
    Nowhere,
}

/// A file that is made beside a text.
#[derive(Debug, Drop)]
pub struct Beside {
    pub name: Name,
    pub text: Bytes,
}

/// How a run ends, if what it has to write can be written, and what that is.
#[derive(Drop)]
pub struct Reply {
    pub status: Status,
    pub place: Place,
    pub text: Bytes,
    pub beside: Option<Beside>,
    /// What is told to the second sink before the text; no byte where nothing is.
    pub warnings: Bytes,
}

impl Reply {
    /// That memory was wanting.
    pub(crate) fn out_of_memory(alloc: Global) -> Reply
        ensures { IsOutOfMemory result }
    {
        Reply {
            status: Status::OutOfMemory,
            place: Place::Nowhere,
            text: Bytes::new(Vec::new(alloc)),
            beside: None,
            warnings: Bytes::new(Vec::new(alloc)),
        }
    }

    /// A text of other bytes.
    pub(crate) fn saying(alloc: Global, status: Status, place: Place, text: &[u8]) -> Reply
        ensures { IsSaying status place text.now result }
    {
        match Vec::from_slice(alloc, text) {
            Ok(bytes) => Reply {
                status,
                place,
                text: Bytes::new(bytes),
                beside: None,
                warnings: Bytes::new(Vec::new(alloc)),
            },
            Err(_) => Reply::out_of_memory(alloc),
        }
    }

    /// A message of one line for the second sink.
    pub(crate) fn message<D: Display>(alloc: Global, status: Status, said: &D) -> Reply
        ensures { IsMessage status result }
    {
        match format!(in alloc; "error: {said}\n") {
            Ok(text) => Reply::saying(alloc, status, Place::Errors, text.as_bytes()),
            Err(_) => Reply::out_of_memory(alloc),
        }
    }
}
