//! What a run answers.
ghost use Rattle.std.specs.Prelude.{◌≡◌};

use crate::status::Status;
use mintc_text::Bytes;

/// A status and the text that goes with it.
#[derive(Drop)]
pub struct Answer {
    pub status: Status,
    pub text: Bytes,
}

impl Answer {
    /// A status with the bytes of its text.
    pub(crate) fn new(status: Status, text: Vec<u8>) -> Answer
        ensures status { result.status ≡ status }
        ensures text { result.text ≡ text.items }
    {
        let text = Bytes::new(text);
        Answer { status, text }
    }
}
