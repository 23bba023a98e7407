//! The room of texts.
ghost use Rattle.std.specs.Prelude.{◌≡◌, ◌≤◌, IfOk};
ghost use Rattle.mintcx_picture.specs.Rooms.{cut, room};

use mintc_text::{Lines, Name, OutOfMemory};
use std::alloc::Global;

/// Letters beyond so many count for no more room.
const MOST_LETTERS: usize = 100_000;

/// How wide a text of so many letters is at a size, in pixels.
pub fn room(letters: usize, size: u32) -> u32
    requires { size ≤ 17 }
    ensures value { result ≡ room letters size }
    ensures few { result ≤ 1100000 }
{
    (31 * letters.min(MOST_LETTERS) as u32 * size + 49) / 50
}

/// A text of at most so many letters: the whole text, or else its first and its last ones with a sign between.
pub fn cut(alloc: Global, text: &[u8], most: usize) -> Result<Name, OutOfMemory>
    requires { 1 ≤ most }
    ensures { IfOk result (λ name. name ≡ cut text.now most) }
{
    if text.len() <= most {
        return Name::new(alloc, text);
    }
    let front = (most - 1) / 2;
    let back = most - 1 - front;
    let mut lines = Lines::new(alloc);
    lines.put(&text[..front])?;
    lines.put("…".as_bytes())?;
    lines.put(&text[text.len() - back..])?;
    Name::new(alloc, &lines.into_bytes())
}
