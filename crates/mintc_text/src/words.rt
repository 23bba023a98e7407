//! The words of a line.
ghost use Rattle.std.specs.Prelude.{ℕ, IfSome, IfNone, slice_index, length, ◌≤◌, ◌<◌};
ghost use Rattle.mintc_text.specs.Lines.{IsGraphic};
ghost use Rattle.mintc_text.specs.Words.{IsBlankAt, IsWordAt};

/// Where the first byte from a place on is that isn't graphic, or the length.
fn word_end(line: &[u8], from: usize) -> usize
    requires { from ≤ length line.now }
    ensures after { from ≤ result }
    ensures within { result ≤ length line.now }
    ensures graphic { (k : ℕ) → from ≤ k → k < result → IsGraphic (slice_index line.now k) }
    ensures ends { IsBlankAt line.now result }
{
    for at in from..line.len() {
        if line[at] < b'!' || line[at] > b'~' {
            return at;
        }
    }
    line.len()
}

/// The place of the longest run of graphic bytes (33 to 126) at `from`: its first byte and one past its last. None
/// where it is empty.
pub fn word(line: &[u8], from: usize) -> Option<(usize, usize)>
    requires { from ≤ length line.now }
    ensures run { IfSome result (λ w. IsWordAt line.now from w.0 w.1) }
    ensures none { IfNone result (IsBlankAt line.now from) }
{
    let past = word_end(line, from);
    if past == from {
        return None;
    }
    Some((from, past))
}
