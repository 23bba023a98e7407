//! Words of a text.
ghost use Rattle.std.specs.Prelude.{◌≡◌, ◌<◌, ◌≤◌, ◌+◌, ◌||◌, length, List, ℕ, MatchOption, true};
ghost use Rattle.mintc_senses.specs.Words.{is_inside, word_before, words_of, is_wanted, is_wanted_among};
ghost use Rattle.mintc_senses.specs.Seen.{words_from};

use mintc_senses_expressions::is_word_byte;
use mintc_text_scan::is_white;

/// Where a text is cut into words.
#[derive(Clone, Copy)]
pub(crate) enum Cut {
    /// At white space.
    White,
    /// At all that is no word of an expression.
    Expression,
}

/// Whether a byte belongs to a word.
fn is_inside(cut: Cut, byte: u8) -> bool
    ensures { result ≡ is_inside cut byte }
{
    match cut {
        Cut::White => !is_white(byte),
        Cut::Expression => is_word_byte(byte),
    }
}

/// Whether a word is there and is this one, or whether it is there and is another one.
fn is_wanted(found: &[u8], word: &[u8], same: bool) -> bool
    ensures { (ws : List (List ℕ)) → is_wanted_among same word.now (word_before found.now ws)
        ≡ (result || is_wanted_among same word.now ws) }
{
    if found.is_empty() {
        return false;
    }
    if same { found == word } else { found != word }
}

/// Where the word begins that may go on behind the byte at a place, where the one that may go on there begins at
/// another; none where that one ends there and is wanted.
fn next_from(
    text: &[u8],
    cut: Cut,
    word: &[u8],
    same: bool,
    from: usize,
    place: usize,
) -> Option<usize>
    requires word { from ≤ place }
    requires within { place < length text.now }
    ensures { MatchOption result (is_wanted_among same word.now (words_from cut text.now from place) ≡ true)
        (λ next. (next ≤ place + 1) × (is_wanted_among same word.now (words_from cut text.now from place)
        ≡ is_wanted_among same word.now (words_from cut text.now next (place + 1)))) }
{
    if is_inside(cut, text[place]) {
        return Some(from);
    }
    if is_wanted(&text[from..place], word, same) {
        None
    } else {
        Some(place + 1)
    }
}

/// Whether one of the words of a text is this one, or whether one is another one.
pub(crate) fn has_word(text: &[u8], cut: Cut, word: &[u8], same: bool) -> bool
    ensures { result ≡ is_wanted_among same word.now (words_of cut text.now) }
{
    let mut from = 0;
    for place in 0..text.len() {
        match next_from(text, cut, word, same, from, place) {
            Some(next) => {
                from = next;
            }
            None => return true,
        }
    }
    is_wanted(&text[from..], word, same)
}
