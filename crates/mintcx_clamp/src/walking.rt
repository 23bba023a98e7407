//! A walk over the tokens of delays, which knows which words are values that may not be below 0.
ghost use Rattle.std.specs.Prelude.{◌≡◌, ◌≤◌, IfOk, IfSome, MatchBool, true, if◌then◌else◌, length};
ghost use Rattle.mintc_sdf_tokens.specs.Tokens.{tokens_of};
ghost use Rattle.mintcx_clamp.specs.declared.walking.Mode.TheVariants as mode;
ghost use Rattle.mintcx_clamp.specs.Walking.{among_values, behind, behind_opening, deep, followed, in_value};
ghost use Rattle.mintcx_clamp.specs.Walking.{is_signed, is_unsigned, is_value, turned};
ghost use Rattle.mintcx_clamp.specs.Words.{clamped_word};

use crate::words::put_word;
use mintc_sdf_tokens::{Reader, TokenKind, is_key};
use mintc_text::OutOfMemory;
use std::alloc::Global;

/// Where a walk stands.
#[derive(Clone, Copy)]
pub(crate) enum Mode {
    /// Outside of all lists that have numbers.
    Free,
    /// There, behind an opening parenthesis.
    Opened,
    /// Right inside of a list whose numbers may not be below 0.
    Values,
    /// There, behind an opening parenthesis.
    Begun,
    /// In a list of another kind that stands there, inside of which so many are open.
    Inner(usize),
    /// In a list whose numbers may be below 0, inside of which so many are open.
    Kept(usize),
}

/// Whether the numbers of a list with this keyword may be below 0.
fn is_signed(key: &[u8]) -> bool
    ensures { result ≡ is_signed key.now }
{
    is_key(key, b"SETUP") || is_key(key, b"HOLD") || is_key(key, b"SETUPHOLD")
}

/// Whether they may not.
fn is_unsigned(key: &[u8]) -> bool
    ensures { result ≡ is_unsigned key.now }
{
    is_key(key, b"IOPATH")
        || is_key(key, b"INTERCONNECT")
        || is_key(key, b"PORT")
        || is_key(key, b"WIDTH")
}

/// Where a walk stands behind the first word of a list.
fn behind(key: &[u8]) -> Mode
    ensures { result ≡ behind key.now }
{
    if is_signed(key) {
        Mode::Kept(0)
    } else if is_unsigned(key) {
        Mode::Values
    } else {
        Mode::Free
    }
}

/// Where it stands behind a token that stands behind an opening parenthesis.
fn behind_opening(kind: TokenKind, word: &[u8]) -> Mode
    ensures { result ≡ behind_opening kind word.now }
{
    match kind {
        TokenKind::Open => Mode::Opened,
        TokenKind::Word => behind(word),
        TokenKind::Close | TokenKind::Quote | TokenKind::End => Mode::Free,
    }
}

/// Where it stands behind a token right inside of a list whose numbers may not be below 0.
fn among_values(kind: TokenKind) -> Mode
    ensures { result ≡ among_values kind }
{
    match kind {
        TokenKind::Open => Mode::Begun,
        TokenKind::Close => Mode::Free,
        TokenKind::Word | TokenKind::Quote | TokenKind::End => Mode::Values,
    }
}

/// Where it stands behind a token behind the parenthesis that may open a value.
fn in_value(kind: TokenKind) -> Mode
    ensures { result ≡ in_value kind }
{
    match kind {
        TokenKind::Open => Mode::Inner(1),
        TokenKind::Close => Mode::Values,
        TokenKind::Word | TokenKind::Quote | TokenKind::End => Mode::Inner(0),
    }
}

/// Where it stands in a list of another kind. None where more lists are open than 64 bits can count.
fn inner(kind: TokenKind, depth: usize) -> Option<Mode>
    ensures { IfSome result (λ m. m ≡ deep mode.Inner mode.Values kind depth) }
{
    match kind {
        TokenKind::Open => Some(Mode::Inner(depth.checked_add(1)?)),
        TokenKind::Close if depth == 0 => Some(Mode::Values),
        TokenKind::Close => Some(Mode::Inner(depth - 1)),
        TokenKind::Word | TokenKind::Quote | TokenKind::End => Some(Mode::Inner(depth)),
    }
}

/// Where it stands in a list whose numbers may be below 0. None where more lists are open than 64 bits can count.
fn kept(kind: TokenKind, depth: usize) -> Option<Mode>
    ensures { IfSome result (λ m. m ≡ deep mode.Kept mode.Free kind depth) }
{
    match kind {
        TokenKind::Open => Some(Mode::Kept(depth.checked_add(1)?)),
        TokenKind::Close if depth == 0 => Some(Mode::Free),
        TokenKind::Close => Some(Mode::Kept(depth - 1)),
        TokenKind::Word | TokenKind::Quote | TokenKind::End => Some(Mode::Kept(depth)),
    }
}

/// Where a walk stands behind a token of this kind, which is this word if it is one.
pub(crate) fn turned(mode: Mode, kind: TokenKind, word: &[u8]) -> Option<Mode>
    ensures { IfSome result (λ m. m ≡ turned mode kind word.now) }
{
    match mode {
        Mode::Free => Some(match kind {
            TokenKind::Open => Mode::Opened,
            TokenKind::Close | TokenKind::Word | TokenKind::Quote | TokenKind::End => Mode::Free,
        }),
        Mode::Opened => Some(behind_opening(kind, word)),
        Mode::Values => Some(among_values(kind)),
        Mode::Begun => Some(in_value(kind)),
        Mode::Inner(depth) => inner(kind, depth),
        Mode::Kept(depth) => kept(kind, depth),
    }
}

/// Whether the word that was read is a value, given what comes next: it stands alone in its list.
pub(crate) fn is_value(mode: Mode, next: TokenKind) -> bool
    ensures { result ≡ is_value mode next }
{
    match (mode, next) {
        (Mode::Begun, TokenKind::Close) => true,
        _ => false,
    }
}

/// Whether a word is what another one becomes, which may be a value.
fn is_put(
    clamped: &mut Vec<u8>,
    is_alone: bool,
    word: &[u8],
    other: &[u8],
) -> Result<bool, OutOfMemory>
    ensures { IfOk result (λ same. MatchBool same
        (other.now ≡ (if is_alone then clamped_word word.now else word.now)) (Unit {0})) }
{
    if !is_alone {
        return Ok(word == other);
    }
    clamped.clear();
    put_word(clamped, word)?;
    Ok(clamped.as_slice() == other)
}

/// Passes an opening parenthesis of both texts.
fn open_both(mode: Mode, here: &mut Reader, there: &mut Reader) -> Option<Mode>
    ensures { IfSome result (λ m. followed m here.new ≡ there.new → followed mode here.old ≡ there.old) }
{
    if here.open() && there.open() {
        turned(mode, TokenKind::Open, b"")
    } else {
        None
    }
}

/// Passes a closing parenthesis of both texts.
fn close_both(mode: Mode, here: &mut Reader, there: &mut Reader) -> Option<Mode>
    ensures { IfSome result (λ m. followed m here.new ≡ there.new → followed mode here.old ≡ there.old) }
{
    if here.close() && there.close() {
        turned(mode, TokenKind::Close, b"")
    } else {
        None
    }
}

/// Passes a string of both texts, which is the same.
fn string_both(mode: Mode, here: &mut Reader, there: &mut Reader) -> Option<Mode>
    ensures { IfSome result (λ m. followed m here.new ≡ there.new → followed mode here.old ≡ there.old) }
{
    let string = here.string()?;
    let other = there.string()?;
    if string == other {
        turned(mode, TokenKind::Quote, b"")
    } else {
        None
    }
}

/// Passes a word of the one text, and what it becomes of the other.
fn word_both(
    clamped: &mut Vec<u8>,
    mode: Mode,
    here: &mut Reader,
    there: &mut Reader,
) -> Result<Option<Mode>, OutOfMemory>
    ensures { IfOk result (λ found. IfSome found
        (λ m. followed m here.new ≡ there.new → followed mode here.old ≡ there.old)) }
{
    let Some(word) = here.word() else {
        return Ok(None);
    };
    let Some(other) = there.word() else {
        return Ok(None);
    };
    if is_put(clamped, is_value(mode, here.mark()), word, other)? {
        Ok(turned(mode, TokenKind::Word, word))
    } else {
        Ok(None)
    }
}

/// Passes a token of the one text, and what it becomes of the other. None at the end, and where the other text has
/// another token.
fn step(
    clamped: &mut Vec<u8>,
    mode: Mode,
    here: &mut Reader,
    there: &mut Reader,
) -> Result<Option<Mode>, OutOfMemory>
    ensures { IfOk result (λ found. IfSome found
        (λ m. followed m here.new ≡ there.new → followed mode here.old ≡ there.old)) }
{
    match here.mark() {
        TokenKind::Open => Ok(open_both(mode, here, there)),
        TokenKind::Close => Ok(close_both(mode, here, there)),
        TokenKind::Quote => Ok(string_both(mode, here, there)),
        TokenKind::Word => word_both(clamped, mode, here, there),
        TokenKind::End => Ok(None),
    }
}

/// Whether no token is left of both texts.
fn are_at_end(here: &Reader, there: &Reader) -> bool
    ensures { MatchBool result ((mode : Mode) → followed mode here.now ≡ there.now) (Unit {0}) }
{
    match (here.mark(), there.mark()) {
        (TokenKind::End, TokenKind::End) => true,
        _ => false,
    }
}

/// Whether the tokens of a text become those of another one.
pub(crate) fn is_followed(alloc: Global, text: &[u8], other: &[u8]) -> Result<bool, OutOfMemory>
    ensures { IfOk result (λ same. MatchBool same
        (followed mode.Free (tokens_of text.now) ≡ tokens_of other.now) (Unit {0})) }
{
    let mut here = Reader::new(text);
    let mut there = Reader::new(other);
    let mut clamped = Vec::new(alloc);
    let mut mode = Mode::Free;
    for _token in 0..text.len().saturating_add(1) {
        if are_at_end(&here, &there) {
            return Ok(true);
        }
        match step(&mut clamped, mode, &mut here, &mut there)? {
            Some(next) => mode = next,
            None => return Ok(false),
        }
    }
    Ok(false)
}
