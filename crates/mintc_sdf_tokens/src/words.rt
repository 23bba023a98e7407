//! The words of a delay text: keywords, names and paths, and the unit of time.
ghost use Rattle.std.specs.Prelude.{◌≡◌, ◌≤◌, ◌<◌, ◌==◌, ◌&&◌, not, true, false, IfOk, OnOk, IfNone, IfSome, ◌^◌, ◌++◌};
ghost use Rattle.std.specs.Prelude.{◌∷◌, [], drop, take, length, slice_index};
ghost use Rattle.mintc_sdf_tokens.specs.Words.{is_signal_edge, product, is_key, unescaped, unescaped_from, pieces_from};
ghost use Rattle.mintc_sdf_tokens.specs.Words.{names_of, is_edge, unit_of, times_of, time_of};
ghost use Rattle.mintc_sdf_tokens.specs.Pieces.{piece_size, kept_byte};

use mintc_text::{Name, Names, OutOfMemory};
use mintc_text_scan::{keeps, rest_from};
use std::alloc::Global;

/// Whether a word is a keyword, in any case.
pub fn is_key(word: &[u8], key: &[u8]) -> bool
    ensures { result ≡ is_key key.now word.now }
{
    word.eq_ignore_ascii_case(key)
}

/// The edges that are digits and `z`.
fn is_signal_edge(word: &[u8]) -> bool
    ensures { result ≡ is_signal_edge word.now }
{
    word == b"01".as_slice()
        || word == b"10".as_slice()
        || word == b"0z".as_slice()
        || word == b"z1".as_slice()
        || word == b"1z".as_slice()
        || word == b"z0".as_slice()
}

/// Whether a word is an edge of a port.
pub fn is_edge(word: &[u8]) -> bool
    ensures { result ≡ is_edge word.now }
{
    is_key(word, b"posedge") || is_key(word, b"negedge") || is_signal_edge(word)
}

/// The femtoseconds of a unit.
pub fn unit_of(word: &[u8]) -> Option<u64>
    ensures value { result ≡ unit_of word.now }
    ensures most { IfSome result (λ n. (1 ≤ n) × (n ≤ 1000000000)) }
{
    if word == b"us".as_slice() {
        Some(1_000_000_000)
    } else if word == b"ns".as_slice() {
        Some(1_000_000)
    } else if word == b"ps".as_slice() {
        Some(1_000)
    } else if word == b"fs".as_slice() {
        Some(1)
    } else {
        None
    }
}

/// How many units.
pub fn times_of(word: &[u8]) -> Option<u64>
    ensures value { result ≡ times_of word.now }
    ensures most { IfSome result (λ n. (1 ≤ n) × (n ≤ 100)) }
{
    if word == b"1".as_slice() || word == b"1.0".as_slice() {
        Some(1)
    } else if word == b"10".as_slice() || word == b"10.0".as_slice() {
        Some(10)
    } else if word == b"100".as_slice() || word == b"100.0".as_slice() {
        Some(100)
    } else {
        None
    }
}

/// So many units in femtoseconds.
pub fn product(times: Option<u64>, unit: Option<u64>) -> Option<u64>
    requires times { IfSome times (λ n. (1 ≤ n) × (n ≤ 100)) }
    requires unit { IfSome unit (λ n. (1 ≤ n) × (n ≤ 1000000000)) }
    ensures value { result ≡ product times unit }
    ensures most { IfSome result (λ n. (1 ≤ n) × (n ≤ 10 ^ 11)) }
{
    Some(times? * unit?)
}

/// A time in femtoseconds, of a number and a unit in one word.
pub fn time_of(word: &[u8]) -> Option<u64>
    ensures value { result ≡ time_of word.now }
    ensures most { IfSome result (λ n. (1 ≤ n) × (n ≤ 10 ^ 11)) }
{
    let cut = word.len().saturating_sub(2);
    product(times_of(&word[..cut]), unit_of(&word[cut..]))
}

/// The byte that is kept, if it isn't a backslash that keeps the next one.
fn push_kept(out: &mut Vec<u8>, b: u8, kept: bool) -> Result<(), OutOfMemory>
    ensures { OnOk result (out.new.items ≡ out.old.items ++ kept_byte kept b) }
{
    if keeps(b, kept) {
        return Ok(());
    }
    Ok(out.push(b)?)
}

/// A word without its backslashes. Most words have none, and are copied as they are.
pub fn without_escapes(alloc: Global, word: &[u8]) -> Result<Name, OutOfMemory>
    ensures { IfOk result (λ name. name ≡ unescaped word.now) }
{
    if !word.contains(&b'\\') {
        return Name::new(alloc, word);
    }
    let mut out = Vec::new(alloc);
    let mut kept = false;
    for byte in word {
        push_kept(&mut out, *byte, kept)?;
        kept = keeps(*byte, kept);
    }
    Name::new(alloc, &out)
}

/// Whether a byte is a divider that cuts.
fn cuts(b: u8, kept: bool, divider: u8) -> bool
    ensures { result ≡ (not kept && (b == divider)) }
{
    !kept && b == divider
}

/// How many bytes stand before the first divider without a backslash.
fn piece_size(word: &[u8], divider: u8) -> usize
    ensures value { result ≡ piece_size divider false word.now }
    ensures within { result ≤ length word.now }
{
    let mut kept = false;
    for (at, byte) in word.iter().enumerate() {
        if cuts(*byte, kept, divider) {
            return at;
        }
        kept = keeps(*byte, kept);
    }
    word.len()
}

/// Adds a name.
fn push_name(out: &mut Vec<Name>, name: Name) -> Result<(), OutOfMemory>
    ensures { OnOk result (out.new.items ≡ out.old.items ++ name ∷ []) }
{
    Ok(out.push(name)?)
}

/// The names of a path.
pub fn names(alloc: Global, word: &[u8], divider: u8) -> Result<Names, OutOfMemory>
    ensures { IfOk result (λ names. names ≡ names_of divider word.now) }
{
    let mut out = Vec::new(alloc);
    let mut rest = word;
    loop {
        let size = piece_size(rest, divider);
        push_name(&mut out, without_escapes(alloc, &rest[..size])?)?;
        if size == rest.len() {
            return Ok(Names::new(out));
        }
        rest = rest_from(rest, size + 1);
    }
}
