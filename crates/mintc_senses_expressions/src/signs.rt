//! The bytes of an expression.
ghost use Rattle.std.specs.Prelude.{◌≡◌};
ghost use Rattle.mintc_senses_expressions.specs.Symbols.{is_word_byte, sign_of};

/// A sign of an expression, or a byte that no expression has.
#[derive(Clone, Copy)]
pub(crate) enum Sign {
    Opening,
    Closing,
    Inversion,
    Prime,
    Exclusive,
    Conjunction,
    Disjunction,
    Other,
}

/// Whether a byte may stand in a word: a letter, a digit, `_`, `.`, `[` or `]`.
pub fn is_word_byte(byte: u8) -> bool
    ensures { result ≡ is_word_byte byte }
{
    (byte >= b'a' && byte <= b'z')
        || (byte >= b'A' && byte <= b'Z')
        || (byte >= b'0' && byte <= b'9')
        || byte == b'_'
        || byte == b'.'
        || byte == b'['
        || byte == b']'
}

/// The sign that a byte is.
pub(crate) fn sign_of(byte: u8) -> Sign
    ensures { result ≡ sign_of byte }
{
    match byte {
        b'(' => Sign::Opening,
        b')' => Sign::Closing,
        b'!' => Sign::Inversion,
        b'\'' => Sign::Prime,
        b'^' => Sign::Exclusive,
        b'*' | b'&' => Sign::Conjunction,
        b'+' | b'|' => Sign::Disjunction,
        _ => Sign::Other,
    }
}
