//! The value of decimal digits, up to a limit.
ghost use Rattle.std.specs.Prelude.{◌≡◌, ◌≤◌, ◌<◌, MatchOption, length};
ghost use Rattle.mintc_text.specs.declared.limits.TheConstants.{MOST_WIDTH};
ghost use Rattle.mintc_verilog_expressions.specs.Lexemes.{value_from};
ghost use Rattle.mintc_vlex.specs.declared.bytes.Class.TheVariants as class;
ghost use Rattle.mintc_vlex.specs.Bytes.{is_in, run};

/// The value of the digits. None exactly where it is above the limit.
pub(crate) fn value_within(digits: &[u8], most: u32) -> Option<u32>
    requires { most ≤ MOST_WIDTH }
    ensures { MatchOption result (most < value_from 0 digits.now) (λ n. (n ≡ value_from 0 digits.now) × (n ≤ most)) }
{
    let mut value: u32 = 0;
    for at in 0..digits.len() {
        value = 10 * value + u32::from(digits[at].saturating_sub(48));
        if value > most {
            return None;
        }
    }
    Some(value)
}

/// Whether a byte is a decimal digit.
fn is_digit(b: u8) -> bool
    ensures { result ≡ is_in class.Digit b }
{
    b'0' <= b && b <= b'9'
}

/// How many digits stand at the front.
pub(crate) fn digit_count(bytes: &[u8]) -> usize
    ensures value { result ≡ run (is_in class.Digit) bytes.now }
    ensures within { result ≤ length bytes.now }
{
    for at in 0..bytes.len() {
        if !is_digit(bytes[at]) {
            return at;
        }
    }
    bytes.len()
}
