//! Canonical numerals.
ghost use Rattle.std.specs.Prelude.{◌≡◌, ◌∷◌, ℕ, ℤ, pos, ◌<◌, ◌^◌, Option, MatchOption, IfSome, IsTrue, ◌↔◌};
ghost use Rattle.std.specs.Prelude.{slice_index, length, take, decimal, ◌≤◌};
ghost use Rattle.std.specs.Str.Parse.{AllDigits, digits_value};
ghost use Rattle.mintc_text.specs.Lines.{numeral_of, IsWithin};

/// Whether some bytes begin with a zero and go on.
fn has_leading_zero(digits: &[u8]) -> bool
    ensures { IsTrue result ↔ ((slice_index digits.now 0 ≡ 48) × (1 < length digits.now)) }
{
    digits.len() > 1 && digits[0] == b'0'
}

/// The number that digits without a leading zero write, at most 19 of them. None of other bytes.
fn magnitude(digits: &[u8]) -> Option<u64>
    ensures value { MatchOption result ((n : ℕ) → n < 10 ^ 19 → digits.now ≡ decimal n →
        ⊥) (λ n. digits.now ≡ decimal n) }
    ensures small { IfSome result (λ n. n < 10 ^ 19) }
{
    if digits.is_empty() || digits.len() > 19 || has_leading_zero(digits) {
        return None;
    }
    let mut value = 0u64;
    for byte in digits {
        let digit = u64::from(*byte).wrapping_sub(48);
        if digit > 9 {
            return None;
        }
        value = value * 10 + digit;
    }
    Some(value)
}

/// The digits that some bytes begin with, at most 18 of them: the number that they write, and how many they are.
pub fn leading_digits(bytes: &[u8]) -> (u64, usize)
    ensures few { result.1 ≤ 18 }
    ensures within { result.1 ≤ length bytes.now }
    ensures digits { AllDigits 10 (take result.1 bytes.now) }
    ensures ends { result.1 < 18 → result.1 < length bytes.now → (48 ≤ slice_index bytes.now result.1)
        × (slice_index bytes.now result.1 ≤ 57) → ⊥ }
    ensures value { result.0 ≡ digits_value 10 (take result.1 bytes.now) }
{
    let most = bytes.len().min(18);
    let mut value = 0u64;
    for at in 0..most {
        let digit = u64::from(bytes[at]).wrapping_sub(48);
        if digit > 9 {
            return (value, at);
        }
        value = value * 10 + digit;
    }
    (value, most)
}

/// The number that digits write after a minus, from `least` to `most`. None of `0` and of other bytes.
fn below_zero(digits: &[u8], least: i64, most: i64) -> Option<i64>
    ensures { MatchOption result ((z : ℤ) → IsWithin least most z → 45 ∷ digits.now ≡ numeral_of z → ⊥)
        (λ v. IsWithin least most v × (45 ∷ digits.now ≡ numeral_of v)) }
{
    match magnitude(digits) {
        Some(size) if 0 < size && size <= 1 << 63 => {
            let value = -1 - (size - 1) as i64;
            if least <= value && value <= most {
                Some(value)
            } else {
                None
            }
        }
        _ => None,
    }
}

/// The number that digits write, from `least` to `most`. None of other bytes.
fn from_zero(digits: &[u8], least: i64, most: i64) -> Option<i64>
    ensures { MatchOption result ((n : ℕ) → IsWithin least most (pos n) → digits.now ≡ decimal n → ⊥)
        (λ v. IsWithin least most v × (digits.now ≡ numeral_of v)) }
{
    match magnitude(digits) {
        Some(size) if size <= i64::MAX as u64 => {
            let value = size as i64;
            if least <= value && value <= most {
                Some(value)
            } else {
                None
            }
        }
        _ => None,
    }
}

/// The value of a canonical numeral, which is `0`, or an optional `-` and digits without a leading zero, from `least`
/// to `most`. None where the word is none.
pub fn numeral(word: &[u8], least: i64, most: i64) -> Option<i64>
    ensures { MatchOption result ((z : ℤ) → IsWithin least most z → word.now ≡ numeral_of z → ⊥)
        (λ v. IsWithin least most v × (word.now ≡ numeral_of v)) }
{
    match word {
        [b'-', digits @ ..] => below_zero(digits, least, most),
        _ => from_zero(word, least, most),
    }
}
