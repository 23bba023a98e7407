//! The refusal that a topic names.
ghost use Rattle.std.specs.Prelude.{ℕ, List, ◌≡◌, ◌++◌, MatchOption, codes, decimal};
ghost use Rattle.mintcx_explanations.specs.Explanations.{IsRefusalNumber, Names};

use mintc_text::numeral;

/// The number of a refusal that a word is the numeral of. None where no refusal has it.
fn number_of(word: &[u8]) -> Option<u32>
    ensures { MatchOption result ((n : ℕ) → IsRefusalNumber n → word.now ≡ decimal n → ⊥)
        (λ n. IsRefusalNumber n × (word.now ≡ decimal n)) }
{
    match numeral(word, 1, 22) {
        Some(number) if number != 20 => Some(number as u32),
        _ => None,
    }
}

/// What stands between `error[` and `]`. None where a topic doesn't begin and end so.
fn in_brackets(topic: &[u8]) -> Option<&[u8]>
    ensures { MatchOption result ((inner : List ℕ) → topic.now ≡ codes "error[" ++ (inner ++ codes "]") → ⊥)
        (λ inner. topic.now ≡ codes "error[" ++ (inner.now ++ codes "]")) }
{
    match topic.strip_prefix(b"error[") {
        Some(rest) => rest.strip_suffix(b"]"),
        None => None,
    }
}

/// The number of the refusal that a topic names: by its numeral, alone or as in `error[8]`. None where a topic names no
/// refusal.
pub fn topic_number(topic: &[u8]) -> Option<u32>
    ensures { MatchOption result ((n : ℕ) → IsRefusalNumber n → Names topic.now n → ⊥)
        (λ n. IsRefusalNumber n × Names topic.now n) }
{
    match number_of(topic) {
        Some(number) => Some(number),
        None => match in_brackets(topic) {
            Some(inner) => number_of(inner),
            None => None,
        },
    }
}
