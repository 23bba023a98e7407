//! Canonical numerals, at the limits of their ranges, and words that are none.
use mintc_text::numeral;

/// The least and the greatest number that are wanted.
type Range = (i64, i64);

const ALL: Range = (i64::MIN, i64::MAX);

/// A word, a range, and what the word says in it.
const NUMERALS: &[(&str, Range, Option<i64>)] = &[
    ("0", ALL, Some(0)),
    ("7", ALL, Some(7)),
    ("-7", ALL, Some(-7)),
    ("120", ALL, Some(120)),
    ("9223372036854775807", ALL, Some(i64::MAX)),
    ("-9223372036854775808", ALL, Some(i64::MIN)),
    ("9223372036854775808", ALL, None),
    ("-9223372036854775809", ALL, None),
    ("9999999999999999999", ALL, None),
    ("10000000000000000000", ALL, None),
    ("999999999", (0, 999_999_999), Some(999_999_999)),
    ("1000000000", (0, 999_999_999), None),
    ("-1", (0, 999_999_999), None),
    ("5", (6, 4), None),
];

/// Words that are no numerals.
const OTHERS: &[&str] = &[
    "", "-", "-0", "00", "01", "-01", "+1", "1-", " 1", "1 ", "1a", "0x1", "1.0", "--1", "/", ":",
];

#[test]
fn numerals_are_read_in_their_range(rt: HostRuntime) {
    for (word, (least, most), value) in NUMERALS {
        assert!(rt; numeral(word.as_bytes(), *least, *most) == *value, "{word}");
    }
}

#[test]
fn other_words_are_no_numerals(rt: HostRuntime) {
    for word in OTHERS {
        assert!(rt;
            numeral(word.as_bytes(), i64::MIN, i64::MAX).is_none(),
            "{word}"
        );
    }
}
