//! Which numbers have a page, how a page is laid out, and which topics name a refusal.
use mintcx_explanations::{explanation_of, topic_number};
use std::process::Abort;

/// Columns of a page.
const MOST_COLUMNS: usize = 78;

/// Numbers beyond those of refusals.
const MANY: u32 = 30;

const TOPICS: &[(&str, Option<u32>)] = &[
    ("1", Some(1)),
    ("8", Some(8)),
    ("error[8]", Some(8)),
    ("error[21]", Some(21)),
    ("22", Some(22)),
    ("0", None),
    ("20", None),
    ("23", None),
    ("08", None),
    ("-8", None),
    ("", None),
    ("error[]", None),
    ("error[20]", None),
    ("error[8", None),
    ("error[8]]", None),
    ("refused 8", None),
    ("same-phase", None),
];

/// Whether some refusal has the number.
fn is_of_refusal(number: u32) -> bool {
    1 <= number && number <= 22 && number != 20
}

/// Whether a text ends in one line feed, its second line is empty, an indented one follows, and no line is too wide.
fn is_laid_out(text: &str) -> bool {
    let has_example = text.contains("\n\n    ");
    let ends = text.ends_with("\n") && !text.ends_with("\n\n");
    let has_title = text.split('\n').nth(1) == Some("");
    let fits = text.split('\n').all(|line| line.len() <= MOST_COLUMNS);
    has_example && ends && has_title && fits
}

#[test]
fn each_refusal_has_a_page(rt: HostRuntime) {
    for number in 0..MANY {
        let found = explanation_of(number);
        assert!(rt; found.is_some() == is_of_refusal(number));
    }
}

#[test]
fn pages_are_laid_out_for_terminals(rt: HostRuntime) {
    for number in 0..MANY {
        if let Some(text) = explanation_of(number) {
            assert!(rt; is_laid_out(text));
        }
    }
}

#[test]
fn topics_name_refusals(rt: HostRuntime) {
    for (topic, number) in TOPICS {
        assert!(rt; topic_number(topic.as_bytes()) == *number);
    }
}
