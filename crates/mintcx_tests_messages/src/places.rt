//! Places by hand.
use mintc_text::OutOfMemory;
use mintcx_places::{
    Range, entry_range, excerpt_of, library_statement_range, line_range, spot_of, statement_range,
};
use std::process::Abort;

/// A text, a number, and the range that has it.
type Row = (&'static str, u32, Option<(usize, usize)>);

const LINES: &[Row] = &[
    ("", 0, None),
    ("", 1, None),
    ("a\n", 1, Some((0, 1))),
    ("a\n", 2, None),
    ("a\r\nbc", 1, Some((0, 1))),
    ("a\r\nbc", 2, Some((3, 5))),
    ("a\r\nbc", 3, None),
    ("\n\nx\n", 2, Some((1, 1))),
    ("\n\nx\n", 3, Some((2, 3))),
    ("\n\nx\n", 4, None),
    ("\n\nx\n", 5, None),
    ("\r", 1, Some((0, 0))),
];

const STATEMENTS: &[Row] = &[
    ("", 0, None),
    ("", 1, None),
    (" /* ; */ a b ;\nendmodule c;", 1, Some((9, 14))),
    (" /* ; */ a b ;\nendmodule c;", 2, Some((15, 24))),
    (" /* ; */ a b ;\nendmodule c;", 3, Some((25, 27))),
    (" /* ; */ a b ;\nendmodule c;", 4, None),
    ("a b // c;\n", 1, Some((0, 3))),
    ("(* x *) module m ( a ) ; ", 1, Some((8, 24))),
];

fn is_range(range: Option<Range>, wanted: Option<(usize, usize)>) -> bool {
    match (range, wanted) {
        (None, None) => true,
        (Some(range), Some((from, to))) => range.from == from && range.to == to,
        _ => false,
    }
}

#[test]
fn lines_have_their_places(rt: HostRuntime) {
    for (text, number, wanted) in LINES {
        assert!(rt; is_range(line_range(text.as_bytes(), *number), *wanted));
    }
}

#[test]
fn statements_have_their_places(rt: HostRuntime) {
    for (text, number, wanted) in STATEMENTS {
        assert!(rt; is_range(statement_range(text.as_bytes(), *number), *wanted));
    }
}

#[test]
fn spots_are_counted_from_1(rt: HostRuntime) {
    let spot = spot_of(b"ab\n\tc\n", 4);
    assert!(rt; spot.line == 2 && spot.column == 2);
    let end = spot_of(b"ab\n\tc\n", 6);
    assert!(rt; end.line == 3 && end.column == 1);
}

/// A text, a range of it, the line that is shown, and where its marks begin and how many there are.
type Shown = (&'static str, (usize, usize), &'static str, (usize, usize));

const EXCERPTS: &[Shown] = &[
    ("a\nbcd\ne", (3, 4), "bcd", (1, 1)),
    ("a\nbcd\ne", (3, 7), "bcd", (1, 2)),
    ("a\nbcd\ne", (5, 5), "bcd", (3, 1)),
    ("\tx\ty\r\n", (2, 4), "    x    y", (5, 5)),
    ("\u{e9}\u{1}z", (0, 4), "???z", (0, 4)),
    ("", (0, 0), "", (0, 1)),
];

#[test]
fn excerpts_are_as_shown(rt: HostRuntime) -> Result<(), OutOfMemory> {
    for (text, range, line, marks) in EXCERPTS {
        let range = Range {
            from: range.0,
            to: range.1,
        };
        let excerpt = excerpt_of(rt.alloc(), text.as_bytes(), &range)?;
        assert!(rt; excerpt.line.items() == line.as_bytes());
        assert!(rt; excerpt.caret == marks.0 && excerpt.marks == marks.1);
    }
    Ok(())
}

#[test]
fn long_lines_are_cut(rt: HostRuntime) -> Result<(), OutOfMemory> {
    let mut text = Vec::new(rt.alloc());
    text.resize(1000, b'x')?;
    let range = Range { from: 500, to: 900 };
    let excerpt = excerpt_of(rt.alloc(), text.as_slice(), &range)?;
    assert!(rt; excerpt.line.items().len() == 106);
    assert!(rt;
        excerpt.line.items().starts_with(b"...x") && excerpt.caret == 63 && excerpt.marks == 40
    );
    Ok(())
}

const ENTRIES: &[Row] = &[
    ("", 1, None),
    ("(DELAYFILE\n", 0, None),
    ("(DELAYFILE\n", 1, None),
    (
        "(DELAYFILE (A) /* ( */\n ( B (C \"(\")) ( D\nE (F) )\n)",
        1,
        Some((11, 14)),
    ),
    (
        "(DELAYFILE (A) /* ( */\n ( B (C \"(\")) ( D\nE (F) )\n)",
        2,
        Some((24, 36)),
    ),
    (
        "(DELAYFILE (A) /* ( */\n ( B (C \"(\")) ( D\nE (F) )\n)",
        3,
        Some((37, 48)),
    ),
    (
        "(DELAYFILE (A) /* ( */\n ( B (C \"(\")) ( D\nE (F) )\n)",
        4,
        None,
    ),
    ("(DELAYFILE (A) (B\r\n (C)", 2, Some((15, 17))),
    ("(DELAYFILE (A) B (C)", 2, None),
];

const LIBRARY: &[Row] = &[
    ("", 1, None),
    ("library (l) {\n", 0, None),
    ("library (l) {\n", 1, None),
    (
        "library (l) {\n a : 1;\n c (d) {\n e : 2\n",
        1,
        Some((15, 23)),
    ),
    (
        "library (l) {\n a : 1;\n c (d) {\n e : 2\n",
        2,
        Some((23, 38)),
    ),
    ("library (l) {\n a : 1;\n c (d) {\n e : 2\n", 3, None),
    ("library (l) {\n a : 1;\n} extra", 2, None),
    ("library (l) { ; }", 1, Some((14, 17))),
];

#[test]
fn entries_have_their_places(rt: HostRuntime) {
    for (text, number, wanted) in ENTRIES {
        assert!(rt; is_range(entry_range(text.as_bytes(), *number), *wanted));
    }
}

#[test]
fn library_statements_have_their_places(rt: HostRuntime) {
    for (text, number, wanted) in LIBRARY {
        assert!(rt; is_range(library_statement_range(text.as_bytes(), *number), *wanted));
    }
}
