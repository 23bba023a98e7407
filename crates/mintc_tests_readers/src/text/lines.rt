//! Texts that are read by lines and words, and one that is written.
use mintc_text::{Cursor, Lines, OutOfMemory, word};
use std::alloc::Global;
use std::process::Abort;
use std::test::Fail;

#[test]
fn a_cursor_gives_lines(rt: HostRuntime) {
    let mut cursor = Cursor::new(b"one\n\ntwo");
    for line in &[Some(b"one".as_slice()), Some(b"".as_slice()), None] {
        assert!(rt; cursor.line() == *line);
    }
    assert!(rt; cursor.rest() == b"two".as_slice());
}

/// Places of a line, and the word that is there.
const WORDS: &[(usize, Option<(usize, usize)>)] = &[
    (0, Some((0, 2))),
    (1, Some((1, 2))),
    (2, None),
    (3, Some((3, 5))),
    (6, None),
    (7, Some((7, 8))),
    (8, None),
];

#[test]
fn words_stand_between_spaces(rt: HostRuntime) {
    let line = b"ab !~ \x7fc".as_slice();
    for (from, found) in WORDS {
        assert!(rt; *from <= line.len());
        assert!(rt; word(line, *from) == *found, "at {from}");
    }
}

/// Puts words with numbers, a line feed, a fraction and a list.
fn put(lines: &mut Lines) -> Result<(), OutOfMemory> {
    for (word, number) in &[(b"cycle ".as_slice(), i128::MIN), (b" ".as_slice(), 0)] {
        lines.put(word)?;
        lines.number(*number)?;
    }
    lines.put(b"\n")?;
    lines.fraction(-12, 5)?;
    lines.numbers(&[7, 0, u32::MAX])
}

/// The text of them.
fn written(alloc: Global) -> Result<Vec<u8>, OutOfMemory> {
    let mut lines = Lines::new(alloc);
    put(&mut lines)?;
    Ok(lines.into_bytes())
}

const WRITTEN: &[u8] = b"cycle -170141183460469231731687303715884105728 0\n-12/5 7 0 4294967295";

#[test]
fn numbers_fractions_and_lists_are_written(rt: HostRuntime) -> Result<(), Fail> {
    let bytes = written(rt.alloc())?;
    assert!(rt; bytes.as_slice() == WRITTEN);
    Ok(())
}
