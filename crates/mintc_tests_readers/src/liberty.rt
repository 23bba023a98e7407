//! Liberty texts of mintc_liberty: the cells that they say, those that are passed over, the statement at fault
//! (refusal 1), and that long and deep texts take little of the stack.
mod cases;
mod presorting;

use super::cell_texts::cells_text;
use cases::{FORMS, KINDS, OTHER_FORMS, SEVERAL, UNUSABLE_CELLS, WORKED};
use mintc_liberty::read_liberty;
use mintc_text::{Refusal, Role, Stop};
use std::alloc::{AllocError, Global};
use std::process::Abort;
use std::test::Fail;

/// What a text is read as.
fn read(rt: &impl Abort, alloc: Global, text: &[u8]) -> Result<String, AllocError> {
    assert!(rt; text.len() < 60_000_000);
    match read_liberty(alloc, text) {
        Ok(cells) => cells_text(alloc, &cells),
        Err(
            Stop::Refused(
                Refusal::Syntax {
                    role: Role::Cells,
                    entry,
                },
            ),
        ) => format!(in alloc; "syntax {entry}"),
        Err(_) => String::from_str(alloc, "another refusal"),
    }
}

/// Texts are read as what stands beside them.
fn are_read(rt: &impl Abort, alloc: Global, cases: &[(&str, &str)]) -> Result<(), AllocError> {
    for (text, said) in cases {
        let found = read(rt, alloc, text.as_bytes())?;
        assert!(rt; found.as_str() == *said, "{text}");
    }
    Ok(())
}

/// Whether a text is of a cell C that is said so.
fn is_of_cell(text: &str, said: &str) -> bool {
    match text.strip_prefix("C ") {
        Some(rest) => rest.strip_suffix(";") == Some(said),
        None => false,
    }
}

/// What a library of one cell C with this inside is read as.
fn read_cell(rt: &impl Abort, alloc: Global, inside: &str) -> Result<String, AllocError> {
    let text = format!(in alloc; "library (t) {{ cell (C) {{ {inside} }} }}")?;
    read(rt, alloc, text.as_bytes())
}

/// A library of one cell C with this inside is read as C with what stands beside it.
fn are_cells(rt: &impl Abort, alloc: Global, cases: &[(&str, &str)]) -> Result<(), AllocError> {
    for (inside, said) in cases {
        let found = read_cell(rt, alloc, inside)?;
        assert!(rt; is_of_cell(found.as_str(), said), "{inside}");
    }
    Ok(())
}

#[test]
fn worked_libraries_have_their_cells(rt: HostRuntime) -> Result<(), Fail> {
    are_read(&rt, rt.alloc(), &WORKED)?;
    Ok(())
}

#[test]
fn refusal_1_names_the_statement_at_fault(rt: HostRuntime) -> Result<(), Fail> {
    are_read(&rt, rt.alloc(), &FORMS)?;
    Ok(())
}

#[test]
fn several_cells_are_kept_or_passed_over(rt: HostRuntime) -> Result<(), Fail> {
    are_read(&rt, rt.alloc(), &SEVERAL)?;
    Ok(())
}

#[test]
fn cells_have_their_kind_and_pins(rt: HostRuntime) -> Result<(), Fail> {
    are_cells(&rt, rt.alloc(), &KINDS)?;
    Ok(())
}

#[test]
fn what_is_said_twice_or_in_another_form_has_its_meaning(rt: HostRuntime) -> Result<(), Fail> {
    are_cells(&rt, rt.alloc(), &OTHER_FORMS)?;
    Ok(())
}

/// What a library of a cell B with this inside, and of a cell C, is read as.
fn read_beside(rt: &impl Abort, alloc: Global, inside: &str) -> Result<String, AllocError> {
    let text = format!(in alloc;
        "library (t) {{ cell (B) {{ {inside} }} cell (C) {{ pin (Y) {{ direction : output ; }} }} }}"
    )?;
    read(rt, alloc, text.as_bytes())
}

#[test]
fn unusable_cells_are_passed_over(rt: HostRuntime) -> Result<(), Fail> {
    for inside in UNUSABLE_CELLS.iter() {
        let found = read_beside(&rt, rt.alloc(), inside)?;
        assert!(rt; found.as_str() == "C gate [] [Y];", "{inside}");
    }
    Ok(())
}

/// So many pieces between a head and a tail.
fn repeated(
    alloc: Global,
    head: &[u8],
    piece: &[u8],
    count: usize,
    tail: &[u8],
) -> Result<Vec<u8>, AllocError> {
    let mut text = Vec::new(alloc);
    text.extend_from_slice(head)?;
    for _ in 0..count {
        text.extend_from_slice(piece)?;
    }
    text.extend_from_slice(tail)?;
    Ok(text)
}

/// What a library is read as with groups that nest so deep in it.
fn nested(rt: &impl Abort, alloc: Global, depth: usize) -> Result<String, AllocError> {
    let head = repeated(alloc, b"library (t) {", b"g(){", depth, b"")?;
    let text = repeated(alloc, &head, b"}", depth, b"}")?;
    read(rt, alloc, &text)
}

#[test]
fn refusal_1_comes_where_groups_nest_too_deep(rt: HostRuntime) -> Result<(), Fail> {
    for (depth, said) in &[(63, ""), (64, "syntax 1"), (200_000, "syntax 1")] {
        let found = nested(&rt, rt.alloc(), *depth)?;
        assert!(rt; found.as_str() == *said, "{depth}");
    }
    Ok(())
}

#[test]
fn many_comments_are_skipped(rt: HostRuntime) -> Result<(), Fail> {
    let text = repeated(rt.alloc(), b"library (t) {", b"a(/* );", 100_000, b"}")?;
    assert!(rt; read(&rt, rt.alloc(), &text)?.is_empty());
    Ok(())
}

#[test]
fn a_long_value_is_skipped(rt: HostRuntime) -> Result<(), Fail> {
    let text = repeated(
        rt.alloc(),
        b"library (t) { a : ",
        b"\"x\" ",
        200_000,
        b"; }",
    )?;
    assert!(rt; read(&rt, rt.alloc(), &text)?.is_empty());
    Ok(())
}

/// A clock cell whose function is in so many parentheses.
fn enclosed(
    rt: &impl Abort,
    alloc: Global,
    opening: usize,
    inside: &str,
    closing: usize,
) -> Result<String, AllocError> {
    let head = repeated(
        alloc,
        b"library (t) { cell (C) { pin (AB) { direction : input ; clock : true ; } pin (Y) { direction : output ; \
         function : \"",
        b"(",
        opening,
        inside.as_bytes(),
    )?;
    let text = repeated(alloc, &head, b")", closing, b"\" ; } } }")?;
    read(rt, alloc, &text)
}

/// How many parentheses open, what stands in them, how many close, and what the cell is read as.
const ENCLOSED: &[(usize, &str, usize, &str)] = &[
    (4_000, "AB", 4_000, "C clock AB Y false [];"),
    (4_000, "A B", 4_000, "C clock AB Y false [];"),
    (4_000, "! AB", 4_000, "C clock AB Y true [];"),
    (4_000, "AB '", 4_000, "C clock AB Y true [];"),
    (4_000, "\" ( AB ) \"", 4_000, "C clock AB Y false [];"),
    (4_000, "AB", 3_999, "C gate [AB] [Y];"),
    (3_999, "AB", 4_000, "C gate [AB] [Y];"),
    (4_000, "A", 4_000, "C gate [AB] [Y];"),
    (4_000, "!AB'", 4_000, "C gate [AB] [Y];"),
    (4_000, "", 4_000, "C gate [AB] [Y];"),
    (4_000, "AB)(AB", 4_000, "C gate [AB] [Y];"),
    (400_000, "!AB", 400_000, "C clock AB Y true [];"),
];

#[test]
fn long_expressions_mean_what_short_ones_do(rt: HostRuntime) -> Result<(), Fail> {
    for (opening, inside, closing, wanted) in ENCLOSED {
        let found = enclosed(&rt, rt.alloc(), *opening, inside, *closing)?;
        assert!(rt; found.as_str() == *wanted, "with {inside}");
    }
    Ok(())
}
