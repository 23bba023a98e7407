//! Small designs as tables.
use std::alloc::{AllocError, Global};

/// A table with so many elements and inner bits, and these arcs.
#[derive(Clone, Copy)]
pub(crate) struct Case {
    pub name: &'static str,
    pub elements: u32,
    pub inner: u32,
    pub arcs: &'static [&'static str],
}

/// Adds a row, where there was memory for it.
pub(crate) fn push_row(
    text: &mut String,
    row: Result<String, AllocError>,
) -> Result<(), AllocError> {
    text.push_str(&row?)
}

/// Adds a row for each of so many elements.
pub(crate) fn push_elements(text: &mut String, elements: u32) -> Result<(), AllocError> {
    for _ in 0..elements {
        text.push_str("element a 1 0 - 0 0 0\n")?;
    }
    Ok(())
}

/// Adds the inner bits and the arcs of a case.
fn push_arcs(alloc: Global, text: &mut String, case: &Case) -> Result<(), AllocError> {
    let (inner, count) = (case.inner, case.arcs.len());
    push_row(text, format!(in alloc; "inner {inner}\narcs {count}\n"))?;
    for arc in case.arcs {
        push_row(text, format!(in alloc; "arc {arc}\n"))?;
    }
    text.push_str("bounds 0\nend\n")
}

/// The text of a case's table.
pub(crate) fn text_of(alloc: Global, case: &Case) -> Result<String, AllocError> {
    let elements = case.elements;
    let mut text = format!(in alloc; "table 1\nphases 1\nphase p\nelements {elements}\n")?;
    push_elements(&mut text, elements)?;
    push_arcs(alloc, &mut text, case)?;
    Ok(text)
}

pub(crate) const NINE: Case = Case {
    name: "nine elements",
    elements: 9,
    inner: 1,
    arcs: &[
        "q0 n0 1 1",
        "q1 n0 2 2",
        "q2 n0 3 3",
        "q3 n0 4 4",
        "q4 n0 5 5",
        "q5 n0 6 6",
        "q6 n0 7 7",
        "q7 n0 8 8",
        "q8 n0 9 9",
        "n0 d0 0 0",
    ],
};

pub(crate) const INNER: Case = Case {
    name: "an inner bit",
    elements: 2,
    inner: 1,
    arcs: &["q0 n0 15 15", "n0 d1 5 5", "q1 d0 60 60"],
};

pub(crate) const PATHS: Case = Case {
    name: "two paths",
    elements: 2,
    inner: 1,
    arcs: &["q0 d1 20 20", "q0 n0 1 1", "n0 d1 2 2"],
};

pub(crate) const AT_LIMIT: Case = Case {
    name: "a sum of 10^9",
    elements: 1,
    inner: 1,
    arcs: &["q0 n0 1000000000 1000000000", "n0 d0 0 0"],
};

pub(crate) const ABOVE_LIMIT: Case = Case {
    name: "a sum above 10^9",
    elements: 1,
    inner: 1,
    arcs: &["q0 n0 1000000000 1000000000", "n0 d0 1 1"],
};

pub(crate) const UNLED: Case = Case {
    name: "arcs above 10^9 that no element leads to",
    elements: 1,
    inner: 3,
    arcs: &["n0 n1 1000000000 1000000000", "n1 n2 1 1", "q0 d0 5 6"],
};

pub(crate) const NONE: Case = Case {
    name: "no arcs",
    elements: 2,
    inner: 0,
    arcs: &[],
};

pub(crate) const PARALLEL: Case = Case {
    name: "parallel arcs",
    elements: 2,
    inner: 2,
    arcs: &[
        "q0 n0 1 5",
        "q0 n0 2 3",
        "n0 n1 0 7",
        "n0 d1 4 4",
        "n1 d1 1 1",
        "n1 d0 2 9",
        "q1 n1 3 3",
        "q0 d1 6 6",
        "q1 d0 10 40",
        "q1 d0 20 30",
    ],
};

pub(crate) const SELVES: Case = Case {
    name: "elements that lead to themselves",
    elements: 3,
    inner: 2,
    arcs: &[
        "q0 d0 5 6",
        "q1 n0 1 2",
        "n0 d1 3 4",
        "n0 n1 1 1",
        "n1 d1 0 9",
        "n1 d2 7 7",
        "q2 n1 2 2",
    ],
};

pub(crate) const ENDS: Case = Case {
    name: "a bit that no path leads to, and one that leads nowhere",
    elements: 2,
    inner: 3,
    arcs: &[
        "n0 d1 1 1",
        "n0 n1 1 1",
        "n1 d0 2 2",
        "q0 n2 3 3",
        "q1 n1 1 5",
    ],
};

pub(crate) const DIAMOND: Case = Case {
    name: "a diamond",
    elements: 1,
    inner: 3,
    arcs: &[
        "n2 d0 0 0",
        "n1 n2 4 4",
        "n0 n2 1 9",
        "n0 n1 1 1",
        "q0 n0 2 3",
    ],
};

pub(crate) const ELEVEN: Case = Case {
    name: "elements beyond eight",
    elements: 11,
    inner: 2,
    arcs: &[
        "q0 n0 0 1",
        "q1 n1 1 2",
        "q2 n0 2 3",
        "q3 n1 3 4",
        "q4 n0 4 5",
        "q5 n1 5 6",
        "q6 n0 6 7",
        "q7 n1 7 8",
        "q8 n0 8 9",
        "q9 n1 9 10",
        "q10 n0 10 11",
        "n0 n1 1 2",
        "n1 d9 0 0",
        "n0 d10 5 5",
        "q8 d8 1 2",
        "q9 d0 3 4",
    ],
};
