//! Delays of mintc_sdf: worked texts with what they say, and texts that are refused by number 1 (syntax), 12
//! (negative) or 18 (range).

use mintc_sdf::{Delay, Place, Subject, read_delays};
use mintc_tests_designs::TWO_DELAYS;
use mintc_text::{Name, Refusal, Role, Stop};
use std::alloc::{AllocError, Global};
use std::process::Abort;
use std::test::Fail;

/// Adds a word and its names.
fn add_names(out: &mut Vec<u8>, word: &[u8], names: &[Name]) -> Result<(), AllocError> {
    out.extend_from_slice(word)?;
    for name in names {
        out.push(b' ')?;
        out.extend_from_slice(name.bytes())?;
    }
    Ok(())
}

/// Adds a word and a pin.
fn add_pin(out: &mut Vec<u8>, word: &[u8], pin: &Name) -> Result<(), AllocError> {
    out.extend_from_slice(word)?;
    out.extend_from_slice(pin.bytes())?;
    Ok(())
}

/// Adds where a delay is.
fn add_place(out: &mut Vec<u8>, place: &Place) -> Result<(), AllocError> {
    match place {
        Place::Top => add_names(out, b" top", &[]),
        Place::Every => add_names(out, b" every", &[]),
        Place::Path(names) => add_names(out, b" at", names.items()),
    }
}

/// Adds what a delay is of.
fn add_subject(out: &mut Vec<u8>, delay: &Delay) -> Result<(), AllocError> {
    match &delay.subject {
        Subject::Iopath { from, to } => {
            add_pin(out, b" from ", from)?;
            add_pin(out, b" to ", to)
        }
        Subject::Interconnect { to } => {
            add_names(out, b" wire", to.items())?;
            add_pin(out, b" type ", &delay.celltype)
        }
        Subject::Port { pin } => add_pin(out, b" port ", pin),
        Subject::Setup { pin } => add_pin(out, b" setup ", pin),
        Subject::Hold { pin } => add_pin(out, b" hold ", pin),
        Subject::Width { pin } => add_pin(out, b" width ", pin),
    }
}

/// Adds a line that a delay is.
fn add_delay(out: &mut Vec<u8>, alloc: Global, delay: &Delay) -> Result<(), AllocError> {
    let Delay {
        entry,
        least,
        greatest,
        ..
    } = delay;
    out.extend_from_slice(format!(in alloc; "{entry} ")?.as_bytes())?;
    out.extend_from_slice(delay.celltype.bytes())?;
    add_place(out, &delay.place)?;
    add_subject(out, delay)?;
    out.extend_from_slice(format!(in alloc; " {least} {greatest}")?.as_bytes())?;
    Ok(())
}

/// Delays with a stroke between them.
fn delays_text(alloc: Global, delays: &[Delay]) -> Result<Vec<u8>, AllocError> {
    let mut out = Vec::new(alloc);
    for delay in delays {
        if !out.is_empty() {
            out.extend_from_slice(b" | ")?;
        }
        add_delay(&mut out, alloc, delay)?;
    }
    Ok(out)
}

/// Why there are no delays: a word and an entry.
fn stop_text(alloc: Global, stop: &Stop) -> Result<Vec<u8>, AllocError> {
    let (word, entry) = match stop {
        Stop::Refused(
            Refusal::Syntax {
                role: Role::Delays,
                entry,
            },
        ) => ("syntax", *entry),
        Stop::Refused(Refusal::Range { entry }) => ("range", *entry),
        Stop::Refused(Refusal::Negative { entry }) => ("negative", *entry),
        _ => ("other", 0),
    };
    Ok(format!(in alloc; "{word} {entry}")?.into_bytes())
}

/// What a text gives: its delays with a stroke between them, or its refusal.
fn answer(alloc: Global, text: &[u8]) -> Result<Vec<u8>, AllocError> {
    if text.len() > 67_108_864 {
        return Ok(Vec::new(alloc));
    }
    match read_delays(alloc, text) {
        Ok(delays) => delays_text(alloc, delays.items.items()),
        Err(stop) => stop_text(alloc, &stop),
    }
}

/// A text gives what is wanted.
fn is_answered(rt: &impl Abort, alloc: Global, text: &str, wanted: &str) -> Result<(), AllocError> {
    let found = answer(alloc, text.as_bytes())?;
    assert!(rt; found.as_slice() == wanted.as_bytes(), "{text}");
    Ok(())
}

/// A file with one CELL of a leaf, its second entry, in femtoseconds.
fn leaf(alloc: Global, parts: &str) -> Result<String, AllocError> {
    format!(in alloc; "(DELAYFILE(TIMESCALE 1 fs)(CELL(CELLTYPE \"C\")(INSTANCE i){parts}))")
}

/// A file with one definition.
fn definition(alloc: Global, text: &str) -> Result<String, AllocError> {
    leaf(
        alloc,
        format!(in alloc; "(DELAY(ABSOLUTE {text}))")?.as_str(),
    )
}

/// A file with one CELL of a leaf with these parts gives what is wanted.
fn leaf_is_answered(
    rt: &impl Abort,
    alloc: Global,
    parts: &str,
    wanted: &str,
) -> Result<(), AllocError> {
    let text = leaf(alloc, parts)?;
    is_answered(rt, alloc, text.as_str(), wanted)
}

/// A file with one definition gives what is wanted.
fn definition_is_answered(
    rt: &impl Abort,
    alloc: Global,
    defined: &str,
    wanted: &str,
) -> Result<(), AllocError> {
    let text = definition(alloc, defined)?;
    is_answered(rt, alloc, text.as_str(), wanted)
}

#[test]
fn whole_files_are_read_or_refused(rt: HostRuntime) -> Result<(), Fail> {
    let alloc = rt.alloc();
    for (text, wanted) in &[
        (
            TWO_DELAYS,
            "4 BUF at u1 s b from A to Y 20 20 | 5 BUF at u2 s b from A to Y 50 60",
        ),
        (
            "(DELAYFILE (TIMESCALE 1 ns)\n(CELL (CELLTYPE \"BUF\") (INSTANCE b) (DELAY (ABSOLUTE (IOPATH A Y \
             (0.0123456::0.0123457))))))\n",
            "2 BUF at b from A to Y 12345 12346",
        ),
        (
            "(DELAYFILE (TIMESCALE 1 ns)\n(CELL (CELLTYPE \"LAT\") (INSTANCE l) (TIMINGCHECK (HOLD D G \
             (-0.000003)))))\n",
            "2 LAT at l hold D -3 -3",
        ),
        (
            "(DELAYFILE (SDFVERSION \"3.0\") (DIVIDER /) (TIMESCALE 1 ns)\n\
             (CELL (CELLTYPE \"BUF\") (INSTANCE b) (DELAY (ABSOLUTE (IOPATH A Y (-0.1))))))\n",
            "negative 4",
        ),
        (
            "(DELAYFILE (DIVIDER /) (TIMESCALE 1 fs)\n(CELL (CELLTYPE \"BUF\") (INSTANCE u1/s/b) (DELAY (ABSOLUTE \
             (IOPATH A Y (5)))))\n(CELL (CELLTYPE \"BUF\") (INSTANCE u1/s/b) (DELAY (ABSOLUTE (IOPATH A Y (3))))))\n",
            "3 BUF at u1 s b from A to Y 5 5 | 4 BUF at u1 s b from A to Y 3 3",
        ),
        (
            "(DELAYFILE (TIMESCALE 1 us)(CELL (CELLTYPE \"BUF\") (INSTANCE b) (DELAY (ABSOLUTE (IOPATH A Y \
             (1.0000000000000001))))))",
            "range 2",
        ),
        (
            "(DELAYFILE (TIMESCALE 1 us)(CELL (CELLTYPE \"BUF\") (INSTANCE b) (DELAY (ABSOLUTE (IOPATH A Y (1.0))))))",
            "2 BUF at b from A to Y 1000000000 1000000000",
        ),
        ("(DELAYFILE)", ""),
        (
            "(delayfile (Cell (celltype \"C\") (instance) (delay (absolute (port p (1))))))",
            "1 C top port p 1000000 1000000",
        ),
        (
            "(DELAYFILE (DIVIDER .) (TIMESCALE 100us) (TIMESCALE 10.0 ps) (DIVIDER /) (CELL (CELLTYPE \"C\") \
             (INSTANCE *) (DELAY (ABSOLUTE (PORT p (1))))))",
            "5 C every port p 10000 10000",
        ),
        (
            "(DELAYFILE // (DATE\n/* ( \" */ (DATE \")\\\"\" (a (b)) c) (CELL (CELLTYPE \"a\\\"b\") (INSTANCE a/*) \
             /**/ ) )",
            "",
        ),
        ("", "syntax 0"),
        ("DELAYFILE", "syntax 0"),
        ("(DELAYFILES)", "syntax 0"),
        ("(DELAYFILE) x", "syntax 1"),
        ("(DELAYFILE (DATE) ))", "syntax 2"),
        ("(DELAYFILE (DATE) (DATE", "syntax 2"),
        ("(DELAYFILE (DATE) x (DIVIDER !))", "syntax 2"),
        ("(DELAYFILE (DIVIDER !) (DATE \"))", "syntax 1"),
        ("(DELAYFILE (DIVIDER ..))", "syntax 1"),
        ("(DELAYFILE (TIMESCALE 2 ns))", "syntax 1"),
        ("(DELAYFILE (TIMESCALE 1 NS))", "syntax 1"),
        ("(DELAYFILE (TIMESCALE 1 n s))", "syntax 1"),
        (
            "(DELAYFILE (CELL (CELLTYPE \"C\") (INSTANCE)) (DATE))",
            "syntax 2",
        ),
        ("(DELAYFILE (CELL (CELLTYPE C) (INSTANCE)))", "syntax 1"),
        ("(DELAYFILE (CELL (INSTANCE) (CELLTYPE \"C\")))", "syntax 1"),
        (
            "(DELAYFILE (CELL (CELLTYPE \"C\") (INSTANCE a b)))",
            "syntax 1",
        ),
    ] {
        is_answered(&rt, alloc, text, wanted)?;
    }
    Ok(())
}

/// What a cut of the worked delays gives: as the whole where the last byte alone is cut, else a fault at this entry.
fn cut_wanted(alloc: Global, is_last: bool, entry: u32) -> Result<Vec<u8>, AllocError> {
    if is_last {
        answer(alloc, TWO_DELAYS.as_bytes())
    } else {
        Ok(format!(in alloc; "syntax {entry}")?.into_bytes())
    }
}

/// Whether a cut of the worked delays gives what is wanted.
fn is_cut_answered(
    alloc: Global,
    cut: &[u8],
    is_last: bool,
    entry: u32,
) -> Result<bool, AllocError> {
    let wanted = cut_wanted(alloc, is_last, entry)?;
    let found = answer(alloc, cut)?;
    Ok(found.as_slice() == wanted.as_slice())
}

#[test]
fn refusal_1_names_the_entry_at_a_cut(rt: HostRuntime) -> Result<(), Fail> {
    let alloc = rt.alloc();
    let text = TWO_DELAYS.as_bytes();
    let mut depth: u32 = 0;
    let mut whole: u32 = 0;
    for (cut, byte) in text.iter().enumerate() {
        let entry = if cut < 10 { 0 } else { whole.saturating_add(1) };
        let is_last = cut + 1 == text.len();
        assert!(rt;
            is_cut_answered(alloc, &text[..cut], is_last, entry)?,
            "{cut}"
        );
        if *byte == b'(' {
            depth = depth.saturating_add(1);
        }
        if *byte == b')' {
            depth = depth.saturating_sub(1);
            whole = whole.saturating_add((depth == 1) as u32);
        }
    }
    Ok(())
}

#[test]
fn definitions_of_delays_are_read_or_refused(rt: HostRuntime) -> Result<(), Fail> {
    let alloc = rt.alloc();
    for (text, wanted) in &[
        (
            "(IOPATH A Y (1:2:3) (:5:) () (4))",
            "2 C at i from A to Y 1 5",
        ),
        ("(IOPATH A Y (1 :2\t: 3))", "2 C at i from A to Y 1 3"),
        ("(IOPATH A Y (::) ())", ""),
        ("(IOPATH A Y (-0.0) (1e-1))", "2 C at i from A to Y 0 1"),
        (
            "(IOPATH A Y (1)(1)(1)(1)(1)(1)(1)(1)(1)(1)(1)(1))",
            "2 C at i from A to Y 1 1",
        ),
        (
            "(IOPATH A Y (1)(1)(1)(1)(1)(1)(1)(1)(1)(1)(1)(1)(1))",
            "syntax 2",
        ),
        ("(IOPATH A Y)", "syntax 2"),
        ("(IOPATH A Y (1 2))", "syntax 2"),
        ("(IOPATH A Y (1:2))", "syntax 2"),
        ("(IOPATH A Y (:))", "syntax 2"),
        ("(IOPATH A Y (1:2:3:4))", "syntax 2"),
        ("(IOPATH A Y (x))", "syntax 2"),
        ("(IOPATH A Y (\"1\"))", "syntax 2"),
        (
            "(IOPATH (posedge A\\[1\\]) (NEGEDGE Y) (1))",
            "2 C at i from A[1] to Y 1 1",
        ),
        (
            "(PORT (01 p) (1))(PORT (10 q) (2))(PORT (0z r) (3))",
            "2 C at i port p 1 1 | 2 C at i port q 2 2 | 2 C at i port r 3 3",
        ),
        (
            "(PORT (z1 p) (1))(PORT (1z q) (2))(PORT (z0 r) (3))",
            "2 C at i port p 1 1 | 2 C at i port q 2 2 | 2 C at i port r 3 3",
        ),
        ("(PORT (0Z p) (1))", "syntax 2"),
        ("(PORT (posedge p q) (1))", "syntax 2"),
        (
            "(INTERCONNECT a.b.c d\\.e.f (1))",
            "2 C at i wire d.e f type C 1 1",
        ),
        ("(INTERCONNECT (posedge a) b (1))", "syntax 2"),
        ("(RETAIN (1))", "syntax 2"),
        ("(IOPATH A Y (RETAIN (1)) (1))", "syntax 2"),
        ("(NETDELAY a (1))", "syntax 2"),
        ("(DEVICE (1))", "syntax 2"),
        (
            "(IOPATH A Y (1000000000))",
            "2 C at i from A to Y 1000000000 1000000000",
        ),
        ("(IOPATH A Y (-1000000001))", "range 2"),
        ("(IOPATH A Y (-1) (1e10))", "negative 2"),
        ("(IOPATH A Y (-1)) (PORT p (x))", "syntax 2"),
    ] {
        definition_is_answered(&rt, alloc, text, wanted)?;
    }
    Ok(())
}

#[test]
fn conditions_stand_for_their_last_item(rt: HostRuntime) -> Result<(), Fail> {
    let alloc = rt.alloc();
    for (text, wanted) in &[
        ("(COND a && (b) \"c\" (PORT p (1)))", "2 C at i port p 1 1"),
        ("(COND (PORT q (-1)) (PORT p (1)))", "2 C at i port p 1 1"),
        (
            "(COND (CONDELSE a b) (COND (x) (CONDELSE (PORT p (1)))))",
            "2 C at i port p 1 1",
        ),
        ("(CONDELSE (PORT p (1)))", "2 C at i port p 1 1"),
        (
            "(CONDELSE (COND a (COND b c (PORT p (1)))))",
            "2 C at i port p 1 1",
        ),
        ("(COND a (PORT p (1)) b)", "syntax 2"),
        ("(COND a (COND b (PORT p (1)) ()))", "syntax 2"),
        ("(COND a (CONDELSE b (PORT p (1))))", "syntax 2"),
        ("(CONDELSE (PORT q (1)) (PORT p (1)))", "syntax 2"),
        (
            "(COND a (CONDELSE (COND a b) (COND c (PORT p (1)))))",
            "syntax 2",
        ),
        ("(COND)", "syntax 2"),
        ("(CONDELSE)", "syntax 2"),
        ("(CONDELSE PORT)", "syntax 2"),
        ("(COND (COND))", "syntax 2"),
        ("(PORT (COND a (b) (COND c d)) (1))", "2 C at i port d 1 1"),
        ("(PORT (COND d) (1))", "2 C at i port d 1 1"),
        ("(PORT (COND a (negedge d)) (1))", "2 C at i port d 1 1"),
        ("(PORT (COND a \"d\") (1))", "syntax 2"),
        ("(PORT (COND a (CONDELSE d)) (1))", "syntax 2"),
        ("(PORT (COND) (1))", "syntax 2"),
        ("(PORT (COND a (COND)) (1))", "syntax 2"),
        ("(PORT (CONDELSE d) (1))", "syntax 2"),
    ] {
        definition_is_answered(&rt, alloc, text, wanted)?;
    }
    Ok(())
}

/// Conditions that nest, 400 deep.
fn nested_conditions(alloc: Global) -> Result<String, AllocError> {
    let mut text = String::new(alloc);
    for _ in 0..200 {
        text.push_str("(COND a (CONDELSE ")?;
    }
    text.push_str("(PORT (COND b (COND c d)) (1))")?;
    for _ in 0..200 {
        text.push_str("))")?;
    }
    Ok(text)
}

#[test]
fn conditions_nest_400_deep(rt: HostRuntime) -> Result<(), Fail> {
    let alloc = rt.alloc();
    let text = nested_conditions(alloc)?;
    definition_is_answered(&rt, alloc, text.as_str(), "2 C at i port d 1 1")?;
    Ok(())
}

#[test]
fn timing_checks_are_read_or_refused(rt: HostRuntime) -> Result<(), Fail> {
    let alloc = rt.alloc();
    for (text, wanted) in &[
        (
            "(TIMINGCHECK (SETUP d (posedge g) (1::2)) (HOLD d g (-3)) (WIDTH (posedge g) (4)))",
            "2 C at i setup d 1 2 | 2 C at i hold d -3 -3 | 2 C at i width g 4 4",
        ),
        (
            "(TIMINGCHECK (SETUPHOLD d g (-1.5) (2.5)))",
            "2 C at i setup d -2 -1 | 2 C at i hold d 2 3",
        ),
        (
            "(TIMINGCHECK (SETUPHOLD d g () ()) (RECREM x) (SKEW) (NOCHANGE (\")\")) (PERIOD) (RECOVERY) (REMOVAL) \
             (BIDIRECTSKEW))",
            "",
        ),
        ("(TIMINGCHECK (SETUPHOLD d g (-1000000001) (0)))", "range 2"),
        ("(TIMINGCHECK (WIDTH g (-1)))", "negative 2"),
        ("(TIMINGCHECK (SETUP d g (1) (2)))", "syntax 2"),
        ("(TIMINGCHECK (SETUPHOLD d g (1)))", "syntax 2"),
        ("(TIMINGCHECK (COND a (SETUP d g (1))))", "syntax 2"),
        (
            "(LABEL (ABSOLUTE)) (TIMINGENV x) (DELAY (PATHPULSE (1)) (PATHPULSEPERCENT x) (ABSOLUTE (PORT p (1))))",
            "2 C at i port p 1 1",
        ),
        ("(DELAY (INCREMENT (PORT p (1))))", "syntax 2"),
        ("(DELAY (PORT p (1)))", "syntax 2"),
        ("(ABSOLUTE)", "syntax 2"),
        ("x", "syntax 2"),
    ] {
        leaf_is_answered(&rt, alloc, text, wanted)?;
    }
    Ok(())
}
