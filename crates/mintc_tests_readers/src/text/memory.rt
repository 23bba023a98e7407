//! The outside in memory: reads and writes, of which some fail.
use mintc_tests_designs::shelf_of;
use mintc_text::{MemoryShelf, MemorySink, Shelf, ShelfError, Sink};
use std::alloc::Global;
use std::process::Abort;
use std::test::Fail;

/// Files, of which the first of a name counts.
const FILES: &[(&str, &str)] = &[("a", "first"), ("b", ""), ("a", "second")];

/// Whether a read gave this text, or failed where there is none.
fn gave(read: Result<Vec<u8>, ShelfError>, text: Option<&str>) -> bool {
    match (read, text) {
        (Ok(bytes), Some(text)) => bytes.as_slice() == text.as_bytes(),
        (Err(error), None) => error == ShelfError::Failed,
        _ => false,
    }
}

/// Reads, one after another: a name, how many bytes at most, and what is given, None where the read fails.
const READS: &[(&str, usize, Option<&str>)] = &[
    ("a", 100, Some("first")),
    ("a", 3, Some("fir")),
    ("a", 5, None),
    ("b", 1, Some("")),
    ("c", 1, None),
    ("c", 0, None),
    ("a", 0, Some("")),
];

/// A shelf gives what is wanted, read after read.
fn gives(rt: &impl Abort, alloc: Global, shelf: &mut MemoryShelf) {
    for (name, most, text) in READS {
        let read = shelf.read(alloc, name, *most);
        assert!(rt; gave(read, *text), "{name}, at most {most}");
    }
}

#[test]
fn a_shelf_gives_fronts_of_its_files(rt: HostRuntime) -> Result<(), Fail> {
    // Its calls 2 and 5 fail.
    let mut shelf = shelf_of(rt.alloc(), FILES, &[2, 5])?;
    gives(&rt, rt.alloc(), &mut shelf);
    Ok(())
}

/// A write: the bytes, whether it succeeds, and what the sink has taken after it.
type Write = (&'static str, bool, &'static str);

/// Whether a sink takes a write as it should.
fn is_taken(sink: &mut MemorySink, write: &Write) -> bool {
    let (bytes, succeeds, taken) = *write;
    sink.write(bytes.as_bytes()).is_ok() == succeeds && sink.taken() == taken.as_bytes()
}

/// A sink of this room, of which this call fails, takes these writes.
fn takes(
    rt: &impl Abort,
    alloc: Global,
    room: usize,
    failing: (u32, usize),
    writes: &[Write],
) -> Result<(), Fail> {
    let mut sink = MemorySink::new(alloc, room, Some(failing))?;
    for write in writes {
        assert!(rt; is_taken(&mut sink, write), "{}", write.0);
    }
    Ok(())
}

const WRITES: &[Write] = &[
    ("abc", true, "abc"),
    ("def", false, "abcde"),
    ("fghij", false, "abcdefgh"),
    ("", true, "abcdefgh"),
];

#[test]
fn a_sink_takes_bytes_up_to_its_room(rt: HostRuntime) -> Result<(), Fail> {
    takes(&rt, rt.alloc(), 8, (1, 2), WRITES)
}

#[test]
fn a_sink_may_fail_at_a_whole_piece(rt: HostRuntime) -> Result<(), Fail> {
    takes(&rt, rt.alloc(), 2, (0, 9), &[("abc", false, "ab")])?;
    takes(&rt, rt.alloc(), 9, (0, 9), &[("abc", false, "abc")])
}
