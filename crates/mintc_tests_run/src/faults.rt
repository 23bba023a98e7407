//! Reads and writes that fail, and files that are missing: the status and what is written, the order of the reads,
//! and the same call made again.
use super::files::files;
use super::harness::{is_answered, run_on, run_over, succeeds};
use super::rows::CHECK;
use mintc_command::{Status, run};
use mintc_tests_designs::{hold, shelf_of, words_of};
use mintc_text::{MemoryShelf, MemorySink, Numbers, OutOfMemory, Shelf};
use std::alloc::Global;
use std::process::Abort;
use std::test::Fail;

/// A command, and how many files it names.
type Run = (&'static str, u8);

const ON_TABLES: &[Run] = &[
    (CHECK, 2),
    ("optimise table TAB1", 1),
    ("verify table TAB1 CERT1", 2),
    ("report table TAB1", 1),
    ("safe table TAB1", 1),
    ("slack table TAB1", 1),
];

const ON_FILES: &[Run] = &[
    ("check files two.v two.sdf two.cells two.clock SCH1", 5),
    ("optimise files two.v two.sdf two.cells two.clock", 4),
    (
        "verify files two.v two.sdf two.cells two.clock two.certificate",
        5,
    ),
    ("report files two.v two.sdf two.cells two.clock", 4),
    ("safe files two.v two.sdf two.cells two.clock", 4),
    ("slack files two.v two.sdf two.cells two.clock", 4),
    (
        "corners pair.v pair.cells pair.clock first.sdf second.sdf",
        5,
    ),
];

const ON_LIBRARIES: &[Run] = &[
    ("check liberty two.v two.sdf two.lib two.clock SCH1", 5),
    ("optimise liberty two.v two.sdf two.lib two.clock", 4),
    (
        "verify liberty two.v two.sdf two.lib two.clock library.certificate",
        5,
    ),
    ("report liberty two.v two.sdf two.lib two.clock", 4),
    ("safe liberty two.v two.sdf two.lib two.clock", 4),
    ("slack liberty two.v two.sdf two.lib two.clock", 4),
];

/// Whether a file can be read that no run here names.
fn is_read(alloc: Global, shelf: &mut MemoryShelf) -> bool {
    shelf.read(alloc, "empty.table", 1).is_ok()
}

/// A run ends at a read, over a shelf whose call after the next one is to fail. So no read was made after it.
fn ends_at_read(rt: &impl Abort, alloc: Global, shelf: &mut MemoryShelf, words: &str) {
    let wanted = (Status::ReadFault, b"".as_slice());
    is_answered(rt, alloc, shelf, words, None, wanted);
    assert!(rt; is_read(alloc, shelf) && !is_read(alloc, shelf), "{words}");
}

/// A read is made to fail, and so is the one after the next.
fn read_fails(rt: &impl Abort, alloc: Global, words: &str, number: u32) -> Result<(), OutOfMemory> {
    let mut shelf = shelf_of(alloc, files(), &[number, number.saturating_add(2)])?;
    ends_at_read(rt, alloc, &mut shelf, words);
    Ok(())
}

/// Each read is made to fail, of each run.
fn each_read_fails(rt: &impl Abort, alloc: Global, runs: &[Run]) -> Result<(), OutOfMemory> {
    for (words, count) in runs {
        for number in 0..u32::from(*count) {
            read_fails(rt, alloc, words, number)?;
        }
    }
    Ok(())
}

// Rows failing-read and every-read-fails.
#[test]
fn a_failing_read_ends_the_run(rt: HostRuntime) -> Result<(), Fail> {
    for runs in &[ON_TABLES, ON_FILES, ON_LIBRARIES] {
        each_read_fails(&rt, rt.alloc(), runs)?;
    }
    Ok(())
}

/// A shelf of the files of the rows but for one, whose call of this number fails.
fn shelf_without(alloc: Global, name: &str, failing: u32) -> Result<MemoryShelf, OutOfMemory> {
    let mut held = Vec::new(alloc);
    for file in files() {
        if file.0 != name {
            hold(alloc, &mut held, file.0, file.1.as_bytes())?;
        }
    }
    let failing = Vec::from_slice(alloc, &[failing])?;
    Ok(MemoryShelf::new(held, Numbers::new(failing)))
}

/// The file of the read of this number is missing.
fn file_is_missing(
    rt: &impl Abort,
    alloc: Global,
    words: &str,
    name: &str,
    number: u32,
) -> Result<(), OutOfMemory> {
    let mut shelf = shelf_without(alloc, name, number.saturating_add(2))?;
    ends_at_read(rt, alloc, &mut shelf, words);
    Ok(())
}

/// Each file of a run is missing in turn. It is read after the files before it, and none is read after it.
fn each_file_is_missing(rt: &impl Abort, alloc: Global, run: &Run) -> Result<(), OutOfMemory> {
    let (line, count) = *run;
    let words = words_of(alloc, line)?;
    let first = words.len().saturating_sub(usize::from(count));
    let mut number: u32 = 0;
    for name in &words[first..] {
        file_is_missing(rt, alloc, line, name.as_str(), number)?;
        number = number.saturating_add(1);
    }
    Ok(())
}

// Only where each run reads its files in the order of its words does each missing file end it after so many reads.
#[test]
fn files_are_read_in_the_order_of_the_words(rt: HostRuntime) -> Result<(), Fail> {
    for runs in &[ON_TABLES, ON_FILES, ON_LIBRARIES] {
        for run in *runs {
            each_file_is_missing(&rt, rt.alloc(), run)?;
        }
    }
    Ok(())
}

/// The write of this text is made to fail after each number of bytes.
fn write_fails(rt: &impl Abort, alloc: Global, shelf: &mut MemoryShelf, words: &str, text: &[u8]) {
    for length in 0..text.len() {
        let wanted = (Status::WriteFault, &text[..length]);
        is_answered(rt, alloc, shelf, words, Some((0, length)), wanted);
    }
}

/// The write of a run is made to fail after each number of bytes.
fn write_of_run_fails(rt: &impl Abort, alloc: Global, words: &str) -> Result<(), OutOfMemory> {
    let mut shelf = shelf_of(alloc, files(), &[])?;
    let (_, text) = run_over(alloc, &mut shelf, words, None)?;
    write_fails(rt, alloc, &mut shelf, words, text.as_slice());
    Ok(())
}

/// Each write is made to fail after each number of bytes, of each run.
fn each_write_fails(rt: &impl Abort, alloc: Global, runs: &[Run]) -> Result<(), Fail> {
    for (words, _) in runs {
        write_of_run_fails(rt, alloc, words)?;
    }
    Ok(())
}

// Rows failing-write and every-write-length.
#[test]
fn a_failing_write_ends_a_run_on_tables(rt: HostRuntime) -> Result<(), Fail> {
    each_write_fails(&rt, rt.alloc(), ON_TABLES)
}

#[test]
fn a_failing_write_ends_a_run_on_files(rt: HostRuntime) -> Result<(), Fail> {
    each_write_fails(&rt, rt.alloc(), ON_FILES)
}

#[test]
fn a_failing_write_ends_a_run_on_libraries(rt: HostRuntime) -> Result<(), Fail> {
    each_write_fails(&rt, rt.alloc(), ON_LIBRARIES)
}

/// A run is made again over the shelf on which its read of this number failed, and has its answer.
fn answers_again(
    rt: &impl Abort,
    alloc: Global,
    words: &str,
    number: u32,
    answer: &[u8],
) -> Result<(), OutOfMemory> {
    let mut shelf = shelf_of(alloc, files(), &[number])?;
    let (failed, _) = run_over(alloc, &mut shelf, words, None)?;
    assert!(rt; failed == Status::ReadFault, "{words}");
    succeeds(rt, alloc, &mut shelf, words, answer);
    Ok(())
}

/// A run with this answer is made again after each of its reads failed.
fn the_next_call_answers(
    rt: &impl Abort,
    alloc: Global,
    run: &Run,
    answer: &[u8],
) -> Result<(), OutOfMemory> {
    let (words, count) = *run;
    for number in 0..u32::from(count) {
        answers_again(rt, alloc, words, number, answer)?;
    }
    Ok(())
}

/// Each run is made again after each of its reads failed.
fn each_next_call_answers(rt: &impl Abort, alloc: Global, runs: &[Run]) -> Result<(), OutOfMemory> {
    for run in runs {
        let (_, text) = run_on(alloc, files(), run.0)?;
        the_next_call_answers(rt, alloc, run, text.as_slice())?;
    }
    Ok(())
}

// Row same-call-after-a-fault: after a read that failed.
#[test]
fn the_same_call_after_a_failed_read_has_its_answer(rt: HostRuntime) -> Result<(), Fail> {
    for runs in &[ON_TABLES, ON_FILES, ON_LIBRARIES] {
        each_next_call_answers(&rt, rt.alloc(), runs)?;
    }
    Ok(())
}

/// A run whose write fails after three bytes, and the same run over the same shelf and sink: both statuses, and
/// what the sink took.
fn run_twice(
    alloc: Global,
    shelf: &mut MemoryShelf,
    line: &str,
) -> Result<(Status, Status, Vec<u8>), OutOfMemory> {
    let words = words_of(alloc, line)?;
    let mut sink = MemorySink::new(alloc, 1_000_000, Some((0, 3)))?;
    let failed = run(alloc, words.as_slice(), shelf, &mut sink);
    let again = run(alloc, words.as_slice(), shelf, &mut sink);
    Ok((failed, again, Vec::from_slice(alloc, sink.taken())?))
}

/// Whether these are three bytes of a text, and then the text.
fn is_front_and_text(taken: &[u8], text: &[u8]) -> bool {
    match taken.strip_prefix(&text[..text.len().min(3)]) {
        Some(rest) => rest == text,
        None => false,
    }
}

/// Whether a run with this answer has it again after its write failed.
fn is_written_again(alloc: Global, shelf: &mut MemoryShelf, line: &str, text: &[u8]) -> bool {
    match run_twice(alloc, shelf, line) {
        Ok((failed, again, taken)) => {
            failed == Status::WriteFault
                && again == Status::Done
                && is_front_and_text(taken.as_slice(), text)
        }
        Err(_) => false,
    }
}

/// A run is made again after its write failed.
fn run_is_written_again(rt: &impl Abort, alloc: Global, line: &str) -> Result<(), OutOfMemory> {
    let mut shelf = shelf_of(alloc, files(), &[])?;
    let (_, text) = run_over(alloc, &mut shelf, line, None)?;
    assert!(rt;
        is_written_again(alloc, &mut shelf, line, text.as_slice()),
        "{line}"
    );
    Ok(())
}

// Row same-call-after-a-fault: after a write that failed.
#[test]
fn the_same_call_after_a_failed_write_has_its_answer(rt: HostRuntime) -> Result<(), Fail> {
    for runs in &[ON_TABLES, ON_FILES, ON_LIBRARIES] {
        for (line, _) in *runs {
            run_is_written_again(&rt, rt.alloc(), line)?;
        }
    }
    Ok(())
}
