//! Runs over a shelf and a sink in memory.
use mintc_command::{Status, run, run_within};
use mintc_tests_designs::{Held, TWO_CELLS, hold, shelf_of, words_of};
use mintc_text::{Limits, MemoryShelf, MemorySink, Numbers, OutOfMemory};
use std::alloc::{AllocError, Global};
use std::process::Abort;

/// Adds a text, where there was memory for it.
pub(crate) fn push_text(
    text: &mut String,
    more: Result<String, AllocError>,
) -> Result<(), AllocError> {
    text.push_str(&more?)
}

/// A shelf of files, none of whose calls fail.
pub(crate) fn sound_shelf(alloc: Global, held: Held) -> MemoryShelf {
    MemoryShelf::new(held, Numbers::new(Vec::new(alloc)))
}

/// A shelf of files of these bytes, none of whose calls fail.
pub(crate) fn bytes_shelf(
    alloc: Global,
    files: &[(&str, &[u8])],
) -> Result<MemoryShelf, OutOfMemory> {
    let mut held = Vec::new(alloc);
    for file in files {
        hold(alloc, &mut held, file.0, file.1)?;
    }
    Ok(sound_shelf(alloc, held))
}

/// A run with these words over this shelf, and a sink whose first write may be made to fail: its status and what
/// the sink took.
fn run_words(
    alloc: Global,
    shelf: &mut MemoryShelf,
    words: &[String],
    failing_write: Option<(u32, usize)>,
) -> Result<(Status, Vec<u8>), OutOfMemory> {
    let mut sink = MemorySink::new(alloc, 1_000_000, failing_write)?;
    let status = run(alloc, words, shelf, &mut sink);
    Ok((status, Vec::from_slice(alloc, sink.taken())?))
}

/// A run with the words of this line.
pub(crate) fn run_over(
    alloc: Global,
    shelf: &mut MemoryShelf,
    line: &str,
    failing_write: Option<(u32, usize)>,
) -> Result<(Status, Vec<u8>), OutOfMemory> {
    let words = words_of(alloc, line)?;
    run_words(alloc, shelf, words.as_slice(), failing_write)
}

/// A run with the words of this line over a shelf of these files.
pub(crate) fn run_on(
    alloc: Global,
    files: &[(&str, &str)],
    line: &str,
) -> Result<(Status, Vec<u8>), OutOfMemory> {
    let mut shelf = shelf_of(alloc, files, &[])?;
    run_over(alloc, &mut shelf, line, None)
}

/// A run within the large limits, with the words of this line over a shelf of these files: its status and what it
/// writes.
pub(crate) fn run_large(
    alloc: Global,
    files: &[(&str, &str)],
    line: &str,
) -> Result<(Status, Vec<u8>), OutOfMemory> {
    let mut shelf = shelf_of(alloc, files, &[])?;
    let mut sink = MemorySink::new(alloc, 1_000_000, None)?;
    let words = words_of(alloc, line)?;
    let status = run_within(
        alloc,
        &Limits::large(),
        words.as_slice(),
        &mut shelf,
        &mut sink,
    );
    Ok((status, Vec::from_slice(alloc, sink.taken())?))
}

/// Whether a run over this shelf, and a sink whose first write may be made to fail, has this status, and the sink
/// took this text.
fn has_answer(
    alloc: Global,
    shelf: &mut MemoryShelf,
    line: &str,
    failing_write: Option<(u32, usize)>,
    wanted: (Status, &[u8]),
) -> bool {
    match run_over(alloc, shelf, line, failing_write) {
        Ok((status, taken)) => status == wanted.0 && taken.as_slice() == wanted.1,
        Err(_) => false,
    }
}

/// A run over this shelf, and a sink whose first write may be made to fail, has this status, and the sink took this
/// text.
pub(crate) fn is_answered(
    rt: &impl Abort,
    alloc: Global,
    shelf: &mut MemoryShelf,
    line: &str,
    failing_write: Option<(u32, usize)>,
    wanted: (Status, &[u8]),
) {
    assert!(rt;
        has_answer(alloc, shelf, line, failing_write, wanted),
        "{line}"
    );
}

/// A run over this shelf succeeds with this text.
pub(crate) fn succeeds(
    rt: &impl Abort,
    alloc: Global,
    shelf: &mut MemoryShelf,
    line: &str,
    text: &[u8],
) {
    is_answered(rt, alloc, shelf, line, None, (Status::Done, text));
}

/// What may come of a run: a status, and a text with this front and one of these ends.
pub(crate) type Wanted<'a> = (Status, &'a str, &'a [&'a str]);

/// Whether a run with this status and text ended as it may.
pub(crate) fn is_wanted(status: Status, text: &[u8], wanted: Wanted<'_>) -> bool {
    match text.strip_prefix(wanted.1.as_bytes()) {
        Some(end) => status == wanted.0 && wanted.2.iter().any(|e| e.as_bytes() == end),
        None => false,
    }
}

/// What `optimise` gives for a netlist that is accepted and has one phase and no element.
pub(crate) const NO_ELEMENT: Wanted<'static> = (
    Status::Done,
    "certificate 2\nleast\nden 1\ncycle 0\nphases 1\nphase 0 0\ndepartures 0\n",
    NO_TIME,
);

/// The ends of a certificate whose phase takes no time.
pub(crate) const NO_TIME: &[&str] = &[
    "chain 2\nstart 1\ncycle 1\nend\n",
    "chain 2\nspan 1\nwidth 1\nend\n",
];

/// One phase on the port `c`.
pub(crate) const CLOCK: &str = "[[phase]]\nname = \"p\"\nport = \"c\"\n";

/// A netlist `v`, delays `d`, cells `c` and a clock `k` for a shelf.
fn held(alloc: Global, netlist: &str, delays: &str, clock: &str) -> Result<Held, OutOfMemory> {
    let mut held = Vec::new(alloc);
    hold(alloc, &mut held, "v", netlist.as_bytes())?;
    hold(alloc, &mut held, "d", delays.as_bytes())?;
    hold(alloc, &mut held, "c", TWO_CELLS.as_bytes())?;
    hold(alloc, &mut held, "k", clock.as_bytes())?;
    Ok(held)
}

/// A run with these words on a netlist `v` with these delays `d`, cells `c`, and this clock `k`.
pub(crate) fn run_files(
    alloc: Global,
    words: &str,
    netlist: &str,
    delays: &str,
    clock: &str,
) -> Result<(Status, Vec<u8>), OutOfMemory> {
    let mut shelf = sound_shelf(alloc, held(alloc, netlist, delays, clock)?);
    run_over(alloc, &mut shelf, words, None)
}

/// A run of `optimise` on these ends as it may.
pub(crate) fn is_optimised(
    rt: &impl Abort,
    alloc: Global,
    netlist: &str,
    delays: &str,
    clock: &str,
    wanted: Wanted<'_>,
) -> Result<(), OutOfMemory> {
    let (status, taken) = run_files(alloc, "optimise files v d c k", netlist, delays, clock)?;
    assert!(rt; is_wanted(status, taken.as_slice(), wanted), "{netlist}");
    Ok(())
}

/// A netlist is refused with one of these answers.
pub(crate) fn is_refused(
    rt: &impl Abort,
    alloc: Global,
    netlist: &str,
    answers: &[&str],
) -> Result<(), OutOfMemory> {
    let wanted = (Status::Refused, "", answers);
    is_optimised(rt, alloc, netlist, "(DELAYFILE)", CLOCK, wanted)
}
