//! `liberty2toml_command`: worked runs over a shelf and a sink in memory, and cells that come back from their TOML
//! form. No clause says that memory is there: each run here has enough of it.
use super::cell_texts::{cells_text, numbers_text};
use liberty2toml_command::{Status, convert, toml_form};
use mintc_cells::{Cell, Cells, read_cells};
use mintc_tests_designs::{TWO_CELLS, TWO_LIBRARY, shelf_of, words_of};
use mintc_text::{MemoryShelf, MemorySink, OutOfMemory};
use std::alloc::{AllocError, Global};
use std::process::Abort;
use std::test::Fail;

/// What the worked library is converted to.
const TWO_FORM: &str =
    "[cell.BUF]\ninputs = [\"A\"]\nkind = \"gate\"\nmax = 0\nmin = 0\noutputs = [\"Y\"]\n\n\
[cell.LAT]\nactive = \"high\"\nd = \"D\"\ndq_max = 0\ndq_min = 0\ng = \"G\"\nignored = []\nkind = \"latch\"\n\
    outputs = [\"Q\"]\nsetup = 0\nwidth = 0\n";

const FILES: &[(&str, &str)] = &[
    ("two.lib", TWO_LIBRARY),
    ("open.lib", "library (t) { cell (A) {"),
    ("none.lib", ""),
];

/// A run's words, the calls of the shelf that fail, the write after so many bytes that fails, its status, and what
/// the sink took.
type Run = (
    &'static str,
    &'static [u32],
    Option<(u32, usize)>,
    Status,
    &'static str,
);

/// Whether a run with these words over this shelf ends so.
fn has_answer(alloc: Global, shelf: &mut MemoryShelf, words: &[String], run: &Run) -> bool {
    let (_, _, failing_write, wanted, text) = *run;
    match MemorySink::new(alloc, 1_000_000, failing_write) {
        Ok(mut sink) => {
            let status = convert(alloc, words, shelf, &mut sink);
            status == wanted && sink.taken() == text.as_bytes()
        }
        Err(_) => false,
    }
}

/// Whether a run over the files ends so.
fn ends(alloc: Global, run: &Run) -> Result<bool, OutOfMemory> {
    let words = words_of(alloc, run.0)?;
    let mut shelf = shelf_of(alloc, FILES, run.1)?;
    Ok(has_answer(alloc, &mut shelf, words.as_slice(), run))
}

const RUNS: &[Run] = &[
    ("two.lib", &[], None, Status::Done, TWO_FORM),
    (
        "open.lib",
        &[],
        None,
        Status::Refused,
        "refused 1 cells 1\n",
    ),
    (
        "none.lib",
        &[],
        None,
        Status::Refused,
        "refused 1 cells 0\n",
    ),
    ("absent.lib", &[], None, Status::ReadFault, ""),
    ("", &[], None, Status::Usage, "usage: liberty2toml FILE\n"),
    (
        "two.lib two.lib",
        &[],
        None,
        Status::Usage,
        "usage: liberty2toml FILE\n",
    ),
    ("two.lib", &[0], None, Status::ReadFault, ""),
    ("open.lib", &[], Some((0, 7)), Status::WriteFault, "refused"),
];

#[test]
fn runs_write_the_form_or_end_with_their_status(rt: HostRuntime) -> Result<(), Fail> {
    for run in RUNS {
        assert!(rt; ends(rt.alloc(), run)?, "{}", run.0);
    }
    Ok(())
}

/// The cells of a description.
fn described(rt: &impl Abort, alloc: Global, text: &[u8]) -> Option<Cells> {
    assert!(rt; text.len() < 60_000_000);
    read_cells(alloc, text).ok()
}

/// Both cells have the same numbers.
fn have_equal_numbers(
    rt: &impl Abort,
    alloc: Global,
    cell: &Cell,
    back: &Cell,
) -> Result<(), AllocError> {
    let wanted = numbers_text(alloc, cell)?;
    let found = numbers_text(alloc, back)?;
    assert!(rt; wanted.as_str() == found.as_str(), "{found}");
    Ok(())
}

/// The cells of both have the same numbers.
fn have_all_equal_numbers(
    rt: &impl Abort,
    alloc: Global,
    cells: &Cells,
    back: &Cells,
) -> Result<(), AllocError> {
    for number in 0..cells.count() {
        assert!(rt; number < back.count());
        have_equal_numbers(rt, alloc, cells.cell(number), back.cell(number))?;
    }
    Ok(())
}

/// Both have the same cells.
fn are_alike(
    rt: &impl Abort,
    alloc: Global,
    cells: &Cells,
    back: &Cells,
) -> Result<(), AllocError> {
    let wanted = cells_text(alloc, cells)?;
    let found = cells_text(alloc, back)?;
    assert!(rt; wanted.as_str() == found.as_str(), "{found}");
    have_all_equal_numbers(rt, alloc, cells, back)
}

/// What the form of cells is read as.
fn read_back(rt: &impl Abort, alloc: Global, cells: &Cells) -> Option<Cells> {
    let form = toml_form(alloc, cells).ok()?;
    described(rt, alloc, &form)
}

/// The form of cells is read as these very cells.
fn are_read_back(rt: &impl Abort, alloc: Global, cells: &Cells) -> Result<(), Fail> {
    let back = read_back(rt, alloc, cells).ok_or("no cells")?;
    are_alike(rt, alloc, cells, &back)?;
    Ok(())
}

/// The form of a description's cells is read as these very cells.
fn comes_back(rt: &impl Abort, alloc: Global, text: &[u8]) -> Result<(), Fail> {
    let cells = described(rt, alloc, text).ok_or("no cells")?;
    are_read_back(rt, alloc, &cells)
}

/// Cells with all keys, cells with few, and names that a key has to quote.
const DESCRIPTION: &str =
    "[cell.DLL]\nkind = \"latch\"\nd = \"D\"\ng = \"GN\"\noutputs = [\"Q\", \"QN\"]\nactive = \"low\"\n\
     ignored = [\"SE\"]\nsetup = 30_000\nhold = -5_000\n\
dq_min = 40_000\ndq_max = 60_000\ncq_min = 50_000\ncq_max = 70_000\nwidth = 100_000\n\
[cell.LAT]\nkind = \"latch\"\nd = \"D\"\ng = \"G\"\noutputs = [\"Q\"]\ndq_min = 10\n\
[cell.\"a.b\"]\nkind = \"gate\"\ninputs = [\"A\", \"\\\"\"]\noutputs = [\"Y\"]\nmin = 3\nmax = 4\n\
[cell.DFN]\nkind = \"flop\"\nd = \"D\"\nclock = \"CPN\"\noutputs = [\"Q\"]\nedge = \"falling\"\nhold = 0\ncq_max = 7\n\
[cell.CKINV]\nkind = \"clock\"\ninput = \"I\"\noutput = \"ZN\"\ninvert = true\nignored = [\"TE\"]\n";

#[test]
fn worked_cells_come_back_from_their_form(rt: HostRuntime) -> Result<(), Fail> {
    comes_back(&rt, rt.alloc(), TWO_CELLS.as_bytes())
}

#[test]
fn all_keys_come_back_from_their_form(rt: HostRuntime) -> Result<(), Fail> {
    comes_back(&rt, rt.alloc(), DESCRIPTION.as_bytes())
}

#[test]
fn no_cells_come_back_from_their_form(rt: HostRuntime) -> Result<(), Fail> {
    comes_back(&rt, rt.alloc(), b"")
}
