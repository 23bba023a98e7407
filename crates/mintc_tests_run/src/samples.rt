//! Runs on samples, and on the worked files cut at each byte.
use super::harness::{bytes_shelf, run_over, sound_shelf, succeeds};
use mintc_sample::SampleFiles;
use mintc_tests_designs::{Held, TWO_CELLS, TWO_CLOCK, TWO_DELAYS, TWO_NETLIST, hold, shelf_of};
use mintc_text::{MemoryShelf, OutOfMemory};
use std::alloc::Global;
use std::process::Abort;
use std::test::Fail;

/// The sample of these words has this summary.
fn has_summary(
    rt: &impl Abort,
    alloc: Global,
    words: &str,
    summary: &str,
) -> Result<(), OutOfMemory> {
    let mut shelf = shelf_of(alloc, &[], &[])?;
    succeeds(rt, alloc, &mut shelf, words, summary.as_bytes());
    Ok(())
}

// Rows sample-seven and sample-zero.
#[test]
fn samples_have_their_summaries(rt: HostRuntime) -> Result<(), Fail> {
    has_summary(
        &rt,
        rt.alloc(),
        "sample 7",
        "sample 7\nphases 2\nelements 2000\ninner 16002\narcs 20000\npairs 4000\ncycle 2041013/1\n",
    )?;
    has_summary(
        &rt,
        rt.alloc(),
        "sample 0",
        "sample 0\nphases 2\nelements 2000\ninner 16002\narcs 20000\npairs 4000\ncycle 2040999/1\n",
    )?;
    Ok(())
}

/// The files of a sample, and a certificate beside them.
fn sample_shelf(
    alloc: Global,
    sample: &SampleFiles,
    certificate: &[u8],
) -> Result<MemoryShelf, OutOfMemory> {
    let files = [
        ("v", sample.netlist.items()),
        ("d", sample.delays.items()),
        ("c", sample.cells.items()),
        ("k", sample.clock.items()),
        ("x", certificate),
    ];
    bytes_shelf(alloc, &files)
}

/// The optimum of a sample's files.
fn optimum(alloc: Global, sample: &SampleFiles) -> Result<Vec<u8>, OutOfMemory> {
    let mut shelf = sample_shelf(alloc, sample, b"")?;
    let (_, found) = run_over(alloc, &mut shelf, "optimise files v d c k", None)?;
    Ok(found)
}

/// A certificate of a sample's files is valid.
fn is_valid(
    rt: &impl Abort,
    alloc: Global,
    sample: &SampleFiles,
    found: &[u8],
) -> Result<(), OutOfMemory> {
    let mut shelf = sample_shelf(alloc, sample, found)?;
    succeeds(rt, alloc, &mut shelf, "verify files v d c k x", b"valid\n");
    Ok(())
}

/// The optimum of a sample's files is valid.
fn optimum_is_valid(
    rt: &impl Abort,
    alloc: Global,
    sample: &SampleFiles,
) -> Result<(), OutOfMemory> {
    let found = optimum(alloc, sample)?;
    is_valid(rt, alloc, sample, found.as_slice())
}

// Row verify-sample-seven.
#[test]
fn the_optimum_of_a_sample_is_valid(rt: HostRuntime) {
    match mintc_sample::files(rt.alloc(), 7) {
        Ok(sample) => assert!(rt; optimum_is_valid(&rt, rt.alloc(), &sample).is_ok()),
        Err(_) => panic!(rt; "no memory"),
    }
}

/// The worked files, and how the answer begins where one of them is cut: delays are out of form until they are
/// whole, and of the others a front may be in form, so that something later is refused.
const WORKED: &[(&str, &str, &str)] = &[
    ("two.v", TWO_NETLIST, "refused "),
    ("two.sdf", TWO_DELAYS, "refused 1 delays "),
    ("two.cells", TWO_CELLS, "refused "),
    ("two.clock", TWO_CLOCK, "refused "),
];

/// The first bytes of a text, at most so many.
fn front(text: &str, length: usize) -> &[u8] {
    let bytes = text.as_bytes();
    &bytes[..length.min(bytes.len())]
}

/// The worked files, the one of this name cut to so many bytes.
fn cut_files(alloc: Global, cut: &str, length: usize) -> Result<Held, OutOfMemory> {
    let mut held = Vec::new(alloc);
    for (name, text, _) in WORKED {
        let kept = if *name == cut { length } else { text.len() };
        hold(alloc, &mut held, name, front(text, kept))?;
    }
    Ok(held)
}

/// What `optimise` answers on the worked files, the one of this name cut to so many bytes.
fn cut_answer(alloc: Global, cut: &str, length: usize) -> Result<Vec<u8>, OutOfMemory> {
    let mut shelf = sound_shelf(alloc, cut_files(alloc, cut, length)?);
    let words = "optimise files two.v two.sdf two.cells two.clock";
    let (_, taken) = run_over(alloc, &mut shelf, words, None)?;
    Ok(taken)
}

/// Whether a cut file is answered as the whole files are, or with its refusal.
fn is_whole_or_refused(taken: &[u8], whole: &[u8], refusal: &str) -> bool {
    taken.starts_with(refusal.as_bytes()) || taken == whole
}

/// Each front of a worked file is answered so.
fn is_cut_at_each_byte(
    rt: &impl Abort,
    alloc: Global,
    file: &(&str, &str, &str),
    whole: &[u8],
) -> Result<(), OutOfMemory> {
    let (name, text, refusal) = *file;
    for length in 0..text.len() {
        let taken = cut_answer(alloc, name, length)?;
        assert!(rt;
            is_whole_or_refused(taken.as_slice(), whole, refusal),
            "{name} {length}"
        );
    }
    Ok(())
}

// Each of the worked files, cut at each byte. Some ends are white space alone.
#[test]
fn files_cut_at_each_byte_are_refused_or_whole(rt: HostRuntime) -> Result<(), Fail> {
    let alloc = rt.alloc();
    let whole = cut_answer(alloc, "", 0)?;
    for file in WORKED {
        is_cut_at_each_byte(&rt, alloc, file, whole.as_slice())?;
    }
    Ok(())
}
