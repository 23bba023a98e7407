//! Help, the version, and wrong words.

use crate::help_texts as help;
use crate::shown::words_of;
use mintcx_words::{Misread, read_words};
use std::alloc::Global;
use std::process::Abort;
use std::test::Fail;

/// Words, and the text that answers them.
const ANSWERS: &[(&str, &str)] = &[
    ("mintcx --help", help::HELP),
    ("mintcx -h", help::HELP),
    ("mintcx help", help::HELP),
    ("mintcx check --help", help::HELP_CHECK),
    ("mintcx help check", help::HELP_CHECK),
    ("mintcx optimise --help", help::HELP_OPTIMISE),
    ("mintcx verify --help", help::HELP_VERIFY),
    ("mintcx report --help", help::HELP_REPORT),
    ("mintcx safe --help", help::HELP_SAFE),
    ("mintcx slack --help", help::HELP_SLACK),
    ("mintcx corners --help", help::HELP_CORNERS),
    ("mintcx schedule --help", help::HELP_SCHEDULE),
    ("mintcx sdc --help", help::HELP_SDC),
    ("mintcx draw --help", help::HELP_DRAW),
    ("mintcx table --help", help::HELP_TABLE),
    ("mintcx explain --help", help::HELP_EXPLAIN),
    ("mintcx --version", "mintcx 0.1.0\n"),
    ("mintcx -V", "mintcx 0.1.0\n"),
];

/// Words, and the text that says what is wrong with them.
const ERRORS: &[(&str, &str)] = &[
    (
        "mintcx optimse",
        "error: unrecognized subcommand 'optimse'\n\n  tip: some similar subcommands exist: 'optimize', 'optimise'\
         \n\nUsage: mintcx <COMMAND>\n\nFor more information, try '--help'.\n",
    ),
    (
        "mintcx check",
        "error: the following required arguments were not provided:\n  <SCHEDULE>\n\nUsage: mintcx check <SCHEDULE>\
         \n\nFor more information, try '--help'.\n",
    ),
    (
        "mintcx check own.schedule --unit us",
        "error: invalid value 'us' for '--unit <UNIT>'\n  [possible values: auto, fs, ps, ns]\
         \n\nFor more information, try '--help'.\n",
    ),
    (
        "mintcx check own.schedule --netlst top.v",
        "error: unexpected argument '--netlst' found\n\n  tip: a similar argument exists: '--netlist'\
         \n\nUsage: mintcx check --netlist <FILE> <SCHEDULE>\n\nFor more information, try '--help'.\n",
    ),
    ("mintcx", help::HELP),
];

/// Why words give nothing, where they don't give something.
fn misread(alloc: Global, line: &str) -> Result<Option<Misread>, Fail> {
    let words = words_of(alloc, line)?;
    match read_words(alloc, &words) {
        Ok(_given) => Ok(None),
        Err(misread) => Ok(Some(misread)),
    }
}

/// Whether this is said of words, as an answer or as what is wrong with them.
fn is_said(misread: &Misread, text: &str, is_answer: bool) -> bool {
    match misread {
        Misread::Answer(said) => is_answer && said.bytes() == text.as_bytes(),
        Misread::Wrong(said) => !is_answer && said.bytes() == text.as_bytes(),
        _ => false,
    }
}

/// Tries one row.
fn is_misread(
    rt: &impl Abort,
    alloc: Global,
    row: &(&str, &str),
    is_answer: bool,
) -> Result<(), Fail> {
    match misread(alloc, row.0)? {
        Some(misread) => assert!(rt; is_said(&misread, row.1, is_answer), "{}", row.0),
        None => panic!(rt; "{} is read", row.0),
    }
    Ok(())
}

#[test]
fn help_and_version_are_answered(rt: HostRuntime) -> Result<(), Fail> {
    for row in ANSWERS {
        is_misread(&rt, rt.alloc(), row, true)?;
    }
    Ok(())
}

#[test]
fn wrong_words_are_told(rt: HostRuntime) -> Result<(), Fail> {
    for row in ERRORS {
        is_misread(&rt, rt.alloc(), row, false)?;
    }
    Ok(())
}
