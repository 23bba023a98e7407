//! The outside as it is: files of a folder, and standard output, over several pieces, with reads and writes that
//! are short or fail.
use mintc_text::{FolderShelf, Shelf, ShelfError, Sink, StreamSink, read_front};
use std::alloc::{AllocError, Global};
use std::cell::Cell;
use std::fmt::Display;
use std::io::Read;
use std::process::Abort;
use std::rt::Files;
use std::test::Fail;
use std::{fs, io, process};

/// The bytes of a long text: two pieces of 65,536, and a part of a third.
const LONG: usize = 150_000;

/// So many bytes: 0 to 250 over and over, so that no piece of 65,536 begins as another one does.
fn long_text(alloc: Global, length: usize) -> Result<Vec<u8>, AllocError> {
    let mut text = Vec::new(alloc);
    let mut byte = 0u8;
    for _ in 0..length {
        text.push(byte)?;
        byte = if byte < 250 { byte + 1 } else { 0 };
    }
    Ok(text)
}

/// A reader that gives at most so many bytes of a text at a time. Where there are none left, it fails or is at its end.
#[derive(Drop)]
struct Stepwise<'a> {
    left: &'a [u8],
    step: usize,
    fails: bool,
}

impl<'a> Read for Stepwise<'a> {
    fn read(&mut self, buf: &mut [u8]) -> io::Result<usize> {
        if self.fails && self.left.is_empty() {
            return Err(io::Error::from(io::ErrorKind::TimedOut));
        }
        let count = self.step.min(self.left.len()).min(buf.len());
        buf[..count].copy_from_slice(&self.left[..count]);
        self.left = &self.left[count..];
        Ok(count)
    }
}

/// Whether a read gives at most so many bytes of a text, from its beginning.
fn is_front(read: Result<Vec<u8>, ShelfError>, text: &[u8], most: usize) -> bool {
    match read {
        Ok(bytes) => bytes.as_slice() == &text[..most.min(text.len())],
        Err(_) => false,
    }
}

/// How many bytes are asked for at most: inside of each piece, at its edge and beside it, and past the end.
const MOST: &[usize] = &[
    0, 1, 65_535, 65_536, 65_537, 100_000, 131_072, 131_073, 149_999, 150_000, 67_108_865,
];

/// A reader that gives so many bytes at a time is read to each of these lengths.
fn are_read(rt: &impl Abort, alloc: Global, text: &[u8], step: usize) {
    for most in MOST {
        let mut reader = Stepwise {
            left: text,
            step,
            fails: false,
        };
        let read = read_front(&mut reader, alloc, *most);
        assert!(rt; is_front(read, text, *most), "by {step}, at most {most}");
    }
}

#[test]
fn short_reads_are_joined(rt: HostRuntime) -> Result<(), Fail> {
    let text = long_text(rt.alloc(), LONG)?;
    for step in &[20_011, 65_535, 1_000_000] {
        are_read(&rt, rt.alloc(), text.as_slice(), *step);
    }
    Ok(())
}

/// Whether at most so many bytes are read of a text, of a reader that fails behind it.
fn is_read(alloc: Global, text: &[u8], most: usize) -> bool {
    let mut reader = Stepwise {
        left: text,
        step: 40_000,
        fails: true,
    };
    is_front(read_front(&mut reader, alloc, most), text, most)
}

/// Behind how many bytes a reader fails, how many are asked for at most, and whether they are read.
const FAILING: &[(usize, usize, bool)] = &[
    (0, 0, true),
    (0, 1, false),
    (3, 3, true),
    (3, 4, false),
    (65_536, 65_536, true),
    (65_536, 65_537, false),
    (100_000, 99_999, true),
    (100_000, 131_072, false),
    (131_072, 67_108_865, false),
];

#[test]
fn a_failing_read_stops(rt: HostRuntime) -> Result<(), Fail> {
    for (length, most, succeeds) in FAILING {
        let text = long_text(rt.alloc(), *length)?;
        let is_read = is_read(rt.alloc(), text.as_slice(), *most);
        assert!(rt; is_read == *succeeds, "{length}, at most {most}");
    }
    Ok(())
}

/// Whether a file is read to each of these lengths.
fn are_fronts<S: Shelf>(alloc: Global, shelf: &mut S, name: &str, text: &[u8]) -> bool {
    for most in MOST {
        if !is_front(shelf.read(alloc, name, *most), text, *most) {
            return false;
        }
    }
    true
}

/// Whether a file of this text is read, fronts of it and all, until it is removed.
fn is_stored<R: Files>(runtime: &R, alloc: Global, name: &str, text: &[u8]) -> io::Result<bool> {
    fs::write(runtime, name, text)?;
    let mut shelf = FolderShelf::new(runtime);
    let is_read = are_fronts(alloc, &mut shelf, name, text);
    fs::remove_file(runtime, name)?;
    Ok(is_read && shelf.read(alloc, name, 3).is_err())
}

#[test]
fn files_of_a_folder_are_read(rt: HostRuntime) -> Result<(), Fail> {
    let alloc = rt.alloc();
    let name = format!(in alloc; "mintc_text_{}.tmp", process::id(rt.process()))?;
    for length in &[7, 131_072, LONG] {
        let text = long_text(alloc, *length)?;
        assert!(rt;
            is_stored(&rt, alloc, name.as_str(), text.as_slice())?,
            "{length}"
        );
    }
    Ok(())
}

#[test]
fn standard_output_is_written_to(rt: HostRuntime) {
    let mut sink = StreamSink::new(&rt);
    assert!(rt; sink.write(b"written by a sink\n").is_ok());
}

/// An output that takes these bytes in their order and no others, at most so many at a time. Then it fails.
#[derive(Drop)]
struct Narrow<'a> {
    left: Cell<&'a [u8]>,
    most: usize,
}

impl<'a> Print for Narrow<'a> {
    fn print<D: Display + Drop>(&self, _value: D) -> io::Result<()> {
        Ok(())
    }

    fn println<D: Display + Drop>(&self, _value: D) -> io::Result<()> {
        Ok(())
    }

    fn write_all(&self, _bytes: &[u8]) -> io::Result<()> {
        Ok(())
    }

    fn write_some(&self, bytes: &[u8]) -> io::Result<usize> {
        let left = self.left.get();
        let count = self.most.min(bytes.len()).min(left.len());
        if left.is_empty() || left[..count] != bytes[..count] {
            return Err(io::Error::from(io::ErrorKind::BrokenPipe));
        }
        self.left.set(&left[count..]);
        Ok(count)
    }
}

/// Whether a sink writes a text to an output that takes these bytes, at most so many at a time; and how many bytes
/// of them it doesn't write.
fn written(text: &[u8], taken: &[u8], most: usize) -> (bool, usize) {
    let output = Narrow {
        left: Cell::new(taken),
        most,
    };
    let is_written = StreamSink::new(&output).write(text).is_ok();
    (is_written, output.left.get().len())
}

#[test]
fn short_writes_are_joined(rt: HostRuntime) -> Result<(), Fail> {
    let text = long_text(rt.alloc(), LONG)?;
    for most in &[999, 4_096, 65_536, 1_000_000] {
        let (is_written, left) = written(text.as_slice(), text.as_slice(), *most);
        assert!(rt; is_written && left == 0, "by {most}: {left}");
    }
    Ok(())
}

/// How many bytes an output takes, at most how many at a time, and how many of them aren't written.
const FULL: &[(usize, usize, usize)] = &[
    (0, 1, 0),
    (3, 1, 0),
    (100_000, 4_096, 0),
    (131_072, 65_536, 0),
    (149_999, 1_000_000, 0),
    (LONG, 0, LONG),
];

#[test]
fn a_failing_write_stops(rt: HostRuntime) -> Result<(), Fail> {
    let text = long_text(rt.alloc(), LONG)?;
    for (room, most, left) in FULL {
        let taken = long_text(rt.alloc(), *room)?;
        let wanted = (false, *left);
        assert!(rt;
            written(text.as_slice(), taken.as_slice(), *most) == wanted,
            "{room} by {most}"
        );
    }
    Ok(())
}
