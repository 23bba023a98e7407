//! The outside as it is: files of a folder, and standard output.
ghost use Rattle.std.specs.Prelude.{◌≡◌, ◌≤◌, ◌+◌, None, IfOk, OnOk, length, is_ok, vec_len, vec_capacity};
ghost use Rattle.mintc_text.specs.Outside.{faults_after};

use crate::{Failed, Shelf, ShelfError, Sink};
use std::alloc::{AllocError, Global};
use std::fs;
use std::fs::OpenFile;
use std::io::Read;
use std::marker::Model;
use std::rt::Files;

/// The bytes that one read of a file takes at most.
const PIECE: usize = 65_536;

/// The files of a runtime, seen as the count of faults. It tells neither files nor calls.
#[derive(Drop)]
pub struct FolderShelf<'a, R: Files> {
    runtime: &'a R,
    faults: u64,
}

impl<'a, R: Files> Model for FolderShelf<'a, R> {
    ghost use Rattle.std.specs.Prelude.{ℕ};

    ghost Value = { ℕ };

    ghost view = { λ s. s.faults };
}

/// How many bytes a file says that it has, at most so many, and 0 where it says nothing.
fn size_of<F: OpenFile>(file: &F, most: usize) -> usize {
    match file.metadata() {
        Ok(told) => told.len().min(most as u64) as usize,
        Err(_) => 0,
    }
}

/// No bytes, with room for so many where there is memory for them.
fn with_room(alloc: Global, size: usize) -> Vec<u8>
    ensures { length result.items ≡ 0 }
{
    let mut bytes = Vec::new(alloc);
    let _ = bytes.reserve_exact(size);
    bytes
}

/// Room for `count` bytes more in a list that takes at most `most`. It grows to twice its bytes, but to no more than
/// `most`, so that a file at its limit has no buffer of twice its size.
fn make_room(bytes: &mut Vec<u8>, count: usize, most: usize) -> Result<(), AllocError>
    requires most { vec_len bytes.old + count ≤ most }
    ensures kept { bytes.new.items ≡ bytes.old.items }
    ensures room { OnOk result (vec_len bytes.new + count ≤ vec_capacity bytes.new) }
{
    let len = bytes.len();
    if count <= bytes.capacity() - len {
        return Ok(());
    }
    bytes.reserve_exact(len.max(count).min(most - len))
}

/// The first bytes that a file has left, at most so many. Fails where a read fails, however much came before.
pub fn read_front<F: Read>(file: &mut F, alloc: Global, most: usize) -> Result<Vec<u8>, ShelfError>
    ensures { IfOk result (λ v. length v.items ≤ most) }
{
    read_into(file, Vec::new(alloc), most)
}

/// The same, in a list that has room.
fn read_into<F: Read>(file: &mut F, room: Vec<u8>, most: usize) -> Result<Vec<u8>, ShelfError>
    requires { length room.items ≤ most }
    ensures { IfOk result (λ v. length v.items ≤ most) }
{
    let mut bytes = room;
    let mut piece = [0u8; PIECE];
    while bytes.len() < most {
        let room = (most - bytes.len()).min(PIECE);
        let Ok(count) = file.read(&mut piece[..room]) else {
            return Err(ShelfError::Failed);
        };
        if count == 0 {
            break;
        }
        let Ok(()) = make_room(&mut bytes, count, most) else {
            return Err(ShelfError::OutOfMemory);
        };
        let Ok(()) = bytes.extend_from_slice(&piece[..count]) else {
            return Err(ShelfError::OutOfMemory);
        };
    }
    Ok(bytes)
}

/// The first bytes of a file, at most so many.
fn read_file<R: Files>(
    runtime: &R,
    alloc: Global,
    name: &str,
    most: usize,
) -> Result<Vec<u8>, ShelfError>
    ensures { IfOk result (λ v. length v.items ≤ most) }
{
    match fs::open(runtime, name) {
        Ok(mut file) => {
            let room = with_room(alloc, size_of(&file, most));
            read_into(&mut file, room, most)
        }
        Err(_) => Err(ShelfError::Failed),
    }
}

impl<'a, R: Files> FolderShelf<'a, R> {
    /// A shelf of the runtime's files that has counted no fault.
    pub fn new(runtime: &'a R) -> FolderShelf<'a, R>
        ensures { result ≡ 0 }
    {
        FolderShelf { runtime, faults: 0 }
    }
}

impl<'a, R: Files> Shelf for FolderShelf<'a, R> {
    ghost files = { λ _. None };

    ghost faults = { λ s. s };

    ghost calls = { λ _. None };

    ghost is_sound = { λ _. ⊥ };

    /// The first `most` bytes of a file, or all of a shorter one. Each Err counts a fault.
    fn read(&mut self, alloc: Global, name: &str, most: usize) -> Result<Vec<u8>, ShelfError>
        ensures short { IfOk result (λ v. length v.items ≤ most) }
        ensures counted { self.new ≡ faults_after (is_ok result) self.old }
    {
        let read = read_file(self.runtime, alloc, name, most);
        if read.is_err() {
            self.faults = self.faults.saturating_add(1);
        }
        read
    }
}

/// Standard output of a runtime, seen as the count of faults. It tells neither bytes nor calls.
#[derive(Drop)]
pub struct StreamSink<'a, R: Print> {
    runtime: &'a R,
    faults: u64,
}

impl<'a, R: Print> Model for StreamSink<'a, R> {
    ghost use Rattle.std.specs.Prelude.{ℕ};

    ghost Value = { ℕ };

    ghost view = { λ s. s.faults };
}

/// Writes all bytes, or a front of them and fails.
fn write_all<R: Print>(runtime: &R, bytes: &[u8]) -> Result<(), Failed> {
    let mut left = bytes;
    while !left.is_empty() {
        match runtime.write_some(left) {
            Ok(count) if count > 0 => left = &left[count..],
            _ => return Err(Failed),
        }
    }
    Ok(())
}

impl<'a, R: Print> StreamSink<'a, R> {
    /// A sink over the runtime's standard output that has counted no fault.
    pub fn new(runtime: &'a R) -> StreamSink<'a, R>
        ensures { result ≡ 0 }
    {
        StreamSink { runtime, faults: 0 }
    }
}

impl<'a, R: Print> Sink for StreamSink<'a, R> {
    ghost taken = { λ _. None };

    ghost faults = { λ s. s };

    ghost calls = { λ _. None };

    /// Writes all bytes, or a front of them. Each Err counts a fault.
    fn write(&mut self, bytes: &[u8]) -> Result<(), Failed>
        ensures counted { self.new ≡ faults_after (is_ok result) self.old }
    {
        let written = write_all(self.runtime, bytes);
        if written.is_err() {
            self.faults = self.faults.saturating_add(1);
        }
        written
    }
}
