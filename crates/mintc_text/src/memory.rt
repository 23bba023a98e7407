//! The outside in memory: a shelf and a sink whose calls can be made to fail.
ghost use Rattle.std.specs.Prelude.{◌≡◌, ◌≢◌, ◌++◌, ◌≤◌, ◌+◌, [], Option, Some, None, MatchOption, IfOk, IfErr, OnOk};
ghost use Rattle.std.specs.Prelude.{OnErr, length, map, take, Contains, is_ok, vec_len, vec_capacity};
ghost use Rattle.mintc_text.specs.Outside.{held, Rose, CountsCall, IsFront, Holds, Takes, TakesFront};
ghost use Rattle.mintc_text.specs.Memory.{ShelfState, SinkState, IsSoundFrom, allowed, is_failing, share, takes_all};

use crate::{Failed, Name, Numbers, OutOfMemory, Shelf, ShelfError, Sink};
use std::alloc::Global;
use std::marker::Model;

/// A shelf of files in memory, of which the first of a name counts. Calls are numbered from 0; those listed as failing
/// fail, and so do reads of absent names.
#[derive(Debug, Drop)]
pub struct MemoryShelf {
    files: Vec<(Name, Vec<u8>)>,
    failing: Numbers,
    calls: u32,
    faults: u64,
}

impl Model for MemoryShelf {
    ghost Value = { ShelfState };

    ghost view = { λ s. record {
      files = map (λ f. (f.0, f.1.items)) s.files.items;
      failing = s.failing;
      calls = s.calls;
      faults = s.faults;
    } };
}

/// The bytes of the first file of a name.
fn find<'a>(files: &'a [(Name, Vec<u8>)], name: &[u8]) -> Option<&'a [u8]>
    ensures { MatchOption result (held (map (λ f. (f.0, f.1.items)) files.now) name.now ≡ None)
        (λ bytes. held (map (λ f. (f.0, f.1.items)) files.now) name.now ≡ Some bytes.now) }
{
    for file in files {
        if file.0.bytes() == name {
            return Some(&file.1);
        }
    }
    None
}

/// A copy of the first bytes, at most so many.
fn front(alloc: Global, bytes: &[u8], most: usize) -> Result<Vec<u8>, ShelfError>
    ensures ok { IfOk result (λ v. v.items ≡ take most bytes.now) }
    ensures err { IfErr result (λ e. e ≡ ShelfError.OutOfMemory) }
{
    match Vec::from_slice(alloc, &bytes[..most.min(bytes.len())]) {
        Ok(copy) => Ok(copy),
        Err(_) => Err(ShelfError::OutOfMemory),
    }
}

impl MemoryShelf {
    /// A shelf of these files, no call made and no fault counted.
    pub fn new(files: Vec<(Name, Vec<u8>)>, failing: Numbers) -> MemoryShelf
        ensures files { result.files ≡ map (λ f. (f.0, f.1.items)) files.items }
        ensures failing { result.failing ≡ failing }
        ensures calls { result.calls ≡ 0 }
        ensures faults { result.faults ≡ 0 }
    {
        MemoryShelf {
            files,
            failing,
            calls: 0,
            faults: 0,
        }
    }
}

impl Shelf for MemoryShelf {
    ghost files = { λ s. Some s.files };

    ghost faults = { λ s. s.faults };

    ghost calls = { λ s. Some s.calls };

    ghost is_sound = { λ s. IsSoundFrom s.failing s.calls };

    /// The first `most` bytes of a file, or all of a shorter one. Failed exactly where the call is listed or the name
    /// absent.
    fn read(&mut self, alloc: Global, name: &str, most: usize) -> Result<Vec<u8>, ShelfError>
        ensures bytes { IfOk result (λ v. IsFront (Some self.old.files) name.now most v.items) }
        ensures short { IfOk result (λ v. length v.items ≤ most) }
        ensures same { Some self.new.files ≡ Some self.old.files }
        ensures later { self.old.faults ≤ self.new.faults }
        ensures cause { result ≡ Err ShelfError.Failed → Rose self.old.faults self.new.faults }
        ensures counted { CountsCall (Some self.old.calls) (Some self.new.calls) }
        ensures sound { IsSoundFrom self.old.failing self.old.calls → Holds (Some self.old.files) name.now →
            IsSoundFrom self.new.failing self.new.calls }
        ensures quiet { IsSoundFrom self.old.failing self.old.calls → Holds (Some self.old.files) name.now →
            self.new.faults ≡ self.old.faults }
        ensures answers { IsSoundFrom self.old.failing self.old.calls → Holds (Some self.old.files) name.now →
            result ≢ Err ShelfError.Failed }
        ensures listed { Contains self.old.failing self.old.calls → result ≡ Err ShelfError.Failed }
        ensures failing { self.new.failing ≡ self.old.failing }
        ensures only { result ≡ Err ShelfError.Failed → Holds (Some self.old.files) name.now →
            Contains self.old.failing self.old.calls }
    {
        let fails = self.failing.items().contains(&self.calls);
        self.calls = self.calls.saturating_add(1);
        let found = find(&self.files, name.as_bytes());
        match found {
            Some(bytes) if !fails => front(alloc, bytes, most),
            _ => {
                self.faults = self.faults.saturating_add(1);
                Err(ShelfError::Failed)
            }
        }
    }
}

/// A sink in memory with room for so many bytes. Calls are numbered from 0. A write past the room takes what fits and
/// fails, and the failing call takes at most its number of bytes and fails.
#[derive(Debug, Drop)]
pub struct MemorySink {
    taken: Vec<u8>,
    room: usize,
    failing: Option<(u32, usize)>,
    calls: u32,
    faults: u64,
}

impl Model for MemorySink {
    ghost Value = { SinkState };

    ghost view = { λ s. record {
      taken = s.taken.items;
      room = s.room;
      failing = s.failing;
      calls = s.calls;
      faults = s.faults;
    } };

    ghost invariant = { λ s. (vec_len s.taken ≤ s.room) × (s.room ≤ vec_capacity s.taken) };
}

/// How many of so many bytes the call with this number may take.
fn allowance(failing: Option<(u32, usize)>, call: u32, count: usize) -> usize
    ensures { result ≡ allowed failing call count }
{
    match failing {
        Some((number, most)) if number == call => most.min(count),
        _ => count,
    }
}

/// Whether the call with this number is to fail.
fn is_failing(failing: Option<(u32, usize)>, call: u32) -> bool
    ensures { result ≡ is_failing failing call }
{
    match failing {
        Some((number, _)) => number == call,
        None => false,
    }
}

impl MemorySink {
    /// A sink with room for so many bytes, nothing taken, no call made and no fault counted. Where a call is given as
    /// failing, it is named by its number and how many bytes it takes.
    pub fn new(
        alloc: Global,
        room: usize,
        failing: Option<(u32, usize)>,
    ) -> Result<MemorySink, OutOfMemory>
        ensures taken { IfOk result (λ s. s.taken ≡ []) }
        ensures room { IfOk result (λ s. s.room ≡ room) }
        ensures failing { IfOk result (λ s. s.failing ≡ failing) }
        ensures calls { IfOk result (λ s. s.calls ≡ 0) }
        ensures faults { IfOk result (λ s. s.faults ≡ 0) }
    {
        match Vec::with_capacity(alloc, room) {
            Ok(taken) => Ok(MemorySink {
                taken,
                room,
                failing,
                calls: 0,
                faults: 0,
            }),
            Err(_) => Err(OutOfMemory),
        }
    }

    /// The bytes taken so far.
    pub fn taken(&self) -> &[u8]
        ensures { result.now ≡ self.now.taken }
    {
        &self.taken
    }
}

impl Sink for MemorySink {
    ghost taken = { λ s. Some s.taken };

    ghost faults = { λ s. s.faults };

    ghost calls = { λ s. Some s.calls };

    /// Appends all bytes. Where they don't fit or the call is to fail, appends those that it takes, counts a fault and
    /// answers Failed.
    fn write(&mut self, bytes: &[u8]) -> Result<(), Failed>
        ensures ok { OnOk result (Takes (Some self.old.taken) (Some self.new.taken) bytes.now) }
        ensures err { OnErr result (TakesFront (Some self.old.taken) (Some self.new.taken) bytes.now) }
        ensures later { self.old.faults ≤ self.new.faults }
        ensures cause { OnErr result (Rose self.old.faults self.new.faults) }
        ensures counted { CountsCall (Some self.old.calls) (Some self.new.calls) }
        ensures done { is_ok result ≡ takes_all self.old (length bytes.now) }
        ensures share { self.new.taken ≡ self.old.taken ++ take (share self.old (length bytes.now)) bytes.now }
        ensures quiet { OnOk result (self.new.faults ≡ self.old.faults) }
        ensures room { self.new.room ≡ self.old.room }
        ensures failing { self.new.failing ≡ self.old.failing }
    {
        let room = self.room - self.taken.len();
        let fails = is_failing(self.failing, self.calls);
        let count = allowance(self.failing, self.calls, bytes.len()).min(room);
        self.calls = self.calls.saturating_add(1);
        match self.taken.extend_from_slice(&bytes[..count]) {
            Ok(()) if !fails && bytes.len() <= room => Ok(()),
            _ => {
                self.faults = self.faults.saturating_add(1);
                Err(Failed)
            }
        }
    }
}
