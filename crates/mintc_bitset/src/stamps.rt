//! Flags that are all taken back at once.
ghost use Rattle.std.specs.Prelude.{◌≡◌, ◌<◌, true, false, length, replicate, slice_index_or, slice_set, IfOk};

use std::alloc::{AllocError, Global};
use std::marker::Model;

/// A flag for each of so many places, which are counted from 0. To take all back looks at the places once in 255 times.
#[derive(Debug, Drop)]
pub struct Stamps {
    /// A place's flag is up where its stamp is the last one.
    stamps: Vec<u8>,
    last: u8,
}

impl Model for Stamps {
    ghost use Rattle.std.specs.Prelude.{Bool, List};
    ghost use Rattle.mintc_bitset.specs.Stamps.{flags_of, AreStamped};

    ghost Value = { List Bool };

    ghost view = { λ s. flags_of s.last s.stamps.items };

    ghost invariant = { λ s. AreStamped s.last s.stamps.items };
}

impl Stamps {
    /// No flag is up.
    pub fn new(alloc: Global, count: usize) -> Result<Stamps, AllocError>
        ensures { IfOk result (λ stamps. stamps ≡ replicate count false) }
    {
        let stamps = vec![in alloc; 0; count]?;
        Ok(Stamps { stamps, last: 1 })
    }

    /// Whether the flag of a place is up.
    #[inline(always)]
    pub fn at(&self, place: usize) -> bool
        requires { place < length self.now }
        ensures { result ≡ slice_index_or self.now place false }
    {
        self.stamps[place] == self.last
    }

    /// Puts up the flag of a place.
    #[inline(always)]
    pub fn set(&mut self, place: usize)
        requires { place < length self.old }
        ensures { self.new ≡ slice_set self.old place true }
    {
        self.stamps[place] = self.last;
    }

    /// Takes all flags back.
    pub fn clear(&mut self)
        ensures { self.new ≡ replicate (length self.old) false }
    {
        if self.last == u8::MAX {
            self.stamps.fill(0);
            self.last = 1;
        } else {
            self.last += 1;
        }
    }
}
