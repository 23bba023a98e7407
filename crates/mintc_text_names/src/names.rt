//! A set of names, found by their bytes.
ghost use Rattle.std.specs.Prelude.{◌≡◌, ◌<◌, [], not, IfOk, OnOk, IfSome, length, position, slice_index_or, bytes_eq};
ghost use Rattle.mintc_text_names.specs.Names.{is_among, with_name};

use indexmap::IndexSet;
use mintc_text::OutOfMemory;
use std::alloc::Global;
use std::marker::Model;

/// Names, each once, seen as their list in the order in which they first came.
#[derive(Drop)]
pub struct NameSet {
    set: IndexSet<Vec<u8>>,
}

impl Model for NameSet {
    ghost use Rattle.std.specs.Prelude.{ℕ, List, map};

    ghost Value = { List (List ℕ) };

    ghost view = { λ s. map (λ k. k.items) s.set.keys };
}

impl NameSet {
    /// No names.
    pub fn new(alloc: Global) -> NameSet
        ensures { result ≡ [] }
    {
        NameSet {
            set: IndexSet::new(alloc),
        }
    }

    /// Takes a name in as the last, where it isn't there, and says whether it wasn't.
    pub fn add(&mut self, alloc: Global, name: &[u8]) -> Result<bool, OutOfMemory>
        ensures added { IfOk result (λ added. added ≡ not (is_among name.now self.old)) }
        ensures names { OnOk result (self.new ≡ with_name self.old name.now) }
    {
        if self.set.contains(name) {
            return Ok(false);
        }
        let bytes = Vec::from_slice(alloc, name)?;
        self.set.insert_full(bytes)?;
        Ok(true)
    }

    /// How many names there are.
    pub fn len(&self) -> usize
        ensures { result ≡ length self.now }
    {
        self.set.len()
    }

    /// The name at a place.
    pub fn name(&self, place: usize) -> &[u8]
        requires { place < length self.now }
        ensures { result.now ≡ slice_index_or self.now place [] }
    {
        match self.set.get_index(place) {
            Some(name) => name,
            None => &[],
        }
    }

    /// The place of a name.
    pub fn find(&self, name: &[u8]) -> Option<usize>
        ensures place { result ≡ position (bytes_eq name.now) self.now }
        ensures within { IfSome result (λ place. place < length self.now) }
    {
        self.set.get_index_of(name)
    }
}
