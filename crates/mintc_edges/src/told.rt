//! All that delays say, by transitions and edges.
ghost use Rattle.std.specs.Prelude.{◌≡◌, ◌<◌, ℕ, cond, length, IfOk, OnOk};
ghost use Rattle.mintc_edges.specs.Told.{AreUntold, IsUntold, IsWidenedAt, IsToldMore, HasRoom, HasPlace, IsSameRoom};
ghost use Rattle.mintc_annotate_delays.specs.Ranges.{same_key};
ghost use Rattle.mintc_edges.specs.Told.{path_in, path_told, told_at};
ghost use Rattle.mintc_edges.specs.Spreads.{widened_along};

use crate::matters::Matter;
use crate::spreads::{ByEdge, NO_EDGES, NO_SPREAD, Spread};
use mintc_sdf_edges::Edges;
use mintc_text::OutOfMemory;
use std::alloc::Global;
use std::collections::HashMap;

/// What delays say: of paths through leaves by the leaf, its two pins and the transition; of wires by the bit that they
/// enter or leave and their edge; of checks by the leaf and the edge of the data. Of widths there is no edge.
#[derive(Drop)]
pub(crate) struct Told {
    paths: HashMap<(u32, u32, u32), Spread>,
    joins: Vec<ByEdge>,
    ports: Vec<ByEdge>,
    setups: Vec<ByEdge>,
    holds: Vec<ByEdge>,
    widths: Vec<ByEdge>,
}

/// The edges and the numbers of a delay.
#[derive(Clone, Copy)]
pub(crate) struct Said {
    /// The edges at which the path or the check begins.
    pub(crate) from: Edges,
    /// The edges of which the numbers speak.
    pub(crate) to: Edges,
    pub(crate) least: i64,
    pub(crate) greatest: i64,
}

/// So many places of which nothing is said.
fn nothing_told(alloc: Global, count: usize) -> Result<Vec<ByEdge>, OutOfMemory>
    ensures { IfOk result (λ v. AreUntold count v.items) }
{
    Ok(vec![in alloc; NO_EDGES; count]?)
}

/// Takes in what is said of a place at some edges.
fn widen_at(list: &mut [ByEdge], place: u32, edges: Edges, said: Said)
    requires { place < length list.old }
    ensures { IsWidenedAt list.old list.new place edges said }
{
    let at = place as usize;
    list[at] = list[at].widened(edges, said.least, said.greatest);
}

/// What is said of a key.
fn path_in(paths: &HashMap<(u32, u32, u32), Spread>, key: (u32, u32, u32)) -> Spread
    ensures { result ≡ path_in paths.now key }
{
    match paths.get(&key) {
        Some(spread) => *spread,
        None => NO_SPREAD,
    }
}

/// Takes in what is said of a key.
fn widen_path(
    paths: &mut HashMap<(u32, u32, u32), Spread>,
    key: (u32, u32, u32),
    said: Said,
) -> Result<(), OutOfMemory>
    ensures { OnOk result ((k : ℕ × ℕ × ℕ) → path_in paths.new k ≡ cond (same_key key k)
        (widened_along said.from said.to said.least said.greatest (path_in paths.old k)) (path_in paths.old k)) }
{
    let spread = path_in(paths, key).widened(said.from, said.to, said.least, said.greatest);
    paths.insert(key, spread)?;
    Ok(())
}

/// What a list has at a place.
fn at(list: &[ByEdge], place: u32) -> ByEdge
    ensures { result ≡ told_at list.now place }
{
    match list.get(place as usize) {
        Some(told) => *told,
        None => NO_EDGES,
    }
}

impl Told {
    /// Nothing, of so many bits and leaves.
    pub(crate) fn new(alloc: Global, bits: usize, leaves: usize) -> Result<Told, OutOfMemory>
        ensures { IfOk result (λ told. HasRoom bits leaves told × IsUntold told) }
    {
        Ok(Told {
            paths: HashMap::new(alloc),
            joins: nothing_told(alloc, bits)?,
            ports: nothing_told(alloc, bits)?,
            setups: nothing_told(alloc, leaves)?,
            holds: nothing_told(alloc, leaves)?,
            widths: nothing_told(alloc, leaves)?,
        })
    }

    /// What is said of the path from one pin of a leaf to another.
    pub(crate) fn path(&self, leaf: u32, from: u32, to: u32) -> Spread
        ensures { result ≡ path_told self.now (leaf, from, to) }
    {
        path_in(&self.paths, (leaf, from, to))
    }

    /// What is said of the join into a bit.
    pub(crate) fn join(&self, bit: u32) -> ByEdge
        ensures { result ≡ told_at self.now.joins.items bit }
    {
        at(&self.joins, bit)
    }

    /// What is said of the arcs that leave a bit of a port.
    pub(crate) fn port(&self, bit: u32) -> ByEdge
        ensures { result ≡ told_at self.now.ports.items bit }
    {
        at(&self.ports, bit)
    }

    /// What is said of the setup of a latch or flop.
    pub(crate) fn setup(&self, leaf: u32) -> ByEdge
        ensures { result ≡ told_at self.now.setups.items leaf }
    {
        at(&self.setups, leaf)
    }

    /// What is said of the hold of a latch or flop.
    pub(crate) fn hold(&self, leaf: u32) -> ByEdge
        ensures { result ≡ told_at self.now.holds.items leaf }
    {
        at(&self.holds, leaf)
    }

    /// What is said of the width of a latch or flop.
    pub(crate) fn width(&self, leaf: u32) -> ByEdge
        ensures { result ≡ told_at self.now.widths.items leaf }
    {
        at(&self.widths, leaf)
    }

    /// Takes in what a delay says of a matter. After an error it is of no use.
    pub(crate) fn widen(&mut self, matter: Matter, said: Said) -> Result<(), OutOfMemory>
        requires { HasPlace self.old matter }
        ensures told { OnOk result (IsToldMore self.old self.new matter said) }
        ensures room { OnOk result (IsSameRoom self.old self.new) }
    {
        match matter {
            Matter::Path { leaf, from, to } => widen_path(&mut self.paths, (leaf, from, to), said)?,
            Matter::Join { bit } => widen_at(&mut self.joins, bit, said.to, said),
            Matter::Port { bit } => widen_at(&mut self.ports, bit, said.to, said),
            Matter::Setup { leaf } => widen_at(&mut self.setups, leaf, said.from, said),
            Matter::Hold { leaf } => widen_at(&mut self.holds, leaf, said.from, said),
            Matter::Width { leaf } => widen_at(&mut self.widths, leaf, said.to, said),
        }
        Ok(())
    }
}
