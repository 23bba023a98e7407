//! Where a chain begins.
ghost use Rattle.std.specs.Prelude.{◌≡◌, ◌≢◌, ◌<◌, ◌≤◌, ◌↔◌, IfOk, IsTrue, All, AllPairs, length, slice_index_or};
ghost use Rattle.mintc_timing.specs.Links.{link_at};
ghost use Rattle.mintc_ratio.specs.Chains.{NamesChain, links_at};
ghost use Rattle.mintc_optimise.specs.Beginning.{ArePlaces, AskTheSame, IsBeginning, turned};

use mintc_constraints::LinkList;
use mintc_text::{Items, OutOfMemory};
use mintc_timing::Link;
use std::alloc::Global;

/// For each node the place in the chain, counted from 0, of the link that enters it, or the chain's length.
fn places(
    alloc: Global,
    nodes: usize,
    links: &[Link],
    chain: &[u32],
) -> Result<Vec<usize>, OutOfMemory>
    requires nodes { All (λ k. k.to < nodes) links.now }
    requires chain { NamesChain links.now chain.now }
    ensures { IfOk result (λ places. ArePlaces nodes links.now chain.now (length chain.now) places.items) }
{
    let mut places = vec![in alloc; chain.len(); nodes]?;
    for (place, number) in chain.iter().enumerate() {
        let link = &links[*number as usize];
        places[link.to as usize] = place;
    }
    Ok(places)
}

/// Whether two links ask for the same.
fn ask_the_same(link: &Link, other: &Link) -> bool
    ensures { IsTrue result ↔ AskTheSame link.now other.now }
{
    link.from == other.from
        && link.to == other.to
        && link.delay == other.delay
        && link.cycles == other.cycles
}

/// Whether the link at this place of the chain asks for the same as the other. None does past the chain's end.
fn is_at(links: &[Link], chain: &[u32], place: usize, link: &Link) -> bool
    requires { All (λ e. e < length links.now) chain.now }
    ensures { IsTrue result ↔ ((place < length chain.now)
        × AskTheSame link.now (link_at links.now (slice_index_or chain.now place 0))) }
{
    match chain.get(place) {
        Some(number) => ask_the_same(link, &links[*number as usize]),
        None => false,
    }
}

/// The place in the chain of that of its links that comes first in the list.
fn first_place(links: &[Link], chain: &[u32], places: &[usize]) -> usize
    requires nodes { All (λ k. k.to < length places.now) links.now }
    requires chain { NamesChain links.now chain.now }
    requires places { ArePlaces (length places.now) links.now chain.now (length chain.now) places.now }
    ensures { IsBeginning links.now (links_at links.now chain.now) result }
{
    for link in links {
        let place = places[link.to as usize];
        if is_at(links, chain, place, link) {
            return place;
        }
    }
    unreachable!()
}

/// The place in a chain, counted from 0, of that of its links that comes first in the list.
pub fn beginning(alloc: Global, list: &LinkList, chain: &[u32]) -> Result<usize, OutOfMemory>
    requires { NamesChain list.now.links chain.now }
    ensures { IfOk result (IsBeginning list.now.links (links_at list.now.links chain.now)) }
{
    let links = list.items();
    let places = places(alloc, list.nodes() as usize, links, chain)?;
    Ok(first_place(links, chain, &places))
}

/// The items of a ring from this one, counted from 0, round to it.
pub fn turned<T>(ring: Items<T>, first: usize) -> Items<T>
    requires { first ≤ length ring }
    ensures { result ≡ turned first ring }
{
    let mut items = ring.into_vec();
    items.rotate_left(first);
    Items::new(items)
}
