//! Tests of kernels, search and judgement (layers 1, 3 and 6), of what no clause says. Each module has the name of
//! the crate whose public calls it tries, without `mintc_`: fractions, lanes, sets and walks; orders, paths and
//! their number; links, ratios and cycles, the optimum, the safe cycle, slack and corners; departures, certificates
//! and what judges them. Beside them, `systems` and `cases` make small systems, and `link_rows` lists of links.
#![tactic(auto)]

#[cfg(test)]
mod bitset;
#[cfg(test)]
mod cases;
#[cfg(test)]
mod certificate;
#[cfg(test)]
mod checker;
#[cfg(test)]
mod constraints;
#[cfg(test)]
mod corners;
#[cfg(test)]
mod departure;
#[cfg(test)]
mod fraction;
#[cfg(test)]
mod graph_walks;
#[cfg(test)]
mod lanes;
#[cfg(test)]
mod link_rows;
#[cfg(test)]
mod optimise;
#[cfg(test)]
mod order;
#[cfg(test)]
mod paths;
#[cfg(test)]
mod paths_count;
#[cfg(test)]
mod ratio;
#[cfg(test)]
mod safe;
#[cfg(test)]
mod slack;
#[cfg(test)]
mod systems;
