//! A sorted map in chunks.
//!
//! It does what std's `BTreeMap` does, with chunks of up to 64 entries in place of nodes of up to 15. Keys that come in
//! ascending order fill each chunk before the next one begins; they leave the nodes of a B-tree half empty. So a map of
//! block ids takes half the memory. A value may hold a map of values of its own type, as a directory holds directories.
//!
//! An entry goes in and out in O(log entries), and moves at most the entries of a chunk. Where a chunk is cut in two, or
//! leaves, the list of the chunks moves too: some O(entries / 64) at every 32nd entry that comes in between others.
#![tactic(auto)]

mod chunks;
mod entries;
mod map;
mod seek;

pub use entries::Entries;
pub use map::SortedMap;
pub use seek::Seek;
