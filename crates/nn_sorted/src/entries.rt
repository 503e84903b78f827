//! The entries of a map, one after another.
ghost use Rattle.std.specs.Prelude.{◌≡◌, ◌≤◌, length};
ghost use Rattle.std.specs.Iterator.{item_count};
ghost use Rattle.std.specs.Map.Iter.{TakesFirst, deref_pair};
ghost use Rattle.nn_sorted.specs.Chunks.{flat, after, HasEntries};

use std::marker::Model;

/// The entries of a map that are left, by ascending key.
#[derive(Debug, Drop)]
pub struct Entries<'a, K, V> {
    // What is left of the chunk at hand.
    entries: &'a [(K, V)],
    chunks: &'a [Vec<(K, V)>],
}

impl<'a, K, V> Model for Entries<'a, K, V> {
    ghost use Rattle.std.specs.Prelude.{◌++◌, List};
    ghost use Rattle.nn_sorted.specs.Chunks.{flat};

    ghost Value = { List (K × V) };

    ghost view = { λ a. a.entries.now ++ flat a.chunks.now };
}

impl<'a, K, V> Entries<'a, K, V> {
    /// All entries of these chunks.
    pub(crate) fn new(chunks: &'a [Vec<(K, V)>]) -> Entries<'a, K, V>
        ensures { result ≡ flat chunks.entry.now }
    {
        Entries {
            entries: &[],
            chunks,
        }
    }
}

impl<'a, K, V> Entries<'a, K, V> {
    /// The entries at this place of a chunk and behind it.
    pub(crate) fn from(chunks: &'a [Vec<(K, V)>], chunk: usize, place: usize) -> Entries<'a, K, V>
        requires in_chunks { chunk ≤ length chunks.now }
        requires in_chunk { HasEntries chunks.now chunk place }
        ensures { result ≡ after chunks.entry.now chunk place }
    {
        let Some(first) = chunks.get(chunk) else {
            return Entries {
                entries: &[],
                chunks: &[],
            };
        };
        let (_before, entries) = first.as_slice().split_at(place);
        let (_passed, chunks) = chunks.split_at(chunk + 1);
        Entries { entries, chunks }
    }
}

impl<'a, K, V> Iterator for Entries<'a, K, V> {
    type Item = (&'a K, &'a V);

    ghost next_gives = { TakesFirst deref_pair };

    ghost remaining = { item_count (λ s. s) };

    fn next(&mut self) -> Option<(&'a K, &'a V)> {
        loop {
            if let Some((first, others)) = self.entries.split_first() {
                self.entries = others;
                return Some((&first.0, &first.1));
            }
            let Some((chunk, chunks)) = self.chunks.split_first() else {
                return None;
            };
            self.entries = chunk.as_slice();
            self.chunks = chunks;
        }
    }
}
