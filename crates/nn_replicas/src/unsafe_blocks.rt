//! The blocks that keep safe mode on, looked for one entry after another.
ghost use Rattle.std.specs.Prelude.{◌≡◌, map};
ghost use Rattle.std.specs.Iterator.{YieldsFirst, item_count};
ghost use Rattle.nn_replicas.specs.Figures.{looked_at};

use crate::entry::Entry;
use nn_sorted::Entries;
use nn_types::BlockId;
use std::marker::Model;

/// Each block that the table knows, by ascending id. With it comes how many live replicas it has, where a closed file holds it
/// and these are too few to make it safe.
///
/// A step looks at one block, safe or not, so a caller can take so many steps and go on later behind the last id.
#[derive(Debug, Drop)]
pub struct UnsafeBlocks<'a> {
    min: u16,
    entries: Entries<'a, BlockId, Entry>,
}

impl<'a> Model for UnsafeBlocks<'a> {
    ghost use Rattle.std.specs.Prelude.{ℕ, List, Option, map};
    ghost use Rattle.nn_replicas.specs.Figures.{looked_at};

    ghost Value = { List (ℕ × Option ℕ) };

    ghost view = { λ s. map (looked_at s.min) s.entries };
}

impl<'a> UnsafeBlocks<'a> {
    pub(crate) fn new(min: u16, entries: Entries<'a, BlockId, Entry>) -> UnsafeBlocks<'a>
        ensures { result ≡ map (looked_at min) entries.entry }
    {
        UnsafeBlocks { min, entries }
    }
}

impl<'a> Iterator for UnsafeBlocks<'a> {
    type Item = (BlockId, Option<u64>);

    ghost next_gives = { YieldsFirst (λ s. s) };

    ghost remaining = { item_count (λ s. s) };

    fn next(&mut self) -> Option<(BlockId, Option<u64>)> {
        let Some((block, entry)) = self.entries.next() else {
            return None;
        };
        Some((*block, entry.too_few(self.min)))
    }
}
