//! The rows of all blocks that files hold, one block after another.
ghost use Rattle.std.specs.Prelude.{◌≡◌};
ghost use Rattle.std.specs.Iterator.{YieldsFirst, item_count};
ghost use Rattle.nn_replicas.specs.Entry.{rows_in};

use crate::entry::Entry;
use nn_model::BlockRow;
use nn_sorted::Entries;
use nn_types::BlockId;
use std::marker::Model;

/// The rows of the blocks that files hold, each with its block id, by ascending block id.
#[derive(Debug, Drop)]
pub struct Rows<'a> {
    entries: Entries<'a, BlockId, Entry>,
}

impl<'a> Model for Rows<'a> {
    ghost use Rattle.std.specs.Prelude.{ℕ, List};
    ghost use Rattle.nn_model.specs.declared.form.BlockRow.{BlockRow};
    ghost use Rattle.nn_replicas.specs.Entry.{rows_in};

    ghost Value = { List (ℕ × BlockRow) };

    ghost view = { λ s. rows_in s.entries };
}

impl<'a> Rows<'a> {
    pub(crate) fn new(entries: Entries<'a, BlockId, Entry>) -> Rows<'a>
        ensures { result ≡ rows_in entries.entry }
    {
        Rows { entries }
    }
}

impl<'a> Iterator for Rows<'a> {
    type Item = (BlockId, BlockRow);

    ghost next_gives = { YieldsFirst (λ s. s) };

    ghost remaining = { item_count (λ s. s) };

    fn next(&mut self) -> Option<(BlockId, BlockRow)> {
        while let Some((block, entry)) = self.entries.next() {
            if let Some(row) = entry.row() {
                return Some((*block, row));
            }
        }
        None
    }
}
