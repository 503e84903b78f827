//! The blocks of all files, one after another.
ghost use Rattle.std.specs.Iterator.{YieldsFirst, item_count};
ghost use Rattle.nn_tree.specs.Blocks.{AreBlockRows};

use super::Namespace;
use nn_model::BlockRow;
use nn_sorted::Entries;
use nn_types::BlockId;
use std::marker::Model;

/// The blocks that files have, each with whether its file is closed, by ascending id.
#[derive(Debug, Drop)]
pub struct BlockRows<'a> {
    rows: Entries<'a, BlockId, BlockRow>,
}

impl<'a> Model for BlockRows<'a> {
    ghost use Rattle.std.specs.Prelude.{List};
    ghost use Rattle.std.specs.Map.{values_of};
    ghost use Rattle.nn_model.specs.declared.form.BlockRow.{BlockRow};

    ghost Value = { List BlockRow };

    ghost view = { λ s. values_of s.rows };
}

impl<'a> Iterator for BlockRows<'a> {
    type Item = BlockRow;

    ghost next_gives = { YieldsFirst (λ s. s) };

    ghost remaining = { item_count (λ s. s) };

    fn next(&mut self) -> Option<BlockRow> {
        let Some((_id, row)) = self.rows.next() else {
            return None;
        };
        Some(*row)
    }
}

impl Namespace {
    /// The blocks of all files, by ascending id. It looks at no path.
    pub fn blocks(&self) -> BlockRows<'_>
        ensures { AreBlockRows self.now result }
    {
        BlockRows {
            rows: self.index.iter(),
        }
    }
}
