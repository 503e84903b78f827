//! The replicas of one block, one DataNode after another.
ghost use Rattle.std.specs.Prelude.{◌≡◌};
ghost use Rattle.nn_replicas.specs.Entry.{replicas_in};
ghost use Rattle.std.specs.Iterator.{YieldsFirst, item_count};

use crate::slot::Slot;
use nn_types::Replica;
use std::marker::Model;

/// The replicas of a block, in order of DataNode.
#[derive(Debug, Drop)]
pub struct ReplicasOf<'a> {
    cells: &'a [Slot],
}

impl<'a> Model for ReplicasOf<'a> {
    ghost use Rattle.std.specs.Prelude.{ℕ, List};
    ghost use Rattle.nn_types.specs.declared.replica.Replica.{Replica};
    ghost use Rattle.nn_replicas.specs.Entry.{replicas_in};

    ghost Value = { List (ℕ × Replica) };

    ghost view = { λ s. replicas_in s.cells.now };
}

impl<'a> ReplicasOf<'a> {
    pub(crate) fn new(cells: &'a [Slot]) -> ReplicasOf<'a>
        ensures { result ≡ replicas_in cells.now }
    {
        ReplicasOf { cells }
    }
}

impl<'a> Iterator for ReplicasOf<'a> {
    type Item = (u16, Replica);

    ghost next_gives = { YieldsFirst (λ s. s) };

    ghost remaining = { item_count (λ s. s) };

    fn next(&mut self) -> Option<(u16, Replica)> {
        while let Some((first, others)) = self.cells.split_first() {
            self.cells = others;
            if let Some(replica) = first.cell().replica {
                return Some((first.dn(), replica));
            }
        }
        None
    }
}
