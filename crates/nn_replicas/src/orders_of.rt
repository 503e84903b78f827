//! The orders at one block, one DataNode after another.
ghost use Rattle.std.specs.Prelude.{◌≡◌};
ghost use Rattle.nn_replicas.specs.Entry.{ordered_in};
ghost use Rattle.std.specs.Iterator.{YieldsFirst, item_count};

use crate::slot::Slot;
use std::marker::Model;

/// The DataNodes that are to delete what they have of a block, in order.
#[derive(Debug, Drop)]
pub struct OrdersOf<'a> {
    cells: &'a [Slot],
}

impl<'a> Model for OrdersOf<'a> {
    ghost use Rattle.std.specs.Prelude.{ℕ, List};
    ghost use Rattle.nn_replicas.specs.Entry.{ordered_in};

    ghost Value = { List ℕ };

    ghost view = { λ s. ordered_in s.cells.now };
}

impl<'a> OrdersOf<'a> {
    pub(crate) fn new(cells: &'a [Slot]) -> OrdersOf<'a>
        ensures { result ≡ ordered_in cells.now }
    {
        OrdersOf { cells }
    }
}

impl<'a> Iterator for OrdersOf<'a> {
    type Item = u16;

    ghost next_gives = { YieldsFirst (λ s. s) };

    ghost remaining = { item_count (λ s. s) };

    fn next(&mut self) -> Option<u16> {
        while let Some((first, others)) = self.cells.split_first() {
            self.cells = others;
            if first.cell().ordered {
                return Some(first.dn());
            }
        }
        None
    }
}
