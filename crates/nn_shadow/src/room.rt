//! Room in the table that nobody needs any more is given back. None of these takes memory.
ghost use Rattle.std.specs.Prelude.{◌≡◌, ◌≤◌, length, drop};
ghost use Rattle.nn_tree.specs.Touched.{touched_of};
ghost use Rattle.nn_shadow.specs.Room.{is_waited_for, given_back, all_given_back, item_blocks, processed_blocks, given_back_after};

use crate::intake::Intake;
use nn_postponed::Postponed;
use nn_replicas::Replicas;
use nn_tree::Touched;
use nn_types::{BlockId, Event, Message};

/// Gives back the room of a block that the table knows nothing else of, unless an item about it is held: each item that is
/// held owns its room. O(log blocks + replicas of the block).
pub(crate) fn give_back(table: &mut Replicas, held: &Postponed, block: BlockId)
    ensures { table.new ≡ given_back held.now table.old block }
{
    if is_waited_for(held, block) {
        return;
    }
    table.give_back(block);
}

/// Does so for the block of each of these items.
pub(crate) fn give_back_items(table: &mut Replicas, held: &Postponed, items: &[Message])
    ensures { table.new ≡ all_given_back held.now table.old (item_blocks items.now) }
{
    for item in items {
        give_back(table, held, item.block);
    }
}

impl Intake {
    /// Does so for what an edit may have left: the blocks that it retired, and where it passed over ids the blocks of the items
    /// that it set free. Any other block that it touched has a row. The history tells the items, behind its first `before` events.
    pub(crate) fn give_back_touched(&mut self, touched: &Touched, before: usize)
        requires { before ≤ length self.old.history.items }
        ensures { self.new ≡ record self.old { table = given_back_after self.old.held self.old.table (touched_of touched.now) (drop before self.old.history.items) } }
    {
        give_back_blocks(&mut self.table, &self.held, touched.retired.as_slice());
        if touched.skipped.is_some() {
            let events = &self.history.as_slice()[before..];
            give_back_processed(&mut self.table, &self.held, events);
        }
    }
}

fn give_back_blocks(table: &mut Replicas, held: &Postponed, blocks: &[BlockId])
    ensures { table.new ≡ all_given_back held.now table.old blocks.now }
{
    for block in blocks {
        give_back(table, held, *block);
    }
}

// Of the blocks of the items that were processed.
fn give_back_processed(table: &mut Replicas, held: &Postponed, events: &[Event])
    ensures { table.new ≡ all_given_back held.now table.old (processed_blocks events.now) }
{
    for event in events {
        if let Event::Processed { block, .. } = event {
            give_back(table, held, *block);
        }
    }
}

// Whether an item about the block is held.
fn is_waited_for(held: &Postponed, block: BlockId) -> bool
    ensures { result ≡ is_waited_for held.now block }
{
    let Some(next) = held.next_held(block) else {
        return false;
    };
    next == block
}
