//! Held items are taken up. None of these takes memory: the history has room, and each item has its room
//! in the table.
ghost use Rattle.std.specs.Prelude.{◌≡◌, ◌+◌, ◌≤◌, ◌++◌, ◌⊎◌, [], Bool, false, length, map, None, vec_len, vec_capacity};
ghost use Rattle.std.specs.List.{list_any};
ghost use Rattle.nn_types.specs.declared.report.Message.{Message};
ghost use Rattle.nn_types.specs.declared.event.Cause.TheVariants.{Due, Flush};
ghost use Rattle.nn_model.specs.History.{processed};
ghost use Rattle.nn_model.specs.Touched.{ascending, changed_ids};
ghost use Rattle.nn_model.specs.Stands.{AreByBlock};
ghost use Rattle.nn_postponed.specs.Release.{due_at, first_free, freed, still_waiting};
ghost use Rattle.nn_shadow.specs.Calls.{is_due_in};
ghost use Rattle.nn_shadow.specs.Rounds.{TakesBlock, FillsBlock, LeavesOthers};
ghost use Rattle.nn_shadow.specs.Touching.{IsQuiet, Rises};
ghost use Rattle.nn_tree.specs.Touched.{touched_of};
ghost use Rattle.nn_shadow.specs.Steps.{messages_taken, not_held, HavePlaces};

use crate::intake::Intake;
use crate::table::process;
use crate::touching::next_touched;
use nn_postponed::Postponed;
use nn_replicas::Replicas;
use nn_tree::{Namespace, Touched};
use nn_types::{BlockId, Cause, Event, Message, Status};

impl Intake {
    /// Processes the held messages that are free, by ascending block id and then in the order of arrival, where they
    /// are free only about blocks that an edit touched.
    ///
    /// It leaps from a block that the edit touched to the next one that messages are held about, and back: a leap takes
    /// O(log touched blocks + log held blocks), and there are no more of them than touched blocks, nor than twice the blocks
    /// that messages are held about. It takes no time where nothing is held or nothing was touched. What is free about a
    /// block is released one by one. `written` has the ids of the changed blocks, ascending, which come in file order
    /// themselves.
    pub(crate) fn settle(&mut self, namespace: &Namespace, written: &[BlockId], touched: &Touched)
        requires room { vec_len self.old.history + length self.old.held ≤ vec_capacity self.old.history }
        requires placed { HavePlaces self.old.table self.old.held }
        requires order { AreByBlock self.old.held }
        requires written { (self.old.held ≡ []) ⊎ (written.now ≡ ascending (changed_ids (touched_of touched.now))) }
        requires rises { Rises (touched_of touched.now).retired }
        requires quiet { IsQuiet (touched_of touched.now) (is_due_in namespace.now) self.old.held }
        ensures told { self.new.history.items ≡ self.old.history.items ++ map (processed Due) (freed (is_due_in namespace.now) [] self.old.held) }
        ensures left { self.new.held ≡ still_waiting (is_due_in namespace.now) [] self.old.held }
        ensures table { self.new.table ≡ messages_taken self.old.table (freed (is_due_in namespace.now) [] self.old.held) }
    {
        if self.held.is_empty() {
            return;
        }
        let mut from = BlockId::ZERO;
        while let Some(block) = next_touched(written, touched, &self.held, from) {
            let Some(least) = self.held.next_held(block) else {
                return;
            };
            if block < least {
                from = least;
                continue;
            }
            let status = namespace.status(block);
            self.settle_block(block, &status);
            let Some(next) = BlockId::new(block.get() + 1) else {
                return;
            };
            from = next;
        }
    }

    // Processes the messages about the block that are free.
    fn settle_block(&mut self, block: BlockId, status: &Status)
        requires room { vec_len self.old.history + length self.old.held ≤ vec_capacity self.old.history }
        requires placed { HavePlaces self.old.table self.old.held }
        ensures done { first_free (due_at block status.now) [] self.new.held ≡ None }
        ensures takes { TakesBlock block status.now self.old.history.items self.old.held self.new.history.items self.new.held }
        ensures fills { FillsBlock block status.now self.old.table self.old.held self.new.table self.new.held }
        ensures fewer { (p : Message → Bool) → list_any p self.old.held ≡ false → list_any p self.new.held ≡ false }
        ensures others { LeavesOthers block self.old.held self.new.held }
        ensures room { vec_len self.new.history + length self.new.held ≤ vec_capacity self.new.history }
        ensures placed { HavePlaces self.new.table self.new.held }
    {
        while let Some(m) = self.held.release(block, *status) {
            let Ok(()) = self.history.push(processed(&m, Cause::Due)) else {
                return;
            };
            process(&mut self.table, &m);
        }
    }

    /// Processes all that is held, by ascending block id and then in the order of arrival.
    pub(crate) fn process_held(&mut self)
        requires room { vec_len self.old.history + length self.old.held ≤ vec_capacity self.old.history }
        requires placed { HavePlaces self.old.table self.old.held }
        ensures told { self.new.history.items ≡ self.old.history.items ++ map (processed Flush) self.old.held }
        ensures left { self.new.held ≡ [] }
        ensures table { self.new.table ≡ messages_taken self.old.table self.old.held }
    {
        while let Some(m) = self.held.take_first() {
            let Ok(()) = self.history.push(processed(&m, Cause::Flush)) else {
                return;
            };
            process(&mut self.table, &m);
        }
    }
}

/// Processes those of the items that are not held, in their order.
pub(crate) fn process_due(
    history: &mut Vec<Event>,
    table: &mut Replicas,
    held: &Postponed,
    items: &[Message],
)
    requires room { vec_len history.old + length (not_held held.now items.now) ≤ vec_capacity history.old }
    requires placed { HavePlaces table.old items.now }
    ensures told { history.new.items ≡ history.old.items ++ map (processed Due) (not_held held.now items.now) }
    ensures table { table.new ≡ messages_taken table.old (not_held held.now items.now) }
{
    for item in items {
        if held.holds(item.dn, item.block) {
            continue;
        }
        let Ok(()) = history.push(processed(item, Cause::Due)) else {
            return;
        };
        process(table, item);
    }
}

/// The event of a message that is processed.
pub(crate) fn processed(m: &Message, cause: Cause) -> Event
    ensures { result ≡ processed cause m.now }
{
    Event::Processed {
        dn: m.dn,
        number: m.number,
        block: m.block,
        cause,
    }
}
