//! The held messages.
ghost use Rattle.std.specs.Prelude.{◌≡◌, ℕ, cond, ◌<◌, ◌≤◌, ◌^◌, ◌+◌, ◌↔◌, List, [], ◌∷◌, length, take, None, true, false, IsTrue, IfSome, IfNone, OnOk, OnErr, IfErr};
ghost use Rattle.std.specs.Ordering.{nat_cmp};
ghost use Rattle.std.specs.BTreeMap.{is_at};
ghost use Rattle.std.specs.List.Sorted.{IsStrictlySortedBy};
ghost use Rattle.std.specs.Map.{keys_of, remove_entry};
ghost use Rattle.std.specs.List.{list_any};
ghost use Rattle.nn_sorted.specs.Values.{value_at};
ghost use Rattle.nn_types.specs.declared.report.Message.{Message};
ghost use Rattle.nn_types.specs.declared.fault.TheConstants.{MEMORY};
ghost use Rattle.nn_model.specs.Stands.{AreByBlock};
ghost use Rattle.nn_postponed.specs.Queues.{queue, queued, all_queued, is_from, held_from, IsNextBlock, HaveIds};
ghost use Rattle.nn_postponed.specs.Counts.{count_of, OneMore};
ghost use Rattle.nn_postponed.specs.Release.{due_at, first_free, without_free, freed};

use crate::counts::Counts;
use crate::held::Held;
use crate::queue::Queue;
use crate::waiting::Waiting;
use nn_sorted::SortedMap;
use nn_types::{BlockId, Message, Status, fault};
use std::alloc::{AllocError, Global};
use std::marker::Model;
use thiserror::Error;

/// Memory was refused, and the message is not held. It comes back as it was handed over.
#[derive(Clone, Copy, Debug, Error)]
#[error("out of memory")]
pub struct HoldRefusal {
    pub message: Message,
}

impl HoldRefusal {
    /// The fault's number.
    pub fn number(self) -> u8
        ensures { result ≡ MEMORY }
    {
        fault::MEMORY
    }
}

// More messages than memory has room for.
const LIMIT: usize = 9223372036854775807;

/// The messages that wait.
///
/// Each block about which messages wait has a queue of its own, in a box that has room for three messages. The boxes stand in
/// chunks, by ascending block. A call takes O(log blocks + log messages of
/// the block), in the mean over all calls where it holds a message: from time to time a queue makes more places, or its
/// messages close up. A queue that comes or goes moves those behind it in its chunk, 64 at most, and sometimes chunks. A
/// queue that has become empty leaves the map.
///
/// A message that was taken leaves a hole. `queue` to its end is a pass over the queue's places, holes too; `due_count` looks
/// at each DataNode that waits about the block, and at each message that it counts.
///
/// The messages of each DataNode are counted, in eight bytes for each DataNode up to the highest from which one was held.
#[derive(Debug, Drop)]
pub struct Postponed {
    queues: SortedMap<BlockId, Queue>,
    // how many messages there are in all queues
    count: usize,
    // and how many of them are from each DataNode
    counts: Counts,
    alloc: Global,
}

impl Model for Postponed {
    ghost use Rattle.std.specs.Prelude.{◌≡◌, ◌<◌, ◌^◌, List, length};
    ghost use Rattle.std.specs.List.Sorted.{IsStrictlySortedBy};
    ghost use Rattle.std.specs.Map.{keys_of};
    ghost use Rattle.std.specs.Ordering.{nat_cmp};
    ghost use Rattle.nn_types.specs.declared.report.Message.{Message};
    ghost use Rattle.nn_postponed.specs.Flat.{flat, AreOwn};
    ghost use Rattle.nn_postponed.specs.Counts.{AreCounted};

    ghost Value = { List Message };

    ghost view = { λ p. flat p.queues };

    ghost invariant = { λ p. IsStrictlySortedBy nat_cmp (keys_of p.queues) × AreOwn p.queues × (p.count ≡ length (flat p.queues)) × (p.count < 2 ^ 63) × AreCounted p.counts (flat p.queues) };
}

impl Postponed {
    /// Holds nothing, and takes no memory.
    pub fn new(alloc: Global) -> Postponed
        ensures { result ≡ [] }
    {
        Postponed {
            queues: SortedMap::new(alloc),
            count: 0,
            counts: Counts::new(alloc),
            alloc,
        }
    }

    /// Holds one more message, as the last one about its block. Only this call and `hold_all` take memory.
    pub fn hold(&mut self, message: Message) -> Result<(), HoldRefusal>
        ensures ok { OnOk result (self.new ≡ queued message self.old) }
        ensures err { OnErr result (self.new ≡ self.old) }
        ensures back { IfErr result (λ refused. refused.message ≡ message) }
    {
        let Ok(()) = self.push(&message) else {
            return Err(HoldRefusal { message });
        };
        Ok(())
    }

    /// Holds all of these messages, in this order, or none of them: out of memory, those that were held by then are taken
    /// back. The caller keeps the messages, so none comes back.
    ///
    /// It costs what a call of `hold` costs for each of them, and out of memory a call of `take_last` for each as well.
    pub fn hold_all(&mut self, messages: &[Message]) -> Result<(), AllocError>
        ensures ok { OnOk result (self.new ≡ all_queued self.old messages.now) }
        ensures err { OnErr result (self.new ≡ self.old) }
    {
        for i in 0..messages.len() {
            let Ok(()) = self.push(&messages[i]) else {
                self.revoke(messages, i);
                return Err(AllocError);
            };
        }
        Ok(())
    }

    // Puts the message after the others about its block.
    fn push(&mut self, message: &Message) -> Result<(), AllocError>
        ensures ok { OnOk result (self.new ≡ queued message.now self.old) }
        ensures err { OnErr result (self.new ≡ self.old) }
    {
        if self.count >= LIMIT {
            return Err(AllocError);
        }
        let Ok(()) = self.counts.reserve(message.dn) else {
            return Err(AllocError);
        };
        let Some(queue) = self.queues.get_mut(&message.block) else {
            // Recalls to the prover that a block id keeps its limits.
            let _recalled = message.block.get();
            let Ok(mut queue) = Queue::new(self.alloc) else {
                return Err(AllocError);
            };
            let Ok(()) = queue.push(self.alloc, message) else {
                return Err(AllocError);
            };
            let Ok(_) = self.queues.insert(message.block, queue) else {
                return Err(AllocError);
            };
            self.count += 1;
            self.counts.more(message.dn);
            return Ok(());
        };
        let Ok(()) = queue.push(self.alloc, message) else {
            return Err(AllocError);
        };
        self.count += 1;
        self.counts.more(message.dn);
        Ok(())
    }

    // Revokes the first `held` of these messages, the last one of them first. Nothing was held after them.
    fn revoke(&mut self, messages: &[Message], held: usize)
        requires { held ≤ length messages.now }
        ensures { (was : List Message) → self.old ≡ all_queued was (take held messages.now) → self.new ≡ was }
    {
        let mut left = held;
        while left > 0 {
            left -= 1;
            let _ = self.take_last(messages[left].block);
        }
    }

    /// Takes the last message about the block, as if it had never been held. It looks back for the one before it of its
    /// DataNode, past all that stand between.
    pub fn take_last(&mut self, block: BlockId) -> Option<Message>
        ensures some { IfSome result (λ m. (m.block ≡ block) × (self.old ≡ queued m self.new)) }
        ensures none { IfNone result ((queue block self.old ≡ []) × (self.new ≡ self.old)) }
        // So what is left is the list before that message: no other list by block makes the old one.
        ensures order { AreByBlock self.new }
    {
        let Some(queue) = self.queues.get_mut(&block) else {
            return None;
        };
        let Some(message) = queue.take_last() else {
            unreachable!()
        };
        let is_empty = queue.is_empty();
        one_went(
            &mut self.queues,
            &mut self.count,
            &mut self.counts,
            block,
            is_empty,
            message.dn,
        );
        Some(message)
    }

    /// Whether a message of this DataNode about this block is held.
    pub fn holds(&self, dn: u16, block: BlockId) -> bool
        ensures { result ≡ list_any (is_from dn block) self.now }
    {
        let Some(queue) = self.queues.get(&block) else {
            return false;
        };
        queue.holds(dn, block)
    }

    /// The messages about a block in the order of arrival, lent one after another. None, or no messages, where none is
    /// held.
    pub fn queue(&self, block: BlockId) -> Option<Waiting<'_>>
        ensures some { IfSome result (λ q. q ≡ queue block self.now) }
        ensures none { IfNone result (queue block self.now ≡ []) }
    {
        let Some(queue) = self.queues.get(&block) else {
            return None;
        };
        Some(queue.messages())
    }

    /// All messages, lent one after another.
    pub fn messages(&self) -> Held<'_>
        ensures { result ≡ self.now }
    {
        Held::new(self.queues.iter())
    }

    /// How many calls of `release` would give a message, one after another.
    pub fn due_count(&self, block: BlockId, status: Status) -> u64
        ensures { result ≡ length (freed (due_at block status) [] self.now) }
    {
        let Some(queue) = self.queues.get(&block) else {
            return 0;
        };
        queue.due_count(block, status)
    }

    /// Takes the first message about the block that is due in this status and has no earlier one of its
    /// DataNode about the block.
    pub fn release(&mut self, block: BlockId, status: Status) -> Option<Message>
        ensures first { result ≡ first_free (due_at block status) [] self.old }
        ensures rest { self.new ≡ without_free (due_at block status) [] self.old }
    {
        let Some(queue) = self.queues.get_mut(&block) else {
            return None;
        };
        let Some(message) = queue.release(block, status) else {
            return None;
        };
        let is_empty = queue.is_empty();
        one_went(
            &mut self.queues,
            &mut self.count,
            &mut self.counts,
            block,
            is_empty,
            message.dn,
        );
        Some(message)
    }

    /// The least block of at least `from` about which a message is held. A caller that goes on from the id
    /// above the answer meets each block once, in ascending order.
    pub fn next_held(&self, from: BlockId) -> Option<BlockId>
        ensures next { IsNextBlock from self.now result }
        // What such a caller knows of the list, and of what lies above the highest id.
        ensures order { AreByBlock self.now }
        ensures ids { HaveIds self.now }
    {
        let Some((block, _)) = self.queues.iter_from(&from).next() else {
            return None;
        };
        Some(*block)
    }

    /// Takes the first message of the list: of the lowest block, the one that came first.
    pub fn take_first(&mut self) -> Option<Message>
        ensures some { IfSome result (λ m. self.old ≡ m ∷ self.new) }
        ensures none { IfNone result ((self.old ≡ []) × (self.new ≡ self.old)) }
    {
        let Some((block, _)) = self.queues.iter().next() else {
            return None;
        };
        let block = *block;
        let Some(first) = self.queues.get_mut(&block) else {
            unreachable!()
        };
        let Some(message) = first.take_first() else {
            unreachable!()
        };
        let is_empty = first.is_empty();
        one_went(
            &mut self.queues,
            &mut self.count,
            &mut self.counts,
            block,
            is_empty,
            message.dn,
        );
        Some(message)
    }

    /// How many messages are held.
    pub fn len(&self) -> usize
        ensures count { result ≡ length self.now }
        // There is room in a `usize` for one more.
        ensures small { result < 2 ^ 63 }
        ensures order { AreByBlock self.now }
    {
        self.count
    }

    /// How many of the held messages are from this DataNode: O(1).
    pub fn count_from(&self, dn: u16) -> usize
        ensures { result ≡ held_from dn self.now }
    {
        self.counts.of(dn)
    }

    /// Whether no message is held.
    pub fn is_empty(&self) -> bool
        ensures { IsTrue result ↔ (self.now ≡ []) }
    {
        self.count == 0
    }
}

// A message of this DataNode went from a block's queue, which goes as well where it is empty now.
fn one_went(
    queues: &mut SortedMap<BlockId, Queue>,
    count: &mut usize,
    counts: &mut Counts,
    block: BlockId,
    is_empty: bool,
    dn: u16,
)
    requires count { 0 < count.old }
    requires from { 0 < count_of dn counts.old }
    ensures emptied { is_empty ≡ true → IsStrictlySortedBy nat_cmp (keys_of queues.new) × ((b : ℕ) → value_at nat_cmp queues.new b ≡ cond (is_at (nat_cmp block) b) None (value_at nat_cmp queues.old b)) × (queues.new ≡ remove_entry (is_at (nat_cmp block)) queues.old) }
    ensures kept { is_empty ≡ false → queues.new ≡ queues.old }
    ensures count { count.new + 1 ≡ count.old }
    ensures counts { OneMore dn counts.new counts.old }
{
    if is_empty {
        let _ = queues.remove(&block);
    }
    *count -= 1;
    counts.fewer(dn);
}
