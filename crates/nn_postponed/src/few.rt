//! The messages that wait about one block, where they are few.
ghost use Rattle.std.specs.Prelude.{◌≡◌, ◌<◌, ◌≤◌, ◌+◌, ◌++◌, [], ◌∷◌, length, take, drop, get_or, Some, None, true, false, IsTrue, ◌↔◌, IfSome, IfNone};
ghost use Rattle.std.specs.List.{list_any};
ghost use Rattle.nn_postponed.specs.Places.{present, IsFreePlace};
ghost use Rattle.nn_postponed.specs.Queues.{is_from};
ghost use Rattle.nn_postponed.specs.Release.{due_at, first_free, must_wait, same_source, without_free};

use crate::freed::{is_due_at, same_source};
use arrayvec::ArrayVec;
use nn_types::{BlockId, Message, Status};
use std::marker::Model;

// As many as a block has replicas, mostly.
const ROOM: usize = 3;

/// Up to three messages, in the order of arrival, in the value itself. None of its places is a hole.
///
/// It has no list of the first ones of their DataNodes: a call looks at each message.
#[derive(Debug, Drop)]
pub struct Few {
    messages: ArrayVec<Option<Message>, ROOM>,
}

impl Model for Few {
    ghost use Rattle.std.specs.Prelude.{◌≡◌, List, length};
    ghost use Rattle.nn_types.specs.declared.report.Message.{Message};
    ghost use Rattle.nn_postponed.specs.Places.{present};

    ghost Value = { List Message };

    ghost view = { λ q. present q.messages.items };

    ghost invariant = { λ q. length (present q.messages.items) ≡ length q.messages.items };
}

impl Few {
    pub fn new() -> Few
        ensures { result ≡ [] }
    {
        Few {
            messages: ArrayVec::new(),
        }
    }

    /// Their places in the order of arrival.
    pub fn places(&self) -> &[Option<Message>]
        ensures { present result.now ≡ self.now }
    {
        self.messages.as_slice()
    }

    pub fn is_empty(&self) -> bool
        ensures { IsTrue result ↔ (self.now ≡ []) }
    {
        self.messages.len() == 0
    }

    /// Whether a message of this DataNode about this block waits.
    pub fn holds(&self, dn: u16, block: BlockId) -> bool
        ensures { result ≡ list_any (is_from dn block) self.now }
    {
        has_from(self.messages.as_slice(), dn, block)
    }

    /// Puts one more message after the others, where there is room for it: whether there was.
    pub fn push(&mut self, message: &Message) -> bool
        ensures there { result ≡ true → self.new ≡ self.old ++ message.now ∷ [] }
        ensures full { result ≡ false → self.new ≡ self.old }
    {
        if self.messages.len() == ROOM {
            return false;
        }
        self.messages.push(Some(*message));
        true
    }

    /// Takes the first message that is due in this status and is the first one of its DataNode.
    pub fn release(&mut self, block: BlockId, status: Status) -> Option<Message>
        ensures first { result ≡ first_free (due_at block status) [] self.old }
        ensures rest { self.new ≡ without_free (due_at block status) [] self.old }
    {
        let Some(place) = self.free_place(block, status) else {
            return None;
        };
        Some(self.take(place))
    }

    // The place of the first message that does not have to wait.
    fn free_place(&self, block: BlockId, status: Status) -> Option<usize>
        ensures free { IfSome result (IsFreePlace (due_at block status) self.now) }
        ensures none { IfNone result (first_free (due_at block status) [] self.now ≡ None) }
    {
        let messages = self.messages.as_slice();
        for place in 0..messages.len() {
            let Some(message) = messages[place] else {
                unreachable!()
            };
            if !waits(messages, place, &message, block, &status) {
                return Some(place);
            }
        }
        None
    }

    // Takes the message at this place.
    fn take(&mut self, place: usize) -> Message
        requires { place < length self.old }
        ensures value { result ≡ get_or self.old place result }
        ensures rest { self.new ≡ take place self.old ++ drop (place + 1) self.old }
    {
        let Some(message) = self.messages.remove(place) else {
            unreachable!()
        };
        message
    }

    /// Takes the message that came first.
    pub fn take_first(&mut self) -> Option<Message>
        ensures some { IfSome result (λ m. self.old ≡ m ∷ self.new) }
        ensures none { IfNone result ((self.old ≡ []) × (self.new ≡ self.old)) }
    {
        if self.is_empty() {
            return None;
        }
        Some(self.take(0))
    }

    /// Takes the message that came last.
    pub fn take_last(&mut self) -> Option<Message>
        ensures some { IfSome result (λ m. self.old ≡ self.new ++ m ∷ []) }
        ensures none { IfNone result ((self.old ≡ []) × (self.new ≡ self.old)) }
    {
        let Some(slot) = self.messages.pop() else {
            return None;
        };
        let Some(message) = slot else { unreachable!() };
        Some(message)
    }
}

// Whether one of the messages is of this DataNode and about this block.
fn has_from(messages: &[Option<Message>], dn: u16, block: BlockId) -> bool
    ensures { result ≡ list_any (is_from dn block) (present messages.now) }
{
    for place in 0..messages.len() {
        let Some(m) = messages[place] else {
            continue;
        };
        if is_from(&m, dn, block) {
            return true;
        }
    }
    false
}

// Whether the message is of this DataNode and about this block.
fn is_from(m: &Message, dn: u16, block: BlockId) -> bool
    ensures { result ≡ is_from dn block m.now }
{
    m.dn == dn && m.block == block
}

// Whether this message, which stands at the place, has to wait: it is not due, or one of its DataNode stands before it.
fn waits(
    messages: &[Option<Message>],
    place: usize,
    m: &Message,
    block: BlockId,
    status: &Status,
) -> bool
    requires { place ≤ length messages.now }
    ensures { result ≡ must_wait (due_at block status.now) (present (take place messages.now)) m.now }
{
    !is_due_at(m, block, status) || is_later(messages, place, m)
}

// Whether one of the messages before a place is of this one's DataNode and about its block.
fn is_later(messages: &[Option<Message>], end: usize, m: &Message) -> bool
    requires { end ≤ length messages.now }
    ensures { result ≡ list_any (same_source m.now) (present (take end messages.now)) }
{
    for place in 0..end {
        let Some(other) = messages[place] else {
            continue;
        };
        if same_source(m, &other) {
            return true;
        }
    }
    false
}
