//! The messages that wait about one block, where they are many.
ghost use Rattle.std.specs.Prelude.{◌≡◌, ◌≢◌, ◌<◌, ◌≤◌, ◌++◌, [], ◌∷◌, ℕ, List, length, set, take, drop, nat_le, vec_len, vec_capacity, IsTrue, ◌↔◌, IfSome, IfNone, IfOk, OnOk, OnErr, None, Some, true, false};
ghost use Rattle.std.specs.List.{list_any};
ghost use Rattle.nn_types.specs.Due.{is_due};
ghost use Rattle.nn_types.specs.declared.report.Message.{Message};
ghost use Rattle.nn_postponed.specs.declared.many.Ends.{Ends};
ghost use Rattle.nn_postponed.specs.declared.stamps.TheConstants.{NO_STAMP};
ghost use Rattle.nn_postponed.specs.Links.{slot, is_of, AreAbout, IsHead, IsLast, NoneBefore, NoneBetween, AreLinked};
ghost use Rattle.nn_postponed.specs.Places.{present};
ghost use Rattle.nn_postponed.specs.Scans.{due_run};
ghost use Rattle.nn_postponed.specs.Queues.{is_from};
ghost use Rattle.nn_postponed.specs.Release.{due_at, first_free, without_free, freed};

use crate::freed::is_due_at;
use crate::stamps::{NO_STAMP, Stamps};
use nn_sorted::SortedMap;
use nn_types::{BlockId, Message, Status};
use std::alloc::{AllocError, Global};
use std::marker::Model;

/// The places of a DataNode's first and last message.
#[derive(Clone, Copy, Debug)]
pub struct Ends {
    pub first: usize,
    pub last: usize,
}

/// Messages about one block in the order of arrival. Each has a link to the next one of its DataNode, and the first one of
/// each DataNode, which alone can be free, has its stamp in a tree. So what a call looks at for a message grows with the
/// logarithm of the messages.
///
/// A message that is taken out leaves a hole, and no other message moves. Where the places are full and half of them are
/// holes, the next message makes them close up.
#[derive(Debug, Drop)]
pub struct Many {
    // that all of them are about
    block: BlockId,
    // A place with None is a hole.
    messages: Vec<Option<Message>>,
    // Of each message the place of the next one of its DataNode, or 0 where there is none.
    next: Vec<usize>,
    // by DataNode
    ends: SortedMap<u16, Ends>,
    stamps: Stamps,
    // how many of the places are no holes
    count: usize,
}

impl Model for Many {
    ghost use Rattle.std.specs.Prelude.{◌≡◌, List, Option, length};
    ghost use Rattle.nn_types.specs.declared.report.Message.{Message};
    ghost use Rattle.nn_postponed.specs.Places.{present};
    ghost use Rattle.nn_postponed.specs.Links.{AreLinked};

    ghost Value = { List (Option Message) };

    ghost view = { λ q. q.messages.items };

    ghost invariant = { λ q. AreLinked q.block q.messages.items q.next.items q.ends q.stamps × (q.count ≡ length (present q.messages.items)) };
}

impl Many {
    pub fn new(alloc: Global) -> Result<Many, AllocError>
        ensures { IfOk result (λ q. q ≡ []) }
    {
        let Ok(stamps) = Stamps::new(alloc) else {
            return Err(AllocError);
        };
        Ok(Many {
            block: BlockId::ZERO,
            messages: Vec::new(alloc),
            next: Vec::new(alloc),
            ends: SortedMap::new(alloc),
            stamps,
            count: 0,
        })
    }

    /// Their places in the order of arrival, some of them holes.
    pub fn places(&self) -> &[Option<Message>]
        ensures { result.now ≡ self.now }
    {
        &self.messages
    }

    pub fn is_empty(&self) -> bool
        ensures { IsTrue result ↔ (present self.now ≡ []) }
    {
        self.count == 0
    }

    /// Whether a message of this DataNode about this block waits.
    pub fn holds(&self, dn: u16, block: BlockId) -> bool
        ensures { result ≡ list_any (is_from dn block) (present self.now) }
    {
        self.block == block && self.ends.contains_key(&dn)
    }

    /// Puts one more message after the others. Out of memory, the messages are as they were.
    pub fn push(&mut self, alloc: Global, message: &Message) -> Result<(), AllocError>
        requires about { AreAbout message.now.block (present self.old) }
        ensures ok { OnOk result (present self.new ≡ present self.old ++ message.now ∷ []) }
        ensures err { OnErr result (present self.new ≡ present self.old) }
    {
        let Ok(()) = self.close_up(alloc) else {
            return Err(AllocError);
        };
        let Ok(()) = self.add(alloc, message) else {
            return Err(AllocError);
        };
        Ok(())
    }

    // Where there is no place behind the others, and half of them are holes, puts the messages into new places without a hole.
    fn close_up(&mut self, alloc: Global) -> Result<(), AllocError>
        ensures { present self.new ≡ present self.old }
    {
        let len = self.messages.len();
        if len < self.stamps.places() || self.count > len / 2 {
            return Ok(());
        }
        let Ok(mut closed) = Many::new(alloc) else {
            return Err(AllocError);
        };
        let Ok(()) = closed.add_all(alloc, self.block, &self.messages) else {
            return Err(AllocError);
        };
        *self = closed;
        Ok(())
    }

    /// Puts these messages after the others, in their order. All are about this block. Out of memory, some of them may stand
    /// there.
    pub fn add_all(
        &mut self,
        alloc: Global,
        block: BlockId,
        messages: &[Option<Message>],
    ) -> Result<(), AllocError>
        requires held { AreAbout block (present self.old) }
        requires about { AreAbout block (present messages.now) }
        ensures { OnOk result (present self.new ≡ present self.old ++ present messages.now) }
    {
        for place in 0..messages.len() {
            let Some(message) = messages[place] else {
                continue;
            };
            let Ok(()) = self.add(alloc, &message) else {
                return Err(AllocError);
            };
        }
        Ok(())
    }

    // Puts one more message after the others, and closes none up.
    fn add(&mut self, alloc: Global, message: &Message) -> Result<(), AllocError>
        requires about { AreAbout message.now.block (present self.old) }
        ensures ok { OnOk result (self.new ≡ self.old ++ Some message.now ∷ []) }
        ensures err { OnErr result (self.new ≡ self.old) }
    {
        let Ok(()) = self.stamps.reserve(alloc, self.messages.len()) else {
            return Err(AllocError);
        };
        let Ok(()) = self.next.reserve(1) else {
            return Err(AllocError);
        };
        let Ok(()) = self.messages.reserve(1) else {
            return Err(AllocError);
        };
        self.block = message.block;
        let Ok(()) = link(
            &self.messages,
            &mut self.next,
            &mut self.ends,
            &mut self.stamps,
            message,
        ) else {
            return Err(AllocError);
        };
        self.messages.push_reserved(Some(*message));
        self.count += 1;
        Ok(())
    }

    /// Takes the first message that is due in this status and is the first one of its DataNode.
    pub fn release(&mut self, block: BlockId, status: Status) -> Option<Message>
        ensures first { result ≡ first_free (due_at block status) [] (present self.old) }
        ensures rest { present self.new ≡ without_free (due_at block status) [] (present self.old) }
    {
        if self.block != block {
            return None;
        }
        let Some(limit) = highest_due(status) else {
            return None;
        };
        let Some(place) = self.stamps.first_up_to(limit) else {
            return None;
        };
        Some(self.take(place))
    }

    /// Takes the message that came first.
    pub fn take_first(&mut self) -> Option<Message>
        ensures some { IfSome result (λ m. present self.old ≡ m ∷ present self.new) }
        ensures none { IfNone result ((present self.old ≡ []) × (self.new ≡ self.old)) }
    {
        let Some(place) = self.stamps.first_up_to(NO_STAMP - 1) else {
            return None;
        };
        Some(self.take(place))
    }

    // Takes the message at this place, which is the first one of its DataNode.
    fn take(&mut self, place: usize) -> Message
        requires { (m : Message) × IsHead self.old place m }
        ensures there { slot self.old place ≡ Some result }
        ensures rest { self.new ≡ set self.old place None }
    {
        let Some(message) = self.messages[place] else {
            unreachable!()
        };
        unlink_first(
            &self.messages,
            &self.next,
            &mut self.ends,
            &mut self.stamps,
            place,
            &message,
        );
        self.messages[place] = None;
        self.count -= 1;
        message
    }

    /// Takes the message that came last.
    pub fn take_last(&mut self) -> Option<Message>
        ensures some { IfSome result (λ m. present self.old ≡ present self.new ++ m ∷ []) }
        ensures none { IfNone result ((present self.old ≡ []) × (self.new ≡ self.old)) }
    {
        let Some(place) = last_place(&self.messages) else {
            return None;
        };
        let Some(message) = self.messages[place] else {
            unreachable!()
        };
        unlink_last(
            &self.messages,
            &mut self.next,
            &mut self.ends,
            &mut self.stamps,
            place,
            &message,
        );
        self.messages.truncate(place);
        self.count -= 1;
        Some(message)
    }

    /// How many calls of `release` would give a message, one after another: the messages of each DataNode up to the first
    /// one that is not due.
    pub fn due_count(&self, block: BlockId, status: Status) -> u64
        ensures { result ≡ length (freed (due_at block status) [] (present self.now)) }
    {
        // Recalls to the prover that there are few enough for a `u64`, and that the ends are in order.
        let _recalled = self.messages.len();
        self.ends.recall_invariant();
        let mut count: u64 = 0;
        let mut left = self.ends.iter();
        while let Some((_, ends)) = left.next() {
            count += due_run(&self.messages, &self.next, ends.first, block, &status);
        }
        count
    }
}

// Links a message that comes after the others.
fn link(
    messages: &[Option<Message>],
    next: &mut Vec<usize>,
    ends: &mut SortedMap<u16, Ends>,
    stamps: &mut Stamps,
    message: &Message,
) -> Result<(), AllocError>
    requires room { length messages.now < length stamps.old }
    requires next { vec_len next.old < vec_capacity next.old }
    requires linked { (b : ℕ) × AreLinked b messages.now next.old.items ends.old stamps.old }
    ensures ok { OnOk result ((b : ℕ) → message.now.block ≡ b → AreLinked b messages.now next.old.items ends.old stamps.old
        → AreLinked b (messages.now ++ Some message.now ∷ []) next.new.items ends.new stamps.new) }
    ensures err { OnErr result ((b : ℕ) → AreLinked b messages.now next.old.items ends.old stamps.old
        → AreLinked b messages.now next.new.items ends.new stamps.new) }
{
    let place = messages.len();
    let Some(found) = ends.get_mut(&message.dn) else {
        let only = Ends {
            first: place,
            last: place,
        };
        let Ok(_) = ends.insert(message.dn, only) else {
            return Err(AllocError);
        };
        stamps.put(place, message.stamp.get());
        next.push_reserved(0);
        return Ok(());
    };
    let last = found.last;
    found.last = place;
    next[last] = place;
    next.push_reserved(0);
    Ok(())
}

// Takes the links of a message away, which is the first one of its DataNode.
fn unlink_first(
    messages: &[Option<Message>],
    next: &[usize],
    ends: &mut SortedMap<u16, Ends>,
    stamps: &mut Stamps,
    place: usize,
    message: &Message,
)
    requires head { IsHead messages.now place message.now }
    requires linked { (b : ℕ) × AreLinked b messages.now next.now ends.old stamps.old }
    ensures { (b : ℕ) → AreLinked b messages.now next.now ends.old stamps.old → AreLinked b (set messages.now place None) next.now ends.new stamps.new }
{
    let following = next[place];
    if following == 0 {
        let _ = ends.remove(&message.dn);
        stamps.put(place, NO_STAMP);
        return;
    }
    let Some(found) = ends.get_mut(&message.dn) else {
        unreachable!()
    };
    found.first = following;
    let Some(m) = messages[following] else {
        unreachable!()
    };
    stamps.put(following, m.stamp.get());
    stamps.put(place, NO_STAMP);
}

// Takes the links of a message away, which is the last one of all.
fn unlink_last(
    messages: &[Option<Message>],
    next: &mut Vec<usize>,
    ends: &mut SortedMap<u16, Ends>,
    stamps: &mut Stamps,
    place: usize,
    message: &Message,
)
    requires last { IsLast messages.now place message.now }
    requires linked { (b : ℕ) × AreLinked b messages.now next.old.items ends.old stamps.old }
    ensures { (b : ℕ) → AreLinked b messages.now next.old.items ends.old stamps.old → AreLinked b (take place messages.now) next.new.items ends.new stamps.new }
{
    next.truncate(place);
    let Some(old) = ends.get(&message.dn) else {
        unreachable!()
    };
    let first = old.first;
    if first == place {
        let _ = ends.remove(&message.dn);
        stamps.put(place, NO_STAMP);
        return;
    }
    let Some(before) = place_before(messages, place, message.dn) else {
        unreachable!()
    };
    let shorter = Ends {
        first,
        last: before,
    };
    let Ok(_) = ends.insert(message.dn, shorter) else {
        unreachable!()
    };
    next[before] = 0;
}

// The place of the last message.
fn last_place(messages: &[Option<Message>]) -> Option<usize>
    ensures some { IfSome result (λ p. (m : Message) × IsLast messages.now p m) }
    ensures none { IfNone result ((q : ℕ) → slot messages.now q ≡ None) }
{
    let mut end = messages.len();
    while end > 0 {
        end -= 1;
        if messages[end].is_some() {
            return Some(end);
        }
    }
    None
}

// The place of the DataNode's last message before this one.
fn place_before(messages: &[Option<Message>], place: usize, dn: u16) -> Option<usize>
    requires { place ≤ length messages.now }
    ensures some { IfSome result (λ p. p < place × (is_of dn (slot messages.now p) ≡ true) × NoneBetween dn messages.now p place) }
    ensures none { IfNone result (NoneBefore dn messages.now place) }
{
    let mut end = place;
    while end > 0 {
        end -= 1;
        if is_of(&messages[end], dn) {
            return Some(end);
        }
    }
    None
}

// Whether a message of this DataNode stands there.
fn is_of(slot: &Option<Message>, dn: u16) -> bool
    ensures { result ≡ is_of dn slot.now }
{
    let Some(m) = slot else {
        return false;
    };
    m.dn == dn
}

// How many messages from this one on, each the next one of its DataNode, are due before one is not.
fn due_run(
    messages: &[Option<Message>],
    next: &[usize],
    first: usize,
    block: BlockId,
    status: &Status,
) -> u64
    requires linked { (b : ℕ) × (ends : List (ℕ × Ends)) × (stamps : List ℕ) × AreLinked b messages.now next.now ends stamps }
    requires first { (dn : ℕ) × (is_of dn (slot messages.now first) ≡ true) }
    ensures { (dn : ℕ) → is_of dn (slot messages.now first) ≡ true → result ≡ due_run dn (due_at block status.now) (present (drop first messages.now)) }
{
    let mut count: u64 = 0;
    let mut place = first;
    loop {
        let Some(message) = messages[place] else {
            unreachable!()
        };
        if !is_due_at(&message, block, status) {
            return count;
        }
        count += 1;
        place = next[place];
        if place == 0 {
            return count;
        }
    }
}

// The highest stamp that is due in this status, if any is.
fn highest_due(status: Status) -> Option<u64>
    ensures some { IfSome result (λ limit. limit < NO_STAMP × ((stamp : ℕ) → stamp < NO_STAMP → is_due status stamp ≡ nat_le stamp limit)) }
    ensures none { IfNone result ((stamp : ℕ) → is_due status stamp ≡ false) }
{
    match status {
        Status::Named(stamp) => Some(stamp.get()),
        Status::Retired => Some(NO_STAMP - 1),
        Status::Awaiting | Status::Unnamed => None,
    }
}
