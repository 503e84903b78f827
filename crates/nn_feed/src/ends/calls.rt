// The calls of the two ends.
ghost use Rattle.std.specs.Prelude.{◌≡◌, ◌+◌, [], length, Ok, Err, IfOk, IfErr, OnOk};
ghost use Rattle.nn_feed.specs.Ends.{put_by, got_by, IsSameFeeder, AreOfOneFeed, PutsAnswer, RefusesAnswer, GivesWhatIsFed, IsMet};
ghost use Rattle.nn_feed.specs.Feeds.{has_last, is_last};
ghost use Rattle.nn_feed.specs.Passes.{ended_by, as_answer};

use super::{Ending, FeedEnd, Feeder};
use crate::bell::Bell;
use crate::fault::Refusal;
use crate::rule::{Gets, InOrder, Log, Placed, Roles, Whole};
use crate::send::send;
use crossbeam_channel::bounded_with;
use nn_segment::{Item, SegmentSource, SourceFault};
use std::alloc::{AllocError, Global};
use std::sync::atomic::{AtomicU64, Ordering};
use std::sync::{Arc, Wait};
use std::thread;

// So many answers lie in a feed at most.
const CAPACITY: usize = 4;

// No feed carries more segments.
const MAX_SEGMENTS: u64 = 1 << 60;

/// The two ends of a new feed, which holds at most four answers at a time. No other call takes memory. It waits for nothing.
///
/// The bell is rung behind each answer that is put. So whoever looks with `is_ready` can sleep on it in between.
pub fn feed<'a, R: Wait>(
    rt: &'a R,
    alloc: Global,
    bell: Arc<Bell, Global>,
) -> Result<(Feeder, FeedEnd<'a, R>), AllocError>
    ensures one_feed { IfOk result (λ ends. AreOfOneFeed ends.0 ends.1) }
    ensures empty { IfOk result (λ ends. (put_by ends.0 ≡ []) × (got_by ends.1 ≡ [])) }
{
    let (sender, receiver, mut pass) = bounded_with::<Placed, Log, InOrder, Global>(
        alloc, CAPACITY,
    )?;
    let other = sender.another::<Roles>(&mut pass);
    let shown = Arc::new(alloc, AtomicU64::new(0))?;
    let theirs = Arc::try_clone(&shown)?;
    let feeder = Feeder {
        sender,
        pass,
        count: 0,
        ended: false,
        bell,
        shown: theirs,
    };
    let end = FeedEnd {
        rt,
        receiver,
        pass: other,
        ending: None,
        failures: 0,
        count: 0,
        shown,
    };
    Ok((feeder, end))
}

// Whether nothing follows this answer.
fn is_last(answer: &Result<Item, SourceFault>) -> bool
    ensures { result ≡ is_last answer.now }
{
    ended_by(answer).is_some()
}

// How this answer ends its source.
fn ended_by(answer: &Result<Item, SourceFault>) -> Option<Ending>
    ensures { result ≡ ended_by answer.now }
{
    match answer {
        Ok(Item::Segment(_)) => None,
        Ok(Item::End) => Some(Ending::End),
        Err(fault) => Some(Ending::Fault(*fault)),
    }
}

// The answer that ended it so.
fn again(ending: Ending) -> Result<Item, SourceFault>
    ensures { result ≡ as_answer ending }
{
    match ending {
        Ending::End => Ok(Item::End),
        Ending::Fault(fault) => Err(fault),
    }
}

impl Feeder {
    /// Puts one item behind the others. Where the feed holds four answers, it waits until one is got, or the other end is
    /// gone.
    ///
    /// `Refusal::Ended` once End or a fault was put, and for a segment behind 2^60 of them; then `Refusal::Gone` where the
    /// other end is gone. After a refusal what was put is as it was, and the item comes back. An item that was put may still
    /// never be got.
    pub fn put<R: Wait>(&mut self, rt: &R, item: Item) -> Result<(), Refusal>
        ensures same { IsSameFeeder self.old self.new }
        ensures ok { OnOk result (PutsAnswer (put_by self.old) (Ok item) (put_by self.new)) }
        ensures refused { IfErr result (λ e. (put_by self.new ≡ put_by self.old) × RefusesAnswer (put_by self.old) (Ok item) e) }
    {
        self.place(rt, Ok(item))
    }

    /// Tells the other end that the source failed: puts its fault as the last answer. It waits and is refused as an item
    /// is, except for the number of segments.
    pub fn fail<R: Wait>(&mut self, rt: &R, fault: SourceFault) -> Result<(), Refusal>
        ensures same { IsSameFeeder self.old self.new }
        ensures ok { OnOk result (PutsAnswer (put_by self.old) (Err fault) (put_by self.new)) }
        ensures refused { IfErr result (λ e. (put_by self.new ≡ put_by self.old) × RefusesAnswer (put_by self.old) (Err fault) e) }
    {
        self.place(rt, Err(fault))
    }

    // Puts one answer.
    fn place<R: Wait>(&mut self, rt: &R, answer: Result<Item, SourceFault>) -> Result<(), Refusal>
        ensures same { IsSameFeeder self.old self.new }
        ensures ok { OnOk result (PutsAnswer (put_by self.old) answer (put_by self.new)) }
        ensures refused { IfErr result (λ e. (put_by self.new ≡ put_by self.old) × RefusesAnswer (put_by self.old) answer e) }
    {
        let last = is_last(&answer);
        if self.ended || (!last && self.count >= MAX_SEGMENTS) {
            return Err(Refusal::Ended { answer });
        }
        let message = Placed {
            answer,
            place: self.count,
        };
        match send(rt, &self.sender, &mut self.pass, message) {
            Ok(()) => {
                self.count += 1;
                self.ended = last;
                self.shown.store(self.count, Ordering::SeqCst);
                self.bell.ring();
                Ok(())
            }
            Err((back, failed)) => {
                let Placed {
                    answer,
                    place: _place,
                } = back;
                Err(Refusal::Gone { answer, failed })
            }
        }
    }
}

// One more. No run comes to 2^64: there it would wait for ever.
fn next_count<R: Wait>(rt: &R, count: u64) -> u64
    ensures { result ≡ count + 1 }
{
    if count < u64::MAX {
        return count + 1;
    }
    for _ in rt.forever() {
        thread::yield_now();
    }
    unreachable!()
}

impl<'a, R: Wait> FeedEnd<'a, R> {
    /// Whether the source's last answer was got: End, or a fault.
    pub fn is_at_end(&self) -> bool
        ensures { result ≡ has_last (got_by self.now) }
    {
        self.ending.is_some()
    }

    /// Whether `next` would answer at once, as far as this end sees: an answer lies in the feed, the source's last answer
    /// was got, or the other end is gone. O(1); it takes nothing, and never waits.
    ///
    /// False says only that none was seen in this look: another one may see an answer that lay there before.
    pub fn is_ready(&self) -> bool {
        self.is_at_end()
            || self.shown.load(Ordering::SeqCst) > self.count
            || Arc::strong_count(&self.shown) < 2
    }

    // The next answer, not counted where it is a fault.
    fn ask(&mut self) -> Result<Item, SourceFault>
        ensures gives { GivesWhatIsFed self.old result self.new }
        ensures uncounted { self.new.failures ≡ self.old.failures }
    {
        if let Some(ending) = self.ending {
            return again(ending);
        }
        let Ok(message) = self.receiver.recv_as::<Gets, R>(self.rt, &mut self.pass) else {
            return Err(SourceFault::Gone);
        };
        let Placed {
            answer,
            place: _place,
        } = message;
        self.ending = ended_by(&answer);
        // A feed carries at most 2^60 segments and one answer more, so it never wraps. Nothing is proved of it.
        self.count = self.count.wrapping_add(1);
        answer
    }
}

impl<'a, R: Wait> SegmentSource for FeedEnd<'a, R> {
    ghost use Rattle.std.specs.Prelude.{◌≡◌, ◌-◌, ◌^◌, length};
    ghost use Rattle.nn_segment.specs.Source.{end};
    ghost use Rattle.nn_feed.specs.Ends.{got_by, GivesWhatIsFed};
    ghost use Rattle.nn_feed.specs.Feeds.{answers_of, EndsIn};

    ghost gives = { GivesWhatIsFed };

    ghost left = { λ e. 2 ^ 60 - length (got_by e) };

    ghost failures = { λ e. e.failures };

    ghost ended = { λ e. EndsIn (answers_of (got_by e)) end };

    fn next(&mut self) -> Result<Item, SourceFault> {
        match self.ask() {
            Ok(item) => Ok(item),
            Err(fault) => {
                self.failures = next_count(self.rt, self.failures);
                Err(fault)
            }
        }
    }
}

/// Ends a feed, with both ends in one thread: what was got is a prefix of what was put, and all of it once its last
/// answer was got. It waits for nothing.
pub fn meet<'a, R: Wait>(feeder: Feeder, end: FeedEnd<'a, R>)
    requires { AreOfOneFeed feeder end }
    ensures { IsMet (put_by feeder) (got_by end.entry) }
{
    let Feeder {
        sender,
        mut pass,
        count: _,
        ended: _,
        bell: _,
        shown: _,
    } = feeder;
    let FeedEnd {
        rt: _,
        receiver,
        pass: other,
        ending: _,
        failures: _,
        count: _,
        shown: _,
    } = end;
    sender.absorb::<Roles>(&mut pass, other);
    sender.learn_as::<Whole>(&mut pass);
    drop(receiver);
}
