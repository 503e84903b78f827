//! What no clause of a feed says: it goes on, it is full at four, and a feeder that is gone tells the other end.
ghost use Rattle.std.specs.Prelude.{◌≡◌, [], IfOk};
ghost use Rattle.nn_feed.specs.Ends.{AreOfOneFeed, got_by, put_by};

use crate::sources::{AT_ANY_TIME, FailsOnce, Pace, new_watched};
use crate::values::{Shared, TWO_MARKS, Text, log_of, marks, reaches};
use nn_feed::{
    Bell, Delivered, FeedEnd, FeedFault, Feeder, FeederExit, Refusal, feed, meet, run_feeder,
    run_thread,
};
use nn_segment::{Item, Parsed, SegmentSource, SourceFault};
use std::alloc::{AllocError, Global};
use std::process::Abort;
use std::sync::atomic::{AtomicU64, Ordering};
use std::sync::{Arc, Wait};
use std::thread;
use std::thread::{Threads, join};

// A feed whose bell nobody hears.
fn new_feed<'a, R: Wait>(rt: &'a R, alloc: Global) -> Result<(Feeder, FeedEnd<'a, R>), AllocError>
    ensures one_feed { IfOk result (λ ends. AreOfOneFeed ends.0 ends.1) }
    ensures empty { IfOk result (λ ends. (put_by ends.0 ≡ []) × (got_by ends.1 ≡ [])) }
{
    let bell = Arc::new(alloc, Bell::new())?;
    feed(rt, alloc, bell)
}

// ---- A feed between two threads.

// What the thread that gets does.
#[derive(Clone, Copy)]
enum Gets {
    All,
    // All, and waits before each.
    AllSlowly,
    // The first segment, once the feed is full.
    First,
    // None: it goes once the feed is full.
    Leaves,
}

// A feed, and what comes of it.
#[derive(Clone, Copy)]
struct Fed {
    name: &'static str,
    times: u64,
    log: &'static [Text],
    pace: Pace,
    // The log's call that fails, from 0.
    fails_at: u64,
    gets: Gets,
    // How many segments the feeder put before End, or the number of the fault that kept it from that.
    put: Result<u64, u8>,
    // How often the log was asked.
    calls: u64,
    // How many segments were got, and the number of the fault after them. Or how many were put before the first was
    // got, and after.
    got: (u64, u64),
}

// Each segment goes through the feed while its source waits for that: neither end works before the other.
const GATED_FEED: Fed = Fed {
    name: "gated feed",
    times: 1,
    log: &[TWO_MARKS; 9],
    pace: Pace {
        gates: 9,
        more: 1,
        ..AT_ANY_TIME
    },
    fails_at: u64::MAX,
    gets: Gets::All,
    put: Ok(9),
    calls: 10,
    got: (9, 0),
};

// The reader waits for the feeder, as a rule. No send fails.
const FAST_READER: Fed = Fed {
    name: "a fast reader",
    times: 100,
    log: &[TWO_MARKS; 9],
    pace: AT_ANY_TIME,
    ..GATED_FEED
};

// The feeder waits for the reader, as a rule. No send fails.
const SLOW_READER: Fed = Fed {
    name: "a slow reader",
    gets: Gets::AllSlowly,
    ..FAST_READER
};

// The source's fault is answered, and the other end, which waits, is told of it.
const FAILS_AT_SECOND: Fed = Fed {
    name: "failing at the second segment",
    times: 1000,
    log: &[TWO_MARKS],
    pace: AT_ANY_TIME,
    fails_at: 1,
    gets: Gets::All,
    put: Err(47),
    calls: 2,
    got: (1, 47),
};

// The fifth segment is put once the first was got, and then the log is asked for more.
const FOUR_ARE_HELD: Fed = Fed {
    name: "four are held",
    times: 1,
    log: &[TWO_MARKS; 5],
    pace: AT_ANY_TIME,
    fails_at: u64::MAX,
    gets: Gets::First,
    put: Err(46),
    calls: 6,
    got: (4, 5),
};

// A feeder that waits at a full feed is told that the other end is gone.
const LEFT_WHILE_FULL: Fed = Fed {
    name: "left while full",
    gets: Gets::Leaves,
    calls: 5,
    got: (4, 0),
    ..FOUR_ARE_HELD
};

const FEEDS: &[Fed] = &[
    GATED_FEED,
    FAST_READER,
    SLOW_READER,
    FAILS_AT_SECOND,
    FOUR_ARE_HELD,
    LEFT_WHILE_FULL,
];

#[test]
fn feeds(rt: HostRuntime) {
    for fed in FEEDS {
        for _ in 0..fed.times {
            ends(&rt, rt.alloc(), fed);
        }
    }
}

fn ends<R: Abort + Threads + Wait + Sync>(rt: &R, alloc: Global, fed: &Fed) {
    let name = fed.name;
    let Some(shared) = Shared::new(alloc) else {
        assert!(rt; false, "out of memory");
        return;
    };
    let both = put_and_got(rt, alloc, fed, &shared);
    let calls = shared.calls.load(Ordering::SeqCst);
    let vain = shared.vain.load(Ordering::SeqCst);
    assert_eq!(rt; both, Some((fed.put, fed.got)), "{name}");
    assert_eq!(rt; (calls, vain), (fed.calls, 0), "{name}");
}

// What both threads come to.
fn put_and_got<R: Threads + Wait + Sync>(
    rt: &R,
    alloc: Global,
    fed: &Fed,
    shared: &Arc<Shared, Global>,
) -> Option<(Result<u64, u8>, (u64, u64))> {
    let source = new_watched(alloc, shared, fed.log, fed.fails_at, fed.pace)?;
    let Ok((feeder, end)) = new_feed(rt, alloc) else {
        return None;
    };
    let gets = fed.gets;
    Some(join(
        rt,
        || put_by(run_thread(rt, source, feeder)),
        || got_from(end, gets, shared),
    ))
}

fn put_by(ran: FeederExit<impl SegmentSource + Drop>) -> Result<u64, u8> {
    let FeederExit { source, outcome } = ran;
    drop(source);
    match outcome {
        Ok(told) => {
            let Delivered { feeder, end } = told;
            drop(feeder);
            match end {
                Ok(count) => Ok(count),
                Err(fault) => Err(fault.number()),
            }
        }
        Err(refusal) => Err(refusal.number()),
    }
}

fn got_from(end: impl SegmentSource + Drop, gets: Gets, shared: &Shared) -> (u64, u64) {
    match gets {
        Gets::All => get_all(end, &shared.asked, 0),
        Gets::AllSlowly => get_all(end, &shared.asked, 300),
        Gets::First => get_first(end, shared),
        Gets::Leaves => {
            let before = put_when_full(shared);
            drop(end);
            (before, 0)
        }
    }
}

// How many segments came before End, or before a fault that came again, with the number of it. Before each it gives way
// so many times.
fn get_all(mut end: impl SegmentSource + Drop, got: &AtomicU64, turns: u32) -> (u64, u64) {
    for count in 0..u64::MAX {
        got.store(count, Ordering::SeqCst);
        for _ in 0..turns {
            thread::yield_now();
        }
        match end.next() {
            Ok(Item::Segment(_)) => {}
            Ok(Item::End) => return (count, 0),
            Err(fault) if comes_again(&mut end, fault) => {
                return (count, u64::from(fault.number()));
            }
            Err(_) => return (count, 1),
        }
    }
    (0, 1)
}

// Whether the same fault comes thrice more.
fn comes_again(end: &mut (impl SegmentSource + Drop), fault: SourceFault) -> bool {
    for _ in 0..3u8 {
        match end.next() {
            Err(again) if again == fault => {}
            _ => return false,
        }
    }
    true
}

// How many segments were put before the first was got, and after.
fn get_first(mut end: impl SegmentSource + Drop, shared: &Shared) -> (u64, u64) {
    let before = put_when_full(shared);
    let _first = end.next();
    if !reaches(&shared.calls, 6) {
        return (before, 0);
    }
    (before, 5)
}

// How many segments were put once nothing more is: the log is asked for the next one when one was put.
fn put_when_full(shared: &Shared) -> u64 {
    if !reaches(&shared.calls, 5) {
        return 0;
    }
    for _ in 0..10_000u32 {
        thread::yield_now();
    }
    shared.calls.load(Ordering::SeqCst).saturating_sub(1)
}

// ---- A long log.

const SEGMENTS: u64 = 10_000;

// Each segment comes once, in its turn.
#[test]
fn many_segments(rt: HostRuntime) {
    assert_eq!(rt;
        put_and_followed(&rt, rt.alloc()),
        Some((Ok(SEGMENTS), SEGMENTS))
    );
}

// How many segments were put before End, and how many were got in order before it.
fn put_and_followed<R: Threads + Wait + Sync>(
    rt: &R,
    alloc: Global,
) -> Option<(Result<u64, u8>, u64)> {
    let source = FailsOnce::new(marks(alloc, SEGMENTS)?, u64::MAX);
    let Ok((feeder, end)) = new_feed(rt, alloc) else {
        return None;
    };
    Some(join(
        rt,
        || put_by(run_thread(rt, source, feeder)),
        || follow(end),
    ))
}

// How many segments came before End or a fault, or before one that does not begin where the one before ended.
fn follow(mut end: impl SegmentSource + Drop) -> u64 {
    let mut next = 1u64;
    for count in 0..u64::MAX {
        let Ok(Item::Segment(segment)) = end.next() else {
            return count;
        };
        if !begins_at(&segment, next) {
            return count;
        }
        next = next.saturating_add(2);
    }
    0
}

fn begins_at(segment: &Parsed, txid: u64) -> bool {
    segment
        .txs()
        .first()
        .is_some_and(|tx| tx.txid.get() == txid)
}

// ---- Both ends on one thread.

fn a_segment(alloc: Global) -> Option<Item> {
    let segment = log_of(alloc, &[TWO_MARKS])?.pop()?;
    Some(Item::Segment(segment))
}

// A log of one segment, whose call with this number fails, counted from 0.
fn one_segment(alloc: Global, fails_at: u64) -> Option<FailsOnce> {
    Some(FailsOnce::new(log_of(alloc, &[TWO_MARKS])?, fails_at))
}

// The number of a refusal, or 0.
fn number_of(put: Result<(), Refusal>) -> u8 {
    match put {
        Ok(()) => 0,
        Err(refusal) => refusal.number(),
    }
}

// The number of the refusal with which a segment comes back.
fn put_refused(rt: &impl Wait, alloc: Global, feeder: &mut Feeder) -> Option<u8> {
    let segment = a_segment(alloc)?;
    let Err(refusal) = feeder.put(rt, segment) else {
        return None;
    };
    let number = refusal.number();
    if !gives_back(&refusal) {
        return None;
    }
    Some(number)
}

// Whether a segment comes back with the refusal.
fn gives_back(refusal: &Refusal) -> bool {
    match refusal {
        Refusal::Ended { answer } => is_segment(answer),
        Refusal::Gone { answer, .. } => is_segment(answer),
    }
}

fn is_segment(answer: &Result<Item, SourceFault>) -> bool {
    matches!(answer, Ok(Item::Segment(_)))
}

// After End nothing is put, and End comes again and again.
#[test]
fn after_end(rt: HostRuntime) {
    let Ok((mut feeder, mut end)) = new_feed(&rt, rt.alloc()) else {
        assert!(rt; false, "out of memory");
        return;
    };
    let put = feeder.put(&rt, Item::End).is_ok();
    let refused = put_refused(&rt, rt.alloc(), &mut feeder);
    let before = end.is_at_end();
    let first = is_end(&mut end);
    let behind = end.is_at_end();
    let again = is_end(&mut end);
    drop(feeder);
    drop(end);
    assert_eq!(rt; (put, refused), (true, Some(45)));
    assert_eq!(rt; (before, first, behind, again), (false, true, true, true));
}

#[test]
fn ends_meet(rt: HostRuntime) {
    assert!(rt; meets(&rt, rt.alloc()));
}

fn meets(rt: &impl Wait, alloc: Global) -> bool {
    let Ok((mut feeder, mut end)) = new_feed(rt, alloc) else {
        return false;
    };
    let put = feeder.put(rt, Item::End).is_ok();
    let got = matches!(end.next(), Ok(Item::End));
    meet(feeder, end);
    put && got
}

fn is_end(end: &mut (impl SegmentSource + Drop)) -> bool {
    matches!(end.next(), Ok(Item::End))
}

// The feeder's loop puts neither the fault of a source nor End: so the other end can still be told, and that ends it.
#[test]
fn after_a_fault(rt: HostRuntime) {
    let zero = AtomicU64::new(0);
    let Ok((mut feeder, end)) = new_feed(&rt, rt.alloc()) else {
        assert!(rt; false, "out of memory");
        return;
    };
    let has_failed = feeds_and_fails(&rt, rt.alloc(), &mut feeder);
    let behind = number_of(feeder.put(&rt, Item::End));
    let got = get_all(end, &zero, 0);
    drop(feeder);
    assert_eq!(rt; (has_failed, behind), (true, 45));
    assert_eq!(rt; got, (1, 47));
}

// Whether a source failed at its second segment, and the other end was told of the fault.
fn feeds_and_fails(rt: &impl Wait, alloc: Global, feeder: &mut Feeder) -> bool {
    let Some(mut source) = one_segment(alloc, 1) else {
        return false;
    };
    match run_feeder(rt, &mut source, feeder) {
        Err(FeedFault::Source(fault)) => feeder.fail(rt, fault).is_ok(),
        _ => false,
    }
}

// What is put for nobody comes back: a segment; and of a thread a segment, or its source's fault.
#[test]
fn other_end_gone(rt: HostRuntime) {
    assert_eq!(rt; put_for_nobody(&rt, rt.alloc()), Some(46));
    assert_eq!(rt; run_for_nobody(&rt, rt.alloc(), 1), Some(true));
    assert_eq!(rt; run_for_nobody(&rt, rt.alloc(), 0), Some(false));
}

fn put_for_nobody(rt: &impl Wait, alloc: Global) -> Option<u8> {
    let Ok((mut feeder, end)) = new_feed(rt, alloc) else {
        return None;
    };
    drop(end);
    put_refused(rt, alloc, &mut feeder)
}

// Whether a segment came back, and no fault.
fn run_for_nobody(rt: &impl Wait, alloc: Global, fails_at: u64) -> Option<bool> {
    let source = one_segment(alloc, fails_at)?;
    let Ok((feeder, end)) = new_feed(rt, alloc) else {
        return None;
    };
    drop(end);
    let FeederExit { source, outcome } = run_thread(rt, source, feeder);
    drop(source);
    match outcome {
        Err(Refusal::Gone { answer, .. }) => Some(answer.is_ok()),
        _ => None,
    }
}

// A look sees an answer that lies in the feed, that the last one was got, and that the feeder is gone. Else it sees nothing.
#[test]
fn looks_without_taking(rt: HostRuntime) {
    assert_eq!(rt; looks(&rt, rt.alloc()), Some((false, true, false, true)));
    assert_eq!(rt; looks_for_nobody(&rt, rt.alloc()), Some(true));
}

// Before a segment was put, after that, once it was got, and once End was got.
fn looks(rt: &impl Wait, alloc: Global) -> Option<(bool, bool, bool, bool)> {
    let segment = a_segment(alloc)?;
    let Ok((mut feeder, mut end)) = new_feed(rt, alloc) else {
        return None;
    };
    let before = end.is_ready();
    let put = number_of(feeder.put(rt, segment));
    let behind = end.is_ready();
    let got = is_end(&mut end);
    let none_left = end.is_ready();
    let put_end = number_of(feeder.put(rt, Item::End));
    let got_end = is_end(&mut end);
    let over = end.is_ready();
    drop(feeder);
    drop(end);
    if put != 0 || put_end != 0 || got || !got_end {
        return None;
    }
    Some((before, behind, none_left, over))
}

fn looks_for_nobody(rt: &impl Wait, alloc: Global) -> Option<bool> {
    let Ok((feeder, end)) = new_feed(rt, alloc) else {
        return None;
    };
    drop(feeder);
    Some(end.is_ready())
}

// The other end of a feeder that is gone, and told nothing, gets what was put, and then no more.
#[test]
fn feeder_gone(rt: HostRuntime) {
    let zero = AtomicU64::new(0);
    let Some(segment) = a_segment(rt.alloc()) else {
        assert!(rt; false, "out of memory");
        return;
    };
    let Ok((mut feeder, end)) = new_feed(&rt, rt.alloc()) else {
        assert!(rt; false, "out of memory");
        return;
    };
    let put = number_of(feeder.put(&rt, segment));
    drop(feeder);
    let got = get_all(end, &zero, 0);
    assert_eq!(rt; put, 0);
    assert_eq!(rt; got, (1, 46));
}
