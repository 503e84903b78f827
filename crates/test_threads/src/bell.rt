//! What no clause of a bell says: who sleeps on it wakes once it is rung, and no ring is lost between a look and a sleep.
use crate::values::reaches;
use nn_feed::Bell;
use std::sync::Wait;
use std::sync::atomic::{AtomicU64, Ordering};
use std::thread;
use std::thread::{Threads, join};
use std::time::{Clock, Duration, Instant};

// How long a sleep is at most, in seconds. Only where a ring was lost does it take as long as LOST.
const BOUND: u64 = 5;

const LOST: u64 = 4;

// Sleeps where it dozed before, and answers whether it woke before a ring can be said to be lost.
fn wakes<R: Wait + Clock>(rt: &R, bell: &Bell) -> bool {
    let Ok(start) = Instant::now(rt) else {
        return false;
    };
    bell.sleep(rt, Duration::from_secs(BOUND));
    is_within(rt, start, LOST)
}

fn is_within<R: Clock>(rt: &R, start: Instant, seconds: u64) -> bool {
    let Ok(passed) = start.elapsed(rt) else {
        return false;
    };
    passed < Duration::from_secs(seconds)
}

// ---- Numbers that two threads hand to each other.

const HAND_OVERS: u64 = 20_000;

// It ends after so many seconds all the same: a busy machine is slower.
const LONGEST: u64 = 2;

// Who brings the last number.
const OVER: u64 = u64::MAX;

// Where a thread waits for the numbers that another one brings.
#[derive(Drop)]
struct Inbox {
    number: AtomicU64,
    bell: Bell,
}

impl Inbox {
    const fn new() -> Inbox {
        Inbox {
            number: AtomicU64::new(0),
            bell: Bell::new(),
        }
    }

    // Brings a number, is held up, and rings.
    fn bring<R: Clock>(&self, rt: &R, number: u64, held: u64) {
        self.number.store(number, Ordering::SeqCst);
        hold(rt, &self.number, held);
        self.bell.ring();
    }

    // The number that was brought, once it is as large as this one. None if a ring was lost. It is held up between its look and its
    // sleep.
    fn take<R: Wait + Clock>(&self, rt: &R, number: u64, held: u64) -> Option<u64> {
        for _ in rt.forever() {
            self.bell.doze();
            let brought = self.number.load(Ordering::SeqCst);
            if brought >= number {
                self.bell.get_up();
                return Some(brought);
            }
            hold(rt, &self.number, held);
            if !wakes(rt, &self.bell) {
                return None;
            }
        }
        unreachable!()
    }
}

// Passes some time, each time another one: some hundred looks at a number, and at each hundredth time 100 microseconds.
fn hold<R: Clock>(rt: &R, number: &AtomicU64, held: u64) {
    if held % 100 == 99 {
        thread::sleep(rt, Duration::from_micros(100));
        return;
    }
    for _ in 0..held.wrapping_mul(37) % 512 {
        number.load(Ordering::SeqCst);
    }
}

// Brings numbers, and waits for each until the other thread has answered it. Whether all answers came.
fn brings_all<R: Wait + Clock>(rt: &R, theirs: &Inbox, own: &Inbox) -> bool {
    let Ok(start) = Instant::now(rt) else {
        return false;
    };
    for number in 1..=HAND_OVERS {
        theirs.bring(rt, number, number);
        if own.take(rt, number, number / 3).is_none() {
            return false;
        }
        if !is_within(rt, start, LONGEST) {
            theirs.bring(rt, OVER, 0);
            return true;
        }
    }
    theirs.bring(rt, OVER, 0);
    true
}

// Answers each number. Whether all came.
fn answers_all<R: Wait + Clock>(rt: &R, own: &Inbox, theirs: &Inbox) -> bool {
    for number in 1..=HAND_OVERS {
        match own.take(rt, number, number / 5) {
            None => return false,
            Some(OVER) => return true,
            Some(_) => theirs.bring(rt, number, number / 7),
        }
    }
    true
}

// Who brings a number and is held up before it rings has it taken: the other thread dozes before it looks.
#[test]
fn rings_before_it_reports(rt: HostRuntime) {
    assert_eq!(rt; handed_over(&rt), (true, true));
}

fn handed_over<R: Threads + Wait + Clock + Sync>(rt: &R) -> (bool, bool) {
    let first = Inbox::new();
    let second = Inbox::new();
    join(
        rt,
        || brings_all(rt, &second, &first),
        || answers_all(rt, &second, &first),
    )
}

// ---- A ring between a doze and a sleep.

const RINGS: u64 = 100;

// Who is rung once it dozes does not sleep.
#[test]
fn sleeps_without_a_last_look(rt: HostRuntime) {
    for _ in 0..RINGS {
        assert_eq!(rt; rung_before_it_sleeps(&rt), (true, true));
    }
}

// Whether the bell was rung before the sleep, and the sleep took less than a second.
fn rung_before_it_sleeps<R: Threads + Wait + Clock + Sync>(rt: &R) -> (bool, bool) {
    let bell = Bell::new();
    let step = AtomicU64::new(0);
    join(rt, || rings_once(&bell, &step), || sleeps(rt, &bell, &step))
}

fn rings_once(bell: &Bell, step: &AtomicU64) -> bool {
    let dozes = reaches(step, 1);
    bell.ring();
    step.store(2, Ordering::SeqCst);
    dozes
}

fn sleeps<R: Wait + Clock>(rt: &R, bell: &Bell, step: &AtomicU64) -> bool {
    bell.doze();
    step.store(1, Ordering::SeqCst);
    let is_rung = reaches(step, 2);
    let Ok(start) = Instant::now(rt) else {
        return false;
    };
    bell.sleep(rt, Duration::from_secs(BOUND));
    is_rung && is_within(rt, start, 1)
}

// ---- A bell that nobody rings.

const SLEEPS: u64 = 10;

// Each sleep ends by its bound, and not long before, also one behind a ring that came before its doze.
#[test]
fn sleeps_for_its_bound(rt: HostRuntime) {
    let slept = slept_unrung(&rt).unwrap_or(Duration::from_secs(0));
    assert!(rt; slept >= Duration::from_millis(80), "{slept:?}");
}

// How long ten sleeps of 10 milliseconds at most took together.
fn slept_unrung<R: Wait + Clock>(rt: &R) -> Option<Duration> {
    let bell = Bell::new();
    let start = Instant::now(rt).ok()?;
    for _ in 0..SLEEPS {
        bell.ring();
        bell.doze();
        bell.sleep(rt, Duration::from_millis(10));
    }
    start.elapsed(rt).ok()
}
