//! Drives over full lanes, and drives whose last worker ends: whoever sleeps is woken for that.
use crate::drive::{Driven, FULL_LANES, ends, laned};
use crate::handing::Noted;
use crate::sources::FailsOnce;
use crate::values::{TWO_MARKS, log_of, micros_since};
use nn_drive::{ReportSource, drive};
use nn_types::Report;
use std::alloc::Global;
use std::process::Abort;
use std::sync::atomic::Ordering;
use std::sync::{Arc, Wait};
use std::thread;
use std::thread::Threads;
use std::time::{Clock, Duration, Instant};

// A busy machine may be late a few times.
const TRIES: u8 = 5;

// ---- Full lanes.

// How long a drive over full lanes takes at most, in milliseconds.
const MOST: u64 = 2000;

#[test]
fn full_lanes(rt: HostRuntime) {
    for driven in FULL_LANES {
        let name = driven.name;
        assert!(rt; ends_soon(&rt, rt.alloc(), driven), "{name}");
    }
}

fn ends_soon<R: Abort + Threads + Wait + Clock + Sync>(
    rt: &R,
    alloc: Global,
    driven: &Driven,
) -> bool {
    for _ in 0..TRIES {
        let Ok(start) = Instant::now(rt) else {
            return false;
        };
        ends(rt, alloc, driven);
        if micros_since(rt, start) <= MOST * 1000 {
            return true;
        }
    }
    false
}

// ---- The end of a worker.

const DRIVES: u64 = 20;

// A drive that ends so many microseconds after its worker was not woken for that.
const LATE_END: u64 = 3000;

// A DataNode that has nothing to report. It is silent for 300 microseconds, and notes when that ends.
#[derive(Drop)]
struct Mute<R: Clock + Drop> {
    rt: R,
    start: Instant,
    noted: Arc<Noted, Global>,
}

impl<R: Clock + Drop> ReportSource for Mute<R> {
    ghost use Rattle.std.specs.Prelude.{⊤};

    ghost gives = { λ s r t. ⊤ };

    fn next(&mut self) -> Option<Report> {
        thread::sleep(&self.rt, Duration::from_micros(300));
        let now = micros_since(&self.rt, self.start);
        self.noted.given.store(now, Ordering::SeqCst);
        None
    }
}

// The standby of a drive is woken when its last worker ends: not most of twenty drives end late.
#[test]
fn wakes_for_the_last_worker(rt: HostRuntime) {
    let mut late = 0u64;
    for _ in 0..DRIVES {
        let by = drive_late(&rt, rt.alloc()).unwrap_or(u64::MAX);
        late = late.saturating_add(u64::from(by >= LATE_END));
    }
    assert!(rt; late <= DRIVES / 2, "{late} were late");
}

// How many microseconds after the end of its worker a drive ends.
fn drive_late<R: Threads + Wait + Clock + Copy + Send + Sync + Drop>(
    rt: &R,
    alloc: Global,
) -> Option<u64> {
    let noted = Noted::new(alloc)?;
    let start = Instant::now(rt).ok()?;
    let nodes = a_mute(rt, alloc, start, &noted)?;
    let log = FailsOnce::new(log_of(alloc, &[TWO_MARKS])?, u64::MAX);
    let (workers, standby) = laned(alloc, nodes, 4, None, &[])?;
    let is_driven = drive(rt, alloc, standby, log, workers).is_ok();
    let ended = noted.given.load(Ordering::SeqCst);
    is_driven.then_some(micros_since(rt, start).saturating_sub(ended))
}

fn a_mute<R: Clock + Copy + Drop>(
    rt: &R,
    alloc: Global,
    start: Instant,
    noted: &Arc<Noted, Global>,
) -> Option<Vec<Mute<R>>> {
    let node = Mute {
        rt: *rt,
        start,
        noted: Arc::try_clone(noted).ok()?,
    };
    let mut nodes = Vec::new(alloc);
    let Ok(()) = nodes.push(node) else {
        return None;
    };
    Some(nodes)
}
