//! Lanes that are closed over workers that sleep, since their lanes are full: each learns of it soon.
use crate::drive::laned;
use crate::sources::{Endless, FailsOnce};
use crate::values::{FIRST, TWO_MARKS, log_of, report_of};
use nn_drive::{Operator, Request, Unserved, report_all, serve};
use nn_lane::{LaneEnd, Reporter, lane};
use nn_lane_standby::Standby;
use std::alloc::Global;
use std::sync::Wait;
use std::thread;
use std::thread::{Threads, join};
use std::time::{Clock, CpuClock, Duration, Instant};

// A busy machine may be late a few times.
const TRIES: u8 = 5;

// How much later than it should a worker ends on a busy machine, in milliseconds.
const SLACK: u64 = 20;

fn is_soon(passed: Option<Duration>, millis: u64) -> bool {
    let most = Duration::from_millis(millis.saturating_add(SLACK));
    passed.is_some_and(|passed| passed <= most)
}

// A log of two marks, whose call with this number fails, counted from 0.
fn a_log(alloc: Global, before: u64) -> Option<FailsOnce> {
    Some(FailsOnce::new(log_of(alloc, &[TWO_MARKS])?, before))
}

// A DataNode that reports without end.
fn a_node(alloc: Global) -> Option<Vec<Endless>> {
    let report = report_of(FIRST, 1001)?;
    let mut nodes = Vec::new(alloc);
    let Ok(()) = nodes.push(Endless { report }) else {
        return None;
    };
    Some(nodes)
}

// ---- By whoever holds a standby that came back.

// The longest sleep of a worker that nobody wakes, in milliseconds.
const LONGEST: u64 = 80;

// How long a worker sleeps in vain before the lane is closed: its sleeps would come to 320 milliseconds, if they went on to double.
const IN_VAIN: u64 = 330;

#[test]
fn closed_by_the_caller(rt: HostRuntime) {
    for _ in 0..TRIES {
        if is_soon(closed_late(&rt, rt.alloc()), LONGEST) {
            return;
        }
    }
    assert!(rt; false, "a worker sleeps on");
}

// How long after the close the worker ended.
fn closed_late<R: Threads + Wait + Clock + Copy + Send + Drop + 'static>(
    rt: &R,
    alloc: Global,
) -> Option<Duration> {
    let log = a_log(alloc, 0)?;
    let (workers, standby) = laned(alloc, a_node(alloc)?, 1, None, &[])?;
    match serve(rt, alloc, standby, log, workers, &mut GoesOn) {
        Ok(promoted) => {
            drop(promoted);
            None
        }
        Err(unserved) => ended_late(rt, unserved),
    }
}

fn ended_late<R: Threads + Wait + Clock>(
    rt: &R,
    unserved: Unserved<'_, FailsOnce, Endless, R>,
) -> Option<Duration> {
    let left = unserved.join(rt);
    drop(left.source);
    drop(left.unstarted);
    let mut standby = left.standby;
    thread::sleep(rt, Duration::from_millis(IN_VAIN));
    standby.close_intake();
    drop(standby);
    let start = Instant::now(rt).ok()?;
    for worker in left.workers {
        drop(worker.join(rt));
    }
    start.elapsed(rt).ok()
}

// Never requests a promotion.
#[derive(Clone, Copy)]
struct GoesOn;

impl Operator for GoesOn {
    ghost use Rattle.std.specs.Prelude.{⊤};

    ghost asks = { λ o x n w p. ⊤ };

    fn ask(&mut self, _standby: &Standby, _running: usize) -> Request {
        Request::GoOn
    }
}

// ---- By a promotion.

// A worker of a standby whose operator does something else for so many milliseconds sleeps for 80 at a time in the end.
const ELSEWHERE: u64 = 500;

// Requests a promotion once that has passed. It notes when that was, and how much processor time all threads took meanwhile.
#[derive(Drop)]
struct Elsewhere<'a, R: Clock + CpuClock> {
    rt: &'a R,
    requested: Option<Instant>,
    used: Option<Duration>,
}

impl<R: Clock + CpuClock> Operator for Elsewhere<'_, R> {
    ghost use Rattle.std.specs.Prelude.{⊤};

    ghost asks = { λ o x n w p. ⊤ };

    fn ask(&mut self, _standby: &Standby, _running: usize) -> Request {
        let before = self.rt.process_cpu_time().unwrap_or(Duration::from_secs(0));
        thread::sleep(self.rt, Duration::from_millis(ELSEWHERE));
        if let Ok(used) = self.rt.process_cpu_time() {
            self.used = Some(used.saturating_sub(before));
        }
        self.requested = Instant::now(self.rt).ok();
        Request::Promote
    }
}

// A worker at a full lane is woken by the promotion, and takes no processor time before it.
#[test]
fn closed_by_a_promotion(rt: HostRuntime) {
    let mut has_ended = false;
    let mut has_slept = false;
    for _ in 0..TRIES {
        let (ended, used) = promoted_late(&rt, rt.alloc()).unwrap_or((None, None));
        has_ended = has_ended || is_soon(ended, 0);
        has_slept = has_slept || is_soon(used, 0);
        if has_ended && has_slept {
            return;
        }
    }
    assert!(rt; has_ended, "a worker sleeps on");
    assert!(rt; has_slept, "a worker does not sleep");
}

// How long after the request the worker ended, and the processor time before it.
fn promoted_late<R: Threads + Wait + Clock + CpuClock + Copy + Send + Drop + 'static>(
    rt: &R,
    alloc: Global,
) -> Option<(Option<Duration>, Option<Duration>)> {
    let log = a_log(alloc, u64::MAX)?;
    let (workers, standby) = laned(alloc, a_node(alloc)?, 1, None, &[])?;
    let mut operator = Elsewhere {
        rt,
        requested: None,
        used: None,
    };
    match serve(rt, alloc, standby, log, workers, &mut operator) {
        Ok(promoted) => {
            for worker in promoted.workers {
                drop(worker.join(rt));
            }
            let passed = operator.requested?.elapsed(rt).ok();
            drop(promoted.shadow);
            Some((passed, operator.used))
        }
        Err(unserved) => {
            drop(unserved);
            None
        }
    }
}

// ---- Under `report_all`.

// A reporter that nobody rings sleeps for a millisecond at most.
#[test]
fn closed_under_report_all(rt: HostRuntime) {
    for _ in 0..TRIES {
        if is_soon(reported_late(&rt, rt.alloc()), 1) {
            return;
        }
    }
    assert!(rt; false, "a reporter sleeps on");
}

// How long after the close the reporter ended.
fn reported_late<R: Threads + Wait + Clock + Sync>(rt: &R, alloc: Global) -> Option<Duration> {
    let report = report_of(FIRST, 1001)?;
    let Ok((reporter, end)) = lane(alloc, 1, 1) else {
        return None;
    };
    let (ended, closed) = join(
        rt,
        || reports(rt, reporter, Endless { report }),
        || closes(rt, end),
    );
    ended?.checked_duration_since(closed?)
}

fn reports<R: Wait + Clock>(
    rt: &R,
    mut reporter: Reporter,
    mut source: Endless,
) -> Option<Instant> {
    let is_over = report_all(rt, &mut source, &mut reporter).is_err();
    let ended = Instant::now(rt).ok()?;
    is_over.then_some(ended)
}

fn closes<R: Clock>(rt: &R, mut end: LaneEnd) -> Option<Instant> {
    thread::sleep(rt, Duration::from_millis(LONGEST));
    let closed = Instant::now(rt).ok()?;
    end.close();
    Some(closed)
}
