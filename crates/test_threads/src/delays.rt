//! A drive and a service whose threads are all held up at random: DataNodes, the source of the log, and the operator. Everything is
//! processed all the same.
ghost use Rattle.std.specs.Prelude.{◌≡◌, ⊤, true, [], length, if◌then◌else◌};
ghost use Rattle.std.specs.Vec.Iter.{into_iter_items};

use crate::drive::laned;
use crate::sources::FailsOnce;
use crate::values::{Dice, FIRST, marks, report_of};
use nn_drive::{Left, Operator, ReportSource, Request, Served, drive, serve};
use nn_lane_standby::Standby;
use nn_segment::{Item, SegmentSource, SourceFault};
use nn_types::Report;
use std::alloc::Global;
use std::sync::Wait;
use std::thread;
use std::thread::Threads;
use std::time::{Clock, Duration};

// So many DataNodes, whose lanes hold two reports, with so many each; and so many segments of two transactions.
const NODES: u64 = 8;

const CAPACITY: usize = 2;

const REPORTS: u64 = 1500;

const SEGMENTS: u64 = 300;

// ---- Delays.

// Passes some time: mostly none, at times some hundred microseconds, and seldom more than the longest sleep of a standby.
fn delay<R: Clock>(rt: &R, dice: &mut Dice) {
    let number = dice.roll();
    match number % 512 {
        0 => thread::sleep(rt, Duration::from_millis(12)),
        1..=63 => thread::sleep(rt, Duration::from_micros(number / 512 % 400)),
        64..=191 => thread::yield_now(),
        _ => {}
    }
}

// A DataNode that gives one report again and again, so often.
#[derive(Drop)]
struct Slow<R: Clock + Drop> {
    rt: R,
    dice: Dice,
    report: Report,
    left: u64,
}

impl<R: Clock + Drop> ReportSource for Slow<R> {
    ghost use Rattle.std.specs.Prelude.{⊤};

    ghost gives = { λ s r t. ⊤ };

    fn next(&mut self) -> Option<Report> {
        delay(&self.rt, &mut self.dice);
        if self.left == 0 {
            return None;
        }
        self.left -= 1;
        let report = self.report;
        Some(report)
    }
}

#[derive(Drop)]
struct SlowLog<R: Clock + Drop> {
    rt: R,
    dice: Dice,
    log: FailsOnce,
}

impl<R: Clock + Drop> SegmentSource for SlowLog<R> {
    ghost gives = { λ s r t. ⊤ };

    ghost left = { λ s. length (into_iter_items s.log.segments) };

    ghost failures = { λ s. if s.log.has_failed then 1 else 0 };

    ghost ended = { λ s. (s.log.is_over ≡ true) × (into_iter_items s.log.segments ≡ []) };

    fn next(&mut self) -> Result<Item, SourceFault> {
        delay(&self.rt, &mut self.dice);
        self.log.next()
    }
}

// Requests a promotion once all workers have ended and the log was applied. Sees whether a number ever falls.
#[derive(Drop)]
struct SlowOperator<'a, R: Clock> {
    rt: &'a R,
    dice: Dice,
    last: u64,
    has_fallen: bool,
}

impl<R: Clock> Operator for SlowOperator<'_, R> {
    ghost use Rattle.std.specs.Prelude.{⊤};

    ghost asks = { λ o x n w p. ⊤ };

    fn ask(&mut self, standby: &Standby, running: usize) -> Request {
        delay(self.rt, &mut self.dice);
        let last = standby.shadow().last_txid().get();
        self.has_fallen = self.has_fallen || last < self.last;
        self.last = last;
        if running == 0 && last >= SEGMENTS * 2 {
            return Request::Promote;
        }
        Request::GoOn
    }
}

// ---- What comes of it.

fn slow_node<R: Clock + Copy + Drop>(rt: &R, count: u64) -> Option<Slow<R>> {
    Some(Slow {
        rt: *rt,
        dice: Dice { count },
        report: report_of(FIRST, 1001)?,
        left: REPORTS,
    })
}

fn slow_nodes<R: Clock + Copy + Drop>(rt: &R, alloc: Global) -> Option<Vec<Slow<R>>> {
    let mut nodes = Vec::new(alloc);
    for count in 0..NODES {
        let node = slow_node(rt, count)?;
        let Ok(()) = nodes.push(node) else {
            return None;
        };
    }
    Some(nodes)
}

fn slow_log<R: Clock + Copy + Drop>(rt: &R, alloc: Global) -> Option<SlowLog<R>> {
    Some(SlowLog {
        rt: *rt,
        dice: Dice { count: NODES },
        log: FailsOnce::new(marks(alloc, SEGMENTS)?, u64::MAX),
    })
}

#[test]
fn delayed_drive(rt: HostRuntime) {
    let driven = end_of_drive(&rt, rt.alloc());
    assert_eq!(rt; driven, Some((SEGMENTS * 2, NODES * REPORTS)));
}

// The last transaction, and how many reports the flush processed.
fn end_of_drive<R: Threads + Wait + Clock + Copy + Send + Sync + Drop>(
    rt: &R,
    alloc: Global,
) -> Option<(u64, u64)> {
    let nodes = slow_nodes(rt, alloc)?;
    let log = slow_log(rt, alloc)?;
    let (workers, standby) = laned(alloc, nodes, CAPACITY, None, &[])?;
    match drive(rt, alloc, standby, log, workers) {
        Ok((shadow, active)) => {
            drop(shadow);
            Some((active.last, active.flushed))
        }
        Err(_) => None,
    }
}

#[test]
fn delayed_service(rt: HostRuntime) {
    let served = end_of_service(&rt, rt.alloc());
    assert_eq!(rt; served, Some((SEGMENTS * 2, NODES, false)));
}

// The last transaction, how many DataNodes had all their reports processed, and whether a number fell.
fn end_of_service<R: Threads + Wait + Clock + Copy + Send + Drop + 'static>(
    rt: &R,
    alloc: Global,
) -> Option<(u64, u64, bool)> {
    let nodes = slow_nodes(rt, alloc)?;
    let log = slow_log(rt, alloc)?;
    let mut operator = SlowOperator {
        rt,
        dice: Dice { count: NODES + 1 },
        last: 0,
        has_fallen: false,
    };
    let (workers, standby) = laned(alloc, nodes, CAPACITY, None, &[])?;
    match serve(rt, alloc, standby, log, workers, &mut operator) {
        Ok(promoted) => {
            let last = promoted.active.last;
            let whole = count_whole(rt, promoted);
            Some((last, whole, operator.has_fallen))
        }
        Err(unserved) => {
            drop(unserved);
            None
        }
    }
}

fn count_whole<R: Threads + Clock + Drop>(rt: &R, promoted: Served<Slow<R>>) -> u64 {
    let Served {
        shadow,
        active: _,
        workers,
    } = promoted;
    let mut whole = 0u64;
    let mut dn = 0u16;
    for worker in workers {
        dn = dn.saturating_add(1);
        let left = worker.join(rt);
        if is_whole(&left) && shadow.last_number(dn) == REPORTS {
            whole = whole.saturating_add(1);
        }
        drop(left);
    }
    drop(shadow);
    whole
}

// Whether a worker sent all its reports, and all were taken.
fn is_whole<R: Clock + Drop>(left: &Left<Slow<R>>) -> bool {
    let sent = match left.outcome {
        Ok(count) => count,
        Err(_) => 0,
    };
    sent == REPORTS && left.met.accepted == REPORTS && left.met.taken == REPORTS
}
