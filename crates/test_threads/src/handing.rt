//! Hand-overs: a report or a segment comes once the one before was processed, or a few turns later. Whoever sleeps is woken for it.
ghost use Rattle.std.specs.Prelude.{◌≡◌, ⊤, true, [], length, if◌then◌else◌};
ghost use Rattle.std.specs.Vec.Iter.{into_iter_items};

use crate::drive::laned;
use crate::sources::FailsOnce;
use crate::values::{Dice, FIRST, marks, micros_since, report_of};
use nn_drive::{Operator, ReportSource, Request, serve};
use nn_lane_standby::Standby;
use nn_segment::{Item, SegmentSource, SourceFault};
use nn_types::Report;
use std::alloc::Global;
use std::process::Abort;
use std::sync::atomic::{AtomicU64, Ordering};
use std::sync::{Arc, Wait};
use std::thread;
use std::thread::Threads;
use std::time::{Clock, Duration, Instant};

// A busy machine may be late a few times.
const TRIES: u8 = 5;

// How many there are, and how many of them are late at most. On a busy machine a thread that was woken may not run at once.
const HAND_OVERS: u64 = 2000;

const FEW: u64 = 3;

// One that takes so many microseconds was found when the standby, or a worker, had slept for 10 milliseconds.
const LATE: u64 = 8000;

// Hand-overs end after so many microseconds, even if not all were made.
const LONGEST: u64 = 10_000_000;

// A wait ends after so many turns.
const TURNS: u64 = 10_000_000_000;

/// What a source and an operator have in common: how many reports were processed or how far the log has come, and when the next
/// was given, in microseconds.
#[derive(Drop)]
pub struct Noted {
    pub processed: AtomicU64,
    pub given: AtomicU64,
}

impl Noted {
    pub fn new(alloc: Global) -> Option<Arc<Noted, Global>> {
        let noted = Arc::new(
            alloc,
            Noted {
                processed: AtomicU64::new(0),
                given: AtomicU64::new(0),
            },
        );
        noted.ok()
    }
}

// Passes some turns: as often some hundred as some thousand, which take some microseconds.
fn dawdle(number: &AtomicU64, dice: &mut Dice) {
    let roll = dice.roll();
    let most = if roll % 2 == 0 { 512 } else { 16_384 };
    for _ in 0..roll / 2 % most {
        number.load(Ordering::SeqCst);
    }
}

// Waits until the number is as large. It gives way seldom: a thread that gives way on a busy machine sees it too late.
fn awaits(number: &AtomicU64, wanted: u64) {
    for turn in 1..TURNS {
        if number.load(Ordering::SeqCst) >= wanted {
            return;
        }
        if turn % 100_000 == 0 {
            thread::yield_now();
        }
    }
}

// When a DataNode or a log gives the next: once so much was processed as the gate says. It notes when that is.
#[derive(Drop)]
struct Giver<R: Clock + Drop> {
    rt: R,
    start: Instant,
    gate: Arc<Noted, Global>,
    noted: Arc<Noted, Global>,
    dice: Dice,
    given: u64,
}

impl<R: Clock + Drop> Giver<R> {
    // Waits until so much was processed, and a few turns more.
    fn wait(&mut self, wanted: u64) {
        awaits(&self.gate.processed, wanted);
        dawdle(&self.gate.processed, &mut self.dice);
        self.given = self.given.saturating_add(1);
        let now = micros_since(&self.rt, self.start);
        self.noted.given.store(now, Ordering::SeqCst);
    }
}

fn new_giver<R: Clock + Copy + Drop>(
    rt: &R,
    start: Instant,
    gate: &Arc<Noted, Global>,
    noted: &Arc<Noted, Global>,
    count: u64,
) -> Option<Giver<R>> {
    Some(Giver {
        rt: *rt,
        start,
        gate: Arc::try_clone(gate).ok()?,
        noted: Arc::try_clone(noted).ok()?,
        dice: Dice { count },
        given: 0,
    })
}

// A DataNode that gives one report again and again, so often: each once all before it were processed, or all but so many.
#[derive(Drop)]
struct Handing<R: Clock + Drop> {
    giver: Giver<R>,
    report: Report,
    most: u64,
    ahead: u64,
}

impl<R: Clock + Drop> ReportSource for Handing<R> {
    ghost use Rattle.std.specs.Prelude.{⊤};

    ghost gives = { λ s r t. ⊤ };

    fn next(&mut self) -> Option<Report> {
        let given = self.giver.given;
        if given >= self.most {
            return None;
        }
        self.giver.wait(given.saturating_sub(self.ahead));
        let report = self.report;
        Some(report)
    }
}

// A log of which each segment comes once so much more was processed: two transactions of it, or one report.
#[derive(Drop)]
struct HandingLog<R: Clock + Drop> {
    giver: Giver<R>,
    more: u64,
    log: FailsOnce,
}

impl<R: Clock + Drop> SegmentSource for HandingLog<R> {
    ghost gives = { λ s r t. ⊤ };

    ghost left = { λ s. length (into_iter_items s.log.segments) };

    ghost failures = { λ s. if s.log.has_failed then 1 else 0 };

    ghost ended = { λ s. (s.log.is_over ≡ true) × (into_iter_items s.log.segments ≡ []) };

    fn next(&mut self) -> Result<Item, SourceFault> {
        let wanted = self.giver.given.saturating_mul(self.more);
        self.giver.wait(wanted);
        self.log.next()
    }
}

// Shows how many reports of a DataNode were processed, or how far the log has come, which is number 0; and counts what was late.
// It passes some time when it is asked, and requests a promotion in the end.
#[derive(Drop)]
struct Showing<'a, R: Clock> {
    rt: &'a R,
    start: Instant,
    noted: Arc<Noted, Global>,
    dice: Dice,
    dn: u16,
    most: u64,
    processed: u64,
    late: u64,
}

impl<R: Clock> Operator for Showing<'_, R> {
    ghost use Rattle.std.specs.Prelude.{⊤};

    ghost asks = { λ o x n w p. ⊤ };

    fn ask(&mut self, standby: &Standby, _running: usize) -> Request {
        let processed = if self.dn == 0 {
            standby.shadow().last_txid().get()
        } else {
            standby.shadow().last_number(self.dn)
        };
        let now = micros_since(self.rt, self.start);
        let given = self.noted.given.load(Ordering::SeqCst);
        if processed > self.processed && now.saturating_sub(given) >= LATE {
            self.late = self.late.saturating_add(1);
        }
        self.processed = processed;
        if processed >= self.most || now > LONGEST {
            // Nobody waits any more.
            self.noted.processed.store(u64::MAX, Ordering::SeqCst);
            return Request::Promote;
        }
        self.noted.processed.store(processed, Ordering::SeqCst);
        if self.dice.roll() % 4 == 0 {
            // So the source goes on meanwhile, also on the same processor.
            thread::sleep(self.rt, Duration::from_micros(50));
        }
        dawdle(&self.noted.processed, &mut self.dice);
        Request::GoOn
    }
}

// The hand-overs of a test: from one of so many DataNodes, whose lanes have so many places, or from the log, which is number 0.
#[derive(Clone, Copy)]
struct Handed {
    dn: u16,
    lanes: u16,
    capacity: usize,
    ahead: u64,
    reports: u64,
    segments: u64,
}

const REPORTS: Handed = Handed {
    dn: 1,
    lanes: 1,
    capacity: 4,
    ahead: 0,
    reports: HAND_OVERS,
    segments: 1,
};

// A segment comes with each report. So a report may come while the lanes behind its own are visited.
const FIRST_OF_MANY: Handed = Handed {
    lanes: 200,
    segments: HAND_OVERS,
    ..REPORTS
};

// The bits of so many lanes take more than one word.
const LAST_OF_MANY: Handed = Handed {
    dn: 200,
    lanes: 200,
    ..REPORTS
};

// A report is given while the one before may still be in the lane, which has one place.
const AT_A_FULL_LANE: Handed = Handed {
    capacity: 1,
    ahead: 1,
    ..REPORTS
};

const SEGMENTS: Handed = Handed {
    dn: 0,
    reports: 0,
    segments: HAND_OVERS,
    ..REPORTS
};

// A report that comes while the operator is asked, or while the standby is about to sleep, or sleeps, wakes it.
#[test]
fn wakes_for_each_report(rt: HostRuntime) {
    hands_over_soon(&rt, rt.alloc(), &REPORTS);
}

// And so does one that comes while other lanes are visited, and one of the last of many lanes.
#[test]
fn wakes_for_each_lane(rt: HostRuntime) {
    hands_over_soon(&rt, rt.alloc(), &FIRST_OF_MANY);
    hands_over_soon(&rt, rt.alloc(), &LAST_OF_MANY);
}

// Room in a lane wakes its worker.
#[test]
fn wakes_at_a_full_lane(rt: HostRuntime) {
    hands_over_soon(&rt, rt.alloc(), &AT_A_FULL_LANE);
}

// A segment wakes the standby, as a report does.
#[test]
fn wakes_for_each_segment(rt: HostRuntime) {
    hands_over_soon(&rt, rt.alloc(), &SEGMENTS);
}

fn hands_over_soon<R: Abort + Threads + Wait + Clock + Copy + Send + Drop + 'static>(
    rt: &R,
    alloc: Global,
    handed: &Handed,
) {
    let mut least = u64::MAX;
    for _ in 0..TRIES {
        let Some((late, is_over)) = late_of(rt, alloc, handed) else {
            assert!(rt; false, "no service");
            return;
        };
        assert!(rt; is_over, "{late} were late, and not all were made");
        least = least.min(late);
        if least <= FEW {
            return;
        }
    }
    assert!(rt; false, "{least} were late");
}

// How many of the hand-overs were late, and whether all were made.
fn late_of<R: Threads + Wait + Clock + Copy + Send + Drop + 'static>(
    rt: &R,
    alloc: Global,
    handed: &Handed,
) -> Option<(u64, bool)> {
    let start = Instant::now(rt).ok()?;
    let noted = Noted::new(alloc)?;
    let nodes = nodes_of(rt, alloc, start, handed, &noted)?;
    let log = log_of(rt, alloc, start, handed, &noted)?;
    let mut operator = Showing {
        rt,
        start,
        noted,
        dice: Dice { count: 2 },
        dn: handed.dn,
        most: if handed.dn == 0 {
            HAND_OVERS * 2
        } else {
            HAND_OVERS
        },
        processed: 0,
        late: 0,
    };
    let (workers, standby) = laned(alloc, nodes, handed.capacity, None, &[])?;
    match serve(rt, alloc, standby, log, workers, &mut operator) {
        Ok(promoted) => {
            for worker in promoted.workers {
                drop(worker.join(rt));
            }
            drop(promoted.shadow);
        }
        Err(unserved) => drop(unserved),
    }
    Some((operator.late, operator.processed >= operator.most))
}

// The log waits for itself, or for the DataNode. Only where it waits for itself does it note when it gives a segment.
fn log_of<R: Clock + Copy + Drop>(
    rt: &R,
    alloc: Global,
    start: Instant,
    handed: &Handed,
    noted: &Arc<Noted, Global>,
) -> Option<HandingLog<R>> {
    let log = FailsOnce::new(marks(alloc, handed.segments)?, u64::MAX);
    let own = Noted::new(alloc)?;
    let is_alone = handed.dn == 0;
    Some(HandingLog {
        giver: new_giver(rt, start, noted, if is_alone { noted } else { &own }, 1)?,
        more: if is_alone { 2 } else { 1 },
        log,
    })
}

// The DataNodes: all but one have no report.
fn nodes_of<R: Clock + Copy + Drop>(
    rt: &R,
    alloc: Global,
    start: Instant,
    handed: &Handed,
    noted: &Arc<Noted, Global>,
) -> Option<Vec<Handing<R>>> {
    let report = report_of(FIRST, 1001)?;
    let mut nodes = Vec::new(alloc);
    for i in 0..handed.lanes {
        let is_handing = i.saturating_add(1) == handed.dn;
        let node = Handing {
            giver: new_giver(rt, start, noted, noted, 0)?,
            report,
            most: if is_handing { handed.reports } else { 0 },
            ahead: handed.ahead,
        };
        let Ok(()) = nodes.push(node) else {
            return None;
        };
    }
    Some(nodes)
}
