//! Drives and services that have nothing to do: they ask often, find soon what comes, and take no processor time.
use crate::drive::laned;
use crate::sources::FailsOnce;
use crate::values::{FIRST, Shared, TWO_MARKS, log_of, report_of};
use nn_drive::{Operator, ReportSource, Request, Served, drive, serve};
use nn_lane_standby::Standby;
use nn_types::Report;
use std::alloc::Global;
use std::sync::atomic::Ordering;
use std::sync::{Arc, Wait};
use std::thread;
use std::thread::Threads;
use std::time::{Clock, CpuClock, Duration, Instant};

// A DataNode that is silent for a while, notes when it ends that, and gives its report, or none.
#[derive(Drop)]
struct Silent<R: Clock + Drop> {
    rt: R,
    shared: Arc<Shared, Global>,
    // In milliseconds.
    silence: u64,
    report: Option<Report>,
    spoke: Option<Instant>,
}

impl<R: Clock + Drop> ReportSource for Silent<R> {
    ghost use Rattle.std.specs.Prelude.{⊤};

    ghost gives = { λ s r t. ⊤ };

    fn next(&mut self) -> Option<Report> {
        if self.spoke.is_some() {
            return None;
        }
        thread::sleep(&self.rt, Duration::from_millis(self.silence));
        self.spoke = Instant::now(&self.rt).ok();
        self.shared.came.store(1, Ordering::SeqCst);
        let report = self.report;
        report
    }
}

// When the DataNode of a service spoke, once its standby was promoted.
fn served<O: Operator, R: Threads + Wait + Clock + Copy + Send + Drop + 'static>(
    rt: &R,
    alloc: Global,
    node: Silent<R>,
    operator: &mut O,
) -> Option<Instant> {
    let log = FailsOnce::new(log_of(alloc, &[TWO_MARKS])?, u64::MAX);
    let mut nodes = Vec::new(alloc);
    let Ok(()) = nodes.push(node) else {
        return None;
    };
    let (workers, standby) = laned(alloc, nodes, 4, None, &[])?;
    match serve(rt, alloc, standby, log, workers, operator) {
        Ok(promoted) => joined(rt, promoted),
        Err(unserved) => {
            drop(unserved);
            None
        }
    }
}

fn joined<R: Threads + Clock + Drop>(rt: &R, promoted: Served<Silent<R>>) -> Option<Instant> {
    let Served {
        shadow,
        active: _,
        workers,
    } = promoted;
    drop(shadow);
    let mut spoke = None;
    for worker in workers {
        let left = worker.join(rt);
        spoke = left.source.spoke;
        drop(left);
    }
    spoke
}

// ---- How often a service asks, and how much processor time it takes.

// Times are in milliseconds.
const BEGIN: u64 = 300;

const END: u64 = 600;

// The most that a thread that sleeps may take of 300 milliseconds. One that does not sleep takes them all.
const USED: u64 = 30;

// Counts how often it is asked from the begin to the end, and the processor time of the standby's thread. Then it requests a
// promotion.
#[derive(Drop)]
struct Counting<'a, R: Clock + CpuClock> {
    rt: &'a R,
    start: Instant,
    count: u64,
    begun: Option<Duration>,
    used: Option<Duration>,
}

// The processor time that this thread took since it had taken so much.
fn used_since<R: CpuClock>(rt: &R, begun: Duration) -> Option<Duration> {
    let used = rt.thread_cpu_time().ok()?;
    Some(used.saturating_sub(begun))
}

impl<R: Clock + CpuClock> Operator for Counting<'_, R> {
    ghost use Rattle.std.specs.Prelude.{⊤};

    ghost asks = { λ o x n w p. ⊤ };

    fn ask(&mut self, _standby: &Standby, _running: usize) -> Request {
        let Ok(since) = self.start.elapsed(self.rt) else {
            return Request::Promote;
        };
        if since >= Duration::from_millis(END) {
            if let Some(begun) = self.begun {
                self.used = used_since(self.rt, begun);
            }
            return Request::Promote;
        }
        if since >= Duration::from_millis(BEGIN) {
            if self.begun.is_none() {
                self.begun = self.rt.thread_cpu_time().ok();
            }
            self.count = self.count.saturating_add(1);
        }
        Request::GoOn
    }
}

// A service that was idle for 300 milliseconds, and whose log has ended, asks its operator at least 10 times in the next 300: a
// sleep has a longest time. It asks 60 times at most, and so it does while its DataNode is silent.
#[test]
fn asks_while_idle(rt: HostRuntime) {
    for silence in [0, END] {
        let (asked, used) = count_asked(&rt, rt.alloc(), silence).unwrap_or((0, None));
        assert!(rt; asked >= 10 && asked <= 60, "asked {asked} times");
        assert!(rt; is_little(used), "it does not sleep");
    }
}

fn is_little(used: Option<Duration>) -> bool {
    used.is_some_and(|used| used <= Duration::from_millis(USED))
}

fn count_asked<R: Threads + Wait + Clock + CpuClock + Copy + Send + Drop + 'static>(
    rt: &R,
    alloc: Global,
    silence: u64,
) -> Option<(u64, Option<Duration>)> {
    let node = data_node(rt, &Shared::new(alloc)?, silence, None)?;
    let mut operator = Counting {
        rt,
        start: Instant::now(rt).ok()?,
        count: 0,
        begun: None,
        used: None,
    };
    let _spoke = served(rt, alloc, node, &mut operator)?;
    Some((operator.count, operator.used))
}

// The standby of a drive, whose log has ended, sleeps as long as its DataNode is silent.
#[test]
fn sleeps_while_a_drive_waits(rt: HostRuntime) {
    let used = used_by_a_drive(&rt, rt.alloc());
    assert!(rt; is_little(used), "it does not sleep");
}

fn used_by_a_drive<R: Threads + Wait + Clock + CpuClock + Copy + Send + Sync + Drop>(
    rt: &R,
    alloc: Global,
) -> Option<Duration> {
    let shared = Shared::new(alloc)?;
    let log = FailsOnce::new(log_of(alloc, &[TWO_MARKS])?, u64::MAX);
    let mut nodes = Vec::new(alloc);
    let Ok(()) = nodes.push(data_node(rt, &shared, BEGIN, None)?) else {
        return None;
    };
    let begun = rt.thread_cpu_time().ok()?;
    let (workers, standby) = laned(alloc, nodes, 4, None, &[])?;
    let is_driven = drive(rt, alloc, standby, log, workers).is_ok();
    if !is_driven {
        return None;
    }
    used_since(rt, begun)
}

// ---- How often a service asks whose operator holds its log.

const HELD: u64 = 500;

// Within so many milliseconds it is asked as often as that. With the sleeps of a log that is not held it would take 5,000.
const HELD_FOR: u64 = 2000;

// Holds the log so often, and then requests a promotion.
#[derive(Clone, Copy)]
struct Holds {
    left: u64,
}

impl Operator for Holds {
    ghost use Rattle.std.specs.Prelude.{⊤};

    ghost asks = { λ o x n w p. ⊤ };

    fn ask(&mut self, _standby: &Standby, _running: usize) -> Request {
        if self.left == 0 {
            return Request::Promote;
        }
        self.left -= 1;
        Request::Hold
    }
}

// An operator that holds the log has work of its own, and is asked the more often.
#[test]
fn asks_often_while_the_log_is_held(rt: HostRuntime) {
    let passed = held_for(&rt, rt.alloc()).unwrap_or(Duration::MAX);
    assert!(rt; passed <= Duration::from_millis(HELD_FOR), "{passed:?}");
}

fn held_for<R: Threads + Wait + Clock + Copy + Send + Drop + 'static>(
    rt: &R,
    alloc: Global,
) -> Option<Duration> {
    let node = data_node(rt, &Shared::new(alloc)?, 0, None)?;
    let start = Instant::now(rt).ok()?;
    let _spoke = served(rt, alloc, node, &mut Holds { left: HELD })?;
    start.elapsed(rt).ok()
}

fn data_node<R: Clock + Copy + Drop>(
    rt: &R,
    shared: &Arc<Shared, Global>,
    silence: u64,
    report: Option<Report>,
) -> Option<Silent<R>> {
    Some(Silent {
        rt: *rt,
        shared: Arc::try_clone(shared).ok()?,
        silence,
        report,
        spoke: None,
    })
}

// ---- How soon it finds what comes.

const SILENCE: u64 = 1000;

// Within how many milliseconds the operator sees a report that comes; and within how many it is asked when nothing does: within
// the longest sleep of a standby, and some on a busy machine.
const SOON: u64 = 2;

const SOON_ASKED: u64 = 20;

// A machine that is busy may be late a few times.
const TRIES: u8 = 5;

// Requests a promotion once the DataNode spoke and so many messages of it were processed, and notes when that was.
#[derive(Drop)]
struct OnceHeard<'a, R: Clock> {
    rt: &'a R,
    shared: Arc<Shared, Global>,
    messages: u64,
    heard: Option<Instant>,
}

impl<R: Clock> Operator for OnceHeard<'_, R> {
    ghost use Rattle.std.specs.Prelude.{⊤};

    ghost asks = { λ o x n w p. ⊤ };

    fn ask(&mut self, standby: &Standby, _running: usize) -> Request {
        let spoke = self.shared.came.load(Ordering::SeqCst) > 0;
        if spoke && standby.shadow().last_number(1) >= self.messages {
            self.heard = Instant::now(self.rt).ok();
            return Request::Promote;
        }
        Request::GoOn
    }
}

// After an idle second a report is processed, or a promotion is begun that is requested then.
#[test]
fn finds_soon_what_comes(rt: HostRuntime) {
    assert!(rt; finds_soon(&rt, rt.alloc(), 1, SOON), "a report");
    assert!(rt; finds_soon(&rt, rt.alloc(), 0, SOON_ASKED), "a request");
}

// Whether the promotion was requested so many milliseconds after the silence at most, in one try at least.
fn finds_soon<R: Threads + Wait + Clock + Copy + Send + Drop + 'static>(
    rt: &R,
    alloc: Global,
    messages: u64,
    millis: u64,
) -> bool {
    for _ in 0..TRIES {
        let late = late_by(rt, alloc, messages);
        if late.is_some_and(|late| late <= Duration::from_millis(millis)) {
            return true;
        }
    }
    false
}

// How long after the silence it was requested: by an operator that waits for so many messages, 1 or none.
fn late_by<R: Threads + Wait + Clock + Copy + Send + Drop + 'static>(
    rt: &R,
    alloc: Global,
    messages: u64,
) -> Option<Duration> {
    let report = if messages > 0 {
        report_of(FIRST, 1001)
    } else {
        None
    };
    let shared = Shared::new(alloc)?;
    let node = data_node(rt, &shared, SILENCE, report)?;
    let mut operator = OnceHeard {
        rt,
        shared,
        messages,
        heard: None,
    };
    let spoke = served(rt, alloc, node, &mut operator)?;
    Some(operator.heard?.duration_since(spoke))
}
