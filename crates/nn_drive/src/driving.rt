//! One thread for each DataNode, and the standby on the thread that calls.
ghost use Rattle.std.specs.Prelude.{◌≡◌, ◌<◌, ◌≤◌, [], true, false, length, vec_capacity, Some, Err, MatchBool, IfOk, IfErr, IfSome, ◌⊎◌};
ghost use Rattle.std.specs.List.{AllZip};
ghost use Rattle.nn_lane_standby.specs.LaneSteps.{AllClosed};
ghost use Rattle.nn_lane_standby.specs.Tailing.{has_begun};
ghost use Rattle.nn_drive.specs.Fault.{number_of};
ghost use Rattle.nn_drive.specs.Refusals.{drive_refusal};
ghost use Rattle.nn_drive.specs.Driven.{HasReported, IsPromised, ArePromised, WentUntil, Stayed, PromotesAtEnd, IsTold, JoinsAll, AreOneLane, EndsAgree, HaveReporters, IsDriven, NotDriven};
ghost use Rattle.nn_feed.specs.Ends.{got_by, IsSameEnd};
ghost use Rattle.nn_feed.specs.Feeds.{has_last};
ghost use Rattle.nn_drive.specs.Feeding.{FailsOver, GotMore, IsDrivenOver, IsKnown};
ghost use Rattle.nn_drive.specs.declared.driving.DriveFault.{DriveFault as Why};

use crate::bells::Bells;
use crate::crew::Crew;
use crate::feeding::{drop_feed, end_feed, told_fault};
use crate::operator::Unattended;
use crate::reporting::{ReportSource, report_all, report_all_at};
use crate::rotation::{Rotation, fault_of};
use crate::serving::Feeding;
use nn_feed::FeedEnd;
use nn_lane::{LaneEnd, Refusal, Reporter, meet};
use nn_lane_standby::{Active, PromoteFault, Standby};
use nn_segment::{SegmentSource, SourceFault};
use nn_shadow::{Shadow, Stop};
use nn_types::fault;
use std::alloc::Global;
use std::snapshot::Snapshot;
use std::sync::Wait;
use std::thread::{Promise, PromisedHandle, Threads};
use std::{fmt, thread};
use thiserror::Error;

// How many steps of the log a rotation of a drive begins with, at most. A log that falls behind its reports leaves them waiting.
const AHEAD: usize = 32_768;

/// What a worker's thread gives back.
#[derive(Debug, Drop)]
pub struct WorkerExit<S> {
    pub source: S,
    pub reporter: Reporter,
    /// How many reports it sent, where its source gave no more; else why the last one was refused.
    pub outcome: Result<u64, Refusal>,
}

/// The promise of a worker's thread: the source and the reporter that it began with.
#[derive(Drop)]
pub struct WorkerPromise<S>(pub Snapshot<S>, pub Snapshot<Reporter>);

// What it remembers is there for proofs alone.
impl<S> fmt::Debug for WorkerPromise<S> {
    fn fmt<D: fmt::Write>(&self, f: &mut fmt::Formatter<D>) -> fmt::Result {
        f.debug_struct("WorkerPromise").finish_non_exhaustive()
    }
}

impl<S: ReportSource> Promise<WorkerExit<S>> for WorkerPromise<S> {
    ghost kept_by = { λ p w. HasReported S.gives p.0.value p.1.value w };
}

/// Why a drive failed, in the order in which the causes are looked for.
#[derive(Clone, Copy, Debug, PartialEq, Eq, Error)]
pub enum DriveFault {
    /// The flush had begun before.
    #[error("the standby is active")]
    AlreadyActive,
    /// The log stopped the standby, in this call or before.
    #[error("the standby is stopped")]
    Stopped(Stop),
    /// The log did not end: its source failed.
    #[error("the log did not end: {0}")]
    LogNotEnded(SourceFault),
    /// Memory was refused, or a thread could not be started.
    #[error("out of memory")]
    OutOfMemory,
}

impl DriveFault {
    /// The fault's number.
    pub fn number(self) -> u8
        ensures { result ≡ number_of self }
    {
        match self {
            DriveFault::AlreadyActive => fault::ALREADY_ACTIVE,
            DriveFault::Stopped(_) => fault::STOPPED,
            DriveFault::LogNotEnded(_) => fault::LOG_NOT_ENDED,
            DriveFault::OutOfMemory => fault::MEMORY,
        }
    }
}

// What the thread of a worker runs, which stands at this index among the workers.
pub(crate) fn work<S: ReportSource, R: Wait>(
    rt: &R,
    worker: (S, Reporter),
    bells: &Bells,
    index: usize,
) -> WorkerExit<S>
    ensures { HasReported S.gives worker.0 worker.1 result }
{
    let (mut source, mut reporter) = worker;
    let outcome = match bells.place(index) {
        Some(place) => report_all_at(rt, &mut source, &mut reporter, place),
        // Each worker has one.
        None => report_all(rt, &mut source, &mut reporter),
    };
    bells.end();
    WorkerExit {
        source,
        reporter,
        outcome,
    }
}

// Whether as many threads were started as there are workers.
pub(crate) fn all_started(started: usize, workers: usize) -> bool
    ensures { MatchBool result (workers ≤ started) (started < workers) }
{
    started >= workers
}

// Whether a worker was told before of a close of an open lane, or was so with this outcome.
fn still_told(told: bool, outcome: &Result<u64, Refusal>, end: &LaneEnd) -> bool
    ensures { MatchBool result ((told ≡ true) ⊎ (IsTold outcome.now × (end.now.closed ≡ false))) ((told ≡ false) × (IsTold outcome.now → end.now.closed ≡ true)) }
{
    told || (matches!(outcome, Err(Refusal::Closed { .. })) && !end.closed())
}

// Joins each thread, in order. The reporters that they give back have room in the list; the flag tells whether one was
// told of a close of a lane that is open.
fn join_all<S: ReportSource + Drop, R: Threads>(
    rt: &R,
    ends: &[LaneEnd],
    handles: Vec<PromisedHandle<WorkerExit<S>, WorkerPromise<S>>>,
    reporters: Vec<Reporter>,
) -> (Vec<Reporter>, bool)
    requires fit { length handles.items ≤ length ends.now }
    requires none { reporters.items ≡ [] }
    requires room { length handles.items ≤ vec_capacity reporters }
    ensures { JoinsAll S.gives handles.items ends.now result.0.items result.1 }
{
    let mut reporters = reporters;
    let mut told = false;
    let mut place = 0usize;
    for handle in handles {
        let WorkerExit {
            source,
            reporter,
            outcome,
        } = handle.join(rt);
        drop(source);
        told = still_told(told, &outcome, &ends[place]);
        reporters.push_reserved(reporter);
        place += 1;
    }
    (reporters, told)
}

// Ends each lane.
fn meet_all(ends: Vec<LaneEnd>, reporters: Vec<Reporter>)
    requires { AllZip AreOneLane ends.items reporters.items }
    ensures { AllZip EndsAgree ends.items reporters.items }
{
    let mut ends = ends;
    let mut reporters = reporters;
    while let Some(end) = ends.pop() {
        let Some(reporter) = reporters.pop() else {
            unreachable!();
        };
        let _met = meet(end, reporter);
    }
}

// Promotes a standby whose lanes are closed.
pub(crate) fn promote<T: SegmentSource>(
    standby: &mut Standby,
    source: &mut T,
) -> Result<Active, DriveFault>
    requires serving { has_begun standby.old ≡ false }
    requires closed { AllClosed standby.old.ends }
    ensures ok { IfOk result (λ active. PromotesAtEnd T.gives T.failures source.old standby.old source.new active standby.new) }
    ensures err { IfErr result (λ fault. WentUntil T.gives T.failures source.old standby.old source.new fault) }
    ensures stayed { IfErr result (λ _. Stayed T.gives source.old standby.old source.new standby.new) }
{
    match standby.promote(source) {
        Ok(active) => Ok(active),
        Err(fault) => match fault {
            PromoteFault::Step(fault) => Err(fault_of(fault)),
            PromoteFault::AlreadyActive => unreachable!(),
            PromoteFault::IntakeOpen => unreachable!(),
        },
    }
}

// Why a drive or a service of this standby is refused before it begins.
pub(crate) fn refusal(standby: &Standby) -> Option<DriveFault>
    ensures { result ≡ drive_refusal standby.now }
{
    if standby.is_active() {
        return Some(DriveFault::AlreadyActive);
    }
    let stop = standby.stop()?;
    Some(DriveFault::Stopped(stop))
}

impl<'s, E, R: Threads + Wait + Sync> Crew<'s, E, R> {
    // One worker on a thread of the scope.
    fn start<S: ReportSource + Send + Drop + 's>(
        &self,
        worker: (S, Reporter),
        index: usize,
    ) -> Option<PromisedHandle<WorkerExit<S>, WorkerPromise<S>>>
        ensures { IfSome result (λ handle. IsPromised worker handle) }
    {
        let (rt, bells) = (self.rt, self.bells);
        let promise = WorkerPromise(Snapshot::of(&worker.0), Snapshot::of(&worker.1));
        let run = move || -> WorkerExit<S>
            ensures { HasReported S.gives worker.0 worker.1 result }
        { work(rt, worker, bells, index) };
        self.scope.spawn_with(promise, run).ok()
    }

    // A thread for each worker, in order; fewer where memory or threads run out, and the other workers are dropped.
    fn start_all<S: ReportSource + Send + Drop + 's>(
        &self,
        workers: Vec<(S, Reporter)>,
    ) -> Vec<PromisedHandle<WorkerExit<S>, WorkerPromise<S>>>
        ensures { ArePromised workers.items result.items }
    {
        let Ok(mut handles) = Vec::with_capacity(self.alloc, workers.len()) else {
            return Vec::new(self.alloc);
        };
        for worker in workers {
            let index = handles.len();
            let Some(handle) = self.start(worker, index) else {
                return handles;
            };
            handles.push_reserved(handle);
        }
        handles
    }

    // Gives a standby up for a fault: its lanes are closed, of which each worker learns by its next report, and all are woken for
    // it; what the feed still brings is dropped, and the workers are joined. Answers what a drive answers for the fault.
    fn give_up<'a, S: ReportSource + Drop>(
        &self,
        standby: Standby,
        end: &mut FeedEnd<'a, R>,
        handles: Vec<PromisedHandle<WorkerExit<S>, WorkerPromise<S>>>,
        fault: DriveFault,
    ) -> DriveFault
        ensures same { IsSameEnd end.old end.new }
        ensures more { GotMore (got_by end.old) (got_by end.new) }
        ensures known { IsKnown fault (has_last (got_by end.old)) result }
    {
        let known = told_fault(end, fault);
        let mut standby = standby;
        standby.close_intake();
        drop(standby);
        self.bells.wake_all();
        drop_feed(self.rt, end);
        for handle in handles {
            drop(handle.join(self.rt));
        }
        known
    }

    // Runs the workers on threads of the scope and the standby on this one, over the end of a feed, up to the promotion.
    fn run<'a, S: ReportSource + Send + Drop + 's>(
        &self,
        standby: Standby,
        end: &mut FeedEnd<'a, R>,
        workers: Vec<(S, Reporter)>,
        reporters: Vec<Reporter>,
    ) -> Result<(Shadow, Active), DriveFault>
        requires serving { has_begun standby ≡ false }
        requires lanes { HaveReporters workers.items standby.ends }
        requires none { reporters.items ≡ [] }
        requires room { length workers.items ≤ vec_capacity reporters }
        ensures same { IsSameEnd end.old end.new }
        ensures ok { IfOk result (λ r. IsDrivenOver S.gives standby end.old workers.items end.new r.0 r.1) }
        ensures err { IfErr result (λ fault. FailsOver standby end.old end.new fault) }
    {
        let mut standby = standby;
        let count = workers.len();
        let handles = self.start_all(workers);
        let started = handles.len();
        if !all_started(started, count) {
            return Err(self.give_up(standby, end, handles, DriveFault::OutOfMemory));
        }
        let rotation = Rotation {
            rt: self.rt,
            bells: self.bells,
            started,
            ahead: AHEAD,
        };
        if let Err(fault) = rotation.rotate(&mut standby, end, &mut Unattended) {
            return Err(self.give_up(standby, end, handles, fault));
        }
        let (reporters, told) = join_all(self.rt, standby.ends(), handles, reporters);
        if told {
            // A reporter was told of a close, and the end of its lane is open: they cannot meet.
            let (_shadow, ends) = standby.into_parts();
            meet_all(ends, reporters);
            unreachable!();
        }
        standby.close_intake();
        let active = match promote(&mut standby, end) {
            Ok(active) => active,
            Err(fault) => {
                let joined = Vec::new(self.alloc);
                return Err(self.give_up::<S>(standby, end, joined, fault));
            }
        };
        let (shadow, ends) = standby.into_parts();
        meet_all(ends, reporters);
        Ok((shadow, active))
    }

    // The rest of `drive`, inside its scope.
    fn drive_in<T: SegmentSource + Send + Drop + 's, S: ReportSource + Send + Drop + 's>(
        &self,
        standby: Standby,
        source: T,
        workers: Vec<(S, Reporter)>,
    ) -> Result<(Shadow, Active), DriveFault>
        requires serving { has_begun standby ≡ false }
        requires lanes { HaveReporters workers.items standby.ends }
        ensures ok { IfOk result (λ r. IsDriven T.gives T.failures S.gives standby source workers.items r.0 r.1) }
        ensures err { IfErr result (λ fault. NotDriven T.gives T.failures standby source fault) }
    {
        // What is owned is dropped by name. That is cheaper to prove than to leave it to each exit.
        let Ok(reporters) = Vec::with_capacity(self.alloc, workers.len()) else {
            drop(standby);
            return Err(DriveFault::OutOfMemory);
        };
        let Some(feeding) = self.start_feed(source) else {
            drop(standby);
            return Err(DriveFault::OutOfMemory);
        };
        let Feeding { mut end, handle } = feeding;
        let outcome = self.run(standby, &mut end, workers, reporters);
        if !end_feed(self.rt, end, handle) {
            drop(outcome);
            return Err(DriveFault::OutOfMemory);
        }
        outcome
    }
}

/// Runs the source of segments and each worker on a thread of its own, and the standby on this one: it steps the log,
/// which comes to it over a feed, and the lanes in rotation until all workers have ended; then it closes its lanes, and
/// promotes itself.
///
/// The source is asked up to its End or its first fault, at most five segments ahead of the one that the standby has in
/// hand. A source of reports ends with its first None, and is not asked again; nor is it once a report was refused, since
/// its lane is closed or has carried all that it can. A worker at a full lane sleeps until the standby has visited it, and
/// the standby sleeps where nothing is to do. Only once all workers have ended are the lanes closed: so no report is refused
/// as closed in a lane that was open when the drive began.
///
/// The first cause of refusal is answered: `AlreadyActive` where the flush had begun before and `Stopped` where the standby
/// was stopped, both before any thread is started; then `OutOfMemory` where memory or a thread is refused; and while it works
/// `Stopped`, `LogNotEnded`, `OutOfMemory`. The last would also come if the feed failed while both its ends were there, which
/// no channel does and no contract excludes.
///
/// After a fault nothing is handed back: the lanes are closed, what the feed still brings is dropped until its source has
/// ended, and each thread is joined before this returns. It waits for as long as a source of segments or of reports does.
pub fn drive<
    T: SegmentSource + Send + Drop,
    S: ReportSource + Send + Drop,
    R: Threads + Wait + Sync,
>(
    rt: &R,
    alloc: Global,
    standby: Standby,
    source: T,
    workers: Vec<(S, Reporter)>,
) -> Result<(Shadow, Active), DriveFault>
    requires { HaveReporters workers.items standby.ends }
    ensures refused { (fault : Why) → drive_refusal standby ≡ Some fault → result ≡ Err fault }
    ensures ok { IfOk result (λ r. IsDriven T.gives T.failures S.gives standby source workers.items r.0 r.1) }
    ensures err { IfErr result (λ fault. NotDriven T.gives T.failures standby source fault) }
{
    if let Some(fault) = refusal(&standby) {
        return Err(fault);
    }
    let Ok(made) = Bells::new(alloc, workers.len()) else {
        return Err(DriveFault::OutOfMemory);
    };
    let bells = &made;
    thread::scope(
        thread::scope_env(),
        rt,
        move |scope| -> Result<(Shadow, Active), DriveFault>
            requires serving { has_begun standby ≡ false }
            requires lanes { HaveReporters workers.items standby.ends }
            ensures ok { IfOk result (λ r. IsDriven T.gives T.failures S.gives standby source workers.items r.0 r.1) }
            ensures err { IfErr result (λ fault. NotDriven T.gives T.failures standby source fault) }
        {
            let crew = Crew {
                scope,
                rt,
                alloc,
                bells,
            };
            crew.drive_in(standby, source, workers)
        },
    )
}
