// The calls of a standby in service.
ghost use Rattle.std.specs.Prelude.{◌≡◌, ◌≤◌, [], false, length, reverse, vec_capacity, Some, None, IfOk, IfErr, IfSome};
ghost use Rattle.std.specs.List.{AllZip};
ghost use Rattle.nn_feed.specs.Ends.{got_by, IsSameEnd};
ghost use Rattle.nn_lane_standby.specs.Tailing.{has_begun, Standby};
ghost use Rattle.nn_drive.specs.Driven.{HasReported, IsPromised, HaveReporters, NotDriven};
ghost use Rattle.nn_drive.specs.Feeding.{FailsOver};
ghost use Rattle.nn_drive.specs.Refusals.{drive_refusal};
ghost use Rattle.nn_drive.specs.Served.{HasLeft, ArePaired, AreStarted, PromotesOver, IsServed, ComesBack, IsUntouched, IsStopped, IsUnserved, IsRefusedAtStart};
ghost use Rattle.nn_drive.specs.Serving.{IsOf};
ghost use Rattle.nn_drive.specs.declared.driving.DriveFault.{DriveFault as Why};

use super::{Feeding, Left, Running, Served, Unfed, Unserved};
use crate::bells::Bells;
use crate::crew::ServiceCrew;
use crate::driving::{DriveFault, WorkerExit, WorkerPromise, all_started, promote, refusal, work};
use crate::feeding::{drop_feed, end_feed, told_fault};
use crate::operator::Operator;
use crate::reporting::ReportSource;
use crate::rotation::Rotation;
use nn_feed::FeedEnd;
use nn_lane::{LaneEnd, Reporter, meet};
use nn_lane_standby::{Active, Standby};
use nn_segment::SegmentSource;
use std::alloc::Global;
use std::snapshot::Snapshot;
use std::sync::{Arc, Wait};
use std::thread;
use std::thread::{PromisedHandle, Threads};

impl<S: ReportSource + Drop> Running<S> {
    /// Joins the worker's thread. It waits for as long as its source does; a source is not asked again once a report was
    /// refused, and its lane is closed.
    pub fn join<R: Threads>(self, rt: &R) -> Left<S>
        ensures { HasLeft S.gives self result }
    {
        let Running { end, handle } = self;
        let WorkerExit {
            source,
            reporter,
            outcome,
        } = handle.join(rt);
        let met = meet(end, reporter);
        Left {
            source,
            outcome,
            met,
        }
    }
}

// Each end with the handle of its reporter's thread.
fn pair<S: ReportSource + Drop>(
    ends: Vec<LaneEnd>,
    handles: Vec<PromisedHandle<WorkerExit<S>, WorkerPromise<S>>>,
    paired: Vec<Running<S>>,
) -> Vec<Running<S>>
    requires own { AllZip IsOf ends.items handles.items }
    requires none { paired.items ≡ [] }
    requires room { length handles.items ≤ vec_capacity paired }
    ensures { ArePaired ends.items handles.items result.items }
{
    let mut paired = paired;
    let mut rest = ends.into_iter();
    for handle in handles {
        let Some(end) = rest.next() else {
            unreachable!();
        };
        paired.push_reserved(Running { end, handle });
    }
    paired
}

impl<'b, R: Wait> Rotation<'b, R> {
    // Rotations of a standby with so many workers, over the end of a feed and up to its operator's request, and then its
    // promotion.
    fn serve_over<'a, O: Operator>(
        &self,
        standby: &mut Standby,
        end: &mut FeedEnd<'a, R>,
        operator: &mut O,
        workers: usize,
    ) -> Result<Active, DriveFault>
        requires serving { has_begun standby.old ≡ false }
        requires few { self.now.started ≤ workers }
        ensures same { IsSameEnd end.old end.new }
        ensures ok { IfOk result (λ active. PromotesOver O.asks workers standby.old end.old operator.old active standby.new end.new operator.new) }
        ensures started { IfOk result (λ _. workers ≤ self.now.started) }
        ensures err { IfErr result (λ fault. FailsOver standby.old end.old end.new fault) }
        ensures back { IfErr result (λ _. ComesBack O.asks workers standby.old end.old operator.old standby.new end.new operator.new) }
    {
        if !all_started(self.started, workers) {
            return Err(DriveFault::OutOfMemory);
        }
        if let Err(fault) = self.rotate(standby, end, operator) {
            return Err(told_fault(end, fault));
        }
        standby.close_intake();
        self.bells.wake_all();
        match promote(standby, end) {
            Ok(active) => Ok(active),
            Err(fault) => Err(told_fault(end, fault)),
        }
    }
}

impl<
    'a,
    S: ReportSource + Send + Drop + 'static,
    R: Threads + Wait + Copy + Send + Drop + 'static,
> ServiceCrew<'a, S, R> {
    // One worker on a thread of its own, which no scope waits for. It stands at this index among the workers.
    fn start(
        &self,
        worker: (S, Reporter),
        bells: Arc<Bells, Global>,
        index: usize,
    ) -> Option<PromisedHandle<WorkerExit<S>, WorkerPromise<S>>>
        ensures { IfSome result (λ handle. IsPromised worker handle) }
    {
        let own = *self.rt;
        let promise = WorkerPromise(Snapshot::of(&worker.0), Snapshot::of(&worker.1));
        let run = move || -> WorkerExit<S>
            ensures { HasReported S.gives worker.0 worker.1 result }
        { work(&own, worker, &bells, index) };
        thread::spawn_with(self.rt, promise, run).ok()
    }

    // A thread for each worker, the last one first; fewer where threads run out. The others stay, except for one whose thread
    // was refused: it is dropped.
    fn start_from_the_last(
        &self,
        workers: &mut Vec<(S, Reporter)>,
        room: Vec<PromisedHandle<WorkerExit<S>, WorkerPromise<S>>>,
    ) -> Vec<PromisedHandle<WorkerExit<S>, WorkerPromise<S>>>
        requires none { room.items ≡ [] }
        requires room { length workers.old.items ≤ vec_capacity room }
        ensures { AreStarted (reverse workers.old.items) result.items (reverse workers.new.items) }
    {
        let mut handles = room;
        while let Ok(own) = Arc::try_clone(&self.bells) {
            let Some(worker) = workers.pop() else {
                return handles;
            };
            let index = handles.len();
            let Some(handle) = self.start(worker, own, index) else {
                return handles;
            };
            handles.push_reserved(handle);
        }
        handles
    }

    // A thread for each worker, in order; fewer where memory or threads run out. The others stay, except for one whose thread
    // was refused: it is dropped.
    fn start_all(
        &self,
        workers: &mut Vec<(S, Reporter)>,
    ) -> Vec<PromisedHandle<WorkerExit<S>, WorkerPromise<S>>>
        ensures { AreStarted workers.old.items result.items workers.new.items }
    {
        let Ok(room) = Vec::with_capacity(self.alloc, workers.len()) else {
            return Vec::new(self.alloc);
        };
        // Turned round, the first one is taken from the end.
        workers.reverse();
        let handles = self.start_from_the_last(workers, room);
        workers.reverse();
        handles
    }

    // The rest of `serve`, once the source's thread runs.
    fn serve_with<O: Operator, T: SegmentSource + Drop>(
        self,
        standby: Standby,
        feeding: Feeding<'a, T, R>,
        workers: Vec<(S, Reporter)>,
        operator: &mut O,
    ) -> Result<Served<S>, Unserved<'a, T, S, R>>
        requires serving { has_begun standby ≡ false }
        requires lanes { HaveReporters workers.items standby.ends }
        requires new { got_by feeding.end ≡ [] }
        requires none { self.room.items ≡ [] }
        requires room { length workers.items ≤ vec_capacity self.room }
        ensures ok { IfOk result (λ r. IsServed O.asks T.gives T.failures standby feeding.entry.handle.promise.0.value workers.items
            operator.old operator.new r) }
        ensures err { IfErr result (λ u. IsUnserved O.asks T.gives T.failures standby feeding.entry.handle.promise.0.value workers.items
            operator.old operator.new u) }
    {
        let mut standby = standby;
        let mut workers = workers;
        let Feeding { mut end, handle } = feeding;
        let count = workers.len();
        let handles = self.start_all(&mut workers);
        // No report waits for the log: a rotation has no more of it than its lanes allow.
        let rotation = Rotation {
            rt: self.rt,
            bells: &self.bells,
            started: handles.len(),
            ahead: 0,
        };
        let active = match rotation.serve_over(&mut standby, &mut end, operator, count) {
            Ok(active) => active,
            Err(fault) => {
                return Err(Unserved {
                    fault,
                    standby,
                    source: None,
                    workers: handles,
                    unstarted: workers,
                    feeding: Some(Feeding { end, handle }),
                });
            }
        };
        if !end_feed(self.rt, end, handle) {
            return Err(Unserved {
                fault: DriveFault::OutOfMemory,
                standby,
                source: None,
                workers: handles,
                unstarted: workers,
                feeding: None,
            });
        }
        let (shadow, ends) = standby.into_parts();
        let workers = pair(ends, handles, self.room);
        Ok(Served {
            shadow,
            active,
            workers,
        })
    }
}

impl<'a, T: SegmentSource + Drop, S: ReportSource, R: Threads + Wait> Unserved<'a, T, S, R> {
    /// Drops what the feed still brings, and joins the source's thread: for as long as the source gives segments or waits.
    /// All else comes back as it is. The fault is then known as `drive` knows one: with what its source gave; or it is `OutOfMemory`,
    /// where the feed failed while both its ends were there.
    pub fn join(self, rt: &R) -> Unfed<T, S>
        ensures rest { (result.standby ≡ self.entry.standby) × (result.workers ≡ self.entry.workers) }
        ensures back { (result.source ≡ self.entry.source) × (result.unstarted ≡ self.entry.unstarted) }
        ensures fault { (old : Standby) (source : T) → IsStopped T.gives T.failures old source self.entry → NotDriven T.gives T.failures old source result.fault }
    {
        let Unserved {
            fault,
            standby,
            source,
            workers,
            unstarted,
            feeding,
        } = self;
        let Some(feeding) = feeding else {
            return Unfed {
                fault,
                standby,
                source,
                workers,
                unstarted,
            };
        };
        let Feeding { mut end, handle } = feeding;
        drop_feed(rt, &mut end);
        if !end_feed(rt, end, handle) {
            return Unfed {
                fault: DriveFault::OutOfMemory,
                standby,
                source,
                workers,
                unstarted,
            };
        }
        Unfed {
            fault,
            standby,
            source,
            workers,
            unstarted,
        }
    }
}

// A standby that was refused before any thread was started, with all that was handed in; the source is dropped if its own
// thread was refused.
fn refused<'a, T: SegmentSource, S: ReportSource, R: Wait>(
    standby: Standby,
    source: Option<T>,
    workers: Vec<(S, Reporter)>,
    fault: DriveFault,
) -> Unserved<'a, T, S, R>
    ensures fault { (result.fault ≡ fault) × (result.feeding ≡ None) × (result.source ≡ source) }
    ensures rest { IsUntouched standby workers.items result }
{
    let alloc = *workers.allocator();
    Unserved {
        fault,
        standby,
        source,
        workers: Vec::new(alloc),
        unstarted: workers,
        feeding: None,
    }
}

/// Runs the source of segments and each worker on a thread of its own, and the standby on this one, until the operator
/// requests a promotion. Then it closes its lanes, reads the log to its end, and promotes itself. It waits for no worker:
/// those that still run are told by their next report, and come back to be joined. It waits for the source to give its
/// End, so an operator that requests a promotion has its own source end.
///
/// The source is asked up to its End or its first fault, at most five segments ahead of the one that the standby has in
/// hand. While it is slow, messages are taken and the operator is asked; once the promotion has begun, it is waited for.
/// Where nothing is to do the standby sleeps until it is woken, 10 milliseconds at most: so often the operator is asked.
///
/// The first cause of refusal is answered: `AlreadyActive` where the flush had begun before and `Stopped` where the standby
/// was stopped, both before any thread is started; then `OutOfMemory` where memory or a thread is refused; and while it works
/// `Stopped`, `LogNotEnded`, `OutOfMemory`. A fault is answered at once, and the standby comes back; so do the source and the
/// workers, as far as no thread was asked for them. `OutOfMemory` would also come if the feed failed while both its ends were
/// there, which no channel does and no contract excludes.
pub fn serve<
    'a,
    O: Operator,
    T: SegmentSource + Send + Drop + 'static,
    S: ReportSource + Send + Drop + 'static,
    R: Threads + Wait + Copy + Send + Drop + 'static,
>(
    rt: &'a R,
    alloc: Global,
    standby: Standby,
    source: T,
    workers: Vec<(S, Reporter)>,
    operator: &mut O,
) -> Result<Served<S>, Unserved<'a, T, S, R>>
    requires { HaveReporters workers.items standby.ends }
    ensures refused { (fault : Why) → drive_refusal standby ≡ Some fault → IsRefusedAtStart standby source workers.items fault result }
    ensures ok { IfOk result (λ r. IsServed O.asks T.gives T.failures standby source workers.items operator.old operator.new r) }
    ensures err { IfErr result (λ u. IsUnserved O.asks T.gives T.failures standby source workers.items operator.old operator.new u) }
{
    if let Some(fault) = refusal(&standby) {
        return Err(refused(standby, Some(source), workers, fault));
    }
    let Ok(service) = ServiceCrew::new(rt, alloc, workers.len()) else {
        let fault = DriveFault::OutOfMemory;
        return Err(refused(standby, Some(source), workers, fault));
    };
    let feeding = match service.start_feed(source) {
        Ok(feeding) => feeding,
        Err(back) => {
            let fault = DriveFault::OutOfMemory;
            return Err(refused(standby, back, workers, fault));
        }
    };
    service.serve_with(standby, feeding, workers, operator)
}
