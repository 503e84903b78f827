//! A standby in service: an operator is asked each rotation, and a promotion waits for no DataNode.
ghost use Rattle.std.specs.Prelude.{◌≡◌, []};
ghost use Rattle.nn_drive.specs.Serving.{IsOf};
ghost use Rattle.nn_feed.specs.Ends.{AreOfOneFeed, put_by};

use crate::driving::{DriveFault, WorkerExit, WorkerPromise};
use crate::reporting::ReportSource;
use nn_feed::{FeedEnd, FeederExit, FeederPromise};
use nn_lane::{LaneEnd, Met, Refusal, Reporter};
use nn_lane_standby::{Active, Standby};
use nn_segment::SegmentSource;
use nn_shadow::Shadow;
use std::fmt;
use std::sync::Wait;
use std::thread::PromisedHandle;

/// A worker of a promoted standby, whose thread may still run. Its lane is closed, and all that the lane accepted was
/// taken. Dropped, it lets the thread end by itself.
#[derive(Drop)]
pub struct Running<S: ReportSource> {
    /// It shows how many messages its lane had accepted.
    pub end: LaneEnd,
    pub handle: PromisedHandle<WorkerExit<S>, WorkerPromise<S>>,
    ghost own: { IsOf end handle },
}

// Without the handle of its thread, which has nothing to show.
impl<S: ReportSource> fmt::Debug for Running<S> {
    fn fmt<D: fmt::Write>(&self, f: &mut fmt::Formatter<D>) -> fmt::Result {
        f.debug_struct("Running")
            .field("end", &self.end)
            .finish_non_exhaustive()
    }
}

/// What a worker left.
#[derive(Debug, Drop)]
pub struct Left<S> {
    pub source: S,
    /// How many reports it sent, where its source gave no more; else why the last one was refused. `Closed` is no fault: the
    /// standby was promoted meanwhile.
    pub outcome: Result<u64, Refusal>,
    /// What the two ends of its lane counted.
    pub met: Met,
}

/// A standby that was promoted.
#[derive(Debug, Drop)]
pub struct Served<S: ReportSource> {
    pub shadow: Shadow,
    pub active: Active,
    /// The workers, in the order in which they were handed in. Any of them may still run.
    pub workers: Vec<Running<S>>,
}

/// The thread of a source whose standby was not promoted, and the end of its feed.
#[derive(Drop)]
pub struct Feeding<'a, T: SegmentSource, R: Wait> {
    pub end: FeedEnd<'a, R>,
    pub handle: PromisedHandle<FeederExit<T>, FeederPromise<T>>,
    ghost one_feed: { AreOfOneFeed handle.promise.1.value end },
    ghost new: { put_by handle.promise.1.value ≡ [] },
}

// Without the handle, as above.
impl<'a, T: SegmentSource, R: Wait> fmt::Debug for Feeding<'a, T, R> {
    fn fmt<D: fmt::Write>(&self, f: &mut fmt::Formatter<D>) -> fmt::Result {
        f.debug_struct("Feeding")
            .field("end", &self.end)
            .finish_non_exhaustive()
    }
}

/// A standby that was not promoted, and why.
///
/// Where it was refused before a thread was started, it is as it was, there are no threads, and all workers come back; so
/// does the source, unless its own thread was refused. A new `serve` can take them.
#[derive(Drop)]
pub struct Unserved<'a, T: SegmentSource, S: ReportSource, R: Wait> {
    pub fault: DriveFault,
    /// The standby, as a step leaves it that fails. After `OutOfMemory` it can go on once there is memory, after
    /// `LogNotEnded` over a new source: by `step`, or by `promote` once its intake is closed.
    ///
    /// Its workers still report into its lanes. So who wants the standby no more closes its intake (`close_intake`) before
    /// dropping it: each worker learns of the close by its next report, and ends.
    pub standby: Standby,
    /// The source as it was handed in, if no thread was asked for it. One whose thread was refused is dropped.
    pub source: Option<T>,
    /// The threads of the workers that were started, in their order.
    pub workers: Vec<PromisedHandle<WorkerExit<S>, WorkerPromise<S>>>,
    /// The workers behind those, in their order and as they were handed in. If the thread of one was refused, it stood
    /// first among them, and is dropped.
    pub unstarted: Vec<(S, Reporter)>,
    /// The source's thread, if it was started and not joined.
    pub feeding: Option<Feeding<'a, T, R>>,
}

// Without sources and handles, which need not print themselves.
impl<'a, T: SegmentSource, S: ReportSource, R: Wait> fmt::Debug for Unserved<'a, T, S, R> {
    fn fmt<D: fmt::Write>(&self, f: &mut fmt::Formatter<D>) -> fmt::Result {
        f.debug_struct("Unserved")
            .field("fault", &self.fault)
            .field("standby", &self.standby)
            .finish_non_exhaustive()
    }
}

/// What is left of a standby that was not promoted, once its source's thread was joined.
#[derive(Drop)]
pub struct Unfed<T, S: ReportSource> {
    pub fault: DriveFault,
    pub standby: Standby,
    pub source: Option<T>,
    pub workers: Vec<PromisedHandle<WorkerExit<S>, WorkerPromise<S>>>,
    pub unstarted: Vec<(S, Reporter)>,
}

// Without sources and handles, as above.
impl<T, S: ReportSource> fmt::Debug for Unfed<T, S> {
    fn fmt<D: fmt::Write>(&self, f: &mut fmt::Formatter<D>) -> fmt::Result {
        f.debug_struct("Unfed")
            .field("fault", &self.fault)
            .field("standby", &self.standby)
            .finish_non_exhaustive()
    }
}

mod calls;

pub use calls::serve;
