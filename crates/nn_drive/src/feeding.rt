//! The source of segments on a thread of its own, and the end of its feed.
ghost use Rattle.std.specs.Prelude.{◌≡◌, [], IfOk, IfErr, IfSome};
ghost use Rattle.nn_feed.specs.Ends.{put_by, got_by, AreOfOneFeed, IsSameEnd};
ghost use Rattle.nn_feed.specs.Feeds.{has_last};
ghost use Rattle.nn_feed.specs.Running.{HasRun};
ghost use Rattle.nn_drive.specs.Feeding.{GotMore, HasAnswered, IsKnown};

use crate::crew::{Crew, ServiceCrew};
use crate::driving::DriveFault;
use crate::reporting::ReportSource;
use crate::serving::Feeding;
use nn_feed::{Delivered, FeedEnd, Feeder, FeederExit, FeederPromise, feed, meet, run_thread};
use nn_segment::{Item, SegmentSource};
use std::snapshot::Snapshot;
use std::sync::Wait;
use std::thread;
use std::thread::{PromisedHandle, Threads};

impl<'s, E, R: Wait + Sync> Crew<'s, E, R> {
    // A feed of this source, which rings the standby's bell, and its feeder on a thread of the scope.
    pub(crate) fn start_feed<T: SegmentSource + Send + Drop + 's>(
        &self,
        source: T,
    ) -> Option<Feeding<'s, T, R>>
        ensures source { IfSome result (λ f. f.handle.promise.0.value ≡ source) }
        ensures empty { IfSome result (λ f. got_by f.end ≡ []) }
    {
        let bell = self.bells.of_standby().ok()?;
        let (feeder, end) = feed(self.rt, self.alloc, bell).ok()?;
        let handle = self.start_feeder(source, feeder)?;
        Some(Feeding { end, handle })
    }

    // The feeder on a thread of the scope.
    fn start_feeder<T: SegmentSource + Send + Drop + 's>(
        &self,
        source: T,
        feeder: Feeder,
    ) -> Option<PromisedHandle<FeederExit<T>, FeederPromise<T>>>
        ensures { IfSome result (λ h. (h.promise.0.value ≡ source) × (h.promise.1.value ≡ feeder)) }
    {
        let rt = self.rt;
        let promise = FeederPromise(Snapshot::of(&source), Snapshot::of(&feeder));
        let run = move || -> FeederExit<T>
            ensures { HasRun T.gives T.failures source feeder result }
        { run_thread(rt, source, feeder) };
        self.scope.spawn_with(promise, run).ok()
    }
}

impl<'a, S: ReportSource, R: Threads + Wait + Copy + Send + Drop + 'static> ServiceCrew<'a, S, R> {
    // The same, on a thread that no scope waits for. Where memory is refused to the feed the source comes back; one whose thread
    // is refused is dropped.
    pub(crate) fn start_feed<T: SegmentSource + Send + Drop + 'static>(
        &self,
        source: T,
    ) -> Result<Feeding<'a, T, R>, Option<T>>
        ensures source { IfOk result (λ f. f.handle.promise.0.value ≡ source) }
        ensures empty { IfOk result (λ f. got_by f.end ≡ []) }
        ensures back { IfErr result (λ back. IfSome back (λ s. s ≡ source)) }
    {
        let Ok(bell) = self.bells.of_standby() else {
            return Err(Some(source));
        };
        let Ok((feeder, end)) = feed(self.rt, self.alloc, bell) else {
            return Err(Some(source));
        };
        let Some(handle) = self.start_feeder(source, feeder) else {
            return Err(None);
        };
        Ok(Feeding { end, handle })
    }

    // The feeder on a thread of its own, which no scope waits for.
    fn start_feeder<T: SegmentSource + Send + Drop + 'static>(
        &self,
        source: T,
        feeder: Feeder,
    ) -> Option<PromisedHandle<FeederExit<T>, FeederPromise<T>>>
        ensures { IfSome result (λ h. (h.promise.0.value ≡ source) × (h.promise.1.value ≡ feeder)) }
    {
        let own = *self.rt;
        let promise = FeederPromise(Snapshot::of(&source), Snapshot::of(&feeder));
        let run = move || -> FeederExit<T>
            ensures { HasRun T.gives T.failures source feeder result }
        { run_thread(&own, source, feeder) };
        thread::spawn_with(self.rt, promise, run).ok()
    }
}

// Receives one answer more, or the last one again. False says that none will come.
pub(crate) fn receive<'a, R: Wait>(end: &mut FeedEnd<'a, R>) -> bool
    ensures same { IsSameEnd end.old end.new }
    ensures more { GotMore (got_by end.old) (got_by end.new) }
{
    matches!(end.next(), Ok(Item::Segment(_)))
}

// Drops what a feed still brings, until its source has ended.
pub(crate) fn drop_feed<'a, R: Wait>(rt: &R, end: &mut FeedEnd<'a, R>)
    ensures same { IsSameEnd end.old end.new }
    ensures more { GotMore (got_by end.old) (got_by end.new) }
{
    for _ in rt.forever() {
        if !receive(end) {
            return;
        }
    }
    unreachable!()
}

// Joins the feeder's thread, and ends the feed. False says that an answer of the source was not put, though the end of
// the feed was there: no channel does so, and no contract says so.
pub(crate) fn end_feed<'a, T: SegmentSource + Drop, R: Threads + Wait>(
    rt: &R,
    end: FeedEnd<'a, R>,
    feeding: PromisedHandle<FeederExit<T>, FeederPromise<T>>,
) -> bool
    requires one_feed { AreOfOneFeed feeding.promise.1.value end }
    requires new { put_by feeding.promise.1.value ≡ [] }
    ensures { HasAnswered T.gives T.failures feeding.promise.0.value (got_by end.entry) result }
{
    let FeederExit { source, outcome } = feeding.join(rt);
    drop(source);
    let Ok(Delivered { feeder, end: _ }) = outcome else {
        return false;
    };
    meet(feeder, end);
    true
}

// What a drive answers for a fault that it met at the end of a feed: `LogNotEnded` only where the feed told it as its source's. No
// channel fails while both its ends are there, but no contract says so.
fn known_fault(fault: DriveFault, is_told: bool) -> DriveFault
    ensures { IsKnown fault is_told result }
{
    if is_told {
        return fault;
    }
    match fault {
        DriveFault::LogNotEnded(_) => DriveFault::OutOfMemory,
        DriveFault::AlreadyActive | DriveFault::Stopped(_) | DriveFault::OutOfMemory => fault,
    }
}

// What a drive answers for a fault that it met at this end of a feed.
pub(crate) fn told_fault<'a, R: Wait>(end: &FeedEnd<'a, R>, fault: DriveFault) -> DriveFault
    ensures { IsKnown fault (has_last (got_by end.now)) result }
{
    known_fault(fault, end.is_at_end())
}
