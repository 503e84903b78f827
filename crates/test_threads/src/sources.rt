//! Sources of segments and of reports: one that fails, and ones that wait for one another.
ghost use Rattle.std.specs.Prelude.{◌≡◌, ⊤, true, [], length, if◌then◌else◌};
ghost use Rattle.std.specs.Vec.Iter.{into_iter_items};

use crate::values::{Shared, Text, log_of};
use nn_drive::ReportSource;
use nn_segment::{Item, Parsed, SegmentSource, SourceFault};
use nn_types::Report;
use std::alloc::Global;
use std::sync::Arc;
use std::sync::atomic::Ordering;
use std::vec::IntoIter;

/// Gives its segments in order and then its end, but fails once, after so many calls.
#[derive(Drop)]
pub struct FailsOnce {
    segments: IntoIter<Parsed>,
    before: u64,
    has_failed: bool,
    is_over: bool,
}

impl FailsOnce {
    pub fn new(segments: Vec<Parsed>, before: u64) -> FailsOnce {
        FailsOnce {
            segments: segments.into_iter(),
            before,
            has_failed: false,
            is_over: false,
        }
    }
}

impl SegmentSource for FailsOnce {
    ghost gives = { λ s r t. ⊤ };

    ghost left = { λ s. length (into_iter_items s.segments) };

    ghost failures = { λ s. if s.has_failed then 1 else 0 };

    ghost ended = { λ s. (s.is_over ≡ true) × (into_iter_items s.segments ≡ []) };

    fn next(&mut self) -> Result<Item, SourceFault> {
        if !self.has_failed && !self.is_over {
            if self.before == 0 {
                self.has_failed = true;
                return Err(SourceFault::SourceFailed);
            }
            self.before -= 1;
        }
        match self.segments.next() {
            Some(segment) => Ok(Item::Segment(segment)),
            None => {
                self.is_over = true;
                Ok(Item::End)
            }
        }
    }
}

/// When a log that is watched gives what it has.
#[derive(Clone, Copy)]
pub struct Pace {
    /// 1, or 0 for a log that is not counted among those that came.
    pub counts: u64,
    /// How many its first call waits for.
    pub wanted: u64,
    /// So many of its calls wait until a thread was asked so often: the first for `asked`, and each for `more` more than
    /// the one before.
    pub gates: u64,
    pub asked: u64,
    pub more: u64,
}

/// A log that waits for nothing.
pub const AT_ANY_TIME: Pace = Pace {
    counts: 0,
    wanted: 0,
    gates: 0,
    asked: 0,
    more: 0,
};

/// A log that comes when it is first asked, and that waits for the other threads.
#[derive(Drop)]
pub struct Watched {
    shared: Arc<Shared, Global>,
    log: FailsOnce,
    pace: Pace,
}

/// A watched log of these segments, whose call with this number fails, counted from 0.
pub fn new_watched(
    alloc: Global,
    shared: &Arc<Shared, Global>,
    texts: &[Text],
    fails_at: u64,
    pace: Pace,
) -> Option<Watched> {
    let log = FailsOnce::new(log_of(alloc, texts)?, fails_at);
    let Ok(shared) = Arc::try_clone(shared) else {
        return None;
    };
    Some(Watched { shared, log, pace })
}

impl SegmentSource for Watched {
    ghost gives = { λ s r t. ⊤ };

    ghost left = { λ s. length (into_iter_items s.log.segments) };

    ghost failures = { λ s. if s.log.has_failed then 1 else 0 };

    ghost ended = { λ s. (s.log.is_over ≡ true) × (into_iter_items s.log.segments ≡ []) };

    fn next(&mut self) -> Result<Item, SourceFault> {
        self.pace = keep_pace(&self.shared, self.pace);
        self.log.next()
    }
}

// Waits as this call has to, and answers what the next one does.
fn keep_pace(shared: &Shared, pace: Pace) -> Pace {
    shared.calls.fetch_add(1, Ordering::SeqCst);
    shared.came.fetch_add(pace.counts, Ordering::SeqCst);
    shared.wait_for_all(pace.wanted);
    if pace.gates > 0 {
        shared.wait_until_asked(pace.asked);
    }
    Pace {
        counts: 0,
        wanted: 0,
        gates: pace.gates.saturating_sub(1),
        asked: pace.asked.saturating_add(pace.more),
        more: pace.more,
    }
}

/// Gives one report again and again, without end.
#[derive(Clone, Copy)]
pub struct Endless {
    pub report: Report,
}

impl ReportSource for Endless {
    ghost gives = { λ s r t. ⊤ };

    fn next(&mut self) -> Option<Report> {
        let report = self.report;
        Some(report)
    }
}

/// Comes, waits until so many came, and then gives one report again and again.
#[derive(Drop)]
pub struct Waiting {
    pub shared: Arc<Shared, Global>,
    /// 1, or 0 for one that is not counted among those that came.
    pub counts: u64,
    pub wanted: u64,
    pub report: Report,
    pub left: u64,
    pub has_come: bool,
}

impl ReportSource for Waiting {
    ghost gives = { λ s r t. ⊤ };

    fn next(&mut self) -> Option<Report> {
        self.shared.asked.fetch_add(1, Ordering::SeqCst);
        if !self.has_come {
            self.has_come = true;
            self.shared.came.fetch_add(self.counts, Ordering::SeqCst);
            if !self.shared.wait_for_all(self.wanted) {
                return None;
            }
        }
        if self.left == 0 {
            return None;
        }
        self.left -= 1;
        let report = self.report;
        Some(report)
    }
}
