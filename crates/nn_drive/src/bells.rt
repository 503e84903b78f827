//! What the threads of a drive or a service share beside the lanes: where each sleeps, and which lanes were reported into.
use crate::waiting::Place;
use crossbeam_utils::CachePadded;
use nn_feed::Bell;
use std::alloc::{AllocError, Global};
use std::sync::atomic::{AtomicU64, Ordering};
use std::sync::{Arc, Wait};
use std::time::Duration;

// How long a sleep of the standby is at most, in microseconds: its operator is asked at least as often.
const STANDBY: u64 = 10_000;

// The same while its operator holds the log: that one has work of its own.
const HOLDING: u64 = 100;

/// The bells of a standby and its workers. No clause says that a sleeper wakes: each sleep has a bound.
///
/// Worker i reports into lane i: bit i % 64 of word i / 64 says that something was reported there since the standby looked
/// last. The worker sets it, and the standby clears all. Each word has a line of its own, and so has the count.
#[derive(Drop)]
pub(crate) struct Bells {
    // How many workers have ended.
    ended: CachePadded<AtomicU64>,
    // On which the standby sleeps.
    standby: Arc<Bell, Global>,
    reported: Vec<CachePadded<AtomicU64>>,
    // On which each worker sleeps while its lane is full.
    workers: Vec<Bell>,
}

impl Bells {
    /// For so many workers.
    pub(crate) fn new(alloc: Global, count: usize) -> Result<Bells, AllocError> {
        let mut reported = Vec::new(alloc);
        for _ in 0..count.div_ceil(64) {
            reported.push(CachePadded::new(AtomicU64::new(0)))?;
        }
        let mut workers = Vec::new(alloc);
        for _ in 0..count {
            workers.push(Bell::new())?;
        }
        Ok(Bells {
            ended: CachePadded::new(AtomicU64::new(0)),
            standby: Arc::new(alloc, Bell::new())?,
            reported,
            workers,
        })
    }

    /// The standby's bell, for a feed to ring.
    pub(crate) fn of_standby(&self) -> Result<Arc<Bell, Global>, AllocError> {
        Arc::try_clone(&self.standby)
    }

    /// The place of this worker, if there is such a worker.
    pub(crate) fn place(&self, i: usize) -> Option<Place<'_>> {
        let bell = self.workers.get(i)?;
        Some(Place::among(bell, self, i))
    }

    /// This worker has reported something. Mostly that is a load: its bit is set, or the standby is awake.
    pub(crate) fn report(&self, i: usize) {
        let Some(word) = self.reported.get(i / 64) else {
            return;
        };
        let bit = 1u64 << (i % 64) as u32;
        if word.load(Ordering::SeqCst) & bit == 0 {
            // No other worker sets this bit, so nothing is carried.
            word.fetch_add(bit, Ordering::SeqCst);
            self.standby.ring();
        }
    }

    /// A worker has ended.
    pub(crate) fn end(&self) {
        self.ended.fetch_add(1, Ordering::SeqCst);
        self.standby.ring();
    }

    /// How many workers have ended.
    pub(crate) fn ended(&self) -> usize {
        self.ended.load(Ordering::SeqCst) as usize
    }

    /// The standby is about to visit the lanes. What is reported from now on shows.
    pub(crate) fn clear(&self) {
        for word in &self.reported {
            if word.load(Ordering::SeqCst) != 0 {
                word.store(0, Ordering::SeqCst);
            }
        }
    }

    /// Whether something was reported since.
    pub(crate) fn has_report(&self) -> bool {
        self.reported
            .iter()
            .any(|word| word.load(Ordering::SeqCst) != 0)
    }

    /// There is room in the lane of this worker, or it was closed.
    pub(crate) fn wake(&self, i: usize) {
        if let Some(bell) = self.workers.get(i) {
            bell.ring();
        }
    }

    /// All lanes were closed.
    pub(crate) fn wake_all(&self) {
        for bell in &self.workers {
            bell.ring();
        }
    }

    /// The standby says that it dozes. It is to look once more, and then to `rest`.
    pub(crate) fn doze(&self) {
        self.standby.doze();
    }

    /// The standby gets up if it found something, or if something was reported; else it sleeps.
    pub(crate) fn rest<R: Wait>(&self, rt: &R, has_found: bool, is_holding: bool) {
        if has_found || self.has_report() {
            self.standby.get_up();
            return;
        }
        let at_most = if is_holding { HOLDING } else { STANDBY };
        self.standby.sleep(rt, Duration::from_micros(at_most));
    }
}
