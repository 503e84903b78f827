//! The loop that feeds, and the thread that it runs on.
use crate::ends::Feeder;
use crate::fault::Refusal;
use nn_segment::SourceFault;
use std::fmt;
use std::snapshot::Snapshot;

/// What the thread of a feeder gives back: its source, and the feeder, where the other end is told of the source's last
/// answer; or why that answer was not put. Then the feeder is gone: one that was kept up to the join would leave the other
/// end waiting for ever.
#[derive(Debug, Drop)]
pub struct FeederExit<S> {
    pub source: S,
    pub outcome: Result<Delivered, Refusal>,
}

/// A feeder that put its source's last answer: after so many segments its End, or its fault.
#[derive(Debug, Drop)]
pub struct Delivered {
    pub feeder: Feeder,
    pub end: Result<u64, SourceFault>,
}

/// The promise of a feeder's thread: the source and the feeder that it began with.
#[derive(Drop)]
pub struct FeederPromise<S>(pub Snapshot<S>, pub Snapshot<Feeder>);

// What it remembers is there for proofs alone.
impl<S> fmt::Debug for FeederPromise<S> {
    fn fmt<D: fmt::Write>(&self, f: &mut fmt::Formatter<D>) -> fmt::Result {
        f.debug_struct("FeederPromise").finish_non_exhaustive()
    }
}

mod calls;

pub use calls::{run_feeder, run_thread};
