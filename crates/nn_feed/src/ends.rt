//! The two ends of a feed.
ghost use Rattle.std.specs.Prelude.{◌≡◌, ◌+◌, ◌^◌, ◌≤◌, false, length};
ghost use Rattle.std.specs.Option.{is_some};
ghost use Rattle.crossbeam_channel.specs.Claims.{IsSeatAt};
ghost use Rattle.crossbeam_channel.specs.Ends.{sends_on, receives_on};
ghost use Rattle.nn_feed.specs.Feeds.{has_last};
ghost use Rattle.nn_feed.specs.Passes.{put_in, got_in, MayPut, MayGet, ending_in};

use crate::bell::Bell;
use crate::rule::{InOrder, Log, Placed};
use crossbeam_channel::{Pass, RuledReceiver, RuledSender};
use nn_segment::SourceFault;
use std::alloc::Global;
use std::fmt;
use std::sync::atomic::AtomicU64;
use std::sync::{Arc, Wait};

/// The end that puts. The thread of a source has it; while it lives, the other end waits for its next answer.
#[derive(Drop)]
pub struct Feeder {
    pub(crate) sender: RuledSender<Placed, Log, InOrder>,
    pub(crate) pass: Pass<Placed, Log>,
    pub(crate) count: u64,
    pub(crate) ended: bool,
    // Rung behind each answer that was put.
    pub(crate) bell: Arc<Bell, Global>,
    // How many answers were put, for the other end to look at. It is the last field: once it is gone, so is the sender.
    pub(crate) shown: Arc<AtomicU64, Global>,
    ghost seat: { IsSeatAt (sends_on sender) pass },
    ghost role: { MayPut pass },
    ghost counted: { count ≡ length (put_in pass) },
    ghost told: { ended ≡ has_last (put_in pass) },
    ghost bounded: { (ended ≡ false → count ≤ 2 ^ 60) × (count ≤ 2 ^ 60 + 1) },
}

// Without the channel, which both ends share.
impl fmt::Debug for Feeder {
    fn fmt<D: fmt::Write>(&self, f: &mut fmt::Formatter<D>) -> fmt::Result {
        f.debug_struct("Feeder")
            .field("count", &self.count)
            .field("ended", &self.ended)
            .finish_non_exhaustive()
    }
}

// How a source ended.
#[derive(Clone, Copy, Debug)]
pub enum Ending {
    End,
    Fault(SourceFault),
}

/// The end that gets, a source of segments: it gives the answers that were put, in order, and waits for each; behind End
/// it gives End again and again, and behind a fault that fault. Where the other end is gone and nothing is left it fails
/// with `SourceFault::Gone`.
///
/// It counts its failures, and would wait for ever at 2^64 - 1 of them.
#[derive(Drop)]
pub struct FeedEnd<'a, R: Wait> {
    pub(crate) rt: &'a R,
    pub(crate) receiver: RuledReceiver<Placed, Log, InOrder>,
    pub(crate) pass: Pass<Placed, Log>,
    pub(crate) ending: Option<Ending>,
    pub(crate) failures: u64,
    // How many answers were got, and how many the other end shows as put.
    pub(crate) count: u64,
    pub(crate) shown: Arc<AtomicU64, Global>,
    ghost seat: { IsSeatAt (receives_on receiver) pass },
    ghost role: { MayGet pass },
    ghost told: { is_some ending ≡ has_last (got_in pass) },
    ghost last: { ending ≡ ending_in (got_in pass) },
}

// Without the channel, as above.
impl<'a, R: Wait> fmt::Debug for FeedEnd<'a, R> {
    fn fmt<D: fmt::Write>(&self, f: &mut fmt::Formatter<D>) -> fmt::Result {
        f.debug_struct("FeedEnd")
            .field("count", &self.count)
            .field("ending", &self.ending)
            .field("failures", &self.failures)
            .finish_non_exhaustive()
    }
}

mod calls;

pub use calls::{feed, meet};
