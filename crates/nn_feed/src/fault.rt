//! Why an answer was not put, and why a feeder ended before End.
ghost use Rattle.std.specs.Prelude.{◌≡◌};
ghost use Rattle.nn_feed.specs.Fault.{number_of, number_of_fault};

use crate::send::SendFailed;
use nn_segment::{Item, SourceFault};
use nn_types::fault;

/// Why an answer of a source, an item or its fault, was not put. It comes back.
#[derive(Debug, Drop)]
pub enum Refusal {
    /// End or a fault was put before, or the answer is a segment and 2^60 were put before.
    Ended {
        answer: Result<Item, SourceFault>,
    },
    /// The other end is gone: the send failed.
    Gone {
        answer: Result<Item, SourceFault>,
        failed: SendFailed,
    },
}

impl Refusal {
    /// The fault's number.
    pub fn number(&self) -> u8
        ensures { result ≡ number_of self.now }
    {
        match self {
            Refusal::Ended { .. } => fault::ENDED,
            Refusal::Gone { .. } => fault::GONE,
        }
    }
}

/// Why a feeder ended before it had put End. It makes up neither fault: the one is the last answer of its source, the other
/// that of its last try to put an item.
#[derive(Debug, Drop)]
pub enum FeedFault {
    /// The source's fault.
    Source(SourceFault),
    /// The item that the source gave last was not put.
    Refused(Refusal),
}

impl FeedFault {
    /// The fault's number.
    pub fn number(&self) -> u8
        ensures { result ≡ number_of_fault self.now }
    {
        match self {
            FeedFault::Source(fault) => fault.number(),
            FeedFault::Refused(refusal) => refusal.number(),
        }
    }
}
