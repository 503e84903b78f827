//! Why bytes are no segment, and why a source gave none.
ghost use Rattle.std.specs.Prelude.{◌≡◌};
ghost use Rattle.nn_segment.specs.Fault.{number_of, number_of_source};

use nn_edits::LineFault;
use nn_types::fault;
use std::alloc::{AllocError, AllocFailed};
use thiserror::Error;

/// The first fault of a segment. Lines count from 1. The definitions never give `OutOfMemory`: it is a call's
/// alone.
#[derive(Clone, Copy, Debug, PartialEq, Eq, Error)]
pub enum SegmentFault {
    #[error("not the name of a segment")]
    BadName,
    #[error("longer than 16777216 bytes")]
    TooLong,
    #[error("no start mark")]
    NoStart,
    #[error("line {line} has no line feed")]
    TornLine { line: u64 },
    #[error("line {line} is no transaction: {fault}")]
    BadLine { line: u64, fault: LineFault },
    /// The number that the next transaction has to have. It may be 9223372036854775808, which no transaction has.
    #[error("transaction {expected} is missing")]
    Gap { expected: u64 },
    #[error("line {line} is an append, in a segment of profile 1")]
    WrongProfile { line: u64 },
    #[error("no end mark, or a mark inside")]
    NoEnd,
    #[error("named for other transactions")]
    NameMismatch,
    #[error("out of memory")]
    OutOfMemory,
}

impl SegmentFault {
    /// The fault's number.
    pub fn number(self) -> u8
        ensures { result ≡ number_of self }
    {
        match self {
            SegmentFault::BadName => fault::BAD_NAME,
            SegmentFault::TooLong => fault::TOO_LONG,
            SegmentFault::NoStart => fault::NO_START,
            SegmentFault::TornLine { .. } => fault::TORN_LINE,
            SegmentFault::BadLine { .. } => fault::BAD_LINE,
            SegmentFault::Gap { .. } => fault::GAP,
            SegmentFault::WrongProfile { .. } => fault::WRONG_PROFILE,
            SegmentFault::NoEnd => fault::NO_END,
            SegmentFault::NameMismatch => fault::NAME_MISMATCH,
            SegmentFault::OutOfMemory => fault::MEMORY,
        }
    }
}

impl From<AllocError> for SegmentFault {
    ghost use Rattle.nn_segment.specs.declared.fault.SegmentFault.TheVariants.{OutOfMemory};

    ghost from_gives = { λ _ e. e ≡ OutOfMemory };

    fn from(_e: AllocError) -> SegmentFault {
        SegmentFault::OutOfMemory
    }
}

impl<T: Drop> From<AllocFailed<T>> for SegmentFault {
    ghost use Rattle.nn_segment.specs.declared.fault.SegmentFault.TheVariants.{OutOfMemory};

    ghost from_gives = { λ _ e. e ≡ OutOfMemory };

    fn from(_e: AllocFailed<T>) -> SegmentFault {
        SegmentFault::OutOfMemory
    }
}

/// Why a source gave neither a segment nor its end.
#[derive(Clone, Copy, Debug, PartialEq, Eq, Error)]
pub enum SourceFault {
    #[error("whoever gave segments is gone")]
    Gone,
    #[error("the source failed")]
    SourceFailed,
    #[error("out of memory")]
    OutOfMemory,
}

impl SourceFault {
    /// The fault's number.
    pub fn number(self) -> u8
        ensures { result ≡ number_of_source self }
    {
        match self {
            SourceFault::Gone => fault::GONE,
            SourceFault::SourceFailed => fault::SOURCE_FAILED,
            SourceFault::OutOfMemory => fault::MEMORY,
        }
    }
}
