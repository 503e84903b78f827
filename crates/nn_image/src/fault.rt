//! Why an image is not loaded, saved or rewritten.
ghost use Rattle.std.specs.Prelude.{◌≡◌};
ghost use Rattle.nn_image.specs.Fault.{number_of, save_number_of, rewrite_number_of};

use nn_input::LinesFault;
use nn_types::fault;
use std::alloc::{AllocError, AllocFailed};
use thiserror::Error;

/// Why an image was not loaded. Lines count from 1.
#[derive(Clone, Copy, Debug, PartialEq, Eq, Error)]
pub enum ImageFault {
    #[error("the first line is no header")]
    NotHeader,
    #[error("line {0} is bad")]
    BadLine(u64),
    #[error("line {0} is out of order")]
    WrongOrder(u64),
    #[error("the number of paths is wrong")]
    CountMismatch,
    #[error("the image ends too early")]
    Truncated,
    #[error("the version is unknown")]
    BadVersion,
    #[error("a read failed")]
    ReadFault,
    #[error("out of memory")]
    OutOfMemory,
}

impl ImageFault {
    /// The fault's number.
    pub fn number(self) -> u8
        ensures { result ≡ number_of self }
    {
        match self {
            ImageFault::NotHeader => fault::NOT_HEADER,
            ImageFault::BadLine(_) => fault::BAD_IMAGE_LINE,
            ImageFault::WrongOrder(_) => fault::WRONG_ORDER,
            ImageFault::CountMismatch => fault::COUNT_MISMATCH,
            ImageFault::Truncated => fault::TRUNCATED,
            ImageFault::BadVersion => fault::BAD_VERSION,
            ImageFault::ReadFault => fault::READ_FAULT,
            ImageFault::OutOfMemory => fault::MEMORY,
        }
    }
}

impl From<AllocError> for ImageFault {
    ghost use Rattle.nn_image.specs.declared.fault.ImageFault.TheVariants.{OutOfMemory};

    ghost from_gives = { λ _ e. e ≡ OutOfMemory };

    fn from(_e: AllocError) -> ImageFault {
        ImageFault::OutOfMemory
    }
}

impl<T: Drop> From<AllocFailed<T>> for ImageFault {
    ghost use Rattle.nn_image.specs.declared.fault.ImageFault.TheVariants.{OutOfMemory};

    ghost from_gives = { λ _ e. e ≡ OutOfMemory };

    fn from(_e: AllocFailed<T>) -> ImageFault {
        ImageFault::OutOfMemory
    }
}

impl From<LinesFault> for ImageFault {
    ghost use Rattle.nn_image.specs.Outcome.{as_image_fault};

    ghost from_gives = { λ fault e. e ≡ as_image_fault fault };

    fn from(fault: LinesFault) -> ImageFault {
        match fault {
            LinesFault::ReadFailed => ImageFault::ReadFault,
            LinesFault::OutOfMemory => ImageFault::OutOfMemory,
        }
    }
}

/// Why an image was not saved. The writer got a prefix of it; of `save` none of it where memory was refused.
#[derive(Clone, Copy, Debug, PartialEq, Eq, Error)]
pub enum SaveFault {
    #[error("a write failed after {written} bytes")]
    WriteFault { written: u64 },
    #[error("out of memory")]
    OutOfMemory,
}

impl SaveFault {
    /// The fault's number.
    pub fn number(self) -> u8
        ensures { result ≡ save_number_of self }
    {
        match self {
            SaveFault::WriteFault { .. } => fault::WRITE_FAULT,
            SaveFault::OutOfMemory => fault::MEMORY,
        }
    }
}

/// Why an image was not rewritten.
#[derive(Clone, Copy, Debug, PartialEq, Eq, Error)]
pub enum RewriteFault {
    /// It was not loaded. The writer got nothing.
    #[error("{0}")]
    Load(ImageFault),
    /// It was loaded and not saved. The writer got a prefix of the image: none of it where memory was refused.
    #[error("{0}")]
    Save(SaveFault),
}

impl RewriteFault {
    /// The fault's number.
    pub fn number(self) -> u8
        ensures { result ≡ rewrite_number_of self }
    {
        match self {
            RewriteFault::Load(fault) => fault.number(),
            RewriteFault::Save(fault) => fault.number(),
        }
    }
}
