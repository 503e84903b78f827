//! Why an edit is refused.
ghost use Rattle.std.specs.Prelude.{◌≡◌};
ghost use Rattle.nn_types.specs.EditFault.{number_of};

use crate::fault;
use std::alloc::{AllocError, AllocFailed};
use thiserror::Error;

/// Why an edit is not applied. The definitions never give `OutOfMemory`: it is a call's alone.
#[derive(Clone, Copy, Debug, PartialEq, Eq, Error)]
pub enum EditFault {
    #[error("the path exists")]
    Exists,
    #[error("the path or a parent of it is missing")]
    Missing,
    #[error("a parent of the path is a file")]
    NotDirectory,
    #[error("the path is a directory")]
    NotFile,
    #[error("the path is the root")]
    IsRoot,
    #[error("the path would lie below itself")]
    IntoItself,
    #[error("the file is closed")]
    NotOpen,
    #[error("the blocks are not those of the file")]
    WrongBlocks,
    #[error("a generation stamp is out of range")]
    BadGeneration,
    #[error("the block id does not await, or was issued before")]
    BadBlockId,
    #[error("the replication is not 1 to 512")]
    BadReplication,
    #[error("the file is open")]
    NotClosed,
    #[error("the profile is lower than that of an earlier segment")]
    LowerProfile,
    #[error("out of memory")]
    OutOfMemory,
}

impl EditFault {
    /// The fault's number.
    pub fn number(self) -> u8
        ensures { result ≡ number_of self }
    {
        match self {
            EditFault::Exists => fault::EXISTS,
            EditFault::Missing => fault::MISSING,
            EditFault::NotDirectory => fault::NOT_DIRECTORY,
            EditFault::NotFile => fault::NOT_FILE,
            EditFault::IsRoot => fault::IS_ROOT,
            EditFault::IntoItself => fault::INTO_ITSELF,
            EditFault::NotOpen => fault::NOT_OPEN,
            EditFault::WrongBlocks => fault::WRONG_BLOCKS,
            EditFault::BadGeneration => fault::BAD_GENERATION,
            EditFault::BadBlockId => fault::BAD_BLOCK_ID,
            EditFault::BadReplication => fault::BAD_REPLICATION,
            EditFault::NotClosed => fault::NOT_CLOSED,
            EditFault::LowerProfile => fault::LOWER_PROFILE,
            EditFault::OutOfMemory => fault::MEMORY,
        }
    }
}

impl From<AllocError> for EditFault {
    ghost use Rattle.nn_types.specs.declared.edit_fault.EditFault.TheVariants.{OutOfMemory};

    ghost from_gives = { λ _ e. e ≡ OutOfMemory };

    fn from(_e: AllocError) -> EditFault {
        EditFault::OutOfMemory
    }
}

impl<T: Drop> From<AllocFailed<T>> for EditFault {
    ghost use Rattle.nn_types.specs.declared.edit_fault.EditFault.TheVariants.{OutOfMemory};

    ghost from_gives = { λ _ e. e ≡ OutOfMemory };

    fn from(_e: AllocFailed<T>) -> EditFault {
        EditFault::OutOfMemory
    }
}
