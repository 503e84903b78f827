//! Why an input was not read.
ghost use Rattle.std.specs.Prelude.{◌≡◌};

use std::alloc::AllocError;
use thiserror::Error;

/// Why an input gave no more lines.
#[derive(Clone, Copy, Debug, PartialEq, Eq, Error)]
pub enum LinesFault {
    #[error("a read failed")]
    ReadFailed,
    #[error("out of memory")]
    OutOfMemory,
}

/// The same of an input that may be only so long.
#[derive(Clone, Copy, Debug, PartialEq, Eq, Error)]
pub enum InputFault {
    #[error("a read failed")]
    ReadFailed,
    #[error("the input is too long")]
    TooLong,
    #[error("out of memory")]
    OutOfMemory,
}

impl From<AllocError> for InputFault {
    ghost use Rattle.nn_input.specs.declared.fault.InputFault.TheVariants.{OutOfMemory};

    ghost from_gives = { λ _ e. e ≡ OutOfMemory };

    fn from(_e: AllocError) -> InputFault {
        InputFault::OutOfMemory
    }
}

impl From<LinesFault> for InputFault {
    ghost use Rattle.nn_input.specs.Fault.{as_input_fault};

    ghost from_gives = { λ f e. e ≡ as_input_fault f };

    fn from(e: LinesFault) -> InputFault {
        match e {
            LinesFault::ReadFailed => InputFault::ReadFailed,
            LinesFault::OutOfMemory => InputFault::OutOfMemory,
        }
    }
}
