//! Why a path is not restored.
ghost use Rattle.std.specs.Prelude.{◌≡◌};
ghost use Rattle.nn_tree.specs.RestoreFault.{number_of};

use nn_types::fault;
use thiserror::Error;

/// Why a path is not restored.
#[derive(Clone, Copy, Debug, PartialEq, Eq, Error)]
pub enum RestoreFault {
    #[error("the path may not stand there")]
    Refused,
    #[error("out of memory")]
    OutOfMemory,
}

impl RestoreFault {
    /// The fault's number.
    pub fn number(self) -> u8
        ensures { result ≡ number_of self }
    {
        match self {
            RestoreFault::Refused => fault::BAD_IMAGE_LINE,
            RestoreFault::OutOfMemory => fault::MEMORY,
        }
    }
}
