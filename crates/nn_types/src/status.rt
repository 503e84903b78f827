//! What the log has said of a block id, and when a message about it is due.
ghost use Rattle.std.specs.Prelude.{◌≡◌};
ghost use Rattle.nn_types.specs.Due.{is_due};

use crate::number::GenerationStamp;

/// What the log has said of a block id so far.
#[derive(Clone, Copy, Debug, PartialEq, Eq)]
pub enum Status {
    /// Not issued yet.
    Unnamed,
    /// Issued, and not yet added to a file.
    Awaiting,
    /// A file holds the block with this generation stamp.
    Named(GenerationStamp),
    /// Issued once, and no file's any more; or skipped by the issue of a higher id.
    Retired,
}

/// Whether a message with this generation stamp is due, where this is the status of its block.
pub fn due(status: Status, stamp: GenerationStamp) -> bool
    ensures { result ≡ is_due status stamp }
{
    match status {
        Status::Named(named) => named >= stamp,
        Status::Retired => true,
        Status::Unnamed | Status::Awaiting => false,
    }
}
