//! Replicas, and how they compare with the blocks of the namespace.
ghost use Rattle.std.specs.Prelude.{◌≡◌};
ghost use Rattle.nn_types.specs.Words.{class_text};

use crate::number::{GenerationStamp, Length};
use crate::report::Kind;

/// What a DataNode has of a block, by its last word.
#[derive(Clone, Copy, Debug, PartialEq, Eq)]
pub struct Replica {
    pub stamp: GenerationStamp,
    pub len: Length,
    /// `Receiving` or `Received`: what was deleted is no replica.
    pub kind: Kind,
}

/// What a replica is worth, where a file holds its block.
#[derive(Clone, Copy, Debug, PartialEq, Eq)]
pub enum Class {
    /// Its generation stamp is lower than the block's.
    Stale,
    /// Its generation stamp is higher than the block's.
    Ahead,
    /// It is still being written.
    Building,
    /// It is complete, and as long as the block.
    Live,
    /// It is complete, and not as long as the block.
    WrongLength,
}

impl Class {
    /// The word that listings have for it.
    pub fn word(self) -> &'static str
        ensures { result.now ≡ class_text self }
    {
        match self {
            Class::Live => "live",
            Class::Building => "building",
            Class::Stale => "stale",
            Class::Ahead => "ahead",
            Class::WrongLength => "wronglength",
        }
    }
}
