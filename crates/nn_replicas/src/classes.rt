//! The class of a replica.
ghost use Rattle.std.specs.Prelude.{◌≡◌};
ghost use Rattle.nn_model.specs.Counts.{class_of};

use nn_types::{Block, Class, Kind, Replica};

/// What a replica is worth where a file holds its block. The generation stamp decides first, so a replica that is
/// still being written is `Stale` too, once the log names a higher stamp.
pub fn class(replica: Replica, block: Block) -> Class
    ensures { result ≡ class_of replica block }
{
    if replica.stamp < block.stamp {
        return Class::Stale;
    }
    if block.stamp < replica.stamp {
        return Class::Ahead;
    }
    if replica.kind != Kind::Received {
        return Class::Building;
    }
    if replica.len == block.len {
        Class::Live
    } else {
        Class::WrongLength
    }
}
