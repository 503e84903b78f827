//! Numbers from 0 to 9223372036854775807, which is 2^63 - 1: the range of every number of the log and of
//! every report. A type of its own for each role keeps a length from being passed for a block id.
ghost use Rattle.std.specs.Prelude.{◌≡◌, ◌^◌, nat_lt};

mod block_id;
mod generation_stamp;
mod length;
mod replication;
mod txid;

pub use block_id::BlockId;
pub use generation_stamp::GenerationStamp;
pub use length::Length;
pub use replication::Replication;
pub use txid::Txid;

const LIMIT: u64 = 0x8000_0000_0000_0000;

// Whether a value is one of these numbers.
fn in_range(value: u64) -> bool
    ensures { result ≡ nat_lt value (2 ^ 63) }
{
    value < LIMIT
}
