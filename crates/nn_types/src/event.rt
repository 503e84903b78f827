//! What a standby did, event by event.
use crate::number::{BlockId, Txid};

/// Why a message was processed.
#[derive(Clone, Copy, Debug, PartialEq, Eq)]
pub enum Cause {
    /// The log had named its generation stamp or retired its block.
    Due,
    /// The standby became active.
    Flush,
}

/// One step of a standby's history.
#[derive(Clone, Copy, Debug, PartialEq, Eq)]
pub enum Event {
    /// The transaction changed the namespace.
    Applied {
        txid: Txid,
    },
    /// The DataNode's message with this number, about this block, changed the replica table.
    Processed {
        dn: u16,
        number: u64,
        block: BlockId,
        cause: Cause,
    },
}
