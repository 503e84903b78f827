//! Transactions of the log.
use crate::edit::Edit;
use crate::number::Txid;

/// One transaction of the log.
#[derive(Debug, Drop)]
pub struct Tx {
    pub txid: Txid,
    pub edit: Edit,
}
