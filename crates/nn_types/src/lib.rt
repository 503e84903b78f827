//! What every crate of the standby speaks of: numbers, paths, blocks, edits, reports and events.
//!
//! Each type is seen by contracts as plain data: a number as a natural number below 2^63, a path as its
//! list of names, a list of blocks as a list.
#![tactic(auto)]

mod block;
mod edit;
mod edit_fault;
mod event;
pub mod fault;
pub mod limits;
mod names;
mod number;
mod path;
mod profile;
mod replica;
mod report;
mod settings;
mod simple;
mod status;
mod tx;

pub use block::{Block, Blocks};
pub use edit::Edit;
pub use edit_fault::EditFault;
pub use event::{Cause, Event};
pub use names::Names;
pub use number::{BlockId, GenerationStamp, Length, Replication, Txid};
pub use path::{Path, PathFault, one_spelling};
pub use profile::Profile;
pub use replica::{Class, Replica};
pub use report::{Kind, Message, Report};
pub use settings::Settings;
pub use status::{Status, due};
pub use tx::Tx;
