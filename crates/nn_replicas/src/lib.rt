//! The replica table: which DataNode has a replica of which block, which DataNodes are ordered to delete what they
//! have, and the counts that decide on safe mode.
#![tactic(auto)]

mod classes;
mod entry;
mod figures;
mod laws;
mod orders_of;
mod replicas_of;
mod rows;
mod safe_mode;
mod slot;
mod table;
mod unsafe_blocks;

pub use classes::class;
pub use entry::Cell;
pub use figures::Figures;
pub use laws::{counts_are_the_namespaces, each_call_changes, tables_are_in_order};
pub use nn_model::BlockRow;
pub use orders_of::OrdersOf;
pub use replicas_of::ReplicasOf;
pub use rows::Rows;
pub use safe_mode::SafeMode;
pub use table::Replicas;
pub use unsafe_blocks::UnsafeBlocks;
