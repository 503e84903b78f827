//! What a standby holds, as text: its history, its namespace, its replicas and orders, and its counts.
//!
//! The listing has a line for each path, in path order; the tables have a line for each replica and each order, by
//! ascending block id and then by DataNode, and one line of counts. Both are made ready first, which takes all the memory
//! that they want, and then put on a page, which is refused none.
#![tactic(auto)]

mod fields;
mod history;
mod parts;
mod paths;
mod safety;
mod summary;
mod tables;

pub use fields::put_field;
pub use history::put_history;
pub use paths::{ReadyListing, put_row, write_listing};
pub use safety::{ReadyUnsafe, put_unsafe_rows};
pub use summary::{put_count, put_summary};
pub use tables::{ReadyTables, put_block_replicas, put_counts, put_order};
