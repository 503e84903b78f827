//! Segments of the shared log: their names, their bytes as transactions, and where they come from.
//!
//! A segment holds its transactions as lines of JSON, between a start mark and an end mark. `Parsed` is one that
//! was found whole; a `SegmentSource` gives one after another, and a `Cursor` reads the log that they hold.
#![tactic(auto)]

mod cursor;
mod fault;
mod laws;
mod lines;
mod name;
mod parsed;
mod source;

pub use cursor::{Cursor, Next, TakenUp};
pub use fault::{SegmentFault, SourceFault};
pub use laws::{
    a_walk_ends_with_the_log, a_walk_goes_through, joined_lines_are_cut_back,
    memory_gives_in_order, reading_is_the_segment,
};
pub use name::{one_name, parse_name, segment_name};
pub use parsed::{Parsed, allows, is_end, is_start, start_profile};
pub use source::{Item, MemorySource, SegmentSource};
