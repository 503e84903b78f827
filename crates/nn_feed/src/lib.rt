//! A feed: the segments of a source that works on a thread of its own, on their way to whoever applies them.
//!
//! A `Feeder` puts, a `FeedEnd` gets, and gives what it got as a source of segments does. The feed holds at most four
//! answers, so a source reads no further ahead. Each answer carries its place, and nothing follows End or a fault.
#![tactic(auto)]

mod bell;
mod ends;
mod fault;
mod laws;
mod rule;
mod running;
mod send;

pub use bell::Bell;
pub use ends::{FeedEnd, Feeder, feed, meet};
pub use fault::{FeedFault, Refusal};
pub use laws::a_feed_gives_what_its_source_gave;
pub use running::{Delivered, FeederExit, FeederPromise, run_feeder, run_thread};
pub use send::SendFailed;
