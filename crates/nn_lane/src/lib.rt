//! A lane: the messages of one DataNode on their way to the standby.
//!
//! A `Reporter` sends, a `LaneEnd` takes and may close, each on a thread of its own; neither waits for the other, and no
//! call except `lane` takes memory. Contracts see each end as a plain record: which lane it is of, what was sent or taken,
//! and what was last seen of the other end.
#![tactic(auto)]

mod ends;
mod fault;
mod laws;
mod message;
mod plays;
mod view;

pub use ends::{LaneEnd, Reporter, lane, meet};
pub use fault::Refusal;
pub use laws::{
    a_lane_is_an_intake, a_run_is_a_list_of_events, an_allowed_step_is_a_move,
    each_step_is_an_event, no_event_but_a_step,
};
pub use message::{Met, Published, Taken};
