//! What the standby's calls mean, as definitions: the namespace, what an edit does to it, the log, and what a
//! standby does with the log and the messages of DataNodes.
//!
//! The definitions are in `specs/` and compute. The types that they name are here, and so do the laws over
//! the definitions, as contracts of functions that do nothing.
#![tactic(auto)]

mod form;
mod history_laws;
mod laws;

pub use form::{BlockRow, FileRow, Form};
pub use history_laws::{
    ends_in_picture, fresh_stands, once_in_sending_order, one_log_one_picture, same_when_whole,
    stands_in_picture,
};
pub use laws::{
    a_log_goes_on, a_log_keeps, a_log_on_the_part, a_log_runs, a_lower_profile_goes_on,
    an_edit_on_the_part, blocks_stay_well_formed, due_stays, equal_look_ups,
    only_touched_become_due, root_alone_is_well_formed, segments_make_a_log, stays_well_formed,
    the_part_is_well_formed, the_rest_goes_along, touched_tells,
};
