//! A standby in service for any caller: what it writes for the lines that come to it.
//!
//! Data is JSON, and talk is words. An edit is kept until the end mark of its segment, which is then followed whole; a report
//! is handed at once; a word is answered at once, and its answer ends with `done L`. Silence means taken: what is not taken is
//! told by one line.
//!
//! The definition is in `specs/Live`, with the texts of the answers in `Answers`; its laws are functions that do nothing.
//! `Word::read` reads what a line asks for. A `Service` takes lines, each when it has ended, and what is left at the end of the
//! input: it does and tells just what the definition says. A `Live` is a service that takes the input as it comes, in chunks.
//! `run_live` serves a reader's bytes to their end, behind an image where one is asked for.
#![tactic(auto)]

mod full;
mod in_hand;
mod laws;
mod live;
mod one_block;
mod run;
mod served;
mod service;
mod texts;
mod word;

pub use laws::{
    a_history_tells_all, a_mistyped_word_changes_nothing, a_promotion_gives_up_no_edit,
    a_promotion_is_in_no_lower_epoch, a_promotion_shows_the_picture, a_segment_may_be_sent_twice,
    a_service_answers_as_a_run, a_service_follows_what_came, a_service_stands_at_its_log,
    an_input_may_be_cut, block_tells_the_path, each_report_is_taken_or_told, no_segment_in_silence,
    nothing_else_is_sent,
};
pub use live::Live;
pub use run::{LiveOptions, run_live};
pub use service::{Service, ServiceFault};
pub use word::Word;
