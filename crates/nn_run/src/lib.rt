//! A standby's run over a scenario: its bytes are read, its log is followed and its messages are taken in, and the
//! tables that come of it are written.
#![tactic(auto)]

mod engine;
mod errors;
mod failure;
mod follower;
mod following;
mod gate;
mod law;
mod one_thread;
mod output;
mod parts;
mod ready;
mod segments;
mod start;
mod threads;

pub use engine::{Options, run};
pub use failure::{RunFailure, put_image_fault, unread_line};
pub use follower::LogFault;
pub use gate::{Gate, Open};
pub use law::a_checkpoint_prints_the_same;
pub use nn_input::InputFault;
pub use output::{RunEnd, RunFault};
pub use threads::{ThreadOptions, run_threads};
