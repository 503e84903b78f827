//! The program's command line: its arguments are read, and what they ask for is done.
#![tactic(auto)]

mod devices;
mod options;
mod program;

pub use devices::start;
pub use options::{Request, parse};
pub use program::{ArgumentsFault, serve};
