//! The lines of an input. One place keeps what was read: it cuts the next line off, and reads on where no line ends there. So who
//! takes an input asks for its lines, one after another, and keeps no bytes of it.
#![tactic(auto)]

mod fault;
mod lines;
mod torn;

pub use fault::{InputFault, LinesFault};
pub use lines::{Lines, Place};
pub use torn::TornBytes;
