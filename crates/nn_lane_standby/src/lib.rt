//! The standby with its lanes: it tails the log of a source of segments, takes the messages of its lanes, and
//! promotes itself.
//!
//! What the sources gave in a call is one list of answers. Contracts speak of every log and all lanes at which the
//! standby stood before, and say that it stands at those with the answers of the call; so the same holds after any list of
//! calls, in whatever order edits and lanes were stepped.
#![tactic(auto)]

mod fault;
mod laws;
mod refused;
mod standby;

pub use fault::{PromoteFault, StepFault};
pub use laws::a_restart_goes_on;
pub use refused::{ImageRefusal, NewFault};
pub use standby::{Active, Choice, Standby, Stepped};
