//! Why a report is refused.
ghost use Rattle.std.specs.Prelude.{◌≡◌};
ghost use Rattle.nn_lane.specs.Fault.{number_of};

use nn_types::{Message, fault};
use thiserror::Error;

/// Why a message was not sent. It comes back with the number that it would have had, which stays free: the next
/// message that is sent has it.
#[derive(Clone, Copy, Debug, PartialEq, Eq, Error)]
pub enum Refusal {
    /// The other end closed the lane once `accepted` messages were sent.
    #[error("the lane is closed")]
    Closed { message: Message, accepted: u64 },
    #[error("the lane has carried 4611686018427387904 messages")]
    Exhausted { message: Message },
    /// There is no place in the lane: when the reporter looked, `taken` of its messages were taken.
    #[error("the lane is full")]
    Full { message: Message, taken: u64 },
}

impl Refusal {
    /// The fault's number.
    pub fn number(self) -> u8
        ensures { result ≡ number_of self }
    {
        match self {
            Refusal::Closed { .. } => fault::CLOSED,
            Refusal::Exhausted { .. } => fault::EXHAUSTED,
            Refusal::Full { .. } => fault::FULL,
        }
    }
}
