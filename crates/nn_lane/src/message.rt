//! What becomes of a prepared message, what is taken of a lane, and what its two ends come to when they meet.
use crate::fault::Refusal;
use nn_types::Message;

/// What became of the message that was prepared.
#[derive(Clone, Copy, Debug, PartialEq, Eq)]
pub enum Published {
    /// None was.
    Nothing,
    /// It was sent, and this is its number: messages are counted from 1.
    Sent(u64),
    Refused(Refusal),
}

/// What was taken of a lane.
#[derive(Clone, Copy, Debug, PartialEq, Eq)]
pub enum Taken {
    Message(Message),
    /// Nothing was there to take: all `accepted` messages were taken before.
    Empty { accepted: u64 },
}

/// How many messages a lane accepted, and how many of them were taken.
#[derive(Clone, Copy, Debug, PartialEq, Eq)]
pub struct Met {
    pub accepted: u64,
    pub taken: u64,
}
