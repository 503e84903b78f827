//! What the two seats at a lane's table show. No value of these types is made: they are for the proofs alone.
use nn_types::Message;
use std::collections::LinkedList;

/// What the reporter's seat shows: the lane's DataNode, all that was sent, how many messages were taken when it last
/// looked, how often it looked, how often it looked whether the lane is closed, whether the slot of the next message is out
/// with it, and whether it was told of a close.
pub struct Sender {
    pub node: u16,
    pub sent: LinkedList<Message>,
    pub seen: u64,
    pub loads: u64,
    pub checks: u64,
    pub out: bool,
    pub told: bool,
}

/// What the other end's seat shows: the lane's DataNode, all that was taken, how many messages were accepted when it last
/// looked, how often it looked, the message whose slot is out with it, and whether it closed the lane.
pub struct Taker {
    pub node: u16,
    pub got: LinkedList<Message>,
    pub seen: u64,
    pub loads: u64,
    pub next: Option<Message>,
    pub closed: bool,
}

/// What a seat shows: its own side, or both, once before the two are parted and once after they met.
pub struct View {
    pub sends: bool,
    pub takes: bool,
    pub met: bool,
    pub sender: Sender,
    pub taker: Taker,
}
