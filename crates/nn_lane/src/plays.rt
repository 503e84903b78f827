//! The rule of a lane's table, and what each kind of step tells. These types are for the proofs alone.
use crate::view::View;
use atomic_table::{Join, Play, Split, TableRule};
use nn_types::Message;

// What holds between any two steps.
pub struct LaneRule;

impl TableRule<Message, View, u16> for LaneRule {
    ghost use Rattle.nn_lane.specs.Lane.{Lane, opening_view};

    ghost holds = { Lane };

    ghost first = { opening_view };
}

// The reporter loads `taken`, and takes the slot of its next message.
pub struct SeeTaken;

impl Play<Message, View> for SeeTaken {
    ghost use Rattle.nn_lane.specs.Lane.{saw_taken};

    ghost then = { saw_taken };
}

// It loads `front`: where the lane is closed, it is told.
pub struct SeeClosed;

impl Play<Message, View> for SeeClosed {
    ghost use Rattle.nn_lane.specs.Lane.{saw_closed};

    ghost then = { saw_closed };
}

// It loads `taken` once more, and gives a slot back that is out.
pub struct GiveBack;

impl Play<Message, View> for GiveBack {
    ghost use Rattle.nn_lane.specs.Lane.{gave_back};

    ghost then = { gave_back };
}

// It compare-exchanges `front`: its message is sent, and it takes the next slot where it remembers a place; or it is told
// of a close.
pub struct Accept;

impl Play<Message, View> for Accept {
    ghost use Rattle.nn_lane.specs.Lane.{accepted};

    ghost then = { accepted };
}

// The other end loads `front`, and takes the slot of the first untaken message.
pub struct SeeFront;

impl Play<Message, View> for SeeFront {
    ghost use Rattle.nn_lane.specs.Lane.{saw_front};

    ghost then = { saw_front };
}

// It stores `taken`, gives the slot back, and takes the next one where it remembers a message there.
pub struct Take;

impl Play<Message, View> for Take {
    ghost use Rattle.nn_lane.specs.Lane.{took};

    ghost then = { took };
}

// It sets the low bit of `front`, and takes the slot of the first untaken message.
pub struct Shut;

impl Play<Message, View> for Shut {
    ghost use Rattle.nn_lane.specs.Lane.{shut};

    ghost then = { shut };
}

// The seat of both loads `front`, once they met.
pub struct Learn;

impl Play<Message, View> for Learn {
    ghost use Rattle.nn_lane.specs.Lane.{learned};

    ghost then = { learned };
}

// The seat of a new lane is parted in two, and the two meet at its end.
pub struct Cut;

impl Split<View> for Cut {
    ghost use Rattle.nn_lane.specs.Lane.{taker_of, reporter_of};

    ghost left = { taker_of };

    ghost right = { reporter_of };
}

impl Join<View> for Cut {
    ghost use Rattle.nn_lane.specs.Lane.{both_of, spent};

    ghost both = { both_of };

    ghost spent = { spent };
}
