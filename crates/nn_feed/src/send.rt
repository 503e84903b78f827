//! A send over the channel, and what a failed one leaves.
ghost use Rattle.std.specs.Prelude.{◌≡◌, ◌<◌, ◌^◌, true, false, [], ◌∷◌, ◌++◌, length, IfErr, MatchResult};
ghost use Rattle.crossbeam_channel.specs.Claims.{IsSeatAt, view};
ghost use Rattle.crossbeam_channel.specs.Ends.{sends_on};
ghost use Rattle.nn_feed.specs.Feeds.{has_last, is_last};
ghost use Rattle.nn_feed.specs.Passes.{put_in, MayPut};
ghost use Rattle.nn_feed.specs.Rule.{log};

use crate::rule::{InOrder, Log, Placed, Puts};
use crossbeam_channel::{Pass, RuledSender, SendError};
use std::marker::Model;
use std::sync::Wait;

/// A send that failed, since the other end is gone. Only this module makes one, so whoever has one has tried.
#[derive(Debug, Drop)]
pub struct SendFailed {
    // The place of the answer that was not sent.
    place: u64,
}

impl Model for SendFailed {
    ghost use Rattle.std.specs.Prelude.{ℕ};

    ghost Value = { ℕ };

    ghost view = { λ s. s.place };
}

// Sends one message, and waits while the channel is full. Where the other end is gone the message comes back.
pub(crate) fn send<R: Wait>(
    rt: &R,
    sender: &RuledSender<Placed, Log, InOrder>,
    pass: &mut Pass<Placed, Log>,
    message: Placed,
) -> Result<(), (Placed, SendFailed)>
    requires channel { IsSeatAt (sends_on sender.now) pass.old }
    requires role { MayPut pass.old }
    requires place { message.place ≡ length (put_in pass.old) }
    requires unended { has_last (put_in pass.old) ≡ false }
    requires few { is_last message.answer ≡ false → message.place < 2 ^ 60 }
    ensures channel { IsSeatAt (sends_on sender.now) pass.new }
    ensures rule { MatchResult result
        (λ _. view pass.new ≡ log true false (put_in pass.old ++ message ∷ []) [])
        (λ e. (e.0 ≡ message) × (view pass.new ≡ view pass.old)) }
    ensures failed { IfErr result (λ e. e.1 ≡ message.place) }
{
    let place = message.place;
    match sender.send_as::<Puts, R>(rt, pass, message) {
        Ok(()) => Ok(()),
        Err(SendError::Disconnected(back)) => Err((back, SendFailed { place })),
        Err(SendError::OutOfMemory(_)) => unreachable!(),
    }
}
