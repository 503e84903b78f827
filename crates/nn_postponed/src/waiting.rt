//! The messages about a block, lent in the order of arrival.
ghost use Rattle.std.specs.Prelude.{◌≡◌};
ghost use Rattle.std.specs.Iterator.{YieldsFirst, item_count};
ghost use Rattle.nn_postponed.specs.Places.{present};

use nn_types::Message;
use std::marker::Model;

/// The messages that wait about a block, one after another in the order of arrival. It takes no memory, and one pass
/// over the block's queue in all.
#[derive(Debug, Drop)]
pub struct Waiting<'a> {
    messages: &'a [Option<Message>],
    // The next place to look at.
    at: usize,
}

impl<'a> Model for Waiting<'a> {
    ghost use Rattle.std.specs.Prelude.{◌≤◌, List, drop, length};
    ghost use Rattle.nn_types.specs.declared.report.Message.{Message};
    ghost use Rattle.nn_postponed.specs.Places.{present};

    ghost Value = { List Message };

    ghost view = { λ w. present (drop w.at w.messages.now) };

    ghost invariant = { λ w. w.at ≤ length w.messages.now };
}

impl<'a> Waiting<'a> {
    pub(crate) fn new(messages: &'a [Option<Message>]) -> Waiting<'a>
        ensures { result ≡ present messages.now }
    {
        Waiting { messages, at: 0 }
    }
}

impl<'a> Iterator for Waiting<'a> {
    type Item = Message;

    ghost next_gives = { YieldsFirst (λ s. s) };

    ghost remaining = { item_count (λ s. s) };

    fn next(&mut self) -> Option<Message> {
        while self.at < self.messages.len() {
            let slot = self.messages[self.at];
            self.at += 1;
            if let Some(message) = slot {
                return Some(message);
            }
        }
        None
    }
}
