//! All messages that wait, lent one after another.
ghost use Rattle.std.specs.Prelude.{◌≡◌};
ghost use Rattle.std.specs.Iterator.{YieldsFirst, item_count};
ghost use Rattle.nn_postponed.specs.Flat.{flat};

use crate::queue::Queue;
use crate::waiting::Waiting;
use nn_sorted::Entries;
use nn_types::{BlockId, Message};
use std::marker::Model;

/// All messages that wait, by ascending block and, for one block, in the order of arrival. It takes no memory, and one pass over
/// all queues.
#[derive(Debug, Drop)]
pub struct Held<'a> {
    // what is left of the queue in hand
    queue: Waiting<'a>,
    // the queues behind it
    queues: Entries<'a, BlockId, Queue>,
}

impl<'a> Model for Held<'a> {
    ghost use Rattle.std.specs.Prelude.{List, ◌++◌};
    ghost use Rattle.nn_types.specs.declared.report.Message.{Message};
    ghost use Rattle.nn_postponed.specs.Flat.{flat};

    ghost Value = { List Message };

    ghost view = { λ h. h.queue ++ flat h.queues };
}

impl<'a> Held<'a> {
    pub(crate) fn new(queues: Entries<'a, BlockId, Queue>) -> Held<'a>
        ensures { result ≡ flat queues.entry }
    {
        Held {
            queue: Waiting::new(&[]),
            queues,
        }
    }
}

impl<'a> Iterator for Held<'a> {
    type Item = Message;

    ghost next_gives = { YieldsFirst (λ s. s) };

    ghost remaining = { item_count (λ s. s) };

    fn next(&mut self) -> Option<Message> {
        'queues: loop {
            if let Some(message) = self.queue.next() {
                return Some(message);
            }
            let (_, queue) = self.queues.next()?;
            self.queue = queue.messages();
        }
    }
}
