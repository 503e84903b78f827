//! The steps of a scenario, kept small: most are edits, which say nothing.
ghost use Rattle.std.specs.Prelude.{◌≡◌, ◌<◌, ◌^◌, ◌++◌, ◌∷◌, ◌==◌, [], length, OnOk, OnErr};
ghost use Rattle.std.specs.Iterator.{YieldsFirst, item_count};

use crate::steps::Step;
use nn_types::Message;
use std::alloc::{AllocError, Global};
use std::marker::Model;
use std::vec::IntoIter;

/// Steps in order. An edit takes a byte, a message a byte more than itself.
#[derive(Debug, Drop)]
pub struct StepList {
    // of each step whether it is a message
    kinds: Vec<bool>,
    // the messages among the steps
    messages: Vec<Message>,
}

impl Model for StepList {
    ghost use Rattle.std.specs.Prelude.{List};
    ghost use Rattle.nn_scenario.specs.StepList.{told, AreTold};
    ghost use Rattle.nn_scenario.specs.declared.steps.Step.{Step};

    ghost Value = { List Step };

    ghost view = { λ s. told s.kinds.items s.messages.items };

    ghost invariant = { λ s. AreTold s.kinds.items s.messages.items };
}

impl StepList {
    /// No steps. Takes no memory.
    pub fn new(alloc: Global) -> StepList
        ensures { result ≡ [] }
    {
        StepList {
            kinds: Vec::new(alloc),
            messages: Vec::new(alloc),
        }
    }

    /// How many steps there are.
    pub fn len(&self) -> usize
        ensures value { result ≡ length self.now }
        ensures bound { length self.now < 2 ^ 63 }
    {
        self.kinds.len()
    }

    /// Whether there are none.
    pub fn is_empty(&self) -> bool
        ensures { result ≡ (length self.now == 0) }
    {
        self.len() == 0
    }

    /// Adds an edit. Where memory is refused the steps stay.
    pub fn push_edit(&mut self) -> Result<(), AllocError>
        ensures ok { OnOk result (self.new ≡ self.old ++ Step.Edit ∷ []) }
        ensures left { OnErr result (self.new ≡ self.old) }
    {
        self.kinds.push(false)?;
        Ok(())
    }

    /// Adds a message. Where memory is refused the steps stay.
    pub fn push_message(&mut self, message: Message) -> Result<(), AllocError>
        ensures ok { OnOk result (self.new ≡ self.old ++ Step.Message message ∷ []) }
        ensures left { OnErr result (self.new ≡ self.old) }
    {
        self.messages.push(message)?;
        if let Err(_) = self.kinds.push(true) {
            self.messages.pop();
            return Err(AllocError);
        }
        Ok(())
    }

    /// The steps, to be taken one after another.
    pub fn into_steps(self) -> StepsLeft
        ensures { result ≡ self }
    {
        let StepList { kinds, messages } = self;
        StepsLeft {
            kinds: kinds.into_iter(),
            messages: messages.into_iter(),
        }
    }
}

/// The steps of a list that were not taken yet.
#[derive(Debug, Drop)]
pub struct StepsLeft {
    kinds: IntoIter<bool>,
    messages: IntoIter<Message>,
}

impl Model for StepsLeft {
    ghost use Rattle.std.specs.Prelude.{List};
    ghost use Rattle.std.specs.Vec.Iter.{into_iter_items};
    ghost use Rattle.nn_scenario.specs.StepList.{told, AreTold};
    ghost use Rattle.nn_scenario.specs.declared.steps.Step.{Step};

    ghost Value = { List Step };

    ghost view = { λ s. told (into_iter_items s.kinds) (into_iter_items s.messages) };

    ghost invariant = { λ s. AreTold (into_iter_items s.kinds) (into_iter_items s.messages) };
}

impl Iterator for StepsLeft {
    type Item = Step;

    ghost next_gives = { YieldsFirst (λ s. s) };

    ghost remaining = { item_count (λ s. s) };

    fn next(&mut self) -> Option<Step> {
        let Some(is_message) = self.kinds.next() else {
            return None;
        };
        if !is_message {
            return Some(Step::Edit);
        }
        match self.messages.next() {
            Some(message) => Some(Step::Message(message)),
            // Each step that is a message has its message.
            None => unreachable!(),
        }
    }
}
