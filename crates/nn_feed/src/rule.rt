//! The rule of the channel: what was got and then what lies in it is what was put, each answer at its place, and nothing
//! after End or a fault. One pass puts and one gets.
use crossbeam_channel::protocol::{Join, Lesson, Outcome, Protocol, Split};
use nn_segment::{Item, SourceFault};
use std::collections::LinkedList;

/// An answer of a source, with the number of answers before it.
#[derive(Drop)]
pub struct Placed {
    pub answer: Result<Item, SourceFault>,
    pub place: u64,
}

// What a pass may do, what it has put and what it has got. No value of it is made.
pub struct Log {
    pub puts: bool,
    pub gets: bool,
    pub put: LinkedList<Placed>,
    pub got: LinkedList<Placed>,
}

// The rule itself.
pub struct InOrder;

impl Protocol<Placed, Log> for InOrder {
    ghost use Rattle.std.specs.Prelude.{true, []};
    ghost use Rattle.nn_feed.specs.Rule.{log, IsFed};

    ghost holds = { IsFed };

    ghost first = { log true true [] [] };
}

// One pass is cut into two: the one puts, the other gets; and the two are joined again.
pub struct Roles;

impl Split<Log> for Roles {
    ghost use Rattle.std.specs.Prelude.{true, false, []};
    ghost use Rattle.nn_feed.specs.Rule.{log};

    ghost left = { λ v. log true false v.put [] };

    ghost right = { λ v. log false true [] v.got };
}

impl Join<Log> for Roles {
    ghost use Rattle.std.specs.Prelude.{true, false, []};
    ghost use Rattle.nn_feed.specs.Rule.{log};

    ghost both = { λ v w. log true true v.put w.got };

    ghost spent = { log false false [] [] };
}

// A send: what was put grew by the answer.
pub struct Puts;

impl Outcome<Placed, Log> for Puts {
    ghost use Rattle.std.specs.Prelude.{◌≡◌, true, false, [], ◌∷◌, ◌++◌};
    ghost use Rattle.nn_feed.specs.Rule.{log};

    ghost then = { λ v x w. w ≡ log true false (v.put ++ x ∷ []) [] };
}

impl Lesson<Placed, Log> for Puts {
    ghost fact = { λ v items. Unit {0} };
}

// A receive: what was got grew by the answer, and is what a feed may carry.
pub struct Gets;

impl Outcome<Placed, Log> for Gets {
    ghost use Rattle.std.specs.Prelude.{◌≡◌, true, false, [], ◌∷◌, ◌++◌};
    ghost use Rattle.nn_feed.specs.Feeds.{IsFeed};
    ghost use Rattle.nn_feed.specs.Rule.{log};

    ghost then = { λ v x w. (w ≡ log false true [] (v.got ++ x ∷ [])) × IsFeed 0 (v.got ++ x ∷ []) };
}

impl Lesson<Placed, Log> for Gets {
    ghost fact = { λ v items. Unit {0} };
}

// What both passes show together.
pub struct Whole;

impl Lesson<Placed, Log> for Whole {
    ghost use Rattle.std.specs.Prelude.{◌≡◌, ◌++◌};
    ghost use Rattle.nn_feed.specs.Feeds.{IsFeed};

    ghost fact = { λ v items. (v.put ≡ v.got ++ items) × IsFeed 0 v.put };
}
