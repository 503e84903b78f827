//! A service whose operator holds the log: messages are processed meanwhile, and no transaction is applied.
use crate::serve::{ENDLESS, Until, least_sent, operator_of, served};
use crate::values::Shared;
use nn_drive::{Operator, Request};
use nn_lane_standby::Standby;
use std::alloc::Global;
use std::sync::{Arc, Wait};
use std::thread::Threads;

// How many messages each DataNode sends while the log is held.
const MESSAGES: u64 = 50;

// After so many rotations it is held in vain.
const MOST_ROTATIONS: u64 = 1_000_000;

// Holds the log from its first segment on, while the next one is at hand, until each DataNode has sent more messages. Requests then
// what another operator does.
#[derive(Drop)]
struct Holding {
    until: Until,
    // the last transaction when it began, and how many messages each DataNode had sent
    begun: Option<(u64, u64)>,
    rotations: u64,
    moved: bool,
    ended: bool,
}

impl Operator for Holding {
    ghost use Rattle.std.specs.Prelude.{⊤};

    ghost asks = { λ o x n w p. ⊤ };

    fn ask(&mut self, standby: &Standby, running: usize) -> Request {
        let request = self.until.ask(standby, running);
        let last = standby.shadow().last_txid().get();
        if self.ended || last == 0 {
            return request;
        }
        let sent = least_sent(standby, self.until.nodes);
        let (at, before) = self.begun.unwrap_or((last, sent));
        self.begun = Some((at, before));
        self.rotations = self.rotations.saturating_add(1);
        self.moved = self.moved || last != at;
        self.ended = sent >= before.saturating_add(MESSAGES) || self.rotations >= MOST_ROTATIONS;
        Request::Hold
    }
}

#[test]
fn holds_the_log(rt: HostRuntime) {
    let Some(shared) = Shared::new(rt.alloc()) else {
        assert!(rt; false, "out of memory");
        return;
    };
    let held = outcome(&rt, rt.alloc(), &shared);
    assert_eq!(rt; held, Some((4, false, true)));
}

// The last transaction in the end, whether it moved while the log was held, and whether messages were processed.
fn outcome<R: Threads + Wait + Copy + Send + Drop + 'static>(
    rt: &R,
    alloc: Global,
    shared: &Arc<Shared, Global>,
) -> Option<(u64, bool, bool)> {
    let mut operator = Holding {
        until: operator_of(&ENDLESS, shared)?,
        begun: None,
        rotations: 0,
        moved: false,
        ended: false,
    };
    let last = last_of(rt, alloc, shared, &mut operator)?;
    Some((last, operator.moved, operator.rotations < MOST_ROTATIONS))
}

fn last_of<R: Threads + Wait + Copy + Send + Drop + 'static>(
    rt: &R,
    alloc: Global,
    shared: &Arc<Shared, Global>,
    operator: &mut Holding,
) -> Option<u64> {
    match served(rt, alloc, &ENDLESS, shared, None, operator)? {
        Ok(promoted) => {
            let last = promoted.active.last;
            drop(promoted);
            Some(last)
        }
        Err(unserved) => {
            drop(unserved);
            None
        }
    }
}
