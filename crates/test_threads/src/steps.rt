//! A standby that is stepped over a long segment.
use crate::drive::laned;
use crate::sources::{Endless, FailsOnce};
use crate::values::{FIRST, directories, report_of};
use nn_lane_standby::{Choice, Standby, Stepped};
use std::alloc::Global;

const TRANSACTIONS: u64 = 25_000;

// Each transaction is applied by a step of its own, and then the log has ended.
#[test]
fn a_long_segment(rt: HostRuntime) {
    assert_eq!(rt; stepped(rt.alloc()), Some((TRANSACTIONS, TRANSACTIONS)));
}

// How many transactions were applied, and the last txid.
fn stepped(alloc: Global) -> Option<(u64, u64)> {
    let mut log = a_log(alloc)?;
    let report = report_of(FIRST, 1001)?;
    let mut nodes = Vec::new(alloc);
    let Ok(()) = nodes.push(Endless { report }) else {
        return None;
    };
    let (_workers, mut standby) = laned(alloc, nodes, 1, None, &[])?;
    let applied = steps_to_the_end(&mut standby, &mut log);
    Some((applied, standby.shadow().last_txid().get()))
}

fn a_log(alloc: Global) -> Option<FailsOnce> {
    let segment = directories(alloc, TRANSACTIONS)?;
    let mut segments = Vec::new(alloc);
    let Ok(()) = segments.push(segment) else {
        return None;
    };
    Some(FailsOnce::new(segments, u64::MAX))
}

// How many transactions were applied before the log's end. 0 where it ended otherwise.
fn steps_to_the_end(standby: &mut Standby, log: &mut FailsOnce) -> u64 {
    for before in 0..u64::MAX {
        match standby.step(log, Choice::Edit) {
            Ok(Stepped::Applied { .. }) => {}
            Ok(Stepped::LogEnded) => return before,
            _ => return 0,
        }
    }
    0
}
