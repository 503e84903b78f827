//! The two ends of a lane: every message comes once, in order, however few places there are, and however many; and lanes that
//! are closed under reporters that never end by themselves.
ghost use Rattle.std.specs.Prelude.{◌≡◌, ◌≤◌, IfSome};

use crate::sources::Endless;
use crate::values::{FIRST, TURNS, report_of};
use nn_drive::report_all;
use nn_lane::{LaneEnd, Met, Refusal, Reporter, Taken, lane, meet};
use nn_types::{BlockId, Report};
use std::alloc::Global;
use std::sync::Wait;
use std::thread;
use std::thread::{Threads, join};

const MESSAGES: u64 = 50_000;

fn send(reporter: &mut Reporter, report: &Report) -> Result<u64, Refusal>
    ensures { reporter.new.lane ≡ reporter.old.lane }
{
    reporter.report(report.block, report.stamp, report.len, report.kind)
}

// ---- Each message once, in order.

// Whether the report was sent, in the end.
fn sends_soon(reporter: &mut Reporter, report: &Report) -> bool {
    for _ in 0..TURNS {
        if send(reporter, report).is_ok() {
            return true;
        }
        thread::yield_now();
    }
    false
}

// One report of each block.
fn sends_all(mut reporter: Reporter, report: &Report) -> bool {
    for block in FIRST..FIRST + MESSAGES {
        let Some(block) = BlockId::new(block) else {
            return false;
        };
        if !sends_soon(&mut reporter, &Report { block, ..*report }) {
            return false;
        }
    }
    true
}

// Whether the next message, in the end, is the one of this block with this number.
fn takes_soon(end: &mut LaneEnd, number: u64, block: u64) -> bool {
    for _ in 0..TURNS {
        if let Taken::Message(message) = end.take() {
            return message.number == number && message.block.get() == block;
        }
        thread::yield_now();
    }
    false
}

fn takes_all(mut end: LaneEnd) -> bool {
    for before in 0..MESSAGES {
        if !takes_soon(&mut end, before + 1, FIRST + before) {
            return false;
        }
    }
    end.close() == MESSAGES
}

fn beside(rt: &impl Threads, alloc: Global, capacity: usize) -> Option<(bool, bool)>
    requires { (1 ≤ capacity) × (capacity ≤ 1024) }
{
    let report = report_of(FIRST, 1001)?;
    let Ok((reporter, end)) = lane(alloc, 1, capacity) else {
        return None;
    };
    Some(join(rt, || sends_all(reporter, &report), || takes_all(end)))
}

// With one place, and with as many as there can be.
#[test]
fn ends_beside_each_other(rt: HostRuntime) {
    assert_eq!(rt; beside(&rt, rt.alloc(), 1), Some((true, true)));
    assert_eq!(rt; beside(&rt, rt.alloc(), 1024), Some((true, true)));
}

// ---- A lane that is filled before any of it is taken.

const PLACES: u64 = 1000;

// Each place takes a report, and the next report is refused: none of them was taken. Then all come, in order.
#[test]
fn filled_lane(rt: HostRuntime) {
    assert_eq!(rt; filled(rt.alloc()), Some((true, Some(0), true)));
}

// Whether each place took a report, how many messages were taken when the next report was refused, and whether all came.
fn filled(alloc: Global) -> Option<(bool, Option<u64>, bool)> {
    let report = report_of(FIRST, 1001)?;
    let Ok((mut reporter, mut end)) = lane(alloc, 1, PLACES as usize) else {
        return None;
    };
    let whole = fills(&mut reporter, &report);
    let taken = match send(&mut reporter, &report) {
        Err(Refusal::Full { taken, .. }) => Some(taken),
        _ => None,
    };
    let came = drains(&mut end);
    Some((whole, taken, came))
}

fn fills(reporter: &mut Reporter, report: &Report) -> bool {
    for block in FIRST..FIRST + PLACES {
        let Some(block) = BlockId::new(block) else {
            return false;
        };
        if send(reporter, &Report { block, ..*report }).is_err() {
            return false;
        }
    }
    true
}

fn drains(end: &mut LaneEnd) -> bool {
    for before in 0..PLACES {
        if !takes_soon(end, before + 1, FIRST + before) {
            return false;
        }
    }
    matches!(end.take(), Taken::Empty { accepted: PLACES })
}

// ---- Lanes that are closed under their reporters.

// Whether the reporter was told of a close, where it tried to send this report, and looked for a close if the lane is full.
fn is_told(reporter: &mut Reporter, report: &Report) -> bool
    ensures { reporter.new.lane ≡ reporter.old.lane }
{
    match send(reporter, report) {
        Ok(_) => false,
        Err(Refusal::Closed { .. }) => true,
        Err(_) => {
            thread::yield_now();
            reporter.is_closed()
        }
    }
}

fn reports_on(mut reporter: Reporter, report: &Report) -> Reporter
    ensures { result.lane ≡ reporter.lane }
{
    for _ in 0..u64::MAX {
        if is_told(&mut reporter, report) {
            return reporter;
        }
    }
    reporter
}

fn takes(end: &mut LaneEnd) -> bool
    ensures { end.new.lane ≡ end.old.lane }
{
    if let Taken::Message(_) = end.take() {
        return true;
    }
    thread::yield_now();
    false
}

// Whether 100 messages were taken.
fn takes_some(end: &mut LaneEnd) -> bool
    ensures { end.new.lane ≡ end.old.lane }
{
    let mut left = 100u64;
    for _ in 0..TURNS {
        if takes(end) {
            if left <= 1 {
                return true;
            }
            left -= 1;
        }
    }
    false
}

fn takes_rest(end: &mut LaneEnd)
    ensures { end.new.lane ≡ end.old.lane }
{
    for _ in 0..TURNS {
        if !takes(end) {
            return;
        }
    }
}

// An end whose lane it closed, once 100 messages were taken, and drained: with what the close counted.
#[derive(Drop)]
struct Drained {
    end: LaneEnd,
    some: bool,
    count: u64,
}

fn closes(mut end: LaneEnd) -> Drained
    ensures { result.end.lane ≡ end.lane }
{
    let some = takes_some(&mut end);
    let count = end.close();
    takes_rest(&mut end);
    Drained { end, some, count }
}

// Whether all that was sent was taken, as many as the close counted.
fn is_whole(drained: Drained, reporter: Reporter) -> bool
    requires { drained.end.lane ≡ reporter.lane }
{
    let Drained { end, some, count } = drained;
    let Met { accepted, taken } = meet(end, reporter);
    some && accepted == count && taken == count
}

#[test]
fn close_beside(rt: HostRuntime) {
    assert_eq!(rt; closed_beside(&rt, rt.alloc()), Some((true, true)));
}

fn closed_beside(rt: &(impl Threads + Sync), alloc: Global) -> Option<(bool, bool)> {
    let report = report_of(FIRST, 1001)?;
    let lent = &report;
    let Ok((first, first_end)) = lane(alloc, 1, 4) else {
        return None;
    };
    let Ok((second, second_end)) = lane(alloc, 2, 4) else {
        return None;
    };
    let (reporters, ends) = join(
        rt,
        || join(rt, || reports_on(first, lent), || reports_on(second, lent)),
        || (closes(first_end), closes(second_end)),
    );
    Some((is_whole(ends.0, reporters.0), is_whole(ends.1, reporters.1)))
}

// The same of a reporter that is in `report_all`, with a source that never ends.
#[test]
fn close_beside_report_all(rt: HostRuntime) {
    assert_eq!(rt; closed_beside_report_all(&rt, rt.alloc()), Some(true));
}

fn closed_beside_report_all(rt: &(impl Threads + Wait + Sync), alloc: Global) -> Option<bool> {
    let report = report_of(FIRST, 1001)?;
    let Ok((reporter, end)) = lane(alloc, 1, 4) else {
        return None;
    };
    let (told, drained) = join(
        rt,
        || reports_until_told(rt, reporter, Endless { report }),
        || closes(end),
    );
    let reporter = told?;
    Some(is_whole(drained, reporter))
}

// The reporter, once it was told of a close.
fn reports_until_told(
    rt: &impl Wait,
    mut reporter: Reporter,
    mut source: Endless,
) -> Option<Reporter>
    ensures { IfSome result (λ r. r.lane ≡ reporter.lane) }
{
    match report_all(rt, &mut source, &mut reporter) {
        Err(Refusal::Closed { .. }) => Some(reporter),
        _ => None,
    }
}
