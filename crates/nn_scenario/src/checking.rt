//! The segments of a log, checked line by line: what is wrong with a segment is known as soon as its last line has come,
//! and no line is kept.
ghost use Rattle.std.specs.Prelude.{◌≡◌, ◌≤◌, ◌<◌, ◌+◌, ◌^◌, ◌&&◌, ◌||◌, ◌==◌, ◌++◌, length, not, true, false, None, Ok};
ghost use Rattle.nn_edits.specs.Reading.{edit_of_line};
ghost use Rattle.nn_bytes.specs.Pieces.{is_unbroken};
ghost use Rattle.nn_segment.specs.Segment.{start_profile, is_start, allows};
ghost use Rattle.nn_scenario.specs.Checking.{first_line_fault, later_line_fault, or_fault, begun, gone_on, line_added, part_fault, or_bad, part_ended, line_checked, AreSegments, IsCheckOf};
ghost use Rattle.nn_scenario.specs.Cut.{last_part};
ghost use Rattle.nn_scenario.specs.Reading.{Reading, nothing_read, with_edit_line};

use crate::segments::PartFault;
use nn_segment::{SegmentFault, allows, is_end, is_start, start_profile};
use nn_types::limits::MAX_INPUT;
use nn_types::{Profile, Tx};
use std::marker::Model;
use std::mem;

// The bytes that a segment may have, and one.
const ROOM: u64 = MAX_INPUT as u64 + 1;

/// The check of a log whose lines come one after another. It takes no memory, and constant time for a line. Its verdict is
/// that of `read_segments` on the same lines.
#[derive(Debug, Drop)]
pub struct SegmentCheck {
    // the bytes that the part in hand may still have, and one
    room: u64,
    // how many lines it has
    lines: u64,
    // of its first line, if that is a start mark
    profile: Option<Profile>,
    // the txid behind its last line's
    next: u64,
    // the first fault of its lines
    order: Option<SegmentFault>,
    // whether a start mark is behind its first line
    inside: bool,
    // how many parts have ended
    ended: u64,
    // the first of them that has a fault
    bad: Option<PartFault>,
}

impl Model for SegmentCheck {
    ghost use Rattle.nn_scenario.specs.Checking.{SegmentCheck};

    ghost Value = { SegmentCheck };

    ghost view = { λ c. record { room = c.room; lines = c.lines; profile = c.profile; next = c.next; order = c.order; inside = c.inside; ended = c.ended; bad = c.bad } };
}

impl SegmentCheck {
    /// The check of no lines.
    pub fn new() -> SegmentCheck
        ensures of { IsCheckOf nothing_read result }
        ensures few { result.ended + result.lines ≡ 0 }
    {
        SegmentCheck {
            room: ROOM,
            lines: 0,
            profile: None,
            next: 0,
            order: None,
            inside: false,
            ended: 0,
            bad: None,
        }
    }

    /// One more edit line: its text, which is lent without a line feed, and its transaction.
    pub fn push(&mut self, text: &[u8], tx: &Tx)
        requires few { self.old.ended + self.old.lines < 2 ^ 62 }
        requires unbroken { is_unbroken text.now ≡ true }
        requires read { edit_of_line text.now ≡ Ok tx.now }
        requires from_one { 1 ≤ tx.now.txid }
        ensures of { (x : Reading) → IsCheckOf x self.old → IsCheckOf (with_edit_line x (record { text = text.now; tx = tx.now })) self.new }
        ensures few { self.new.ended + self.new.lines ≤ self.old.ended + self.old.lines + 1 }
    {
        self.check_line(text.len() as u64 + 1, tx);
    }

    /// Whether the next line is the first of its segment.
    pub fn begins(&self) -> bool
        ensures { result ≡ (self.now.lines == 0) }
    {
        self.lines == 0
    }

    /// Whether the segment in hand has more bytes than one may have, whatever comes.
    pub fn is_too_long(&self) -> bool
        ensures { result ≡ (self.now.room == 0) }
    {
        self.room == 0
    }

    /// The first segment that has a fault, where no line comes. What is left of the last one is a segment too.
    pub fn into_bad(self) -> Option<PartFault>
        requires few { self.ended + self.lines < 2 ^ 62 }
        ensures { (x : Reading) → IsCheckOf x self → AreSegments (x.parts ++ last_part x.in_hand) result }
    {
        if self.lines == 0 {
            let SegmentCheck { bad, .. } = self;
            return bad;
        }
        let SegmentCheck {
            room,
            order,
            ended,
            bad,
            ..
        } = self;
        or_bad(bad, part_fault(room, order, false), ended + 1)
    }

    // One more line, of so many bytes with its line feed.
    fn check_line(&mut self, bytes: u64, tx: &Tx)
        requires few { self.old.ended + self.old.lines < 2 ^ 62 }
        ensures is { self.new ≡ line_checked self.old bytes tx.now }
        ensures in_range { tx.now.txid < 2 ^ 63 }
    {
        self.add(bytes, tx);
        if is_end(&tx.edit) {
            self.end_part(true);
        }
    }

    // The same, where an end mark does not end the segment yet.
    fn add(&mut self, bytes: u64, tx: &Tx)
        requires few { self.old.ended + self.old.lines < 2 ^ 62 }
        ensures is { self.new ≡ line_added self.old bytes tx.now }
        ensures few { self.new.ended ≡ self.old.ended }
        ensures in_range { tx.now.txid < 2 ^ 63 }
    {
        if self.lines == 0 {
            self.begin(bytes, tx);
            return;
        }
        self.go_on(bytes, tx);
    }

    // The first line of a segment.
    fn begin(&mut self, bytes: u64, tx: &Tx)
        ensures is { self.new ≡ begun self.old bytes tx.now }
        ensures in_range { tx.now.txid < 2 ^ 63 }
    {
        let profile = start_profile(&tx.edit);
        self.room = self.room.saturating_sub(bytes);
        self.lines = 1;
        self.next = tx.txid.get() + 1;
        self.order = first_line_fault(&profile);
        self.profile = profile;
        self.inside = false;
    }

    // A later one.
    fn go_on(&mut self, bytes: u64, tx: &Tx)
        requires few { self.old.ended + self.old.lines < 2 ^ 62 }
        ensures is { self.new ≡ gone_on self.old bytes tx.now }
        ensures in_range { tx.now.txid < 2 ^ 63 }
    {
        let line = self.lines + 1;
        let fault = later_line_fault(&self.profile, line, self.next, tx);
        self.room = self.room.saturating_sub(bytes);
        self.lines = line;
        self.next = tx.txid.get() + 1;
        self.order = or_fault(self.order, fault);
        self.inside = self.inside || is_start(&tx.edit);
    }

    // The segment in hand ends, with an end mark or without.
    fn end_part(&mut self, marked: bool)
        requires few { self.old.ended < 2 ^ 62 }
        ensures { self.new ≡ part_ended self.old marked }
    {
        let ended = self.ended + 1;
        let fault = part_fault(self.room, self.order, marked && !self.inside);
        let bad = mem::replace(&mut self.bad, None);
        self.bad = or_bad(bad, fault, ended);
        self.ended = ended;
        self.lines = 0;
        self.room = ROOM;
    }
}

// What is wrong with the first line of a segment, which has this profile if it is a start mark.
fn first_line_fault(profile: &Option<Profile>) -> Option<SegmentFault>
    ensures { result ≡ first_line_fault profile.now }
{
    match profile {
        Some(_) => None,
        None => Some(SegmentFault::NoStart),
    }
}

// What is wrong with a later line: its number in the segment, and the txid that it should have.
fn later_line_fault(
    profile: &Option<Profile>,
    line: u64,
    next: u64,
    tx: &Tx,
) -> Option<SegmentFault>
    ensures { result ≡ later_line_fault profile.now line next tx.now }
{
    let Some(profile) = profile else {
        return Some(SegmentFault::NoStart);
    };
    if tx.txid.get() != next {
        return Some(SegmentFault::Gap { expected: next });
    }
    if !allows(*profile, &tx.edit) {
        return Some(SegmentFault::WrongProfile { line });
    }
    None
}

// The first fault of the lines so far and of one more.
fn or_fault(order: Option<SegmentFault>, more: Option<SegmentFault>) -> Option<SegmentFault>
    ensures { result ≡ or_fault order more }
{
    match order {
        Some(fault) => Some(fault),
        None => more,
    }
}

// What is wrong with a segment: its bytes before its lines, and these before its end mark, which is to be its only mark behind
// the first line.
fn part_fault(room: u64, order: Option<SegmentFault>, ends: bool) -> Option<SegmentFault>
    ensures { result ≡ part_fault room order ends }
{
    if room == 0 {
        return Some(SegmentFault::TooLong);
    }
    if let Some(fault) = order {
        return Some(fault);
    }
    if ends {
        return None;
    }
    Some(SegmentFault::NoEnd)
}

// The first segment that has a fault, of those before and of this one.
fn or_bad(bad: Option<PartFault>, fault: Option<SegmentFault>, segment: u64) -> Option<PartFault>
    ensures { result ≡ or_bad bad fault segment }
{
    if let Some(bad) = bad {
        return Some(bad);
    }
    match fault {
        Some(fault) => Some(PartFault { fault, segment }),
        None => None,
    }
}
