//! Reports, segments typed by hand, and what the threads of a test have in common.
use nn_segment::Parsed;
use nn_types::{BlockId, GenerationStamp, Kind, Length, Report};
use std::alloc::Global;
use std::sync::Arc;
use std::sync::atomic::{AtomicU64, Ordering};
use std::thread;
use std::time::{Clock, Instant};

/// The first block id that a log issues.
pub const FIRST: u64 = 1073741825;

/// A test that waits gives up after so many vain turns.
pub const TURNS: u64 = 10_000_000;

/// A received replica of this block with this generation stamp, and with 5 bytes.
pub fn report_of(block: u64, stamp: u64) -> Option<Report> {
    Some(Report {
        dn: 1,
        block: BlockId::new(block)?,
        stamp: GenerationStamp::new(stamp)?,
        len: Length::new(5)?,
        kind: Kind::Received,
    })
}

// ---- Logs.

/// The name of a segment, and its text.
pub type Text = (&'static str, &'static str);

/// A start mark and an end mark.
pub const TWO_MARKS: Text = (
    "edits_0000000000000000001-0000000000000000002",
    "{\"op\":\"OP_START_LOG_SEGMENT\",\"txid\":1}\n{\"op\":\"OP_END_LOG_SEGMENT\",\"txid\":2}\n",
);

/// And two more after them.
pub const TWO_MORE: Text = (
    "edits_0000000000000000003-0000000000000000004",
    "{\"op\":\"OP_START_LOG_SEGMENT\",\"txid\":3}\n{\"op\":\"OP_END_LOG_SEGMENT\",\"txid\":4}\n",
);

/// An image of the root alone, behind the two marks.
pub const BEHIND_TWO_MARKS: &[u8] =
    b"{\"awaiting\":[],\"image\":\"hdfs-standby\",\"last_block\":1073741824,\"last_gen\":1000,\"profile\":1,\"txid\":2,\"version\":2}\n{\"end\":0}\n";

/// The segments of these names and texts.
pub fn log_of(alloc: Global, texts: &[Text]) -> Option<Vec<Parsed>> {
    let mut segments = Vec::new(alloc);
    for (name, text) in texts {
        let segment = segment(alloc, name, text)?;
        let Ok(()) = segments.push(segment) else {
            return None;
        };
    }
    Some(segments)
}

fn segment(alloc: Global, name: &str, text: &str) -> Option<Parsed> {
    let mut bytes = Vec::new(alloc);
    bytes.extend_from_slice(text.as_bytes()).ok()?;
    let name = String::from_str(alloc, name).ok()?;
    Parsed::of(alloc, name, bytes).ok()
}

/// So many segments, each of a start mark and an end mark, from transaction 1 on.
pub fn marks(alloc: Global, count: u64) -> Option<Vec<Parsed>> {
    let mut segments = Vec::new(alloc);
    let mut first = 1u64;
    for _ in 0..count {
        let last = first.saturating_add(1);
        let segment = marked(alloc, first, last, &[])?;
        let Ok(()) = segments.push(segment) else {
            return None;
        };
        first = last.saturating_add(1);
    }
    Some(segments)
}

/// A segment of the transactions from 1 to `last`, of which each between the marks makes a directory of the root.
pub fn directories(alloc: Global, last: u64) -> Option<Parsed> {
    let mut lines = Vec::new(alloc);
    for txid in 2..last {
        let members = format!(in alloc; "\"path\":\"/d{txid}\",").ok()?;
        push_edit(alloc, &mut lines, txid, "OP_MKDIR", members.as_str())?;
    }
    marked(alloc, 1, last, &lines)
}

// The segment of these lines between a start mark and an end mark of these txids.
fn marked(alloc: Global, first: u64, last: u64, lines: &[u8]) -> Option<Parsed> {
    let mut bytes = Vec::new(alloc);
    push_edit(alloc, &mut bytes, first, "OP_START_LOG_SEGMENT", "")?;
    bytes.extend_from_slice(lines).ok()?;
    push_edit(alloc, &mut bytes, last, "OP_END_LOG_SEGMENT", "")?;
    let name = format!(in alloc; "edits_{first:019}-{last:019}").ok()?;
    Parsed::of(alloc, name, bytes).ok()
}

/// Adds the line of an edit with these members.
pub fn push_edit(
    alloc: Global,
    text: &mut Vec<u8>,
    txid: u64,
    op: &str,
    members: &str,
) -> Option<()> {
    let line = format!(in alloc; "{{\"op\":\"{op}\",{members}\"txid\":{txid}}}\n").ok()?;
    text.extend_from_slice(line.as_bytes()).ok()?;
    Some(())
}

// ---- Threads.

/// What the threads of a test have in common.
#[derive(Drop)]
pub struct Shared {
    /// How many came.
    pub came: AtomicU64,
    /// How many waited in vain.
    pub vain: AtomicU64,
    /// How often a log was asked.
    pub calls: AtomicU64,
    /// How often sources of reports were asked, or how many segments came out of a feed.
    pub asked: AtomicU64,
    /// A byte for each of the threads that came, in order of their numbers.
    pub places: AtomicU64,
}

impl Shared {
    pub fn new(alloc: Global) -> Option<Arc<Shared, Global>> {
        let shared = Arc::new(
            alloc,
            Shared {
                came: AtomicU64::new(0),
                vain: AtomicU64::new(0),
                calls: AtomicU64::new(0),
                asked: AtomicU64::new(0),
                places: AtomicU64::new(0),
            },
        );
        shared.ok()
    }

    /// Waits until so many came, and answers whether they did. Who waits in vain is noted.
    pub fn wait_for_all(&self, wanted: u64) -> bool {
        self.note(reaches(&self.came, wanted))
    }

    /// Waits until sources of reports were asked so often.
    pub fn wait_until_asked(&self, wanted: u64) -> bool {
        self.note(reaches(&self.asked, wanted))
    }

    fn note(&self, has_reached: bool) -> bool {
        if !has_reached {
            self.vain.fetch_add(1, Ordering::SeqCst);
        }
        has_reached
    }
}

/// Whether the number comes to be as large, before the wait is given up.
pub fn reaches(number: &AtomicU64, wanted: u64) -> bool {
    for _ in 0..TURNS {
        if number.load(Ordering::SeqCst) >= wanted {
            return true;
        }
        thread::yield_now();
    }
    false
}

/// How many microseconds have passed.
pub fn micros_since<R: Clock>(rt: &R, start: Instant) -> u64 {
    let Ok(passed) = start.elapsed(rt) else {
        return u64::MAX;
    };
    u64::try_from(passed.as_micros()).unwrap_or(u64::MAX)
}

/// Numbers without order, from a counter: the same in each run.
#[derive(Clone, Copy)]
pub struct Dice {
    pub count: u64,
}

impl Dice {
    pub fn roll(&mut self) -> u64 {
        self.count = self.count.wrapping_add(0x9E37_79B9_7F4A_7C15);
        let first = (self.count ^ (self.count >> 30)).wrapping_mul(0xBF58_476D_1CE4_E5B9);
        let second = (first ^ (first >> 27)).wrapping_mul(0x94D0_49BB_1331_11EB);
        second ^ (second >> 31)
    }
}
