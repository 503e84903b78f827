//! A standby in service. Two DataNodes report from threads of their own, for as long as they run, and the log of the active
//! NameNode comes from one more. An operator writes the history into a journal and a checkpoint after each segment, and takes
//! over at transaction 11. A checkpoint is written in parts: it holds the log, and no report waits for it.
ghost use Rattle.std.specs.Prelude.{◌≤◌, length, IfSome};
ghost use Rattle.nn_types.specs.Limits.{max_datanodes};

use nn_device::{Page, Writer};
use nn_drive::{
    CheckpointOperator, CheckpointOutcome, Checkpointing, EndedCheckpoint, Operator, ReportSource,
    Request, Served, serve, with_lanes,
};
use nn_lane_standby::Standby;
use nn_listing::put_history;
use nn_segment::{Item, MemorySource, Parsed, SegmentSource, SourceFault};
use nn_types::limits::MAX_DATANODES;
use nn_types::{BlockId, Event, GenerationStamp, Kind, Length, Report, Settings};
use std::alloc::Global;
use std::sync::atomic::{AtomicBool, AtomicU64, Ordering};
use std::sync::{Arc, Wait};
use std::thread;
use std::thread::Threads;

/// The transaction at which the standby takes over.
const TAKEOVER: u64 = 11;

/// The paths of a part of a checkpoint. 1,000 of them take half a millisecond.
const PART: usize = 1000;

// The segments of the log: the name of each, and its text.
const LOG: &[(&str, &str)] = &[
    (
        "edits_0000000000000000001-0000000000000000005",
        r#"{"op":"OP_START_LOG_SEGMENT","txid":1}
{"op":"OP_SET_GENSTAMP_V2","gen":1001,"txid":2}
{"op":"OP_ALLOCATE_BLOCK_ID","id":1073741825,"txid":3}
{"op":"OP_ADD","path":"/f","replication":2,"txid":4}
{"op":"OP_END_LOG_SEGMENT","txid":5}
"#,
    ),
    (
        "edits_0000000000000000006-0000000000000000009",
        r#"{"op":"OP_START_LOG_SEGMENT","txid":6}
{"op":"OP_ADD_BLOCK","gen":1001,"id":1073741825,"path":"/f","txid":7}
{"op":"OP_CLOSE","blocks":[{"gen":1001,"id":1073741825,"len":5}],"path":"/f","txid":8}
{"op":"OP_END_LOG_SEGMENT","txid":9}
"#,
    ),
    (
        "edits_0000000000000000010-0000000000000000012",
        r#"{"op":"OP_START_LOG_SEGMENT","txid":10}
{"op":"OP_MKDIR","path":"/d","txid":11}
{"op":"OP_END_LOG_SEGMENT","txid":12}
"#,
    ),
];

/// What the operator tells the source of the log.
#[derive(Drop)]
pub struct Told {
    /// How many checkpoints were written.
    checkpoints: AtomicU64,
    /// Whether the active NameNode is fenced, so that it writes no more.
    fenced: AtomicBool,
}

/// The log of the active NameNode. It comes to its next segment once the one before is in a checkpoint, and ends once the
/// NameNode is fenced.
#[derive(Drop)]
pub struct ActiveLog {
    told: Arc<Told, Global>,
    segments: MemorySource,
    asked: u64,
}

impl ActiveLog {
    fn wait(&self) {
        for _ in 0..u64::MAX {
            let is_fenced = self.told.fenced.load(Ordering::SeqCst);
            if is_fenced || self.told.checkpoints.load(Ordering::SeqCst) >= self.asked {
                return;
            }
            thread::yield_now();
        }
    }
}

impl SegmentSource for ActiveLog {
    ghost use Rattle.std.specs.Prelude.{◌≡◌, [], length};
    ghost use Rattle.nn_segment.specs.Source.{GivesNext};

    ghost gives = { λ s answer t. GivesNext s.segments answer t.segments };

    ghost left = { λ s. length s.segments };

    ghost failures = { λ _. 0 };

    ghost ended = { λ s. s.segments ≡ [] };

    fn next(&mut self) -> Result<Item, SourceFault> {
        self.wait();
        self.asked = self.asked.saturating_add(1);
        self.segments.next()
    }
}

/// A DataNode with one replica, which it reports again and again.
#[derive(Drop)]
pub struct DataNode {
    replica: Report,
}

impl ReportSource for DataNode {
    ghost use Rattle.std.specs.Prelude.{◌≡◌, Some};

    ghost gives = { λ s report t. report ≡ Some s.replica };

    fn next(&mut self) -> Option<Report> {
        let report = self.replica;
        Some(report)
    }
}

/// Writes the history into a journal, and wants a checkpoint after each segment. Takes over at the transaction, once enough
/// blocks are safe: it fences the active NameNode, which ends the log, and asks for the promotion.
#[derive(Drop)]
pub struct Failover {
    alloc: Global,
    told: Arc<Told, Global>,
    saved: u64,
    /// The last txid and the image of each checkpoint.
    pub checkpoints: Vec<(u64, Vec<u8>)>,
    /// The history so far, a line for each event.
    pub journal: Writer<Vec<u8>>,
}

impl Operator for Failover {
    ghost use Rattle.std.specs.Prelude.{◌≡◌, ◌≤◌};
    ghost use Rattle.nn_drive.specs.declared.operator.Request.TheVariants.{Promote};

    ghost asks = { λ o x n w p. w ≡ Promote → 11 ≤ x.shadow.last };

    fn ask(&mut self, standby: &Standby, _running: usize) -> Request {
        let shadow = standby.shadow();
        if shadow.last_txid().get() >= TAKEOVER && !shadow.safe_mode().on {
            self.told.fenced.store(true, Ordering::SeqCst);
            return Request::Promote;
        }
        if !self.record(shadow.history()) {
            return Request::GoOn;
        }
        Request::Forget
    }
}

impl CheckpointOperator<Vec<u8>> for Failover {
    ghost use Rattle.std.specs.Prelude.{⊤};

    ghost wants = { λ o x w p. ⊤ };

    ghost hears = { λ o w e p. ⊤ };

    fn due(&mut self, standby: &Standby) -> Option<Vec<u8>> {
        let last = standby.shadow().last_txid().get();
        if last <= self.saved || last >= TAKEOVER || standby.in_hand() > 0 {
            return None;
        }
        Some(Vec::new(self.alloc))
    }

    // One that was not written is due again at the next rotation.
    fn ended(&mut self, image: Vec<u8>, checkpoint: EndedCheckpoint) {
        if checkpoint.outcome == CheckpointOutcome::Written {
            self.keep(checkpoint.txid.get(), image);
        }
    }
}

impl Failover {
    pub fn new(alloc: Global) -> Option<Failover> {
        let told = Told {
            checkpoints: AtomicU64::new(0),
            fenced: AtomicBool::new(false),
        };
        Some(Failover {
            alloc,
            told: Arc::new(alloc, told).ok()?,
            saved: 0,
            checkpoints: Vec::new(alloc),
            journal: Writer::new(Vec::new(alloc)),
        })
    }

    /// Writes the events into the journal. False if that failed: they are not to be forgotten, and are shown again.
    pub fn record(&mut self, events: &[Event]) -> bool {
        let mut page = Page::new(self.alloc);
        put_history(&mut page, &mut self.journal, events);
        page.end(&mut self.journal).is_ok()
    }

    fn keep(&mut self, last: u64, image: Vec<u8>) {
        let Ok(()) = self.checkpoints.push((last, image)) else {
            return;
        };
        self.saved = last;
        self.told.checkpoints.fetch_add(1, Ordering::SeqCst);
    }
}

/// A standby in service, up to its promotion, and its operator then.
pub fn promoted<R: Threads + Wait + Copy + Send + Drop + 'static>(
    rt: &R,
    alloc: Global,
    settings: Settings,
) -> Option<(Served<DataNode>, Failover)> {
    let failover = Failover::new(alloc)?;
    let Ok((workers, ends)) = with_lanes(alloc, data_nodes(alloc)?, 64) else {
        return None;
    };
    if ends.is_empty() || ends.len() > usize::from(MAX_DATANODES) {
        return None;
    }
    let Ok(standby) = Standby::new(alloc, ends, settings) else {
        return None;
    };
    let log = active_log(alloc, &failover.told)?;
    let mut operator = Checkpointing::new(alloc, failover, PART);
    let served = serve(rt, alloc, standby, log, workers, &mut operator).ok()?;
    Some((served, operator.into_operator()))
}

fn active_log(alloc: Global, told: &Arc<Told, Global>) -> Option<ActiveLog> {
    let told = Arc::try_clone(told).ok()?;
    let mut segments = Vec::new(alloc);
    for (name, text) in LOG {
        add_segment(alloc, &mut segments, name, text)?;
    }
    Some(ActiveLog {
        told,
        segments: MemorySource::new(segments),
        asked: 0,
    })
}

fn add_segment(alloc: Global, segments: &mut Vec<Parsed>, name: &str, text: &str) -> Option<()> {
    let name = String::from_str(alloc, name).ok()?;
    let bytes = text.as_bytes().to_vec(alloc).ok()?;
    let segment = Parsed::of(alloc, name, bytes).ok()?;
    segments.push(segment).ok()
}

// Two DataNodes that received the block.
fn data_nodes(alloc: Global) -> Option<Vec<DataNode>>
    ensures { IfSome result (λ nodes. length nodes.items ≤ max_datanodes) }
{
    let first = DataNode {
        replica: replica()?,
    };
    let second = DataNode {
        replica: replica()?,
    };
    Vec::from_array(alloc, [first, second]).ok()
}

fn replica() -> Option<Report> {
    Some(Report {
        dn: 1,
        block: BlockId::new(1073741825)?,
        stamp: GenerationStamp::new(1001)?,
        len: Length::new(5)?,
        kind: Kind::Received,
    })
}
