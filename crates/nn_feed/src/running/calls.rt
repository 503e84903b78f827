// The calls of a feeder's thread.
ghost use Rattle.std.specs.Prelude.{◌<◌, ◌≤◌};
ghost use Rattle.nn_feed.specs.Ends.{put_by, IsSameFeeder};
ghost use Rattle.nn_feed.specs.Running.{Fed, HasRun, OnSourceFault};

use super::{Delivered, FeederExit, FeederPromise};
use crate::ends::Feeder;
use crate::fault::FeedFault;
use nn_segment::{Item, SegmentSource};
use std::sync::Wait;
use std::thread::Promise;

impl<S: SegmentSource> Promise<FeederExit<S>> for FeederPromise<S> {
    ghost kept_by = { λ p w. HasRun S.gives S.failures p.0.value p.1.value w };
}

/// Puts each segment that the source gives, in order, and then its End; and answers how many segments these were. A fault
/// of the source, or an item that is not put, ends it; then all segments that the source gave before were put.
///
/// It waits for as long as the source does, and while the feed is full.
pub fn run_feeder<S: SegmentSource, R: Wait>(
    rt: &R,
    source: &mut S,
    feeder: &mut Feeder,
) -> Result<u64, FeedFault>
    ensures same { IsSameFeeder feeder.old feeder.new }
    ensures fed { Fed S.gives source.old (put_by feeder.old) source.new (put_by feeder.new) result }
    ensures failed { OnSourceFault result (S.failures source.old < S.failures source.new) }
    ensures counted { S.failures source.old ≤ S.failures source.new }
{
    let mut count = 0u64;
    'items: for _ in rt.forever() {
        let segment = match source.next() {
            Ok(Item::Segment(segment)) => segment,
            Ok(Item::End) => {
                match feeder.put(rt, Item::End) {
                    Ok(()) => return Ok(count),
                    Err(refusal) => return Err(FeedFault::Refused(refusal)),
                }
            }
            Err(fault) => return Err(FeedFault::Source(fault)),
        };
        match feeder.put(rt, Item::Segment(segment)) {
            Ok(()) => count += 1,
            Err(refusal) => return Err(FeedFault::Refused(refusal)),
        }
    }
    unreachable!()
}

/// What the thread of a feeder runs: it puts all that its source gives, and then its End or its fault. Where one of these
/// is refused, it drops the feeder before it returns.
pub fn run_thread<S: SegmentSource, R: Wait>(rt: &R, source: S, feeder: Feeder) -> FeederExit<S>
    ensures { HasRun S.gives S.failures source feeder result }
{
    let mut source = source;
    let mut feeder = feeder;
    let end = match run_feeder(rt, &mut source, &mut feeder) {
        Ok(count) => Ok(count),
        Err(FeedFault::Source(fault)) => {
            if let Err(refusal) = feeder.fail(rt, fault) {
                drop(feeder);
                return FeederExit {
                    source,
                    outcome: Err(refusal),
                };
            }
            Err(fault)
        }
        Err(FeedFault::Refused(refusal)) => {
            drop(feeder);
            return FeederExit {
                source,
                outcome: Err(refusal),
            };
        }
    };
    FeederExit {
        source,
        outcome: Ok(Delivered { feeder, end }),
    }
}
