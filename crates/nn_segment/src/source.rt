//! Where segments come from.
ghost use Rattle.std.specs.Prelude.{◌≡◌, ◌<◌, ◌≤◌, ℕ, Result, Ok, false, IfOk, OnErr};
ghost use Rattle.nn_segment.specs.Source.{is_end_item};
ghost use Rattle.nn_segment.specs.declared.fault.SourceFault.{SourceFault};
ghost use Rattle.nn_segment.specs.declared.source.Item.{Item};

use crate::fault::SourceFault;
use crate::parsed::Parsed;
use std::marker::Model;
use std::vec::IntoIter;

/// What a source gives: one segment after another, and then its end.
#[derive(Debug, Drop)]
pub enum Item {
    Segment(Parsed),
    End,
}

/// Gives segments, and then End again and again.
///
/// All that a caller got can be said by one list of answers, items and faults in order. A source gives only so many
/// segments, so a caller that asks up to End comes to an end.
pub trait SegmentSource {
    /// `gives s r t`: a `next` of a source in the state s may answer r and leave it in the state t.
    ghost gives: { Self → Result Item SourceFault → Self → Type 0 };

    /// A bound on the segments that it can still give.
    ghost left: { Self → ℕ };

    /// How often it has failed.
    ghost failures: { Self → ℕ };

    /// That it has given End.
    ghost ended: { Self → Type 0 };

    /// The next segment, or the end.
    fn next(&mut self) -> Result<Item, SourceFault>
        ensures gives { gives self.old result self.new }
        ensures lower { IfOk result (λ item. is_end_item item ≡ false → left self.new < left self.old) }
        ensures failed { OnErr result (failures self.old < failures self.new) }
        ensures counted { failures self.old ≤ failures self.new }
        ensures ends { result ≡ Ok Item.End → ended self.new }
        ensures stays_ended { ended self.old → (result ≡ Ok Item.End) × ended self.new };
}

/// Gives the segments that it was made of, in order, and then End. It never fails.
#[derive(Debug, Drop)]
pub struct MemorySource {
    segments: IntoIter<Parsed>,
}

impl Model for MemorySource {
    ghost use Rattle.std.specs.Prelude.{List};
    ghost use Rattle.std.specs.Vec.Iter.{into_iter_items};
    ghost use Rattle.nn_segment.specs.Segment.{Segment};

    ghost Value = { List Segment };

    ghost view = { λ s. into_iter_items s.segments };
}

impl MemorySource {
    /// A source of these segments.
    pub fn new(segments: Vec<Parsed>) -> MemorySource
        ensures { result ≡ segments.items }
    {
        MemorySource {
            segments: segments.into_iter(),
        }
    }
}

impl SegmentSource for MemorySource {
    ghost use Rattle.std.specs.Prelude.{◌≡◌, [], length};
    ghost use Rattle.nn_segment.specs.Source.{GivesNext};

    ghost gives = { GivesNext };

    ghost left = { length };

    ghost failures = { λ _. 0 };

    ghost ended = { λ s. s ≡ [] };

    fn next(&mut self) -> Result<Item, SourceFault> {
        match self.segments.next() {
            Some(segment) => Ok(Item::Segment(segment)),
            None => Ok(Item::End),
        }
    }
}
