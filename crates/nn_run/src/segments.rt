//! The segments of a run with threads, in memory: the source comes to the gate before it gives its first.
ghost use Rattle.std.specs.Prelude.{◌≡◌};

use crate::gate::{Gate, GatePass, SOURCE};
use nn_segment::{Item, MemorySource, Parsed, SegmentSource, SourceFault};
use std::alloc::Global;
use std::marker::Model;
use std::sync::Arc;

/// The segments of a run.
#[derive(Debug, Drop)]
pub struct Segments<G> {
    source: MemorySource,
    gate: GatePass<G>,
}

impl<G> Model for Segments<G> {
    ghost use Rattle.std.specs.Prelude.{List};
    ghost use Rattle.nn_segment.specs.Segment.{Segment};

    ghost Value = { List Segment };

    ghost view = { λ s. s.source };
}

impl<G> Segments<G> {
    pub fn new(segments: Vec<Parsed>, gate: Arc<G, Global>) -> Segments<G>
        ensures { result ≡ segments.items }
    {
        Segments {
            source: MemorySource::new(segments),
            gate: GatePass::new(gate, SOURCE),
        }
    }
}

impl<G: Gate> SegmentSource for Segments<G> {
    ghost use Rattle.std.specs.Prelude.{◌≡◌, [], length};
    ghost use Rattle.nn_segment.specs.Source.{GivesNext};

    ghost gives = { GivesNext };

    ghost left = { length };

    ghost failures = { λ _. 0 };

    ghost ended = { λ s. s ≡ [] };

    fn next(&mut self) -> Result<Item, SourceFault> {
        self.gate.pass_once();
        self.source.next()
    }
}
