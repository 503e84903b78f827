//! A DataNode that was placed at a block, and its cell.
ghost use Rattle.std.specs.Prelude.{◌≡◌};
ghost use Rattle.nn_model.specs.Counts.{is_live};
ghost use Rattle.nn_replicas.specs.Entry.{no_cell, cell_told, cell_retired};

use crate::entry::{Cell, Told};
use nn_types::{Block, GenerationStamp, Kind, Length, Replica};
use std::marker::Model;

// A DataNode and its cell, packed into 24 bytes: an option of a replica would take 32 of its own.
#[derive(Debug, Drop)]
pub struct Slot {
    dn: u16,
    ordered: bool,
    // What kind of replica the DataNode has, if any. Without one the stamp and the length say nothing.
    kind: Option<Kind>,
    stamp: GenerationStamp,
    len: Length,
}

impl Model for Slot {
    ghost use Rattle.std.specs.Prelude.{ℕ};
    ghost use Rattle.std.specs.Option.{option_map};
    ghost use Rattle.nn_replicas.specs.declared.entry.Cell.{Cell};

    ghost Value = { ℕ × Cell };

    ghost view = { λ s. (s.dn, record { replica = option_map (λ kind. record { stamp = s.stamp; len = s.len; kind = kind }) s.kind; ordered = s.ordered }) };
}

// What the unused places of an entry hold.
impl Default for Slot {
    fn default() -> Slot {
        Slot::new(0)
    }
}

impl Slot {
    // Of the DataNode nothing is known.
    pub fn new(dn: u16) -> Slot
        ensures { result ≡ (dn, no_cell) }
    {
        Slot {
            dn,
            ordered: false,
            kind: None,
            stamp: GenerationStamp::new(0).unwrap(),
            len: Length::new(0).unwrap(),
        }
    }

    pub fn dn(&self) -> u16
        ensures { result ≡ self.now.0 }
    {
        self.dn
    }

    pub fn cell(&self) -> Cell
        ensures { result ≡ self.now.1 }
    {
        let replica = match self.kind {
            None => None,
            Some(kind) => Some(Replica {
                stamp: self.stamp,
                len: self.len,
                kind,
            }),
        };
        Cell {
            replica,
            ordered: self.ordered,
        }
    }

    pub fn ordered(&self) -> bool
        ensures { result ≡ self.now.1.ordered }
    {
        self.ordered
    }

    // Whether the DataNode has a live replica of the block.
    pub fn is_live(&self, block: &Block) -> bool
        ensures { result ≡ is_live self.now.1.replica block.now }
    {
        self.kind == Some(Kind::Received) && self.stamp == block.stamp && self.len == block.len
    }

    // Writes what is said of the DataNode: where the block is named as a replica, else as an order.
    pub fn write(&mut self, named: bool, told: Told)
        ensures { self.new ≡ (self.old.0, cell_told named told self.old.1) }
    {
        match told {
            Told::Room => {}
            Told::Has(replica) if named => {
                self.kind = Some(replica.kind);
                self.stamp = replica.stamp;
                self.len = replica.len;
            }
            Told::Has(_) => self.ordered = true,
            Told::HasNone if named => self.kind = None,
            Told::HasNone => self.ordered = false,
        }
    }

    // Turns a replica into an order.
    pub fn retire(&mut self)
        ensures { self.new ≡ (self.old.0, cell_retired self.old.1) }
    {
        self.ordered = self.ordered || self.kind.is_some();
        self.kind = None;
    }
}
