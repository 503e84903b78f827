//! The edits of a segment that has not ended.
ghost use Rattle.std.specs.Prelude.{◌≡◌, ◌≤◌, ◌<◌, ◌==◌, ◌+◌, ◌^◌, true, ◌++◌, ◌∷◌, [], List, Ok, Err, IfErr, IsErrOf, OnOk, MatchResult};
ghost use Rattle.nn_edits.specs.Reading.{edit_of_line};
ghost use Rattle.nn_bytes.specs.Pieces.{is_unbroken};
ghost use Rattle.nn_segment.specs.Segment.{Segment, IsSegment};
ghost use Rattle.nn_scenario.specs.Cut.{Part, no_lines, with_line, segment_of};
ghost use Rattle.nn_scenario.specs.Reading.{Reading, with_edit_line};
ghost use Rattle.nn_live.specs.Serving.{HasPart, HasRead, IsAllOf, part_alone};

use crate::service::ServiceFault;
use nn_scenario::SegmentCheck;
use nn_segment::SegmentFault;
use nn_types::{Tx, Txid};
use std::alloc::Global;
use std::marker::Model;

/// The lines that a segment may have here: 2^62 - 1.
const MAX_LINES: u64 = 4_611_686_018_427_387_903;

/// The edits in hand. Each is checked as it comes, and its transaction is kept until the segment ends. Of a segment that has become
/// too long none is kept.
#[derive(Debug, Drop)]
pub(crate) struct SegmentInHand {
    check: SegmentCheck,
    txs: Vec<Tx>,
    // how many edits came, and the txid of the last one
    edits: u64,
    last: Txid,
}

impl Model for SegmentInHand {
    ghost use Rattle.std.specs.Prelude.{◌≤◌, ◌<◌, ◌+◌, ◌^◌};
    ghost use Rattle.nn_live.specs.Serving.{SegmentInHand};

    ghost Value = { SegmentInHand };

    ghost view = { λ h. record { check = h.check; txs = h.txs.items; edits = h.edits; last = h.last } };

    ghost invariant = { λ h. (h.check.ended + h.check.lines ≤ h.edits) × (h.edits < 2 ^ 62) };
}

impl SegmentInHand {
    /// No edits. Takes no memory.
    pub(crate) fn none(alloc: Global) -> SegmentInHand
        ensures { HasPart no_lines result }
    {
        SegmentInHand {
            check: SegmentCheck::new(),
            txs: Vec::new(alloc),
            edits: 0,
            last: Txid::ZERO,
        }
    }

    /// Whether there are none.
    pub(crate) fn is_empty(&self) -> bool
        ensures { result ≡ (self.now.edits == 0) }
    {
        self.edits == 0
    }

    /// How many there are.
    pub(crate) fn len(&self) -> u64
        ensures { result ≡ self.now.edits }
    {
        self.edits
    }

    /// The txid of the last one, 0 where there is none.
    pub(crate) fn last_txid(&self) -> Txid
        ensures { result ≡ self.now.last }
    {
        self.last
    }

    /// One more edit: the text of its line, and its transaction. No end mark came before it. Where they are more bytes than a
    /// segment may have, no transaction is kept.
    pub(crate) fn push(&mut self, text: &[u8], tx: Tx) -> Result<(), ServiceFault>
        requires unbroken { is_unbroken text.now ≡ true }
        requires read { edit_of_line text.now ≡ Ok tx }
        requires from_one { 1 ≤ tx.txid }
        ensures ok { OnOk result ((part : Part) → HasPart part self.old
            → HasRead (with_edit_line (part_alone part) (record { text = text.now; tx = tx })) (with_line part (record { text = text.now; tx = tx })) self.new) }
        ensures forgotten { OnOk result (self.new.check.room ≡ 0 → self.new.txs ≡ []) }
        ensures exhausted { IsErrOf result ServiceFault.Exhausted → 2 ^ 62 ≤ self.old.edits + 1 }
        ensures left { IfErr result (λ _. self.new ≡ self.old) }
    {
        if self.edits >= MAX_LINES {
            return Err(ServiceFault::Exhausted);
        }
        if let Err(_) = self.txs.reserve(1) {
            return Err(ServiceFault::OutOfMemory);
        }
        self.check.push(text, &tx);
        self.edits += 1;
        self.last = tx.txid;
        self.txs.push_reserved(tx);
        if self.check.is_too_long() {
            self.txs.clear();
        }
        Ok(())
    }

    /// Why these edits are no segment, where no end mark came and some edit did.
    pub(crate) fn into_fault(self) -> SegmentFault
        requires { (part : Part) × HasPart part self × (0 < self.edits) }
        ensures { (part : Part) → HasPart part self → segment_of part ≡ Err result }
    {
        match self.check.into_bad() {
            Some(bad) => bad.fault,
            None => unreachable!(),
        }
    }

    /// The transactions of the segment that these edits are, or its first fault.
    pub(crate) fn into_txs(self) -> Result<Vec<Tx>, SegmentFault>
        ensures { (read : Reading) (part : Part) → HasRead read part self → IsAllOf part read
            → MatchResult result (λ txs. (g : Segment) × (segment_of part ≡ Ok g) × IsSegment g × (g.txs ≡ txs.items)) (λ fault. segment_of part ≡ Err fault) }
    {
        let SegmentInHand { check, txs, .. } = self;
        match check.into_bad() {
            Some(bad) => Err(bad.fault),
            None => Ok(txs),
        }
    }
}
