//! Edits are kept until their segment ends. Then it is judged, and followed.
ghost use Rattle.std.specs.Prelude.{◌≡◌, ◌≤◌, ◌^◌, ◌+◌, ◌++◌, ◌∷◌, [], true, List, ℕ, drop, max, Ok, IfOk, IfErr, IsErrOf, OnOk, is_none, ◌⊎◌};
ghost use Rattle.nn_device.specs.Page.{PutsPiece};
ghost use Rattle.nn_edits.specs.Reading.{edit_of_line};
ghost use Rattle.nn_bytes.specs.Pieces.{is_unbroken};
ghost use Rattle.nn_segment.specs.Segment.{Segment, IsSegment, first_txid};
ghost use Rattle.nn_scenario.specs.Cut.{Part, no_lines};
ghost use Rattle.nn_scenario.specs.Reading.{Reading};
ghost use Rattle.nn_shadow.specs.Contents.{standby_of};
ghost use Rattle.nn_shadow.specs.Refusals.{apply_refusal};
ghost use Rattle.nn_live.specs.Live.{ends, follows, follows_txs, takes_edit};
ghost use Rattle.nn_live.specs.Serving.{Breaks, BreaksOff, HasRead, IsAllOf, IsNearEnd, HasPart, FollowsStep, SaysMore, ServiceSteps, keeps_edit, takes_segment, takes_tx};

use super::{Service, ServiceFault};
use crate::in_hand::SegmentInHand;
use crate::texts::{put_fault, put_gap};
use nn_device::{Page, Writer};
use nn_segment::{is_end, is_start};
use nn_shadow::ApplyFault;
use nn_types::Tx;
use std::io::Write;
use std::mem;

impl Service {
    /// An edit is put to those in hand. A start mark ends these first, and an end mark ends its segment: it is judged, and its new
    /// transactions are followed. What room a start mark takes is there before anything is told.
    pub(super) fn edit<W: Write>(
        &mut self,
        page: &mut Page,
        writer: &mut Writer<W>,
        text: &[u8],
        tx: Tx,
    ) -> Result<(), ServiceFault>
        requires unbroken { is_unbroken text.now ≡ true }
        requires read { edit_of_line text.now ≡ Ok tx }
        requires from_one { 1 ≤ tx.txid }
        ensures ok { OnOk result (ServiceSteps (λ asked s. takes_edit asked (record { text = text.now; tx = tx }) s) self.old self.new (λ told. PutsPiece told page.old writer.old page.new writer.new)) }
        ensures exhausted { IsErrOf result ServiceFault.Exhausted → IsNearEnd self.old }
        ensures prefix { IfErr result (λ _. BreaksOff (λ asked s. takes_edit asked (record { text = text.now; tx = tx }) s) self.old (λ told. PutsPiece told page.old writer.old page.new writer.new)) }
    {
        if !is_start(&tx.edit) {
            return self.keep_edit(page, writer, text, tx);
        }
        let txid = tx.txid.get();
        let mut begun = SegmentInHand::none(self.alloc);
        begun.push(text, tx)?;
        self.end_edits(page, writer)?;
        self.take_up(begun, txid);
        Ok(())
    }

    // These edits are in hand from now on, up to this txid.
    fn take_up(&mut self, begun: SegmentInHand, last: u64)
        requires { (part : Part) × HasPart part begun }
        ensures { self.new ≡ record self.old { in_hand = begun; known = max self.old.known last } }
    {
        self.in_hand = begun;
        self.known = self.known.max(last);
    }

    /// The edits in hand, if there are any, are a segment without an end: its first fault is told.
    pub(super) fn end_edits<W: Write>(
        &mut self,
        page: &mut Page,
        writer: &mut Writer<W>,
    ) -> Result<(), ServiceFault>
        ensures ok { OnOk result (ServiceSteps (λ asked s. ends asked s) self.old self.new (λ told. PutsPiece told page.old writer.old page.new writer.new)) }
        ensures none { OnOk result (self.new.in_hand.edits ≡ 0) }
        ensures counts { OnOk result ((self.new.segments ≤ self.old.segments + 1) × (self.new.passed ≡ self.old.passed)) }
        ensures exhausted { IfErr result (λ fault. (fault ≡ ServiceFault.Exhausted) × (2 ^ 63 ≤ self.old.segments)) }
        ensures left { IfErr result (λ _. self.new ≡ self.old) }
        ensures put { IfErr result (λ _. PutsPiece [] page.old writer.old page.new writer.new) }
        ensures says { IfErr result (λ _. SaysMore (λ asked s. ends asked s) self.old) }
    {
        if self.in_hand.is_empty() {
            return Ok(());
        }
        self.count_segment()?;
        let in_hand = mem::replace(&mut self.in_hand, SegmentInHand::none(self.alloc));
        let fault = in_hand.into_fault();
        put_fault(page, writer, fault.number(), " segment ", self.segments);
        Ok(())
    }

    // An edit is put to those in hand. An end mark ends them.
    fn keep_edit<W: Write>(
        &mut self,
        page: &mut Page,
        writer: &mut Writer<W>,
        text: &[u8],
        tx: Tx,
    ) -> Result<(), ServiceFault>
        requires unbroken { is_unbroken text.now ≡ true }
        requires read { edit_of_line text.now ≡ Ok tx }
        requires from_one { 1 ≤ tx.txid }
        ensures ok { OnOk result (ServiceSteps (keeps_edit (record { text = text.now; tx = tx })) self.old self.new (λ told. PutsPiece told page.old writer.old page.new writer.new)) }
        ensures exhausted { IsErrOf result ServiceFault.Exhausted → (2 ^ 62 ≤ self.old.in_hand.edits + 1) ⊎ (2 ^ 63 ≤ self.old.segments) ⊎ (2 ^ 63 ≤ self.old.passed) }
        ensures prefix { IfErr result (λ _. BreaksOff (keeps_edit (record { text = text.now; tx = tx })) self.old (λ told. PutsPiece told page.old writer.old page.new writer.new)) }
    {
        let txid = tx.txid.get();
        let ends = is_end(&tx.edit);
        self.in_hand.push(text, tx)?;
        self.known = self.known.max(txid);
        if !ends {
            return Ok(());
        }
        let in_hand = mem::replace(&mut self.in_hand, SegmentInHand::none(self.alloc));
        self.end_segment(page, writer, in_hand)
    }

    // These edits are a segment: it is followed, or its first fault is told.
    fn end_segment<W: Write>(
        &mut self,
        page: &mut Page,
        writer: &mut Writer<W>,
        in_hand: SegmentInHand,
    ) -> Result<(), ServiceFault>
        requires edits { (read : Reading) × (part : Part) × HasRead read part in_hand × IsAllOf part read }
        requires none { HasPart no_lines self.old.in_hand }
        ensures ok { OnOk result ((told : List ℕ) × PutsPiece told page.old writer.old page.new writer.new
            × ((read : Reading) (part : Part) → HasRead read part in_hand → IsAllOf part read → FollowsStep (takes_segment part) self.old self.new told)) }
        ensures exhausted { IsErrOf result ServiceFault.Exhausted → (2 ^ 63 ≤ self.old.segments) ⊎ (2 ^ 63 ≤ self.old.passed) }
        ensures prefix { IfErr result (λ _. (told : List ℕ) × PutsPiece told page.old writer.old page.new writer.new
            × ((read : Reading) (part : Part) → HasRead read part in_hand → IsAllOf part read → Breaks (takes_segment part) self.old told)) }
    {
        self.count_segment()?;
        match in_hand.into_txs() {
            Ok(txs) => self.follow_txs(page, writer, &txs),
            Err(fault) => {
                put_fault(page, writer, fault.number(), " segment ", self.segments);
                Ok(())
            }
        }
    }

    // One more segment has ended.
    fn count_segment(&mut self) -> Result<(), ServiceFault>
        ensures ok { OnOk result (self.new ≡ record self.old { segments = self.old.segments + 1 }) }
        ensures exhausted { IfErr result (λ fault. (fault ≡ ServiceFault.Exhausted) × (2 ^ 63 ≤ self.old.segments)) }
        ensures left { IfErr result (λ _. self.new ≡ self.old) }
    {
        let Some(segments) = self.segments.checked_add(1) else {
            return Err(ServiceFault::Exhausted);
        };
        self.segments = segments;
        Ok(())
    }

    // The transactions of a segment: of those that are new, up to one that is refused, each is applied. Behind a gap none is.
    fn follow_txs<W: Write>(
        &mut self,
        page: &mut Page,
        writer: &mut Writer<W>,
        txs: &[Tx],
    ) -> Result<(), ServiceFault>
        requires { (g : Segment) × IsSegment g × (g.txs ≡ txs.now) }
        ensures ok { OnOk result (ServiceSteps (λ asked s. follows_txs asked txs.now s) self.old self.new (λ told. PutsPiece told page.old writer.old page.new writer.new)) }
        ensures exhausted { IsErrOf result ServiceFault.Exhausted → 2 ^ 63 ≤ self.old.passed }
        ensures prefix { IfErr result (λ _. BreaksOff (λ asked s. follows_txs asked txs.now s) self.old (λ told. PutsPiece told page.old writer.old page.new writer.new)) }
    {
        self.shadow.recall_invariant();
        let Some(first) = txs.first() else {
            unreachable!();
        };
        let first = first.txid.get();
        let next = self.shadow.last_txid().get() + 1;
        if next < first {
            put_gap(page, writer, next, self.segments);
            return Ok(());
        }
        let new = behind(txs, next - first);
        let Some(passed) = self.passed.checked_add((txs.len() - new.len()) as u64) else {
            return Err(ServiceFault::Exhausted);
        };
        self.passed = passed;
        self.follow(page, writer, new)
    }

    // A transaction is applied, and with the history it is told what that did; or it is told why it is refused. Says whether it
    // was applied.
    fn apply<W: Write>(
        &mut self,
        page: &mut Page,
        writer: &mut Writer<W>,
        tx: &Tx,
    ) -> Result<bool, ServiceFault>
        ensures ok { IfOk result (λ _. ServiceSteps (takes_tx tx.now) self.old self.new (λ text. PutsPiece text page.old writer.old page.new writer.new)) }
        ensures memory { IfErr result (λ fault. fault ≡ ServiceFault.OutOfMemory) }
        ensures put { IfErr result (λ _. PutsPiece [] page.old writer.old page.new writer.new) }
        ensures applied { IfOk result (λ applied. applied ≡ is_none (apply_refusal self.old.shadow.phase (standby_of self.old.shadow) tx.now)) }
    {
        match self.shadow.apply(tx) {
            Ok(()) => {
                self.tell_events(page, writer);
                Ok(true)
            }
            Err(fault) => {
                if let ApplyFault::OutOfMemory = fault {
                    return Err(ServiceFault::OutOfMemory);
                }
                put_fault(page, writer, fault.number(), " txid ", tx.txid.get());
                Ok(false)
            }
        }
    }

    // Transactions in order, up to the first that is refused.
    fn follow<W: Write>(
        &mut self,
        page: &mut Page,
        writer: &mut Writer<W>,
        txs: &[Tx],
    ) -> Result<(), ServiceFault>
        ensures ok { IfOk result (λ _. ServiceSteps (λ asked s. follows asked txs.now s) self.old self.new (λ text. PutsPiece text page.old writer.old page.new writer.new)) }
        ensures memory { IfErr result (λ fault. fault ≡ ServiceFault.OutOfMemory) }
        ensures prefix { IfErr result (λ _. BreaksOff (λ asked s. follows asked txs.now s) self.old (λ told. PutsPiece told page.old writer.old page.new writer.new)) }
    {
        let mut rest = txs;
        'txs: while let Some((tx, later)) = rest.split_first() {
            if !self.apply(page, writer, tx)? {
                return Ok(());
            }
            rest = later;
        }
        Ok(())
    }
}

// The transactions behind so many.
fn behind(txs: &[Tx], count: u64) -> &[Tx]
    ensures { result.now ≡ drop count txs.now }
{
    if count >= txs.len() as u64 {
        return &[];
    }
    &txs[count as usize..]
}
