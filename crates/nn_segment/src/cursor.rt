//! Where a log is read: what is left of the segment in hand, and the next transaction.
ghost use Rattle.std.specs.Prelude.{◌≡◌, ◌≢◌, ◌≤◌, ◌<◌, ◌^◌, ◌+◌, ◌∷◌, [], List, Ok, drop, length, MatchOption, IfOk, IfSome, IfNone, OnErr};
ghost use Rattle.nn_types.specs.declared.tx.Tx.{Tx as Transaction};
ghost use Rattle.nn_model.specs.Log.{counted};
ghost use Rattle.nn_segment.specs.Segment.{first_txid};
ghost use Rattle.nn_segment.specs.Source.{Answer};
ghost use Rattle.nn_segment.specs.Cursor.{is_passed, PassesOver, TakesUp, ReadsOn};

use crate::fault::SourceFault;
use crate::parsed::{Parsed, first_txid};
use crate::source::{Item, SegmentSource};
use nn_types::Tx;
use std::alloc::Global;
use std::collections::VecDeque;
use std::marker::Model;

/// What a source gave that was asked for its next segment.
#[derive(Clone, Copy, Debug, PartialEq, Eq)]
pub enum TakenUp {
    /// A segment of which transactions come next. They are in hand now.
    New,
    /// A segment all of whose transactions are old.
    Old,
    /// A segment that begins above the next transaction, which is therefore missing.
    Disorder,
    /// The end of the source.
    End,
}

/// What a log gives next.
#[derive(Debug, Drop)]
pub enum Next {
    Transaction(Tx),
    /// A segment begins above the next transaction, which is therefore missing.
    Disorder,
    Over,
}

/// Where a log is read: what is left of the segment in hand. The source is lent to each call that asks it, and may be
/// another one at the next call.
#[derive(Debug, Drop)]
pub struct Cursor {
    txs: VecDeque<Tx>,
}

impl Model for Cursor {
    ghost use Rattle.std.specs.Prelude.{List};
    ghost use Rattle.nn_types.specs.declared.tx.Tx.{Tx};

    ghost Value = { List Tx };

    ghost view = { λ c. c.txs.items };
}

impl Cursor {
    /// Nothing is in hand. Takes no memory.
    pub fn new(alloc: Global) -> Cursor
        ensures { result ≡ [] }
    {
        Cursor {
            txs: VecDeque::new(alloc),
        }
    }

    /// The first transaction in hand.
    pub fn first(&self) -> Option<&Tx>
        ensures { MatchOption result (self.now ≡ []) (λ tx. (rest : List Transaction) × (self.now ≡ tx.now ∷ rest)) }
    {
        self.txs.front()
    }

    /// How many transactions are in hand.
    pub fn count(&self) -> usize
        ensures { result ≡ length self.now }
    {
        self.txs.len()
    }

    /// Lets go of the first transaction in hand.
    pub fn advance(&mut self)
        ensures { self.new ≡ drop 1 self.old }
    {
        drop(self.txs.pop_front());
    }

    /// Asks the source once, for the segment that comes after the transaction with this txid, and takes in hand what is
    /// above that one. What was in hand goes only where something new comes.
    pub fn take_up<S: SegmentSource>(
        &mut self,
        source: &mut S,
        last: u64,
    ) -> Result<TakenUp, SourceFault>
        requires { last < 2 ^ 63 }
        ensures takes { (answer : Answer) × S.gives source.old answer source.new × TakesUp last self.old answer self.new result }
        ensures lower { IfOk result (λ taken. taken ≢ TakenUp.End → S.left source.new < S.left source.old) }
        ensures failed { OnErr result (S.failures source.old < S.failures source.new) }
        ensures counted { S.failures source.old ≤ S.failures source.new }
        ensures ends { result ≡ Ok TakenUp.End → S.ended source.new }
        ensures missing { result ≡ Ok TakenUp.Disorder → last + 1 < 2 ^ 63 }
    {
        let Item::Segment(segment) = source.next()? else {
            return Ok(TakenUp::End);
        };
        if first_txid(segment.txs()) > last + 1 {
            return Ok(TakenUp::Disorder);
        }
        let txs = above(segment, last);
        if txs.is_empty() {
            return Ok(TakenUp::Old);
        }
        self.txs = txs;
        Ok(TakenUp::New)
    }

    /// What comes after the transaction with this txid. Transactions that are older, or that a segment gives again,
    /// are passed over; a source that fails may be asked again.
    pub fn next_transaction<S: SegmentSource>(
        &mut self,
        source: &mut S,
        last: u64,
    ) -> Result<Next, SourceFault>
        requires { last < 2 ^ 63 }
        ensures reads { ReadsOn S.gives last source.old self.old source.new self.new result }
        ensures over { result ≡ Ok Next.Over → S.ended source.new × (self.new ≡ []) }
        ensures failed { OnErr result (S.failures source.old < S.failures source.new) }
        ensures counted { S.failures source.old ≤ S.failures source.new }
    {
        'segments: loop {
            if let Some(tx) = self.take(last) {
                return Ok(Next::Transaction(tx));
            }
            match self.take_up(source, last)? {
                TakenUp::New => {}
                TakenUp::Old => {}
                TakenUp::Disorder => return Ok(Next::Disorder),
                TakenUp::End => return Ok(Next::Over),
            }
        }
    }

    // Takes transactions out of the hand up to the one after this txid, and answers that one.
    fn take(&mut self, last: u64) -> Option<Tx>
        requires { last < 2 ^ 63 }
        ensures some { IfSome result (λ tx. (tx.txid ≡ last + 1) × (counted last self.old ≡ tx ∷ counted tx.txid self.new)) }
        ensures none { IfNone result ((counted last self.old ≡ []) × (self.new ≡ [])) }
    {
        pass_over(&mut self.txs, last);
        self.txs.pop_front()
    }
}

// The transactions of a segment that are above this txid.
fn above(segment: Parsed, last: u64) -> VecDeque<Tx>
    requires small { last < 2 ^ 63 }
    requires low { first_txid segment.txs ≤ last + 1 }
    ensures { result.items ≡ counted last segment.txs }
{
    let mut txs = VecDeque::from(segment.into_txs());
    pass_over(&mut txs, last);
    txs
}

// Passes over transactions up to the one after this txid.
fn pass_over(txs: &mut VecDeque<Tx>, last: u64)
    requires { last < 2 ^ 63 }
    ensures { PassesOver last txs.old.items txs.new.items }
{
    'old: while is_passed(txs, last) {
        drop(txs.pop_front());
    }
}

// Whether there is a first one, and it is not the one after this txid.
fn is_passed(txs: &VecDeque<Tx>, last: u64) -> bool
    requires { last < 2 ^ 63 }
    ensures { result ≡ is_passed last txs.now.items }
{
    match txs.front() {
        Some(tx) => tx.txid.get() != last + 1,
        None => false,
    }
}
