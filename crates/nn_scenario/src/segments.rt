//! The edit lines of a scenario as segments.
ghost use Rattle.std.specs.Prelude.{◌≡◌, ◌≢◌, ◌≤◌, ◌++◌, ◌∷◌, [], true, Ok, Err, IfOk, IfErr, OnOk, OnErr, MatchOption, max};
ghost use Rattle.std.specs.List.{All};
ghost use Rattle.nn_bytes.specs.Lines.{line_feed};
ghost use Rattle.nn_edits.specs.Reading.{edit_of_line};
ghost use Rattle.nn_bytes.specs.Pieces.{is_unbroken};
ghost use Rattle.nn_segment.specs.Name.{segment_file_name};
ghost use Rattle.nn_segment.specs.Outcome.{SegmentGives};
ghost use Rattle.nn_scenario.specs.Cut.{no_lines, with_line, last_part, part_name, segment_of, segments_from};

use nn_segment::{Parsed, SegmentFault, segment_name};
use nn_types::{Tx, Txid};
use std::alloc::{AllocError, Global};
use std::marker::Model;

/// Lines of the log that are to become one segment: their bytes, each with one line feed after it, and the
/// transactions that they were read as.
#[derive(Debug, Drop)]
pub struct Part {
    bytes: Vec<u8>,
    txs: Vec<Tx>,
}

impl Model for Part {
    ghost use Rattle.nn_scenario.specs.Cut.{Part, AreRead};

    ghost Value = { Part };

    ghost view = { λ p. record { bytes = p.bytes.items; txs = p.txs.items } };

    ghost invariant = { λ p. AreRead (record { bytes = p.bytes.items; txs = p.txs.items }) };
}

impl Part {
    /// No lines. Takes no memory.
    pub fn new(alloc: Global) -> Part
        ensures { result ≡ no_lines }
    {
        Part {
            bytes: Vec::new(alloc),
            txs: Vec::new(alloc),
        }
    }

    /// The lines and one more, which is lent without a line feed. Where memory is refused all of them are gone.
    pub fn with_line(self, text: &[u8], tx: Tx) -> Result<Part, AllocError>
        requires unbroken { is_unbroken text.now ≡ true }
        requires read { edit_of_line text.now ≡ Ok tx }
        requires from_one { 1 ≤ tx.txid }
        ensures { IfOk result (λ part. part ≡ with_line self (record { text = text.now; tx = tx })) }
    {
        let Part { mut bytes, mut txs } = self;
        add_line(&mut bytes, text)?;
        txs.push(tx)?;
        Ok(Part { bytes, txs })
    }

    /// Adds the lines to the parts, if there are any. Where memory is refused the parts stay.
    pub fn end(self, parts: &mut Vec<Part>) -> Result<(), AllocError>
        ensures ok { OnOk result (parts.new.items ≡ parts.old.items ++ last_part self) }
        ensures left { OnErr result (parts.new.items ≡ parts.old.items) }
    {
        if self.txs.is_empty() {
            return Ok(());
        }
        parts.push(self)?;
        Ok(())
    }

    /// The segment of these lines, named by its first and its last transaction, or its first fault. No line is
    /// read again.
    pub fn into_segment(self, alloc: Global) -> Result<Parsed, SegmentFault>
        ensures { SegmentGives result (segment_of self) }
    {
        let Part { bytes, txs } = self;
        let Some(txids) = ends_of(&txs) else {
            return Err(SegmentFault::BadName);
        };
        match segment_name(alloc, txids.0, txids.1) {
            Ok(name) => Parsed::from_lines(name, txids, bytes, txs),
            Err(AllocError) => Err(SegmentFault::OutOfMemory),
        }
    }
}

fn add_line(bytes: &mut Vec<u8>, text: &[u8]) -> Result<(), AllocError>
    ensures { OnOk result (bytes.new.items ≡ bytes.old.items ++ text.now ++ line_feed ∷ []) }
{
    bytes.extend_from_slice(text)?;
    bytes.push(b'\n')?;
    Ok(())
}

// The txids of the name of transactions; none where there are no transactions.
fn ends_of(txs: &[Tx]) -> Option<(Txid, Txid)>
    requires { All (λ tx. 1 ≤ tx.txid) txs.now }
    ensures { MatchOption result (part_name txs.now ≡ []) (λ p. (part_name txs.now ≡ segment_file_name p.0 p.1) × (1 ≤ p.0) × (p.0 ≤ p.1)) }
{
    let first = txs.first()?;
    let last = txs.last()?;
    Some((first.txid, no_lower(first.txid, last.txid)))
}

// The last txid, or the first where the last is lower.
fn no_lower(first: Txid, last: Txid) -> Txid
    ensures { result ≡ max first last }
{
    first.max(last)
}

/// A segment that has a fault. Segments count from 1.
#[derive(Debug, Drop)]
pub struct PartFault {
    pub fault: SegmentFault,
    pub segment: u64,
}

/// The segments of parts, or the first that has a fault.
pub fn read_segments(alloc: Global, parts: Vec<Part>) -> Result<Vec<Parsed>, PartFault>
    ensures ok { IfOk result (λ v. segments_from 1 parts.items ≡ Ok v.items) }
    ensures bad { IfErr result (λ e. e.fault ≢ SegmentFault.OutOfMemory → segments_from 1 parts.items ≡ Err e) }
{
    let mut segments = Vec::new(alloc);
    for part in parts {
        let segment = segments.len() as u64 + 1;
        let parsed = match part.into_segment(alloc) {
            Ok(parsed) => parsed,
            Err(fault) => return Err(PartFault { fault, segment }),
        };
        if let Err(_) = segments.push(parsed) {
            let fault = SegmentFault::OutOfMemory;
            return Err(PartFault { fault, segment });
        }
    }
    Ok(segments)
}
