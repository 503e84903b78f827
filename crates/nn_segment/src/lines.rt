//! The lines of a segment's bytes, each read as a transaction.
ghost use Rattle.std.specs.Prelude.{◌≡◌, ◌≤◌, ◌<◌, ◌==◌, ◌+◌, ◌++◌, ◌∷◌, [], length, drop, count_by, true, false, OnOk, OnErr};
ghost use Rattle.nn_bytes.specs.Lines.{line_feed};
ghost use Rattle.nn_segment.specs.declared.fault.SegmentFault.TheVariants.{TornLine};
ghost use Rattle.nn_segment.specs.Lines.{lines_of, is_ended, reads_of};
ghost use Rattle.nn_segment.specs.Outcome.{StopsAt};

use crate::fault::SegmentFault;
use nn_bytes::line_end;
use nn_edits::{LineFault, Scratch, read_edit};
use nn_types::Tx;
use std::alloc::{AllocError, Global};

/// The transactions of the lines before the first bad one, and why that one is bad.
#[derive(Drop)]
pub(crate) struct ReadLines {
    pub(crate) txs: Vec<Tx>,
    pub(crate) bad: Option<LineFault>,
}

/// Reads line after line, up to the first that is no transaction or finds no memory.
pub(crate) fn read_lines(alloc: Global, bytes: &[u8]) -> ReadLines
    ensures { StopsAt (reads_of bytes.now) result.txs.items result.bad }
{
    let mut txs = Vec::new(alloc);
    let mut scratch = Scratch::new(alloc);
    let mut rest = bytes;
    'lines: while !rest.is_empty() {
        let end = line_end(rest);
        let tx = match read_edit(alloc, &mut scratch, &rest[..end]) {
            Ok(tx) => tx,
            Err(fault) => {
                return ReadLines {
                    txs,
                    bad: Some(fault),
                };
            }
        };
        if let Err(_) = push_tx(&mut txs, tx) {
            return ReadLines {
                txs,
                bad: Some(LineFault::OutOfMemory),
            };
        }
        rest = after_line(rest, end);
    }
    ReadLines { txs, bad: None }
}

fn push_tx(txs: &mut Vec<Tx>, tx: Tx) -> Result<(), AllocError>
    ensures ok { OnOk result (txs.new.items ≡ txs.old.items ++ tx ∷ []) }
    ensures err { OnErr result (txs.new.items ≡ txs.old.items) }
{
    txs.push(tx)?;
    Ok(())
}

/// The fault of bytes whose last line has no line feed, with the number of that line.
pub(crate) fn torn_line(bytes: &[u8]) -> SegmentFault
    requires some { 0 < length bytes.now }
    requires torn { is_ended bytes.now ≡ false }
    ensures { result ≡ TornLine (length (lines_of bytes.now)) }
{
    SegmentFault::TornLine {
        line: line_feeds(bytes) as u64 + 1,
    }
}

fn line_feeds(bytes: &[u8]) -> usize
    ensures count { result ≡ count_by (λ b. b == line_feed) bytes.now }
    ensures within { result ≤ length bytes.now }
{
    bytes.iter().filter(|b| **b == b'\n').count()
}

// What follows the line that ends there.
fn after_line(bytes: &[u8], end: usize) -> &[u8]
    requires { end ≤ length bytes.now }
    ensures { result.now ≡ drop (end + 1) bytes.now }
{
    if end == bytes.len() {
        &bytes[end..]
    } else {
        &bytes[end + 1..]
    }
}
