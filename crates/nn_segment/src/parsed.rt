//! A segment that was found whole.
ghost use Rattle.std.specs.Prelude.{◌≡◌, ◌⊎◌, ◌≤◌, ◌<◌, ◌^◌, ◌+◌, ◌||◌, length, None, Some, Ok, Err, map, drop, string_bytes, MatchResult};
ghost use Rattle.nn_model.specs.Apply.{first_fault};
ghost use Rattle.nn_segment.specs.Name.{txids_of};
ghost use Rattle.nn_segment.specs.Lines.{reads_of};
ghost use Rattle.nn_segment.specs.Segment.{start_profile, allows, is_start, is_end, ends_once, first_txid, last_txid, IsSegment};
ghost use Rattle.nn_segment.specs.Reading.{bytes_checks, lines_fault, later_fault, names_txids, read_segment, fault_of_line};
ghost use Rattle.nn_segment.specs.Outcome.{SegmentGives, StopsAt};

use crate::fault::SegmentFault;
use crate::lines::{read_lines, torn_line};
use crate::name::parse_name;
use nn_edits::LineFault;
use nn_types::limits::MAX_INPUT;
use nn_types::{Edit, Profile, Tx, Txid};
use std::alloc::Global;
use std::marker::Model;

/// A segment of the log: a name, bytes, and the transactions of its lines. A start mark comes first, an end mark
/// last and none between; each transaction is the next one after the one before.
#[derive(Debug, Drop)]
pub struct Parsed {
    name: String,
    bytes: Vec<u8>,
    txs: Vec<Tx>,
}

impl Model for Parsed {
    ghost use Rattle.std.specs.Prelude.{string_bytes};
    ghost use Rattle.nn_segment.specs.Segment.{Segment, IsSegment};

    ghost Value = { Segment };

    ghost view = { λ p. record { name = string_bytes p.name; bytes = p.bytes.items; txs = p.txs.items } };

    ghost invariant = { λ p. IsSegment (record { name = string_bytes p.name; bytes = p.bytes.items; txs = p.txs.items }) };
}

impl Parsed {
    /// The segment that the bytes are under a name, or the first fault that applies. Each line is read once; name
    /// and bytes move into the segment.
    ///
    /// After a fault name and bytes are dropped. Time and memory are of the order of the bytes.
    pub fn of(alloc: Global, name: String, bytes: Vec<u8>) -> Result<Parsed, SegmentFault>
        ensures { SegmentGives result (read_segment (string_bytes name) bytes.items) }
    {
        let Some(txids) = parse_name(name.as_str()) else {
            return Err(SegmentFault::BadName);
        };
        check_bytes(&bytes)?;
        let read = read_lines(alloc, &bytes);
        after_lines(name, bytes, txids, read.txs, read.bad)
    }

    /// The same from what is known already: the name is of these txids, and the transactions are those of the bytes'
    /// lines. Takes no memory.
    pub fn from_lines(
        name: String,
        txids: (Txid, Txid),
        bytes: Vec<u8>,
        txs: Vec<Tx>,
    ) -> Result<Parsed, SegmentFault>
        requires named { txids_of (string_bytes name) ≡ Some txids }
        requires read { reads_of bytes.items ≡ map Ok txs.items }
        ensures { result ≡ read_segment (string_bytes name) bytes.items }
    {
        check_bytes(&bytes)?;
        after_lines(name, bytes, txids, txs, None)
    }

    /// The name.
    pub fn name(&self) -> &str
        ensures name { result.now ≡ self.now.name }
        ensures whole { IsSegment self.now }
    {
        self.name.as_str()
    }

    /// The bytes.
    pub fn bytes(&self) -> &[u8]
        ensures bytes { result.now ≡ self.now.bytes }
        ensures whole { IsSegment self.now }
    {
        self.bytes.as_slice()
    }

    /// The transactions.
    pub fn txs(&self) -> &[Tx]
        ensures txs { result.now ≡ self.now.txs }
        ensures whole { IsSegment self.now }
    {
        self.txs.as_slice()
    }

    /// The transactions themselves.
    pub fn into_txs(self) -> Vec<Tx>
        ensures txs { result.items ≡ self.txs }
        ensures whole { IsSegment self }
    {
        let Parsed { txs, .. } = self;
        txs
    }
}

// The fault of the bytes that can be told before any line is read.
fn check_bytes(bytes: &[u8]) -> Result<(), SegmentFault>
    ensures { MatchResult result (λ _. first_fault (bytes_checks bytes.now) ≡ None) (λ e. first_fault (bytes_checks bytes.now) ≡ Some e) }
{
    if bytes.len() > MAX_INPUT {
        return Err(SegmentFault::TooLong);
    }
    if bytes.is_empty() {
        return Err(SegmentFault::NoStart);
    }
    if bytes[bytes.len() - 1] != b'\n' {
        return Err(torn_line(bytes));
    }
    Ok(())
}

// The segment, where the lines were read up to the first bad one.
fn after_lines(
    name: String,
    bytes: Vec<u8>,
    txids: (Txid, Txid),
    txs: Vec<Tx>,
    bad: Option<LineFault>,
) -> Result<Parsed, SegmentFault>
    requires named { txids_of (string_bytes name) ≡ Some txids }
    requires bytes { first_fault (bytes_checks bytes.items) ≡ None }
    requires read { StopsAt (reads_of bytes.items) txs.items bad }
    ensures { (result ≡ read_segment (string_bytes name) bytes.items)
        ⊎ ((bad ≡ Some LineFault.OutOfMemory) × (result ≡ Err SegmentFault.OutOfMemory)) }
{
    if let Some(fault) = order_fault(&txs) {
        return Err(fault);
    }
    if let Some(fault) = bad {
        return Err(bad_line(txs.len(), fault));
    }
    if !ends_once(later(&txs)) {
        return Err(SegmentFault::NoEnd);
    }
    if !is_named(txids, &txs) {
        return Err(SegmentFault::NameMismatch);
    }
    Ok(Parsed { name, bytes, txs })
}

// The fault of the line after so many.
fn bad_line(before: usize, fault: LineFault) -> SegmentFault
    requires { before < 2 ^ 63 }
    ensures { result ≡ fault_of_line (before + 1) fault }
{
    match fault {
        LineFault::OutOfMemory => SegmentFault::OutOfMemory,
        fault => SegmentFault::BadLine {
            line: before as u64 + 1,
            fault,
        },
    }
}

// The first fault of the transactions: the first one is no start mark, or a later one is not the next, or the profile
// does not allow it.
fn order_fault(txs: &[Tx]) -> Option<SegmentFault>
    ensures { result ≡ lines_fault (map Ok txs.now) }
{
    let Some(first) = txs.first() else {
        return None;
    };
    let Some(profile) = start_profile(&first.edit) else {
        return Some(SegmentFault::NoStart);
    };
    later_fault(profile, first.txid.get() + 1, later(txs))
}

// The first fault of the transactions after the start mark, which has this profile. The expected txid is the next one.
fn later_fault(profile: Profile, expected: u64, txs: &[Tx]) -> Option<SegmentFault>
    requires { expected ≤ 2 ^ 63 }
    ensures { result ≡ later_fault profile 2 expected (map Ok txs.now) }
{
    let mut next = expected;
    for (place, tx) in txs.iter().enumerate() {
        if tx.txid.get() != next {
            return Some(SegmentFault::Gap { expected: next });
        }
        if !allows(profile, &tx.edit) {
            return Some(SegmentFault::WrongProfile {
                line: place as u64 + 2,
            });
        }
        next += 1;
    }
    None
}

// All transactions except the first.
fn later(txs: &[Tx]) -> &[Tx]
    ensures { result.now ≡ drop 1 txs.now }
{
    if txs.is_empty() { txs } else { &txs[1..] }
}

fn ends_once(txs: &[Tx]) -> bool
    ensures { result ≡ ends_once txs.now }
{
    for (place, tx) in txs.iter().enumerate() {
        if is_mark(&tx.edit) {
            return is_end(&tx.edit) && place + 1 == txs.len();
        }
    }
    false
}

fn is_named(txids: (Txid, Txid), txs: &[Tx]) -> bool
    ensures { result ≡ names_txids (Some txids) txs.now }
{
    txids.0.get() == first_txid(txs) && txids.1.get() == last_txid(txs)
}

// The txid of the first transaction, 0 where there is none.
pub(crate) fn first_txid(txs: &[Tx]) -> u64
    ensures { result ≡ first_txid txs.now }
{
    match txs.first() {
        Some(tx) => tx.txid.get(),
        None => 0,
    }
}

fn last_txid(txs: &[Tx]) -> u64
    ensures { result ≡ last_txid txs.now }
{
    match txs.last() {
        Some(tx) => tx.txid.get(),
        None => 0,
    }
}

fn is_mark(edit: &Edit) -> bool
    ensures { result ≡ (is_start edit.now || is_end edit.now) }
{
    is_start(edit) || is_end(edit)
}

/// Whether the edit is a mark that starts a segment.
pub fn is_start(edit: &Edit) -> bool
    ensures { result ≡ is_start edit.now }
{
    start_profile(edit).is_some()
}

/// The profile of a start mark.
pub fn start_profile(edit: &Edit) -> Option<Profile>
    ensures { result ≡ start_profile edit.now }
{
    match edit {
        Edit::StartSegment { profile } => Some(*profile),
        _ => None,
    }
}

/// Whether a segment of the profile may have the edit.
// Each operation is named, so that a new one has to be put here.
pub fn allows(profile: Profile, edit: &Edit) -> bool
    ensures { result ≡ allows profile edit.now }
{
    match profile {
        Profile::One => match edit {
            Edit::StartSegment { .. }
            | Edit::EndSegment
            | Edit::Mkdir { .. }
            | Edit::Add { .. }
            | Edit::AddBlock { .. }
            | Edit::UpdateBlocks { .. }
            | Edit::Close { .. }
            | Edit::Rename { .. }
            | Edit::Delete { .. }
            | Edit::SetReplication { .. }
            | Edit::AllocateBlockId { .. }
            | Edit::SetGenstamp { .. } => true,
            Edit::Append { .. } => false,
        },
        Profile::Two => true,
    }
}

/// Whether the edit is the mark that ends a segment.
pub fn is_end(edit: &Edit) -> bool
    ensures { result ≡ is_end edit.now }
{
    matches!(edit, Edit::EndSegment)
}
