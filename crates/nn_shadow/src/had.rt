//! What a DataNode has, as its messages tell.
ghost use Rattle.std.specs.Prelude.{◌≡◌, ◌+◌, ◌≤◌, ◌++◌, ◌<◌, [], true, length, T, Some, IfOk, OnOk, OnErr, vec_len, vec_capacity};
ghost use Rattle.std.specs.FinMap.Entries.{is_sorted};
ghost use Rattle.std.specs.Ordering.{nat_cmp};
ghost use Rattle.nn_types.specs.declared.report.Message.{Message};
ghost use Rattle.nn_model.specs.Items.{nothing_known, revoked, finished, begun_after, with_item, with_items};
ghost use Rattle.nn_shadow.specs.Notes.{number_noted, with_notes, before, onward, past, is_next, note_left, merged};
ghost use Rattle.nn_shadow.specs.Steps.{AreApart};

use nn_types::{BlockId, GenerationStamp, Kind, Length, Message};
use std::alloc::{AllocError, Global};
use std::marker::Model;

/// The blocks that a DataNode has, each with the number of the last item about it, and the begin of the full report that
/// is open.
///
/// An item is noted behind those that came before it. Only where the blocks are read, or where too many notes wait, are the
/// notes sorted in among the blocks: so a note takes no search.
#[derive(Debug, Drop)]
pub(crate) struct Had {
    // By ascending block.
    has: Vec<(BlockId, u64)>,
    // In the order in which they came. The number 0 stands for a delete.
    told: Vec<(BlockId, u64)>,
    begun: Option<u64>,
}

impl Model for Had {
    ghost use Rattle.nn_shadow.specs.Notes.{Notes};

    ghost Value = { Notes };

    ghost use Rattle.std.specs.Prelude.{vec_len, vec_capacity};
    ghost use Rattle.nn_shadow.specs.Notes.{notes_of, IsTidy};

    ghost view = { λ h. notes_of h.has.items h.told.items h.begun (vec_len h.has) (vec_len h.told) (vec_capacity h.told) };

    ghost invariant = { λ h. IsTidy h.has.items (vec_len h.has) (vec_len h.told) };
}

impl Had {
    /// Nothing was told yet.
    pub fn new(alloc: Global) -> Had
        ensures { result.having ≡ nothing_known }
    {
        Had {
            has: Vec::new(alloc),
            told: Vec::new(alloc),
            begun: None,
        }
    }

    /// Makes room for one note. Where many wait, they are sorted in: O(blocks), once for an eighth as many notes.
    pub fn reserve(&mut self) -> Result<(), AllocError>
        ensures having { self.new.having ≡ self.old.having }
        ensures room { OnOk result (self.new.room ≡ true) }
    {
        if self.told.len() >= self.has.len() / 8 + 256 {
            let Ok(()) = settle(&mut self.has, &mut self.told) else {
                return Err(AllocError);
            };
        }
        let Ok(()) = self.told.reserve(1) else {
            return Err(AllocError);
        };
        Ok(())
    }

    /// Takes note of an item.
    pub fn note(&mut self, item: &Message)
        requires room { self.old.room ≡ true }
        requires number { 1 ≤ item.now.number }
        ensures { self.new.having ≡ record self.old.having { has = with_item self.old.having.has item.now } }
    {
        let number = number_noted(item);
        self.told.push_reserved((item.block, number));
    }

    /// Takes note of a message behind its items: it may begin a full report, or end the one that is open.
    pub fn note_message(&mut self, m: &Message)
        ensures { self.new.having ≡ record self.old.having { begun = begun_after m.now.kind self.old.having.begun m.now.number } }
    {
        match m.kind {
            Kind::Begin => self.begun = Some(m.number),
            Kind::Finish => self.begun = None,
            Kind::Receiving | Kind::Received | Kind::Deleted | Kind::Listed => {}
        }
    }

    /// The number of the begin of the full report that is open.
    pub fn begun(&self) -> Option<u64>
        ensures { result ≡ self.now.having.begun }
    {
        self.begun
    }

    /// The items of the end of a full report, by ascending block: O(blocks that the DataNode has). All notes are sorted in
    /// before.
    pub fn left_out(&mut self, alloc: Global, finish: &Message) -> Result<Vec<Message>, AllocError>
        ensures having { self.new.having ≡ self.old.having }
        ensures settled { OnOk result (self.new.settled ≡ true) }
        ensures items { IfOk result (λ gone. gone.items ≡ finished self.old.having.begun self.old.having.has finish.now) }
        ensures apart { IfOk result (λ gone. AreApart gone.items) }
    {
        let Ok(()) = settle(&mut self.has, &mut self.told) else {
            return Err(AllocError);
        };
        let Some(begin) = self.begun else {
            return Ok(Vec::new(alloc));
        };
        told_before(alloc, begin, self.has.as_slice(), finish)
    }

    /// Forgets the blocks that the end of a full report revokes.
    pub fn forget_left_out(&mut self)
        requires settled { self.old.settled ≡ true }
        ensures { (finish : Message) → self.new.having ≡ record self.old.having { has = with_items self.old.having.has (finished self.old.having.begun self.old.having.has finish) } }
    {
        let Some(begin) = self.begun else {
            return;
        };
        self.has.retain(|had| had.1 >= begin);
    }
}

// Sorts the notes in among the blocks. Of several notes about one block the last one counts.
fn settle(has: &mut Vec<(BlockId, u64)>, told: &mut Vec<(BlockId, u64)>) -> Result<(), AllocError>
    requires sorted { T (is_sorted nat_cmp has.old.items) }
    ensures has { OnOk result (has.new.items ≡ with_notes has.old.items told.old.items) }
    ensures told { OnOk result ((told.new.items ≡ []) × (vec_len told.new ≡ 0)) }
    ensures sorted { T (is_sorted nat_cmp has.new.items) }
    ensures err { OnErr result ((has.new ≡ has.old) × (told.new.items ≡ told.old.items) × (vec_len told.new ≡ vec_len told.old)) }
{
    let alloc = *has.allocator();
    let mut all = Vec::new(alloc);
    let Ok(()) = all.reserve(has.len() + told.len()) else {
        return Err(AllocError);
    };
    let Ok(()) = told.sort_by_key(|note| note.0) else {
        return Err(AllocError);
    };
    merge(has.as_slice(), told.as_slice(), &mut all);
    *has = all;
    told.clear();
    Ok(())
}

// Blocks by ascending block, with notes in the same order.
fn merge(has: &[(BlockId, u64)], told: &[(BlockId, u64)], all: &mut Vec<(BlockId, u64)>)
    requires room { vec_len all.old + (length has.now + length told.now) ≤ vec_capacity all.old }
    ensures { all.new.items ≡ all.old.items ++ merged has.now told.now }
{
    let mut left = has;
    let mut waiting = told;
    'notes: while let Some((note, later)) = waiting.split_first() {
        let onward = move_before(left, note.0, all);
        left = past(onward, note.0);
        push_left(note, later, all);
        waiting = later;
    }
    move_all(left, all);
}

// Moves the blocks before this one, and gives the others back.
fn move_before<'a>(
    has: &'a [(BlockId, u64)],
    block: BlockId,
    all: &mut Vec<(BlockId, u64)>,
) -> &'a [(BlockId, u64)]
    requires room { vec_len all.old + length has.now ≤ vec_capacity all.old }
    ensures moved { all.new.items ≡ all.old.items ++ before block has.now }
    ensures others { result.now ≡ onward block has.now }
    ensures room { (vec_capacity all.new ≡ vec_capacity all.old) × (vec_len all.new + length result.now ≡ vec_len all.old + length has.now) }
{
    let mut left = has;
    'older: while let Some((had, others)) = left.split_first() {
        if had.0 >= block {
            return left;
        }
        all.push_reserved(*had);
        left = others;
    }
    left
}

// Without this block, if it is the first one.
fn past<'a>(has: &'a [(BlockId, u64)], block: BlockId) -> &'a [(BlockId, u64)]
    ensures others { result.now ≡ past block has.now }
    ensures shorter { length result.now ≤ length has.now }
{
    let Some((had, others)) = has.split_first() else {
        return has;
    };
    if had.0 == block { others } else { has }
}

// Moves a note, unless it is a delete or the next one is about its block too.
fn push_left(note: &(BlockId, u64), later: &[(BlockId, u64)], all: &mut Vec<(BlockId, u64)>)
    requires room { vec_len all.old < vec_capacity all.old }
    ensures items { all.new.items ≡ all.old.items ++ note_left note.now later.now }
    ensures room { vec_len all.new ≤ vec_len all.old + 1 }
    ensures capacity { vec_capacity all.new ≡ vec_capacity all.old }
{
    if note.1 == 0 {
        return;
    }
    if is_next(later, note.0) {
        return;
    }
    all.push_reserved(*note);
}

// Whether the next note is about this block too.
fn is_next(told: &[(BlockId, u64)], block: BlockId) -> bool
    ensures { result ≡ is_next block told.now }
{
    let Some((note, _)) = told.split_first() else {
        return false;
    };
    note.0 == block
}

fn move_all(has: &[(BlockId, u64)], all: &mut Vec<(BlockId, u64)>)
    requires room { vec_len all.old + length has.now ≤ vec_capacity all.old }
    ensures { all.new.items ≡ all.old.items ++ has.now }
{
    let mut left = has;
    'rest: while let Some((had, others)) = left.split_first() {
        all.push_reserved(*had);
        left = others;
    }
}

// The number under which an item is noted: 0 for a delete.
fn number_noted(item: &Message) -> u64
    ensures { result ≡ number_noted item.now }
{
    if item.kind == Kind::Deleted {
        0
    } else {
        item.number
    }
}

// The items that revoke the blocks that were told before the begin.
fn told_before(
    alloc: Global,
    begin: u64,
    has: &[(BlockId, u64)],
    finish: &Message,
) -> Result<Vec<Message>, AllocError>
    requires sorted { T (is_sorted nat_cmp has.now) }
    ensures items { IfOk result (λ gone. gone.items ≡ finished (Some begin) has.now finish.now) }
    ensures apart { IfOk result (λ gone. AreApart gone.items) }
{
    let mut gone = Vec::new(alloc);
    let mut left = has;
    'had: while let Some((had, others)) = left.split_first() {
        if had.1 < begin {
            let Ok(()) = gone.push(revoked(finish, had.0)) else {
                return Err(AllocError);
            };
        }
        left = others;
    }
    Ok(gone)
}

// The item by which the end of a full report takes a block back.
fn revoked(finish: &Message, block: BlockId) -> Message
    ensures { result ≡ revoked finish.now block }
{
    Message {
        block,
        stamp: GenerationStamp::ZERO,
        len: Length::ZERO,
        kind: Kind::Deleted,
        ..*finish
    }
}
