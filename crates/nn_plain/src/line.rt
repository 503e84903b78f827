//! The object that a plain line is, read member by member.
ghost use Rattle.std.specs.Prelude.{◌≡◌, ◌<◌, ℕ, List, length, Some, IsTrue, true};
ghost use Rattle.serde_json.specs.Data.{Data, Members, object, no_members, put};
ghost use Rattle.serde_json.specs.Read.{read};
ghost use Rattle.nn_bytes.specs.Runs.{is_unescaped_line};
ghost use Rattle.nn_plain.specs.Ahead.{data_at, members_at};

use crate::blocks::plain_blocks;
use crate::tokens::Tokens;
use crate::value::{Plain, Slots};
use std::alloc::Global;

/// Whether a text without escapes is a plain line. Then the slots have its members.
///
/// Where it is not, the slots have any members, and are to be made anew. A line whose blocks find no memory is none
/// either.
#[inline(always)]
pub fn read_plain<'a, S: Slots<'a>>(alloc: Global, line: &'a str, slots: &mut S) -> bool
    requires unescaped { is_unescaped_line line.now ≡ true }
    requires none { S.seen slots.old no_members }
    ensures { IsTrue result → (ms : Members) × (read line.now ≡ Some (object ms)) × S.seen slots.new ms }
{
    let Some(mut tokens) = Tokens::of_object(line) else {
        return false;
    };
    if !plain_members(alloc, &mut tokens, slots) {
        return false;
    }
    tokens.is_over()
}

// Reads the members up to the end of the line's object.
fn plain_members<'a, S: Slots<'a>>(alloc: Global, tokens: &mut Tokens<'a>, slots: &mut S) -> bool
    requires { S.seen slots.old no_members }
    ensures { IsTrue result → (ms : Members)
        × (members_at 126 (length tokens.old) no_members tokens.old ≡ Some (ms, tokens.new)) × S.seen slots.new ms }
{
    'members: loop {
        let Some(key) = tokens.next_key::<S>() else {
            return false;
        };
        let Some(key) = key else {
            return true;
        };
        let slot = S::slot(key.text, key.word);
        if tokens.next_byte() == b'[' {
            let mut inner = tokens.again();
            let Some(blocks) = plain_blocks(alloc, &mut inner) else {
                return false;
            };
            *tokens = inner;
            slots.put_array(slot, blocks);
        } else if !put_scalar(tokens, slots, slot) {
            return false;
        }
    }
}

// Gives the slots the text, the number or the truth value that comes next. No value is made of the three first: each goes where
// its kind goes.
#[inline(always)]
fn put_scalar<'a, S: Slots<'a>>(tokens: &mut Tokens<'a>, slots: &mut S, slot: S::Slot) -> bool
    ensures { IsTrue result → (d : Data)
        × ((depth : ℕ) → data_at depth tokens.old ≡ Some (d, tokens.new))
        × (length tokens.new < length tokens.old)
        × ((key : List ℕ) (ms : Members) → S.names slot key → S.seen slots.old ms → S.seen slots.new (put key d ms)) }
{
    let first = tokens.next_byte();
    if first == b'"' {
        let Some(text) = tokens.text::<S>() else {
            return false;
        };
        slots.put(slot, Plain::Text(text));
        return true;
    }
    if first <= b'9' {
        let Some(number) = tokens.whole::<S>() else {
            return false;
        };
        slots.put(slot, Plain::Whole(number));
        return true;
    }
    let Some(truth) = tokens.truth::<S>() else {
        return false;
    };
    slots.put(slot, Plain::Truth(truth));
    true
}
