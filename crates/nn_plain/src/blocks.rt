//! The arrays of a plain line: blocks, read one after another.
ghost use Rattle.std.specs.Prelude.{◌≡◌, ◌<◌, ℕ, length, codes, if◌then◌else◌, Some, IfSome};
ghost use Rattle.std.specs.Str.{bytes_eq};
ghost use Rattle.serde_json.specs.Data.{Data, Items, Members, array, object, no_members};
ghost use Rattle.nn_plain.specs.Ahead.{data_at, items_at, members_at};
ghost use Rattle.nn_plain.specs.Spelling.{Spells, SpellsBlock, SpellsBlocks};

use crate::tokens::Tokens;
use crate::value::Plain;
use nn_types::{Block, BlockId, Blocks, GenerationStamp, Length};
use std::alloc::Global;

// The numbers of a block, as far as they are numbers.
#[derive(Clone, Copy, Drop)]
struct Numbers {
    id: Option<u64>,
    stamp: Option<u64>,
    len: Option<u64>,
}

impl Numbers {
    #[inline(always)]
    fn put(&mut self, key: &str, number: Option<u64>)
        ensures id { self.new.id ≡ (if bytes_eq key.now (codes "id") then number else self.old.id) }
        ensures stamp { self.new.stamp ≡ (if bytes_eq key.now (codes "gen") then number else self.old.stamp) }
        ensures len { self.new.len ≡ (if bytes_eq key.now (codes "len") then number else self.old.len) }
    {
        match key {
            "id" => self.id = number,
            "gen" => self.stamp = number,
            "len" => self.len = number,
            _ => {}
        }
    }

    // The block of these numbers, if none is missing or too large.
    fn block(&self) -> Option<Block>
        ensures id { IfSome result (λ b. self.now.id ≡ Some b.id) }
        ensures stamp { IfSome result (λ b. self.now.stamp ≡ Some b.stamp) }
        ensures len { IfSome result (λ b. self.now.len ≡ Some b.len) }
    {
        let id = BlockId::new(self.id?)?;
        let stamp = GenerationStamp::new(self.stamp?)?;
        let len = Length::new(self.len?)?;
        Some(Block { id, stamp, len })
    }
}

/// The array that comes next, read as blocks.
pub(crate) fn plain_blocks(alloc: Global, tokens: &mut Tokens<'_>) -> Option<Blocks>
    ensures ok { IfSome result (λ bs. (ds : Items) × (data_at 126 tokens.old ≡ Some (array ds, tokens.new)) × SpellsBlocks ds bs) }
    ensures shorter { IfSome result (λ _. length tokens.new < length tokens.old) }
{
    if !tokens.begin_array() {
        return None;
    }
    let blocks = plain_items(alloc, tokens)?;
    Some(blocks)
}

// The objects up to the end of an array, read as blocks.
fn plain_items(alloc: Global, tokens: &mut Tokens<'_>) -> Option<Blocks>
    ensures ok { IfSome result (λ bs. (ds : Items)
        × (items_at 125 (length tokens.old) tokens.old ≡ Some (ds, tokens.new)) × SpellsBlocks ds bs) }
    ensures shorter { IfSome result (λ _. length tokens.new < length tokens.old) }
{
    let mut blocks = Blocks::new(alloc);
    'items: loop {
        let Some(more) = tokens.next_object() else {
            return None;
        };
        if !more {
            return Some(blocks);
        }
        let Some(block) = plain_numbers(tokens) else {
            return None;
        };
        let Ok(()) = blocks.push(block) else {
            return None;
        };
    }
}

// The members up to the end of an object, read as those of a block.
fn plain_numbers(tokens: &mut Tokens<'_>) -> Option<Block>
    ensures ok { IfSome result (λ b. (ms : Members)
        × (members_at 124 (length tokens.old) no_members tokens.old ≡ Some (ms, tokens.new))
        × SpellsBlock (object ms) b) }
    ensures shorter { IfSome result (λ _. length tokens.new < length tokens.old) }
{
    let mut numbers = Numbers {
        id: None,
        stamp: None,
        len: None,
    };
    'members: loop {
        let Some(key) = tokens.next_key::<Numbers>() else {
            return None;
        };
        let Some(key) = key else {
            let block = numbers.block()?;
            return Some(block);
        };
        let Some(value) = plain_scalar(tokens) else {
            return None;
        };
        numbers.put(key.text, value.number());
    }
}

// The text, the number or the truth value that comes next.
#[inline(always)]
fn plain_scalar<'a>(tokens: &mut Tokens<'a>) -> Option<Plain<'a>>
    ensures { IfSome result (λ v. (d : Data) × ((depth : ℕ) → data_at depth tokens.old ≡ Some (d, tokens.new))
        × Spells d v × (length tokens.new < length tokens.old)) }
{
    let first = tokens.next_byte();
    if first == b'"' {
        let text = tokens.text::<Numbers>()?;
        return Some(Plain::Text(text));
    }
    if first <= b'9' {
        let number = tokens.whole::<Numbers>()?;
        return Some(Plain::Whole(number));
    }
    let truth = tokens.truth::<Numbers>()?;
    Some(Plain::Truth(truth))
}
