//! The arrays of an image's lines: the blocks of a file, and the ids that await.
ghost use Rattle.std.specs.Prelude.{◌≡◌, ◌<◌, length, Some, None, Err, option_map, IfOk, OnOk, OnErr, if◌then◌else◌, codes};
ghost use Rattle.std.specs.Str.{bytes_eq};
ghost use Rattle.serde_json.specs.Data.{Data, object, no_items, no_members};
ghost use Rattle.serde_json.specs.Find.{as_array};
ghost use Rattle.nn_plain.specs.Ahead.{data_at};
ghost use Rattle.nn_image.specs.Arrays.{awaiting_from, block_from, block_list, ids_in, seen_block};
ghost use Rattle.nn_image.specs.Reading.{block_of};

use crate::values::whole_of;
use json::Reader;
use nn_plain::{ItemSink, MemberSink, ReadFault, read_array, read_object, read_value};
use nn_types::limits::FIRST_BLOCK;
use nn_types::{Block, BlockId, Blocks, GenerationStamp, Length};
use std::alloc::Global;

/// The next value, read as blocks: none where it is no array of them.
pub(crate) fn read_blocks(
    alloc: Global,
    reader: &mut Reader<'_>,
    depth: usize,
) -> Result<Option<Blocks>, ReadFault>
    ensures ok { IfOk result (λ bs. (d : Data) × (data_at depth reader.old ≡ Some (d, reader.new)) × (bs ≡ block_list d)) }
    ensures shorter { OnOk result (length reader.new < length reader.old) }
    ensures err { result ≡ Err ReadFault.Invalid → data_at depth reader.old ≡ None }
{
    let mut items = BlockItems {
        blocks: Some(Blocks::new(alloc)),
    };
    if !read_array(alloc, reader, depth, &mut items)? {
        return Ok(None);
    }
    Ok(items.blocks)
}

/// The next value, read as ids that await: none where it is no array of them.
pub(crate) fn read_ids(
    alloc: Global,
    reader: &mut Reader<'_>,
    depth: usize,
) -> Result<Option<Vec<BlockId>>, ReadFault>
    ensures ok { IfOk result (λ ids. (d : Data) × (data_at depth reader.old ≡ Some (d, reader.new)) × (option_map (λ v. v.items) ids ≡ ids_in d)) }
    ensures shorter { OnOk result (length reader.new < length reader.old) }
    ensures err { result ≡ Err ReadFault.Invalid → data_at depth reader.old ≡ None }
{
    let mut items = IdItems {
        ids: Some(Vec::new(alloc)),
    };
    if !read_array(alloc, reader, depth, &mut items)? {
        return Ok(None);
    }
    Ok(items.ids)
}

// The blocks that the items of an array are, until one is none.
#[derive(Drop)]
struct BlockItems {
    blocks: Option<Blocks>,
}

impl ItemSink for BlockItems {
    ghost use Rattle.std.specs.Prelude.{◌≡◌};
    ghost use Rattle.nn_image.specs.Reading.{block_of, gathered};

    ghost seen = { λ s ds. s.blocks ≡ gathered block_of ds };

    fn read(
        &mut self,
        alloc: Global,
        reader: &mut Reader<'_>,
        depth: usize,
    ) -> Result<(), ReadFault> {
        let block = read_block(alloc, reader, depth)?;
        let Some(mut blocks) = self.blocks.take() else {
            return Ok(());
        };
        let Some(block) = block else {
            return Ok(());
        };
        blocks.push(block)?;
        self.blocks = Some(blocks);
        Ok(())
    }
}

// The next value, read as a block.
fn read_block(
    alloc: Global,
    reader: &mut Reader<'_>,
    depth: usize,
) -> Result<Option<Block>, ReadFault>
    ensures ok { IfOk result (λ b. (d : Data) × (data_at depth reader.old ≡ Some (d, reader.new)) × (b ≡ block_of d)) }
    ensures shorter { OnOk result (length reader.new < length reader.old) }
    ensures err { result ≡ Err ReadFault.Invalid → data_at depth reader.old ≡ None }
{
    let mut members = BlockMembers {
        id: None,
        stamp: None,
        len: None,
    };
    if !read_object(alloc, reader, depth, &mut members)? {
        return Ok(None);
    }
    Ok(members.block())
}

// What an object has at the keys of a block.
#[derive(Clone, Copy, Drop)]
struct BlockMembers {
    id: Option<u64>,
    stamp: Option<u64>,
    len: Option<u64>,
}

impl BlockMembers {
    #[tactic(auto, unfolding(crate::specs::Arrays::block_from))]
    fn block(&self) -> Option<Block>
        ensures { result ≡ block_from (seen_block self.now) }
    {
        let id = BlockId::new(self.id?)?;
        let stamp = GenerationStamp::new(self.stamp?)?;
        let len = Length::new(self.len?)?;
        Some(Block { id, stamp, len })
    }

    fn put(&mut self, key: &str, number: Option<u64>)
        ensures id { self.new.id ≡ (if bytes_eq key.now (codes "id") then number else self.old.id) }
        ensures stamp { self.new.stamp ≡ (if bytes_eq key.now (codes "gen") then number else self.old.stamp) }
        ensures len { self.new.len ≡ (if bytes_eq key.now (codes "len") then number else self.old.len) }
    {
        match key {
            "id" => self.id = number,
            "gen" => self.stamp = number,
            "len" => self.len = number,
            _ => {}
        }
    }
}

impl<'a> MemberSink<'a> for BlockMembers {
    ghost use Rattle.std.specs.Prelude.{◌≡◌};
    ghost use Rattle.serde_json.specs.Data.{object};
    ghost use Rattle.nn_image.specs.Arrays.{block_parts, seen_block};

    ghost seen = { λ s ms. seen_block s ≡ block_parts (object ms) };

    fn read(
        &mut self,
        _alloc: Global,
        key: &'a str,
        reader: &mut Reader<'a>,
        depth: usize,
    ) -> Result<(), ReadFault> {
        let value = read_value(reader, depth)?;
        self.put(key, whole_of(value));
        Ok(())
    }
}

// The ids that the items of an array are, until one is none.
#[derive(Drop)]
struct IdItems {
    ids: Option<Vec<BlockId>>,
}

impl ItemSink for IdItems {
    ghost use Rattle.std.specs.Prelude.{◌≡◌, option_map};
    ghost use Rattle.nn_image.specs.Arrays.{awaiting_of};
    ghost use Rattle.nn_image.specs.Reading.{gathered};

    ghost seen = { λ s ds. option_map (λ v. v.items) s.ids ≡ gathered awaiting_of ds };

    fn read(
        &mut self,
        _alloc: Global,
        reader: &mut Reader<'_>,
        depth: usize,
    ) -> Result<(), ReadFault> {
        let value = read_value(reader, depth)?;
        let Some(mut ids) = self.ids.take() else {
            return Ok(());
        };
        let Some(id) = awaiting_from(whole_of(value)) else {
            return Ok(());
        };
        let Ok(()) = ids.push(id) else {
            return Err(ReadFault::OutOfMemory);
        };
        self.ids = Some(ids);
        Ok(())
    }
}

// The id that a number is, if a block can have it.
#[tactic(auto, unfolding(crate::specs::Arrays::awaiting_from))]
fn awaiting_from(number: Option<u64>) -> Option<BlockId>
    ensures { result ≡ awaiting_from number }
{
    let id = BlockId::new(number?)?;
    if id.get() < FIRST_BLOCK {
        None
    } else {
        Some(id)
    }
}
