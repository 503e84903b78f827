//! The blocks that a line gives, an array of objects: read in passing, block by block.
ghost use Rattle.std.specs.Prelude.{◌≡◌, ◌<◌, length, codes, if◌then◌else◌, IfOk, OnOk, Some, None, Err};
ghost use Rattle.std.specs.Str.{bytes_eq};
ghost use Rattle.serde_json.specs.Data.{Data};
ghost use Rattle.nn_plain.specs.Ahead.{data_at};
ghost use Rattle.nn_edits.specs.Parts.{blocks_of_value, block_from};
ghost use Rattle.nn_edits.specs.Reading.{block_in};

use crate::fault::LineFault;
use crate::member::{block_id_in, length_in, number_of, stamp_in};
use json::Reader;
use nn_plain::{ItemSink, MemberSink, ReadFault, read_array, read_object, read_value};
use nn_types::{Block, Blocks};
use std::alloc::Global;

/// The next value, read as blocks. Arrays and objects may nest `depth` deep.
///
/// The inner result is the blocks or their first fault, for operations that ask for blocks; others don't mind. The outer
/// one stops the line.
pub(crate) fn read_blocks(
    alloc: Global,
    reader: &mut Reader<'_>,
    depth: usize,
) -> Result<Result<Blocks, LineFault>, ReadFault>
    ensures ok { IfOk result (λ bs. (d : Data) × (data_at depth reader.old ≡ Some (d, reader.new))
        × (bs ≡ blocks_of_value d)) }
    ensures shorter { OnOk result (length reader.new < length reader.old) }
    ensures err { result ≡ Err ReadFault.Invalid → data_at depth reader.old ≡ None }
{
    let mut items = BlockItems {
        blocks: Ok(Blocks::new(alloc)),
    };
    if !read_array(alloc, reader, depth, &mut items)? {
        return Ok(Err(LineFault::MissingField));
    }
    Ok(items.blocks)
}

// The blocks that the items of an array are, or why the first that is none is none.
#[derive(Drop)]
struct BlockItems {
    blocks: Result<Blocks, LineFault>,
}

impl ItemSink for BlockItems {
    ghost use Rattle.std.specs.Prelude.{◌≡◌};
    ghost use Rattle.nn_edits.specs.Reading.{items_in};

    ghost seen = { λ s ds. s.blocks ≡ items_in ds };

    fn read(
        &mut self,
        alloc: Global,
        reader: &mut Reader<'_>,
        depth: usize,
    ) -> Result<(), ReadFault> {
        let block = read_block(alloc, reader, depth)?;
        let Ok(blocks) = &mut self.blocks else {
            return Ok(());
        };
        match block {
            Ok(block) => blocks.push(block)?,
            Err(fault) => self.blocks = Err(fault),
        }
        Ok(())
    }
}

// The next value, read as a block.
fn read_block(
    alloc: Global,
    reader: &mut Reader<'_>,
    depth: usize,
) -> Result<Result<Block, LineFault>, ReadFault>
    ensures ok { IfOk result (λ b. (d : Data) × (data_at depth reader.old ≡ Some (d, reader.new))
        × (b ≡ block_in d)) }
    ensures shorter { OnOk result (length reader.new < length reader.old) }
    ensures err { result ≡ Err ReadFault.Invalid → data_at depth reader.old ≡ None }
{
    let mut numbers = Numbers {
        id: Err(LineFault::MissingField),
        stamp: Err(LineFault::MissingField),
        len: Err(LineFault::MissingField),
    };
    if !read_object(alloc, reader, depth, &mut numbers)? {
        return Ok(Err(LineFault::MissingField));
    }
    Ok(block_of(numbers))
}

// The numbers of a block, or why there are none.
#[derive(Clone, Copy, Drop)]
struct Numbers {
    id: Result<u64, LineFault>,
    stamp: Result<u64, LineFault>,
    len: Result<u64, LineFault>,
}

impl Numbers {
    #[inline(always)]
    fn put(&mut self, key: &str, number: Result<u64, LineFault>)
        ensures id { self.new.id ≡ (if bytes_eq key.now (codes "id") then number else self.old.id) }
        ensures stamp { self.new.stamp ≡ (if bytes_eq key.now (codes "gen") then number else self.old.stamp) }
        ensures len { self.new.len ≡ (if bytes_eq key.now (codes "len") then number else self.old.len) }
    {
        match key {
            "id" => self.id = number,
            "gen" => self.stamp = number,
            "len" => self.len = number,
            _ => {}
        }
    }
}

impl<'a> MemberSink<'a> for Numbers {
    ghost use Rattle.std.specs.Prelude.{◌≡◌, codes};
    ghost use Rattle.serde_json.specs.Data.{object};
    ghost use Rattle.nn_edits.specs.Reading.{whole_in};

    ghost seen = { λ s ms. (s.id ≡ whole_in (codes "id") (object ms))
        × (s.stamp ≡ whole_in (codes "gen") (object ms))
        × (s.len ≡ whole_in (codes "len") (object ms)) };

    fn read(
        &mut self,
        _alloc: Global,
        key: &'a str,
        reader: &mut Reader<'a>,
        depth: usize,
    ) -> Result<(), ReadFault> {
        let value = read_value(reader, depth)?;
        self.put(key, number_of(value));
        Ok(())
    }
}

#[tactic(auto, unfolding(crate::specs::Parts::block_from))]
fn block_of(numbers: Numbers) -> Result<Block, LineFault>
    ensures { result ≡ block_from numbers.id numbers.stamp numbers.len }
{
    let id = block_id_in(numbers.id)?;
    let stamp = stamp_in(numbers.stamp)?;
    let len = length_in(numbers.len)?;
    Ok(Block { id, stamp, len })
}
