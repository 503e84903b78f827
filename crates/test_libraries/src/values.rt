//! Values of the types that calls take.
ghost use Rattle.std.specs.Prelude.{◌≡◌, IfOk};

use nn_types::{Block, BlockId, GenerationStamp, Length, Replication, Settings, Txid};
use std::test::Fail;

pub fn txid(value: u64) -> Result<Txid, Fail>
    ensures { IfOk result (λ txid. txid ≡ value) }
{
    let Some(made) = Txid::new(value) else {
        return Err(Fail::new("no txid"));
    };
    Ok(made)
}

pub fn id(value: u64) -> Result<BlockId, Fail> {
    let Some(made) = BlockId::new(value) else {
        return Err(Fail::new("no block id"));
    };
    Ok(made)
}

pub fn stamp(value: u64) -> Result<GenerationStamp, Fail> {
    let Some(made) = GenerationStamp::new(value) else {
        return Err(Fail::new("no generation stamp"));
    };
    Ok(made)
}

pub fn length(value: u64) -> Result<Length, Fail> {
    let Some(made) = Length::new(value) else {
        return Err(Fail::new("no length"));
    };
    Ok(made)
}

pub fn replication(value: u64) -> Result<Replication, Fail> {
    let Some(made) = Replication::new(value) else {
        return Err(Fail::new("no replication"));
    };
    Ok(made)
}

pub fn settings(permille: u16, min: u16) -> Result<Settings, Fail> {
    let Some(made) = Settings::new(permille, min) else {
        return Err(Fail::new("no settings"));
    };
    Ok(made)
}

pub fn block(block: u64, generation: u64, len: u64) -> Result<Block, Fail> {
    Ok(Block {
        id: id(block)?,
        stamp: stamp(generation)?,
        len: length(len)?,
    })
}
