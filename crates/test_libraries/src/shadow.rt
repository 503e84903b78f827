//! Refused calls. Whole histories are worked scenarios.
ghost use Rattle.std.specs.Prelude.{◌<◌, ◌^◌};

use crate::values::settings;
use nn_shadow::Shadow;
use nn_types::{BlockId, Edit, GenerationStamp, Kind, Length, Message, Path, Tx, Txid};
use std::alloc::Global;
use std::process::Abort;
use std::test::Fail;

// The first block id that a log issues.
const B: u64 = 1_073_741_825;

// A test owns its standby and lends it to the checks: whoever owns one shows at each of its exits that it is dropped.

// An edit that does not apply stops the standby for good.
#[test]
fn missing_file_stops(rt: HostRuntime) -> Result<(), Fail> {
    let mut shadow = fresh(rt.alloc())?;
    nothing_comes_after_a_refused_edit(&rt, rt.alloc(), &mut shadow);
    Ok(())
}

fn nothing_comes_after_a_refused_edit(rt: &impl Abort, alloc: Global, shadow: &mut Shadow) {
    let told = [
        delete(alloc, shadow),
        end_segment(shadow),
        hand(shadow, received(1, 1, B, 1001)),
        flushed(shadow),
    ];
    assert_eq!(rt; told, [22, 51, 51, 51]);
    assert!(rt; shadow.stop().is_some() && !shadow.is_active());
}

#[test]
fn numbers_without_a_gap(rt: HostRuntime) -> Result<(), Fail> {
    let mut shadow = fresh(rt.alloc())?;
    each_datanode_counts_from_1(&rt, &mut shadow);
    Ok(())
}

// After a flush nothing is taken, and a second flush has nothing to do.
fn each_datanode_counts_from_1(rt: &impl Abort, shadow: &mut Shadow) {
    let told = [
        hand(shadow, received(0, 1, B, 1001)),
        hand(shadow, received(3, 1, B, 1001)),
        hand(shadow, received(1, 2, B, 1001)),
        hand(shadow, received(1, 1, B, 1001)),
        hand(shadow, received(1, 1, B, 1001)),
    ];
    assert_eq!(rt; told, [56, 56, 58, 0, 58]);
    let told = [
        flushed(shadow),
        flushed(shadow),
        hand(shadow, received(1, 2, B, 1001)),
    ];
    assert_eq!(rt; told, [1, 0, 53]);
    assert_eq!(rt; [shadow.last_number(1), shadow.last_number(2)], [1, 0]);
}

// ---- Steps.

fn fresh(alloc: Global) -> Result<Shadow, Fail> {
    let settings = settings(1000, 1)?;
    let Ok(shadow) = Shadow::new(alloc, 2, settings) else {
        return Err(Fail::new("no standby"));
    };
    Ok(shadow)
}

fn delete(alloc: Global, shadow: &mut Shadow) -> u64 {
    let Ok(path) = Path::parse(alloc, "/f") else {
        return 255;
    };
    apply(shadow, &first(Edit::Delete { path }))
}

fn end_segment(shadow: &mut Shadow) -> u64 {
    apply(shadow, &first(Edit::EndSegment))
}

// The first transaction of a log.
fn first(edit: Edit) -> Tx {
    let txid = Txid::new(1).unwrap();
    Tx { txid, edit }
}

// The number of the fault, 0 where the transaction is applied.
fn apply(shadow: &mut Shadow, tx: &Tx) -> u64 {
    match shadow.apply(tx) {
        Ok(()) => 0,
        Err(fault) => u64::from(fault.number()),
    }
}

fn hand(shadow: &mut Shadow, message: Message) -> u64 {
    match shadow.hand(message) {
        Ok(_handed) => 0,
        Err(fault) => u64::from(fault.cause.number()),
    }
}

// How many messages were flushed, or the number of the fault.
fn flushed(shadow: &mut Shadow) -> u64 {
    match shadow.flush() {
        Ok(count) => count,
        Err(fault) => u64::from(fault.number()),
    }
}

fn received(dn: u16, number: u64, block: u64, generation: u64) -> Message
    requires { (block < 2 ^ 63) × (generation < 2 ^ 63) }
{
    Message {
        dn,
        number,
        block: id(block),
        stamp: stamp(generation),
        len: Length::new(5).unwrap(),
        kind: Kind::Received,
    }
}

fn id(value: u64) -> BlockId
    requires { value < 2 ^ 63 }
{
    BlockId::new(value).unwrap()
}

fn stamp(value: u64) -> GenerationStamp
    requires { value < 2 ^ 63 }
{
    GenerationStamp::new(value).unwrap()
}
