//! A source of many segments in memory.
use nn_segment::{Item, MemorySource, Parsed, SegmentSource};
use std::alloc::Global;
use std::process::Abort;
use std::test::Fail;

const NAME: &str = "edits_0000000000000000001-0000000000000000003";

const SEGMENT: &str = "{\"op\":\"OP_START_LOG_SEGMENT\",\"txid\":1}
{\"op\":\"OP_MKDIR\",\"txid\":2,\"path\":\"/a\"}
{\"op\":\"OP_END_LOG_SEGMENT\",\"txid\":3}
";

// It begins in the other one, and ends after it.
const LATER: &str = "edits_0000000000000000002-0000000000000000004";

const LATER_SEGMENT: &str = "{\"op\":\"OP_START_LOG_SEGMENT\",\"txid\":2}
{\"op\":\"OP_MKDIR\",\"txid\":3,\"path\":\"/b\"}
{\"op\":\"OP_END_LOG_SEGMENT\",\"txid\":4}
";

// Adds the segment of this text under a name.
fn add(alloc: Global, segments: &mut Vec<Parsed>, name: &str, text: &str) -> Result<(), Fail> {
    let name = String::from_str(alloc, name)?;
    let bytes = text.as_bytes().to_vec(alloc)?;
    let Ok(segment) = Parsed::of(alloc, name, bytes) else {
        return Err(Fail::new("no segment"));
    };
    segments.push(segment)?;
    Ok(())
}

// A thousand segments come in order, also where they overlap. Then the source is over, also when it is asked again.
#[test]
fn a_thousand_segments(rt: HostRuntime) -> Result<(), Fail> {
    let mut segments = Vec::new(rt.alloc());
    for _ in 0..500 {
        add(rt.alloc(), &mut segments, NAME, SEGMENT)?;
        add(rt.alloc(), &mut segments, LATER, LATER_SEGMENT)?;
    }
    gives_all(&rt, &mut MemorySource::new(segments));
    Ok(())
}

fn gives_all(rt: &impl Abort, source: &mut MemorySource) {
    for _ in 0..500 {
        assert!(rt; gives(source, NAME) && gives(source, LATER));
    }
    assert!(rt; is_over(source) && is_over(source));
}

fn gives(source: &mut MemorySource, name: &str) -> bool {
    match source.next() {
        Ok(Item::Segment(segment)) => segment.name() == name,
        _ => false,
    }
}

fn is_over(source: &mut MemorySource) -> bool {
    matches!(source.next(), Ok(Item::End))
}
