//! A standby in service, which tells what it does and what it refuses, however its input is cut.
ghost use Rattle.std.specs.Prelude.{◌<◌};

use crate::values::settings;
use nn_device::{Page, Writer};
use nn_live::{Live, Service, ServiceFault};
use nn_tree::Namespace;
use nn_types::Txid;
use std::alloc::Global;
use std::test::Fail;

// A report, and its DataNode that is gone. A segment with a gap, one that a second start mark ends, that one whole, and a third
// time, and a word that is unknown. An image, a promotion that would lose an edit, and questions in the midst of a segment. A
// promotion inside it, and one that gives it up. Then nothing comes in any more; the last bytes are a word without a line feed.
const INPUT: &str = "  
{\"dn\":1,\"block\":1073741825,\"gen\":1001,\"len\":5,\"kind\":\"received\"}
gone 1
{\"op\":\"OP_START_LOG_SEGMENT\",\"txid\":6}
{\"op\":\"OP_END_LOG_SEGMENT\",\"txid\":7}
{\"op\":\"OP_START_LOG_SEGMENT\",\"txid\":1}
{\"op\":\"OP_MKDIR\",\"txid\":2,\"path\":\"/a\"}
{\"op\":\"OP_START_LOG_SEGMENT\",\"txid\":1}
{\"op\":\"OP_MKDIR\",\"txid\":2,\"path\":\"/a\"}
{\"op\":\"OP_END_LOG_SEGMENT\",\"txid\":3}
{\"op\":\"OP_START_LOG_SEGMENT\",\"txid\":1}
{\"op\":\"OP_MKDIR\",\"txid\":2,\"path\":\"/a\"}
{\"op\":\"OP_END_LOG_SEGMENT\",\"txid\":3}
nothing
checkpoint
promote 3
held 1
{\"op\":\"OP_START_LOG_SEGMENT\",\"txid\":4}
status
path \"/a\"
block 1073741825
replicas 1073741825
help
unsafe 5
promote 3
promote 3 lost
{\"dn\":1,\"block\":1073741825,\"gen\":1001,\"len\":5,\"kind\":\"received\"}
tables
gone 1
sync";

const TOLD: &str = "done 3
fault 57 txid 1 segment 1
fault 13 segment 2
applied 1
applied 2
applied 3
unknown
done 14
{\"awaiting\":[],\"image\":\"hdfs-standby\",\"last_block\":1073741824,\"last_gen\":1000,\"profile\":1,\"txid\":3,\"version\":2}
{\"path\":\"/a\",\"type\":\"dir\"}
{\"end\":1}
done 15
fault 57 txid 4
done 16
held 1073741825 1 1 1001 received
more 1
done 17
state standby
version 0.1
known 7
passed 3
segments 4
edits 1 4
epoch 0 0
txid 3
held 2
datanode 1 3 held 2
files 0
directories 2
file_blocks 0
missing 0
missing_of_one 0
under_replicated 0
over_replicated 0
stale 0
ahead 0
wrong_length 0
orders 0
blocks 0 safe 0 needed 0 mode off
done 19
dir \"/a\"
done 20
held 1073741825 1 1 1001 received
held 1073741825 1 3 0 deleted
done 21
held 1073741825 1 1 1001 received
held 1073741825 1 3 0 deleted
done 22
sync
status
held [N]
unsafe [N]
block ID
replicas ID
path \"TEXT\"
tables
checkpoint
gone D
seen T
epoch E
promote T [epoch E] [lost]
help
done 23
more 0
done 24
fault 13 segment 5
done 25
processed 1 1 1073741825 flush
processed 1 3 1073741825 flush
done 26
fault 53 line 27
txid 3
dir \"/\"
dir \"/a\"
blocks 0 safe 0 needed 0 mode off
done 28
fault 53 line 29
done 29
fault 1 line 30
";

type Out = Writer<Vec<u8>>;

fn taken(answer: Result<(), ServiceFault>) -> Result<(), Fail> {
    match answer {
        Ok(()) => Ok(()),
        Err(_) => Err(Fail::new("memory is refused")),
    }
}

fn begun(alloc: Global) -> Result<Live, Fail> {
    let namespace = Namespace::new(alloc);
    let Ok(service) = Service::begin(alloc, namespace, Txid::ZERO, settings(999, 1)?, true, "0.1")
    else {
        return Err(Fail::new("memory is refused"));
    };
    Ok(Live::of(alloc, service))
}

// What is told of these bytes, in chunks of so many.
fn told(alloc: Global, bytes: &[u8], size: usize) -> Result<Vec<u8>, Fail>
    requires { 0 < size }
{
    let mut page = Page::new(alloc);
    let mut writer: Out = Writer::new(Vec::new(alloc));
    let mut live = begun(alloc)?;
    for chunk in bytes.chunks(size) {
        taken(live.push(&mut page, &mut writer, chunk))?;
    }
    taken(live.end(&mut page, &mut writer))?;
    if page.end(&mut writer).is_err() {
        return Err(Fail::new("a write to memory failed"));
    }
    Ok(writer.into_inner())
}

#[test]
fn a_service_tells(rt: HostRuntime) -> Result<(), Fail> {
    for size in [1, 7, 64, 4096] {
        let text = told(rt.alloc(), INPUT.as_bytes(), size)?;
        assert!(rt; text.as_slice() == TOLD.as_bytes());
    }
    Ok(())
}

// A line of 70,000 bytes is told, whatever it holds; one that is blank is not.
#[test]
fn long_lines(rt: HostRuntime) -> Result<(), Fail> {
    for (byte, wanted) in [(b'x', "fault 6 line 1\nfault 6 line 2\n"), (b' ', "")] {
        let mut input = Vec::new(rt.alloc());
        for at in 0..140_001usize {
            input.push(if at == 70_000 { b'\n' } else { byte })?;
        }
        let text = told(rt.alloc(), &input, 4096)?;
        assert!(rt; text.as_slice() == wanted.as_bytes());
    }
    Ok(())
}
