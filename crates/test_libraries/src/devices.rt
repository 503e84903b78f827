//! Readers and writers of images that fail, and readers that give little at a time.
use nn_device::{Page, Reader, Writer};
use nn_image::{RewriteFault, SaveFault, load, rewrite, save};
use nn_tree::Namespace;
use nn_types::Txid;
use std::alloc::Global;
use std::io;
use std::io::{Read, Write};
use std::process::Abort;
use std::test::Fail;

// The image of a log up to a file that has no block yet.
const OPEN_FILE: &str =
    r#"{"awaiting":[1073741825],"image":"hdfs-standby","last_block":1073741825,"last_gen":1001,"profile":1,"txid":5,"version":2}
{"blocks":[],"closed":false,"path":"/f","replication":3,"type":"file"}
{"end":1}
"#;

// The same, as version 1 had it.
const OLD_FILE: &str =
    r#"{"awaiting":[1073741825],"image":"hdfs-standby","last_block":1073741825,"last_gen":1001,"txid":5,"version":1}
{"blocks":[],"closed":false,"path":"/f","replication":3,"type":"file"}
{"end":1}
"#;

// A reader that gives one byte a time and fails at its read `fail_at`, counted from 0.
#[derive(Drop)]
struct Slow<'a> {
    bytes: &'a [u8],
    reads: u64,
    fail_at: u64,
}

impl Read for Slow<'_> {
    fn read(&mut self, buf: &mut [u8]) -> io::Result<usize> {
        if self.reads == self.fail_at {
            return Err(io::Error::from(io::ErrorKind::Other));
        }
        self.reads = self.reads.saturating_add(1);
        match (self.bytes, buf) {
            ([first, rest @ ..], [place, ..]) => {
                *place = *first;
                self.bytes = rest;
                Ok(1)
            }
            _ => Ok(0),
        }
    }
}

// A writer that takes at most `width` bytes a time, and fails or takes nothing at its write `stop_at`, counted from 0.
// After that one it counts its writes: a write that was refused is not to be tried again.
#[derive(Drop)]
pub struct Stopping {
    pub got: Vec<u8>,
    width: usize,
    writes: u64,
    pub stop_at: u64,
    fails: bool,
    pub later: u64,
}

impl Stopping {
    pub fn new(alloc: Global, width: usize, stop_at: u64, fails: bool) -> Stopping {
        Stopping {
            got: Vec::new(alloc),
            width,
            writes: 0,
            stop_at,
            fails,
            later: 0,
        }
    }
}

impl Write for Stopping {
    fn write(&mut self, buf: &[u8]) -> io::Result<usize> {
        let at = self.writes;
        self.writes = at.saturating_add(1);
        if at > self.stop_at {
            self.later = self.later.saturating_add(1);
        }
        if at >= self.stop_at {
            if self.fails {
                return Err(io::Error::from(io::ErrorKind::Other));
            }
            return Ok(0);
        }
        let n = buf.len().min(self.width);
        self.got.extend_from_slice(&buf[..n])?;
        Ok(n)
    }

    fn flush(&mut self) -> io::Result<()> {
        Ok(())
    }
}

// A page writes each part once the next piece has no room in it. Behind a write that fails it writes nothing more, and tells so.
#[test]
fn parts_of_a_page(rt: HostRuntime) {
    let mut page = Page::new(rt.alloc());
    let mut writer = Writer::new(Stopping::new(rt.alloc(), usize::MAX, 2, true));
    for taken in [65_500u64, 131_000, 131_000] {
        assert!(rt; !page.has_failed());
        put_part(&mut page, &mut writer);
        assert_eq!(rt; writer.taken(), taken);
    }
    assert!(rt; page.has_failed());
    assert!(rt; page.end(&mut writer).is_err());
    let device = writer.into_inner();
    assert_eq!(rt; device.writes, 3);
    assert_eq!(rt; device.later, 0);
}

// 65,600 bytes, of which the first 65,500 go into a part.
fn put_part(page: &mut Page, writer: &mut Writer<Stopping>) {
    for _ in 0..656u64 {
        page.put(writer, &[b'x'; 100]);
    }
}

// A read that fails ends a rewrite, and then nothing is written.
#[test]
fn failing_readers_of_a_rewrite(rt: HostRuntime) {
    let reads = OLD_FILE.len() as u64 + 1;
    for fail_at in 0..reads {
        rewrites(&rt, rt.alloc(), fail_at, 67, "");
    }
    rewrites(&rt, rt.alloc(), reads, 0, OPEN_FILE);
}

fn rewrites(rt: &impl Abort, alloc: Global, fail_at: u64, number: u8, text: &str) {
    let (told, written) = rewritten_at(alloc, fail_at);
    assert_eq!(rt; told, number, "at {fail_at}");
    assert!(rt; written.as_slice() == text.as_bytes());
}

fn rewritten_at(alloc: Global, fail_at: u64) -> (u8, Vec<u8>) {
    let mut reader = Reader::new(Slow {
        bytes: OLD_FILE.as_bytes(),
        reads: 0,
        fail_at,
    });
    let mut written = Writer::new(Vec::new(alloc));
    let number = match rewrite(alloc, &mut reader, &mut written) {
        Ok(_) => 0,
        Err(fault) => fault.number(),
    };
    (number, written.into_inner())
}

// Up to the last byte of the end line a failed read is 67. After it one more read shows the end.
#[test]
fn failing_readers(rt: HostRuntime) {
    let reads = OPEN_FILE.len() as u64 + 1;
    for fail_at in 0..reads {
        loads(&rt, rt.alloc(), fail_at, 67);
    }
    loads(&rt, rt.alloc(), reads, 0);
}

fn loads(rt: &impl Abort, alloc: Global, fail_at: u64, number: u8) {
    let mut reader = Reader::new(Slow {
        bytes: OPEN_FILE.as_bytes(),
        reads: 0,
        fail_at,
    });
    let told = fault_of_load(alloc, &mut reader);
    assert_eq!(rt; told, number, "at {fail_at}");
}

// The number of the fault of loading what a reader gives, or 0.
fn fault_of_load(alloc: Global, reader: &mut Reader<impl Read>) -> u8 {
    match load(alloc, reader) {
        Ok(_) => 0,
        Err(fault) => fault.number(),
    }
}

#[test]
fn failing_writers(rt: HostRuntime) -> Result<(), Fail> {
    let Ok((namespace, txid)) = load(rt.alloc(), &mut Reader::new(OPEN_FILE.as_bytes())) else {
        return Err(Fail::new("not loaded"));
    };
    for width in [1, 2, 7, 4096] {
        stops(&rt, rt.alloc(), &namespace, txid, width);
    }
    Ok(())
}

// The image is one part, of which the writer takes so many bytes a time.
fn stops(rt: &impl Abort, alloc: Global, namespace: &Namespace, txid: Txid, width: usize) {
    let writes = writes_of(OPEN_FILE.len(), width);
    for fails in [false, true] {
        for stop_at in 0..writes {
            save_stops(
                rt,
                alloc,
                namespace,
                txid,
                Stopping::new(alloc, width, stop_at, fails),
            );
            rewrite_stops(rt, alloc, Stopping::new(alloc, width, stop_at, fails));
        }
    }
}

// How many writes a text of so many bytes takes.
fn writes_of(len: usize, width: usize) -> u64 {
    let mut left = len;
    let mut writes = 0u64;
    for _ in 0..len {
        if left > 0 {
            left = left.saturating_sub(width);
            writes = writes.saturating_add(1);
        }
    }
    writes
}

fn save_stops(rt: &impl Abort, alloc: Global, namespace: &Namespace, txid: Txid, writer: Stopping) {
    let mut writer = Writer::new(writer);
    let told = match save(alloc, namespace, txid, &mut writer) {
        Err(SaveFault::WriteFault { written }) => written,
        _ => u64::MAX,
    };
    tells_what_it_wrote(rt, &writer.into_inner(), told);
}

fn rewrite_stops(rt: &impl Abort, alloc: Global, writer: Stopping) {
    let mut writer = Writer::new(writer);
    let mut reader = Reader::new(OLD_FILE.as_bytes());
    let told = match rewrite(alloc, &mut reader, &mut writer) {
        Err(RewriteFault::Save(SaveFault::WriteFault { written })) => written,
        _ => u64::MAX,
    };
    tells_what_it_wrote(rt, &writer.into_inner(), told);
}

fn tells_what_it_wrote(rt: &impl Abort, writer: &Stopping, told: u64) {
    assert!(rt; OPEN_FILE.as_bytes().starts_with(&writer.got));
    let wrote = (writer.got.len() as u64, 0);
    assert_eq!(rt; (told, writer.later), wrote, "at {}", writer.stop_at);
}

// ---- Readers that never end.

// A reader that gives a text and then one byte for ever, up to `chunk` bytes a time.
#[derive(Drop)]
struct Endless<'a> {
    text: &'a [u8],
    then: u8,
    chunk: usize,
    given: u64,
}

impl Read for Endless<'_> {
    fn read(&mut self, buf: &mut [u8]) -> io::Result<usize> {
        let n = buf.len().min(self.chunk);
        for place in buf[..n].iter_mut() {
            match self.text {
                [first, rest @ ..] => {
                    *place = *first;
                    self.text = rest;
                }
                [] => *place = self.then,
            }
        }
        self.given = self.given.saturating_add(n as u64);
        Ok(n)
    }
}

const HEADER: &str =
    r#"{"awaiting":[],"image":"hdfs-standby","last_block":1073741824,"last_gen":1000,"profile":1,"txid":5,"version":2}
"#;

// An image that was whole: what follows it is too much.
const ROOT_ALONE: &str =
    r#"{"awaiting":[],"image":"hdfs-standby","last_block":1073741824,"last_gen":1000,"profile":1,"txid":5,"version":2}
{"end":0}
"#;

// One buffer of `load`.
const BUFFER: u64 = 65_536;

// An empty line is no header, no path and nothing after the last line. `load` stops there, and has read no further than
// the buffer in which the line ends.
#[test]
fn endless_readers(rt: HostRuntime) {
    for chunk in [1, 65_536, 1_000_000] {
        for (text, number) in [("", 61), (HEADER, 62), (ROOT_ALONE, 62)] {
            stops_at_the_line(&rt, rt.alloc(), text, number, chunk);
        }
    }
    // A line that never ends, byte by byte: the reader is given up.
    let told = load_of(rt.alloc(), HEADER, b' ', 1);
    assert_eq!(rt; told, (67, 16_777_216));
}

fn stops_at_the_line(rt: &impl Abort, alloc: Global, text: &str, number: u8, chunk: usize) {
    let (told, given) = load_of(alloc, text, b'\n', chunk);
    assert_eq!(rt; told, number, "by {chunk}");
    assert!(rt;
        given <= (text.len() as u64).saturating_add(BUFFER),
        "by {chunk}"
    );
}

fn load_of(alloc: Global, text: &str, then: u8, chunk: usize) -> (u8, u64) {
    let mut reader = Reader::new(Endless {
        text: text.as_bytes(),
        then,
        chunk,
        given: 0,
    });
    let number = fault_of_load(alloc, &mut reader);
    (number, reader.into_inner().given)
}
