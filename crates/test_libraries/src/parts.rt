//! Images that are written in parts.
use crate::devices::Stopping;
use nn_device::{Reader, Writer};
use nn_image::{ImageFault, SaveFault, Saving, load};
use nn_tree::Namespace;
use nn_types::{Edit, Path, Txid};
use std::alloc::Global;
use std::io::Write;
use std::process::Abort;
use std::test::Fail;

// Five paths, one of them a file.
const IMAGE: &str =
    r#"{"awaiting":[1073741826],"image":"hdfs-standby","last_block":1073741826,"last_gen":1001,"profile":1,"txid":9,"version":2}
{"path":"/a","type":"dir"}
{"path":"/a/b","type":"dir"}
{"blocks":[{"gen":1001,"id":1073741825,"len":5}],"closed":true,"path":"/a/b/f","replication":3,"type":"file"}
{"path":"/a/c","type":"dir"}
{"path":"/d","type":"dir"}
{"end":5}
"#;

#[test]
fn parts_are_the_image(rt: HostRuntime) -> Result<(), Fail> {
    let (namespace, txid) = loaded(rt.alloc(), IMAGE)?;
    for (rows, calls) in [(1, 5), (2, 3), (4, 2), (5, 1), (6, 1), (usize::MAX, 1)] {
        are_the_image(&rt, rt.alloc(), &namespace, txid, rows, calls);
    }
    Ok(())
}

fn loaded(alloc: Global, text: &str) -> Result<(Namespace, Txid), Fail> {
    let Ok(loaded) = load(alloc, &mut Reader::new(text.as_bytes())) else {
        return Err(Fail::new("not loaded"));
    };
    Ok(loaded)
}

fn are_the_image(
    rt: &impl Abort,
    alloc: Global,
    namespace: &Namespace,
    txid: Txid,
    rows: usize,
    calls: u64,
) {
    let mut writer = Writer::new(Vec::new(alloc));
    let took = calls_of(alloc, namespace, txid, &mut writer, rows);
    let text = writer.into_inner();
    assert_eq!(rt; took, Ok(calls), "parts of {rows}");
    assert!(rt; text.as_slice() == IMAGE.as_bytes());
}

// How many calls an image takes, in parts of so many paths. None: more than there are paths.
fn calls_of<W: Write>(
    alloc: Global,
    namespace: &Namespace,
    txid: Txid,
    writer: &mut Writer<W>,
    rows: usize,
) -> Result<u64, SaveFault> {
    let mut saving = Saving::begin(alloc, namespace, txid, writer)?;
    for calls in 1..=100_000 {
        let Some(next) = saving.write_some(alloc, namespace, writer, rows)? else {
            return Ok(calls);
        };
        saving = next;
    }
    Ok(0)
}

// A part of no paths is no part. What was begun is no image.
#[test]
fn a_part_of_no_paths(rt: HostRuntime) -> Result<(), Fail> {
    let (namespace, txid) = loaded(rt.alloc(), IMAGE)?;
    let mut writer = Writer::new(Vec::new(rt.alloc()));
    is_no_part(&rt, rt.alloc(), &namespace, txid, &mut writer)?;
    let text = writer.into_inner();
    let fault = match load(rt.alloc(), &mut Reader::new(text.as_slice())) {
        Ok(_) => None,
        Err(fault) => Some(fault),
    };
    assert_eq!(rt; fault, Some(ImageFault::Truncated));
    Ok(())
}

fn is_no_part<W: Write>(
    rt: &impl Abort,
    alloc: Global,
    namespace: &Namespace,
    txid: Txid,
    writer: &mut Writer<W>,
) -> Result<(), Fail> {
    let Ok(saving) = Saving::begin(alloc, namespace, txid, writer) else {
        return Err(Fail::new("not begun"));
    };
    let head = writer.taken();
    let goes_on = matches!(saving.write_some(alloc, namespace, writer, 0), Ok(Some(_)));
    assert_eq!(rt; (goes_on, writer.taken()), (true, head));
    Ok(())
}

// A part ends with the line with which 262,144 bytes are reached. A line has 28 bytes or fewer here.
#[test]
fn a_part_of_256_kib(rt: HostRuntime) -> Result<(), Fail> {
    let mut namespace = Namespace::new(rt.alloc());
    for n in 0..20_000u32 {
        make_directory(rt.alloc(), &mut namespace, n)?;
    }
    let Some(txid) = Txid::new(20_000) else {
        return Err(Fail::new("no txid"));
    };
    ends_with_256_kib(&rt, rt.alloc(), &namespace, txid)
}

fn make_directory(alloc: Global, namespace: &mut Namespace, n: u32) -> Result<(), Fail> {
    let text = format!(in alloc; "/{n}")?;
    let path = Path::parse(alloc, text.as_str())?;
    let edit = Edit::Mkdir { path };
    let made = namespace.apply(&edit).is_ok();
    drop(edit);
    if made {
        return Ok(());
    }
    Err(Fail::new("not made"))
}

fn ends_with_256_kib(
    rt: &impl Abort,
    alloc: Global,
    namespace: &Namespace,
    txid: Txid,
) -> Result<(), Fail> {
    let mut writer = Writer::new(Vec::new(alloc));
    let Ok(saving) = Saving::begin(alloc, namespace, txid, &mut writer) else {
        return Err(Fail::new("not begun"));
    };
    let head = writer.taken();
    let goes_on = matches!(
        saving.write_some(alloc, namespace, &mut writer, usize::MAX),
        Ok(Some(_))
    );
    let part = writer.taken().saturating_sub(head);
    assert!(rt; goes_on && (262_144..262_172).contains(&part));
    Ok(())
}

// A write that fails ends the image, and what that call wrote is told.
#[test]
fn parts_that_fail(rt: HostRuntime) -> Result<(), Fail> {
    let (namespace, txid) = loaded(rt.alloc(), IMAGE)?;
    for stop_at in 0..30 {
        for fails in [false, true] {
            let writer = Stopping::new(rt.alloc(), 17, stop_at, fails);
            fails_once(&rt, rt.alloc(), &namespace, txid, writer);
        }
    }
    Ok(())
}

fn fails_once(
    rt: &impl Abort,
    alloc: Global,
    namespace: &Namespace,
    txid: Txid,
    stopping: Stopping,
) {
    let mut writer = Writer::new(stopping);
    let ended = calls_of(alloc, namespace, txid, &mut writer, 2);
    let told = writer.taken();
    let stopped = writer.into_inner();
    assert!(rt; IMAGE.as_bytes().starts_with(&stopped.got));
    assert_eq!(rt;
        (told, stopped.later),
        (stopped.got.len() as u64, 0),
        "at {}",
        stopped.stop_at
    );
    let whole = stopped.got.len() == IMAGE.len();
    assert!(rt; ended.is_ok() == whole);
}
