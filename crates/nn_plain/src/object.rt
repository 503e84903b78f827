//! Objects and arrays of any text of JSON, read a member or an item at a time: no tree of values is made.
ghost use Rattle.std.specs.Prelude.{◌≡◌, ◌<◌, length, true, Some, None, Err, IfOk, OnOk};
ghost use Rattle.serde_json.specs.Data.{Data, Items, Members, array, object, no_items, no_members, put};
ghost use Rattle.serde_json.specs.Find.{as_array, as_object};
ghost use Rattle.serde_json.specs.Read.{read};
ghost use Rattle.nn_plain.specs.Ahead.{data_at, items_at, members_at, with_last_item, IsArrayIf, IsObjectIf, LacksObject};

use crate::any::read_from;
use json::{Invalid, Reader, Scratch, Token};
use std::alloc::{AllocError, Global};

/// How deep a line may nest.
const MAX_DEPTH: usize = 127;

/// Why a line was not read to its end.
#[derive(Clone, Copy, Debug, PartialEq, Eq)]
pub enum ReadFault {
    /// It is no JSON, nests too deep, or has a number beyond every float.
    Invalid,
    OutOfMemory,
}

impl From<Invalid> for ReadFault {
    ghost use Rattle.nn_plain.specs.declared.object.ReadFault.TheVariants.{Invalid as invalid};

    ghost from_gives = { λ _ e. e ≡ invalid };

    fn from(_e: Invalid) -> ReadFault {
        ReadFault::Invalid
    }
}

impl From<AllocError> for ReadFault {
    ghost use Rattle.nn_plain.specs.declared.object.ReadFault.TheVariants.{OutOfMemory};

    ghost from_gives = { λ _ e. e ≡ OutOfMemory };

    fn from(_e: AllocError) -> ReadFault {
        ReadFault::OutOfMemory
    }
}

/// Takes the members of an object, one after another, and reads the value of each.
///
/// Of members with the same key the last one counts.
pub trait MemberSink<'a> {
    /// `seen s ms`: it has what it keeps of the members ms.
    ghost seen: { Self → Members → Type 0 };

    /// Reads the value of a member, and keeps of it what it wants. Arrays and objects may nest `depth` deep in the line here.
    fn read(
        &mut self,
        alloc: Global,
        key: &'a str,
        reader: &mut Reader<'a>,
        depth: usize,
    ) -> Result<(), ReadFault>
        ensures ok { OnOk result ((d : Data) × (data_at depth reader.old ≡ Some (d, reader.new))
            × ((ms : Members) → seen self.old ms → seen self.new (put key.now d ms))) }
        ensures shorter { OnOk result (length reader.new < length reader.old) }
        ensures err { result ≡ Err ReadFault.Invalid → data_at depth reader.old ≡ None };
}

/// Takes the items of an array, one after another, and reads the value of each.
pub trait ItemSink {
    /// `seen s ds`: it has what it keeps of the items ds.
    ghost seen: { Self → Items → Type 0 };

    /// Reads the next item, and keeps of it what it wants. Arrays and objects may nest `depth` deep in the line here.
    fn read(
        &mut self,
        alloc: Global,
        reader: &mut Reader<'_>,
        depth: usize,
    ) -> Result<(), ReadFault>
        ensures ok { OnOk result ((d : Data) × (data_at depth reader.old ≡ Some (d, reader.new))
            × ((ds : Items) → seen self.old ds → seen self.new (with_last_item ds d))) }
        ensures shorter { OnOk result (length reader.new < length reader.old) }
        ensures err { result ≡ Err ReadFault.Invalid → data_at depth reader.old ≡ None };
}

/// Reads the object that a line is. `scratch` is the reader's room, which grows to the longest line.
///
/// After a fault the sink has any members.
pub fn read_line<'a, S: MemberSink<'a>>(
    alloc: Global,
    line: &'a str,
    scratch: &'a mut Scratch,
    sink: &mut S,
) -> Result<(), ReadFault>
    requires { S.seen sink.old no_members }
    ensures ok { OnOk result ((ms : Members) × (read line.now ≡ Some (object ms)) × S.seen sink.new ms) }
    ensures err { result ≡ Err ReadFault.Invalid → LacksObject line.now }
{
    let mut reader = Reader::new(line, scratch)?;
    if !read_object(alloc, &mut reader, MAX_DEPTH, sink)? {
        return Err(ReadFault::Invalid);
    }
    if reader.next().is_some() {
        return Err(ReadFault::Invalid);
    }
    Ok(())
}

/// Reads the next value, and says whether it is an object. Then the sink has its members; any other value is passed over.
pub fn read_object<'a, S: MemberSink<'a>>(
    alloc: Global,
    reader: &mut Reader<'a>,
    depth: usize,
    sink: &mut S,
) -> Result<bool, ReadFault>
    requires { S.seen sink.old no_members }
    ensures ok { IfOk result (λ is. (d : Data) × (data_at depth reader.old ≡ Some (d, reader.new)) × IsObjectIf is d (S.seen sink.new)) }
    ensures shorter { OnOk result (length reader.new < length reader.old) }
    ensures err { result ≡ Err ReadFault.Invalid → data_at depth reader.old ≡ None }
{
    let token = reader.next().ok_or(Invalid)?;
    let Token::BeginObject = token else {
        let _other = read_from(reader, token, depth)?;
        return Ok(false);
    };
    if depth == 0 {
        return Err(ReadFault::Invalid);
    }
    read_members(alloc, reader, depth - 1, sink)?;
    Ok(true)
}

/// Reads the next value, and says whether it is an array. Then the sink has its items; any other value is passed over.
pub fn read_array<S: ItemSink>(
    alloc: Global,
    reader: &mut Reader<'_>,
    depth: usize,
    sink: &mut S,
) -> Result<bool, ReadFault>
    requires { S.seen sink.old no_items }
    ensures ok { IfOk result (λ is. (d : Data) × (data_at depth reader.old ≡ Some (d, reader.new)) × IsArrayIf is d (S.seen sink.new)) }
    ensures shorter { OnOk result (length reader.new < length reader.old) }
    ensures err { result ≡ Err ReadFault.Invalid → data_at depth reader.old ≡ None }
{
    let token = reader.next().ok_or(Invalid)?;
    let Token::BeginArray = token else {
        let _other = read_from(reader, token, depth)?;
        return Ok(false);
    };
    if depth == 0 {
        return Err(ReadFault::Invalid);
    }
    read_items(alloc, reader, depth - 1, sink)?;
    Ok(true)
}

// Reads the members up to the end of their object.
fn read_members<'a, S: MemberSink<'a>>(
    alloc: Global,
    reader: &mut Reader<'a>,
    depth: usize,
    sink: &mut S,
) -> Result<(), ReadFault>
    requires { S.seen sink.old no_members }
    ensures ok { OnOk result ((ms : Members)
        × (members_at depth (length reader.old) no_members reader.old ≡ Some (ms, reader.new)) × S.seen sink.new ms) }
    ensures shorter { OnOk result (length reader.new < length reader.old) }
    ensures err { result ≡ Err ReadFault.Invalid
        → members_at depth (length reader.old) no_members reader.old ≡ None }
{
    'members: while let Some(key) = reader.next_key()? {
        sink.read(alloc, key, reader, depth)?;
    }
    Ok(())
}

// Reads the items up to the end of their array.
fn read_items<S: ItemSink>(
    alloc: Global,
    reader: &mut Reader<'_>,
    depth: usize,
    sink: &mut S,
) -> Result<(), ReadFault>
    requires { S.seen sink.old no_items }
    ensures ok { OnOk result ((ds : Items)
        × (items_at depth (length reader.old) reader.old ≡ Some (ds, reader.new)) × S.seen sink.new ds) }
    ensures shorter { OnOk result (length reader.new < length reader.old) }
    ensures err { result ≡ Err ReadFault.Invalid → items_at depth (length reader.old) reader.old ≡ None }
{
    'items: while !reader.take_end_array() {
        sink.read(alloc, reader, depth)?;
    }
    Ok(())
}
