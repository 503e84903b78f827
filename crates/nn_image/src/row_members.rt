//! What is kept of the object of a line behind the header: read in one pass over its bytes, with no tree of values.
ghost use Rattle.std.specs.Prelude.{◌≡◌, ◌≢◌, IfOk, IfSome, option_map};
ghost use Rattle.serde_json.specs.Data.{Data, object, no_members};
ghost use Rattle.nn_plain.specs.Spelling.{plain_of, spelled_or};
ghost use Rattle.nn_image.specs.RowParts.{parts_of, seen_parts, put_at, row_key, file_from, form_from, row_from, line_from};

use crate::arrays::read_blocks;
use crate::row_line::RowLine;
use crate::values::{limited, text_of, truth_of, whole_of};
use json::Reader;
use nn_model::{FileRow, Form};
use nn_plain::{MemberSink, Plain, ReadFault, Slots, read_value};
use nn_types::limits::MAX_REPLICATION;
use nn_types::{Blocks, Path, PathFault, Replication};
use std::alloc::{AllocError, Global};

/// The keys of a row, and that of the end line.
#[derive(Clone, Copy)]
pub(crate) enum RowKey {
    Path,
    Kind,
    Blocks,
    Closed,
    Replication,
    End,
}

/// What an object has at these keys. Of members with the same key the last one counts.
#[derive(Drop)]
pub(crate) struct RowMembers<'a> {
    pub(crate) path: Option<&'a str>,
    pub(crate) kind: Option<&'a str>,
    pub(crate) blocks: Option<Blocks>,
    pub(crate) closed: Option<bool>,
    pub(crate) replication: Option<u64>,
    /// The value at the key `end`, whatever it is, and its number, if it is one.
    pub(crate) end: Option<Option<u64>>,
}

impl<'a> RowMembers<'a> {
    /// Those of an object with no members.
    #[tactic(auto, unfolding(crate::specs::Reading::text_under, crate::specs::Reading::flag_under, crate::specs::Reading::array_under, crate::specs::Reading::blocks_at))]
    pub(crate) fn none() -> RowMembers<'a>
        ensures { seen_parts result ≡ parts_of (object no_members) }
    {
        RowMembers {
            path: None,
            kind: None,
            blocks: None,
            closed: None,
            replication: None,
            end: None,
        }
    }

    /// The line of these members.
    pub(crate) fn line(self, alloc: Global) -> Result<RowLine, AllocError>
        ensures { IfOk result (λ r. r ≡ line_from (seen_parts self.entry)) }
    {
        if let Some(count) = self.end {
            return Ok(RowLine::End(limited(count)));
        }
        match self.row(alloc)? {
            Some((path, form)) => Ok(RowLine::Row(path, form)),
            None => Ok(RowLine::Bad),
        }
    }

    // The row, if these are the members of one.
    #[tactic(auto, unfolding(crate::specs::RowParts::row_from))]
    fn row(self, alloc: Global) -> Result<Option<(Path, Form)>, AllocError>
        ensures { IfOk result (λ o. o ≡ row_from (seen_parts self.entry)) }
    {
        let Some(text) = self.path else {
            return Ok(None);
        };
        let path = match Path::parse(alloc, text) {
            Ok(path) => path,
            Err(PathFault::BadPath) => return Ok(None),
            Err(PathFault::OutOfMemory) => return Err(AllocError),
        };
        let Some(form) = self.form() else {
            return Ok(None);
        };
        Ok(Some((path, form)))
    }

    #[tactic(auto, unfolding(crate::specs::RowParts::form_from))]
    fn form(self) -> Option<Form>
        ensures { result ≡ form_from (seen_parts self.entry) }
    {
        match self.kind? {
            "dir" => Some(Form::Dir),
            "file" => self.file(),
            _ => None,
        }
    }

    #[tactic(auto, unfolding(crate::specs::RowParts::file_from))]
    fn file(self) -> Option<Form>
        ensures { result ≡ file_from (seen_parts self.entry) }
    {
        let blocks = self.blocks?;
        let closed = self.closed?;
        let replication = self.replication?;
        if replication < 1 || u64::from(MAX_REPLICATION) < replication {
            return None;
        }
        let replication = Replication::new(replication)?;
        Some(Form::File(FileRow {
            replication,
            closed,
            blocks,
        }))
    }

    // Takes the value at a key that wants no array.
    #[inline(always)]
    fn set(&mut self, key: RowKey, value: Option<Plain<'a>>)
        requires { key ≢ RowKey.Blocks }
        ensures { (d : Data) → spelled_or value.entry ≡ plain_of d → seen_parts self.new ≡ put_at key d (seen_parts self.old) }
    {
        match key {
            RowKey::Path => self.path = text_of(value),
            RowKey::Kind => self.kind = text_of(value),
            RowKey::Blocks => {}
            RowKey::Closed => self.closed = truth_of(value),
            RowKey::Replication => self.replication = whole_of(value),
            RowKey::End => self.end = Some(whole_of(value)),
        }
    }
}

impl<'a> Slots<'a> for RowMembers<'a> {
    ghost use Rattle.std.specs.Prelude.{◌≡◌};
    ghost use Rattle.serde_json.specs.Data.{object};
    ghost use Rattle.nn_image.specs.RowParts.{parts_of, row_key, seen_parts};

    type Slot = Option<RowKey>;

    ghost seen = { λ r ms. seen_parts r ≡ parts_of (object ms) };

    ghost names = { λ slot key. slot ≡ row_key key };

    #[inline(always)]
    fn slot(key: &'a str, _word: u64) -> Option<RowKey> {
        row_key(key)
    }

    #[inline(always)]
    fn put(&mut self, slot: Option<RowKey>, value: Plain<'a>) {
        match slot {
            Some(RowKey::Blocks) => self.blocks = None,
            Some(key) => self.set(key, Some(value)),
            None => {}
        }
    }

    fn put_array(&mut self, slot: Option<RowKey>, blocks: Blocks) {
        match slot {
            Some(RowKey::Blocks) => {
                blocks.recall_invariant();
                self.blocks = Some(blocks);
            }
            Some(key) => self.set(key, None),
            None => {}
        }
    }
}

impl<'a> MemberSink<'a> for RowMembers<'a> {
    ghost use Rattle.std.specs.Prelude.{◌≡◌};
    ghost use Rattle.serde_json.specs.Data.{object};
    ghost use Rattle.nn_image.specs.RowParts.{parts_of, seen_parts};

    ghost seen = { λ r ms. seen_parts r ≡ parts_of (object ms) };

    fn read(
        &mut self,
        alloc: Global,
        key: &'a str,
        reader: &mut Reader<'a>,
        depth: usize,
    ) -> Result<(), ReadFault> {
        let key = row_key(key);
        if let Some(RowKey::Blocks) = key {
            self.blocks = read_blocks(alloc, reader, depth)?;
            return Ok(());
        }
        let value = read_value(reader, depth)?;
        if let Some(key) = key {
            self.set(key, value);
        }
        Ok(())
    }
}

#[inline(always)]
#[tactic(auto, unfolding(crate::specs::RowParts::row_key))]
fn row_key(key: &str) -> Option<RowKey>
    ensures { result ≡ row_key key.now }
{
    match key {
        "path" => Some(RowKey::Path),
        "type" => Some(RowKey::Kind),
        "blocks" => Some(RowKey::Blocks),
        "closed" => Some(RowKey::Closed),
        "replication" => Some(RowKey::Replication),
        "end" => Some(RowKey::End),
        _ => None,
    }
}
