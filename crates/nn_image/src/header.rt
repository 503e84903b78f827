//! What the first line of an image says.
ghost use Rattle.std.specs.Prelude.{◌≡◌, ◌≢◌, ◌<◌, ◌^◌, IfOk, IfErr, IfSome, Ok, option_map};
ghost use Rattle.std.specs.List.{list_all};
ghost use Rattle.serde_json.specs.Data.{Data, object, no_members};
ghost use Rattle.nn_plain.specs.Spelling.{plain_of, spelled_or};
ghost use Rattle.nn_image.specs.Header.{header_value, IsLawfulHeader};
ghost use Rattle.nn_image.specs.HeaderParts.{fields_from, header_key, of_parts, parts_of, profile_from, put_at, seen_parts};
ghost use Rattle.nn_image.specs.Outcome.{ImageFails, IsNoRead};
ghost use Rattle.nn_image.specs.Reading.{object_of, of_header};
ghost use Rattle.nn_tree.specs.Restore.{awaiting_fits, is_issued, rises};

use crate::arrays::read_ids;
use crate::fault::ImageFault;
use crate::values::{limited, text_of, whole_of};
use json::{Reader, Scratch};
use nn_plain::{MemberSink, Plain, ReadFault, read_line, read_value};
use nn_types::limits::{FIRST_BLOCK, LAST_RESERVED_BLOCK, LAST_RESERVED_STAMP};
use nn_types::{BlockId, GenerationStamp, Profile, Txid};
use simdutf8::basic::from_utf8;
use std::alloc::Global;

/// What a header says.
#[derive(Drop)]
pub(crate) struct Header {
    pub last_block: BlockId,
    pub last_stamp: GenerationStamp,
    pub awaiting: Vec<BlockId>,
    pub profile: Profile,
    pub txid: Txid,
}

/// What the first line says.
pub(crate) fn read_header(alloc: Global, line: &[u8]) -> Result<Header, ImageFault>
    ensures ok { IfOk result (λ h. of_header (object_of line.now) ≡ Ok (header_value h)) }
    ensures lawful { IfOk result IsLawfulHeader }
    ensures limit { IfOk result (λ h. h.txid < 2 ^ 63) }
    ensures fault { IfErr result (λ e. ImageFails e (of_header (object_of line.now))) }
    ensures own { IfErr result IsNoRead }
{
    let Ok(text) = from_utf8(line) else {
        return Err(ImageFault::NotHeader);
    };
    let mut scratch = Scratch::new(alloc);
    let mut members = HeaderMembers::none();
    match read_line(alloc, text, &mut scratch, &mut members) {
        Ok(()) => members.header(),
        Err(ReadFault::Invalid) => Err(ImageFault::NotHeader),
        Err(ReadFault::OutOfMemory) => Err(ImageFault::OutOfMemory),
    }
}

/// The keys of a header.
#[derive(Clone, Copy)]
pub(crate) enum HeaderKey {
    Image,
    Version,
    Txid,
    LastBlock,
    LastStamp,
    Awaiting,
    Profile,
}

/// What an object has at these keys. Of members with the same key the last one counts.
#[derive(Drop)]
pub(crate) struct HeaderMembers<'a> {
    pub(crate) image: Option<&'a str>,
    pub(crate) version: Option<u64>,
    pub(crate) txid: Option<u64>,
    pub(crate) last_block: Option<u64>,
    pub(crate) last_stamp: Option<u64>,
    pub(crate) awaiting: Option<Vec<BlockId>>,
    pub(crate) profile: Option<u64>,
}

impl<'a> HeaderMembers<'a> {
    // Those of an object with no members.
    #[tactic(auto, unfolding(crate::specs::Reading::text_under))]
    fn none() -> HeaderMembers<'a>
        ensures { seen_parts result ≡ parts_of (object no_members) }
    {
        HeaderMembers {
            image: None,
            version: None,
            txid: None,
            last_block: None,
            last_stamp: None,
            awaiting: None,
            profile: None,
        }
    }

    // The header of these members.
    fn header(self) -> Result<Header, ImageFault>
        ensures ok { IfOk result (λ h. of_parts (seen_parts self.entry) ≡ Ok (header_value h)) }
        ensures lawful { IfOk result IsLawfulHeader }
        ensures limit { IfOk result (λ h. h.txid < 2 ^ 63) }
        ensures fault { IfErr result (λ e. ImageFails e (of_parts (seen_parts self.entry))) }
        ensures own { IfErr result IsNoRead }
    {
        let Some(version) = limited(self.version) else {
            return Err(ImageFault::NotHeader);
        };
        if version != 1 && version != 2 {
            return Err(ImageFault::BadVersion);
        }
        self.fields(version).ok_or(ImageFault::NotHeader)
    }

    // What a header of a version says.
    #[tactic(auto, unfolding(crate::specs::HeaderParts::fields_from))]
    fn fields(self, version: u64) -> Option<Header>
        ensures value { option_map header_value result ≡ fields_from version (seen_parts self.entry) }
        ensures lawful { IfSome result IsLawfulHeader }
        ensures limit { IfSome result (λ h. h.txid < 2 ^ 63) }
    {
        let mark = self.image?;
        let txid = Txid::new(self.txid?)?;
        let last_block = BlockId::new(self.last_block?)?;
        let last_stamp = GenerationStamp::new(self.last_stamp?)?;
        let awaiting = self.awaiting?;
        let profile = profile_from(version, self.profile)?;
        // Recalls to the prover that the txid keeps its limits.
        let _recalled = txid.get();
        if mark != "hdfs-standby"
            || last_block.get() < LAST_RESERVED_BLOCK
            || last_stamp.get() < LAST_RESERVED_STAMP
            || !awaiting_fits(last_block, &awaiting)
        {
            return None;
        }
        Some(Header {
            last_block,
            last_stamp,
            awaiting,
            profile,
            txid,
        })
    }

    // Takes the value at a key that wants no array.
    fn set(&mut self, key: HeaderKey, value: Option<Plain<'a>>)
        requires { key ≢ HeaderKey.Awaiting }
        ensures { (d : Data) → spelled_or value.entry ≡ plain_of d → seen_parts self.new ≡ put_at key d (seen_parts self.old) }
    {
        match key {
            HeaderKey::Image => self.image = text_of(value),
            HeaderKey::Version => self.version = whole_of(value),
            HeaderKey::Txid => self.txid = whole_of(value),
            HeaderKey::LastBlock => self.last_block = whole_of(value),
            HeaderKey::LastStamp => self.last_stamp = whole_of(value),
            HeaderKey::Awaiting => {}
            HeaderKey::Profile => self.profile = whole_of(value),
        }
    }
}

impl<'a> MemberSink<'a> for HeaderMembers<'a> {
    ghost use Rattle.std.specs.Prelude.{◌≡◌};
    ghost use Rattle.serde_json.specs.Data.{object};
    ghost use Rattle.nn_image.specs.HeaderParts.{parts_of, seen_parts};

    ghost seen = { λ h ms. seen_parts h ≡ parts_of (object ms) };

    fn read(
        &mut self,
        alloc: Global,
        key: &'a str,
        reader: &mut Reader<'a>,
        depth: usize,
    ) -> Result<(), ReadFault> {
        let key = header_key(key);
        if let Some(HeaderKey::Awaiting) = key {
            self.awaiting = read_ids(alloc, reader, depth)?;
            return Ok(());
        }
        let value = read_value(reader, depth)?;
        if let Some(key) = key {
            self.set(key, value);
        }
        Ok(())
    }
}

#[tactic(auto, unfolding(crate::specs::HeaderParts::header_key))]
fn header_key(key: &str) -> Option<HeaderKey>
    ensures { result ≡ header_key key.now }
{
    match key {
        "image" => Some(HeaderKey::Image),
        "version" => Some(HeaderKey::Version),
        "txid" => Some(HeaderKey::Txid),
        "last_block" => Some(HeaderKey::LastBlock),
        "last_gen" => Some(HeaderKey::LastStamp),
        "awaiting" => Some(HeaderKey::Awaiting),
        "profile" => Some(HeaderKey::Profile),
        _ => None,
    }
}

#[tactic(auto, unfolding(crate::specs::HeaderParts::profile_from))]
fn profile_from(version: u64, profile: Option<u64>) -> Option<Profile>
    ensures { result ≡ profile_from version profile }
{
    if version == 1 {
        return Some(Profile::One);
    }
    Profile::new(limited(profile)?)
}

fn awaiting_fits(last_block: BlockId, ids: &[BlockId]) -> bool
    ensures { result ≡ awaiting_fits last_block ids.now }
{
    all_issued(last_block, ids) && rises(ids)
}

fn all_issued(last_block: BlockId, ids: &[BlockId]) -> bool
    ensures { result ≡ list_all (is_issued last_block) ids.now }
{
    ids.iter().all(|id| FIRST_BLOCK <= id.get() && id.get() <= last_block.get())
}

fn rises(ids: &[BlockId]) -> bool
    ensures { result ≡ rises ids.now }
{
    let Some((first, rest)) = ids.split_first() else {
        return true;
    };
    let mut last = *first;
    for id in rest {
        if last >= *id {
            return false;
        }
        last = *id;
    }
    true
}
