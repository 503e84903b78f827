//! The words by which a caller asks something of a standby in service.
ghost use Rattle.std.specs.Prelude.{◌≡◌, ◌<◌, ◌^◌, None, IfOk, IfSome, IsTrue, option_map};
ghost use Rattle.serde_json.specs.Data.{Data};
ghost use Rattle.serde_json.specs.Find.{as_str};
ghost use Rattle.nn_plain.specs.Spelling.{plain_of, spelled_or};
ghost use Rattle.nn_live.specs.Words.{prefixed, word_alone, asking, number_word, path_word, promotion_in, promotion_of, known_word, unknown_word, word_in};

use itoa::Buffer;
use json::{Reader, Scratch};
use nn_bytes::run_before;
use nn_plain::{Plain, read_value};
use nn_types::limits::MAX_LINE_LEN;
use nn_types::{BlockId, Path, PathFault};
use simdutf8::basic::from_utf8;
use std::alloc::{AllocError, Global};

/// How deep a line may nest.
const MAX_DEPTH: usize = 127;

/// The least number that is none of the formats.
pub(crate) const NUMBERS: u64 = 9_223_372_036_854_775_808;

/// What a caller asks for. Whether there is a block, a path or a DataNode of that name, the answer tells.
#[derive(Debug, Drop)]
pub enum Word {
    /// That all before it is done.
    Sync,
    Status,
    /// What waits, at most so many lines.
    Held(Option<u64>),
    /// What keeps safe mode on, at most so many lines.
    Unsafe(Option<u64>),
    Block(BlockId),
    Path(Path),
    Tables,
    Checkpoint,
    /// The DataNode has nothing any more.
    Gone(u64),
    /// The log has a transaction of this txid.
    Seen(u64),
    /// Someone may have been promoted in this epoch.
    Epoch(u64),
    /// The log has ended at this txid, says a caller in this epoch, which is 0 where none is said. With `losing`, what was read or
    /// seen above it is given up.
    Promote { txid: u64, epoch: u64, losing: bool },
    /// What `Block` asks for without the path, which takes no walk of the namespace.
    Replicas(BlockId),
    /// What words there are.
    Help,
    /// A line that begins with a letter from a to z, as words do, and is none of them.
    Unknown,
}

impl Word {
    /// The word that a line is, or begins as: `Unknown` where it begins with a letter from a to z and is no word. A line of JSON's
    /// objects is none, and neither is one of more than 65,536 bytes.
    ///
    /// `scratch` is the reader's room, which a caller keeps over its lines; what a line left in it has no part in the next.
    pub fn read(
        alloc: Global,
        scratch: &mut Scratch,
        line: &[u8],
    ) -> Result<Option<Word>, AllocError>
        ensures { IfOk result (λ word. word ≡ word_in line.now) }
    {
        if is_object(line) {
            return Ok(None);
        }
        if line.len() > MAX_LINE_LEN {
            return Ok(None);
        }
        match known(alloc, scratch, line)? {
            Some(word) => Ok(Some(word)),
            None => Ok(unknown(line)),
        }
    }
}

// Whether a line begins above all letters, as an object of JSON does: then it is no word.
fn is_object(line: &[u8]) -> bool
    ensures { IsTrue result → word_in line.now ≡ None }
{
    match line.first() {
        Some(first) => *first > b'z',
        None => false,
    }
}

// The word that a line of at most 65,536 bytes is, if it is one.
fn known(alloc: Global, scratch: &mut Scratch, line: &[u8]) -> Result<Option<Word>, AllocError>
    ensures { IfOk result (λ word. word ≡ known_word line.now) }
{
    let Ok(text) = from_utf8(line) else {
        return Ok(None);
    };
    if let Some(word) = alone(text) {
        return Ok(Some(word));
    }
    let Some(text) = line.strip_prefix(b"path ") else {
        return Ok(before_number(line));
    };
    match path_in(alloc, scratch, text)? {
        Some(path) => Ok(Some(Word::Path(path))),
        None => Ok(None),
    }
}

// What a line is that is no word: unknown, if it begins as words do.
fn unknown(line: &[u8]) -> Option<Word>
    ensures { result ≡ unknown_word line.now }
{
    match line.first() {
        Some(first) if *first >= b'a' && *first <= b'z' => Some(Word::Unknown),
        _ => None,
    }
}

// The word that stands alone in a line.
#[tactic(auto, unfolding(crate::specs::Words::word_alone))]
fn alone(line: &str) -> Option<Word>
    ensures { result ≡ word_alone line.now }
{
    match line {
        "sync" => Some(Word::Sync),
        "status" => Some(Word::Status),
        "held" => Some(Word::Held(None)),
        "unsafe" => Some(Word::Unsafe(None)),
        "tables" => Some(Word::Tables),
        "checkpoint" => Some(Word::Checkpoint),
        "help" => Some(Word::Help),
        _ => None,
    }
}

// The word that stands before a number.
fn before_number(line: &[u8]) -> Option<Word>
    ensures { result ≡ prefixed asking line.now }
{
    if let Some(text) = line.strip_prefix(b"held ") {
        return Some(Word::Held(Some(number_in(text)?)));
    }
    if let Some(text) = line.strip_prefix(b"unsafe ") {
        return Some(Word::Unsafe(Some(number_in(text)?)));
    }
    if let Some(text) = line.strip_prefix(b"block ") {
        return Some(Word::Block(id_in(text)?));
    }
    if let Some(text) = line.strip_prefix(b"replicas ") {
        return Some(Word::Replicas(id_in(text)?));
    }
    if let Some(text) = line.strip_prefix(b"gone ") {
        return Some(Word::Gone(number_in(text)?));
    }
    if let Some(text) = line.strip_prefix(b"seen ") {
        return Some(Word::Seen(number_in(text)?));
    }
    if let Some(text) = line.strip_prefix(b"epoch ") {
        return Some(Word::Epoch(number_in(text)?));
    }
    let text = line.strip_prefix(b"promote ")?;
    promotion_in(text)
}

fn promotion_in(text: &[u8]) -> Option<Word>
    ensures { result ≡ promotion_in text.now }
{
    match text.strip_suffix(b" lost") {
        Some(text) => promotion_of(text, true),
        None => promotion_of(text, false),
    }
}

// `T`, or `T epoch E`.
fn promotion_of(text: &[u8], losing: bool) -> Option<Word>
    ensures { result ≡ promotion_of losing text.now }
{
    let (first, rest) = text.split_at(run_before(text, b' '));
    let txid = number_in(first)?;
    if rest.is_empty() {
        return Some(Word::Promote {
            txid,
            epoch: 0,
            losing,
        });
    }
    let epoch = number_in(rest.strip_prefix(b" epoch ")?)?;
    Some(Word::Promote {
        txid,
        epoch,
        losing,
    })
}

// The block id that a text is.
fn id_in(text: &[u8]) -> Option<BlockId>
    ensures { result ≡ number_word text.now }
{
    let number = number_in(text)?;
    let Some(id) = BlockId::new(number) else {
        unreachable!();
    };
    Some(id)
}

// The number of the formats that a text is, written as the program writes it.
fn number_in(text: &[u8]) -> Option<u64>
    ensures number { result ≡ number_word text.now }
    ensures small { IfSome result (λ n. n < 2 ^ 63) }
{
    let Ok(number) = fast_float::parse_u64(text) else {
        return None;
    };
    if number >= NUMBERS {
        return None;
    }
    let mut buffer = Buffer::new();
    if buffer.format(number).as_bytes() != text {
        return None;
    }
    Some(number)
}

// The path that a text of JSON spells.
fn path_in(alloc: Global, scratch: &mut Scratch, text: &[u8]) -> Result<Option<Path>, AllocError>
    ensures { IfOk result (λ path. path ≡ path_word text.now) }
{
    let Ok(text) = from_utf8(text) else {
        return Ok(None);
    };
    let mut reader = Reader::new(text, scratch)?;
    let Ok(value) = read_value(&mut reader, MAX_DEPTH) else {
        return Ok(None);
    };
    if reader.next().is_some() {
        return Ok(None);
    }
    let Some(path) = text_of(value) else {
        return Ok(None);
    };
    match Path::parse(alloc, path) {
        Ok(path) => Ok(Some(path)),
        Err(PathFault::BadPath) => Ok(None),
        Err(PathFault::OutOfMemory) => Err(AllocError),
    }
}

// The text that a value is, if it is one.
fn text_of<'a>(value: Option<Plain<'a>>) -> Option<&'a str>
    ensures { (d : Data) → spelled_or value.entry ≡ plain_of d → option_map (λ s. s.now) result ≡ as_str d }
{
    match value {
        Some(Plain::Text(text)) => Some(text),
        Some(Plain::Whole(_) | Plain::Truth(_)) | None => None,
    }
}
