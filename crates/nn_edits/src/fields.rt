//! The members of a line's object that the formats have, each in its place: filled in one pass over the line.
ghost use Rattle.std.specs.Prelude.{◌≡◌};
ghost use Rattle.serde_json.specs.Data.{Data, object, no_members};
ghost use Rattle.nn_plain.specs.Spelling.{plain_of, spelled_or};
ghost use Rattle.nn_edits.specs.Parts.{number_seen, text_given, text_seen, seen_fields, parts_of, put_number, put_text, put_blocks, number_of_value, text_of_value, text_fault, has_no_member};

use crate::blocks::read_blocks;
use crate::fault::LineFault;
use crate::keys::{NumberKey, Slot, TextKey, slot_by_word, slot_of};
use json::Reader;
use nn_plain::{MemberSink, Plain, ReadFault, Slots, read_value};
use nn_types::Blocks;
use std::alloc::Global;
use std::mem;

/// What the line has at a key.
#[derive(Clone, Copy, Drop)]
pub(crate) enum State {
    Missing,
    /// A value of the sort that the key wants.
    Wanted,
    /// Any other value.
    Other,
}

/// What an object has at each key. Of members with the same key the last one counts.
///
/// A number and a text stand only where the state of their place is `Wanted`.
#[derive(Drop)]
pub(crate) struct Fields<'a> {
    number_states: [State; 8],
    // Eight, so that they fill a word, as those of the numbers do.
    text_states: [State; 8],
    numbers: [u64; 8],
    texts: [&'a str; 5],
    blocks: Result<Blocks, LineFault>,
}

impl<'a> Fields<'a> {
    /// Those of an object with no members.
    #[tactic(auto, unfolding(crate::specs::Reading::whole_in, crate::specs::Reading::blocks_in))]
    pub(crate) fn none() -> Fields<'a>
        ensures { seen_fields result ≡ parts_of (object no_members) }
    {
        Fields {
            number_states: [State::Missing; 8],
            text_states: [State::Missing; 8],
            numbers: [0; 8],
            texts: [""; 5],
            blocks: Err(LineFault::MissingField),
        }
    }

    /// The number at a key, or why there is none.
    #[inline(always)]
    pub(crate) fn number(&self, key: NumberKey) -> Result<u64, LineFault>
        ensures { result ≡ number_seen self.now key }
    {
        let place = key as usize;
        match self.number_states[place] {
            State::Missing => Err(LineFault::MissingField),
            State::Wanted => Ok(self.numbers[place]),
            State::Other => Err(LineFault::BadNumber),
        }
    }

    /// The text at a key, or why there is none.
    #[inline(always)]
    pub(crate) fn text(&self, key: TextKey) -> Result<&'a str, LineFault>
        ensures { text_given result ≡ text_seen self.now key }
    {
        let place = key as usize;
        match self.text_states[place] {
            State::Missing => Err(LineFault::MissingField),
            State::Wanted => Ok(self.texts[place]),
            State::Other => Err(text_fault(key)),
        }
    }

    /// Whether there is no member at a key.
    #[inline(always)]
    pub(crate) fn lacks_text(&self, key: TextKey) -> bool
        ensures { result ≡ has_no_member (text_seen self.now key) }
    {
        matches!(self.text_states[key as usize], State::Missing)
    }

    /// Whether there is no member at a key.
    #[inline(always)]
    pub(crate) fn lacks_number(&self, key: NumberKey) -> bool
        ensures { result ≡ has_no_member (number_seen self.now key) }
    {
        matches!(self.number_states[key as usize], State::Missing)
    }

    /// Takes the blocks out.
    pub(crate) fn take_blocks(&mut self) -> Result<Blocks, LineFault>
        ensures { result ≡ self.old.blocks }
    {
        mem::replace(&mut self.blocks, Err(LineFault::MissingField))
    }

    #[inline(always)]
    fn put_number(&mut self, key: NumberKey, value: Option<Plain<'a>>)
        ensures { (d : Data) → spelled_or value.entry ≡ plain_of d
            → seen_fields self.new ≡ put_number key (number_of_value d) (seen_fields self.old) }
    {
        let place = key as usize;
        if let Some(Plain::Whole(n)) = value {
            self.numbers[place] = n;
            self.number_states[place] = State::Wanted;
            return;
        }
        self.number_states[place] = State::Other;
    }

    #[inline(always)]
    fn put_text(&mut self, key: TextKey, value: Option<Plain<'a>>)
        ensures { (d : Data) → spelled_or value.entry ≡ plain_of d
            → seen_fields self.new ≡ put_text key (text_of_value (text_fault key) d) (seen_fields self.old) }
    {
        let place = key as usize;
        if let Some(Plain::Text(text)) = value {
            self.texts[place] = text;
            self.text_states[place] = State::Wanted;
            return;
        }
        self.text_states[place] = State::Other;
    }

    // Takes the blocks, or why there are none.
    fn put_blocks(&mut self, blocks: Result<Blocks, LineFault>)
        ensures { seen_fields self.new ≡ put_blocks blocks (seen_fields self.old) }
    {
        self.blocks = blocks;
    }
}

impl<'a> Slots<'a> for Fields<'a> {
    ghost use Rattle.std.specs.Prelude.{◌≡◌};
    ghost use Rattle.serde_json.specs.Data.{object};
    ghost use Rattle.nn_edits.specs.Parts.{seen_fields, parts_of, slot_of};

    type Slot = Option<Slot>;

    ghost seen = { λ f ms. seen_fields f ≡ parts_of (object ms) };

    ghost names = { λ slot key. slot ≡ slot_of key };

    #[inline(always)]
    fn slot(key: &'a str, word: u64) -> Option<Slot> {
        slot_by_word(key, word)
    }

    #[inline(always)]
    fn put(&mut self, slot: Option<Slot>, value: Plain<'a>) {
        let Some(slot) = slot else {
            return;
        };
        match slot {
            Slot::Number(number) => self.put_number(number, Some(value)),
            Slot::Text(text) => self.put_text(text, Some(value)),
            Slot::Blocks => self.put_blocks(Err(LineFault::MissingField)),
        }
    }

    fn put_array(&mut self, slot: Option<Slot>, blocks: Blocks) {
        let Some(slot) = slot else {
            return;
        };
        match slot {
            Slot::Number(number) => self.put_number(number, None),
            Slot::Text(text) => self.put_text(text, None),
            Slot::Blocks => {
                blocks.recall_invariant();
                self.put_blocks(Ok(blocks));
            }
        }
    }
}

impl<'a> MemberSink<'a> for Fields<'a> {
    ghost use Rattle.std.specs.Prelude.{◌≡◌};
    ghost use Rattle.serde_json.specs.Data.{object};
    ghost use Rattle.nn_edits.specs.Parts.{seen_fields, parts_of};

    ghost seen = { λ f ms. seen_fields f ≡ parts_of (object ms) };

    fn read(
        &mut self,
        alloc: Global,
        key: &'a str,
        reader: &mut Reader<'a>,
        depth: usize,
    ) -> Result<(), ReadFault> {
        let Some(slot) = slot_of(key) else {
            let _dropped = read_value(reader, depth)?;
            return Ok(());
        };
        match slot {
            Slot::Number(number) => {
                let value = read_value(reader, depth)?;
                self.put_number(number, value);
            }
            Slot::Text(text) => {
                let value = read_value(reader, depth)?;
                self.put_text(text, value);
            }
            Slot::Blocks => {
                let blocks = read_blocks(alloc, reader, depth)?;
                self.put_blocks(blocks);
            }
        }
        Ok(())
    }
}

// The fault of a member that is no text.
fn text_fault(key: TextKey) -> LineFault
    ensures { result ≡ text_fault key }
{
    match key {
        TextKey::Op => LineFault::UnknownOp,
        TextKey::Path | TextKey::Src | TextKey::Dst => LineFault::BadPath,
        TextKey::Kind => LineFault::UnknownKind,
    }
}
