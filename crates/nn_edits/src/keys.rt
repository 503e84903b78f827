//! The keys that the formats have, by the names that the code has for them.
ghost use Rattle.std.specs.Prelude.{◌≡◌, ◌⊎◌, ◌≤◌, ◌<◌, ℕ, List, length};
ghost use Rattle.nn_plain.specs.Words.{Begins};
ghost use Rattle.nn_edits.specs.Parts.{short_key_at, place_of, slot_of};

use nn_plain::{high_word, word_of};

/// The keys that want a whole number.
#[derive(Clone, Copy)]
pub(crate) enum NumberKey {
    Txid,
    Replication,
    Id,
    Stamp,
    Profile,
    Dn,
    Block,
    Len,
}

/// The keys that want a text.
#[derive(Clone, Copy)]
pub(crate) enum TextKey {
    Op,
    Path,
    Src,
    Dst,
    Kind,
}

/// Where the member of a key is kept.
#[derive(Clone, Copy)]
pub(crate) enum Slot {
    Number(NumberKey),
    Text(TextKey),
    Blocks,
}

/// The slot of a key, if a format has it.
#[inline(always)]
pub(crate) fn slot_of(key: &str) -> Option<Slot>
    ensures { result ≡ slot_of key.now }
{
    slot_by_word(key, word_of(key.as_bytes()))
}

/// The slot of a key that a word begins with, if a format has it. The word of a longer key than eight bytes is not looked at.
#[inline(always)]
pub(crate) fn slot_by_word(key: &str, word: u64) -> Option<Slot>
    requires { length key.now ≤ 8 → Begins word key.now }
    ensures { result ≡ slot_of key.now }
{
    let len = key.len();
    if len == 0 || len > 8 {
        return long_slot(key);
    }
    short_slot(word, len)
}

// The slot of a key by a word that it begins: one entry is looked at.
#[inline(always)]
fn short_slot(word: u64, len: usize) -> Option<Slot>
    requires { (1 ≤ len) × (len ≤ 8) }
    ensures { (key : List ℕ) → length key ≡ len → Begins word key → result ≡ slot_of key }
{
    let word = high_word(word, len);
    let entry = short_key_at(place_of(word));
    if entry.word != word {
        return None;
    }
    if entry.len as usize != len {
        return None;
    }
    Some(entry.slot)
}

#[inline(always)]
fn short_key_at(place: usize) -> &'static ShortKey
    requires { place < 16 }
    ensures { result.now ≡ short_key_at place }
{
    &SHORT_KEYS[place]
}

// The product of a key's word and FACTOR tells by its four high bits where the key's entry stands: no two keys have the same.
#[inline(always)]
fn place_of(word: u64) -> usize
    ensures value { result ≡ place_of word }
    ensures bound { result < 16 }
{
    (word.wrapping_mul(FACTOR) >> 60) as usize
}

// The slot of a key that has no entry.
fn long_slot(key: &str) -> Option<Slot>
    requires { (length key.now ≡ 0) ⊎ (8 < length key.now) }
    ensures { result ≡ slot_of key.now }
{
    if key == "replication" {
        return Some(Slot::Number(NumberKey::Replication));
    }
    None
}

// A key as the high bytes of a word. The entries that no key has are of no length.
struct ShortKey {
    word: u64,
    len: u8,
    slot: Slot,
}

const FACTOR: u64 = 0x9a84_a999_0d95_9b25;

static SHORT_KEYS: [ShortKey; 16] = [
    ShortKey {
        word: 0,
        len: 0,
        slot: Slot::Blocks,
    },
    ShortKey {
        word: 0x6469_0000_0000_0000,
        len: 2,
        slot: Slot::Number(NumberKey::Id),
    },
    ShortKey {
        word: 0x646e_696b_0000_0000,
        len: 4,
        slot: Slot::Text(TextKey::Kind),
    },
    ShortKey {
        word: 0x6e65_6c00_0000_0000,
        len: 3,
        slot: Slot::Number(NumberKey::Len),
    },
    ShortKey {
        word: 0x6e65_6700_0000_0000,
        len: 3,
        slot: Slot::Number(NumberKey::Stamp),
    },
    ShortKey {
        word: 0x6469_7874_0000_0000,
        len: 4,
        slot: Slot::Number(NumberKey::Txid),
    },
    ShortKey {
        word: 0,
        len: 0,
        slot: Slot::Blocks,
    },
    ShortKey {
        word: 0x706f_0000_0000_0000,
        len: 2,
        slot: Slot::Text(TextKey::Op),
    },
    ShortKey {
        word: 0x6e64_0000_0000_0000,
        len: 2,
        slot: Slot::Number(NumberKey::Dn),
    },
    ShortKey {
        word: 0x6372_7300_0000_0000,
        len: 3,
        slot: Slot::Text(TextKey::Src),
    },
    ShortKey {
        word: 0x6b63_6f6c_6200_0000,
        len: 5,
        slot: Slot::Number(NumberKey::Block),
    },
    ShortKey {
        word: 0x736b_636f_6c62_0000,
        len: 6,
        slot: Slot::Blocks,
    },
    ShortKey {
        word: 0x656c_6966_6f72_7000,
        len: 7,
        slot: Slot::Number(NumberKey::Profile),
    },
    ShortKey {
        word: 0,
        len: 0,
        slot: Slot::Blocks,
    },
    ShortKey {
        word: 0x7473_6400_0000_0000,
        len: 3,
        slot: Slot::Text(TextKey::Dst),
    },
    ShortKey {
        word: 0x6874_6170_0000_0000,
        len: 4,
        slot: Slot::Text(TextKey::Path),
    },
];
