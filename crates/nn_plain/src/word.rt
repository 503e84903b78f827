//! Keys as numbers: a key of at most eight bytes is found by one comparison.
ghost use Rattle.std.specs.Prelude.{◌≡◌, ◌+◌, ◌≤◌, ℕ, List, length, take, drop};
ghost use Rattle.nn_plain.specs.Words.{Begins, high_word};

use crate::by_eight::first_word;
use nn_bytes::block_at;

/// The word that a key of at most eight bytes begins, its first byte the least; zeros stand behind it.
pub fn word_of(key: &[u8]) -> u64
    ensures { length key.now ≤ 8 → Begins result key.now }
{
    let mut word = 0;
    let mut i = key.len().min(8);
    while i > 0 {
        i -= 1;
        word = word * 256 + key[i] as u64;
    }
    word
}

/// The key that a word begins with, moved up to the word's end: no byte behind the key is left.
#[inline(always)]
pub fn high_word(word: u64, len: usize) -> u64
    requires { (1 ≤ len) × (len ≤ 8) }
    ensures { (key : List ℕ) → length key ≡ len → Begins word key → result ≡ high_word key }
{
    word << (64 - 8 * len)
}

/// A word that the key at `from` begins. The bytes behind the key are the text's, where 16 are left.
#[inline(always)]
pub(crate) fn word_at(text: &[u8], from: usize, key: &str) -> u64
    requires bound { from ≤ length text.now }
    requires here { take (length key.now) (drop from text.now) ≡ key.now }
    ensures { length key.now ≤ 8 → Begins result key.now }
{
    if text.len() - from < 16 {
        return word_of(key.as_bytes());
    }
    word_of_block(text, from)
}

/// A word that begins with each key of at most eight bytes that stands at `from`. 16 bytes are left there.
#[inline(always)]
pub(crate) fn word_of_block(text: &[u8], from: usize) -> u64
    requires { from + 16 ≤ length text.now }
    ensures { (key : List ℕ) → take (length key) (drop from text.now) ≡ key → length key ≤ 8 → Begins result key }
{
    first_word(block_at(text, from))
}
