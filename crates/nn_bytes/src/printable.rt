//! How far a text is printable, looked for in 16 bytes at a time.
ghost use Rattle.std.specs.Prelude.{◌≡◌, ◌≤◌, List, ℕ, length, map, take, true};
ghost use Rattle.std.specs.List.{prefix_len};
ghost use Rattle.std.specs.Simd.Lanes.{mask_l};
ghost use Rattle.std.specs.Str.{IsUtf8};
ghost use Rattle.nn_bytes.specs.Runs.{is_printable, is_printable_byte, fails};

use crate::{block_at, first_set};
use std::simd::prelude::*;

/// How many bytes stand before the first that is not printable ASCII or is a backslash, or in all where there is none.
///
/// A line feed is such a byte. The last block overlaps with the one before it; only a text of less than 16 bytes is looked at
/// byte by byte.
#[inline(always)]
pub fn printable_run(text: &[u8]) -> usize
    ensures run { result ≡ prefix_len is_printable_byte text.now }
    ensures bound { result ≤ length text.now }
{
    let mut i = 0;
    'blocks: while text.len() - i >= 16 {
        let run = printable_in_block(block_at(text, i));
        if run < 16 {
            return i + run;
        }
        i += 16;
    }
    if text.len() >= 16 {
        let last = text.len() - 16;
        return last + printable_in_block(block_at(text, last));
    }
    'rest: while i < text.len() && is_printable_byte(text[i]) {
        i += 1;
    }
    i
}

/// The bytes of a printable run pass, and they are UTF-8.
pub fn printable_is_utf8()
    ensures run { (text : List ℕ) → is_printable (take (prefix_len is_printable_byte text) text) ≡ true }
    ensures utf8 { (text : List ℕ) → is_printable text ≡ true → IsUtf8 text }
{}

// How many bytes of a block stand before the first that is not printable.
#[inline(always)]
fn printable_in_block(block: u8x16) -> usize
    requires { length block ≡ 16 }
    ensures run { result ≡ prefix_len is_printable_byte block }
    ensures bound { result ≤ 16 }
{
    first_set(specials(block))
}

// The bytes of a block that are not printable, a bit for each.
#[inline(always)]
fn specials(block: u8x16) -> u64
    requires { length block ≡ 16 }
    ensures { result ≡ mask_l (map (fails is_printable_byte) block) }
{
    let unprintable = (block - u8x16::splat(b' ')).simd_ge(u8x16::splat(95));
    let backslash = block.simd_eq(u8x16::splat(b'\\'));
    (unprintable | backslash).to_bitmask()
}

#[inline(always)]
fn is_printable_byte(b: u8) -> bool
    ensures { result ≡ is_printable_byte b }
{
    (b >= b' ') & (b < 127) & (b != b'\\')
}
