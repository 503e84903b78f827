//! How far a text goes before a byte, or is printable, or has digits, looked for in 16 bytes at a time; a line as a text, where
//! nothing in it is escaped; and where a line ends, and whether it is blank.
#![tactic(auto)]

ghost use Rattle.std.specs.Prelude.{◌≡◌, ◌+◌, ◌<◌, ◌≤◌, ◌==◌, length, take, drop, map, cond, not};
ghost use Rattle.std.specs.Int.Count.{count_trailing_zeros};
ghost use Rattle.std.specs.List.{prefix_len};
ghost use Rattle.std.specs.Simd.Lanes.{mask_l};
ghost use Rattle.nn_bytes.specs.Runs.{is_other, is_neither};

mod digits;
mod lines;
mod printable;
mod unescaped;

pub use digits::digit_run;
pub use lines::{is_blank, known_line_end, line_end};
pub use printable::{printable_is_utf8, printable_run};
use std::simd::prelude::*;
pub use unescaped::{LineText, known_text, text_of};

/// How many bytes stand before the first `byte`, or in all where there is none.
///
/// The last 15 bytes of the text are looked at one by one.
#[inline(always)]
pub fn run_before(text: &[u8], byte: u8) -> usize
    ensures run { result ≡ prefix_len (is_other byte) text.now }
    ensures bound { result ≤ length text.now }
{
    run_before_either(text, byte, byte)
}

/// How many bytes stand before the first that is one of two, or in all where there is none.
///
/// The last 15 bytes of the text are looked at one by one.
#[inline(always)]
pub fn run_before_either(text: &[u8], a: u8, b: u8) -> usize
    ensures run { result ≡ prefix_len (is_neither a b) text.now }
    ensures bound { result ≤ length text.now }
{
    let mut i = 0;
    'blocks: while text.len() - i >= 16 {
        let run = run_in_block(block_at(text, i), a, b);
        if run < 16 {
            return i + run;
        }
        i += 16;
    }
    'rest: while i < text.len() && text[i] != a && text[i] != b {
        i += 1;
    }
    i
}

/// Where the first `byte` from `from` on stands. It is the length where there is none.
///
/// The last bytes are looked at in the block that ends with the text: only a text of less than 16 bytes is looked at byte by
/// byte.
#[inline(always)]
pub fn find_from(text: &[u8], from: usize, byte: u8) -> usize
    requires { from ≤ length text.now }
    ensures run { result ≡ from + prefix_len (is_other byte) (drop from text.now) }
    ensures bound { result ≤ length text.now }
{
    let mut i = from;
    'blocks: while text.len() - i >= 16 {
        let run = run_in_16(text, i, byte);
        if run < 16 {
            return i + run;
        }
        i += 16;
    }
    find_in_last(text, i, byte)
}

// The same of less than 16 bytes: those of the text's last block before them are shifted out.
#[inline(always)]
fn find_in_last(text: &[u8], from: usize, byte: u8) -> usize
    requires bound { from ≤ length text.now }
    requires short { length text.now < from + 16 }
    ensures run { result ≡ from + prefix_len (is_other byte) (drop from text.now) }
    ensures bound { result ≤ length text.now }
{
    if text.len() < 16 {
        return from + run_before(&text[from..], byte);
    }
    let last = text.len() - 16;
    let found = equal_bits(block_at(text, last), byte) >> (from - last);
    if found == 0 {
        return text.len();
    }
    from + found.trailing_zeros() as usize
}

// The bytes of a block that are this one, a bit for each.
#[inline(always)]
fn equal_bits(block: u8x16, byte: u8) -> u64
    requires { length block ≡ 16 }
    ensures { result ≡ mask_l (map (λ x. x == byte) block) }
{
    block.simd_eq(u8x16::splat(byte)).to_bitmask()
}

/// How many of the 16 bytes from `from` on stand before the first `byte`.
#[inline(always)]
pub fn run_in_16(text: &[u8], from: usize, byte: u8) -> usize
    requires { from + 16 ≤ length text.now }
    ensures run { result ≡ prefix_len (is_other byte) (take 16 (drop from text.now)) }
    ensures bound { result ≤ 16 }
{
    run_before_one(block_at(text, from), byte)
}

/// The 16 bytes from `from` on.
#[inline(always)]
pub fn block_at(text: &[u8], from: usize) -> u8x16
    requires { from + 16 ≤ length text.now }
    ensures { result ≡ take 16 (drop from text.now) }
{
    u8x16::from_slice(&text[from..])
}

// How many bytes of a block stand before the first that is one of two.
#[inline(always)]
fn run_in_block(block: u8x16, a: u8, b: u8) -> usize
    requires { length block ≡ 16 }
    ensures run { result ≡ prefix_len (is_neither a b) block }
    ensures bound { result ≤ 16 }
{
    let first = run_before_one(block, a);
    let second = run_before_one(block, b);
    if first < second { first } else { second }
}

#[inline(always)]
fn run_before_one(block: u8x16, byte: u8) -> usize
    requires { length block ≡ 16 }
    ensures run { result ≡ prefix_len (is_other byte) block }
    ensures bound { result ≤ 16 }
{
    first_set(block.simd_eq(u8x16::splat(byte)).to_bitmask())
}

// The place of the lowest bit that is set, and 16 where none is.
#[inline(always)]
fn first_set(found: u64) -> usize
    ensures { result ≡ cond (found == 0) 16 (count_trailing_zeros 64 found) }
{
    if found == 0 {
        return 16;
    }
    found.trailing_zeros() as usize
}
