//! Digits, read eight at a time.
ghost use Rattle.std.specs.Prelude.{◌≡◌, ◌≤◌, ◌<◌, ◌^◌, length, take, drop};
ghost use Rattle.std.specs.Char.{is_ascii_digit};
ghost use Rattle.std.specs.List.{prefix_len};
ghost use Rattle.std.specs.Simd.Lanes.{number_l, Each1};
ghost use Rattle.std.specs.Str.Parse.{digits_value};
ghost use Rattle.nn_plain.specs.Words.{value_of_pairs, Writes};

use nn_bytes::digit_run;
use std::simd::prelude::*;

/// How many digits a block begins with, and what they write. Where all 16 bytes are digits the number is no answer.
///
/// `S` is whom they are read for: each has a copy of the code.
#[inline(always)]
pub(crate) fn digits_in_block<S>(block: u8x16) -> (usize, u64)
    requires { length block ≡ 16 }
    ensures run { result.0 ≡ prefix_len is_ascii_digit block }
    ensures value { result.0 < 16 → result.1 ≡ digits_value 10 (take result.0 block) }
    ensures small { result.1 < 10 ^ 16 }
{
    let count = digit_run(block);
    if count == 0 || count == 16 {
        return (count, 0);
    }
    let first = first_word(block);
    if count <= 8 {
        return (count, word_value(first, count));
    }
    let front = word_value(first, 8);
    let back = word_value(second_word(block), count - 8);
    (count, front * power(count - 8) + back)
}

/// The first eight bytes of a block. The words come out of the block, so that no byte is loaded twice.
#[inline(always)]
pub(crate) fn first_word(block: u8x16) -> u64
    requires { Each1 (λ x. x < 256) block }
    ensures { result ≡ number_l 256 (take 8 block) }
{
    let words = u64x2::from_le_bytes(block).to_array();
    words[0]
}

#[inline(always)]
fn second_word(block: u8x16) -> u64
    requires { Each1 (λ x. x < 256) block }
    ensures { result ≡ number_l 256 (take 8 (drop 8 block)) }
{
    let words = u64x2::from_le_bytes(block).to_array();
    words[1]
}

// What the first digits of a word write. They are moved up to its end: zeros then stand before them.
#[inline(always)]
fn word_value(word: u64, count: usize) -> u64
    requires { (1 ≤ count) × (count ≤ 8) }
    ensures { Writes word count result }
{
    let digits = (word << (64 - 8 * count)) & 0x0f0f_0f0f_0f0f_0f0f;
    pairs_value(digits)
}

// What eight digits write: two by two, then four by four, then all. Each step works on all lanes of the word at once.
#[inline(always)]
fn pairs_value(digits: u64) -> u64
    requires { digits ≤ 0x0f0f_0f0f_0f0f_0f0f }
    ensures { result ≡ value_of_pairs digits }
{
    let pairs = (digits * 10 + digits / 256) & 0x00ff_00ff_00ff_00ff;
    let fours = (pairs * 100 + pairs / 0x1_0000) & 0x0000_ffff_0000_ffff;
    (fours * 10_000 + fours / 0x1_0000_0000) & 0xffff_ffff
}

#[inline(always)]
fn power(count: usize) -> u64
    requires { (1 ≤ count) × (count ≤ 8) }
    ensures { result ≡ 10 ^ count }
{
    match count {
        1 => 10,
        2 => 100,
        3 => 1_000,
        4 => 10_000,
        5 => 100_000,
        6 => 1_000_000,
        7 => 10_000_000,
        _ => 100_000_000,
    }
}
