//! The bytes of a line as a text, where none of them is escaped. How far there are neither control characters nor backslashes is
//! looked for in 16 bytes at a time.
ghost use Rattle.std.specs.Prelude.{◌≡◌, ◌≤◌, ◌<◌, length, map, take, true, IfSome, None};
ghost use Rattle.std.specs.List.{prefix_len};
ghost use Rattle.std.specs.Simd.Lanes.{mask_l};
ghost use Rattle.std.specs.Str.{IsUtf8};
ghost use Rattle.nn_bytes.specs.Runs.{IsPrintableTo, is_printable, is_unescaped, is_unescaped_byte, fails};
ghost use Rattle.nn_bytes.specs.Texts.{IsKnownOf};

use crate::printable::printable_run;
use crate::{block_at, first_set};
use percent_encoding::ascii_str;
use simdutf8::basic::from_utf8;
use std::simd::prelude::*;

/// What is known of a line's bytes as a text.
#[derive(Clone, Copy, Debug, Drop)]
pub enum LineText<'a> {
    /// They are this text, and none but the last is a control character or a backslash.
    Unescaped(&'a str),
    /// They are no UTF-8.
    NotUtf8,
    /// Whether they are UTF-8 was not asked: one but the last is a control character or a backslash.
    NotAsked,
}

/// Looks whether the bytes of a line are a text without escapes. The first bytes, so many as `printable` says, are known to be
/// printable ASCII: they are not looked at.
///
/// Whether they are UTF-8 is asked only where some are not printable ASCII. A carriage return may be the last one without it.
#[inline(always)]
pub fn known_text(line: &[u8], printable: usize) -> LineText<'_>
    requires { IsPrintableTo printable line.now }
    ensures { IsKnownOf line.now result }
{
    if printable == line.len() {
        return LineText::Unescaped(ascii_str(line));
    }
    let run = printable + printable_run(&line[printable..]);
    if run == line.len() {
        return LineText::Unescaped(ascii_str(line));
    }
    other_text(line, run)
}

/// The bytes of a line as a text, if they are UTF-8. That is asked only where it is not known yet.
pub fn text_of<'a>(line: &'a [u8], known: LineText<'a>) -> Option<&'a str>
    requires { IsKnownOf line.now known }
    ensures some { IfSome result (λ text. (text.now ≡ line.now) × IsUtf8 line.now) }
    ensures none { result ≡ None → ¬ (IsUtf8 line.now) }
{
    match known {
        LineText::Unescaped(text) => Some(text),
        LineText::NotUtf8 => None,
        LineText::NotAsked => from_utf8(line).ok(),
    }
}

// What is known of a line whose first bytes are printable, up to one that is not.
#[inline(never)]
fn other_text(line: &[u8], run: usize) -> LineText<'_>
    requires bound { run < length line.now }
    requires printable { is_printable (take run line.now) ≡ true }
    ensures { IsKnownOf line.now result }
{
    let last = line.len() - 1;
    if run == last && line[last] == b'\r' {
        return LineText::Unescaped(ascii_str(line));
    }
    if !is_unescaped(&line[run..last]) {
        return LineText::NotAsked;
    }
    let Ok(text) = from_utf8(line) else {
        return LineText::NotUtf8;
    };
    LineText::Unescaped(text)
}

// Whether no byte is a control character or a backslash. So quotes aside, JSON writes the bytes as they are.
//
// The last block overlaps with the one before it; only a text of less than 16 bytes is looked at byte by byte.
fn is_unescaped(text: &[u8]) -> bool
    ensures { result ≡ is_unescaped text.now }
{
    unescaped_run(text) == text.len()
}

// How many bytes stand before the first control character or backslash, or in all where there is none.
fn unescaped_run(text: &[u8]) -> usize
    ensures run { result ≡ prefix_len is_unescaped_byte text.now }
    ensures bound { result ≤ length text.now }
{
    let mut i = 0;
    'blocks: while text.len() - i >= 16 {
        let run = unescaped_in_block(block_at(text, i));
        if run < 16 {
            return i + run;
        }
        i += 16;
    }
    if text.len() >= 16 {
        let last = text.len() - 16;
        return last + unescaped_in_block(block_at(text, last));
    }
    'rest: while i < text.len() && is_unescaped_byte(text[i]) {
        i += 1;
    }
    i
}

// How many bytes of a block stand before the first that has an escape.
#[inline(always)]
fn unescaped_in_block(block: u8x16) -> usize
    requires { length block ≡ 16 }
    ensures run { result ≡ prefix_len is_unescaped_byte block }
    ensures bound { result ≤ 16 }
{
    first_set(escapes(block))
}

// The bytes of a block that are control characters or backslashes, a bit for each.
#[inline(always)]
fn escapes(block: u8x16) -> u64
    requires { length block ≡ 16 }
    ensures { result ≡ mask_l (map (fails is_unescaped_byte) block) }
{
    let control = (block - u8x16::splat(b' ')).simd_ge(u8x16::splat(224));
    let backslash = block.simd_eq(u8x16::splat(b'\\'));
    (control | backslash).to_bitmask()
}

#[inline(always)]
fn is_unescaped_byte(b: u8) -> bool
    ensures { result ≡ is_unescaped_byte b }
{
    (b >= b' ') & (b != b'\\')
}
