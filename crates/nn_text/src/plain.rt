//! Names and paths that JSON writes as they are.
ghost use Rattle.std.specs.Prelude.{◌≡◌, ◌≤◌, ◌+◌, ◌-◌, length, map, take, drop, true};
ghost use Rattle.std.specs.Simd.Lanes.{mask_l};
ghost use Rattle.nn_bytes.specs.Runs.{fails};
ghost use Rattle.nn_text.specs.Plain.{is_plain_byte, is_plain};

use nn_bytes::block_at;
use std::simd::prelude::*;

/// Whether JSON writes a name as it is.
pub(crate) fn is_plain(name: &str) -> bool
    ensures { result ≡ is_plain name.now }
{
    let mut plain = true;
    // A loop that looks at all bytes takes many at a time. One that ends early takes one after another.
    for b in name.as_bytes() {
        plain = plain & is_plain_byte(*b);
    }
    plain
}

fn is_plain_byte(b: u8) -> bool
    ensures { result ≡ is_plain_byte b }
{
    (b >= b' ') & (b != b'"') & (b != b'\\')
}

/// Whether JSON writes the bytes of a room between two places as they are. They are looked at in blocks of 16, the last of which
/// may go past the end: what stands there counts too.
#[inline(always)]
pub(crate) fn is_plain_between(room: &[u8], start: usize, end: usize) -> bool
    requires order { start ≤ end }
    requires room { end + 16 ≤ length room.now }
    ensures { result ≡ true → is_plain (take (end - start) (drop start room.now)) ≡ true }
{
    let mut at = start;
    'blocks: while at < end {
        if specials(block_at(room, at)) != 0 {
            return false;
        }
        at += 16;
    }
    true
}

// The bytes of a block that are not plain, a bit for each.
#[inline(always)]
fn specials(block: u8x16) -> u64
    requires { length block ≡ 16 }
    ensures { result ≡ mask_l (map (fails is_plain_byte) block) }
{
    let control = (block - u8x16::splat(b' ')).simd_ge(u8x16::splat(224));
    let quote = block.simd_eq(u8x16::splat(b'"'));
    let backslash = block.simd_eq(u8x16::splat(b'\\'));
    (control | quote | backslash).to_bitmask()
}
