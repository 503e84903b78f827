//! Texts of paths in the common form, told by 16 bytes at a time.
ghost use Rattle.std.specs.Prelude.{◌≡◌, ◌+◌, ◌<◌, ◌≤◌, ℕ, length, drop, get_or, Some, true, false};
ghost use Rattle.std.specs.Simd.Lanes.{mask_l, zip2};
ghost use Rattle.nn_types.specs.Path.{names_of_text, path_of};
ghost use Rattle.nn_types.specs.Simple.{is_fault};

use nn_bytes::block_at;
use std::simd::prelude::*;

// The bytes that such a text has at least: a block, and the byte behind it.
const LEAST_LEN: usize = 17;
// And at most, so that no name has too many, and the names are not too many.
const MOST_LEN: usize = 256;

// Whether a text is a path of 17 to 256 bytes, of which no name begins with a dot. False says nothing of the text.
//
// Each byte is seen with the one behind it. The last block of them overlaps with the one before.
pub(crate) fn is_simple(text: &[u8]) -> bool
    ensures { result ≡ true → path_of text.now ≡ Some (names_of_text text.now) }
{
    let len = text.len();
    if len < LEAST_LEN || len > MOST_LEN || text[0] != b'/' {
        return false;
    }
    let mut i = 0;
    'blocks: while len - i > LEAST_LEN {
        if has_fault(text, i) {
            return false;
        }
        i += 16;
    }
    if has_fault(text, len - LEAST_LEN) {
        return false;
    }
    let last = text[len - 1];
    last != b'/' && last != b':'
}

// Whether one of the 16 bytes from `from` on is a fault, with the byte behind it.
#[inline(always)]
fn has_fault(text: &[u8], from: usize) -> bool
    requires { from + 17 ≤ length text.now }
    ensures { result ≡ false → (k : ℕ) → from ≤ k → k < from + 16 → is_fault (get_or text.now k 0) (get_or text.now (k + 1) 0) ≡ false }
{
    faults(block_at(text, from), block_at(text, from + 1)) != 0
}

// The bytes of a block that are faults with those behind them, a bit for each.
#[inline(always)]
fn faults(here: u8x16, behind: u8x16) -> u64
    requires here { length here ≡ 16 }
    requires behind { length behind ≡ 16 }
    ensures { result ≡ mask_l (zip2 is_fault here behind) }
{
    let no_name = behind.simd_eq(u8x16::splat(b'/')) | behind.simd_eq(u8x16::splat(b'.'));
    let colon = here.simd_eq(u8x16::splat(b':'));
    let slash = here.simd_eq(u8x16::splat(b'/'));
    (colon | (slash & no_name)).to_bitmask()
}
