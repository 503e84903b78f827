//! How many digits 16 bytes begin with.
ghost use Rattle.std.specs.Prelude.{◌≡◌, ◌≤◌, length, map};
ghost use Rattle.std.specs.Char.{is_ascii_digit};
ghost use Rattle.std.specs.List.{prefix_len};
ghost use Rattle.std.specs.Simd.Lanes.{mask_l};
ghost use Rattle.nn_bytes.specs.Runs.{fails};

use crate::first_set;
use std::simd::prelude::*;

/// How many bytes of a block stand before the first that is no digit, and 16 where all are digits.
#[inline(always)]
pub fn digit_run(block: u8x16) -> usize
    requires { length block ≡ 16 }
    ensures run { result ≡ prefix_len is_ascii_digit block }
    ensures bound { result ≤ 16 }
{
    first_set(others(block))
}

// The bytes of a block that are no digits, a bit for each.
#[inline(always)]
fn others(block: u8x16) -> u64
    requires { length block ≡ 16 }
    ensures { result ≡ mask_l (map (fails is_ascii_digit) block) }
{
    (block - u8x16::splat(b'0'))
        .simd_ge(u8x16::splat(10))
        .to_bitmask()
}
