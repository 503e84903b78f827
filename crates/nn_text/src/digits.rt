//! Numbers in decimal, written where they are to stand.
ghost use Rattle.std.specs.Prelude.{◌≡◌, ◌+◌, ◌<◌, ◌≤◌, ◌++◌, length, take, decimal};

use itoa::write_digits;
use nn_device::ShortPiece;

/// A number in decimal.
#[derive(Clone, Copy, Debug)]
pub(crate) struct Number(pub u64);

impl ShortPiece for Number {
    ghost text = { λ n. decimal n.0 };

    #[inline(always)]
    fn fill(self, room: &mut [u8], used: usize) -> usize {
        fill_number(room, used, self.0)
    }
}

/// Writes a number in decimal into a room, behind what is used of it. Returns how much is used then.
pub fn fill_number(room: &mut [u8], used: usize, number: u64) -> usize
    requires { used + 20 ≤ length room.old }
    ensures len { length room.new ≡ length room.old }
    ensures bound { result ≤ used + 20 }
    ensures filled { take result room.new ≡ take used room.old ++ decimal number }
{
    let end = used + digit_count(number);
    let _used = write_digits(number, room, end);
    end
}

// How many digits a number has.
#[inline(always)]
fn digit_count(number: u64) -> usize
    ensures count { result ≡ length (decimal number) }
    ensures bound { result ≤ 20 }
{
    let mut count = 0;
    let mut rest = number;
    'fours: while rest >= 10_000 {
        rest /= 10_000;
        count += 4;
    }
    count + short_count(rest)
}

// The same of at most four digits.
#[inline(always)]
fn short_count(number: u64) -> usize
    requires { number < 10000 }
    ensures count { result ≡ length (decimal number) }
{
    if number < 100 {
        return if number < 10 { 1 } else { 2 };
    }
    if number < 1_000 { 3 } else { 4 }
}
