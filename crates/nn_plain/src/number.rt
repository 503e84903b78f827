//! The numbers of a plain line, which are of digits alone.
ghost use Rattle.std.specs.Prelude.{◌≡◌, ◌⊎◌, ◌-◌, ◌<◌, ◌≤◌, ◌∷◌, [], length, take, drop, get_or, IfSome, IsTrue, Some};
ghost use Rattle.json.specs.Print.{IsNumber};
ghost use Rattle.serde_json.specs.Data.{unsigned};
ghost use Rattle.serde_json.specs.Read.{number_of};
ghost use Rattle.nn_plain.specs.Bytes.{DigitsRead};

use crate::by_eight::digits_in_block;
use nn_bytes::block_at;

/// The number that stands at `from`, and where it ends. `S` is whom it is read for: each has a copy of the code.
#[inline(always)]
pub(crate) fn number_at<S>(text: &str, from: usize) -> Option<(u64, usize)>
    requires { from ≤ length text.now }
    ensures number { IfSome result (λ r. IsNumber (take (r.1 - from) (drop from text.now))) }
    ensures value { IfSome result (λ r. number_of (take (r.1 - from) (drop from text.now)) ≡ Some (unsigned r.0)) }
    ensures bound { IfSome result (λ r. (from ≤ r.1) × (r.1 ≤ length text.now)) }
{
    digits_at::<S>(text.as_bytes(), from)
}

// The same of the text's bytes.
#[inline(always)]
fn digits_at<S>(text: &[u8], from: usize) -> Option<(u64, usize)>
    requires { from ≤ length text.now }
    ensures number { IfSome result (λ r. IsNumber (take (r.1 - from) (drop from text.now))) }
    ensures value { IfSome result (λ r. number_of (take (r.1 - from) (drop from text.now)) ≡ Some (unsigned r.0)) }
    ensures bound { IfSome result (λ r. (from ≤ r.1) × (r.1 ≤ length text.now)) }
{
    let (end, n) = digits_from::<S>(text, from);
    let digits = &text[from..end];
    if !begins_well(digits) {
        return None;
    }
    Some((n, end))
}

// Where the digits from `from` on end, and what they write. After 19 digits that count no further one is taken, so that the
// number stays below 2^64.
#[inline(always)]
fn digits_from<S>(text: &[u8], from: usize) -> (usize, u64)
    requires { from ≤ length text.now }
    ensures read { DigitsRead text.now from result.0 result.1 }
    ensures bound { (from ≤ result.0) × (result.0 ≤ length text.now) }
    ensures small { result.1 < 10_000_000_000_000_000_000 }
{
    if text.len() - from >= 16 {
        let (count, n) = digits_in_block::<S>(block_at(text, from));
        if count < 16 {
            return (from + count, n);
        }
    }
    digits_one_by_one(text, from)
}

// The same, a digit at a time: for numbers of 16 digits or more, and for the last bytes of a line.
#[inline(never)]
fn digits_one_by_one(text: &[u8], from: usize) -> (usize, u64)
    requires { from ≤ length text.now }
    ensures read { DigitsRead text.now from result.0 result.1 }
    ensures bound { (from ≤ result.0) × (result.0 ≤ length text.now) }
    ensures small { result.1 < 10_000_000_000_000_000_000 }
{
    let mut i = from;
    let mut n = 0u64;
    while i < text.len() && n < 1_000_000_000_000_000_000 && text[i] >= b'0' && text[i] <= b'9' {
        n = n * 10 + (text[i] - b'0') as u64;
        i += 1;
    }
    (i, n)
}

// Whether a number may begin so: with no zero, or with a zero that stands alone.
#[inline(always)]
fn begins_well(digits: &[u8]) -> bool
    ensures { IsTrue result → (48 < get_or digits.now 0 0) ⊎ (digits.now ≡ 48 ∷ []) }
{
    begins_above_zero(digits) || is_zero(digits)
}

#[inline(always)]
fn begins_above_zero(digits: &[u8]) -> bool
    ensures { IsTrue result → 48 < get_or digits.now 0 0 }
{
    !digits.is_empty() && digits[0] > b'0'
}

#[inline(always)]
fn is_zero(digits: &[u8]) -> bool
    ensures { IsTrue result → digits.now ≡ 48 ∷ [] }
{
    digits.len() == 1 && digits[0] == b'0'
}
