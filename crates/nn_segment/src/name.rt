//! Names of segments, such as `edits_0000000000000000001-0000000000000000004`.
ghost use Rattle.std.specs.Prelude.{◌≡◌, ◌≢◌, ◌≤◌, ◌<◌, ◌^◌, ℕ, List, Some, length, IfOk, IfSome, IfNone, SomeIff, string_bytes};
ghost use Rattle.nn_segment.specs.Name.{digits, segment_file_name, txids_of, IsNameOf};

use nn_types::Txid;
use std::alloc::{AllocError, Global};

/// The bytes of a name.
const NAME_LEN: usize = 45;

/// The name of the segment from one transaction to another.
pub fn segment_name(alloc: Global, first: Txid, last: Txid) -> Result<String, AllocError>
    requires from_one { 1 ≤ first }
    requires in_order { first ≤ last }
    ensures ok { IfOk result (λ name. string_bytes name ≡ segment_file_name first last) }
    ensures named { IfOk result (λ name. txids_of (string_bytes name) ≡ Some (first, last)) }
{
    format!(in alloc; "edits_{:019}-{:019}", first.get(), last.get())
}

/// The first and the last transaction of a name, if it is one. Takes no memory.
pub fn parse_name(text: &str) -> Option<(Txid, Txid)>
    // What is found is what the text names.
    ensures found { IfSome result (λ p. IsNameOf text.now p.0 p.1) }
    // What the text names is found.
    ensures only { (first last : ℕ) → IsNameOf text.now first last → result ≡ Some (first, last) }
    ensures exact { result ≡ txids_of text.now }
{
    let Some((first, last)) = numbers_in(text.as_bytes()) else {
        return None;
    };
    txids_between(first, last)
}

/// A segment's name is read as the two transactions that it was made of, and no other text is.
pub fn one_name()
    ensures reads { (first last : ℕ) → 1 ≤ first → first ≤ last → last < 2 ^ 63
        → txids_of (segment_file_name first last) ≡ Some (first, last) }
    ensures alone { (text : List ℕ) (first last : ℕ) → txids_of text ≡ Some (first, last)
        → text ≡ segment_file_name first last }
{}

// The two numbers of a text that has the form of a name.
fn numbers_in(text: &[u8]) -> Option<(u64, u64)>
    ensures some { IfSome result (λ p. (p.0 < 10 ^ 19) × (p.1 < 10 ^ 19) × (text.now ≡ segment_file_name p.0 p.1)) }
    ensures none { IfNone result ((first last : ℕ) → text.now ≢ segment_file_name first last) }
{
    if text.len() != NAME_LEN {
        return None;
    }
    if !text.starts_with(b"edits_") {
        return None;
    }
    if text[25] != b'-' {
        return None;
    }
    let Some(first) = number_in(&text[6..25]) else {
        return None;
    };
    let Some(last) = number_in(&text[26..]) else {
        return None;
    };
    Some((first, last))
}

// Both numbers, if a segment can reach from one to the other.
fn txids_between(first: u64, last: u64) -> Option<(Txid, Txid)>
    ensures { SomeIff result ((1 ≤ first) × (first ≤ last) × (last < 2 ^ 63)) (first, last) }
{
    if first == 0 || last < first {
        return None;
    }
    Some((Txid::new(first)?, Txid::new(last)?))
}

// The number that 19 digits spell.
fn number_in(text: &[u8]) -> Option<u64>
    requires { length text.now ≡ 19 }
    ensures some { IfSome result (λ n. (n < 10 ^ 19) × (digits 19 n ≡ text.now)) }
    ensures none { IfNone result ((n : ℕ) → digits 19 n ≢ text.now) }
{
    let mut number = 0u64;
    for b in text {
        if *b < b'0' || *b > b'9' {
            return None;
        }
        number = number * 10 + u64::from(*b - b'0');
    }
    Some(number)
}
