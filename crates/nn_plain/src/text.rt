//! The texts in quotes of a plain line.
ghost use Rattle.std.specs.Prelude.{◌≡◌, ◌+◌, ◌-◌, ◌<◌, ◌≤◌, ◌∷◌, ◌++◌, length, drop, get_or, true, IfSome};
ghost use Rattle.std.specs.List.{prefix_len};
ghost use Rattle.json.specs.Print.{escape};
ghost use Rattle.nn_bytes.specs.Runs.{is_unescaped_line};
ghost use Rattle.nn_plain.specs.Bytes.{is_no_quote};

use nn_bytes::{find_from, run_in_16};

/// The text in quotes whose first quote stands at `from`, and where its last one ends.
#[inline(always)]
pub(crate) fn quoted_at(text: &str, from: usize) -> Option<(&str, usize)>
    requires bound { from ≤ length text.now }
    requires unescaped { is_unescaped_line text.now ≡ true }
    ensures here { IfSome result (λ r. drop from text.now ≡ 34 ∷ (r.0.now ++ 34 ∷ drop r.1 text.now)) }
    ensures plain { IfSome result (λ r. escape r.0.now ≡ r.0.now) }
    ensures bound { IfSome result (λ r. (from < r.1) × (r.1 ≤ length text.now)) }
{
    let stop = closing_quote(text.as_bytes(), from)?;
    Some((between(text, from, stop), stop + 1))
}

/// The same for a text of at most 15 bytes, of which the line has 17 left. None says nothing.
#[inline(always)]
pub(crate) fn short_quoted_at(text: &str, from: usize) -> Option<(&str, usize)>
    requires bound { from + 17 ≤ length text.now }
    requires unescaped { is_unescaped_line text.now ≡ true }
    ensures here { IfSome result (λ r. drop from text.now ≡ 34 ∷ (r.0.now ++ 34 ∷ drop r.1 text.now)) }
    ensures plain { IfSome result (λ r. escape r.0.now ≡ r.0.now) }
    ensures bound { IfSome result (λ r. (from < r.1) × (r.1 ≤ length text.now)) }
{
    let stop = near_quote(text.as_bytes(), from)?;
    Some((between(text, from, stop), stop + 1))
}

// The text between two quotes.
#[inline(always)]
fn between(text: &str, from: usize, stop: usize) -> &str
    requires unescaped { is_unescaped_line text.now ≡ true }
    requires quotes { (get_or text.now from 0 ≡ 34) × (get_or text.now stop 0 ≡ 34) }
    requires bound { (from < stop) × (stop < length text.now) }
    requires run { stop ≡ from + 1 + prefix_len is_no_quote (drop (from + 1) text.now) }
    ensures here { drop from text.now ≡ 34 ∷ (result.now ++ 34 ∷ drop (stop + 1) text.now) }
    ensures plain { escape result.now ≡ result.now }
{
    &text[from + 1..stop]
}

// Where the quote stands that closes the text whose first quote stands at `from`.
#[inline(always)]
fn closing_quote(text: &[u8], from: usize) -> Option<usize>
    requires { from ≤ length text.now }
    ensures quotes { IfSome result (λ stop. (get_or text.now from 0 ≡ 34) × (get_or text.now stop 0 ≡ 34)) }
    ensures bound { IfSome result (λ stop. (from < stop) × (stop < length text.now)) }
    ensures plain { IfSome result (λ stop. stop ≡ from + 1 + prefix_len is_no_quote (drop (from + 1) text.now)) }
{
    if from >= text.len() || text[from] != b'"' {
        return None;
    }
    let stop = quote_end(text, from + 1);
    if stop >= text.len() {
        return None;
    }
    Some(stop)
}

// The same, where that quote is one of the next 16 bytes.
#[inline(always)]
fn near_quote(text: &[u8], from: usize) -> Option<usize>
    requires { from + 17 ≤ length text.now }
    ensures quotes { IfSome result (λ stop. (get_or text.now from 0 ≡ 34) × (get_or text.now stop 0 ≡ 34)) }
    ensures bound { IfSome result (λ stop. (from < stop) × (stop < length text.now)) }
    ensures plain { IfSome result (λ stop. stop ≡ from + 1 + prefix_len is_no_quote (drop (from + 1) text.now)) }
{
    if text[from] != b'"' {
        return None;
    }
    let run = run_in_16(text, from + 1, b'"');
    if run == 16 {
        return None;
    }
    Some(from + 1 + run)
}

// Where the first quote from `from` on stands. It is the length of the text where there is none.
#[inline(always)]
fn quote_end(text: &[u8], from: usize) -> usize
    requires { from ≤ length text.now }
    ensures value { result ≡ from + prefix_len is_no_quote (drop from text.now) }
    ensures bound { result ≤ length text.now }
{
    find_from(text, from, b'"')
}
