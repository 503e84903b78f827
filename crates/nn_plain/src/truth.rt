//! The words `true` and `false` of a plain line.
ghost use Rattle.std.specs.Prelude.{◌≡◌, ◌+◌, ◌<◌, ◌≤◌, ◌++◌, length, drop, IfSome, IsTrue};
ghost use Rattle.nn_plain.specs.Bytes.{truth_text};

/// The truth value whose word begins at `from`, and where it ends.
#[inline(always)]
pub(crate) fn truth_at(text: &str, from: usize) -> Option<(bool, usize)>
    requires { from ≤ length text.now }
    ensures here { IfSome result (λ r. drop from text.now ≡ truth_text r.0 ++ drop r.1 text.now) }
    ensures bound { IfSome result (λ r. r.1 ≤ length text.now) }
{
    if begins_with(text, from, b"true") {
        return Some((true, from + 4));
    }
    if begins_with(text, from, b"false") {
        return Some((false, from + 5));
    }
    None
}

// Whether the word stands at a place.
#[inline(always)]
fn begins_with(text: &str, from: usize, word: &[u8]) -> bool
    requires { from ≤ length text.now }
    ensures here { IsTrue result → drop from text.now ≡ word.now ++ drop (from + length word.now) text.now }
    ensures bound { IsTrue result → from + length word.now ≤ length text.now }
{
    text.as_bytes()[from..].starts_with(word)
}
