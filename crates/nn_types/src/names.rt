//! The names of a path, cut from its text as they are walked.
ghost use Rattle.std.specs.Prelude.{◌≡◌, [], ◌∷◌, ◌==◌, ◌≤◌, length, IfSome, IfNone, true};
ghost use Rattle.std.specs.List.{list_all, prefix_len};
ghost use Rattle.nn_types.specs.Path.{is_name, is_name_byte, parts};

use nn_bytes::run_before_either;
use std::marker::Model;

/// Names from the root, or from a directory on the way, down. They are lent by the text of a path:
/// walking over them takes no memory.
#[derive(Debug, Drop)]
pub struct Names<'a> {
    // The names with a slash between each two.
    text: &'a str,
}

impl<'a> Model for Names<'a> {
    ghost use Rattle.std.specs.Prelude.{◌≡◌, List, ℕ, true};
    ghost use Rattle.std.specs.List.{list_all};
    ghost use Rattle.nn_types.specs.Path.{is_name, parts};

    ghost Value = { List (List ℕ) };

    ghost view = { λ n. parts n.text.now };

    ghost invariant = { λ n. list_all is_name (parts n.text.now) ≡ true };
}

impl<'a> Names<'a> {
    // The names of a text with a slash between each two.
    pub(crate) fn of(text: &'a str) -> Names<'a>
        requires { list_all is_name (parts text.now) ≡ true }
        ensures { result ≡ parts text.now }
    {
        Names { text }
    }

    /// Whether there is none.
    pub fn is_empty(&self) -> bool
        ensures { result ≡ (length self.now == 0) }
    {
        self.text.is_empty()
    }

    /// The first name, and those after it. Costs the length of that name.
    pub fn split_first(&self) -> Option<(&'a str, Names<'a>)>
        ensures some { IfSome result (λ cut. self.now ≡ cut.0.now ∷ cut.1) }
        ensures none { IfNone result (self.now ≡ []) }
    {
        if self.text.is_empty() {
            return None;
        }
        let text = self.text;
        let end = text_name_len(text);
        if end >= text.len() {
            return Some((text, Names { text: "" }));
        }
        Some((
            &text[..end],
            Names {
                text: &text[end + 1..],
            },
        ))
    }
}

/// How many bytes stand before the first slash or colon of a text, or in all of it where there is none.
#[inline(always)]
pub(crate) fn name_len(text: &[u8]) -> usize
    ensures value { result ≡ prefix_len is_name_byte text.now }
    ensures bound { result ≤ length text.now }
{
    run_before_either(text, b'/', b':')
}

// The same of a text.
#[inline(always)]
fn text_name_len(text: &str) -> usize
    ensures value { result ≡ prefix_len is_name_byte text.now }
    ensures bound { result ≤ length text.now }
{
    name_len(text.as_bytes())
}
