//! The tokens of a plain line, found as they are read.
ghost use Rattle.std.specs.Prelude.{◌≡◌, ◌⊎◌, ◌+◌, ◌∷◌, ◌++◌, ◌<◌, ◌≤◌, length, drop, get_or, Some, option_map, if◌then◌else◌, IfSome, IsTrue, true, [], List, ℕ};
ghost use Rattle.serde_json.specs.Data.{unsigned};
ghost use Rattle.serde_json.specs.Read.{number_of};
ghost use Rattle.json.specs.Json.{read_key};
ghost use Rattle.json.specs.Token.{string, number, boolean, begin_object, begin_array, end_array};
ghost use Rattle.json.specs.Lex.{tokens};
ghost use Rattle.nn_plain.specs.Bytes.{AtStop, NextBegins, EndsValue, Skips};
ghost use Rattle.nn_bytes.specs.Runs.{is_unescaped_line};
ghost use Rattle.nn_plain.specs.Words.{Begins};
ghost use Rattle.json.specs.Print.{escape};

use crate::number::number_at;
use crate::text::{quoted_at, short_quoted_at};
use crate::truth::truth_at;
use crate::word::{word_at, word_of_block};
use std::marker::Model;

/// The rest of a line. A contract sees the tokens that are still to come.
///
/// A call that answers None or false says nothing of the line, and leaves the rest as it was.
#[derive(Drop)]
pub(crate) struct Tokens<'a> {
    text: &'a str,
    at: usize,
    // Whether a key or a value comes next. If not, a value has just ended.
    fresh: bool,
}

/// A key, and a word that it begins, if it has no more than eight bytes.
#[derive(Clone, Copy, Drop)]
pub(crate) struct Key<'a> {
    pub(crate) text: &'a str,
    pub(crate) word: u64,
}

impl<'a> Model for Tokens<'a> {
    ghost use Rattle.std.specs.Prelude.{◌≡◌, List, ◌≤◌, length, drop, true};
    ghost use Rattle.json.specs.Token.{Token, tokens_code};
    ghost use Rattle.nn_bytes.specs.Runs.{is_unescaped_line};
    ghost use Rattle.nn_plain.specs.Bytes.{tokens_left};

    ghost Value = { List Token };

    ghost coded = { tokens_code };

    ghost view = { λ r. tokens_left r.fresh (drop r.at r.text.now) };

    ghost invariant = { λ r. (r.at ≤ length r.text.now) × (is_unescaped_line r.text.now ≡ true) };
}

impl<'a> Tokens<'a> {
    /// The tokens of a line, after the brace that opens its object.
    #[inline(always)]
    pub(crate) fn of_object(text: &'a str) -> Option<Tokens<'a>>
        requires { is_unescaped_line text.now ≡ true }
        ensures { IfSome result (λ t. tokens text.now ≡ begin_object ∷ t) }
    {
        if byte_at(text, 0) != b'{' {
            return None;
        }
        Some(Tokens {
            text,
            at: after_blanks(text, 1),
            fresh: true,
        })
    }

    /// The next key, and in it None at the brace that closes the object.
    ///
    /// `S` is whom it is read for. Each has a copy of the code, so that the compiler can put it into its one caller.
    #[inline(always)]
    pub(crate) fn next_key<S>(&mut self) -> Option<Option<Key<'a>>>
        ensures read { IfSome result (λ k. read_key self.old ≡ Some (option_map (λ s. s.text.now) k, self.new)) }
        ensures word { IfSome result (λ k. IfSome k (λ s. length s.text.now ≤ 8 → Begins s.word s.text.now)) }
    {
        let text = self.text;
        let at = self.at;
        if let Some((key, colon)) = near_key(text, at, self.fresh) {
            self.at = after_blanks(text, colon + 1);
            self.fresh = true;
            return Some(Some(key));
        }
        if byte_at(text, at) == b'}' {
            self.at = after_blanks(text, at + 1);
            self.fresh = false;
            return Some(None);
        }
        let start = start_at(text, at, self.fresh)?;
        let (key, end) = quoted_at(text, start)?;
        let colon = colon_at(text, end)?;
        let word = word_at(text.as_bytes(), start + 1, key);
        self.at = after_blanks(text, colon + 1);
        self.fresh = true;
        Some(Some(Key { text: key, word }))
    }

    /// The same rest once more. A caller whose tokens are handed to no call keeps them in registers, so it hands this on and then
    /// goes on behind it.
    #[inline(always)]
    pub(crate) fn again(&self) -> Tokens<'a>
        ensures { result ≡ self.now }
    {
        Tokens {
            text: self.text,
            at: self.at,
            fresh: self.fresh,
        }
    }

    /// The byte that comes next, and 0 at the end.
    #[inline(always)]
    pub(crate) fn next_byte(&self) -> u8 {
        byte_at(self.text, self.at)
    }

    /// The text that comes next.
    #[inline(always)]
    pub(crate) fn text<S>(&mut self) -> Option<&'a str>
        ensures { IfSome result (λ s. self.old ≡ string s.now ∷ self.new) }
    {
        if !self.fresh {
            return None;
        }
        let text = self.text;
        let (value, end) = quoted_at(text, self.at)?;
        let next = value_end(text, end)?;
        self.at = next;
        self.fresh = false;
        Some(value)
    }

    /// The number of digits alone that comes next.
    #[inline(always)]
    pub(crate) fn whole<S>(&mut self) -> Option<u64>
        ensures { IfSome result (λ n. (s : List ℕ) × (self.old ≡ number s ∷ self.new) × (number_of s ≡ Some (unsigned n))) }
    {
        if !self.fresh {
            return None;
        }
        let text = self.text;
        let (n, end) = number_at::<S>(text, self.at)?;
        let next = value_end(text, end)?;
        self.at = next;
        self.fresh = false;
        Some(n)
    }

    /// The truth value that comes next.
    #[inline(always)]
    pub(crate) fn truth<S>(&mut self) -> Option<bool>
        ensures { IfSome result (λ b. self.old ≡ boolean b ∷ self.new) }
    {
        if !self.fresh {
            return None;
        }
        let text = self.text;
        let (truth, end) = truth_at(text, self.at)?;
        let next = value_end(text, end)?;
        self.at = next;
        self.fresh = false;
        Some(truth)
    }

    /// Passes over the bracket that opens an array.
    #[inline(always)]
    pub(crate) fn begin_array(&mut self) -> bool
        ensures { IsTrue result → self.old ≡ begin_array ∷ self.new }
    {
        let text = self.text;
        let at = self.at;
        if !self.fresh || byte_at(text, at) != b'[' {
            return false;
        }
        self.at = after_blanks(text, at + 1);
        true
    }

    /// Passes over the brace that opens the next object of an array, or over the bracket that closes the array. The answer
    /// is whether there was an object.
    #[inline(always)]
    pub(crate) fn next_object(&mut self) -> Option<bool>
        ensures { IfSome result (λ more. self.old ≡ (if more then begin_object else end_array) ∷ self.new) }
    {
        let text = self.text;
        let at = self.at;
        if byte_at(text, at) == b']' {
            self.at = after_blanks(text, at + 1);
            self.fresh = false;
            return Some(false);
        }
        let start = start_at(text, at, self.fresh)?;
        if byte_at(text, start) != b'{' {
            return None;
        }
        self.at = after_blanks(text, start + 1);
        self.fresh = true;
        Some(true)
    }

    /// Whether nothing comes any more, but for a carriage return at the line's end.
    #[inline(always)]
    pub(crate) fn is_over(&self) -> bool
        ensures { IsTrue result → self.now ≡ [] }
    {
        let text = self.text;
        let at = self.at;
        if at == text.len() {
            return true;
        }
        text.len() - at == 1 && byte_at(text, at) == b'\r'
    }
}

// The byte at a place, and 0 after the end.
#[inline(always)]
fn byte_at(text: &str, i: usize) -> u8
    ensures value { result ≡ get_or text.now i 0 }
{
    let bytes = text.as_bytes();
    if i < bytes.len() { bytes[i] } else { 0 }
}

// The key that comes next, and where its colon stands: a key of at most eight bytes, with the colon at once and at most one blank
// before it, as nearly all are. It is found in one block. None says nothing.
#[inline(always)]
fn near_key(text: &str, at: usize, first: bool) -> Option<(Key<'_>, usize)>
    requires bound { at ≤ length text.now }
    requires unescaped { is_unescaped_line text.now ≡ true }
    ensures here { IfSome result (λ r. (start : ℕ) × NextBegins first text.now at start
        × (drop start text.now ≡ 34 ∷ (r.0.text.now ++ 34 ∷ drop r.1 text.now))) }
    ensures plain { IfSome result (λ r. escape r.0.text.now ≡ r.0.text.now) }
    ensures colon { IfSome result (λ r. get_or text.now r.1 0 ≡ 58) }
    ensures word { IfSome result (λ r. Begins r.0.word r.0.text.now) }
    ensures bound { IfSome result (λ r. r.1 < length text.now) }
{
    if text.len() - at < 19 {
        return None;
    }
    let start = near_start(text, at, first)?;
    let (key, colon) = short_quoted_at(text, start)?;
    let bytes = text.as_bytes();
    if key.len() > 8 || bytes[colon] != b':' {
        return None;
    }
    let word = word_of_block(bytes, start + 1);
    Some((Key { text: key, word }, colon))
}

// Where the next key begins, if at most one blank stands before it.
#[inline(always)]
fn near_start(text: &str, at: usize, first: bool) -> Option<usize>
    requires { at + 19 ≤ length text.now }
    ensures begins { IfSome result (NextBegins first text.now at) }
    ensures bound { IfSome result (λ start. start + 17 ≤ length text.now) }
{
    if first {
        return Some(at);
    }
    let bytes = text.as_bytes();
    if bytes[at] != b',' {
        return None;
    }
    if bytes[at + 1] == b' ' {
        return Some(at + 2);
    }
    Some(at + 1)
}

// Where the next key or item begins. A comma comes before each but the first.
#[inline(always)]
fn start_at(text: &str, at: usize, first: bool) -> Option<usize>
    requires { at ≤ length text.now }
    ensures begins { IfSome result (NextBegins first text.now at) }
    ensures bound { IfSome result (λ start. start ≤ length text.now) }
{
    if first {
        return Some(at);
    }
    if byte_at(text, at) != b',' {
        return None;
    }
    Some(after_blanks(text, at + 1))
}

// Where the colon stands after a key. Nearly always it stands at once.
#[inline(always)]
fn colon_at(text: &str, end: usize) -> Option<usize>
    requires { end ≤ length text.now }
    ensures skips { IfSome result (λ colon. Skips text.now end colon) }
    ensures there { IfSome result (λ colon. get_or text.now colon 0 ≡ 58) }
    ensures bound { IfSome result (λ colon. colon < length text.now) }
{
    if byte_at(text, end) == b':' {
        return Some(end);
    }
    let colon = after_blanks(text, end);
    if byte_at(text, colon) != b':' {
        return None;
    }
    Some(colon)
}

// Where the next token stands after a value. A comma or a bracket that closes has to stand there.
#[inline(always)]
fn value_end(text: &str, end: usize) -> Option<usize>
    requires { end ≤ length text.now }
    ensures ends { IfSome result (EndsValue text.now end) }
    ensures bound { IfSome result (λ next. next ≤ length text.now) }
{
    if stops_at(text, end) {
        return Some(end);
    }
    let next = after_blanks(text, end);
    if !stops_at(text, next) {
        return None;
    }
    Some(next)
}

// The first place from `from` on where no blank stands.
#[inline(always)]
fn after_blanks(text: &str, from: usize) -> usize
    requires { from ≤ length text.now }
    ensures skips { Skips text.now from result }
    ensures first { (result ≡ from) ⊎ (get_or text.now from 0 ≡ 32) }
    ensures bound { result ≤ length text.now }
{
    if byte_at(text, from) != b' ' {
        return from;
    }
    if byte_at(text, from + 1) != b' ' {
        return from + 1;
    }
    blanks_end(text, from + 1)
}

// The same, of its own: nearly all lines have one blank at most, and no loop stands in their way.
#[inline(never)]
fn blanks_end(text: &str, from: usize) -> usize
    requires { from ≤ length text.now }
    ensures skips { Skips text.now from result }
    ensures bound { result ≤ length text.now }
{
    let mut i = from;
    while byte_at(text, i) == b' ' {
        i += 1;
    }
    i
}

// Whether a comma or a bracket that closes stands there.
#[inline(always)]
fn stops_at(text: &str, i: usize) -> bool
    ensures { IsTrue result → AtStop (drop i text.now) }
{
    let c = byte_at(text, i);
    c == b',' || c == b'}' || c == b']'
}
