//! The name of a child.
ghost use Rattle.std.specs.Prelude.{◌≡◌, [], IfOk, slice_index_or, Some};
ghost use Rattle.nn_tree.specs.Name.{prefix_of, name_cmp};

use arrayvec::ArrayString;
use nn_sorted::Seek;
use std::alloc::{AllocError, Global};
use std::cmp::Ordering;
use std::marker::Model;

/// The name of a child. One of few bytes, as most are, lies in the entry of its directory, and takes no memory of its own.
#[derive(Drop)]
pub(crate) struct Name {
    text: Text,
}

#[derive(Drop)]
enum Text {
    Short(ArrayString<16>),
    Long(String),
}

impl Model for Name {
    ghost use Rattle.std.specs.Prelude.{List, ℕ};
    ghost use Rattle.nn_tree.specs.Name.{text_of};

    ghost Value = { List ℕ };

    ghost view = { λ n. text_of n.text };
}

impl Name {
    /// A copy of this text.
    pub(crate) fn of(alloc: Global, text: &str) -> Result<Name, AllocError>
        ensures { IfOk result (λ n. n ≡ text.now) }
    {
        let text = match ArrayString::from(text) {
            Ok(text) => Text::Short(text),
            Err(_) => Text::Long(String::from_str(alloc, text)?),
        };
        Ok(Name { text })
    }

    /// No text. Takes no memory.
    pub(crate) fn empty() -> Name
        ensures { result ≡ [] }
    {
        Name {
            text: Text::Short(ArrayString::new()),
        }
    }

    /// Its text.
    pub(crate) fn as_str(&self) -> &str
        ensures { result.now ≡ self.now }
    {
        match &self.text {
            Text::Short(text) => text.as_str(),
            Text::Long(text) => text.as_str(),
        }
    }
}

// The first eight bytes of a text as a number, the first one highest. A shorter text has zeros behind it.
#[inline(always)]
fn prefix_of(text: &str) -> u64
    ensures { result ≡ prefix_of text.now }
{
    let bytes = text.as_bytes();
    if let Some(prefix) = bytes.first_chunk() {
        return u64::from_be_bytes(*prefix);
    }
    short_prefix_of(bytes)
}

fn short_prefix_of(bytes: &[u8]) -> u64
    ensures { result ≡ prefix_of bytes.now }
{
    u64::from_be_bytes([
        byte(bytes, 0),
        byte(bytes, 1),
        byte(bytes, 2),
        byte(bytes, 3),
        byte(bytes, 4),
        byte(bytes, 5),
        byte(bytes, 6),
        byte(bytes, 7),
    ])
}

// A byte, and zero past the end.
#[inline(always)]
fn byte(bytes: &[u8], place: usize) -> u8
    ensures { result ≡ slice_index_or bytes.now place 0 }
{
    bytes.get(place).copied().unwrap_or(0)
}

// How two texts compare, of which these are the first bytes.
#[inline(always)]
fn compare(prefix: u64, text: &str, other_prefix: u64, other: &str) -> Ordering
    requires prefix { prefix ≡ prefix_of text.now }
    requires other { other_prefix ≡ prefix_of other.now }
    ensures { result ≡ name_cmp text.now other.now }
{
    if prefix < other_prefix {
        return Ordering::Less;
    }
    if prefix > other_prefix {
        return Ordering::Greater;
    }
    text.cmp(other)
}

impl PartialEq for Name {
    ghost use Rattle.std.proofs.Common.{rules};
    ghost use Rattle.std.specs.Cmp.Rules.{comparing};
    ghost use Rattle.std.specs.Cmp.Lexicographic.{pointwise};
    ghost use Rattle.std.specs.Bool.{nat_eq};

    ghost eq = { pointwise nat_eq };

    ghost laws = { Prim.search (comparing, rules) };

    fn eq(&self, other: &Name) -> bool {
        self.as_str() == other.as_str()
    }
}

impl Eq for Name {
    ghost use Rattle.std.specs.Cmp.Lexicographic.{nat_list_eq_equiv};

    ghost laws = { nat_list_eq_equiv };
}

impl PartialOrd for Name {
    ghost use Rattle.std.proofs.Common.{rules};
    ghost use Rattle.std.specs.Cmp.Rules.{comparing};

    ghost partial_cmp = { λ x y. Some (name_cmp x y) };

    ghost laws = { Prim.search (comparing, rules) };

    fn partial_cmp(&self, other: &Name) -> Option<Ordering> {
        Some(self.cmp(other))
    }
}

impl Ord for Name {
    ghost use Rattle.std.proofs.Common.{rules};
    ghost use Rattle.std.specs.Cmp.Rules.{comparing};

    ghost cmp = { name_cmp };

    ghost total = { Prim.search (comparing, rules) };

    ghost matches_partial_cmp = { Prim.search (comparing, rules) };

    ghost matches_eq = { Prim.search (comparing, rules) };

    fn cmp(&self, other: &Name) -> Ordering {
        Wanted::by(self.as_str()).against(other)
    }
}

/// A text that a name is looked for by.
#[derive(Drop)]
pub(crate) struct Wanted<'a> {
    prefix: u64,
    text: &'a str,
}

impl<'a> Model for Wanted<'a> {
    ghost use Rattle.std.specs.Prelude.{◌≡◌, ℕ, List};
    ghost use Rattle.nn_tree.specs.Name.{prefix_of};

    ghost Value = { List ℕ };

    ghost view = { λ w. w.text.now };

    ghost invariant = { λ w. w.prefix ≡ prefix_of w.text.now };
}

impl<'a> Wanted<'a> {
    /// The name of this text.
    pub(crate) fn by(text: &'a str) -> Wanted<'a>
        ensures { result ≡ text.entry.now }
    {
        Wanted {
            prefix: prefix_of(text),
            text,
        }
    }

    #[inline(always)]
    fn against(&self, name: &Name) -> Ordering
        ensures { result ≡ name_cmp self.now name.now }
    {
        let text = name.as_str();
        compare(self.prefix, self.text, prefix_of(text), text)
    }
}

impl<'a> Seek<Name> for &Wanted<'a> {
    ghost use Rattle.std.specs.BTreeMap.Comparable.{le_lt_trans};
    ghost use Rattle.std.specs.Cmp.Lexicographic.{nat_list_cmp_total};

    ghost order = { λ w k. name_cmp w.now k };

    ghost same = { λ w. nat_list_cmp_total.congr w.now };

    ghost below = { λ w. le_lt_trans nat_list_cmp_total w.now };

    fn compare(&self, key: &Name) -> Ordering {
        self.against(key)
    }

    fn equals(&self, key: &Name) -> bool {
        self.text == key.as_str()
    }
}
