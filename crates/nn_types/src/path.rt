//! Paths of the namespace, seen as lists of names.
ghost use Rattle.std.specs.Prelude.{◌≡◌, ◌+◌, ◌≤◌, ◌<◌, OnErr, string_bytes, List, ℕ, length, drop, Some, None, IfOk, IfSome, IfNone, IsErrOf, true, false};
ghost use Rattle.std.specs.List.{list_all, prefix_len};
ghost use Rattle.std.specs.String.{string_capacity};
ghost use Rattle.nn_types.specs.Fault.{number_of};
ghost use Rattle.nn_types.specs.Path.{is_name, is_name_byte, parts, path_of, path_text, IsPath, AreUtf8, names_of_text};

use crate::fault;
use crate::limits::{MAX_NAME_LEN, MAX_NAMES, MAX_PATH_LEN};
use crate::names::{Names, name_len};
use crate::simple::is_simple;
use std::alloc::{AllocError, AllocFailed, Global};
use std::marker::Model;
use std::mem;
use thiserror::Error;

/// An absolute path, kept as its text. Its names go from the root down; the root has none.
#[derive(Debug, Drop)]
pub struct Path {
    text: String,
}

impl Model for Path {
    ghost use Rattle.std.specs.Prelude.{List, ℕ, string_bytes};
    ghost use Rattle.nn_types.specs.Path.{names_of_text, IsSpelled};

    ghost Value = { List (List ℕ) };

    ghost view = { λ p. names_of_text (string_bytes p.text) };

    ghost invariant = { λ p. IsSpelled (string_bytes p.text) };
}

/// Why a text is not read as a path.
#[derive(Clone, Copy, Debug, PartialEq, Eq, Error)]
pub enum PathFault {
    #[error("not a path")]
    BadPath,
    #[error("out of memory")]
    OutOfMemory,
}

impl PathFault {
    /// The fault's number.
    pub fn number(self) -> u8
        ensures { result ≡ number_of self }
    {
        match self {
            PathFault::BadPath => fault::BAD_PATH,
            PathFault::OutOfMemory => fault::MEMORY,
        }
    }
}

impl From<AllocError> for PathFault {
    ghost use Rattle.nn_types.specs.declared.path.PathFault.TheVariants.{OutOfMemory};

    ghost from_gives = { λ _ e. e ≡ OutOfMemory };

    fn from(_e: AllocError) -> PathFault {
        PathFault::OutOfMemory
    }
}

impl<T: Drop> From<AllocFailed<T>> for PathFault {
    ghost use Rattle.nn_types.specs.declared.path.PathFault.TheVariants.{OutOfMemory};

    ghost from_gives = { λ _ e. e ≡ OutOfMemory };

    fn from(_e: AllocFailed<T>) -> PathFault {
        PathFault::OutOfMemory
    }
}

impl Path {
    /// Reads a path: `/` is the root, and any other path is a slash and a name, repeated.
    ///
    /// A name has 1 to 255 bytes, holds no slash and no colon, and is neither `.` nor `..`. A path has at
    /// most 1000 names and 8000 bytes. Time and memory are linear in the text.
    pub fn parse(alloc: Global, text: &str) -> Result<Path, PathFault>
        // What is read is a lawful path, and the text is its spelling.
        ensures ok { IfOk result (λ p. IsPath p × (text.now ≡ path_text p)) }
        ensures exact { IfOk result (λ p. path_of text.now ≡ Some p) }
        // What spells a path is read.
        ensures bad { IsErrOf result PathFault.BadPath → path_of text.now ≡ None }
    {
        if !spells_path(text) {
            return Err(PathFault::BadPath);
        }
        let text = String::from_str(alloc, text)?;
        Ok(Path { text })
    }

    /// The same, in the room of a text that is kept. It asks for memory only where this text has too little room, and then for a
    /// text of the path alone.
    ///
    /// What the kept text says is of no matter. It is empty afterwards, with no room, where the path has its room; else it is as it
    /// was.
    pub fn parse_into(alloc: Global, kept: &mut String, text: &str) -> Result<Path, PathFault>
        ensures ok { IfOk result (λ p. IsPath p × (text.now ≡ path_text p)) }
        ensures exact { IfOk result (λ p. path_of text.now ≡ Some p) }
        ensures bad { IsErrOf result PathFault.BadPath → path_of text.now ≡ None }
        ensures memory { IsErrOf result PathFault.OutOfMemory → string_capacity kept.old < length text.now }
        ensures left { OnErr result (kept.new ≡ kept.old) }
    {
        if kept.capacity() < text.len() {
            return Path::parse(alloc, text);
        }
        if !spells_path(text) {
            return Err(PathFault::BadPath);
        }
        let mut filled = mem::replace(kept, String::new(alloc));
        filled.clear();
        filled.push_str(text)?;
        Ok(Path { text: filled })
    }

    /// Its text alone, whose room another path may have.
    pub fn into_text(self) -> String
        ensures { string_bytes result ≡ path_text self }
    {
        self.text
    }

    /// The names, from the root down.
    pub fn names(&self) -> Names<'_>
        ensures names { result ≡ self.now }
        ensures lawful { IsPath self.now }
        ensures utf8 { AreUtf8 self.now }
    {
        match self.text.strip_prefix('/') {
            Some(names) => Names::of(names),
            None => unreachable!(),
        }
    }

    /// The one text of the path.
    pub fn text(&self) -> &str
        ensures text { result.now ≡ path_text self.now }
        ensures lawful { IsPath self.now }
    {
        self.text.as_str()
    }
}

/// Each lawful list of names is read from its text, and each text that is read is the text of the names
/// that were read: a path has one spelling, and no text spells two paths.
pub fn one_spelling()
    ensures reads { (names : List (List ℕ)) → IsPath names → path_of (path_text names) ≡ Some names }
    ensures spells { (text : List ℕ) (names : List (List ℕ)) → path_of text ≡ Some names
        → IsPath names × (text ≡ path_text names) }
{}

// Whether a text is a path's.
fn spells_path(text: &str) -> bool
    ensures path { result ≡ true → path_of text.now ≡ Some (names_of_text text.now) }
    ensures other { result ≡ false → path_of text.now ≡ None }
{
    if is_simple(text.as_bytes()) {
        return true;
    }
    if text.len() > MAX_PATH_LEN {
        return false;
    }
    let Some(rest) = text.strip_prefix('/') else {
        return false;
    };
    let Some(count) = count_names(rest.as_bytes()) else {
        return false;
    };
    count <= MAX_NAMES
}

// How many parts between slashes a text has, if each is a name. An empty text has none.
fn count_names(text: &[u8]) -> Option<usize>
    ensures names { IfSome result (λ n. (n ≡ length (parts text.now)) × (list_all is_name (parts text.now) ≡ true)) }
    ensures bad { IfNone result (list_all is_name (parts text.now) ≡ false) }
{
    let mut count = 0;
    if text.is_empty() {
        return Some(count);
    }
    let mut start = 0;
    'names: loop {
        let end = name_end(text, start);
        if !is_name(&text[start..end]) {
            return None;
        }
        count += 1;
        if end >= text.len() {
            return Some(count);
        }
        if text[end] != b'/' {
            return None;
        }
        start = end + 1;
    }
}

// Where the first slash or colon from `from` on stands. It is the length of the text where there is none.
#[inline(always)]
fn name_end(text: &[u8], from: usize) -> usize
    requires { from ≤ length text.now }
    ensures value { result ≡ from + prefix_len is_name_byte (drop from text.now) }
    ensures bound { result ≤ length text.now }
{
    from + name_len(&text[from..])
}

// `name_end` has looked for slashes and colons.
#[inline(always)]
fn is_name(name: &[u8]) -> bool
    requires { list_all is_name_byte name.now ≡ true }
    ensures { result ≡ is_name name.now }
{
    if name.is_empty() || name.len() > MAX_NAME_LEN {
        return false;
    }
    match name {
        b"." | b".." => false,
        _ => true,
    }
}
