//! The rows of a namespace in path order, one after another.
ghost use Rattle.std.specs.Prelude.{◌≡◌, ◌+◌, ◌++◌, ◌∷◌, [], ◌≤◌, ◌<◌, min, Some, None, true, bytes_eq, IfOk, IfSome, OnOk, OnErr, IsOk, length, option_to_list, string_bytes};
ghost use Rattle.nn_tree.specs.At.{names_of};
ghost use Rattle.nn_tree.specs.Flat.{below};
ghost use Rattle.nn_tree.specs.Found.{form_of};
ghost use Rattle.nn_tree.specs.Listing.{lent_names};
ghost use Rattle.nn_tree.specs.Nesting.{IsNested};
ghost use Rattle.nn_tree.specs.Rows.{IsPast, extent_of, greatest_depth, rows_from, rows_open, opened, entries_of, from_children};
ghost use Rattle.std.specs.Vec.{vec_len, vec_capacity};

use crate::found::Found;
use crate::tree::Tree;
use crate::tree::children::Children;
use std::alloc::{AllocError, Global};
use std::fmt;
use std::marker::Model;

/// The rows of a namespace in path order, one after another. A walk holds an entry for each directory on its
/// way that has children left, and the names of the way: a path may be as deep as memory allows.
#[derive(Drop)]
pub struct Rows<'a> {
    // The root, where its row is still to come.
    root: Option<&'a Tree>,
    // The names of the row that was given last, from the root down.
    names: Vec<&'a str>,
    // The directories on the way that have children left, the outermost first.
    dirs: Vec<OpenDir<'a>>,
}

/// How many paths there are, and how deep they are.
#[derive(Clone, Copy, Debug, PartialEq, Eq)]
pub struct Extent {
    pub paths: u64,
    /// The greatest number of names of a path.
    pub depth: usize,
}

// A directory with children left.
#[derive(Drop)]
struct OpenDir<'a> {
    // How many names it has.
    depth: usize,
    children: Children<'a>,
}

impl<'a> Model for Rows<'a> {
    ghost use Rattle.std.specs.Prelude.{length, ◌+◌, min, ◌++◌};
    ghost use Rattle.std.specs.Vec.{vec_capacity};
    ghost use Rattle.nn_tree.specs.Listing.{lent_names};
    ghost use Rattle.nn_tree.specs.Rows.{Walk, root_rows, rows_open};
    ghost use Rattle.nn_tree.specs.Nesting.{IsNested};

    ghost Value = { Walk };

    ghost view = { λ a. record { names = lent_names a.names.items; left = root_rows a.root ++ rows_open (lent_names a.names.items) a.dirs.items; room = min (vec_capacity a.names) (vec_capacity a.dirs) } };

    ghost invariant = { λ a. IsNested a.root (lent_names a.names.items) a.dirs.items };
}

// The way to the row that was given last, and not the rows: they nest deeper than a recursion may go.
impl<'a> fmt::Debug for Rows<'a> {
    fn fmt<W: fmt::Write>(&self, f: &mut fmt::Formatter<W>) -> fmt::Result {
        f.debug_struct("Rows")
            .field("names", &self.names)
            .finish_non_exhaustive()
    }
}

impl<'a> Rows<'a> {
    /// All rows of a tree. It takes no memory yet.
    pub(crate) fn new(alloc: Global, root: &'a Tree) -> Rows<'a>
        ensures left { result.left ≡ root.now }
        ensures names { result.names ≡ [] }
    {
        Rows {
            root: Some(root),
            names: Vec::new(alloc),
            dirs: Vec::new(alloc),
        }
    }

    /// The rows of a tree at this place and behind it. Nothing has to stand there.
    pub(crate) fn from(
        alloc: Global,
        root: &'a Tree,
        place: &[String],
    ) -> Result<Rows<'a>, AllocError>
        ensures { IfOk result (λ rows. rows.left ≡ rows_from (names_of place.now) root.now) }
    {
        let Some((first, others)) = place.split_first() else {
            return Ok(Rows::new(alloc, root));
        };
        Rows::down(alloc, root, first, others)
    }

    // The same, for a place that has a name. What is left in the directories on the way lies behind it.
    fn down(
        alloc: Global,
        root: &'a Tree,
        first: &String,
        others: &[String],
    ) -> Result<Rows<'a>, AllocError>
        ensures { IfOk result (λ rows. rows.left ≡ rows_from (string_bytes first.now ∷ names_of others.now) root.now) }
    {
        let mut name = first;
        let mut rest = others;
        let mut tree = root;
        let mut names = Vec::new(alloc);
        let mut dirs = Vec::new(alloc);
        'down: loop {
            let Some(children) = tree.children_from(name) else {
                return Ok(Rows::on_way(names, dirs));
            };
            let depth = names.len();
            let Some((next, below)) = way_on(&children, name, rest) else {
                let Ok(()) = add_open(&mut dirs, depth, Some(children)) else {
                    return Err(AllocError);
                };
                return Ok(Rows::on_way(names, dirs));
            };
            let Ok(()) = names.push(children.name.as_str()) else {
                return Err(AllocError);
            };
            tree = children.tree;
            let Ok(()) = add_open(&mut dirs, depth, children.behind()) else {
                return Err(AllocError);
            };
            name = next;
            rest = below;
        }
    }

    // What is left in these directories, which lie on the way to these names.
    fn on_way(names: Vec<&'a str>, dirs: Vec<OpenDir<'a>>) -> Rows<'a>
        requires { IsNested None (lent_names names.items) dirs.items }
        ensures { result.left ≡ rows_open (lent_names names.entry.items) dirs.entry.items }
    {
        Rows {
            root: None,
            names,
            dirs,
        }
    }

    /// Takes memory for rows of at most so many names: such rows want none any more.
    pub fn reserve(&mut self, depth: usize) -> Result<(), AllocError>
        ensures room { OnOk result (depth ≤ self.new.room) }
        ensures same { (self.new.left ≡ self.old.left) × (self.new.names ≡ self.old.names) × (self.old.room ≤ self.new.room) }
    {
        if depth > self.names.capacity() {
            self.names.reserve(depth - self.names.len())?;
        }
        if depth > self.dirs.capacity() {
            self.dirs.reserve(depth - self.dirs.len())?;
        }
        Ok(())
    }

    /// The next row: its names are in `names` then. It is no `Iterator`, since names are lent until the next call.
    pub fn next_row(&mut self) -> Result<Option<Found<'a>>, AllocError>
        ensures row { IfOk result (λ o. IfSome o (λ found. self.old.left ≡ (self.new.names, form_of found) ∷ self.new.left)) }
        ensures end { IfOk result (λ o. o ≡ None → (self.old.left ≡ []) × (self.new.left ≡ [])) }
        ensures err { OnErr result ((self.new.left ≡ self.old.left) × (self.new.names ≡ self.old.names)) }
        ensures room { greatest_depth self.old.left ≤ self.old.room → IsOk result }
        ensures more_room { self.old.room ≤ self.new.room }
    {
        if let Some(root) = self.root {
            let inside = root.children();
            let Ok(()) = make_room(&mut self.dirs, &inside) else {
                return Err(AllocError);
            };
            self.root = None;
            push_open(&mut self.dirs, 0, inside);
            return Ok(Some(root.top()));
        }
        let Some(dir) = self.dirs.last() else {
            return Ok(None);
        };
        let depth = dir.depth;
        let name = dir.children.name;
        let tree = dir.children.tree;
        let inside = tree.children();
        let Ok(()) = name_room(&mut self.names, depth) else {
            return Err(AllocError);
        };
        let Ok(()) = make_room(&mut self.dirs, &inside) else {
            return Err(AllocError);
        };
        // From here on nothing wants memory.
        pass_child(&mut self.dirs);
        self.names.truncate(depth);
        self.names.push_reserved(name.as_str());
        push_open(&mut self.dirs, self.names.len(), inside);
        Ok(Some(tree.top()))
    }

    /// The next row of a walk that has its room: it wants no more memory.
    pub fn next_ready(&mut self) -> Option<Found<'a>>
        requires { greatest_depth self.old.left ≤ self.old.room }
        ensures row { IfSome result (λ found. self.old.left ≡ (self.new.names, form_of found) ∷ self.new.left) }
        ensures end { result ≡ None → (self.old.left ≡ []) × (self.new.left ≡ []) }
        ensures more_room { self.old.room ≤ self.new.room }
    {
        let Ok(next) = self.next_row() else {
            unreachable!();
        };
        next
    }

    /// How many rows are left, and how deep they are.
    pub(crate) fn extent(mut self) -> Result<Extent, AllocError>
        ensures { IfOk result (λ extent. extent ≡ extent_of self.entry.left) }
    {
        let mut extent = Extent { paths: 0, depth: 0 };
        'rows: loop {
            let Ok(found) = self.next_row() else {
                return Err(AllocError);
            };
            let Some(_) = found else {
                return Ok(extent);
            };
            let Some(paths) = extent.paths.checked_add(1) else {
                return Err(AllocError);
            };
            extent.paths = paths;
            extent.depth = extent.depth.max(self.names().len());
        }
    }

    /// The names of the row that `next_row` gave last, from the root down. None at first.
    pub fn names(&self) -> &[&'a str]
        ensures { lent_names result.now ≡ self.now.names }
    {
        &self.names
    }
}

// Room for a name behind the first ones.
fn name_room<'a>(names: &mut Vec<&'a str>, kept: usize) -> Result<(), AllocError>
    ensures items { names.new.items ≡ names.old.items }
    ensures len { vec_len names.new ≡ vec_len names.old }
    ensures room { OnOk result (min kept (vec_len names.old) < vec_capacity names.new) }
    ensures more { vec_capacity names.old ≤ vec_capacity names.new }
    ensures succeeds { kept < vec_capacity names.old → IsOk result }
{
    if kept < names.capacity() {
        return Ok(());
    }
    names.reserve(1)
}

// Room for a directory, if it has children.
fn make_room<'a>(
    dirs: &mut Vec<OpenDir<'a>>,
    inside: &Option<Children<'a>>,
) -> Result<(), AllocError>
    ensures items { dirs.new.items ≡ dirs.old.items }
    ensures room { OnOk result (vec_len dirs.new + length (option_to_list inside.now) ≤ vec_capacity dirs.new) }
    ensures more { vec_capacity dirs.old ≤ vec_capacity dirs.new }
    ensures succeeds { vec_len dirs.old + length (option_to_list inside.now) ≤ vec_capacity dirs.old → IsOk result }
{
    if inside.is_none() {
        return Ok(());
    }
    dirs.reserve(1)
}

// The next name of a place and those behind it, where the place lies below the first of the children: else they all are
// at the place or behind it.
fn way_on<'p>(
    children: &Children<'_>,
    name: &String,
    rest: &'p [String],
) -> Option<(&'p String, &'p [String])>
    ensures none { result ≡ None → from_children (string_bytes name.now) (names_of rest.now) (Some children.now) ≡ below (entries_of children.now) }
    ensures some { IfSome result (λ on. (rest.now ≡ on.0.now ∷ on.1.now) × (bytes_eq (string_bytes name.now) children.now.name.now ≡ true)) }
{
    if children.name.as_str() != name.as_str() {
        return None;
    }
    rest.split_first()
}

// The same as `push_open`, with no memory taken yet.
fn add_open<'a>(
    dirs: &mut Vec<OpenDir<'a>>,
    depth: usize,
    children: Option<Children<'a>>,
) -> Result<(), AllocError>
    ensures { OnOk result (dirs.new.items ≡ dirs.old.items ++ opened depth children.entry) }
{
    let Ok(()) = make_room(dirs, &children) else {
        return Err(AllocError);
    };
    push_open(dirs, depth, children);
    Ok(())
}

// Puts a directory behind the others, if it has children.
fn push_open<'a>(dirs: &mut Vec<OpenDir<'a>>, depth: usize, children: Option<Children<'a>>)
    requires { vec_len dirs.old + length (option_to_list children) ≤ vec_capacity dirs.old }
    ensures items { dirs.new.items ≡ dirs.old.items ++ opened depth children.entry }
    ensures capacity { vec_capacity dirs.new ≡ vec_capacity dirs.old }
{
    let Some(children) = children else {
        return;
    };
    dirs.push_reserved(OpenDir { depth, children });
}

// Goes past the first child of the innermost directory, and leaves the directory once no others are left.
fn pass_child<'a>(dirs: &mut Vec<OpenDir<'a>>)
    ensures items { IsPast dirs.old.items dirs.new.items }
    ensures len { vec_len dirs.new ≤ vec_len dirs.old }
    ensures capacity { vec_capacity dirs.new ≡ vec_capacity dirs.old }
{
    let Some(dir) = dirs.last_mut() else {
        return;
    };
    if dir.children.advance() {
        return;
    }
    dirs.pop();
}
