//! The children of a directory, one after another.
ghost use Rattle.std.specs.Prelude.{◌≡◌, ◌∷◌, [], true, false, string_bytes};
ghost use Rattle.nn_model.specs.declared.form.Form.{Form};
ghost use Rattle.nn_model.specs.Namespace.{Path};
ghost use Rattle.nn_tree.specs.Flat.{below};
ghost use Rattle.nn_tree.specs.Rows.{IsRooted, all_entries, entries_of, later_of, rows_from, from_children};

use super::{Node, Tree};
use crate::name::{Name, Wanted};
use nn_sorted::Entries;

/// Children of a directory, in the order of their names: the first one, and those behind it.
#[derive(Drop)]
pub(crate) struct Children<'a> {
    pub(crate) name: &'a Name,
    pub(crate) tree: &'a Tree,
    // An only child has none.
    pub(crate) later: Option<Entries<'a, Name, Tree>>,
}

impl<'a> Children<'a> {
    /// The children behind the first one, if there are any.
    pub(crate) fn behind(self) -> Option<Children<'a>>
        ensures { all_entries result ≡ later_of self.entry.later }
    {
        let Some(later) = self.later else {
            return None;
        };
        of(later)
    }

    /// Goes past the first child, and tells whether others are left. Where none are, the first one stays.
    pub(crate) fn advance(&mut self) -> bool
        ensures more { result ≡ true → entries_of self.new ≡ later_of self.old.later }
        ensures last { result ≡ false → later_of self.old.later ≡ [] }
    {
        let Some(later) = &mut self.later else {
            return false;
        };
        let Some((name, tree)) = later.next() else {
            return false;
        };
        self.name = name;
        self.tree = tree;
        true
    }
}

// The first of these children, and those behind it. A look at the top of the first one shows that something stands there.
fn of<'a>(mut entries: Entries<'a, Name, Tree>) -> Option<Children<'a>>
    ensures entries { all_entries result ≡ entries.entry }
    ensures rooted { IsRooted result }
{
    let Some((name, tree)) = entries.next() else {
        return None;
    };
    let _found = tree.top();
    Some(Children {
        name,
        tree,
        later: Some(entries),
    })
}

impl Tree {
    /// All children of a directory. A file has none.
    pub(crate) fn children(&self) -> Option<Children<'_>>
        ensures rows { (form : Form) × (self.now ≡ ([], form) ∷ below (all_entries result)) }
        ensures rooted { IsRooted result }
    {
        match &self.node {
            Node::Folder(children) => {
                if children.is_empty() {
                    return None;
                }
                of(children.iter())
            }
            Node::Narrow(name, tree) => {
                let _found = tree.top();
                Some(Children {
                    name,
                    tree,
                    later: None,
                })
            }
            Node::Leaf(_) => None,
        }
    }

    /// The children of a directory from this name on, which need not stand there.
    pub(crate) fn children_from(&self, name: &String) -> Option<Children<'_>>
        ensures { (p : Path) → rows_from (string_bytes name.now ∷ p) self.now ≡ from_children (string_bytes name.now) p result }
    {
        match &self.node {
            Node::Folder(children) => of(children.iter_from(&Wanted::by(name.as_str()))),
            Node::Narrow(own, tree) => {
                if own.as_str() < name.as_str() {
                    return None;
                }
                Some(Children {
                    name: own,
                    tree,
                    later: None,
                })
            }
            Node::Leaf(_) => None,
        }
    }
}
