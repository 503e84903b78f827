//! One walk down a path, with the change at its end as an argument.
ghost use Rattle.std.specs.Prelude.{◌≡◌, ◌≤◌, ◌==◌, ◌&&◌, Bool, List, Some, true, cond, length, is_some, IfOk, OnErr};
ghost use Rattle.std.specs.FinMap.Entries.{is_sorted};
ghost use Rattle.nn_model.specs.declared.form.Form.{Form};
ghost use Rattle.nn_model.specs.Namespace.{Path, path_cmp};
ghost use Rattle.nn_tree.specs.At.{IsSame};
ghost use Rattle.nn_tree.specs.Descent.{left, IsChangedAt, IsRefusedAt};

use super::{Node, Tree, Unchanged};
use crate::name::Wanted;
use nn_types::Names;

/// A change of the tree that a walk comes to.
pub(crate) trait Change: Drop {
    /// What the change gives back.
    type Gives;

    ghost in_parent: { Bool };

    /// Whether the walk ends in the directory that the last name is in, and leaves that name to the change.
    fn is_in_parent() -> bool
        ensures { result ≡ in_parent };

    /// `changes c rest t w given`: c may make w of the tree t, before the names rest, and give this.
    ghost changes: { Self → Path → List (Path × Form) → List (Path × Form) → Self.Gives → Type 0 };

    /// `refuses c rest t`: c may leave the tree t, before the names rest.
    ghost refuses: { Self → Path → List (Path × Form) → Type 0 };

    /// Makes the change, or leaves the tree with the rows that it has. A walk that ends in the parent hands on the last name.
    fn change(self, tree: &mut Tree, last: Option<&str>) -> Result<Self::Gives, Unchanged>
        requires { is_some last ≡ in_parent }
        ensures changed { IfOk result (λ given. changes self (left last.entry) tree.old tree.new given) }
        ensures refused { OnErr result (refuses self (left last.entry) tree.old) }
        ensures same { OnErr result (IsSame tree.old tree.new) }
        ensures order { is_sorted path_cmp tree.new ≡ true };
}

impl Tree {
    /// Walks down the names, and makes the change at their end. Where nothing stands there, none is made.
    pub(crate) fn change_at<C: Change>(
        &mut self,
        names: &Names<'_>,
        change: C,
    ) -> Result<C::Gives, Unchanged>
        requires { cond C.in_parent 1 0 ≤ length names.now }
        ensures changed { IfOk result (λ given. IsChangedAt self.old names.now self.new (λ rest t w. C.changes change rest t w given)) }
        ensures refused { OnErr result (IsRefusedAt self.old names.now (C.refuses change)) }
        ensures same { OnErr result (IsSame self.old self.new) }
        ensures order { is_sorted path_cmp self.new ≡ true }
    {
        let Some((first, rest)) = names.split_first() else {
            return change.change(self, None);
        };
        if ends(C::is_in_parent(), &rest) {
            return change.change(self, Some(first));
        }
        if let Node::Narrow(name, child) = &mut self.node {
            if name.as_str() != first {
                return Err(Unchanged);
            }
            return child.change_at(&rest, change);
        }
        let Node::Folder(children) = &mut self.node else {
            return Err(Unchanged);
        };
        let Some(child) = children.get_mut_near(&Wanted::by(first)) else {
            return Err(Unchanged);
        };
        child.change_at(&rest, change)
    }
}

// Whether a walk ends before the next name, after which these are left.
fn ends(in_parent: bool, rest: &Names<'_>) -> bool
    ensures { result ≡ (in_parent && (length rest.now == 0)) }
{
    in_parent && rest.is_empty()
}
