//! The nodes of a tree in order.

ghost use Rattle.std.specs.Prelude.{◌≡◌, IfOk};
ghost use Rattle.std.specs.Vec.{vec_len, vec_capacity};
ghost use Rattle.merkle_tree_theory.specs.Tree.{held_of};
ghost use Rattle.merkle_tree_theory.specs.Page.{nodes_in_order, LevelsFall};
ghost use Rattle.merkle_search_tree.specs.Path.{rest_of, rest_with, HasRoom, PathFits, TakesNode};

use crate::page::{NodeOf, PageOf};
use crate::path::{Visit, enter, pass};
use merkle_digest::ValueDigest;
use std::alloc::{AllocError, Global};
use std::marker::Model;

/// The nodes of a tree whose value digests have `N` bytes, in ascending key order.
pub type NodeIter<'a, const N: usize, K> = NodeIterOf<'a, K, ValueDigest<N>>;

/// The nodes of a tree in ascending key order. A contract sees the list of those that are left. It has room for a page of each
/// level, so that `next` takes no memory, and it looks at each page once.
///
/// `D` is the type of the value digests: callers name the alias [`NodeIter`].
pub struct NodeIterOf<'a, K, D> {
    path: Vec<Visit<'a, K, D>>,
}

// Written out, so that a caller doesn't prove again how each part is dropped.
impl<'a, K, D> Drop for NodeIterOf<'a, K, D> {
    fn drop(self) {
        let NodeIterOf { path: _ } = self;
    }
}

impl<'a, K, D> Model for NodeIterOf<'a, K, D> {
    ghost use Rattle.std.specs.Prelude.{List};
    ghost use Rattle.std.specs.Vec.{vec_capacity};
    ghost use Rattle.merkle_tree_theory.specs.Tree.{Node};
    ghost use Rattle.merkle_tree_theory.specs.TreeCode.{node_code};
    ghost use Rattle.std.specs.Coded.{coded_list};

    ghost Value = { List (Node K D) };

    ghost coded = { coded_list (node_code K.code D.code) };

    ghost use Rattle.merkle_search_tree.specs.Path.{rest_of, PathFits};

    ghost view = { λ a. rest_of a.path.items };

    ghost invariant = { λ a. PathFits (vec_capacity a.path) 0 a.path.items };
}

impl<'a, K, D> NodeIterOf<'a, K, D> {
    /// The nodes of a page and of those below it. Room for the level of the page and one page more is made here.
    pub(crate) fn new(alloc: Global, root: &'a PageOf<K, D>) -> Result<Self, AllocError>
        requires { LevelsFall root.now }
        ensures { IfOk result (λ rest. rest ≡ nodes_in_order root.now) }
    {
        let mut path = Vec::with_capacity(alloc, root.level as usize + 1)?;
        let first = enter(&mut path, root);
        descend(&mut path, first);
        Ok(NodeIterOf { path })
    }
}

impl<'a, K, D> Iterator for NodeIterOf<'a, K, D> {
    type Item = &'a NodeOf<K, D>;

    ghost use Rattle.std.specs.Iterator.{YieldsFirstRef, item_count};

    ghost next_gives = { YieldsFirstRef (λ rest. rest) };

    ghost remaining = { item_count (λ rest. rest) };

    fn next(&mut self) -> Option<&'a NodeOf<K, D>> {
        advance(&mut self.path)
    }
}

/// Takes the next node off the path.
fn advance<'a, K, D>(path: &mut Vec<Visit<'a, K, D>>) -> Option<&'a NodeOf<K, D>>
    requires { PathFits (vec_capacity path.old) 0 path.old.items }
    ensures fits { PathFits (vec_capacity path.new) 0 path.new.items }
    ensures gives { TakesNode path.old.items path.new.items result }
{
    let (node, behind) = pass(path)?;
    descend(path, behind);
    Some(node)
}

/// Puts on the path the page that a pointer holds, if there is one, and those before its first node.
fn descend<'a, K, D>(path: &mut Vec<Visit<'a, K, D>>, held: &'a Option<Box<PageOf<K, D>>>)
    requires room { HasRoom (vec_len path.old) (vec_capacity path.old) (held_of held.now) }
    requires path_fits { PathFits (vec_capacity path.old) 0 path.old.items }
    ensures fits { PathFits (vec_capacity path.new) 0 path.new.items }
    ensures rest { rest_of path.new.items ≡ rest_with (held_of held.now) path.old.items }
{
    let mut held = held;
    'down: while let Some(page) = held {
        held = enter(path, page);
    }
}
