//! Pages and their nodes.

ghost use Rattle.std.specs.Prelude.{◌≡◌, None};
ghost use Rattle.std.specs.Option.{option_map};
ghost use Rattle.merkle_tree_theory.specs.Tree.{page, high, nothing};
ghost use Rattle.merkle_tree_theory.specs.Page.{level, cache, nodes_of};

use merkle_digest::{PageDigest, ValueDigest};
use std::alloc::Global;
use std::marker::Model;

/// A node of a [`Page`] in a tree whose value digests have `N` bytes.
pub type Node<const N: usize, K> = NodeOf<K, ValueDigest<N>>;

/// A page of a tree whose value digests have `N` bytes.
pub type Page<const N: usize, K> = PageOf<K, ValueDigest<N>>;

/// A key with the digest of its value, and the page of the keys between the node before it and itself. The level of that page is
/// strictly lower than that of the node's page.
///
/// `D` is the type of the value digest: callers name the alias [`Node`].
#[cycle(tree)]
#[derive(Drop)]
pub struct NodeOf<K, D> {
    pub(crate) key: K,
    pub(crate) value_hash: D,
    pub(crate) lt_pointer: Option<Box<PageOf<K, D>>>,
}

impl<K, D> Model for NodeOf<K, D> {
    ghost use Rattle.merkle_tree_theory.specs.Tree.{Node, held_of, node_size};
    ghost use Rattle.merkle_tree_theory.specs.TreeCode.{node_code};

    ghost Value = { Node K D };

    ghost coded = { node_code K.code D.code };

    ghost view = { λ a. record { lt = held_of a.lt_pointer; key = a.key; digest = a.value_hash } };

    ghost size = { node_size };

    ghost use Rattle.merkle_search_tree.specs.TreeFalls.{falls_node};

    ghost size_decreases = { λ a h. falls_node a };
}

/// A page: its level, from 0 to 255, its nodes in ascending key order, and at most one high page, which holds the keys above the
/// last node and has a strictly lower level. It caches its digest.
///
/// `D` is the type of the value digests: callers name the alias [`Page`].
#[cycle(tree)]
#[derive(Drop)]
pub struct PageOf<K, D> {
    pub(crate) level: u8,
    pub(crate) tree_hash: Option<PageDigest>,
    pub(crate) nodes: Vec<NodeOf<K, D>>,
    pub(crate) high_page: Option<Box<PageOf<K, D>>>,
}

impl<K, D> Model for PageOf<K, D> {
    ghost use Rattle.merkle_tree_theory.specs.Tree.{Tree, page, row, held_of, tree_size};
    ghost use Rattle.merkle_tree_theory.specs.TreeCode.{tree_code};

    ghost Value = { Tree K D };

    ghost coded = { tree_code K.code D.code };

    ghost view = { λ a. page a.level a.tree_hash (row a.nodes.items (held_of a.high_page)) };

    ghost size = { tree_size };

    ghost use Rattle.merkle_search_tree.specs.TreeFalls.{falls_page};

    ghost size_decreases = { λ a h. falls_page a };
}

impl<const N: usize, K> Node<N, K> {
    /// The key of the node.
    pub fn key(&self) -> &K
        ensures { result.now ≡ self.now.key }
    {
        &self.key
    }

    /// The digest of the value at the key.
    pub fn value_hash(&self) -> &ValueDigest<N>
        ensures { result.now ≡ self.now.digest }
    {
        &self.value_hash
    }
}

impl<const N: usize, K> Page<N, K> {
    /// The nodes of the page itself, in ascending key order.
    pub fn nodes(&self) -> &[Node<N, K>]
        ensures { result.now ≡ nodes_of self.now }
    {
        &self.nodes
    }

    /// The level of the page, from 0 to 255: that of the keys of its nodes, and 0 for the root page of an empty tree.
    pub fn level(&self) -> u8
        ensures { result ≡ level self.now }
    {
        self.level
    }

    /// The cached digest of the page; `None` where the page changed since its tree was hashed.
    pub fn hash(&self) -> Option<&PageDigest>
        ensures { option_map (λ digest. digest.now) result ≡ cache self.now }
    {
        self.tree_hash.as_ref()
    }
}

impl<K, D> PageOf<K, D> {
    /// The page of level 0 without nodes. It takes no memory.
    pub(crate) fn empty(alloc: Global) -> Self
        ensures { result ≡ page 0 None (high nothing) }
    {
        PageOf {
            level: 0,
            tree_hash: None,
            nodes: Vec::new(alloc),
            high_page: None,
        }
    }
}
