//! Equality of pages and nodes. It compares the pages below and the cached digests too: equal content with other caches is
//! unequal.

ghost use Rattle.std.specs.Prelude.{◌≡◌};
ghost use Rattle.merkle_tree_theory.specs.Tree.{held_of};
ghost use Rattle.merkle_tree_theory.specs.Equal.{tree_eq, held_eq, node_eq};

use crate::page::{NodeOf, PageOf};
use merkle_digest::PageDigest;

/// Nodes are equal where their keys, value digests and pages below are, with all cached digests.
impl<K: PartialEq, D: PartialEq> PartialEq for NodeOf<K, D> {
    ghost use Rattle.merkle_tree_theory.specs.Equal.{node_eq};
    ghost use Rattle.merkle_tree_theory.specs.EqualLaws.{node_eq_laws};
    ghost use Rattle.std.proofs.Common.{rules};
    ghost use Rattle.std.specs.Cmp.Rules.{comparing};

    ghost eq = { node_eq ⟦<Option<PageDigest> as PartialEq>⟧.eq K.eq D.eq };

    ghost laws = { node_eq_laws ⟦<Option<PageDigest> as PartialEq>⟧.eq K.eq D.eq (Prim.search (comparing, rules)) K.laws D.laws };

    fn eq(&self, other: &Self) -> bool {
        same_node(self, other)
    }
}

/// Pages are equal where their levels, nodes and pages below are, with all cached digests: equal content with other caches is unequal.
impl<K: PartialEq, D: PartialEq> PartialEq for PageOf<K, D> {
    ghost use Rattle.merkle_tree_theory.specs.Equal.{tree_eq};
    ghost use Rattle.merkle_tree_theory.specs.EqualLaws.{tree_eq_laws};
    ghost use Rattle.std.proofs.Common.{rules};
    ghost use Rattle.std.specs.Cmp.Rules.{comparing};

    ghost eq = { tree_eq ⟦<Option<PageDigest> as PartialEq>⟧.eq K.eq D.eq };

    ghost laws = { tree_eq_laws ⟦<Option<PageDigest> as PartialEq>⟧.eq K.eq D.eq (Prim.search (comparing, rules)) K.laws D.laws };

    fn eq(&self, other: &Self) -> bool {
        same_page(self, other)
    }
}

impl<K: Eq, D: Eq> Eq for NodeOf<K, D> {
    ghost use Rattle.merkle_tree_theory.specs.EqualLaws.{node_eq_equivalence};
    ghost use Rattle.std.proofs.Common.{rules};
    ghost use Rattle.std.specs.Cmp.Rules.{comparing};

    ghost laws = { node_eq_equivalence ⟦<Option<PageDigest> as PartialEq>⟧.eq K.eq D.eq (Prim.search (comparing, rules)) K.Eq.laws D.Eq.laws };
}

impl<K: Eq, D: Eq> Eq for PageOf<K, D> {
    ghost use Rattle.merkle_tree_theory.specs.EqualLaws.{tree_eq_equivalence};
    ghost use Rattle.std.proofs.Common.{rules};
    ghost use Rattle.std.specs.Cmp.Rules.{comparing};

    ghost laws = { tree_eq_equivalence ⟦<Option<PageDigest> as PartialEq>⟧.eq K.eq D.eq (Prim.search (comparing, rules)) K.Eq.laws D.Eq.laws };
}

/// Whether two nodes are equal.
#[cycle(equal)]
fn same_node<K: PartialEq, D: PartialEq>(a: &NodeOf<K, D>, b: &NodeOf<K, D>) -> bool
    ensures { result ≡ node_eq ⟦<Option<PageDigest> as PartialEq>⟧.eq K.eq D.eq a.now b.now }
{
    same_below(&a.lt_pointer, &b.lt_pointer) && a.key == b.key && a.value_hash == b.value_hash
}

/// Whether two pages are equal.
#[cycle(equal)]
fn same_page<K: PartialEq, D: PartialEq>(a: &PageOf<K, D>, b: &PageOf<K, D>) -> bool
    ensures { result ≡ tree_eq ⟦<Option<PageDigest> as PartialEq>⟧.eq K.eq D.eq a.now b.now }
{
    if a.level != b.level {
        return false;
    }
    if a.tree_hash != b.tree_hash {
        return false;
    }
    if a.nodes.len() != b.nodes.len() {
        return false;
    }
    'nodes: for i in 0..a.nodes.len() {
        if !same_node(&a.nodes[i], &b.nodes[i]) {
            return false;
        }
    }
    same_below(&a.high_page, &b.high_page)
}

/// Whether what two pointers hold is equal.
#[cycle(equal)]
fn same_below<K: PartialEq, D: PartialEq>(
    a: &Option<Box<PageOf<K, D>>>,
    b: &Option<Box<PageOf<K, D>>>,
) -> bool
    ensures { result ≡ held_eq ⟦<Option<PageDigest> as PartialEq>⟧.eq K.eq D.eq (held_of a.now) (held_of b.now) }
{
    match (a, b) {
        (None, None) => true,
        (Some(a), Some(b)) => same_page(a, b),
        _ => false,
    }
}
