//! What stands on the way to a key or a gap: the node with the key, and the page over the gap.

ghost use Rattle.std.specs.Prelude.{◌≡◌};
ghost use Rattle.std.specs.Option.{option_map};
ghost use Rattle.key_order.specs.Map.{IsMap};
ghost use Rattle.merkle_tree_theory.specs.Gap.{is_before};
ghost use Rattle.merkle_tree_theory.specs.Lookup.{page_over, held_over};
ghost use Rattle.merkle_tree_theory.specs.Page.{pairs, held_pairs, pair_of};
ghost use Rattle.merkle_tree_theory.specs.Remove.{tree_entry, held_entry};
ghost use Rattle.merkle_tree_theory.specs.Tree.{held_of};
ghost use Rattle.merkle_search_tree.specs.Items.{bound_of, lent_gap};

use crate::gap::Gap;
use crate::page::{NodeOf, PageOf};
use crate::spot::{first_behind, search};

impl<K: Ord, D> PageOf<K, D> {
    /// The node with the key, of this page or one below it.
    #[cycle(node)]
    pub(crate) fn node_with(&self, key: &K) -> Option<&NodeOf<K, D>>
        requires { IsMap K.cmp (pairs self.now) }
        ensures { option_map (λ node. pair_of node.now) result ≡ tree_entry K.cmp key.now self.now }
    {
        let spot = search(&self.nodes, key);
        let at = spot.at;
        if at == self.nodes.len() {
            return node_below(&self.high_page, key);
        }
        let node = &self.nodes[at];
        if spot.is_there {
            return Some(node);
        }
        node_below(&node.lt_pointer, key)
    }

    /// The page over the gap: this one or one below it, which has a node in the gap; it has all keys in the gap.
    #[cycle(over)]
    pub(crate) fn page_over(&self, gap: &Gap<'_, K>) -> Option<&PageOf<K, D>>
        requires { IsMap K.cmp (pairs self.now) }
        ensures { option_map (λ page. page.now) result ≡ page_over K.cmp (lent_gap gap.now) self.now }
    {
        let at = first_behind(&self.nodes, gap.after);
        if at == self.nodes.len() {
            return over_below(&self.high_page, gap);
        }
        let node = &self.nodes[at];
        if is_before(&node.key, gap.before) {
            return Some(self);
        }
        over_below(&node.lt_pointer, gap)
    }
}

/// The node with the key in what a pointer holds.
#[cycle(node)]
fn node_below<'a, K: Ord, D>(
    held: &'a Option<Box<PageOf<K, D>>>,
    key: &K,
) -> Option<&'a NodeOf<K, D>>
    requires { IsMap K.cmp (held_pairs (held_of held.now)) }
    ensures { option_map (λ node. pair_of node.now) result ≡ held_entry K.cmp key.now (held_of held.now) }
{
    match held {
        None => None,
        Some(page) => page.node_with(key),
    }
}

/// The page over the gap of what a pointer holds.
#[cycle(over)]
fn over_below<'a, K: Ord, D>(
    held: &'a Option<Box<PageOf<K, D>>>,
    gap: &Gap<'_, K>,
) -> Option<&'a PageOf<K, D>>
    requires { IsMap K.cmp (held_pairs (held_of held.now)) }
    ensures { option_map (λ page. page.now) result ≡ held_over K.cmp (lent_gap gap.now) (held_of held.now) }
{
    match held {
        None => None,
        Some(page) => page.page_over(gap),
    }
}

/// Whether the key is below the bound, where there is one.
fn is_before<K: Ord>(key: &K, bound: Option<&K>) -> bool
    ensures { result ≡ is_before K.cmp (bound_of bound.entry) key.now }
{
    match bound {
        None => true,
        Some(bound) => key < bound,
    }
}
