//! Where a key goes among the nodes of a page.

ghost use Rattle.std.specs.Prelude.{◌≡◌, ℕ, ◌^◌, ◌<◌, ◌≤◌, length};
ghost use Rattle.merkle_tree_theory.specs.Lookup.{place_after};
ghost use Rattle.merkle_tree_theory.specs.Search.{NodesAscend, ComparesByHalves};
ghost use Rattle.merkle_tree_theory.specs.Upsert.{place};
ghost use Rattle.merkle_search_tree.specs.Items.{bound_of};
ghost use Rattle.merkle_search_tree.specs.Spots.{TellsIfThere};

use crate::page::NodeOf;
use std::cmp::Ordering;

/// Where a key goes among the nodes of a page.
#[derive(Clone, Copy)]
pub(crate) struct Spot {
    /// The place of the first node whose key is at least the key, or the number of nodes.
    pub(crate) at: usize,
    /// Whether that node has the key.
    pub(crate) is_there: bool,
    /// How many nodes' keys were compared.
    pub(crate) compared: usize,
}

/// Where `key` goes among the nodes, found by halving; the search stops at an equal key. The count is at most the number of binary
/// digits of the number of nodes.
pub(crate) fn search<K: Ord, D>(nodes: &[NodeOf<K, D>], key: &K) -> Spot
    requires ascending { NodesAscend K.cmp nodes.now }
    ensures found { result.at ≡ place K.cmp key.now nodes.now }
    ensures within { result.at ≤ length nodes.now }
    ensures there { TellsIfThere K.cmp key.now nodes.now result }
    ensures counted { ComparesByHalves K.cmp key.now result.compared nodes.now }
    ensures few { (digits : ℕ) → length nodes.now < 2 ^ digits → result.compared ≤ digits }
{
    let mut low = 0;
    let mut high = nodes.len();
    let mut compared = 0;
    'halves: while low < high {
        let middle = low + (high - low) / 2;
        compared += 1;
        let node = &nodes[middle];
        match key.cmp(&node.key) {
            Ordering::Greater => low = middle + 1,
            Ordering::Less => high = middle,
            Ordering::Equal => {
                return Spot {
                    at: middle,
                    is_there: true,
                    compared,
                };
            }
        }
    }
    Spot {
        at: low,
        is_there: false,
        compared,
    }
}

/// The place of the first node whose key is above the bound, or of the first node where there is no bound.
pub(crate) fn first_behind<K: Ord, D>(nodes: &[NodeOf<K, D>], bound: Option<&K>) -> usize
    requires ascending { NodesAscend K.cmp nodes.now }
    ensures found { result ≡ place_after K.cmp (bound_of bound.entry) nodes.now }
    ensures within { result ≤ length nodes.now }
{
    let Some(key) = bound else {
        return 0;
    };
    let spot = search(nodes, key);
    if spot.at == nodes.len() {
        return spot.at;
    }
    if spot.is_there { spot.at + 1 } else { spot.at }
}
