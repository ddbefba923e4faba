//! Upserts in any order, and a load of the same rows in key order, make one tree.
ghost use Rattle.std.specs.Prelude.{◌≡◌, IfOk, string_bytes};
ghost use Rattle.key_order.specs.Map.{SameMap};
ghost use Rattle.key_order.specs.Text.{text_order};
ghost use Rattle.merkle_tree_theory.specs.Canonical.{SamePages};
ghost use Rattle.merkle_tree_theory.specs.Settings.{default_settings};
ghost use Rattle.merkle_tree_theory.specs.State.{map_of, HasSettings};
ghost use Rattle.merkle_tree_theory.specs.Stream.{page_digest};
ghost use Rattle.merkle_tree_theory.specs.declared.page_format.PageFormat.TheVariants.{V1};
ghost use Rattle.examples.specs.Order.{HasUpserted};

use merkle_digest::SipHasher;
use merkle_search_tree::builder::Builder;
use merkle_search_tree::laws::{a_map_has_one_tree, every_tree_is_sound};
use merkle_search_tree::{LoadRefused, MerkleSearchTree};
use std::alloc::{AllocError, Global};

/// A tree of texts and numbers.
pub type Tree = MerkleSearchTree<String, u64, SipHasher, 16>;

/// Upserts the rows in the order in which they come.
fn upsert_all(alloc: Global, rows: &[(String, u64)]) -> Result<Tree, AllocError>
    ensures { IfOk result (HasUpserted rows.now) }
{
    let mut tree: Tree = MerkleSearchTree::with_defaults(alloc);
    'rows: for row in rows {
        tree.upsert(row.0.clone()?, &row.1)?;
    }
    Ok(tree)
}

/// Trees of equal maps, both with default settings, have equal pages and one root digest.
fn are_one_tree(a: &Tree, b: &Tree)
    requires maps { SameMap text_order (λ d e. d ≡ e) (map_of a.now) (map_of b.now) }
    requires a_settings { HasSettings (default_settings V1) a.now }
    requires b_settings { HasSettings (default_settings V1) b.now }
    ensures pages { SamePages text_order a.now.root b.now.root }
    ensures digest { page_digest V1 string_bytes a.now.root ≡ page_digest V1 string_bytes b.now.root }
{
    a_map_has_one_tree::<String, SipHasher, 16>();
    every_tree_is_sound(a);
    every_tree_is_sound(b);
}

/// The tree that rows make in the order in which they come, and the one that they are loaded to once they are sorted: both have one map, so the
/// same pages apart from caches, and one digest of the root page. Of rows with one key the load refuses the second.
///
/// # Errors
///
/// [`LoadRefused::NotAscending`] where two rows have one key, or out of memory.
pub fn built_both_ways(alloc: Global, rows: Vec<(String, u64)>) -> Result<(Tree, Tree), LoadRefused>
    ensures pages { IfOk result (λ trees. SamePages text_order trees.0.root trees.1.root) }
    ensures digest { IfOk result (λ trees. page_digest V1 string_bytes trees.0.root ≡ page_digest V1 string_bytes trees.1.root) }
{
    let upserted = upsert_all(alloc, &rows)?;
    let mut sorted = rows;
    sorted.sort()?;
    let loaded: Tree = MerkleSearchTree::from_ascending_slice(alloc, Builder::default(), &sorted)?;
    are_one_tree(&upserted, &loaded);
    Ok((upserted, loaded))
}
