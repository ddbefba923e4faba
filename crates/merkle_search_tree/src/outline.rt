//! What peers tell each other of a page: its nodes, and the pages right below it.

ghost use Rattle.std.specs.Prelude.{◌≡◌, ◌≢◌, IfSome, None, Some, OnOk};
ghost use Rattle.merkle_tree_theory.specs.Canonical.{HasNode};
ghost use Rattle.merkle_tree_theory.specs.Tree.{held_of};
ghost use Rattle.merkle_tree_theory.specs.Outline.{cached_items, held_items};
ghost use Rattle.merkle_tree_theory.specs.Page.{cache};
ghost use Rattle.merkle_search_tree.specs.Items.{lent_gap};
ghost use Rattle.merkle_search_tree.specs.Lists.{AddsItems};

use crate::gap::Gap;
use crate::page::PageOf;
use merkle_digest::{PageDigest, ValueDigest};
use std::alloc::AllocError;

/// An item of an outline, in a tree whose value digests have `N` bytes.
pub type OutlineItem<'a, const N: usize, K> = OutlineItemOf<'a, K, ValueDigest<N>>;

/// An item of an outline: a node, or a whole page that stands right below the page that is outlined, with those below it.
///
/// `D` is the type of the value digests: callers name the alias [`OutlineItem`].
#[derive(Drop)]
pub enum OutlineItemOf<'a, K, D> {
    /// The key of a node and the digest of its value.
    Node(&'a K, &'a D),
    /// The gap that a page fills, and the digest of the page.
    Page(Gap<'a, K>, &'a PageDigest),
}

impl<K, D> PageOf<K, D> {
    /// The digest of the page, where it is cached and the page has a node.
    pub(crate) fn digest_with_node(&self) -> Option<&PageDigest>
        ensures none { result ≡ None → cache self.now ≢ None → ¬ (HasNode self.now) }
        ensures some { IfSome result (λ digest. HasNode self.now × (cache self.now ≡ Some digest.now)) }
    {
        if self.nodes.is_empty() {
            return None;
        }
        match &self.tree_hash {
            None => None,
            Some(digest) => Some(digest),
        }
    }

    /// Adds the nodes of the page, which fills the gap, and the pages right below it to a list, in the order of their keys.
    pub(crate) fn list_items<'a>(
        &'a self,
        gap: Gap<'a, K>,
        list: &mut Vec<OutlineItemOf<'a, K, D>>,
    ) -> Result<(), AllocError>
        ensures { OnOk result (AddsItems (cached_items (lent_gap gap.entry) self.now) list.old list.new) }
    {
        let mut after = gap.after;
        'nodes: for node in &self.nodes {
            let key = &node.key;
            let before = Gap {
                after,
                before: Some(key),
            };
            list_page(&node.lt_pointer, before, list)?;
            list.push(OutlineItemOf::Node(key, &node.value_hash))?;
            after = Some(key);
        }
        let behind = Gap {
            after,
            before: gap.before,
        };
        list_page(&self.high_page, behind, list)
    }
}

/// Adds the page that a pointer holds to a list, where it holds one whose digest is cached.
fn list_page<'a, K, D>(
    held: &'a Option<Box<PageOf<K, D>>>,
    gap: Gap<'a, K>,
    list: &mut Vec<OutlineItemOf<'a, K, D>>,
) -> Result<(), AllocError>
    ensures { OnOk result (AddsItems (held_items cache (lent_gap gap.entry) (held_of held.now)) list.old list.new) }
{
    let Some(page) = held else {
        return Ok(());
    };
    if let Some(digest) = &page.tree_hash {
        list.push(OutlineItemOf::Page(gap, digest))?;
    }
    Ok(())
}
