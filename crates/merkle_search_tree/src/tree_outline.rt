//! What a tree answers to a peer that goes down page by page: the outline of a page, and what the tree has of one.

ghost use Rattle.std.specs.Prelude.{◌≡◌, ◌≢◌, ◌↔◌, None, Some, IfOk, IsOk, IsTrue};
ghost use Rattle.std.specs.Option.{option_map};
ghost use Rattle.key_order.specs.Map.{get};
ghost use Rattle.merkle_tree_theory.specs.CachedRanges.{as_list};
ghost use Rattle.merkle_tree_theory.specs.State.{map_of};
ghost use Rattle.merkle_search_tree.specs.Items.{lent_gap, item as item_of};
ghost use Rattle.merkle_search_tree.specs.Pages.{whole_tree};
ghost use Rattle.merkle_search_tree.specs.WhereHashed.{WhereHashed, HasPageWith, FindsFillingPage, IsOutlineOver, TellsPageOver};

use crate::gap::Gap;
use crate::outline::{OutlineItem, OutlineItemOf};
use crate::tree::MerkleSearchTree;
use merkle_digest::{Hasher, KeyBytes, PageDigest, ValueDigest};
use std::alloc::AllocError;

impl<K: Ord + KeyBytes, V, H: Hasher<N, K>, const N: usize> MerkleSearchTree<K, V, H, N> {
    /// The digest of the value at a key, where the key is there. On each page of the key's path it compares the key with at most as
    /// many keys as the number of the page's nodes has binary digits. It takes no memory.
    ///
    /// ```rust crates/c_trees/src/byte_tree.rt
    /// match self.tree.value_hash(&own_key) {
    ///     None => Ok(None),
    ///     Some(digest) => Ok(Some(*digest.as_bytes())),
    /// }
    /// ```
    pub fn value_hash(&self, key: &K) -> Option<&ValueDigest<N>>
        ensures { option_map (λ digest. digest.now) result ≡ get K.cmp (map_of self.now) key.now }
    {
        let node = self.root.node_with(key)?;
        Some(node.value_hash())
    }

    /// The whole tree as one item of an outline, where the tree is hashed and has a key: its root page, in the gap that has all keys. It
    /// takes no memory.
    pub fn whole(&self) -> Option<OutlineItem<'_, N, K>>
        ensures { self.now.root_hash ≢ None → as_list (option_map item_of result) ≡ whole_tree K.bytes_of self.now }
    {
        let digest = self.root.digest_with_node()?;
        Some(OutlineItemOf::Page(Gap::everywhere(), digest))
    }

    /// Whether the page over the gap, as [`outline`](Self::outline) opens it, has the digest, where the tree is hashed. Where a page of it fills
    /// the gap, that is the page that is looked at. It compares keys as [`value_hash`](Self::value_hash) does, and one digest. It takes no
    /// memory.
    ///
    /// ```rust crates/merkle_replica/src/descent.rt
    /// self.tree().has_page(gap, digest)
    /// ```
    pub fn has_page(&self, gap: &Gap<'_, K>, digest: &PageDigest) -> bool
        ensures only { IsTrue result → HasPageWith K.bytes_of self.now digest.now }
        ensures all { FindsFillingPage K.cmp K.bytes_of self.now (lent_gap gap.now) digest.now result }
        ensures over { TellsPageOver K.cmp K.bytes_of self.now (lent_gap gap.now) digest.now result }
    {
        match self.root.page_over(gap) {
            None => false,
            Some(page) => has_digest(&page.tree_hash, digest),
        }
    }

    /// The outline of the page over the gap, where the tree is hashed: the page that has a node in the gap, and all keys that the tree has
    /// there. The items are the nodes of that page, and the pages right below it, each by the gap that it fills and its digest, in the
    /// order of their keys. Where the tree has no key in the gap, the outline is empty. Over a gap that a page fills, the page that is
    /// opened is that page ([`outlines_lead_down`](crate::laws::outlines_lead_down)).
    ///
    /// It goes down the path to the gap, and compares keys as [`value_hash`](Self::value_hash) does, and takes memory for as many items as
    /// the page has nodes and pages right below it.
    ///
    /// ```rust crates/merkle_wire/src/outlines.rt
    /// match tree.outline(gap.as_gap())? {
    ///     Some(list) => Ok(list),
    ///     None => unreachable!(),
    /// }
    /// ```
    ///
    /// # Errors
    ///
    /// `AllocError` if memory runs out for the items.
    pub fn outline<'a>(
        &'a self,
        gap: Gap<'a, K>,
    ) -> Result<Option<Vec<OutlineItem<'a, N, K>>>, AllocError>
        ensures items { IfOk result (WhereHashed self.now (IsOutlineOver K.cmp K.bytes_of self.now (lent_gap gap.entry))) }
        ensures not_hashed { self.now.root_hash ≡ None → IsOk result }
    {
        if self.root_hash.is_none() {
            return Ok(None);
        }
        let mut list = Vec::new(self.alloc);
        let Some(page) = self.root.page_over(&gap) else {
            return Ok(Some(list));
        };
        page.list_items(gap, &mut list)?;
        Ok(Some(list))
    }
}

/// Whether the digest is cached.
fn has_digest(cached: &Option<PageDigest>, digest: &PageDigest) -> bool
    ensures { IsTrue result ↔ (cached.now ≡ Some digest.now) }
{
    match cached {
        None => false,
        Some(own) => *own == *digest,
    }
}
