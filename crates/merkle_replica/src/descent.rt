//! The rounds of a catch-up: outlines of pages of the peer, and what they leave to look for.

ghost use Rattle.std.specs.Prelude.{◌≡◌, ◌↔◌, IfOk, IsSome, OnOk, IsTrue};
ghost use Rattle.std.specs.Option.{option_map};
ghost use Rattle.key_order.specs.Map.{get};
ghost use Rattle.merkle_search_tree.specs.Items.{lent_gap, items as items_of};
ghost use Rattle.merkle_replica.specs.Contents.{side, tree_map};
ghost use Rattle.merkle_replica.specs.Descent.{LeaveToAsk, AddsToAsk, HasDigestAt, node_count as count_of, outlines_over};
ghost use Rattle.merkle_replica.specs.Missing.{has_page_over};

use crate::laws::a_replica_has_the_tree_of_its_rows;
use crate::replica::Replica;
use crate::row_hasher::RowHasher;
use key_order::Join;
use merkle_digest::{Key, PageDigest, ValueDigest};
use merkle_search_tree::laws::{a_map_has_one_tree, equal_pages_have_equal_maps};
use merkle_search_tree::{Gap, OutlineItem, OutlineItemOf};
use std::alloc::AllocError;

/// What is still to be looked for in a peer.
#[derive(Drop)]
pub(crate) struct ToAsk<'a, K> {
    /// The gaps that pages of the peer fill which this side doesn't have: these are opened next.
    pub(crate) gaps: Vec<Gap<'a, K>>,
    /// Keys of the peer that this side lacks, or has with another digest.
    pub(crate) keys: Vec<&'a K>,
}

impl<K: Key + Drop, V: Join + Drop, H: RowHasher<N, K, V>, const N: usize> Replica<K, V, H, N> {
    /// The outlines over these gaps, one after the other, where the tree is hashed. It goes down one path of the tree for each gap, and takes
    /// memory for the items alone.
    pub(crate) fn outlines<'a>(
        &'a self,
        gaps: &[Gap<'a, K>],
    ) -> Result<Vec<OutlineItem<'a, N, K>>, AllocError>
        requires hashed { IsSome self.now.tree.root_hash }
        ensures { IfOk result (λ list. items_of list.items ≡ outlines_over K.bytes_of K.cmp self.now.tree gaps.now) }
    {
        let mut all = Vec::new(self.alloc);
        'gaps: for gap in gaps {
            match self.tree().outline(gap.copied())? {
                Some(mut outline) => all.append(&mut outline)?,
                None => unreachable!(),
            }
        }
        Ok(all)
    }

    /// What the items of a peer leave to look for: the pages that this side doesn't have, and the keys of the nodes that it lacks or has with
    /// another digest. Each page and each key is looked up in the tree of this side, down one path.
    pub(crate) fn sort_out<'a>(
        &self,
        came: &[OutlineItem<'a, N, K>],
    ) -> Result<ToAsk<'a, K>, AllocError>
        requires hashed { IsSome self.now.tree.root_hash }
        ensures { IfOk result (LeaveToAsk H.laws (side self.now) came.now) }
    {
        let mut asked = ToAsk {
            gaps: Vec::new(self.alloc),
            keys: Vec::new(self.alloc),
        };
        'items: for item in came {
            self.sort_one(item, &mut asked)?;
        }
        Ok(asked)
    }

    /// Adds what an item leaves to look for.
    fn sort_one<'a>(
        &self,
        item: &OutlineItem<'a, N, K>,
        asked: &mut ToAsk<'a, K>,
    ) -> Result<(), AllocError>
        requires hashed { IsSome self.now.tree.root_hash }
        ensures { OnOk result (AddsToAsk H.laws (side self.now) item.now asked.old asked.new) }
    {
        match item {
            OutlineItem::Node(key, digest) => {
                if self.has_digest(*key, *digest) {
                    return Ok(());
                }
                asked.keys.push(*key)?;
                Ok(())
            }
            OutlineItem::Page(gap, digest) => {
                if self.has_page(gap, *digest) {
                    return Ok(());
                }
                asked.gaps.push(gap.copied())?;
                Ok(())
            }
        }
    }

    /// The digest of the value at a key, where the key is there. It goes down one path of the tree, and takes no memory.
    ///
    /// ```rust crates/merkle_audit/src/nodes.rt
    /// match local.value_hash(key) {
    ///     Some(own) => *own == *digest,
    ///     None => false,
    /// }
    /// ```
    pub fn value_hash(&self, key: &K) -> Option<&ValueDigest<N>>
        ensures { option_map (λ digest. digest.now) result ≡ get K.cmp (tree_map H.laws (side self.now)) key.now }
    {
        self.tree().value_hash(key)
    }

    /// Whether the key is there with this digest of its value.
    fn has_digest(&self, key: &K, digest: &ValueDigest<N>) -> bool
        ensures { IsTrue result ↔ HasDigestAt H.laws (side self.now) key.now digest.now }
    {
        match self.value_hash(key) {
            Some(own) => *own == *digest,
            None => false,
        }
    }

    /// Whether the page over the gap has this digest, where the tree is hashed. It goes down one path of the tree.
    fn has_page(&self, gap: &Gap<'_, K>, digest: &PageDigest) -> bool
        requires hashed { IsSome self.now.tree.root_hash }
        ensures { result ≡ has_page_over H.laws (side self.now) (lent_gap gap.now) digest.now }
    {
        a_replica_has_the_tree_of_its_rows(self);
        a_map_has_one_tree::<K, H, N>();
        equal_pages_have_equal_maps::<K>();
        self.tree().has_page(gap, digest)
    }
}

/// How many of the items are nodes.
pub(crate) fn node_count<K, D>(items: &[OutlineItemOf<'_, K, D>]) -> usize
    ensures { result ≡ count_of (items_of items.now) }
{
    let mut count = 0;
    'items: for item in items {
        if let OutlineItemOf::Node(_, _) = item {
            count += 1;
        }
    }
    count
}
