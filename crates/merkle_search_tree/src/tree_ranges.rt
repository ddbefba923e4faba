//! The page ranges of a tree, by which peers compare what they hold.

ghost use Rattle.std.specs.Prelude.{◌≡◌, ◌≢◌, None, [], IfOk, IfSome, IsOk};
ghost use Rattle.merkle_diff.specs.PageRange.{entries};
ghost use Rattle.merkle_tree_theory.specs.State.{map_of};
ghost use Rattle.merkle_search_tree.specs.Pages.{page_ranges};
ghost use Rattle.merkle_search_tree.specs.WhereHashed.{WhereHashed};

use crate::page_range_iter::PageRangeIter;
use crate::tree::MerkleSearchTree;
use merkle_diff::PageRange;
use merkle_digest::{Hasher, KeyBytes};
use std::alloc::AllocError;

impl<K: Ord + KeyBytes, V, H: Hasher<N, K>, const N: usize> MerkleSearchTree<K, V, H, N> {
    /// The ranges of all pages, each with its digest, where the tree is hashed; else `None`. The range of a page comes before those
    /// of the pages below it, and that of the root first, so that peers can compare what they hold by
    /// [`diff`](merkle_diff::diff):
    ///
    /// ```rust crates/merkle_search_tree_kind_tests/src/doc_lines.rt
    /// local.root_hash();
    /// peer.root_hash();
    /// let ours = local.serialise_page_ranges()?;
    /// let theirs = peer.serialise_page_ranges()?;
    /// match (ours, theirs) {
    ///     (Some(ours), Some(theirs)) => diff(alloc, ours, theirs),
    ///     _ => Ok(Vec::new(alloc)),
    /// }
    /// ```
    ///
    /// It looks at each page, and for its first and last key at the pages on the way down to them; it hashes nothing.
    ///
    /// # Errors
    ///
    /// `AllocError` if memory runs out for the list, of one range a page. Neither `None` nor the empty list of a tree without keys
    /// takes memory.
    pub fn serialise_page_ranges(&self) -> Result<Option<Vec<PageRange<'_, K>>>, AllocError>
        ensures hashed { IfOk result (λ found. IfSome found (λ list. self.now.root_hash ≢ None)) }
        ensures ranges { IfOk result (WhereHashed self.now (λ list. entries list.items ≡ page_ranges K.bytes_of self.now)) }
        ensures not_hashed { self.now.root_hash ≡ None → IsOk result }
        ensures empty { map_of self.now ≡ [] → IsOk result }
    {
        if self.root_hash.is_none() {
            return Ok(None);
        }
        let mut list = Vec::new(self.alloc);
        if self.root.nodes().is_empty() {
            return Ok(Some(list));
        }
        self.root.list_ranges(&mut list)?;
        Ok(Some(list))
    }

    /// The ranges of all pages, as [`serialise_page_ranges`](Self::serialise_page_ranges) lists them, one at a time; `None` where the
    /// tree isn't hashed. It compares no keys, and goes to each page once, and for its first and last key down to the pages that have them.
    ///
    /// ```rust crates/c_trees/src/byte_tree.rt
    /// let _ = self.root_hash();
    /// match self.tree.page_range_iter()? {
    ///     Some(ranges) => encoded_len(ranges),
    ///     None => Err(AllocError),
    /// }
    /// ```
    ///
    /// # Errors
    ///
    /// `AllocError` if memory runs out for the pages on the way down, one more than the level of the root. Neither `None`
    /// nor the iterator of a tree without keys takes memory, and the iteration itself takes none.
    pub fn page_range_iter(&self) -> Result<Option<PageRangeIter<'_, N, K>>, AllocError>
        ensures hashed { IfOk result (λ found. IfSome found (λ rest. self.now.root_hash ≢ None)) }
        ensures ranges { IfOk result (WhereHashed self.now (λ rest. rest ≡ page_ranges K.bytes_of self.now)) }
        ensures not_hashed { self.now.root_hash ≡ None → IsOk result }
        ensures empty { map_of self.now ≡ [] → IsOk result }
    {
        if self.root_hash.is_none() {
            return Ok(None);
        }
        if self.root.nodes().is_empty() {
            return Ok(Some(PageRangeIter::none(self.alloc)));
        }
        Ok(Some(PageRangeIter::new(self.alloc, &self.root)?))
    }
}
