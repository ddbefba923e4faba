//! Copies of pages and nodes.

ghost use Rattle.std.specs.Prelude.{◌≡◌, IfOk};
ghost use Rattle.merkle_tree_theory.specs.Tree.{held_of};
ghost use Rattle.merkle_tree_theory.specs.Copy.{IsCopy, HeldIsCopy, NodeIsCopy};
ghost use Rattle.merkle_diff.specs.SameEntries.{EqualBothWays};
ghost use Rattle.merkle_search_tree.specs.Copies.{ClonesAreEqual};

use crate::page::{Node, NodeOf, Page, PageOf};
use merkle_digest::PageDigest;
use std::alloc::{AllocError, Global};

impl<const N: usize, K: Clone + PartialEq> Node<N, K> {
    /// A copy of the node, of the page below it and of all cached digests there, with clones of the keys, one for each key. Where a
    /// clone of a key is equal to the key, the copy is equal to the node.
    ///
    /// # Errors
    ///
    /// `AllocError` if memory runs out: for a page or its nodes, or for the clone of a key.
    pub fn try_clone(&self, alloc: Global) -> Result<Self, AllocError>
        ensures copy { IfOk result (λ copy. NodeIsCopy K.is_clone (λ digest copied. copied ≡ digest) self.now copy) }
        ensures equal { ClonesAreEqual K.is_clone K.eq → IfOk result (EqualBothWays ⟦<Node<N, K> as PartialEq>⟧.eq self.now) }
    {
        self.copied(alloc)
    }
}

impl<const N: usize, K: Clone + PartialEq> Page<N, K> {
    /// A copy of the page, of those below it and of all cached digests, with clones of the keys, one for each key. Where a clone of a key
    /// is equal to the key, the copy is equal to the page.
    ///
    /// # Errors
    ///
    /// `AllocError` if memory runs out: for a page or its nodes, or for the clone of a key.
    pub fn try_clone(&self, alloc: Global) -> Result<Self, AllocError>
        ensures copy { IfOk result (λ copy. IsCopy K.is_clone (λ digest copied. copied ≡ digest) self.now copy) }
        ensures equal { ClonesAreEqual K.is_clone K.eq → IfOk result (EqualBothWays ⟦<Page<N, K> as PartialEq>⟧.eq self.now) }
    {
        self.copied(alloc)
    }
}

impl<K: Clone, D: Clone> NodeOf<K, D> {
    /// A copy of the node, of the page below it and of all cached digests there.
    #[cycle(copy)]
    fn copied(&self, alloc: Global) -> Result<Self, AllocError>
        ensures { IfOk result (λ copy. NodeIsCopy K.is_clone D.is_clone self.now copy) }
    {
        let lt_pointer = copy_below(alloc, &self.lt_pointer)?;
        Ok(NodeOf {
            key: self.key.clone()?,
            value_hash: self.value_hash.clone()?,
            lt_pointer,
        })
    }
}

impl<K: Clone, D: Clone> PageOf<K, D> {
    /// A copy of the page, of those below it and of all cached digests.
    #[cycle(copy)]
    fn copied(&self, alloc: Global) -> Result<Self, AllocError>
        ensures { IfOk result (λ copy. IsCopy K.is_clone D.is_clone self.now copy) }
    {
        let mut nodes = Vec::with_capacity(alloc, self.nodes.len())?;
        'nodes: for i in 0..self.nodes.len() {
            let node = &self.nodes[i];
            nodes.push(node.copied(alloc)?)?;
        }
        let high_page = copy_below(alloc, &self.high_page)?;
        Ok(PageOf {
            level: self.level,
            tree_hash: copy_digest(&self.tree_hash)?,
            nodes,
            high_page,
        })
    }
}

/// A copy of what a pointer holds.
#[cycle(copy)]
fn copy_below<K: Clone, D: Clone>(
    alloc: Global,
    held: &Option<Box<PageOf<K, D>>>,
) -> Result<Option<Box<PageOf<K, D>>>, AllocError>
    ensures { IfOk result (λ copy. HeldIsCopy K.is_clone D.is_clone (held_of held.now) (held_of copy)) }
{
    let Some(page) = held else {
        return Ok(None);
    };
    let copy = page.copied(alloc)?;
    Ok(Some(Box::new(alloc, copy)?))
}

/// A copy of a cached digest, where there is one. It never fails.
fn copy_digest(digest: &Option<PageDigest>) -> Result<Option<PageDigest>, AllocError>
    ensures { IfOk result (λ copy. copy ≡ digest.now) }
{
    match digest {
        None => Ok(None),
        Some(digest) => Ok(Some(digest.clone()?)),
    }
}
