//! Pages of a path, and how they are hung together.

ghost use Rattle.std.specs.Prelude.{◌≡◌, ◌<◌, ◌≤◌, [], ◌∷◌, ◌++◌, IfOk};
ghost use Rattle.std.specs.Vec.{vec_len, vec_capacity};
ghost use Rattle.merkle_tree_theory.specs.Tree.{nothing, held_of};
ghost use Rattle.merkle_tree_theory.specs.Chain.{page_length, with_high, with_first, row_of_page, page_with_row, page_chain, HaveNodes};
ghost use Rattle.merkle_search_tree.specs.Split.{IsEmptyChain};

use crate::page::PageOf;
use std::alloc::{AllocError, Global};

impl<K: Drop, D: Drop> PageOf<K, D> {
    /// Hangs a page above the last node.
    pub(crate) fn hang_high(&mut self, held: Option<Box<PageOf<K, D>>>)
        ensures { self.new ≡ page_with_row 0 self.old (with_high (held_of held) (row_of_page self.old)) }
    {
        self.high_page = held;
    }

    /// Hangs a page below the first node.
    fn hang_first(&mut self, held: Option<Box<PageOf<K, D>>>)
        requires { 0 < page_length self.old }
        ensures { self.new ≡ page_with_row 0 self.old (with_first (held_of held) (row_of_page self.old)) }
    {
        let node = &mut self.nodes[0];
        node.lt_pointer = held;
    }

    /// Drops the digest.
    fn drop_digest(&mut self)
        ensures { self.new ≡ page_with_row 1 self.old (row_of_page self.old) }
    {
        self.tree_hash = None;
    }
}

/// Pages of a path, the topmost first. The first `stale` of them lose their digests.
#[derive(Drop)]
pub(crate) struct Chain<K, D> {
    pub(crate) pages: Vec<Box<PageOf<K, D>>>,
    pub(crate) stale: usize,
}

impl<K: Drop, D: Drop> Chain<K, D> {
    /// No pages, with room for this many.
    pub(crate) fn with_room(alloc: Global, room: usize) -> Result<Self, AllocError>
        ensures { IfOk result (IsEmptyChain room) }
    {
        let pages = Vec::with_capacity(alloc, room)?;
        Ok(Chain { pages, stale: 0 })
    }

    /// Puts a page below the others.
    pub(crate) fn push(&mut self, page: Box<PageOf<K, D>>)
        requires room { vec_len self.old.pages < vec_capacity self.old.pages }
        ensures pages { self.new.pages.items ≡ self.old.pages.items ++ page ∷ [] }
        ensures room { vec_capacity self.old.pages ≤ vec_capacity self.new.pages }
        ensures stale { self.new.stale ≡ self.old.stale }
    {
        self.pages.push_reserved(page);
    }

    /// Says that all pages lose their digests.
    pub(crate) fn forget(&mut self)
        ensures pages { self.new.pages ≡ self.old.pages }
        ensures stale { self.new.stale ≡ vec_len self.old.pages }
    {
        self.stale = self.pages.len();
    }

    /// Hangs each page above the last node of the one before it.
    pub(crate) fn hang_below(self) -> Option<Box<PageOf<K, D>>>
        ensures { held_of result ≡ page_chain with_high self.stale self.pages.items nothing }
    {
        let Chain { mut pages, stale } = self;
        let mut held = None;
        'hang: while let Some(mut page) = pages.pop() {
            page.hang_high(held);
            if pages.len() < stale {
                page.drop_digest();
            }
            held = Some(page);
        }
        held
    }

    /// Hangs each page below the first node of the one before it.
    pub(crate) fn hang_rest(self) -> Option<Box<PageOf<K, D>>>
        requires { HaveNodes self.pages.items }
        ensures { held_of result ≡ page_chain with_first self.stale self.pages.items nothing }
    {
        let Chain { mut pages, stale } = self;
        let mut held = None;
        'hang: while let Some(mut page) = pages.pop() {
            page.hang_first(held);
            if pages.len() < stale {
                page.drop_digest();
            }
            held = Some(page);
        }
        held
    }
}
