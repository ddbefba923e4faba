//! Room that is made before a page is written.

ghost use Rattle.std.specs.Prelude.{◌≡◌, ◌+◌, ◌≤◌, [], take, drop, None, IfOk};
ghost use Rattle.std.specs.Vec.{vec_len, vec_capacity};
ghost use Rattle.merkle_tree_theory.specs.Tree.{page};
ghost use Rattle.merkle_search_tree.specs.Rows.{as_row};

use crate::page::{NodeOf, PageOf};
use std::alloc::{AllocError, Global};

/// A page beside the tree, and room for its nodes. It has no model, so that contracts see the room.
#[derive(Drop)]
pub(crate) struct Spare<K, D> {
    pub(crate) page: Box<PageOf<K, D>>,
    pub(crate) nodes: Vec<NodeOf<K, D>>,
}

impl<K: Drop, D: Drop> Spare<K, D> {
    /// A page with room for `room` nodes.
    pub(crate) fn new(alloc: Global, room: usize) -> Result<Self, AllocError>
        ensures { IfOk result (λ spare. (spare.nodes.items ≡ []) × (room ≤ vec_capacity spare.nodes)) }
    {
        let nodes = Vec::with_capacity(alloc, room)?;
        let page = Box::new(alloc, PageOf::empty(alloc))?;
        Ok(Spare { page, nodes })
    }

    /// The page as one of a level, with the nodes that were put to its room, and with what stands above them.
    #[inline(always)]
    pub(crate) fn into_page(
        self,
        level: u8,
        high_page: Option<Box<PageOf<K, D>>>,
    ) -> Box<PageOf<K, D>>
        ensures { result.value ≡ page level None (as_row self.nodes.items high_page) }
    {
        let Spare { mut page, nodes } = self;
        *page = PageOf {
            level,
            tree_hash: None,
            nodes,
            high_page,
        };
        page
    }
}

/// Moves the elements from `at` on into an empty list that has room for them. It takes no memory, where `Vec::split_off` does.
pub(crate) fn move_tail<T>(from: &mut Vec<T>, at: usize, into: &mut Vec<T>)
    requires in_bounds { at ≤ vec_len from.old }
    requires empty { into.old.items ≡ [] }
    requires room { vec_len from.old ≤ at + vec_capacity into.old }
    ensures kept { from.new.items ≡ take at from.old.items }
    ensures moved { into.new.items ≡ drop at from.old.items }
{
    'tail: while from.len() > at {
        match from.pop() {
            Some(element) => into.push_reserved(element),
            None => unreachable!(),
        }
    }
    into.reverse();
}
