//! Taking a subtree apart at a key.

ghost use Rattle.std.specs.Prelude.{◌≡◌, ℕ, suc, ◌+◌, ◌<◌, ◌≤◌, [], OnOk, OnErr, IfOk};
ghost use Rattle.std.specs.Vec.{vec_capacity};
ghost use Rattle.std.specs.declared.cmp.Ordering.{Ordering};
ghost use Rattle.key_order.specs.Map.{IsMap};
ghost use Rattle.merkle_tree_theory.specs.Page.{held_pairs};
ghost use Rattle.merkle_tree_theory.specs.Tree.{Held, nothing, held_of};
ghost use Rattle.merkle_tree_theory.specs.Upsert.{held_lower, held_upper};
ghost use Rattle.merkle_tree_theory.specs.Chain.{page_length, high_of, first_of, with_high, with_first, row_take, row_drop, row_of_page, page_with_row};
ghost use Rattle.merkle_search_tree.specs.Parting.{PartsNodes};
ghost use Rattle.merkle_search_tree.specs.Split.{HaveRoom, InParts, IsGapAt, KeepsParts};

use crate::chain::Chain;
use crate::page::PageOf;
use crate::parting::{Parting, partings_of};
use crate::spare::{Spare, move_tail};
use std::alloc::{AllocError, Global};
use std::mem;

impl<K: Drop, D: Drop> PageOf<K, D> {
    /// Takes out what stands above the last node.
    fn take_high(&mut self) -> Option<Box<PageOf<K, D>>>
        ensures taken { held_of result ≡ high_of (row_of_page self.old) }
        ensures left { self.new ≡ page_with_row 0 self.old (with_high nothing (row_of_page self.old)) }
    {
        mem::replace(&mut self.high_page, None)
    }

    /// Takes out what stands below the first node.
    fn take_first(&mut self) -> Option<Box<PageOf<K, D>>>
        requires { 0 < page_length self.old }
        ensures taken { held_of result ≡ first_of (row_of_page self.old) }
        ensures left { self.new ≡ page_with_row 0 self.old (with_first nothing (row_of_page self.old)) }
    {
        let node = &mut self.nodes[0];
        mem::replace(&mut node.lt_pointer, None)
    }

    /// Parts the nodes of a page, which loses its digest: those from `at` on, and what is above them, go to a page beside the tree.
    fn part(&mut self, at: usize, mut spare: Spare<K, D>) -> Box<PageOf<K, D>>
        requires in_bounds { at ≤ page_length self.old }
        requires empty { spare.nodes.items ≡ [] }
        requires room { page_length self.old ≤ at + vec_capacity spare.nodes }
        ensures stays { self.new ≡ page_with_row 1 self.old (row_take at (row_of_page self.old)) }
        ensures goes { result.value ≡ page_with_row 1 self.old (row_drop at (row_of_page self.old)) }
    {
        move_tail(&mut self.nodes, at, &mut spare.nodes);
        self.nodes.shrink_to_fit();
        let above = mem::replace(&mut self.high_page, None);
        self.tree_hash = None;
        spare.into_page(self.level, above)
    }
}

/// The pages of a path on both sides of a key: those below it, and the rest.
#[derive(Drop)]
pub(crate) struct Sides<K, D> {
    pub(crate) below: Chain<K, D>,
    pub(crate) rest: Chain<K, D>,
}

impl<K: Drop, D: Drop> Sides<K, D> {
    /// No pages, with room for this many on each side.
    fn with_room(alloc: Global, room: usize) -> Result<Self, AllocError>
        ensures room { IfOk result (HaveRoom room) }
        ensures parts { (cmp : K → K → Ordering) (key : K) (whole : Held K D) → IfOk result (InParts cmp key whole whole) }
    {
        let below = Chain::with_room(alloc, room)?;
        let rest = Chain::with_room(alloc, room)?;
        Ok(Sides { below, rest })
    }

    /// Takes a page apart at its parting, puts its parts to the sides, and hands out what stands in its gap. The pages above keep
    /// their digests on a side only while there is nothing on the other.
    fn part_page(
        &mut self,
        mut page: Box<PageOf<K, D>>,
        parting: Parting<K, D>,
    ) -> Option<Box<PageOf<K, D>>>
        requires parting { PartsNodes (page_length page.value) parting }
        requires room { HaveRoom 1 self.old }
        ensures room { (more : ℕ) → HaveRoom (suc more) self.old → HaveRoom more self.new }
        ensures gap { IsGapAt page.value parting (held_of result) }
        ensures parts { KeepsParts page.value parting self.old (held_of result) self.new }
    {
        match parting {
            Parting::Start => {
                let first = page.take_first();
                self.below.forget();
                self.rest.push(page);
                first
            }
            Parting::Inside { at, spare } => {
                let mut upper = page.part(at, spare);
                let first = upper.take_first();
                self.below.push(page);
                self.rest.push(upper);
                self.below.forget();
                self.rest.forget();
                first
            }
            Parting::End => {
                let high = page.take_high();
                self.rest.forget();
                self.below.push(page);
                high
            }
        }
    }
}

/// Leaves the part of a subtree that is not below the key, and hands out the part below it. A page keeps its cached digest where
/// its whole subtree is in one part. Refused, it changes no page: all room is made before the first page is written.
pub(crate) fn split_off_lt<K: Ord + Drop, D: Drop>(
    alloc: Global,
    held: &mut Option<Box<PageOf<K, D>>>,
    key: &K,
) -> Result<Option<Box<PageOf<K, D>>>, AllocError>
    requires ascending { IsMap K.cmp (held_pairs (held_of held.old)) }
    ensures rest { OnOk result (held_of held.new ≡ held_upper K.cmp key.now (held_of held.old)) }
    ensures below { IfOk result (λ low. held_of low ≡ held_lower K.cmp key.now (held_of held.old)) }
    ensures unchanged { OnErr result (held_of held.new ≡ held_of held.old) }
{
    if held.is_none() {
        return Ok(None);
    }
    let partings = partings_of(alloc, held, key)?;
    let mut sides = Sides::with_room(alloc, partings.len())?;
    let mut path = mem::replace(held, None);
    'path: for parting in partings {
        path = match path {
            Some(page) => sides.part_page(page, parting),
            None => unreachable!(),
        };
    }
    let Sides { below, rest } = sides;
    *held = rest.hang_rest();
    Ok(below.hang_below())
}
