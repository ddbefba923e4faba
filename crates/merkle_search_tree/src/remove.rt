//! Taking a key out of a subtree.

ghost use Rattle.std.specs.Prelude.{◌≡◌, ◌⊎◌, ◌<◌, length, Some, None, OnOk, OnErr, IfOk, IsOk};
ghost use Rattle.std.specs.Vec.{vec_len};
ghost use Rattle.key_order.specs.Map.{IsMap};
ghost use Rattle.merkle_tree_theory.specs.Page.{pairs, held_pairs};
ghost use Rattle.merkle_tree_theory.specs.Tree.{high, nothing, held_of};
ghost use Rattle.merkle_tree_theory.specs.Remove.{held_join, row_append, held_del, tree_without, root_del, held_entry, tree_entry};
ghost use Rattle.merkle_tree_theory.specs.Remove.{row_without, pair_at, IsNothing, BeginsFree, IsFreeAt, HasFreeGap, HeldHasFreeGap};
ghost use Rattle.merkle_search_tree.specs.Removals.{ChangesIfFound};
ghost use Rattle.merkle_search_tree.specs.Rows.{as_row};

use crate::page::{NodeOf, PageOf};
use crate::spot::search;
use std::alloc::{AllocError, Global};
use std::cmp::Ordering;
use std::mem;

/// Joins what stands in two neighbouring gaps: it comes to `upper`, and `lower` is left empty. Refused, it changes no page: all room
/// is made on the way down, in the pages where they stand, and pages are written on the way back.
#[cycle(join)]
fn join_below<K: Drop, D: Drop>(
    lower: &mut Option<Box<PageOf<K, D>>>,
    upper: &mut Option<Box<PageOf<K, D>>>,
) -> Result<(), AllocError>
    ensures joined { OnOk result (held_of upper.new ≡ held_join (held_of lower.old) (held_of upper.old)) }
    ensures emptied { OnOk result (held_of lower.new ≡ nothing) }
    ensures lower_unchanged { OnErr result (held_of lower.new ≡ held_of lower.old) }
    ensures upper_unchanged { OnErr result (held_of upper.new ≡ held_of upper.old) }
    ensures succeeds { IsNothing (held_of lower.old) ⊎ IsNothing (held_of upper.old) → IsOk result }
{
    let Some(page) = lower else {
        return Ok(());
    };
    let low = &mut **page;
    let Some(page) = upper else {
        mem::swap(lower, upper);
        return Ok(());
    };
    let up = &mut **page;
    match low.level.cmp(&up.level) {
        Ordering::Less => {
            join_first(lower, &mut up.nodes, &mut up.high_page)?;
            up.tree_hash = None;
            Ok(())
        }
        Ordering::Equal => {
            low.nodes.reserve(up.nodes.len())?;
            join_first(&mut low.high_page, &mut up.nodes, &mut up.high_page)?;
            match low.nodes.append(&mut up.nodes) {
                Ok(()) => {}
                Err(_) => unreachable!(),
            }
            mem::swap(&mut low.high_page, &mut up.high_page);
            low.tree_hash = None;
            mem::swap(lower, upper);
            *lower = None;
            Ok(())
        }
        Ordering::Greater => {
            join_below(&mut low.high_page, upper)?;
            mem::swap(&mut low.high_page, upper);
            low.tree_hash = None;
            mem::swap(lower, upper);
            Ok(())
        }
    }
}

/// Joins what stands in a gap before nodes and their high page into their first gap, and leaves `lower` empty.
#[cycle(join)]
fn join_first<K: Drop, D: Drop>(
    lower: &mut Option<Box<PageOf<K, D>>>,
    nodes: &mut [NodeOf<K, D>],
    high_page: &mut Option<Box<PageOf<K, D>>>,
) -> Result<(), AllocError>
    ensures joined { OnOk result (as_row nodes.new high_page.new ≡ row_append (high (held_of lower.old)) (as_row nodes.old high_page.old)) }
    ensures emptied { OnOk result (held_of lower.new ≡ nothing) }
    ensures lower_unchanged { OnErr result (held_of lower.new ≡ held_of lower.old) }
    ensures nodes_unchanged { OnErr result (nodes.new ≡ nodes.old) }
    ensures high_unchanged { OnErr result (held_of high_page.new ≡ held_of high_page.old) }
    ensures len { length nodes.new ≡ length nodes.old }
    ensures succeeds { IsNothing (held_of lower.old) ⊎ BeginsFree (as_row nodes.old high_page.old) → IsOk result }
{
    if nodes.is_empty() {
        return join_below(lower, high_page);
    }
    let first = &mut nodes[0];
    join_below(lower, &mut first.lt_pointer)
}

/// Takes out the node at a place, and joins the gaps on both sides of it.
fn take_out<K: Drop, D: Drop>(
    nodes: &mut Vec<NodeOf<K, D>>,
    high_page: &mut Option<Box<PageOf<K, D>>>,
    at: usize,
) -> Result<(K, D), AllocError>
    requires { at < vec_len nodes.old }
    ensures joined { OnOk result (as_row nodes.new.items high_page.new ≡ row_without at (as_row nodes.old.items high_page.old)) }
    ensures taken { IfOk result (λ entry. Some entry ≡ pair_at at nodes.old.items) }
    ensures nodes_unchanged { OnErr result (nodes.new.items ≡ nodes.old.items) }
    ensures high_unchanged { OnErr result (held_of high_page.new ≡ held_of high_page.old) }
    ensures succeeds { IsFreeAt at (as_row nodes.old.items high_page.old) → IsOk result }
{
    let node = &mut nodes[at];
    let mut low = mem::replace(&mut node.lt_pointer, None);
    match join_first(&mut low, &mut nodes[at + 1..], high_page) {
        Ok(()) => {}
        Err(error) => {
            let node = &mut nodes[at];
            node.lt_pointer = low;
            return Err(error);
        }
    }
    let node = nodes.remove(at);
    Ok((node.key, node.value_hash))
}

impl<K: Ord + Drop, D: Drop> PageOf<K, D> {
    /// Takes a key out of the subtree, and hands out the stored key and its value digest, or `None` where the key isn't there. It
    /// may leave the page without nodes.
    #[cycle(remove)]
    fn remove(&mut self, key: &K) -> Result<Option<(K, D)>, AllocError>
        requires ascending { IsMap K.cmp (pairs self.old) }
        ensures found { IfOk result (λ found. found ≡ tree_entry K.cmp key.now self.old) }
        ensures done { IfOk result (ChangesIfFound (tree_without K.cmp key.now) self.old self.new) }
        ensures unchanged { OnErr result (self.new ≡ self.old) }
        ensures succeeds { HasFreeGap K.cmp key.now self.old → IsOk result }
    {
        let spot = search(&self.nodes, key);
        let at = spot.at;
        if at == self.nodes.len() {
            let Some(entry) = remove_below(&mut self.high_page, key)? else {
                return Ok(None);
            };
            self.tree_hash = None;
            return Ok(Some(entry));
        }
        if spot.is_there {
            let entry = take_out(&mut self.nodes, &mut self.high_page, at)?;
            self.tree_hash = None;
            return Ok(Some(entry));
        }
        let node = &mut self.nodes[at];
        let Some(entry) = remove_below(&mut node.lt_pointer, key)? else {
            return Ok(None);
        };
        self.tree_hash = None;
        Ok(Some(entry))
    }
}

/// Takes a key out of what stands in a gap. A page left without nodes gives way to what stands in its one gap.
#[cycle(remove)]
fn remove_below<K: Ord + Drop, D: Drop>(
    held: &mut Option<Box<PageOf<K, D>>>,
    key: &K,
) -> Result<Option<(K, D)>, AllocError>
    requires ascending { IsMap K.cmp (held_pairs (held_of held.old)) }
    ensures found { IfOk result (λ found. found ≡ held_entry K.cmp key.now (held_of held.old)) }
    ensures done { IfOk result (ChangesIfFound (held_del K.cmp key.now) (held_of held.old) (held_of held.new)) }
    ensures unchanged { OnErr result (held_of held.new ≡ held_of held.old) }
    ensures succeeds { HeldHasFreeGap K.cmp key.now (held_of held.old) → IsOk result }
{
    let Some(page) = held else {
        return Ok(None);
    };
    let Some(entry) = page.remove(key)? else {
        return Ok(None);
    };
    if page.nodes.is_empty() {
        let rest = mem::replace(&mut page.high_page, None);
        *held = rest;
    }
    Ok(Some(entry))
}

impl<K: Ord + Drop, D: Drop> PageOf<K, D> {
    /// Takes a key out of a root page. A root left without nodes gives way to what stands in its one gap, or is the page of level 0
    /// without nodes.
    pub(crate) fn remove_from_root(
        &mut self,
        alloc: Global,
        key: &K,
    ) -> Result<Option<(K, D)>, AllocError>
        requires ascending { IsMap K.cmp (pairs self.old) }
        ensures found { IfOk result (λ found. found ≡ tree_entry K.cmp key.now self.old) }
        ensures done { IfOk result (ChangesIfFound (root_del K.cmp key.now) self.old self.new) }
        ensures unchanged { OnErr result (self.new ≡ self.old) }
        ensures succeeds { HasFreeGap K.cmp key.now self.old → IsOk result }
    {
        let Some(entry) = self.remove(key)? else {
            return Ok(None);
        };
        if self.nodes.is_empty() {
            match mem::replace(&mut self.high_page, None) {
                None => *self = PageOf::empty(alloc),
                Some(mut page) => *self = mem::replace(&mut *page, PageOf::empty(alloc)),
            }
        }
        Ok(Some(entry))
    }
}
