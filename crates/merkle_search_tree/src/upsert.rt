//! Setting a key in a subtree.

ghost use Rattle.std.specs.Prelude.{◌≡◌, ℕ, false, OnOk, OnErr, IfErr};
ghost use Rattle.key_order.specs.Map.{IsMap};
ghost use Rattle.merkle_tree_theory.specs.Page.{pairs, row_pairs, held_pairs};
ghost use Rattle.merkle_tree_theory.specs.Tree.{held_of};
ghost use Rattle.merkle_tree_theory.specs.Upsert.{level_order, lifted, row_put, tree_set, tree_finds, held_set, held_finds};
ghost use Rattle.merkle_search_tree.specs.Rows.{as_row, LacksKey};

use crate::page::{NodeOf, PageOf};
use crate::spare::Spare;
use crate::split::split_off_lt;
use crate::spot::search;
use std::alloc::{AllocError, Global};
use std::cmp::Ordering;
use std::error::Error;
use std::marker::Model;
use std::{fmt, mem};

/// An upsert that failed for lack of memory. It holds the key, and nothing in the tree has changed.
#[derive(Debug, Drop)]
pub struct UpsertRefused<K> {
    pub(crate) key: K,
}

impl<K> Model for UpsertRefused<K> {
    ghost Value = { K };

    ghost view = { λ refused. refused.key };
}

impl<K> UpsertRefused<K> {
    /// The key that was not set.
    pub fn into_key(self) -> K
        ensures { result ≡ self }
    {
        self.key
    }
}

/// Says that memory ran out, and that the key was not set.
impl<K> fmt::Display for UpsertRefused<K> {
    ghost use Rattle.std.specs.Prelude.{Some, codes};

    ghost output = { λ _. Some (codes "memory was refused, and the key was not set") };

    fn fmt<W: fmt::Write>(&self, f: &mut fmt::Formatter<W>) -> fmt::Result {
        write!(f, "memory was refused, and the key was not set")
    }
}

impl<K: fmt::Debug + Drop> Error for UpsertRefused<K> {}

/// Gives the key up.
impl<K: Drop> From<UpsertRefused<K>> for AllocError {
    fn from(_refused: UpsertRefused<K>) -> Self {
        AllocError
    }
}

impl<K: Ord + Drop, D: Drop> PageOf<K, D> {
    /// Puts a page with the key over this one, which is parted at the key.
    #[inline(never)]
    fn lift(&mut self, alloc: Global, key: K, level: u8, digest: D) -> Result<(), UpsertRefused<K>>
        requires ascending { IsMap K.cmp (pairs self.old) }
        ensures done { OnOk result (self.new ≡ lifted K.cmp level key digest self.old) }
        ensures unchanged { OnErr result (self.new ≡ self.old) }
        ensures returned { IfErr result (λ refused. refused ≡ key) }
    {
        let Ok(spare) = Spare::new(alloc, 1) else {
            return Err(UpsertRefused { key });
        };
        let Spare {
            page: mut home,
            mut nodes,
        } = spare;
        *home = mem::replace(self, PageOf::empty(alloc));
        let mut above = Some(home);
        let below = match split_off_lt(alloc, &mut above, &key) {
            Ok(below) => below,
            Err(_) => {
                match above {
                    Some(home) => *self = Box::into_inner(home),
                    None => unreachable!(),
                }
                return Err(UpsertRefused { key });
            }
        };
        nodes.push_reserved(NodeOf {
            key,
            value_hash: digest,
            lt_pointer: below,
        });
        *self = PageOf {
            level,
            tree_hash: None,
            nodes,
            high_page: above,
        };
        Ok(())
    }
}

/// Puts a key among the nodes of a page, or its digest where the key is there; what stands in its gap is parted at it.
fn set_in_page<K: Ord + Drop, D: Drop>(
    alloc: Global,
    nodes: &mut Vec<NodeOf<K, D>>,
    high_page: &mut Option<Box<PageOf<K, D>>>,
    key: K,
    digest: D,
) -> Result<(), UpsertRefused<K>>
    requires ascending { IsMap K.cmp (row_pairs (as_row nodes.old.items high_page.old)) }
    ensures done { OnOk result (as_row nodes.new.items high_page.new ≡ row_put K.cmp key digest (as_row nodes.old.items high_page.old)) }
    ensures unchanged { OnErr result (as_row nodes.new.items high_page.new ≡ as_row nodes.old.items high_page.old) }
    ensures returned { IfErr result (λ refused. refused ≡ key) }
    ensures absent { (level : ℕ) → OnErr result (LacksKey K.cmp level key digest (as_row nodes.old.items high_page.old)) }
{
    let spot = search(nodes, &key);
    let at = spot.at;
    if at == nodes.len() {
        if nodes.reserve(1).is_err() {
            return Err(UpsertRefused { key });
        }
        let Ok(low) = split_off_lt(alloc, high_page, &key) else {
            return Err(UpsertRefused { key });
        };
        nodes.push_reserved(NodeOf {
            key,
            value_hash: digest,
            lt_pointer: low,
        });
        return Ok(());
    }
    if spot.is_there {
        let found = &mut nodes[at];
        found.value_hash = digest;
        return Ok(());
    }
    if nodes.reserve(1).is_err() {
        return Err(UpsertRefused { key });
    }
    let Ok(low) = split_off_lt(alloc, &mut nodes[at].lt_pointer, &key) else {
        return Err(UpsertRefused { key });
    };
    let node = NodeOf {
        key,
        value_hash: digest,
        lt_pointer: low,
    };
    match nodes.insert(at, node) {
        Ok(()) => Ok(()),
        Err(_) => unreachable!(),
    }
}

impl<K, D> PageOf<K, D> {
    /// How a level compares with that of the page; a page without nodes is of every level.
    #[inline(always)]
    fn compare_level(&self, level: u8) -> Ordering
        ensures { result ≡ level_order level self.now }
    {
        if self.nodes.is_empty() {
            return Ordering::Equal;
        }
        level.cmp(&self.level)
    }
}

impl<K: Ord + Drop, D: Drop> PageOf<K, D> {
    /// Puts a key of the level into the subtree.
    #[cycle(set)]
    pub(crate) fn set(
        &mut self,
        alloc: Global,
        key: K,
        level: u8,
        digest: D,
    ) -> Result<(), UpsertRefused<K>>
        requires ascending { IsMap K.cmp (pairs self.old) }
        ensures done { OnOk result (self.new ≡ tree_set K.cmp level key digest self.old) }
        ensures unchanged { OnErr result (self.new ≡ self.old) }
        ensures returned { IfErr result (λ refused. refused ≡ key) }
        ensures absent { OnErr result (tree_finds K.cmp level key digest self.old ≡ false) }
    {
        match self.compare_level(level) {
            Ordering::Equal => {
                set_in_page(alloc, &mut self.nodes, &mut self.high_page, key, digest)?;
                self.level = level;
                self.tree_hash = None;
                Ok(())
            }
            Ordering::Greater => self.lift(alloc, key, level, digest),
            Ordering::Less => {
                let spot = search(&self.nodes, &key);
                let at = spot.at;
                if at == self.nodes.len() {
                    set_below(alloc, &mut self.high_page, key, level, digest)?;
                    self.tree_hash = None;
                    return Ok(());
                }
                if spot.is_there {
                    let found = &mut self.nodes[at];
                    found.value_hash = digest;
                    self.tree_hash = None;
                    return Ok(());
                }
                set_below(alloc, &mut self.nodes[at].lt_pointer, key, level, digest)?;
                self.tree_hash = None;
                Ok(())
            }
        }
    }
}

/// Puts a key of the level into what stands in a gap.
#[cycle(set)]
#[inline(always)]
fn set_below<K: Ord + Drop, D: Drop>(
    alloc: Global,
    held: &mut Option<Box<PageOf<K, D>>>,
    key: K,
    level: u8,
    digest: D,
) -> Result<(), UpsertRefused<K>>
    requires ascending { IsMap K.cmp (held_pairs (held_of held.old)) }
    ensures done { OnOk result (held_of held.new ≡ held_set K.cmp level key digest (held_of held.old)) }
    ensures unchanged { OnErr result (held_of held.new ≡ held_of held.old) }
    ensures returned { IfErr result (λ refused. refused ≡ key) }
    ensures absent { OnErr result (held_finds K.cmp level key digest (held_of held.old) ≡ false) }
{
    if let Some(page) = held {
        return page.set(alloc, key, level, digest);
    }
    let Ok(mut spare) = Spare::new(alloc, 1) else {
        return Err(UpsertRefused { key });
    };
    spare.nodes.push_reserved(NodeOf {
        key,
        value_hash: digest,
        lt_pointer: None,
    });
    *held = Some(spare.into_page(level, None));
    Ok(())
}
