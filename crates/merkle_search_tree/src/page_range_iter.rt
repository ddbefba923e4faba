//! The ranges of keys that pages hold, one at a time.

ghost use Rattle.std.specs.Prelude.{◌≡◌, ◌+◌, ◌<◌, ◌++◌, [], IfOk};
ghost use Rattle.std.specs.List.{AllByRecursion};
ghost use Rattle.std.specs.Vec.{vec_len, vec_capacity};
ghost use Rattle.merkle_diff.specs.PageRange.{entry};
ghost use Rattle.merkle_tree_theory.specs.Tree.{held_of};
ghost use Rattle.merkle_tree_theory.specs.Page.{level, pages_in_order, pages_below, LevelsFall};
ghost use Rattle.merkle_search_tree.specs.Path.{pages_left, pages_with, HasRoom, PathFits};
ghost use Rattle.merkle_search_tree.specs.PagesToCome.{pages_to_come, NextFits};
ghost use Rattle.merkle_tree_theory.specs.CachedRanges.{ranges_to_come, HasRange};

use crate::page::PageOf;
use crate::path::{Visit, enter, pass};
use merkle_diff::PageRange;
use merkle_digest::ValueDigest;
use std::alloc::{AllocError, Global};
use std::marker::Model;

/// The ranges of the pages of a tree whose value digests have `N` bytes, each before those of the pages below it.
pub type PageRangeIter<'a, const N: usize, K> = PageRangeIterOf<'a, K, ValueDigest<N>>;

/// The ranges of the pages of a hashed tree, each with its digest, and each before those of the pages below it. A contract sees the
/// list of those that are left. It has room for a page of each level, so that `next` takes no memory.
///
/// `D` is the type of the value digests: callers name the alias [`PageRangeIter`].
pub struct PageRangeIterOf<'a, K: Ord, D> {
    upcoming: Option<&'a PageOf<K, D>>,
    path: Vec<Visit<'a, K, D>>,
}

// Written out, so that a caller doesn't prove again how each part is dropped.
impl<'a, K: Ord, D> Drop for PageRangeIterOf<'a, K, D> {
    fn drop(self) {
        let PageRangeIterOf {
            upcoming: _,
            path: _,
        } = self;
    }
}

impl<'a, K: Ord, D> Model for PageRangeIterOf<'a, K, D> {
    ghost use Rattle.std.specs.Prelude.{ℕ, List};
    ghost use Rattle.std.specs.Coded.{coded_list, coded_ℕ};
    ghost use Rattle.std.specs.Vec.{vec_len, vec_capacity};
    ghost use Rattle.merkle_diff.specs.Entry.{Entry, entry_code};

    ghost Value = { List (Entry K (List ℕ)) };

    ghost coded = { coded_list (entry_code K.code (coded_list coded_ℕ)) };

    ghost use Rattle.merkle_search_tree.specs.PagesToCome.{pages_to_come, IsIteration};
    ghost use Rattle.merkle_tree_theory.specs.CachedRanges.{ranges_to_come};

    ghost view = { λ a. ranges_to_come K.cmp (pages_to_come a.upcoming a.path.items) };

    ghost invariant = { λ a. IsIteration K.cmp (vec_len a.path) (vec_capacity a.path) a.upcoming a.path.items };
}

impl<'a, K: Ord, D> PageRangeIterOf<'a, K, D> {
    /// The ranges of a page and of those below it. Room for the level of the page and one page more is made here.
    pub(crate) fn new(alloc: Global, root: &'a PageOf<K, D>) -> Result<Self, AllocError>
        requires falls { LevelsFall root.now }
        requires ranges { AllByRecursion (HasRange K.cmp) (pages_in_order root.now) }
        ensures { IfOk result (λ rest. rest ≡ ranges_to_come K.cmp (pages_in_order root.now)) }
    {
        let path = Vec::with_capacity(alloc, root.level as usize + 1)?;
        Ok(PageRangeIterOf {
            upcoming: Some(root),
            path,
        })
    }

    /// No range. It takes no memory.
    pub(crate) fn none(alloc: Global) -> Self
        ensures { result ≡ [] }
    {
        PageRangeIterOf {
            upcoming: None,
            path: Vec::new(alloc),
        }
    }
}

impl<'a, K: Ord, D> Iterator for PageRangeIterOf<'a, K, D> {
    type Item = PageRange<'a, K>;

    ghost use Rattle.std.specs.Iterator.{YieldsFirstBy, item_count};

    ghost next_gives = { YieldsFirstBy entry (λ rest. rest) };

    ghost remaining = { item_count (λ rest. rest) };

    fn next(&mut self) -> Option<PageRange<'a, K>> {
        let page = self.upcoming?;
        self.upcoming = behind(&mut self.path, page);
        Some(page.hashed_range())
    }
}

/// Takes the page after this one off the path, that is the first page below it or, where there is none, that which comes next. Below
/// a page of level 0 there is none to look for.
fn behind<'a, K, D>(
    path: &mut Vec<Visit<'a, K, D>>,
    page: &'a PageOf<K, D>,
) -> Option<&'a PageOf<K, D>>
    requires falls { LevelsFall page.now }
    requires room { vec_len path.old + level page.now < vec_capacity path.old }
    requires path_fits { PathFits (vec_capacity path.old) 0 path.old.items }
    ensures fits { PathFits (vec_capacity path.new) 0 path.new.items }
    ensures next_fits { NextFits (vec_len path.new) (vec_capacity path.new) result path.new.items }
    ensures pages { pages_below page.now ++ pages_left path.old.items ≡ pages_to_come result path.new.items }
{
    if page.level == 0 {
        return first_page(path, &page.high_page);
    }
    let below = enter(path, page);
    first_page(path, below)
}

/// The page that a pointer holds or, where it holds none, the next page, which is taken off the path.
fn first_page<'a, K, D>(
    path: &mut Vec<Visit<'a, K, D>>,
    held: &'a Option<Box<PageOf<K, D>>>,
) -> Option<&'a PageOf<K, D>>
    requires room { HasRoom (vec_len path.old) (vec_capacity path.old) (held_of held.now) }
    requires path_fits { PathFits (vec_capacity path.old) 0 path.old.items }
    ensures fits { PathFits (vec_capacity path.new) 0 path.new.items }
    ensures next_fits { NextFits (vec_len path.new) (vec_capacity path.new) result path.new.items }
    ensures pages { pages_with (held_of held.now) path.old.items ≡ pages_to_come result path.new.items }
{
    let mut held = held;
    'up: while held.is_none() {
        held = match pass(path) {
            None => return None,
            Some((_, behind)) => behind,
        };
    }
    match held {
        None => None,
        Some(page) => Some(page),
    }
}
