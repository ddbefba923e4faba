//! The ranges of keys that pages hold.

ghost use Rattle.std.specs.Prelude.{◌≡◌, ℕ, ◌∷◌, [], OnOk};
ghost use Rattle.std.specs.Option.{option_map};
ghost use Rattle.merkle_diff.specs.PageRange.{entry};
ghost use Rattle.merkle_tree_theory.specs.Tree.{held_of};
ghost use Rattle.merkle_tree_theory.specs.Page.{pairs, held_pairs, LevelsFall, HeldFalls};
ghost use Rattle.merkle_tree_theory.specs.CachedRanges.{as_list, first_key_of, last_key_of, range_of, cached_ranges, held_cached, HasRange};
ghost use Rattle.merkle_search_tree.specs.Lists.{AddsRanges};

use crate::page::PageOf;
use merkle_diff::PageRange;
use merkle_digest::PageDigest;
use std::alloc::AllocError;

/// The first key of a page and those below it.
#[cycle(first)]
fn first_key<K, D>(page: &PageOf<K, D>) -> Option<&K>
    ensures { option_map (λ key. key.now) result ≡ first_key_of (pairs page.now) }
{
    match page.nodes.first() {
        None => first_key_below(&page.high_page),
        Some(node) => match first_key_below(&node.lt_pointer) {
            Some(key) => Some(key),
            None => Some(&node.key),
        },
    }
}

/// The first key of what a pointer holds.
#[cycle(first)]
fn first_key_below<K, D>(held: &Option<Box<PageOf<K, D>>>) -> Option<&K>
    ensures { option_map (λ key. key.now) result ≡ first_key_of (held_pairs (held_of held.now)) }
{
    match held {
        None => None,
        Some(page) => first_key(page),
    }
}

/// The first key of a page and those below it, where levels fall: on level 0 that of its first node, since no page is below.
fn least_key<K, D>(page: &PageOf<K, D>) -> Option<&K>
    requires { LevelsFall page.now }
    ensures { option_map (λ key. key.now) result ≡ first_key_of (pairs page.now) }
{
    if page.level > 0 {
        return first_key(page);
    }
    match page.nodes.first() {
        None => None,
        Some(node) => Some(&node.key),
    }
}

/// The last key of a page and those below it.
#[cycle(last)]
pub(crate) fn last_key<K, D>(page: &PageOf<K, D>) -> Option<&K>
    ensures { option_map (λ key. key.now) result ≡ last_key_of (pairs page.now) }
{
    match last_key_below(&page.high_page) {
        Some(key) => Some(key),
        None => match page.nodes.last() {
            Some(node) => Some(&node.key),
            None => None,
        },
    }
}

/// The last key of what a pointer holds.
#[cycle(last)]
fn last_key_below<K, D>(held: &Option<Box<PageOf<K, D>>>) -> Option<&K>
    ensures { option_map (λ key. key.now) result ≡ last_key_of (held_pairs (held_of held.now)) }
{
    match held {
        None => None,
        Some(page) => last_key(page),
    }
}

impl<K: Ord, D> PageOf<K, D> {
    /// From the first to the last key of the page and those below it, with the cached digest of the page. `None` without a node,
    /// without a cached digest, or where that first key is above the last. It looks at the pages on the way down to these two keys,
    /// compares them once, and takes no memory.
    pub fn page_range(&self) -> Option<PageRange<'_, K>>
        ensures { option_map entry result ≡ range_of K.cmp self.now }
    {
        let digest = self.tree_hash.as_ref()?;
        if self.nodes.is_empty() {
            return None;
        }
        let first = first_key(self)?;
        let last = last_key(self)?;
        PageRange::try_new(first, last, PageDigest::new(*digest.as_bytes()))
    }

    /// The range of a page that has one, as [`page_range`](Self::page_range) gives it. It compares no keys.
    pub(crate) fn hashed_range(&self) -> PageRange<'_, K>
        requires falls { LevelsFall self.now }
        requires range { HasRange K.cmp self.now }
        ensures { as_list (range_of K.cmp self.now) ≡ entry result ∷ [] }
    {
        let digest = match &self.tree_hash {
            Some(digest) => digest,
            None => unreachable!(),
        };
        let first = match least_key(self) {
            Some(key) => key,
            None => unreachable!(),
        };
        let last = match last_key(self) {
            Some(key) => key,
            None => unreachable!(),
        };
        PageRange::new(first, last, PageDigest::new(*digest.as_bytes()))
    }

    /// Adds the range of the page to a list, where it has one.
    fn list_own<'a>(&'a self, list: &mut Vec<PageRange<'a, K>>) -> Result<(), AllocError>
        ensures { OnOk result (AddsRanges (as_list (range_of K.cmp self.now)) list.old list.new) }
    {
        if let Some(range) = self.page_range() {
            list.push(range)?;
        }
        Ok(())
    }

    /// Adds the ranges of the page and those below it to a list, that of a page before those of the pages below it. Below a page of
    /// level 0 there is none to look for.
    #[cycle(list)]
    pub(crate) fn list_ranges<'a>(
        &'a self,
        list: &mut Vec<PageRange<'a, K>>,
    ) -> Result<(), AllocError>
        requires { LevelsFall self.now }
        ensures { OnOk result (AddsRanges (cached_ranges K.cmp self.now) list.old list.new) }
    {
        self.list_own(list)?;
        if self.level == 0 {
            return Ok(());
        }
        'nodes: for node in &self.nodes {
            list_below(&node.lt_pointer, list)?;
        }
        list_below(&self.high_page, list)
    }
}

/// Adds the ranges of what a pointer holds to a list.
#[cycle(list)]
fn list_below<'a, K: Ord, D>(
    held: &'a Option<Box<PageOf<K, D>>>,
    list: &mut Vec<PageRange<'a, K>>,
) -> Result<(), AllocError>
    requires { (above : ℕ) × HeldFalls above (held_of held.now) }
    ensures { OnOk result (AddsRanges (held_cached K.cmp (held_of held.now)) list.old list.new) }
{
    match held {
        None => Ok(()),
        Some(page) => page.list_ranges(list),
    }
}
