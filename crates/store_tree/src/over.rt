//! The page over a gap.
ghost use Rattle.std.specs.Prelude.{◌≡◌};
ghost use Rattle.store_file.specs.Logs.{Makes, MakesAndFinds};
ghost use Rattle.store_file.specs.Transactions.{CommitsNothing};
ghost use Rattle.store_file.specs.declared.catalog.TheConstants.{CELLS as TREE};
ghost use Rattle.store_tree.specs.Calls.{FindsInTree, SaysPage};
ghost use Rattle.store_tree.specs.Overs.{FindsLeaf, FindsOver, is_first_in as first_in};
ghost use Rattle.store_tree.specs.Pages.{text_gap};
ghost use Rattle.store_tree.specs.Tables.{HasTable, KeepsOthers};

use crate::cell::Known;
use crate::digest::known_of;
use crate::fault::TreeFault;
use crate::fill::page_below;
use crate::page::Page;
use crate::pairs::{DIGEST_LEN, Pairs, leaf_of};
use crate::place::{Place, is_above, is_under, place_over};
use merkle_digest::{PageDigest, ValueDigest};
use sqlite_trees::store::Store;
use std::alloc::Global;

/// The page over a gap.
#[derive(Drop)]
pub(crate) struct PageOver {
    /// Its level.
    pub(crate) level: u8,
    /// The gap of the level above that it stands in.
    pub(crate) place: Place,
    /// Its nodes, and what stands between them.
    pub(crate) page: Page,
}

/// Whether the first pair above where a gap begins is in it.
#[tactic(auto, using(crate::proofs::Overs::firsts))]
fn is_first_in(
    pairs: &[(String, ValueDigest<DIGEST_LEN>)],
    after: &Option<String>,
    before: &Option<String>,
) -> bool
    ensures { result ≡ first_in (text_gap after.now before.now) pairs.now }
{
    'pairs: for pair in pairs {
        if is_above(after, &pair.0) {
            return is_under(before, &pair.0);
        }
    }
    false
}

/// The page of level 0 in a place, if one of its keys is in a gap.
fn leaf_over<S: Store, P: Pairs<S>>(
    alloc: Global,
    trees: &mut S,
    pairs: &P,
    place: Place,
    after: &Option<String>,
    before: &Option<String>,
) -> Result<Option<PageOver>, TreeFault>
    requires table { HasTable S.Store trees.old }
    ensures found { MakesAndFinds S.Store trees.old trees.new result (λ old new. FindsLeaf (P.hold pairs.now old) (text_gap after.now before.now) (old TREE) (new TREE) place) }
    ensures others { Makes S.Store trees.old trees.new result KeepsOthers }
    ensures uncommitted { CommitsNothing S.Store trees.old trees.new }
{
    let found = pairs.within(alloc, trees, &place.front, &place.before)?;
    if !is_first_in(&found, after, before) {
        return Ok(None);
    }
    let page = leaf_of(alloc, found)?;
    Ok(Some(PageOver {
        level: 0,
        place,
        page,
    }))
}

/// The page with a key in a gap, as the tree of the map has it, or that there is none: this page has all keys of the map in the gap. What isn't known
/// of the gaps between its nodes is found out and noted.
pub(crate) fn page_over<S: Store, P: Pairs<S>>(
    alloc: Global,
    trees: &mut S,
    pairs: &P,
    after: &Option<String>,
    before: &Option<String>,
) -> Result<Option<PageOver>, TreeFault>
    requires table { HasTable S.Store trees.old }
    // Of whatever map the rows are the gaps, they stay those, and this is the page of its tree over the gap.
    ensures over { MakesAndFinds S.Store trees.old trees.new result (λ old new. FindsOver (P.hold pairs.now old) (text_gap after.now before.now) (old TREE) (new TREE)) }
    ensures others { Makes S.Store trees.old trees.new result KeepsOthers }
    ensures uncommitted { CommitsNothing S.Store trees.old trees.new }
{
    let place = place_over(alloc, trees, after, before)?;
    if place.level == 0 {
        return Ok(None);
    }
    if place.level == 1 {
        let leaf = leaf_over(alloc, trees, pairs, place, after, before)?;
        return Ok(leaf);
    }
    let Ok(level) = u8::try_from(place.level - 1) else {
        return Err(TreeFault::Malformed);
    };
    let page = page_below(alloc, trees, pairs, level, &place.front, &place.before)?;
    Ok(Some(PageOver { level, place, page }))
}

/// Whether the page over a gap has this digest. A page that fills the gap is the one over it, so where this is false, none that fills it has the digest.
///
/// It reads what [`outline_over`](crate::outline::outline_over) reads, and hashes the page.
///
/// # Errors
///
/// Those of [`outline_over`](crate::outline::outline_over).
pub fn is_page<S: Store, P: Pairs<S>>(
    alloc: Global,
    trees: &mut S,
    pairs: &P,
    after: &Option<String>,
    before: &Option<String>,
    digest: &PageDigest,
) -> Result<bool, TreeFault>
    requires table { HasTable S.Store trees.old }
    // Of whatever map the rows are the gaps, they stay those, and this is whether the page over the gap in its tree has the digest.
    ensures page { MakesAndFinds S.Store trees.old trees.new result (FindsInTree (P.hold pairs.now) (SaysPage (text_gap after.now before.now) digest.now)) }
    ensures others { Makes S.Store trees.old trees.new result KeepsOthers }
    ensures uncommitted { CommitsNothing S.Store trees.old trees.new }
{
    let Some(over) = page_over(alloc, trees, pairs, after, before)? else {
        return Ok(false);
    };
    let known = known_of(over.level, &over.page)?;
    let Known::Page { digest: found, .. } = known else {
        return Ok(false);
    };
    Ok(found == *digest.as_bytes())
}
