//! The digest of the root page, and how many keys there are.
ghost use Rattle.store_file.specs.Logs.{Makes, MakesAndFinds};
ghost use Rattle.store_file.specs.Transactions.{CommitsNothing};
ghost use Rattle.store_tree.specs.Calls.{CountsKeys, FindsInTree, IsRootDigest};
ghost use Rattle.store_tree.specs.Tables.{HasTable, KeepsOthers};

use crate::cell::digest_in;
use crate::digest::count_in;
use crate::fault::TreeFault;
use crate::fill::whole;
use crate::pairs::Pairs;
use merkle_digest::PageDigest;
use sqlite_trees::store::Store;
use std::alloc::Global;

/// The digest of the root page, or none where the map has no key.
///
/// Where all is known it reads two rows. What isn't known is found out and noted: for each gap of which nothing was known it reads the cells and the
/// digests of values of its page, and writes one row. It takes memory for the cells of one page a level.
///
/// # Errors
///
/// [`TreeFault::Database`], [`TreeFault::Malformed`] and [`TreeFault::Memory`]: what it wrote is then to be rolled back.
pub fn root_digest<S: Store, P: Pairs<S>>(
    alloc: Global,
    trees: &mut S,
    pairs: &P,
) -> Result<Option<PageDigest>, TreeFault>
    requires table { HasTable S.Store trees.old }
    // Of whatever map the rows are the gaps, they stay those, and this is the digest of its tree's root page.
    ensures root { MakesAndFinds S.Store trees.old trees.new result (FindsInTree (P.hold pairs.now) IsRootDigest) }
    ensures others { Makes S.Store trees.old trees.new result KeepsOthers }
    ensures uncommitted { CommitsNothing S.Store trees.old trees.new }
{
    let known = whole(alloc, trees, pairs)?;
    Ok(digest_in(&known))
}

/// How many keys the map has.
///
/// Where all is known it reads two rows. What isn't known is found out and noted, as by [`root_digest`].
///
/// # Errors
///
/// Those of [`root_digest`].
pub fn count_keys<S: Store, P: Pairs<S>>(
    alloc: Global,
    trees: &mut S,
    pairs: &P,
) -> Result<u64, TreeFault>
    requires table { HasTable S.Store trees.old }
    // Of whatever map the rows are the gaps, they stay those, and it has this many keys.
    ensures count { MakesAndFinds S.Store trees.old trees.new result (CountsKeys (P.hold pairs.now)) }
    ensures others { Makes S.Store trees.old trees.new result KeepsOthers }
    ensures uncommitted { CommitsNothing S.Store trees.old trees.new }
{
    let known = whole(alloc, trees, pairs)?;
    Ok(count_in(&known))
}
