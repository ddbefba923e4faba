//! The map whose gaps a table of cells has.
ghost use Rattle.std.specs.Prelude.{IfOk, string_bytes};
ghost use Rattle.sqlite_trees.specs.Tree.{Trees};
ghost use Rattle.store_file.specs.Logs.{Finds};
ghost use Rattle.store_file.specs.Transactions.{CommitsNothing};
ghost use Rattle.store_file.specs.Walks.{MakesView, StaysBut};
ghost use Rattle.store_tree.specs.Cells.{KeyDigests};
ghost use Rattle.store_tree.specs.Maps.{ArePairsIn, IsDigestAt, IsLeafOf};
ghost use Rattle.store_tree.specs.Pages.{text_gap};
ghost use Rattle.store_tree.specs.Tables.{HasTable, KeepsOthers};

use crate::cell::Known;
use crate::fault::TreeFault;
use crate::page::{Node, Page};
use merkle_digest::ValueDigest;
use sqlite_trees::store::Store;
use std::alloc::Global;

/// How many bytes the digest of a value has, and that of a page.
pub const DIGEST_LEN: usize = 16;

/// The map whose gaps a table of cells has, which other tables of the store hold: its keys, each with the digest of its value.
pub trait Pairs<S: Store> {
    /// Whether the tables hold this map: the bytes of its keys, each with the digest of its value.
    ghost hold: { Self → Trees → KeyDigests → Type 0 };

    /// The table of cells says nothing of it.
    ghost stay: { (pairs : Self) (old new : Trees) (m : KeyDigests) → KeepsOthers old new → hold pairs old m → hold pairs new m };

    /// The digest of the value of a key that the map has.
    ///
    /// # Errors
    ///
    /// [`TreeFault::Database`], [`TreeFault::Malformed`], also where the map lacks the key, and [`TreeFault::Memory`].
    fn digest_at(
        &self,
        alloc: Global,
        trees: &mut S,
        key: &String,
    ) -> Result<ValueDigest<DIGEST_LEN>, TreeFault>
        requires table { HasTable S.Store trees.old }
        ensures digest { Finds S.Store trees.old trees.new result (λ old. IsDigestAt (hold self.now old) (string_bytes key.now)) }
        ensures same { MakesView S.Store trees.old trees.new result StaysBut }
        ensures uncommitted { CommitsNothing S.Store trees.old trees.new };

    /// The keys above one and below another, where there are these, in ascending order, each with the digest of its value. They are as many as a page of
    /// level 0 has.
    ///
    /// # Errors
    ///
    /// [`TreeFault::Database`], [`TreeFault::Malformed`] and [`TreeFault::Memory`].
    fn within(
        &self,
        alloc: Global,
        trees: &mut S,
        after: &Option<String>,
        before: &Option<String>,
    ) -> Result<Vec<(String, ValueDigest<DIGEST_LEN>)>, TreeFault>
        requires table { HasTable S.Store trees.old }
        ensures pairs { Finds S.Store trees.old trees.new result (λ old. ArePairsIn (hold self.now old) (text_gap after.now before.now)) }
        ensures same { MakesView S.Store trees.old trees.new result StaysBut }
        ensures uncommitted { CommitsNothing S.Store trees.old trees.new };
}

/// The page of these pairs, between which there is nothing.
pub(crate) fn leaf_of(
    alloc: Global,
    pairs: Vec<(String, ValueDigest<DIGEST_LEN>)>,
) -> Result<Page, TreeFault>
    ensures { IfOk result (IsLeafOf pairs.items) }
{
    let mut nodes = Vec::new(alloc);
    'pairs: for (key, digest) in pairs {
        nodes.push(Node {
            before: Known::Nothing,
            key,
            digest,
        })?;
    }
    Ok(Page {
        nodes,
        last: Known::Nothing,
    })
}
