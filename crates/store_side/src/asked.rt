//! What is asked of the latest registers of a table of entries, within a transaction.
ghost use Rattle.std.specs.Prelude.{ℕ, List, IfOk, string_bytes};
ghost use Rattle.key_order.specs.Map.{IsMap};
ghost use Rattle.key_order.specs.Text.{text_order};
ghost use Rattle.store_file.specs.Latest.{IsLatestAt};
ghost use Rattle.store_file.specs.Logs.{Finds, HasEntryTable};
ghost use Rattle.store_file.specs.Ranges.{AreLatestBetween, HasVisited};
ghost use Rattle.store_file.specs.Transactions.{CommitsNothing};
ghost use Rattle.store_file.specs.Walks.{MakesView, StaysBut};
ghost use Rattle.store_side.specs.Asked.{IsDigestOf, IsSomeKey};

use merkle_digest::ValueDigest;
use merkle_wire::rows_ascend;
use sqlite_trees::store::Store;
use std::alloc::Global;
use store_file::Register;
use store_file::latest::latest_at;
use store_file::range::{RowVisitor, first_key, latest_between, visit_between};
use store_file::table::Entries;
use store_rows::LatestDigests;
use store_tree::TreeFault;
use store_tree::pairs::DIGEST_LEN;

/// The first key that has an entry, if there is one.
pub(crate) fn some_key<S: Store>(alloc: Global, trees: &mut S) -> Result<Option<String>, TreeFault>
    requires entries { HasEntryTable S.Store trees.old }
    ensures key { Finds S.Store trees.old trees.new result (λ old found. (hash_key : List ℕ) → IsSomeKey hash_key old found) }
    ensures same { MakesView S.Store trees.old trees.new result StaysBut }
    ensures uncommitted { CommitsNothing S.Store trees.old trees.new }
{
    let Some(key) = first_key(alloc, trees)? else {
        return Ok(None);
    };
    let latest = latest_at(alloc, trees, key.as_str())?;
    if latest.is_none() {
        return Err(TreeFault::Malformed);
    }
    Ok(Some(key))
}

/// The latest register of a key, where it has one.
pub(crate) fn latest_of<S: Store>(
    alloc: Global,
    trees: &mut S,
    key: &String,
) -> Result<Option<Register>, TreeFault>
    requires entries { HasEntryTable S.Store trees.old }
    ensures latest { Finds S.Store trees.old trees.new result (λ old. IsLatestAt old (string_bytes key.now)) }
    ensures same { MakesView S.Store trees.old trees.new result StaysBut }
    ensures uncommitted { CommitsNothing S.Store trees.old trees.new }
{
    let found = latest_at(alloc, trees, key.as_str())?;
    Ok(found)
}

/// The keys above one and below another, where there are these, each with its latest register.
pub(crate) fn rows_of<S: Store>(
    alloc: Global,
    trees: &mut S,
    after: &Option<String>,
    before: &Option<String>,
) -> Result<Entries, TreeFault>
    requires entries { HasEntryTable S.Store trees.old }
    ensures latest { Finds S.Store trees.old trees.new result (λ old rows. AreLatestBetween after.now before.now old rows.items) }
    ensures ascending { IfOk result (λ rows. IsMap text_order rows.items) }
    ensures same { MakesView S.Store trees.old trees.new result StaysBut }
    ensures uncommitted { CommitsNothing S.Store trees.old trees.new }
{
    let rows = latest_between(alloc, trees, after, before)?;
    if !rows_ascend(&rows) {
        return Err(TreeFault::Malformed);
    }
    Ok(rows)
}

/// Hands the keys above one and below another, where there are these, each with its latest register, to a visitor, as long as it takes them, and returns
/// whether these are all.
pub(crate) fn visit_rows_of<S: Store, T: RowVisitor>(
    alloc: Global,
    trees: &mut S,
    after: &Option<String>,
    before: &Option<String>,
    visitor: &mut T,
) -> Result<bool, TreeFault>
    requires entries { HasEntryTable S.Store trees.old }
    ensures visited { Finds S.Store trees.old trees.new result (HasVisited T.took visitor.old visitor.new after.now before.now) }
    ensures same { MakesView S.Store trees.old trees.new result StaysBut }
    ensures uncommitted { CommitsNothing S.Store trees.old trees.new }
{
    let whole = visit_between(alloc, trees, after, before, visitor)?;
    Ok(whole)
}

/// The digest of the latest register of a key, where it has one.
pub(crate) fn digest_of<S: Store>(
    alloc: Global,
    trees: &mut S,
    digests: &LatestDigests,
    key: &String,
) -> Result<Option<ValueDigest<DIGEST_LEN>>, TreeFault>
    requires entries { HasEntryTable S.Store trees.old }
    ensures digest { Finds S.Store trees.old trees.new result (λ old. IsDigestOf digests.now old key.now) }
    ensures same { MakesView S.Store trees.old trees.new result StaysBut }
    ensures uncommitted { CommitsNothing S.Store trees.old trees.new }
{
    let found = latest_at(alloc, trees, key.as_str())?;
    Ok(digests.digest_if(&found))
}
