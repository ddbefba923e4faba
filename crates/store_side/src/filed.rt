//! What is asked of a store's file that has the tree of its latest registers.
ghost use Rattle.std.specs.Prelude.{◌≡◌, IfOk, OnErr, OnOk, length};
ghost use Rattle.key_order.specs.Map.{IsMap, get};
ghost use Rattle.key_order.specs.Text.{text_order};
ghost use Rattle.merkle_bytes.specs.Options.{IsOption};
ghost use Rattle.merkle_search_tree.specs.Items.{bound_of, lent_gap};
ghost use Rattle.merkle_wire.specs.Sessions.{IsKeyOf};
ghost use Rattle.sqlite_trees.specs.View.{IsRolledBack};
ghost use Rattle.store_file.specs.Logs.{IsClean};
ghost use Rattle.store_file.specs.Transactions.{StaysQuiet};
ghost use Rattle.store_side.specs.Answered.{AreRowsBetween, HasVisitedRows, IsFileOutline, IsRegisterAt, IsFileRoot};
ghost use Rattle.store_rows.specs.Digests.{digest_rows};
ghost use Rattle.store_side.specs.FileTrees.{IsFile, IsPageLacked, IsPageThere, KeepsFile, SaysFilePage, TellsFile};
ghost use Rattle.store_tree.specs.Pages.{text_gap};
ghost use Rattle.store_tree.specs.Rows.{bound_bytes};

use crate::asked::{digest_of, latest_of, rows_of, some_key, visit_rows_of};
use merkle_digest::{PageDigest, ValueDigest};
use merkle_search_tree::Gap;
use sqlite_trees::error::StoreError;
use sqlite_trees::store::Store;
use std::alloc::Global;
use store_file::Register;
use store_file::range::RowVisitor;
use store_file::table::Entries;
use store_rows::LatestDigests;
use store_tree::TreeFault;
use store_tree::outline::{Outline, outline_over};
use store_tree::over::is_page;
use store_tree::pairs::DIGEST_LEN;
use store_tree::root::{count_keys, root_digest};

/// After an error takes back what isn't committed.
fn settle<S: Store, A>(trees: &mut S, done: Result<A, TreeFault>) -> Result<A, TreeFault>
    ensures same { result ≡ done }
    ensures kept { OnOk result (trees.new ≡ trees.old) }
    ensures undone { OnErr result (IsRolledBack (S.Store.view trees.old) (S.Store.view trees.new)) }
    ensures quiet { OnErr result (StaysQuiet S.Store trees.old trees.new) }
{
    if done.is_err() {
        trees.rollback();
    }
    done
}

/// The first key, if there is one.
pub(crate) fn find_key<S: Store>(
    alloc: Global,
    trees: &mut S,
    _digests: &LatestDigests,
) -> Result<Option<String>, TreeFault>
    requires file { IsFile S.Store _digests.now trees.old }
    ensures key { TellsFile S.Store _digests.now trees.old trees.new result (λ rows. IsOption (IsKeyOf text_order (digest_rows _digests.now rows))) }
    ensures kept { KeepsFile S.Store _digests.now trees.old trees.new }
    ensures steady { IsClean S.Store trees.new → IsClean S.Store trees.old }
{
    if trees.is_broken() {
        return Err(TreeFault::Database(StoreError::Broken));
    }
    let found = some_key(alloc, trees);
    settle(trees, found)
}

/// The digest of the latest register of a key, where it has one.
pub(crate) fn find_digest<S: Store>(
    alloc: Global,
    trees: &mut S,
    digests: &LatestDigests,
    key: &String,
) -> Result<Option<ValueDigest<DIGEST_LEN>>, TreeFault>
    requires file { IsFile S.Store digests.now trees.old }
    ensures digest { TellsFile S.Store digests.now trees.old trees.new result
        (λ rows found. found ≡ get text_order (digest_rows digests.now rows) key.now) }
    ensures kept { KeepsFile S.Store digests.now trees.old trees.new }
    ensures steady { IsClean S.Store trees.new → IsClean S.Store trees.old }
{
    if trees.is_broken() {
        return Err(TreeFault::Database(StoreError::Broken));
    }
    let found = digest_of(alloc, trees, digests, key);
    settle(trees, found)
}

/// Whether the page over a gap has a digest.
fn find_page<S: Store>(
    alloc: Global,
    trees: &mut S,
    digests: &LatestDigests,
    after: &Option<String>,
    before: &Option<String>,
    digest: &PageDigest,
) -> Result<bool, TreeFault>
    requires file { IsFile S.Store digests.now trees.old }
    ensures page { TellsFile S.Store digests.now trees.old trees.new result (SaysFilePage digests.now (text_gap after.now before.now) digest.now) }
    ensures kept { KeepsFile S.Store digests.now trees.old trees.new }
    ensures steady { IsClean S.Store trees.new → IsClean S.Store trees.old }
{
    if trees.is_broken() {
        return Err(TreeFault::Database(StoreError::Broken));
    }
    let found = is_page(alloc, trees, digests, after, before, digest);
    settle(trees, found)
}

/// A bound of a gap, in memory of its own.
fn copy_bound(bound: Option<&String>) -> Result<Option<String>, TreeFault>
    ensures { IfOk result (λ copy. bound_bytes copy ≡ bound_bytes (bound_of bound.entry)) }
{
    match bound {
        None => Ok(None),
        Some(key) => Ok(Some(key.clone()?)),
    }
}

/// Whether the page that fills a gap has a digest. If no page fills it, another page may have it: the answer is true only if one does.
pub(crate) fn find_page_at<S: Store>(
    alloc: Global,
    trees: &mut S,
    digests: &LatestDigests,
    gap: &Gap<'_, String>,
    digest: &PageDigest,
) -> Result<bool, TreeFault>
    requires file { IsFile S.Store digests.now trees.old }
    ensures there { TellsFile S.Store digests.now trees.old trees.new result (IsPageThere digests.now digest.now) }
    ensures lacked { TellsFile S.Store digests.now trees.old trees.new result (IsPageLacked digests.now (lent_gap gap.now) digest.now) }
    ensures kept { KeepsFile S.Store digests.now trees.old trees.new }
    ensures steady { IsClean S.Store trees.new → IsClean S.Store trees.old }
{
    let after = copy_bound(gap.after)?;
    let before = copy_bound(gap.before)?;
    find_page(alloc, trees, digests, &after, &before, digest)
}

/// The digest of the root page, or none where there is no key.
pub(crate) fn find_root<S: Store>(
    alloc: Global,
    trees: &mut S,
    digests: &LatestDigests,
) -> Result<Option<PageDigest>, TreeFault>
    requires file { IsFile S.Store digests.now trees.old }
    ensures digest { TellsFile S.Store digests.now trees.old trees.new result (IsFileRoot digests.now) }
    ensures kept { KeepsFile S.Store digests.now trees.old trees.new }
    ensures steady { IsClean S.Store trees.new → IsClean S.Store trees.old }
{
    if trees.is_broken() {
        return Err(TreeFault::Database(StoreError::Broken));
    }
    let found = root_digest(alloc, trees, digests);
    settle(trees, found)
}

/// How many keys there are.
pub(crate) fn find_count<S: Store>(
    alloc: Global,
    trees: &mut S,
    digests: &LatestDigests,
) -> Result<u64, TreeFault>
    requires file { IsFile S.Store digests.now trees.old }
    ensures count { TellsFile S.Store digests.now trees.old trees.new result (λ rows count. count ≡ length rows) }
    ensures kept { KeepsFile S.Store digests.now trees.old trees.new }
    ensures steady { IsClean S.Store trees.new → IsClean S.Store trees.old }
{
    if trees.is_broken() {
        return Err(TreeFault::Database(StoreError::Broken));
    }
    let found = count_keys(alloc, trees, digests);
    settle(trees, found)
}

/// The outline of the page over a gap, or none where no page is over it.
pub(crate) fn find_outline<S: Store>(
    alloc: Global,
    trees: &mut S,
    digests: &LatestDigests,
    after: &Option<String>,
    before: &Option<String>,
) -> Result<Option<Outline>, TreeFault>
    requires file { IsFile S.Store digests.now trees.old }
    ensures outline { TellsFile S.Store digests.now trees.old trees.new result (IsFileOutline digests.now (text_gap after.now before.now)) }
    ensures kept { KeepsFile S.Store digests.now trees.old trees.new }
    ensures steady { IsClean S.Store trees.new → IsClean S.Store trees.old }
{
    if trees.is_broken() {
        return Err(TreeFault::Database(StoreError::Broken));
    }
    let found = outline_over(alloc, trees, digests, after, before);
    settle(trees, found)
}

/// The latest register of a key, where it has one.
pub(crate) fn find_latest<S: Store>(
    alloc: Global,
    trees: &mut S,
    _digests: &LatestDigests,
    key: &String,
) -> Result<Option<Register>, TreeFault>
    requires file { IsFile S.Store _digests.now trees.old }
    ensures latest { TellsFile S.Store _digests.now trees.old trees.new result (IsRegisterAt key.now) }
    ensures kept { KeepsFile S.Store _digests.now trees.old trees.new }
    ensures steady { IsClean S.Store trees.new → IsClean S.Store trees.old }
{
    if trees.is_broken() {
        return Err(TreeFault::Database(StoreError::Broken));
    }
    let found = latest_of(alloc, trees, key);
    settle(trees, found)
}

/// The keys above one and below another, where there are these, each with its latest register.
pub(crate) fn find_rows<S: Store>(
    alloc: Global,
    trees: &mut S,
    _digests: &LatestDigests,
    after: &Option<String>,
    before: &Option<String>,
) -> Result<Entries, TreeFault>
    requires file { IsFile S.Store _digests.now trees.old }
    ensures rows { TellsFile S.Store _digests.now trees.old trees.new result
        (λ rows found. AreRowsBetween after.now before.now rows found.items) }
    ensures ascending { IfOk result (λ rows. IsMap text_order rows.items) }
    ensures kept { KeepsFile S.Store _digests.now trees.old trees.new }
    ensures steady { IsClean S.Store trees.new → IsClean S.Store trees.old }
{
    if trees.is_broken() {
        return Err(TreeFault::Database(StoreError::Broken));
    }
    let found = rows_of(alloc, trees, after, before);
    settle(trees, found)
}

/// Hands the keys above one and below another, where there are these, each with its latest register, to a visitor, as long as it takes them, and returns
/// whether these are all.
pub(crate) fn visit_rows<S: Store, T: RowVisitor>(
    alloc: Global,
    trees: &mut S,
    _digests: &LatestDigests,
    after: &Option<String>,
    before: &Option<String>,
    visitor: &mut T,
) -> Result<bool, TreeFault>
    requires file { IsFile S.Store _digests.now trees.old }
    ensures rows { TellsFile S.Store _digests.now trees.old trees.new result (HasVisitedRows T.took visitor.old visitor.new after.now before.now) }
    ensures kept { KeepsFile S.Store _digests.now trees.old trees.new }
    ensures steady { IsClean S.Store trees.new → IsClean S.Store trees.old }
{
    if trees.is_broken() {
        return Err(TreeFault::Database(StoreError::Broken));
    }
    let whole = visit_rows_of(alloc, trees, after, before, visitor);
    settle(trees, whole)
}
