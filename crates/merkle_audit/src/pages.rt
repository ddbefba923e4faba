//! Whether pages with equal digests have equal maps below them.
ghost use Rattle.std.specs.Prelude.{◌≡◌, ◌≤◌, ◌↔◌, [], not, length, take, drop, IfOk, IsTrue, IsSome};
ghost use Rattle.std.specs.List.{AllByRecursion};
ghost use Rattle.key_order.specs.Map.{IsMap};
ghost use Rattle.key_order.specs.Order.{Below, Upto, below};
ghost use Rattle.merkle_diff.specs.PageRange.{entry, entries};
ghost use Rattle.merkle_replica.specs.Contents.{side};
ghost use Rattle.merkle_replica.specs.Faithful.{HaveFaithfulPages};
ghost use Rattle.merkle_search_tree.specs.Pages.{root_digest};
ghost use Rattle.merkle_tree_theory.specs.Listing.{entry_rows};
ghost use Rattle.merkle_tree_theory.specs.State.{SameSettings};
ghost use Rattle.merkle_audit.specs.Pages.{AreRowsAlike, AreAllAlike, LacksPageDigest, TellsMap, TellsMaps, TellMaps, TellAll};

use key_order::is_below;
use merkle_diff::PageRange;
use merkle_digest::{Digest, Hasher, Key};
use merkle_replica::{Join, Replica, RowHasher};
use merkle_search_tree::laws::{a_map_has_one_tree, every_tree_is_sound};
use std::alloc::AllocError;

/// Whether pages of two replicas that have equal digests have equal maps below them: true exactly where they have. Both are hashed for it, and
/// their rows stay.
///
/// It compares the digest of each page of the one with that of each page of the other, so its time is quadratic in the number of pages. For each
/// two pages with equal digests it finds the rows of both by halving, compares their keys, and hashes their values: where the replicas are equal,
/// once for each level of pages.
///
/// ```rust crates/merkle_audit_tests/src/no_bytes.rt
/// let mut a = texts(alloc, keys)?;
/// let mut b = texts(alloc, others)?;
/// have_faithful_pages(&mut a, &mut b)
/// ```
///
/// # Errors
///
/// `AllocError` if memory runs out for the lists of the page ranges.
pub fn have_faithful_pages<K: Key + Drop, V: Join + Drop, H: RowHasher<N, K, V>, const N: usize>(
    a: &mut Replica<K, V, H, N>,
    b: &mut Replica<K, V, H, N>,
) -> Result<bool, AllocError>
    ensures told { IfOk result (λ are. IsTrue are → HaveFaithfulPages H.laws (side a.old) (side b.old)) }

    // It is true wherever they are faithful.
    ensures found { IfOk result (λ are. HaveFaithfulPages H.laws (side a.old) (side b.old) → IsTrue are) }

    ensures a_rows { a.new.rows ≡ a.old.rows }
    ensures b_rows { b.new.rows ≡ b.old.rows }
    ensures a_settings { SameSettings a.old.tree a.new.tree }
    ensures b_settings { SameSettings b.old.tree b.new.tree }
{
    a.hash();
    b.hash();
    compare(a, b)
}

/// Whether pages of two hashed replicas that have equal digests have equal maps below them.
fn compare<K: Key + Drop, V: Join + Drop, H: RowHasher<N, K, V>, const N: usize>(
    a: &Replica<K, V, H, N>,
    b: &Replica<K, V, H, N>,
) -> Result<bool, AllocError>
    requires a_hashed { IsSome a.now.tree.root_hash }
    requires b_hashed { IsSome b.now.tree.root_hash }
    ensures { IfOk result (λ are. IsTrue are ↔ HaveFaithfulPages H.laws (side a.now) (side b.now)) }
{
    a_map_has_one_tree::<K, H, N>();
    every_tree_is_sound(a.tree());
    every_tree_is_sound(b.tree());
    let ours = match a.tree().serialise_page_ranges()? {
        Some(ours) => ours,
        None => unreachable!(),
    };
    let theirs = match b.tree().serialise_page_ranges()? {
        Some(theirs) => theirs,
        None => unreachable!(),
    };
    Ok(tell_all(a, &ours, b, &theirs))
}

/// Whether the page ranges of two hashed replicas tell that pages with equal digests have equal maps below them.
fn tell_all<K: Key + Drop, V: Join + Drop, H: RowHasher<N, K, V>, const N: usize>(
    a: &Replica<K, V, H, N>,
    ours: &[PageRange<'_, K>],
    b: &Replica<K, V, H, N>,
    theirs: &[PageRange<'_, K>],
) -> bool
    requires a_hashed { IsSome a.now.tree.root_hash }
    requires b_hashed { IsSome b.now.tree.root_hash }
    ensures { IsTrue result ↔ TellAll K.cmp ⟦<H as Hasher<N, V>>⟧.digest_of a.now b.now K.bytes_of (entries ours.now) (entries theirs.now) }
{
    if !tell_maps(a, ours, b, theirs) {
        return false;
    }
    if !lack_empty_page(a, theirs) {
        return false;
    }
    lack_empty_page(b, ours)
}

/// Whether each of our pages and each of theirs that have one digest have equal maps below them.
fn tell_maps<K: Key + Drop, V: Join + Drop, H: RowHasher<N, K, V>, const N: usize>(
    a: &Replica<K, V, H, N>,
    ours: &[PageRange<'_, K>],
    b: &Replica<K, V, H, N>,
    theirs: &[PageRange<'_, K>],
) -> bool
    ensures { IsTrue result ↔ TellMaps K.cmp ⟦<H as Hasher<N, V>>⟧.digest_of a.now b.now (entries ours.now) (entries theirs.now) }
{
    'pages: for range in ours {
        if !tells_maps(a, range, b, theirs) {
            return false;
        }
    }
    true
}

/// Whether each of their pages that has the digest of this one has an equal map below it.
fn tells_maps<K: Key + Drop, V: Join + Drop, H: RowHasher<N, K, V>, const N: usize>(
    a: &Replica<K, V, H, N>,
    range: &PageRange<'_, K>,
    b: &Replica<K, V, H, N>,
    theirs: &[PageRange<'_, K>],
) -> bool
    ensures { IsTrue result ↔ TellsMaps K.cmp ⟦<H as Hasher<N, V>>⟧.digest_of a.now b.now (entries theirs.now) (entry range.now) }
{
    'others: for other in theirs {
        if !tells_map(a, range, b, other) {
            return false;
        }
    }
    true
}

/// Whether the pages have digests that differ, or equal maps below them.
fn tells_map<K: Key + Drop, V: Join + Drop, H: RowHasher<N, K, V>, const N: usize>(
    a: &Replica<K, V, H, N>,
    range: &PageRange<'_, K>,
    b: &Replica<K, V, H, N>,
    other: &PageRange<'_, K>,
) -> bool
    ensures { IsTrue result ↔ TellsMap K.cmp ⟦<H as Hasher<N, V>>⟧.digest_of a.now b.now (entry range.now) (entry other.now) }
{
    if !is_digest(range, other.hash().digest()) {
        return true;
    }
    have_one_digest(
        a,
        rows_within(a.rows(), range),
        b,
        rows_within(b.rows(), other),
    )
}

/// Whether the page has the digest.
fn is_digest<K: Ord>(range: &PageRange<'_, K>, digest: &Digest<16>) -> bool
    ensures { IsTrue result ↔ (digest.now ≡ (entry range.now).digest) }
{
    digest == range.hash().digest()
}

/// Whether rows have equal keys, and values with equal digests, each by the hasher of its replica.
fn have_one_digest<K: Key + Drop, V: Join + Drop, H: RowHasher<N, K, V>, const N: usize>(
    a: &Replica<K, V, H, N>,
    ours: &[(K, V)],
    b: &Replica<K, V, H, N>,
    theirs: &[(K, V)],
) -> bool
    ensures { IsTrue result ↔ AreAllAlike K.cmp ⟦<H as Hasher<N, V>>⟧.digest_of a.now b.now ours.now theirs.now }
{
    if ours.len() != theirs.len() {
        return false;
    }
    'rows: for i in 0..ours.len() {
        if !are_alike(a, &ours[i], b, &theirs[i]) {
            return false;
        }
    }
    true
}

/// Whether two rows have equal keys, and values with equal digests, each by the hasher of its replica.
fn are_alike<K: Key + Drop, V: Join + Drop, H: RowHasher<N, K, V>, const N: usize>(
    a: &Replica<K, V, H, N>,
    row: &(K, V),
    b: &Replica<K, V, H, N>,
    other: &(K, V),
) -> bool
    ensures { IsTrue result ↔ AreRowsAlike K.cmp ⟦<H as Hasher<N, V>>⟧.digest_of a.now b.now row.now other.now }
{
    if !row.0.cmp(&other.0).is_eq() {
        return false;
    }
    a.tree().value_digest(&row.1) == b.tree().value_digest(&other.1)
}

/// The rows in a page. It finds the first and the last by halving.
fn rows_within<'a, K: Ord, V>(rows: &'a [(K, V)], range: &PageRange<'_, K>) -> &'a [(K, V)]
    requires { IsMap K.cmp rows.now }
    ensures { result.now ≡ entry_rows K.cmp (entry range.now) rows.now }
{
    let first = count_below(rows, range.start());
    let (_, behind) = rows.split_at(first);
    let count = count_upto(behind, range.end());
    let (inside, _) = behind.split_at(count);
    inside
}

/// How many of the rows are below the bound.
fn count_below<K: Ord, V>(rows: &[(K, V)], bound: &K) -> usize
    requires { IsMap K.cmp rows.now }
    ensures inside { result ≤ length rows.now }
    ensures below { AllByRecursion (λ row. Below K.cmp row.0 bound.now) (take result rows.now) }
    ensures behind { AllByRecursion (λ row. Upto K.cmp bound.now row.0) (drop result rows.now) }
{
    rows.partition_point(
        |row: &(K, V)| -> bool
            ensures { result ≡ below K.cmp row.now.0 bound.entry.now }
        { is_below(&row.0, bound) },
    )
}

/// How many of the rows are at most the bound.
fn count_upto<K: Ord, V>(rows: &[(K, V)], bound: &K) -> usize
    requires { IsMap K.cmp rows.now }
    ensures inside { result ≤ length rows.now }
    ensures upto { AllByRecursion (λ row. Upto K.cmp row.0 bound.now) (take result rows.now) }
    ensures above { AllByRecursion (λ row. Below K.cmp bound.now row.0) (drop result rows.now) }
{
    rows.partition_point(
        |row: &(K, V)| -> bool
            ensures { result ≡ not (below K.cmp bound.entry.now row.now.0) }
        { !is_below(bound, &row.0) },
    )
}

/// Whether the replica has a row, or none of the pages has the digest of its one page, which is empty.
fn lack_empty_page<K: Key + Drop, V: Join + Drop, H: RowHasher<N, K, V>, const N: usize>(
    replica: &Replica<K, V, H, N>,
    ranges: &[PageRange<'_, K>],
) -> bool
    requires { IsSome replica.now.tree.root_hash }
    ensures { IsTrue result ↔ (replica.now.rows ≡ [] → LacksPageDigest (root_digest K.bytes_of replica.now.tree) (entries ranges.now)) }
{
    if !replica.rows().is_empty() {
        return true;
    }
    match replica.tree().root_hash_cached() {
        Some(root) => lack_digest(root.digest(), ranges),
        None => unreachable!(),
    }
}

/// Whether none of the pages has the digest.
fn lack_digest<K: Ord>(digest: &Digest<16>, ranges: &[PageRange<'_, K>]) -> bool
    ensures { IsTrue result ↔ LacksPageDigest digest.now (entries ranges.now) }
{
    'pages: for range in ranges {
        if is_digest(range, digest) {
            return false;
        }
    }
    true
}
