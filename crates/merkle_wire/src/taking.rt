//! What came, compared with what this side has.
ghost use Rattle.std.specs.Prelude.{◌≡◌, ◌∷◌, [], OnOk};
ghost use Rattle.merkle_wire.specs.Gaps.{between, owned_gap};
ghost use Rattle.merkle_wire.specs.ItsRows.{ForRowsOf};
ghost use Rattle.merkle_wire.specs.ByDigests.{AddsNewGapsBeside, TakesPage};
ghost use Rattle.merkle_wire.specs.Steps.{nodes_read, as_told};
ghost use Rattle.merkle_wire.specs.Taking.{AddsRows, IsRootTaken, AddsKeys, value_row};

use crate::coming::{NodeRead, OutlineRead, PageRead};
use crate::gaps::OwnedGap;
use crate::kept_tree::KeptTree;
use crate::sifting::{has_digest, has_nodes};
use crate::wanted::Wanted;
use crate::work::Work;
use merkle_digest::{Key, PageDigest};
use merkle_replica::{Join, RowHasher};
use merkle_search_tree::Gap;

/// The part of the peer's rows below which a side asks for all of them.
const FEWEST: u64 = 4;

/// Whether a side with this many rows has few of those of a peer with this many: it asks for all then.
pub(crate) fn has_few(own: u64, count: u64) -> bool {
    own < count / FEWEST
}

/// Takes the digest of the peer's root page, where it has a row. With `has_few` all rows are asked for, where this side hasn't the page.
pub(crate) fn take_root<
    K: Key + Drop,
    V: Join + Drop,
    H: RowHasher<N, K, V>,
    T: KeptTree<N, K, V, H>,
    const N: usize,
>(
    tree: &mut T,
    has_few: bool,
    digest: &Option<PageDigest>,
    work: &mut Work<K, V>,
) -> Result<(), T::Error>
    ensures taken { T.is_sound tree.new → OnOk result (ForRowsOf H.laws (T.kept tree.old).digests
        (λ local. IsRootTaken H.laws local digest.now work.old work.new)) }
    ensures kept { T.is_sound tree.new → T.kept tree.new ≡ T.kept tree.old }
    ensures steady { T.is_sound tree.new → T.is_sound tree.old }
{
    let Some(digest) = digest else {
        return Ok(());
    };
    if tree.is_page(&Gap::everywhere(), digest)? {
        return Ok(());
    }
    if has_few {
        work.add_whole(OwnedGap::everywhere())?;
        return Ok(());
    }
    work.add_below(OwnedGap::everywhere())?;
    Ok(())
}

/// Takes what came of the page over a gap: its outline, or its nodes alone.
pub(crate) fn take_outline<
    K: Key + Drop,
    V: Join + Drop,
    H: RowHasher<N, K, V>,
    T: KeptTree<N, K, V, H>,
    const N: usize,
>(
    tree: &mut T,
    gap: OwnedGap<K>,
    came: OutlineRead<'_, K, V>,
    work: &mut Work<K, V>,
) -> Result<(), T::Error>
    ensures taken { T.is_sound tree.new → OnOk result (TakesPage H.laws (T.kept tree.old).digests (owned_gap gap) (as_told came.entry)
        work.old work.new) }
    ensures kept { T.is_sound tree.new → T.kept tree.new ≡ T.kept tree.old }
    ensures steady { T.is_sound tree.new → T.is_sound tree.old }
{
    match came {
        OutlineRead::Rows(rows, bytes) => {
            work.note_bytes(bytes);
            take_rows(tree, rows, work)?;
            Ok(())
        }
        OutlineRead::Digests(nodes) => {
            take_nodes(tree, nodes, work)?;
            Ok(())
        }
        OutlineRead::Page(page) => {
            take_page(tree, gap, &page, work)?;
            Ok(())
        }
    }
}

/// Takes the row that is told by a key with its value, where there is one, unless this side has it.
pub(crate) fn take_value<
    K: Key + Drop,
    V: Join + Drop,
    H: RowHasher<N, K, V>,
    T: KeptTree<N, K, V, H>,
    const N: usize,
>(tree: &mut T, wanted: Wanted<K>, value: Option<V>, work: &mut Work<K, V>) -> Result<(), T::Error>
    ensures taken { T.is_sound tree.new → OnOk result (ForRowsOf H.laws (T.kept tree.old).digests
        (λ local. AddsRows H.laws local (value_row (wanted, value)) work.old work.new)) }
    ensures kept { T.is_sound tree.new → T.kept tree.new ≡ T.kept tree.old }
    ensures steady { T.is_sound tree.new → T.is_sound tree.old }
{
    match value {
        None => Ok(()),
        Some(value) => take_row(tree, (wanted.key, value), work),
    }
}

/// Takes those of the rows that this side doesn't have.
pub(crate) fn take_rows<
    K: Key + Drop,
    V: Join + Drop,
    H: RowHasher<N, K, V>,
    T: KeptTree<N, K, V, H>,
    const N: usize,
>(tree: &mut T, rows: Vec<(K, V)>, work: &mut Work<K, V>) -> Result<(), T::Error>
    ensures taken { T.is_sound tree.new → OnOk result (ForRowsOf H.laws (T.kept tree.old).digests
        (λ local. AddsRows H.laws local rows.items work.old work.new)) }
    ensures kept { T.is_sound tree.new → T.kept tree.new ≡ T.kept tree.old }
    ensures steady { T.is_sound tree.new → T.is_sound tree.old }
{
    'rows: for row in rows {
        take_row(tree, row, work)?;
    }
    Ok(())
}

/// Takes a row, unless this side has it.
fn take_row<
    K: Key + Drop,
    V: Join + Drop,
    H: RowHasher<N, K, V>,
    T: KeptTree<N, K, V, H>,
    const N: usize,
>(tree: &mut T, row: (K, V), work: &mut Work<K, V>) -> Result<(), T::Error>
    ensures taken { T.is_sound tree.new → OnOk result (ForRowsOf H.laws (T.kept tree.old).digests
        (λ local. AddsRows H.laws local (row ∷ []) work.old work.new)) }
    ensures kept { T.is_sound tree.new → T.kept tree.new ≡ T.kept tree.old }
    ensures steady { T.is_sound tree.new → T.is_sound tree.old }
{
    let digest = tree.digest_of(&row.1);
    let is_there = has_digest(tree, &row.0, digest.as_bytes().as_slice())?;
    work.take_row(row, is_there)?;
    Ok(())
}

/// Takes the keys of those nodes that this side doesn't have.
fn take_nodes<
    K: Key + Drop,
    V: Join + Drop,
    H: RowHasher<N, K, V>,
    T: KeptTree<N, K, V, H>,
    const N: usize,
>(tree: &mut T, nodes: Vec<NodeRead<'_, K>>, work: &mut Work<K, V>) -> Result<(), T::Error>
    ensures taken { T.is_sound tree.new → OnOk result (ForRowsOf H.laws (T.kept tree.old).digests
        (λ local. AddsKeys H.laws local (nodes_read nodes.entry.items) work.old work.new)) }
    ensures kept { T.is_sound tree.new → T.kept tree.new ≡ T.kept tree.old }
    ensures steady { T.is_sound tree.new → T.is_sound tree.old }
{
    'nodes: for node in nodes {
        let (wanted, digest) = node;
        let is_there = has_digest(tree, &wanted.key, digest)?;
        work.take_key(wanted, is_there)?;
    }
    Ok(())
}

/// Takes a page that has others below it.
fn take_page<
    K: Key + Drop,
    V: Join + Drop,
    H: RowHasher<N, K, V>,
    T: KeptTree<N, K, V, H>,
    const N: usize,
>(tree: &mut T, gap: OwnedGap<K>, page: &PageRead<K>, work: &mut Work<K, V>) -> Result<(), T::Error>
    ensures taken { T.is_sound tree.new → OnOk result (TakesPage H.laws (T.kept tree.old).digests (owned_gap gap)
        (as_told (OutlineRead.Page page.now)) work.old work.new) }
    ensures kept { T.is_sound tree.new → T.kept tree.new ≡ T.kept tree.old }
    ensures steady { T.is_sound tree.new → T.is_sound tree.old }
{
    take_pages(tree, &gap, &page.below, &page.last, work)?;
    if has_nodes(tree, &page.below, &page.digest)? {
        work.note_same(page.below.len(), page.bytes);
        return Ok(());
    }
    work.add_nodes(gap)?;
    Ok(())
}

/// Takes the digests of the pages before the nodes of a page and after the last of them.
fn take_pages<
    K: Key + Drop,
    V: Join + Drop,
    H: RowHasher<N, K, V>,
    T: KeptTree<N, K, V, H>,
    const N: usize,
>(
    tree: &mut T,
    gap: &OwnedGap<K>,
    below: &[(Option<PageDigest>, Wanted<K>)],
    last: &Option<PageDigest>,
    work: &mut Work<K, V>,
) -> Result<(), T::Error>
    ensures added { T.is_sound tree.new → OnOk result (AddsNewGapsBeside H.laws (T.kept tree.old).digests (owned_gap gap.now)
        below.now last.now work.old work.new) }
    ensures kept { T.is_sound tree.new → T.kept tree.new ≡ T.kept tree.old }
    ensures steady { T.is_sound tree.new → T.is_sound tree.old }
{
    let mut after = gap.after.as_ref();
    'nodes: for node in below {
        take_below(tree, after, Some(&node.1.key), &node.0, work)?;
        after = Some(&node.1.key);
    }
    take_below(tree, after, gap.before.as_ref(), last, work)?;
    Ok(())
}

/// Adds the gap between two bounds, where the page that fills it is one that this side doesn't have.
fn take_below<
    K: Key + Drop,
    V: Join + Drop,
    H: RowHasher<N, K, V>,
    T: KeptTree<N, K, V, H>,
    const N: usize,
>(
    tree: &mut T,
    after: Option<&K>,
    before: Option<&K>,
    digest: &Option<PageDigest>,
    work: &mut Work<K, V>,
) -> Result<(), T::Error>
    ensures added { T.is_sound tree.new → OnOk result (AddsNewGapsBeside H.laws (T.kept tree.old).digests (between after.entry before.entry)
        [] digest.now work.old work.new) }
    ensures kept { T.is_sound tree.new → T.kept tree.new ≡ T.kept tree.old }
    ensures steady { T.is_sound tree.new → T.is_sound tree.old }
{
    let Some(digest) = digest else {
        return Ok(());
    };
    let gap = Gap { after, before };
    if tree.is_page(&gap, digest)? {
        return Ok(());
    }
    let own = OwnedGap::between(gap.after, gap.before)?;
    work.add_below(own)?;
    Ok(())
}
