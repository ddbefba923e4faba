//! What came of a page, of a value or of the rows in a gap, as it is read.
ghost use Rattle.std.specs.Prelude.{◌≡◌, ◌≢◌, ◌++◌, Option, [], length, ◌+◌, map, flat_map, OnOk, IfOk, IfErr, List, false};
ghost use Rattle.std.specs.List.{AllByRecursion, concat};
ghost use Rattle.merkle_bytes.specs.Options.{IsOption, option_bytes};
ghost use Rattle.merkle_bytes.specs.Reading.{BeginsWithNo, Reads};
ghost use Rattle.merkle_bytes.specs.Runs.{bound_key, row_behind, row_key, run_bytes};
ghost use Rattle.merkle_wire.specs.Coming.{AscendIn, IsPageDigest, LiesIn};
ghost use Rattle.merkle_wire.specs.Faults.{IsRefusedFor};
ghost use Rattle.merkle_wire.specs.Gaps.{owned_gap};
ghost use Rattle.merkle_wire.specs.Outlines.{keys_among, outline_bytes, pages_bytes, nodes_bytes, page_bytes};
ghost use Rattle.merkle_wire.specs.Steps.{below_keys, digests_beside, nodes_read, as_told};
ghost use Rattle.merkle_wire.specs.Replies.{part_in_bytes};
ghost use Rattle.merkle_wire.specs.Fit.{AreNodesIn, NoPage, NoOutline, NoRows, NoPart};
ghost use Rattle.merkle_wire.specs.Taking.{IsBehind};

use crate::gaps::OwnedGap;
use crate::pages::decode_page;
use crate::session_error::SessionError;
use crate::wanted::Wanted;
use crate::within::{keys_lie_in, rows_lie_in};
use merkle_bytes::{Decode, Expected, KeyRun, Reader, decode_run};
use merkle_digest::{Key, PageDigest};
use merkle_replica::Join;

/// A key that came, and the digest of its value.
pub(crate) type NodeRead<'a, K> = (Wanted<K>, &'a [u8]);

/// What came of the page over a gap.
#[derive(Drop)]
pub(crate) enum OutlineRead<'a, K, V> {
    /// The rows of its nodes, and how many bytes they had.
    Rows(Vec<(K, V)>, usize),
    /// Its nodes.
    Digests(Vec<NodeRead<'a, K>>),
    /// The page, which has others below it.
    Page(PageRead<K>),
}

/// A page that came.
#[derive(Drop)]
pub(crate) struct PageRead<K> {
    /// The digest of its nodes.
    pub(crate) digest: [u8; 16],
    /// The digest of the page before each node, where there is one, and the key of the node.
    pub(crate) below: Vec<(Option<PageDigest>, Wanted<K>)>,
    /// The digest of the page after the last node, where there is one.
    pub(crate) last: Option<PageDigest>,
    /// How many bytes the keys had.
    pub(crate) bytes: usize,
}

/// Reads what came of the page over a gap: its outline, or its nodes alone, where digests of values have this many bytes.
pub(crate) fn read_outline<'a, K: Key + Decode, V: Join + Decode>(
    reader: &mut Reader<'a>,
    digest_bytes: usize,
    with_pages: bool,
    gap: &OwnedGap<K>,
) -> Result<OutlineRead<'a, K, V>, SessionError>
    ensures read { IfOk result (λ came. Reads reader.old
        (outline_bytes K.encoding V.encoding (bound_key K.encoding [] gap.now.after) (as_told came)) reader.new) }
    ensures lies { IfOk result (λ came. LiesIn K.cmp digest_bytes (owned_gap gap.now) (as_told came)) }
    ensures refused { IfErr result (IsRefusedFor (NoOutline K.cmp K.is_value V.is_value K.encoding V.encoding digest_bytes with_pages gap.now reader.old.left.now)) }
{
    let mut run = KeyRun::behind(reader.alloc(), gap.after.as_ref())?;
    let [kind] = reader.array::<1>()?;
    if kind == 0 {
        let before = reader.left().len();
        let rows = read_rows(reader, gap, &mut run)?;
        let bytes = before.saturating_sub(reader.left().len());
        return Ok(OutlineRead::Rows(rows, bytes));
    }
    if kind == 1 {
        let nodes = read_nodes(reader, digest_bytes, gap, &mut run)?;
        return Ok(OutlineRead::Digests(nodes));
    }
    if kind == 2 && with_pages {
        let page = read_page(reader, gap, &mut run)?;
        return Ok(OutlineRead::Page(page));
    }
    Err(SessionError::Malformed(reader.unexpected(Expected::Kind)))
}

/// Reads rows in a gap.
fn read_rows<K: Key + Decode, V: Join + Decode>(
    reader: &mut Reader<'_>,
    gap: &OwnedGap<K>,
    run: &mut KeyRun,
) -> Result<Vec<(K, V)>, SessionError>
    ensures read { IfOk result (λ rows. Reads reader.old
        (run_bytes (row_behind K.encoding V.encoding) (row_key K.encoding) run.old rows.items) reader.new) }
    ensures lie { IfOk result (λ rows. AscendIn K.cmp (owned_gap gap.now) (map (λ r. r.0) rows.items)) }
    ensures refused { IfErr result (IsRefusedFor (NoRows K.cmp K.is_value V.is_value K.encoding V.encoding run.old gap.now reader.old.left.now)) }
{
    let rows = decode_run::<(K, V)>(run, reader)?;
    if !rows_lie_in(&rows, gap) {
        return Err(SessionError::NotInGap);
    }
    Ok(rows)
}

/// Reads keys in a gap, with the digests of their values, of this many bytes each.
fn read_nodes<'a, K: Key + Decode>(
    reader: &mut Reader<'a>,
    digest_bytes: usize,
    gap: &OwnedGap<K>,
    run: &mut KeyRun,
) -> Result<Vec<NodeRead<'a, K>>, SessionError>
    ensures read { IfOk result (λ nodes. Reads reader.old (nodes_bytes K.encoding run.old (nodes_read nodes.items)) reader.new) }
    ensures lie { IfOk result (λ nodes. AscendIn K.cmp (owned_gap gap.now) (keys_among (nodes_read nodes.items))) }
    ensures lengths { IfOk result (λ nodes. AllByRecursion (λ d. length d.1 ≡ digest_bytes) (nodes_read nodes.items)) }
    ensures refused { IfErr result (IsRefusedFor (BeginsWithNo (nodes_bytes K.encoding run.old)
        (AreNodesIn K.cmp K.is_value digest_bytes (owned_gap gap.now)) reader.old.left.now)) }
{
    let keys = decode_run::<Wanted<K>>(run, reader)?;
    if !keys_lie_in(&keys, gap) {
        return Err(SessionError::NotInGap);
    }
    let nodes = read_digests(reader, digest_bytes, keys)?;
    Ok(nodes)
}

/// Reads the digest of the value at each of the keys, of this many bytes.
fn read_digests<'a, K: Key + Drop>(
    reader: &mut Reader<'a>,
    digest_bytes: usize,
    keys: Vec<Wanted<K>>,
) -> Result<Vec<NodeRead<'a, K>>, SessionError>
    ensures keys { IfOk result (λ nodes. keys_among (nodes_read nodes.items) ≡ map (λ w. w.key) keys.items) }
    ensures read { IfOk result (λ nodes. Reads reader.old (flat_map (λ d. d.1) (nodes_read nodes.items)) reader.new) }
    ensures lengths { IfOk result (λ nodes. AllByRecursion (λ d. length d.1 ≡ digest_bytes) (nodes_read nodes.items)) }
    ensures refused { IfErr result (IsRefusedFor (BeginsWithNo concat
        (λ ds. (length ds ≡ length keys.items) × AllByRecursion (λ d. length d ≡ digest_bytes) ds) reader.old.left.now)) }
{
    let mut nodes = Vec::with_capacity(reader.alloc(), keys.len())?;
    'keys: for wanted in keys {
        let digest = reader.slice(digest_bytes)?;
        nodes.push((wanted, digest))?;
    }
    Ok(nodes)
}

/// Reads a page that has others below it.
fn read_page<K: Key + Decode>(
    reader: &mut Reader<'_>,
    gap: &OwnedGap<K>,
    run: &mut KeyRun,
) -> Result<PageRead<K>, SessionError>
    ensures read { IfOk result (λ it. Reads reader.old
        (page_bytes K.encoding run.old it.digest (below_keys it.below.items) (digests_beside it.below.items it.last)) reader.new) }
    ensures some { IfOk result (λ page. below_keys page.below.items ≢ []) }
    ensures lie { IfOk result (λ page. AscendIn K.cmp (owned_gap gap.now) (below_keys page.below.items)) }
    ensures digest { IfOk result (λ page. length page.digest ≡ 16) }
    ensures digests { IfOk result (λ page. AllByRecursion IsPageDigest (digests_beside page.below.items page.last)) }
    ensures refused { IfErr result (IsRefusedFor (NoPage K.cmp K.is_value K.encoding run.old gap.now reader.old.left.now)) }
{
    let digest = reader.array::<16>()?;
    let before = reader.left().len();
    let keys = decode_run::<Wanted<K>>(run, reader)?;
    let bytes = before.saturating_sub(reader.left().len());
    if keys.is_empty() {
        return Err(SessionError::NoNode);
    }
    if !keys_lie_in(&keys, gap) {
        return Err(SessionError::NotInGap);
    }
    let (below, last) = read_pages(reader, keys)?;
    Ok(PageRead {
        digest,
        below,
        last,
        bytes,
    })
}

/// Reads the digests of the pages before the keys and after the last of them, each where there is one.
fn read_pages<K: Key + Drop>(
    reader: &mut Reader<'_>,
    keys: Vec<Wanted<K>>,
) -> Result<(Vec<(Option<PageDigest>, Wanted<K>)>, Option<PageDigest>), SessionError>
    ensures keys { IfOk result (λ pages. below_keys pages.0.items ≡ map (λ w. w.key) keys.items) }
    ensures read { IfOk result (λ pages. Reads reader.old (pages_bytes (digests_beside pages.0.items pages.1)) reader.new) }
    ensures digests { IfOk result (λ pages. AllByRecursion IsPageDigest (digests_beside pages.0.items pages.1)) }
    ensures refused { IfErr result (IsRefusedFor (BeginsWithNo pages_bytes
        (λ pages. (length pages ≡ length keys.items + 1) × AllByRecursion IsPageDigest pages) reader.old.left.now)) }
{
    let mut below = Vec::with_capacity(reader.alloc(), keys.len())?;
    'keys: for wanted in keys {
        let page = decode_page(reader)?;
        below.push((page, wanted))?;
    }
    let last = decode_page(reader)?;
    Ok((below, last))
}

/// Reads the value at a key that was asked for, or that the peer has none.
pub(crate) fn read_value<V: Decode>(reader: &mut Reader<'_>) -> Result<Option<V>, SessionError>
    ensures read { IfOk result (λ value. Reads reader.old (option_bytes V.encoding value) reader.new) }
    ensures refused { IfErr result (IsRefusedFor (BeginsWithNo (option_bytes V.encoding) (IsOption V.is_value) reader.old.left.now)) }
{
    let value = Option::<V>::decode(reader)?;
    Ok(value)
}

/// Reads the rows in a gap, or the first of them, and whether they are all. Where there are more, it adds the gap after them to what is left.
pub(crate) fn read_part<K: Key + Decode, V: Join + Decode>(
    reader: &mut Reader<'_>,
    gap: &OwnedGap<K>,
    left: &mut Vec<OwnedGap<K>>,
) -> Result<(Vec<(K, V)>, bool), SessionError>
    ensures read { IfOk result (λ p. Reads reader.old (part_in_bytes K.encoding V.encoding (gap.now, record { rows = p.0.items; whole = p.1 }))
        reader.new) }
    ensures lie { IfOk result (λ p. AscendIn K.cmp (owned_gap gap.now) (map (λ r. r.0) p.0.items)) }
    ensures behind { IfOk result (λ p. (own : _) × IsBehind K.cmp (owned_gap gap.now) (record { rows = p.0.items; whole = p.1 }) own
        × (left.new.items ≡ left.old.items ++ own)) }
    ensures refused { IfErr result (IsRefusedFor (NoPart K.cmp K.is_value V.is_value K.encoding V.encoding gap.now reader.old.left.now)) }
{
    let mut run = KeyRun::behind(reader.alloc(), gap.after.as_ref())?;
    let rows = read_rows(reader, gap, &mut run)?;
    if reader.flag()? {
        return Ok((rows, true));
    }
    add_behind(&rows, gap, left)?;
    Ok((rows, false))
}

/// Adds what is left of a gap after the last of the rows.
fn add_behind<K: Key, V>(
    rows: &[(K, V)],
    gap: &OwnedGap<K>,
    left: &mut Vec<OwnedGap<K>>,
) -> Result<(), SessionError>
    ensures added { OnOk result ((own : List _) × IsBehind K.cmp (owned_gap gap.now) (record { rows = rows.now; whole = false }) own
        × (left.new.items ≡ left.old.items ++ own)) }
    ensures refused { IfErr result (IsRefusedFor (rows.now ≡ [])) }
{
    let Some(last) = rows.last() else {
        return Err(SessionError::NothingCame);
    };
    let own = OwnedGap::between(Some(&last.0), gap.before.as_ref())?;
    left.push(own)?;
    Ok(())
}
