//! What the answering side tells of pages.
ghost use Rattle.std.specs.Prelude.{◌≡◌, true, false, IfOk, OnOk, IsSome, IsTrue, None, ⊤};
ghost use Rattle.merkle_bytes.specs.Encodings.{AddsBytes};
ghost use Rattle.merkle_search_tree.specs.Items.{items, bound_of};
ghost use Rattle.merkle_wire.specs.Messages.{front};
ghost use Rattle.merkle_wire.specs.Outlines.{HasNoPage, pages_beside, pages_bytes, nodes_digest, IsTold};
ghost use Rattle.merkle_wire.specs.Replies.{IsFull, items_over, outline_over_bytes, TellsWhatFits};
ghost use Rattle.merkle_wire.specs.Steps.{AddsTold};
ghost use Rattle.merkle_wire.specs.Tellings.{TellsOutlines};

use crate::gaps::OwnedGap;
use crate::kept_rows::KeptRows;
use crate::kept_side::KeptSide;
use crate::message::{Kind, begin};
use crate::nodes::{NodeRef, encode_keys, nodes_digest, nodes_of, write_nodes};
use crate::pages::encode_page;
use merkle_bytes::{Encode, KeyRun};
use merkle_digest::{Hasher, Key, PageDigest};
use merkle_replica::{Join, RowHasher};
use merkle_search_tree::{MerkleSearchTree, OutlineItem};
use std::alloc::{AllocError, Global};

/// How many bytes stand at the front of a message.
const FRONT: usize = 2;

/// How pages are told.
#[derive(Clone, Copy, Drop)]
pub struct Telling {
    /// Whether the pages below them are told too.
    pub with_pages: bool,
    /// How many bytes values may have, on average, for rows to be told in place of digests.
    pub most: u64,
}

/// A message of this kind that tells of the pages over the gaps, one after the other, as far as the bytes suffice.
pub(crate) fn tell_pages<
    K: Key + Encode + Drop,
    V: Join + Encode,
    H: RowHasher<N, K, V>,
    S: KeptSide<N, K, V, H, R>,
    R,
    const N: usize,
>(
    alloc: Global,
    side: &mut S,
    beside: &R,
    kind: Kind,
    telling: Telling,
    most_bytes: usize,
    gaps: &[OwnedGap<K>],
) -> Result<Vec<u8>, S::Error>
    requires hashed { S.is_sound side.old → IsSome (S.contents side.old beside.now).tree.root_hash }
    ensures told { S.is_sound side.new → IfOk result (TellsOutlines K.cmp K.bytes_of K.encoding V.encoding (S.contents side.old beside.now)
        telling kind gaps.now) }
    ensures fits { S.is_sound side.new → IfOk result (λ r. TellsWhatFits (outline_over_bytes K.encoding V.encoding) (λ bytes t. ⊤)
        most_bytes gaps.now (front kind) r.items) }
    ensures kept { S.is_sound side.new → S.contents side.new beside.now ≡ S.contents side.old beside.now }
    ensures steady { S.is_sound side.new → S.is_sound side.old }
{
    let mut bytes = begin(alloc, kind)?;
    'gaps: for gap in gaps {
        if is_full(&bytes, most_bytes) {
            return Ok(bytes);
        }
        side.tell_page(alloc, beside, telling, gap, &mut bytes)?;
    }
    Ok(bytes)
}

/// Whether a message that has an entry has as many bytes as it may have.
pub(crate) fn is_full(bytes: &[u8], most: usize) -> bool
    ensures full { IsTrue result → IsFull most bytes.now }
    ensures room { result ≡ false → ¬ IsFull most bytes.now }
{
    bytes.len() > FRONT && bytes.len() >= most
}

/// The items of the page over a gap.
pub(crate) fn outline_over<'a, K: Key + Drop, V, H: Hasher<N, K>, const N: usize>(
    tree: &'a MerkleSearchTree<K, V, H, N>,
    gap: &'a OwnedGap<K>,
) -> Result<Vec<OutlineItem<'a, N, K>>, AllocError>
    requires { IsSome tree.now.root_hash }
    ensures { IfOk result (λ list. items list.items ≡ items_over K.cmp K.bytes_of tree.now gap.now) }
{
    match tree.outline(gap.as_gap())? {
        Some(list) => Ok(list),
        None => unreachable!(),
    }
}

/// Adds what is told of a page by its items, the nodes with the pages before, between and after them: the digests of the pages below where these are
/// asked for, else its rows where they are at hand and short, else its keys with the digests of their values. `after` is the bound that its keys are
/// above.
///
/// # Errors
///
/// Out of memory, or the rows can't be read.
pub fn tell_outline<K: Key + Encode + Drop, V: Encode, R: KeptRows<K, V>, const N: usize>(
    alloc: Global,
    rows: &R,
    telling: Telling,
    list: &[OutlineItem<'_, N, K>],
    after: Option<&K>,
    bytes: &mut Vec<u8>,
) -> Result<(), R::Error>
    ensures { OnOk result (AddsTold K.encoding V.encoding (IsTold K.cmp (R.rows rows.now) telling.with_pages (items list.now))
        (bound_of after.entry) bytes.old bytes.new) }
{
    let nodes = nodes_of(alloc, list)?;
    if are_told(telling.with_pages, list) {
        let mut run = KeyRun::behind(alloc, after)?;
        // A byte 2, the digest of the nodes, their keys, and the digests of the pages before, between and after them.
        bytes.extend_from_slice(&[2])?;
        bytes.extend_from_slice(&nodes_digest(&nodes))?;
        encode_keys(&nodes, &mut run, bytes)?;
        encode_pages(list, bytes)?;
        Ok(())
    } else {
        write_nodes(alloc, rows, &nodes, telling.most, after, bytes)?;
        Ok(())
    }
}

/// Whether pages below are to be told and there are some.
fn are_told<K, const N: usize>(with_pages: bool, list: &[OutlineItem<'_, N, K>]) -> bool
    ensures told { IsTrue result → with_pages ≡ true }
    ensures alone { result ≡ false → with_pages ≡ true → HasNoPage (items list.now) }
{
    if with_pages {
        return has_page(list);
    }
    false
}

/// Whether there is a page among the items.
fn has_page<K, const N: usize>(list: &[OutlineItem<'_, N, K>]) -> bool
    ensures { result ≡ false → HasNoPage (items list.now) }
{
    'items: for item in list {
        if let OutlineItem::Page(_, _) = item {
            return true;
        }
    }
    false
}

/// Writes the digest of the page before each node, and of that after the last.
fn encode_pages<K, const N: usize>(
    list: &[OutlineItem<'_, N, K>],
    bytes: &mut Vec<u8>,
) -> Result<(), AllocError>
    ensures { OnOk result (AddsBytes bytes.old (pages_bytes (pages_beside None (items list.now))) bytes.new) }
{
    let mut page = None;
    'items: for item in list {
        match item {
            OutlineItem::Page(_, digest) => page = Some(*digest),
            OutlineItem::Node(_, _) => {
                encode_page(page, bytes)?;
                page = None;
            }
        }
    }
    encode_page(page, bytes)?;
    Ok(())
}
