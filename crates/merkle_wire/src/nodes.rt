//! The nodes of a page in messages.
ghost use Rattle.std.specs.Prelude.{◌≡◌, ◌+◌, ◌<◌, ◌^◌, ◌++◌, ◌∷◌, IfOk, IfSome, OnOk, flat_map, []};
ghost use Rattle.merkle_bytes.specs.Counts.{count_bytes};
ghost use Rattle.merkle_bytes.specs.Encodings.{AddsBytes};
ghost use Rattle.merkle_search_tree.specs.Items.{items, bound_of};
ghost use Rattle.merkle_wire.specs.Outlines.{nodes_among, nodes_digest, nodes_bytes, AreNodes, keys_told, keys_among, node_pairs};
ghost use Rattle.merkle_wire.specs.Steps.{AddsRowAt, AreRowsOfNodes, AddsTold};
ghost use Rattle.merkle_bytes.specs.Runs.{bound_key};

use crate::kept_rows::KeptRows;
use merkle_bytes::{Encode, KeyRun, encode_count};
use merkle_digest::{Key, Sip24, ValueDigest};
use merkle_search_tree::OutlineItem;
use std::alloc::{AllocError, Global};

/// A node: its key, and the digest of its value.
pub(crate) type NodeRef<'a, const N: usize, K> = (&'a K, &'a ValueDigest<N>);

/// The nodes among the items of an outline.
pub(crate) fn nodes_of<'a, K, const N: usize>(
    alloc: Global,
    list: &[OutlineItem<'a, N, K>],
) -> Result<Vec<NodeRef<'a, N, K>>, AllocError>
    ensures { IfOk result (λ nodes. node_pairs nodes.items ≡ nodes_among (items list.now)) }
{
    let mut nodes = Vec::with_capacity(alloc, list.len())?;
    'items: for item in list {
        if let OutlineItem::Node(key, digest) = item {
            nodes.push((*key, *digest))?;
        }
    }
    Ok(nodes)
}

/// The digest of nodes: that of the digests of their values, one after the other.
pub(crate) fn nodes_digest<K, const N: usize>(nodes: &[NodeRef<'_, N, K>]) -> [u8; 16]
    ensures { result ≡ nodes_digest (node_pairs nodes.now) }
{
    let mut sip = Sip24::new();
    'nodes: for node in nodes {
        sip.write(node.1.as_bytes());
    }
    sip.finish128()
}

/// Writes how many nodes there are, and their keys.
pub(crate) fn encode_keys<K: Encode, const N: usize>(
    nodes: &[NodeRef<'_, N, K>],
    run: &mut KeyRun,
    bytes: &mut Vec<u8>,
) -> Result<(), AllocError>
    ensures { OnOk result (AddsBytes bytes.old (keys_told K.encoding run.old (keys_among (node_pairs nodes.now))) bytes.new) }
{
    encode_count(nodes.len() as u64, bytes)?;
    'nodes: for node in nodes {
        run.encode(node.0, bytes)?;
    }
    Ok(())
}

/// Writes nodes: their rows, where the values are at hand and have at most this many bytes on average, else their keys and the digests of their values.
pub(crate) fn write_nodes<K: Key + Encode, V: Encode, R: KeptRows<K, V>, const N: usize>(
    alloc: Global,
    rows: &R,
    nodes: &[NodeRef<'_, N, K>],
    most: u64,
    after: Option<&K>,
    bytes: &mut Vec<u8>,
) -> Result<(), R::Error>
    ensures { OnOk result (AddsTold K.encoding V.encoding (AreNodes K.cmp (R.rows rows.now) (node_pairs nodes.now))
        (bound_of after.entry) bytes.old bytes.new) }
{
    match short_rows(alloc, rows, nodes, most, after)? {
        Some(told) => {
            write_rows(&told, bytes)?;
            Ok(())
        }
        None => {
            let mut run = KeyRun::behind(alloc, after)?;
            write_digests(nodes, &mut run, bytes)?;
            Ok(())
        }
    }
}

/// Rows as their bytes, and how many they are.
#[derive(Drop)]
struct ToldRows {
    count: usize,
    bytes: Vec<u8>,
}

/// The rows of nodes, where the values are at hand and have at most this many bytes on average.
fn short_rows<K: Key + Encode, V: Encode, R: KeptRows<K, V>, const N: usize>(
    alloc: Global,
    rows: &R,
    nodes: &[NodeRef<'_, N, K>],
    most: u64,
    after: Option<&K>,
) -> Result<Option<ToldRows>, R::Error>
    ensures { IfOk result (λ found. IfSome found
        (AreRowsOfNodes K.cmp K.encoding V.encoding (R.rows rows.now) nodes.now (bound_key K.encoding [] (bound_of after.entry)))) }
{
    if !rows.are_at_hand() {
        return Ok(None);
    }
    let mut run = KeyRun::behind(alloc, after)?;
    let limit = most.saturating_mul(nodes.len() as u64);
    let found = rows_of(alloc, rows, nodes, limit, &mut run)?;
    Ok(found)
}

/// The rows of nodes after a key, where their values have at most this many bytes.
fn rows_of<K: Key + Encode, V: Encode, R: KeptRows<K, V>, const N: usize>(
    alloc: Global,
    rows: &R,
    nodes: &[NodeRef<'_, N, K>],
    limit: u64,
    run: &mut KeyRun,
) -> Result<Option<ToldRows>, R::Error>
    ensures { IfOk result (λ found. IfSome found (AreRowsOfNodes K.cmp K.encoding V.encoding (R.rows rows.now) nodes.now run.old)) }
{
    let mut told = ToldRows {
        count: 0,
        bytes: Vec::new(alloc),
    };
    let mut value = Vec::new(alloc);
    let mut size: u64 = 0;
    'nodes: for node in nodes {
        add_row(rows, node.0, &mut value, run, &mut told)?;
        size = size.saturating_add(value.len() as u64);
        if size > limit {
            return Ok(None);
        }
    }
    Ok(Some(told))
}

/// Adds the row at a key after the last one, where there is one. `value` has the bytes of its value then, and none else.
fn add_row<K: Key + Encode, V: Encode, R: KeptRows<K, V>>(
    rows: &R,
    key: &K,
    value: &mut Vec<u8>,
    run: &mut KeyRun,
    told: &mut ToldRows,
) -> Result<(), R::Error>
    requires { told.old.count + 1 < 2 ^ 64 }
    ensures { OnOk result (AddsRowAt K.cmp K.encoding V.encoding (R.rows rows.now) key.now run.old run.new told.old told.new) }
{
    value.clear();
    if rows.add_value(key, value)? {
        run.encode(key, &mut told.bytes)?;
        told.bytes.extend_from_slice(value)?;
        told.count += 1;
    }
    Ok(())
}

/// Writes rows: a byte 0, how many they are, and the rows.
fn write_rows(told: &ToldRows, bytes: &mut Vec<u8>) -> Result<(), AllocError>
    ensures { OnOk result (AddsBytes bytes.old (0 ∷ (count_bytes told.now.count ++ told.now.bytes.items)) bytes.new) }
{
    bytes.extend_from_slice(&[0])?;
    encode_count(told.count as u64, bytes)?;
    bytes.extend_from_slice(&told.bytes)?;
    Ok(())
}

/// Writes nodes: a byte 1, how many they are, their keys, and the digests of their values.
fn write_digests<K: Encode, const N: usize>(
    nodes: &[NodeRef<'_, N, K>],
    run: &mut KeyRun,
    bytes: &mut Vec<u8>,
) -> Result<(), AllocError>
    ensures { OnOk result (AddsBytes bytes.old (1 ∷ nodes_bytes K.encoding run.old (node_pairs nodes.now)) bytes.new) }
{
    bytes.extend_from_slice(&[1])?;
    encode_keys(nodes, run, bytes)?;
    encode_digests(nodes, bytes)?;
    Ok(())
}

/// Writes the digests of the values of nodes.
fn encode_digests<K, const N: usize>(
    nodes: &[NodeRef<'_, N, K>],
    bytes: &mut Vec<u8>,
) -> Result<(), AllocError>
    ensures { OnOk result (AddsBytes bytes.old (flat_map (λ p. p.1) (node_pairs nodes.now)) bytes.new) }
{
    'nodes: for node in nodes {
        bytes.extend_from_slice(node.1.as_bytes())?;
    }
    Ok(())
}
