//! The digest of the tree of a map in a page format, by a plain and slow program that scans the sorted list of its pairs.

ghost use Rattle.std.specs.Prelude.{◌≡◌, ◌≤◌, ◌==◌, count_by};
ghost use Rattle.merkle_digest.specs.Level.{level_of};
ghost use Rattle.merkle_tree_theory.specs.TreeOf.{gap_of, tree_of};
ghost use Rattle.merkle_tree_theory.specs.Stream.{page_digest, head_bytes, key_bytes};
ghost use Rattle.test_trees.specs.Defined.{WritesTo, gap_digest, level_by, written_gap};

use merkle_digest::{
    Hasher, KeyBytes, PageDigest, RootHash, Sip24, ValueDigest, default_level_base, level,
};
use merkle_search_tree::builder::PageFormat;

/// The root hash in a page format of the tree of a map, whose pairs of keys and value digests are in ascending order, with levels in base 16.
pub fn defined_root_hash<K: Eq + KeyBytes, H: Hasher<N, K>, const N: usize>(
    hasher: &H,
    format: PageFormat,
    pairs: &[(K, ValueDigest<N>)],
) -> RootHash
    ensures { result ≡ page_digest format K.bytes_of (tree_of (level_by (H.digest_of hasher.now)) pairs.now) }
{
    match defined_digest(hasher, format, pairs, 256) {
        Some(digest) => RootHash::new(digest),
        None => {
            let mut sip = Sip24::new();
            write_head(&mut sip, format, 0, 0);
            write_gap(&mut sip, format, None);
            RootHash::new(PageDigest::new(sip.finish128()))
        }
    }
}

/// The digest of the page of pairs whose keys are on levels below `bound`; none where there is no such page.
fn defined_digest<K: Eq + KeyBytes, H: Hasher<N, K>, const N: usize>(
    hasher: &H,
    format: PageFormat,
    pairs: &[(K, ValueDigest<N>)],
    bound: u16,
) -> Option<PageDigest>
    requires { bound ≤ 256 }
    ensures { result ≡ gap_digest format K.bytes_of (gap_of (level_by (H.digest_of hasher.now)) bound pairs.now) }
{
    if bound == 0 {
        return None;
    }
    let page_level = bound - 1;
    let count = count_at(hasher, pairs, page_level);
    if count == 0 {
        return defined_digest(hasher, format, pairs, page_level);
    }
    let mut sip = Sip24::new();
    write_head(&mut sip, format, page_level as u8, count);
    let mut start = 0;
    'pairs: for i in 0..pairs.len() {
        let pair = &pairs[i];
        if level_of_key(hasher, &pair.0) == page_level {
            let gap = defined_digest(hasher, format, &pairs[start..i], page_level);
            write_gap(&mut sip, format, gap);
            write_key(&mut sip, format, pair.0.key_bytes());
            sip.write(pair.1.as_bytes());
            start = i + 1;
        }
    }
    let high = defined_digest(hasher, format, &pairs[start..], page_level);
    write_gap(&mut sip, format, high);
    Some(PageDigest::new(sip.finish128()))
}

/// Writes what stands before the first node of a page of a level, which has this many nodes: in format 2 a mark, the level and the number.
fn write_head(sip: &mut Sip24, format: PageFormat, level: u8, count: usize)
    ensures { WritesTo sip.old (head_bytes format level count) sip.new }
{
    match format {
        PageFormat::V1 => {}
        PageFormat::V2 => {
            sip.write(&[2]);
            sip.write(&[level]);
            sip.write(&(count as u64).to_le_bytes());
        }
    }
}

/// Writes the digest of the page in a gap, where there is one; in format 2 a mark is before it, or in its place.
fn write_gap(sip: &mut Sip24, format: PageFormat, digest: Option<PageDigest>)
    ensures { WritesTo sip.old (written_gap format digest) sip.new }
{
    match (format, digest) {
        (PageFormat::V1, None) => {}
        (PageFormat::V1, Some(digest)) => sip.write(digest.as_bytes()),
        (PageFormat::V2, None) => sip.write(&[0]),
        (PageFormat::V2, Some(digest)) => {
            sip.write(&[1]);
            sip.write(digest.as_bytes());
        }
    }
}

/// Writes the bytes of a key, in format 2 after their number.
fn write_key(sip: &mut Sip24, format: PageFormat, bytes: &[u8])
    ensures { WritesTo sip.old (key_bytes format bytes.now) sip.new }
{
    match format {
        PageFormat::V1 => sip.write(bytes),
        PageFormat::V2 => {
            sip.write(&(bytes.len() as u64).to_le_bytes());
            sip.write(bytes);
        }
    }
}

/// The level of a key in base 16.
fn level_of_key<K: Eq, H: Hasher<N, K>, const N: usize>(hasher: &H, key: &K) -> u16
    ensures { result ≡ level_of (H.digest_of hasher.now key.now) 16 }
{
    level(&hasher.hash(key), default_level_base()) as u16
}

/// How many keys of the list are on a level.
fn count_at<K: Eq, H: Hasher<N, K>, const N: usize>(
    hasher: &H,
    pairs: &[(K, ValueDigest<N>)],
    wanted: u16,
) -> usize
    ensures { result ≡ count_by (λ pair. level_of (H.digest_of hasher.now pair.0) 16 == wanted) pairs.now }
{
    let mut count = 0;
    'keys: for i in 0..pairs.len() {
        if level_of_key(hasher, &pairs[i].0) == wanted {
            count += 1;
        }
    }
    count
}
