//! What the digests of two sides rest on, which the first message tells: sides whose settings differ have no digest in common.
ghost use Rattle.std.specs.Option.{option_map};
ghost use Rattle.std.specs.Prelude.{◌≡◌, ◌≢◌, ◌<◌, ◌^◌, OnOk, IfOk, IfErr, MatchOption, IsTrue, ◌↔◌};
ghost use Rattle.merkle_bytes.specs.Encodings.{AddsBytes};
ghost use Rattle.merkle_bytes.specs.Reading.{Reads, BeginsWithNo};
ghost use Rattle.merkle_bytes.specs.Refusals.{IsMalformed, IsRefusal};
ghost use Rattle.merkle_bytes.specs.Options.{IsOption};
ghost use Rattle.merkle_tree_theory.specs.declared.page_format.PageFormat.{PageFormat as PageFormatOf};
ghost use Rattle.merkle_wire.specs.Settings.{format_byte, settings_bytes, AreSettings, AreSettingsBy};
ghost use Rattle.merkle_wire.specs.Sessions.{IsKeyOf};

use crate::kept_tree::KeptTree;
use merkle_bytes::{Decode, Encode, Expected, ReadError, Reader, encode_count};
use merkle_digest::{Hasher, Key};
use merkle_replica::{Join, RowHasher};
use merkle_search_tree::builder::PageFormat;
use std::alloc::{AllocError, Global};

/// What the digests of a side depend on.
#[derive(Drop)]
pub struct Settings<K> {
    /// The level base.
    pub level_base: u8,
    /// The page format.
    pub page_format: PageFormat,
    /// How many bytes the digests of keys and values have.
    pub digest_bytes: u64,
    /// A key of this side with its digest by this side's hasher, where it has a row.
    pub sample: Option<(K, Vec<u8>)>,
}

/// The byte of a page format.
fn byte_of(format: PageFormat) -> u8
    ensures { result ≡ format_byte format }
{
    match format {
        PageFormat::V1 => 1,
        PageFormat::V2 => 2,
    }
}

/// The page format of a byte.
fn format_of(byte: u8) -> Option<PageFormat>
    ensures { MatchOption result ((format : PageFormatOf) → byte ≢ format_byte format) (λ format. byte ≡ format_byte format) }
{
    match byte {
        1 => Some(PageFormat::V1),
        2 => Some(PageFormat::V2),
        _ => None,
    }
}

/// Writes settings: a byte for the level base, a byte for the page format, the number of bytes of a digest as a count, and the sample as an
/// option of a pair.
pub(crate) fn encode_settings<K: Encode>(
    settings: &Settings<K>,
    bytes: &mut Vec<u8>,
) -> Result<(), AllocError>
    ensures { OnOk result (AddsBytes bytes.old (settings_bytes K.encoding settings.now) bytes.new) }
{
    bytes.extend_from_slice(&[settings.level_base, byte_of(settings.page_format)])?;
    encode_count(settings.digest_bytes, bytes)?;
    settings.sample.encode(bytes)?;
    Ok(())
}

/// Reads settings.
pub(crate) fn decode_settings<K: Decode>(reader: &mut Reader<'_>) -> Result<Settings<K>, ReadError>
    ensures read { IfOk result (λ settings. Reads reader.old (settings_bytes K.encoding settings) reader.new) }
    ensures settings { IfOk result (AreSettings K.is_value) }
    ensures total { reader.new.total ≡ reader.old.total }
    ensures refused { IfErr result (IsRefusal reader.old.total reader.old.left.now) }
    ensures malformed { IfErr result (λ error. IsMalformed error → BeginsWithNo (settings_bytes K.encoding) (AreSettings K.is_value) reader.old.left.now) }
{
    let [level_base] = reader.array::<1>()?;
    let [byte] = reader.array::<1>()?;
    let Some(page_format) = format_of(byte) else {
        return Err(reader.unexpected(Expected::PageFormat));
    };
    let digest_bytes = reader.count()?;
    let sample = Option::<(K, Vec<u8>)>::decode(reader)?;
    Ok(Settings {
        level_base,
        page_format,
        digest_bytes,
        sample,
    })
}

/// The settings of a tree that is kept anywhere, with the digest of this key, where there is one.
pub(crate) fn settings_with<
    K: Key,
    V: Join,
    H: RowHasher<N, K, V>,
    T: KeptTree<N, K, V, H>,
    const N: usize,
>(alloc: Global, tree: &T, key: Option<K>) -> Result<Settings<K>, AllocError>
    ensures settings { IfOk result (AreSettingsBy ⟦<H as Hasher<N, K>>⟧.digest_of N (T.kept tree.now).digests) }
    ensures sample { IfOk result (λ settings. option_map (λ p. p.0) settings.sample ≡ key) }
    ensures few { IfOk result (λ settings. settings.digest_bytes < 2 ^ 64) }
{
    let sample = match key {
        None => None,
        Some(key) => Some(digested(alloc, tree, key)?),
    };
    Ok(Settings {
        level_base: tree.level_base().get(),
        page_format: tree.page_format(),
        digest_bytes: N as u64,
        sample,
    })
}

/// A key with its digest by the tree's hasher.
fn digested<K: Key, V: Join, H: RowHasher<N, K, V>, T: KeptTree<N, K, V, H>, const N: usize>(
    alloc: Global,
    tree: &T,
    key: K,
) -> Result<(K, Vec<u8>), AllocError>
    ensures key { IfOk result (λ pair. pair.0 ≡ key) }
    ensures digest { IfOk result (λ pair. pair.1.items ≡ ⟦<H as Hasher<N, K>>⟧.digest_of (T.kept tree.now).digests.hasher key) }
{
    let digest = tree.digest_of_key(&key);
    let bytes = Vec::from_slice(alloc, digest.as_bytes().as_slice())?;
    Ok((key, bytes))
}

/// The settings of a tree that is kept anywhere, with the digest of a key of its own, where it has one.
pub(crate) fn settings_of<
    K: Key + Drop,
    V: Join,
    H: RowHasher<N, K, V>,
    T: KeptTree<N, K, V, H>,
    const N: usize,
>(alloc: Global, tree: &mut T) -> Result<Settings<K>, T::Error>
    ensures settings { T.is_sound tree.new → IfOk result (AreSettingsBy ⟦<H as Hasher<N, K>>⟧.digest_of N (T.kept tree.old).digests) }
    ensures keys { T.is_sound tree.new → IfOk result (AreSettings (IsKeyOf K.cmp (T.kept tree.old).digests.map)) }
    ensures kept { T.is_sound tree.new → T.kept tree.new ≡ T.kept tree.old }
    ensures steady { T.is_sound tree.new → T.is_sound tree.old }
{
    let key = tree.some_key()?;
    let settings = settings_with(alloc, tree, key)?;
    Ok(settings)
}

/// Whether these are the settings of a tree that is kept anywhere.
pub fn are_settings_of<
    K: Key,
    V: Join,
    H: RowHasher<N, K, V>,
    T: KeptTree<N, K, V, H>,
    const N: usize,
>(tree: &T, settings: &Settings<K>) -> bool
    ensures { IsTrue result ↔ AreSettingsBy ⟦<H as Hasher<N, K>>⟧.digest_of N (T.kept tree.now).digests settings.now }
{
    if settings.level_base != tree.level_base().get() {
        return false;
    }
    if settings.page_format != tree.page_format() {
        return false;
    }
    if settings.digest_bytes != N as u64 {
        return false;
    }
    has_digest(tree, &settings.sample)
}

/// Whether the digest of a sample is that of its key by the tree's hasher.
fn has_digest<K: Key, V: Join, H: RowHasher<N, K, V>, T: KeptTree<N, K, V, H>, const N: usize>(
    tree: &T,
    sample: &Option<(K, Vec<u8>)>,
) -> bool
    ensures { IsTrue result ↔ IsOption (λ p. p.1.items ≡ ⟦<H as Hasher<N, K>>⟧.digest_of (T.kept tree.now).digests.hasher p.0) sample.now }
{
    match sample {
        None => true,
        Some(pair) => {
            let digest = tree.digest_of_key(&pair.0);
            digest.as_bytes().as_slice() == pair.1.as_slice()
        }
    }
}
