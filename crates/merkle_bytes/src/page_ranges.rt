//! Page ranges as their first key, their last key and their digest.
ghost use Rattle.std.specs.Prelude.{◌≡◌, ◌++◌};
ghost use Rattle.merkle_diff.specs.PageRange.{entry};
ghost use Rattle.merkle_bytes.specs.PageRanges.{entry_bytes, IsEntry, entry_some, entry_told};

use crate::decode::Decode;
use crate::encode::Encode;
use crate::error::{Expected, ReadError};
use crate::reader::Reader;
use merkle_diff::{OwnedPageRange, PageRange};
use merkle_digest::PageDigest;
use std::alloc::AllocError;

/// The bytes of its first key, those of its last key, and those of its digest.
impl<K: Ord + Encode> Encode for PageRange<'_, K> {
    ghost encoding = { λ range. entry_bytes K.encoding (entry range) };

    fn encode(&self, bytes: &mut Vec<u8>) -> Result<(), AllocError> {
        self.start().encode(bytes)?;
        self.end().encode(bytes)?;
        self.hash().as_bytes().encode(bytes)
    }
}

/// The bytes of its first key, those of its last key, and those of its digest.
impl<K: Ord + Encode> Encode for OwnedPageRange<K> {
    ghost encoding = { entry_bytes K.encoding };

    fn encode(&self, bytes: &mut Vec<u8>) -> Result<(), AllocError> {
        self.start().encode(bytes)?;
        self.end().encode(bytes)?;
        self.hash().as_bytes().encode(bytes)
    }
}

/// Its first key is not above its last.
impl<K: Ord + Decode> Decode for OwnedPageRange<K> {
    ghost is_value = { IsEntry K.is_value K.cmp };

    ghost some = { entry_some K.encoding };

    ghost told = { entry_told K.encoding K.eq K.told };

    fn decode(reader: &mut Reader<'_>) -> Result<Self, ReadError> {
        let ((first, last), digest) = <((K, K), [u8; 16])>::decode(reader)?;
        match OwnedPageRange::try_new(first, last, PageDigest::new(digest)) {
            Some(range) => Ok(range),
            None => Err(reader.unexpected(Expected::LastKey)),
        }
    }
}
