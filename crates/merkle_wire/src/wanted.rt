//! Keys whose rows are asked for.
ghost use Rattle.merkle_bytes.specs.Keys.{key_behind};
ghost use Rattle.merkle_bytes.specs.RunTelling.{behind_some, key_told};

use merkle_bytes::{Decode, DecodeInRun, Encode, EncodeInRun, KeyRun, ReadError, Reader};
use std::alloc::AllocError;

/// A key of the peer.
#[derive(PartialEq, Eq, Drop)]
pub struct Wanted<K> {
    /// The key.
    pub key: K,
}

/// The key after the last one.
impl<K: Encode> EncodeInRun for Wanted<K> {
    ghost bytes_behind = { λ last wanted. key_behind last (K.encoding wanted.key) };

    ghost last_key = { λ last wanted. K.encoding wanted.key };

    fn encode_behind(&self, run: &mut KeyRun, bytes: &mut Vec<u8>) -> Result<(), AllocError> {
        run.encode(&self.key, bytes)
    }
}

impl<K: Decode> DecodeInRun for Wanted<K> {
    ghost is_entry = { λ wanted. K.is_value wanted.key };

    ghost some = { λ last wanted. behind_some last (K.encoding wanted.key) };

    ghost told = { λ last x y. key_told K.encoding K.eq K.told last x.key y.key };

    fn decode_behind(run: &mut KeyRun, reader: &mut Reader<'_>) -> Result<Self, ReadError> {
        let key = run.decode::<K>(reader)?;
        Ok(Wanted { key })
    }
}
