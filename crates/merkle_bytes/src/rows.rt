//! Rows of a run, as the key after the last one, and the value.
ghost use Rattle.std.specs.Prelude.{◌++◌};
ghost use Rattle.merkle_bytes.specs.RunTelling.{row_some, row_told};
ghost use Rattle.merkle_bytes.specs.Runs.{row_behind, row_key};

use crate::decode::Decode;
use crate::encode::Encode;
use crate::error::ReadError;
use crate::key_run::KeyRun;
use crate::reader::Reader;
use crate::run_entry::{DecodeInRun, EncodeInRun};
use std::alloc::AllocError;

/// The key after the last one, and the bytes of the value.
impl<K: Encode, V: Encode> EncodeInRun for (K, V) {
    ghost bytes_behind = { row_behind K.encoding V.encoding };

    ghost last_key = { row_key K.encoding };

    fn encode_behind(&self, run: &mut KeyRun, bytes: &mut Vec<u8>) -> Result<(), AllocError> {
        run.encode(&self.0, bytes)?;
        self.1.encode(bytes)
    }
}

impl<K: Decode, V: Decode> DecodeInRun for (K, V) {
    ghost is_entry = { λ row. K.is_value row.0 × V.is_value row.1 };

    ghost some = { λ last row. row_some K.encoding V.encoding last row };

    ghost told = { row_told K.encoding K.eq K.told V.encoding V.eq V.told };

    fn decode_behind(run: &mut KeyRun, reader: &mut Reader<'_>) -> Result<Self, ReadError> {
        let key = run.decode::<K>(reader)?;
        let value = V::decode(reader)?;
        Ok((key, value))
    }
}
