//! Keys of a run that may be absent, as a byte 0, or a byte 1 and the key after the last one.
ghost use Rattle.merkle_bytes.specs.RunTelling.{bound_some, bound_told};
ghost use Rattle.merkle_bytes.specs.Runs.{bound_behind, bound_key};
ghost use Rattle.merkle_bytes.specs.Options.{IsOption};

use crate::decode::Decode;
use crate::encode::Encode;
use crate::error::ReadError;
use crate::key_run::KeyRun;
use crate::reader::Reader;
use crate::run_entry::{DecodeInRun, EncodeInRun};
use std::alloc::AllocError;

/// A byte 0, or a byte 1 and the key after the last one.
impl<K: Encode> EncodeInRun for Option<K> {
    ghost bytes_behind = { bound_behind K.encoding };

    ghost last_key = { bound_key K.encoding };

    fn encode_behind(&self, run: &mut KeyRun, bytes: &mut Vec<u8>) -> Result<(), AllocError> {
        match self {
            Some(key) => {
                bytes.extend_from_slice(&[1])?;
                run.encode(key, bytes)
            }
            None => bytes.extend_from_slice(&[0]),
        }
    }
}

impl<K: Decode> DecodeInRun for Option<K> {
    ghost is_entry = { IsOption K.is_value };

    ghost some = { λ last bound. bound_some K.encoding last bound };

    ghost told = { bound_told K.encoding K.eq K.told };

    fn decode_behind(run: &mut KeyRun, reader: &mut Reader<'_>) -> Result<Self, ReadError> {
        if reader.flag()? {
            Ok(Some(run.decode::<K>(reader)?))
        } else {
            Ok(None)
        }
    }
}
