//! Options as a byte 0, or a byte 1 and the value.
ghost use Rattle.merkle_bytes.specs.Options.{option_bytes, IsOption, option_some, option_told};

use crate::decode::Decode;
use crate::encode::Encode;
use crate::error::ReadError;
use crate::reader::Reader;
use std::alloc::AllocError;

/// A byte 0, or a byte 1 and the bytes of the value.
impl<T: Encode> Encode for Option<T> {
    ghost encoding = { option_bytes T.encoding };

    fn encode(&self, bytes: &mut Vec<u8>) -> Result<(), AllocError> {
        match self {
            Some(value) => {
                bytes.extend_from_slice(&[1])?;
                value.encode(bytes)
            }
            None => bytes.extend_from_slice(&[0]),
        }
    }
}

impl<T: Decode> Decode for Option<T> {
    ghost is_value = { IsOption T.is_value };

    ghost some = { option_some T.encoding };

    ghost told = { option_told T.encoding T.eq T.told };

    fn decode(reader: &mut Reader<'_>) -> Result<Self, ReadError> {
        if reader.flag()? {
            Ok(Some(T::decode(reader)?))
        } else {
            Ok(None)
        }
    }
}
