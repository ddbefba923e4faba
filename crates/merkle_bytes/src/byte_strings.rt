//! Texts, byte strings and arrays of bytes as how many bytes they have, and their bytes.
ghost use Rattle.std.specs.Prelude.{◌≡◌, ◌++◌, OnOk, length, string_bytes, ⊤};
ghost use Rattle.merkle_bytes.specs.Encodings.{string_encoding};
ghost use Rattle.merkle_bytes.specs.Telling.{some_string, text_told};

use crate::counts::encode_count;
use crate::decode::Decode;
use crate::encode::Encode;
use crate::error::{Expected, ReadError};
use crate::reader::Reader;
use std::alloc::AllocError;

/// Writes a byte string: how many bytes it has, and the bytes.
fn encode_bytes(string: &[u8], bytes: &mut Vec<u8>) -> Result<(), AllocError>
    ensures { OnOk result (bytes.new.items ≡ bytes.old.items ++ string_encoding string.now) }
{
    encode_count(string.len() as u64, bytes)?;
    bytes.extend_from_slice(string)
}

/// How many bytes it has, and its bytes, in UTF-8.
impl Encode for String {
    ghost encoding = { λ text. string_encoding (string_bytes text) };

    fn encode(&self, bytes: &mut Vec<u8>) -> Result<(), AllocError> {
        encode_bytes(self.as_bytes(), bytes)
    }
}

impl Decode for String {
    ghost is_value = { λ _. ⊤ };

    ghost some = { λ text. some_string (string_bytes text) };

    ghost told = { λ a b r s. text_told (string_bytes a) (string_bytes b) r s };

    fn decode(reader: &mut Reader<'_>) -> Result<Self, ReadError> {
        let alloc = reader.alloc();
        let bytes = reader.byte_string()?;
        let owned = Vec::from_slice(alloc, bytes)?;
        match String::from_utf8(owned) {
            Ok(text) => Ok(text),
            Err(_) => return Err(reader.unexpected(Expected::Text)),
        }
    }
}

/// How many bytes there are, and the bytes.
impl Encode for Vec<u8> {
    ghost encoding = { λ string. string_encoding string.items };

    fn encode(&self, bytes: &mut Vec<u8>) -> Result<(), AllocError> {
        encode_bytes(self, bytes)
    }
}

impl Decode for Vec<u8> {
    ghost is_value = { λ _. ⊤ };

    ghost some = { λ string. some_string string.items };

    ghost told = { λ a b r s. text_told a.items b.items r s };

    fn decode(reader: &mut Reader<'_>) -> Result<Self, ReadError> {
        let alloc = reader.alloc();
        let bytes = reader.byte_string()?;
        Ok(Vec::from_slice(alloc, bytes)?)
    }
}

/// How many bytes there are, and the bytes.
impl<const M: usize> Encode for [u8; M] {
    ghost encoding = { string_encoding };

    fn encode(&self, bytes: &mut Vec<u8>) -> Result<(), AllocError> {
        encode_bytes(self, bytes)
    }
}

/// A byte string that has as many bytes as the array.
impl<const M: usize> Decode for [u8; M] {
    ghost is_value = { λ array. length array ≡ M };

    ghost some = { some_string };

    ghost told = { text_told };

    fn decode(reader: &mut Reader<'_>) -> Result<Self, ReadError> {
        let count = reader.count()?;
        if count != M as u64 {
            return Err(reader.unexpected(Expected::Length));
        }
        let array = reader.array::<M>()?;
        Ok(array)
    }
}
