//! Pairs as their first and their second.
ghost use Rattle.std.specs.Prelude.{◌++◌};
ghost use Rattle.merkle_bytes.specs.Telling.{pair_some, pair_told};

use crate::decode::Decode;
use crate::encode::Encode;
use crate::error::ReadError;
use crate::reader::Reader;
use std::alloc::AllocError;

/// The bytes of the first, and then those of the second.
impl<A: Encode, B: Encode> Encode for (A, B) {
    ghost encoding = { λ pair. A.encoding pair.0 ++ B.encoding pair.1 };

    fn encode(&self, bytes: &mut Vec<u8>) -> Result<(), AllocError> {
        self.0.encode(bytes)?;
        self.1.encode(bytes)
    }
}

impl<A: Decode, B: Decode> Decode for (A, B) {
    ghost is_value = { λ pair. A.is_value pair.0 × B.is_value pair.1 };

    ghost some = { λ pair. pair_some (A.encoding pair.0) (B.encoding pair.1) (A.some pair.0) };

    ghost told = { λ a b r s.
        pair_told (A.encoding a.0) (B.encoding a.1) (A.encoding b.0) (B.encoding b.1) r s (A.eq a.0 b.0) (B.eq a.1 b.1)
        (A.told a.0 b.0 (B.encoding a.1 ++ r) (B.encoding b.1 ++ s)) (B.told a.1 b.1 r s) };

    fn decode(reader: &mut Reader<'_>) -> Result<Self, ReadError> {
        let first = A::decode(reader)?;
        let second = B::decode(reader)?;
        Ok((first, second))
    }
}
