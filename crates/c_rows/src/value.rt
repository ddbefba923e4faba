//! Values: byte strings, of which the greatest stays.
ghost use Rattle.std.specs.Prelude.{◌≡◌, ⊤, IfOk, true};
ghost use Rattle.c_rows.specs.Values.{value_encoding};

use merkle_bytes::{Decode, Encode, ReadError, Reader};
use merkle_digest::{HashBytes, Sip24};
use merkle_replica::Join;
use std::alloc::{AllocError, Global};

/// A value. Of two the one is greater that has the greater byte where they first differ, or that goes on where the other ends.
#[derive(Debug, PartialEq, Eq, PartialOrd, Ord, Drop)]
pub struct ByteValue {
    pub bytes: Vec<u8>,
}

impl ByteValue {
    /// A value that is equal.
    fn copy(&self, alloc: Global) -> Result<ByteValue, AllocError>
        ensures { IfOk result (λ copy. ⟦<ByteValue as PartialEq>⟧.eq copy self.now ≡ true) }
    {
        let bytes = Vec::from_slice(alloc, self.bytes.as_slice())?;
        Ok(ByteValue { bytes })
    }
}

/// The bytes themselves.
impl HashBytes for ByteValue {
    ghost use Rattle.std.proofs.Common.{sym};
    ghost use Rattle.std.specs.Cmp.Lexicographic.{same_text};

    ghost fed_bytes = { λ value. value.bytes.items };

    ghost fed_bytes_respect_eq = { λ a b equal. same_text a.bytes.items b.bytes.items (sym equal) };

    fn feed(&self, sip: &mut Sip24) {
        sip.write(self.bytes.as_slice());
    }
}

/// The greater of two values. It takes the memory of a copy.
impl Join for ByteValue {
    ghost use Rattle.std.specs.Ordering.{ord_max};
    ghost use Rattle.key_order.proofs.Greater.{greater_joining};
    ghost use Rattle.c_rows.specs.contracts.value.ByteValueOrd.TheImpl.Laws.{total-law, matches_eq-law};

    ghost join_of = { ord_max ⟦<ByteValue as Ord>⟧.cmp };

    ghost joining = { greater_joining ⟦<ByteValue as Ord>⟧.cmp total-law ⟦<ByteValue as PartialEq>⟧.eq matches_eq-law };

    fn join(&self, alloc: Global, other: &Self) -> Result<Self, AllocError> {
        if other.cmp(self).is_lt() {
            self.copy(alloc)
        } else {
            other.copy(alloc)
        }
    }
}

/// How many bytes there are, and the bytes.
impl Encode for ByteValue {
    ghost encoding = { value_encoding };

    fn encode(&self, bytes: &mut Vec<u8>) -> Result<(), AllocError> {
        self.bytes.encode(bytes)
    }
}

impl Decode for ByteValue {
    ghost use Rattle.merkle_bytes.specs.Telling.{some_string, text_told};

    ghost is_value = { λ _. ⊤ };

    ghost some = { λ value. some_string value.bytes.items };

    ghost told = { λ a b r s. text_told a.bytes.items b.bytes.items r s };

    fn decode(reader: &mut Reader<'_>) -> Result<Self, ReadError> {
        let bytes = Vec::<u8>::decode(reader)?;
        Ok(ByteValue { bytes })
    }
}
