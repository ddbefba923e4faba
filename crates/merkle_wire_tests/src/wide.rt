//! Values that are longer than their digests.
ghost use Rattle.std.specs.Prelude.{◌≡◌, length};
ghost use Rattle.std.specs.Cmp.Rules.{comparing};
ghost use Rattle.std.proofs.Common.{rules};
ghost use Rattle.merkle_bytes.specs.Encodings.{string_encoding};
ghost use Rattle.merkle_bytes.specs.Telling.{some_string, text_told};
ghost use Rattle.merkle_digest.specs.Sip24.{Holds};

use merkle_bytes::{Decode, Encode, ReadError, Reader};
use merkle_digest::{HashBytes, Sip24};
use merkle_replica::Join;
use std::alloc::{AllocError, Global};

/// A value of 32 bytes, of which the greatest stays.
#[derive(Clone, Copy, PartialEq, Eq, PartialOrd, Ord)]
pub struct Wide {
    pub bytes: [u8; 32],
}

impl Wide {
    /// The value that has this byte 32 times.
    pub fn of(byte: u8) -> Self {
        Wide { bytes: [byte; 32] }
    }
}

/// The 32 bytes.
impl HashBytes for Wide {
    ghost fed_bytes = { λ wide. wide.bytes };

    ghost fed_bytes_respect_eq = { λ a b equal. Prim.search rules };

    fn feed(&self, sip: &mut Sip24) {
        self.bytes.feed(sip);
    }
}

/// The greater value. It takes no memory.
impl Join for Wide {
    ghost use Rattle.std.specs.Ordering.{ord_max};
    ghost use Rattle.key_order.proofs.Greater.{greater_joining};

    ghost join_of = { ord_max ⟦<Wide as Ord>⟧.cmp };

    ghost joining = { greater_joining ⟦<Wide as Ord>⟧.cmp (Prim.search (comparing, rules)) ⟦<Wide as PartialEq>⟧.eq (Prim.search (comparing, rules)) };

    fn join(&self, _alloc: Global, other: &Self) -> Result<Self, AllocError> {
        Ok((*self).max(*other))
    }
}

/// The 32 bytes after their number.
impl Encode for Wide {
    ghost encoding = { λ wide. string_encoding wide.bytes };

    fn encode(&self, bytes: &mut Vec<u8>) -> Result<(), AllocError> {
        self.bytes.encode(bytes)
    }
}

impl Decode for Wide {
    ghost is_value = { λ wide. length wide.bytes ≡ 32 };

    ghost some = { λ wide. some_string wide.bytes };

    ghost told = { λ a b r s. text_told a.bytes b.bytes r s };

    fn decode(reader: &mut Reader<'_>) -> Result<Self, ReadError> {
        let bytes = <[u8; 32]>::decode(reader)?;
        Ok(Wide { bytes })
    }
}
