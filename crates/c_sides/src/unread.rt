//! Rows of which only the number is known.
ghost use Rattle.std.specs.Prelude.{◌≡◌};

use c_rows::ByteValue;
use merkle_wire::{KeptRows, OwnedGap};
use std::alloc::AllocError;

/// As many rows as there are keys, of which none is read: a contract sees one row, as often as that. So the peer is told of pages by digests, and no
/// question for rows is answered by them.
#[derive(Drop)]
pub struct Unread {
    pub count: u64,
    pub row: (Vec<u8>, ByteValue),
}

impl KeptRows<Vec<u8>, ByteValue> for Unread {
    ghost use Rattle.std.specs.Prelude.{replicate};

    type Error = AllocError;

    ghost rows = { λ unread. replicate unread.count unread.row };

    fn are_at_hand(&self) -> bool {
        false
    }

    fn count(&self) -> Result<u64, AllocError> {
        Ok(self.count)
    }

    fn add_value(&self, _key: &Vec<u8>, _bytes: &mut Vec<u8>) -> Result<bool, AllocError> {
        Err(AllocError)
    }

    fn add_part(
        &self,
        _most_bytes: usize,
        _gap: &OwnedGap<Vec<u8>>,
        _bytes: &mut Vec<u8>,
    ) -> Result<(), AllocError> {
        Err(AllocError)
    }
}
