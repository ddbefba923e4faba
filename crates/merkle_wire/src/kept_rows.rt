//! Rows that are kept anywhere: in memory, in a file, in a database.
ghost use Rattle.std.specs.Prelude.{◌≡◌, List, length, IfOk, OnOk};
ghost use Rattle.merkle_wire.specs.Steps.{AddsValueAt, TellsPart};

use crate::gaps::OwnedGap;
use crate::rows_in::tell_part;
use merkle_bytes::Encode;
use merkle_digest::{Hasher, Key};
use merkle_replica::{Join, Replica};
use std::alloc::AllocError;

/// The rows of the answering side, wherever they are kept. The digests of their values are in a
/// [`MerkleSearchTree`](merkle_search_tree::MerkleSearchTree) beside them.
///
/// A call may fail, for example to read a disk or a network, and the message is then not answered. Values are told as bytes, so that one that is kept
/// as its bytes need not be read and written again.
pub trait KeptRows<K: Ord + Encode, V: Encode> {
    /// Why a row can't be told: out of memory, or a reason of where the rows are kept.
    type Error: From<AllocError> + Drop;

    /// The rows, in ascending key order.
    ghost rows: { Self → List (K × V) };

    /// Whether values are at hand, so that pages are told by their rows where these are short; else they are told by digests, and the values that the
    /// peer lacks are asked for by their keys.
    fn are_at_hand(&self) -> bool;

    /// How many rows there are.
    fn count(&self) -> Result<u64, Self::Error>
        ensures { IfOk result (λ count. count ≡ length (rows self.now)) };

    /// Adds the bytes of the value at a key, where there is one, and returns whether there is.
    fn add_value(&self, key: &K, bytes: &mut Vec<u8>) -> Result<bool, Self::Error>
        ensures { IfOk result (AddsValueAt K.cmp V.encoding (rows self.now) key.now bytes.old bytes.new) };

    /// Adds the rows in a gap, or the first of them: how many they are, the rows, each with its key after the one before, and a byte 1 where they are
    /// all, or 0 where more are after. It ends with the row by which there are this many bytes. [`tell_part`] does it with rows in memory.
    fn add_part(
        &self,
        most_bytes: usize,
        gap: &OwnedGap<K>,
        bytes: &mut Vec<u8>,
    ) -> Result<(), Self::Error>
        ensures { OnOk result (TellsPart K.cmp K.encoding V.encoding (rows self.now) most_bytes gap.now bytes.old bytes.new) };
}

/// The rows in memory.
impl<
    K: Key + Encode + Drop,
    V: Join + Encode + Drop,
    H: Hasher<N, K> + Hasher<N, V>,
    const N: usize,
> KeptRows<K, V> for Replica<K, V, H, N> {
    type Error = AllocError;

    ghost rows = { λ replica. replica.rows };

    fn are_at_hand(&self) -> bool {
        true
    }

    fn count(&self) -> Result<u64, AllocError> {
        Ok(self.rows().len() as u64)
    }

    fn add_value(&self, key: &K, bytes: &mut Vec<u8>) -> Result<bool, AllocError> {
        match self.row_at(key) {
            None => Ok(false),
            Some(row) => {
                row.1.encode(bytes)?;
                Ok(true)
            }
        }
    }

    fn add_part(
        &self,
        most_bytes: usize,
        gap: &OwnedGap<K>,
        bytes: &mut Vec<u8>,
    ) -> Result<(), AllocError> {
        tell_part(self.alloc(), self.rows(), most_bytes, gap, bytes)
    }
}
