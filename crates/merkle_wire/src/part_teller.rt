//! Rows in a gap that are told one after the other, of which none but the next need be in memory.
ghost use Rattle.std.specs.Prelude.{◌≡◌, ◌-◌, ◌∷◌, [], length, IfOk, OnOk};
ghost use Rattle.merkle_bytes.specs.Runs.{bound_key};
ghost use Rattle.merkle_wire.specs.Parts.{EndsPart, HasTold, PartSoFar};

use crate::gaps::OwnedGap;
use crate::rows_in::byte_of;
use merkle_bytes::{Encode, EncodeInRun, KeyRun, encode_count};
use std::alloc::{AllocError, Global};
use std::marker::Model;

/// The first of the rows in a gap, as their bytes in a message, told one after the other as far as the bytes of the message suffice.
#[derive(Drop)]
pub struct PartTeller {
    /// How many bytes the rows may have.
    room: usize,
    /// How many rows there are.
    count: usize,
    /// The last key.
    run: KeyRun,
    /// The rows.
    bytes: Vec<u8>,
}

impl Model for PartTeller {
    ghost Value = { PartSoFar };

    ghost view = { λ part. record { room = part.room; count = part.count; last = part.run; bytes = part.bytes.items } };
}

impl PartTeller {
    /// No row yet, of a message that has these bytes and may have `most_bytes`.
    ///
    /// # Errors
    ///
    /// Out of memory.
    pub fn begin<K: Encode>(
        alloc: Global,
        most_bytes: usize,
        gap: &OwnedGap<K>,
        bytes: &[u8],
    ) -> Result<PartTeller, AllocError>
        ensures room { IfOk result (λ part. part.room ≡ most_bytes - length bytes.now) }
        ensures count { IfOk result (λ part. part.count ≡ 0) }
        ensures last { IfOk result (λ part. part.last ≡ bound_key K.encoding [] gap.now.after) }
        ensures bytes { IfOk result (λ part. part.bytes ≡ []) }
    {
        Ok(PartTeller {
            room: most_bytes.saturating_sub(bytes.len()),
            count: 0,
            run: KeyRun::behind(alloc, gap.after.as_ref())?,
            bytes: Vec::new(alloc),
        })
    }

    /// Tells a row after those before, and returns whether there is room for more. Rows come in ascending order, from the first in the gap on.
    ///
    /// # Errors
    ///
    /// Out of memory.
    pub fn add<K: Encode, V: Encode>(&mut self, row: &(K, V)) -> Result<bool, AllocError>
        ensures { IfOk result (HasTold K.encoding V.encoding self.old self.new (row.now ∷ [])) }
    {
        let Some(count) = self.count.checked_add(1) else {
            return Err(AllocError);
        };
        row.encode_behind(&mut self.run, &mut self.bytes)?;
        self.count = count;
        Ok(self.bytes.len() < self.room)
    }

    /// Adds the rows to the message: how many they are, the rows, and a byte 1 where they are all, or 0 where more are after.
    ///
    /// # Errors
    ///
    /// Out of memory.
    pub fn end<K: Ord + Encode, V: Encode>(
        self,
        whole: bool,
        bytes: &mut Vec<u8>,
    ) -> Result<(), AllocError>
        ensures { OnOk result (EndsPart K.cmp K.encoding V.encoding self whole bytes.old bytes.new) }
    {
        encode_count(self.count as u64, bytes)?;
        bytes.extend_from_slice(&self.bytes)?;
        bytes.extend_from_slice(&[byte_of(whole)])?;
        Ok(())
    }
}
