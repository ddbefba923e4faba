//! The values of a side at keys.
ghost use Rattle.std.specs.Prelude.{◌≡◌, ◌++◌, ◌∷◌, IfOk, OnOk, ⊤};
ghost use Rattle.key_order.specs.Map.{get};
ghost use Rattle.merkle_bytes.specs.Encodings.{AddsBytes};
ghost use Rattle.merkle_bytes.specs.Options.{option_bytes};
ghost use Rattle.merkle_wire.specs.Messages.{front};
ghost use Rattle.merkle_wire.specs.Replies.{value_at_bytes, TellsWhatFits};
ghost use Rattle.merkle_wire.specs.Tellings.{TellsValues};

use crate::kept_side::KeptSide;
use crate::message::{Kind, begin};
use crate::outlines::is_full;
use crate::wanted::Wanted;
use merkle_bytes::Encode;
use merkle_digest::Key;
use merkle_replica::{Join, RowHasher};
use std::alloc::{AllocError, Global};

/// A message that tells the values at the keys, one after the other, as far as the bytes suffice.
pub(crate) fn tell_values<
    K: Key + Encode + Drop,
    V: Join + Encode,
    H: RowHasher<N, K, V>,
    S: KeptSide<N, K, V, H, R>,
    R,
    const N: usize,
>(
    alloc: Global,
    side: &mut S,
    beside: &R,
    most_bytes: usize,
    keys: &[Wanted<K>],
) -> Result<Vec<u8>, S::Error>
    ensures told { S.is_sound side.new → IfOk result (TellsValues K.cmp V.encoding (S.contents side.old beside.now).rows keys.now) }
    ensures kept { S.is_sound side.new → S.contents side.new beside.now ≡ S.contents side.old beside.now }
    ensures steady { S.is_sound side.new → S.is_sound side.old }
    ensures fits { S.is_sound side.new → IfOk result (λ reply. TellsWhatFits (value_at_bytes V.encoding) (λ bytes t. ⊤)
        most_bytes keys.now (front Kind.RowsAt) reply.items) }
{
    let mut bytes = begin(alloc, Kind::RowsAt)?;
    'keys: for wanted in keys {
        if is_full(&bytes, most_bytes) {
            return Ok(bytes);
        }
        tell_value(side, beside, &wanted.key, &mut bytes)?;
    }
    Ok(bytes)
}

/// Writes the value at a key: a byte 0 where there is none, or a byte 1 and the value.
fn tell_value<
    K: Key + Encode,
    V: Join + Encode,
    H: RowHasher<N, K, V>,
    S: KeptSide<N, K, V, H, R>,
    R,
    const N: usize,
>(side: &mut S, beside: &R, key: &K, bytes: &mut Vec<u8>) -> Result<(), S::Error>
    ensures told { S.is_sound side.new → OnOk result (AddsBytes bytes.old
        (option_bytes V.encoding (get K.cmp (S.contents side.old beside.now).rows key.now)) bytes.new) }
    ensures kept { S.is_sound side.new → S.contents side.new beside.now ≡ S.contents side.old beside.now }
    ensures steady { S.is_sound side.new → S.is_sound side.old }
{
    bytes.extend_from_slice(&[1])?;
    if side.add_value(beside, key, bytes)? {
        return Ok(());
    }
    bytes.pop();
    bytes.extend_from_slice(&[0])?;
    Ok(())
}
