//! The fronts of messages with checksums and of replies that are deltas, and what stands after them.
ghost use Rattle.std.specs.Prelude.{◌≡◌, ◌≢◌, ◌++◌, ℕ, List, map, IfOk, MatchOption};
ghost use Rattle.merkle_delta.specs.Chunks.{checksum};
ghost use Rattle.merkle_delta.specs.Messages.{asking_bytes};

use crate::checksum::checksum;
use crate::chunks::Chunks;
use merkle_bytes::encode_list;
use std::alloc::{AllocError, Global};

/// The front of a message with checksums: the version, and the kind.
pub(crate) const ASKS: [u8; 2] = [1, 6];

/// The front of a reply that is a delta.
pub(crate) const TELLS: [u8; 2] = [1, 134];

/// What stands after the front of a message, where it has this one.
pub(crate) fn behind<'a>(front: [u8; 2], message: &'a [u8]) -> Option<&'a [u8]>
    ensures { MatchOption result ((rest : List ℕ) → message.now ≢ front ++ rest) (λ rest. message.now ≡ front ++ rest.now) }
{
    let Some((first, rest)) = message.split_first_chunk::<2>() else {
        return None;
    };
    if *first != front {
        return None;
    }
    Some(rest)
}

/// A question after the checksums of chunks.
pub(crate) fn encode_asking(
    alloc: Global,
    own: &Chunks,
    question: &[u8],
) -> Result<Vec<u8>, AllocError>
    ensures { IfOk result (λ message. message.items ≡ asking_bytes (map checksum own.now) question.now) }
{
    let checksums = checksums_of(alloc, own)?;
    let mut message = Vec::from_slice(alloc, &ASKS)?;
    encode_list(&checksums, &mut message)?;
    message.extend_from_slice(question)?;
    Ok(message)
}

/// The checksums of chunks.
fn checksums_of(alloc: Global, own: &Chunks) -> Result<Vec<u32>, AllocError>
    ensures { IfOk result (λ checksums. checksums.items ≡ map checksum own.now) }
{
    let mut checksums = Vec::new(alloc);
    'chunks: for at in 0..own.len() {
        checksums.push(checksum(own.get(at)))?;
    }
    Ok(checksums)
}
