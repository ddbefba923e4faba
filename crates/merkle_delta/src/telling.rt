//! The answering side: it reads the checksums in a message, and tells its reply as the delta for them.
ghost use Rattle.std.specs.Prelude.{◌≡◌, ◌≢◌, ◌<◌, ◌^◌, ◌∷◌, ℕ, List, IfOk, IfErr};
ghost use Rattle.std.specs.List.{AllByRecursion};
ghost use Rattle.merkle_bytes.specs.Refusals.{IsMalformed};
ghost use Rattle.merkle_delta.specs.Messages.{AsksQuestion, IsToldFor, asking_bytes};

use crate::delta::add_delta;
use crate::message::{ASKS, TELLS, behind};
use merkle_bytes::{ReadError, Reader, decode_list};
use std::alloc::{AllocError, Global};

/// Reads a message: the checksums that it tells, where it does, and its question, which is then to be answered as if it had come alone. [`tell`] makes
/// of the answer what the peer is sent.
///
/// ```rust crates/merkle_store/src/serving.rt
/// let plain = answer_by(alloc, side, &(), question, ANSWER_BYTES)?;
/// match tell(alloc, checksums, plain) {
///     Ok(reply) => Ok(reply),
///     Err(error) => Err(KeptError::Answer(AnswerError::from(error))),
/// }
/// ```
///
/// # Errors
///
/// [`ReadError`]: the message begins as one with checksums, and has none; or out of memory.
pub fn read_message<'a>(
    alloc: Global,
    message: &'a [u8],
) -> Result<(Option<Vec<u32>>, &'a [u8]), ReadError>
    ensures asked { IfOk result (λ asked. AsksQuestion asked.0 asked.1.now message.now) }

    // The message begins as one with checksums, and no checksums are there.
    ensures begins { IfErr result (λ error. IsMalformed error → (rest : List ℕ) × (message.now ≡ 1 ∷ 6 ∷ rest)) }
    ensures malformed { IfErr result (λ error. IsMalformed error → (sums question : List ℕ) → AllByRecursion (λ c. c < 2 ^ 32) sums
        → message.now ≢ asking_bytes sums question) }
{
    let Some(asked) = behind(ASKS, message) else {
        return Ok((None, message));
    };
    let mut reader = Reader::new(alloc, asked);
    let checksums = decode_list::<u32>(&mut reader)?;
    Ok((Some(checksums), reader.left()))
}

/// What a peer is sent of a plain reply: what it differs by from bytes whose chunks have the checksums that the peer told, or the reply itself where it
/// told none. It takes time linear in the plain reply and in the checksums, and some 100 bytes of memory a chunk and a checksum.
///
/// # Errors
///
/// Out of memory.
pub fn tell(
    alloc: Global,
    checksums: Option<Vec<u32>>,
    plain: Vec<u8>,
) -> Result<Vec<u8>, AllocError>
    ensures { IfOk result (λ reply. IsToldFor checksums plain.items reply.items) }
{
    let Some(checksums) = checksums else {
        return Ok(plain);
    };
    let mut reply = Vec::from_slice(alloc, &TELLS)?;
    add_delta(alloc, &checksums, plain, &mut reply)?;
    Ok(reply)
}
