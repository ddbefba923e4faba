//! Replies by deltas: how many bytes one can tell at most, and that what is heard is what was told.
ghost use Rattle.std.specs.Prelude.{IfOk, IsTrue};
ghost use Rattle.merkle_delta.specs.Messages.{IsPlain};
ghost use Rattle.examples.specs.Deltas.{AreMostTold, IsCarried};

use merkle_bytes::ReadError;
use merkle_delta::laws::{a_delta_is_bounded, what_is_told_is_heard};
use merkle_delta::{Chunks, Deltas, Heard, read_message, tell};
use std::alloc::Global;

/// How many bytes the plain reply has at most that a reply tells over these chunks, whoever made it: so who has room for fewer refuses the reply
/// before it is heard. It looks at the length of each chunk, and takes no memory.
pub fn most_told(own: &Chunks, reply: &[u8]) -> u128
    ensures { AreMostTold own.now reply.now result }
{
    a_delta_is_bounded();
    let mut most = reply.len() as u128;
    'chunks: for at in 0..own.len() {
        most += own.get(at).len() as u128;
    }
    most
}

/// A plain reply to a question, carried from the answering side to the asking one, both of which are at hand: as what it differs by from the asking side's
/// own reply, where there is one. Returns what is heard, and whether an audit was passed: then it is the plain reply or none, whatever digests are
/// equal. Any wire can stand between the calls.
///
/// # Errors
///
/// Out of memory, or the question begins as a message with checksums, which no question of `merkle_wire` does.
pub fn carried(
    alloc: Global,
    deltas: &mut Deltas,
    own: Option<Vec<u8>>,
    question: Vec<u8>,
    plain: Vec<u8>,
) -> Result<(Heard, bool), ReadError>
    ensures { IfOk result (λ carried. IsPlain question.items → IsTrue carried.1 → IsCarried plain.items carried.0) }
{
    what_is_told_is_heard();
    let whole = Vec::from_slice(alloc, &plain)?;
    let message = deltas.ask(alloc, own, question)?;
    let (checksums, _) = read_message(alloc, &message)?;
    let reply = tell(alloc, checksums, plain)?;
    let is_sure = deltas.tells_only(alloc, &reply, &whole)?;
    Ok((deltas.hear(alloc, reply)?, is_sure))
}
