//! The asking side: it tells with a question what it would reply itself, by the checksums of chunks, and restores the reply that comes.
ghost use Rattle.std.specs.Prelude.{◌≡◌, ◌≢◌, ◌⊎◌, None, ℕ, List, IfOk, IfErr, IsTrue};
ghost use Rattle.merkle_delta.specs.Chunks.{digest_of};
ghost use Rattle.merkle_delta.specs.Hearing.{IsHeard, IsSafe, IsSentFor};
ghost use Rattle.merkle_delta.specs.Messages.{IsReplyOver};
ghost use Rattle.merkle_delta.specs.declared.patch.PatchError.TheVariants.{Unlike};

use crate::checksum::digest_of;
use crate::chunks::Chunks;
use crate::message::{TELLS, behind, encode_asking};
use crate::patch::{PatchError, patch};
use merkle_bytes::Reader;
use std::alloc::{AllocError, Global};
use std::marker::Model;

/// How many bytes an own reply has at least for which checksums are told.
const FEWEST: usize = 64;

/// The asking side's part in a session by deltas: what it told with its last question, and whether deltas pay.
///
/// ```rust crates/merkle_store/src/fetching.rt
/// match deltas.hear(alloc, reply)? {
///     Heard::Again(question) => message = question,
///     Heard::Reply(plain) => match take(side, session, count, &plain)? {
/// ```
#[derive(Drop)]
pub struct Deltas {
    told: Option<Told>,
    worth: Worth,
}

/// A question, and the chunks of this side's own reply to it, whose checksums were told.
#[derive(Drop)]
struct Told {
    question: Vec<u8>,
    own: Chunks,
}

impl Model for Told {
    ghost use Rattle.merkle_delta.specs.Hearing.{Told as ToldOf};

    ghost Value = { ToldOf };

    ghost view = { λ told. record { question = told.question.items; own = told.own } };
}

impl Model for Deltas {
    ghost use Rattle.std.specs.Prelude.{Option};
    ghost use Rattle.merkle_delta.specs.Hearing.{Told as ToldOf};

    ghost Value = { Option ToldOf };

    ghost view = { λ deltas. deltas.told };
}

/// What a peer's deltas are worth.
#[derive(Clone, Copy, PartialEq, Eq, Drop)]
enum Worth {
    /// The last one and the checksums for it had fewer bytes than the plain reply, or none came yet.
    Pay,
    /// They had more.
    Cost,
    /// The peer replied by none: it doesn't know them, or chunks had equal checksums.
    Fail,
}

/// What a reply was heard as.
#[derive(Drop)]
pub enum Heard {
    /// This plain reply.
    Reply(Vec<u8>),
    /// The delta of no reply: this question, which was asked after checksums, is to be asked again alone.
    Again(Vec<u8>),
}

impl Deltas {
    /// The deltas of a session that begins.
    pub fn new() -> Self
        ensures { result ≡ None }
    {
        Deltas {
            told: None,
            worth: Worth::Pay,
        }
    }

    /// Whether this side's own reply is of use in [`ask`](Self::ask): the peer has replied to checksums by a delta so far, or got none yet.
    pub fn are_known(&self) -> bool {
        self.worth != Worth::Fail
    }

    /// Whether the last delta and the checksums for it had fewer bytes than the reply that it told.
    pub fn pay(&self) -> bool {
        self.worth == Worth::Pay
    }

    /// The message that asks a question: after the checksums of the chunks of this side's own reply, if there is one of 64 bytes or more, else alone. It
    /// takes time linear in the own reply, and some 100 bytes of memory a chunk.
    ///
    /// # Errors
    ///
    /// Out of memory.
    pub fn ask(
        &mut self,
        alloc: Global,
        own: Option<Vec<u8>>,
        question: Vec<u8>,
    ) -> Result<Vec<u8>, AllocError>
        ensures { IfOk result (λ message. IsSentFor question.items self.new message.items) }
    {
        self.told = None;
        let Some(own) = own else {
            return Ok(question);
        };
        if own.len() < FEWEST {
            return Ok(question);
        }
        let own = Chunks::cut(alloc, own)?;
        let message = encode_asking(alloc, &own, &question)?;
        self.told = Some(Told { question, own });
        Ok(message)
    }

    /// What the reply to the last message of [`ask`](Self::ask) tells: itself where no checksums were told, else the plain reply that it is the delta of. A
    /// delta of no reply comes of chunks with equal checksums, or of a peer that doesn't know such messages. It takes time linear in the plain reply,
    /// which has at most as many bytes as the own one and the delta together.
    ///
    /// # Errors
    ///
    /// Out of memory.
    pub fn hear(&mut self, alloc: Global, reply: Vec<u8>) -> Result<Heard, AllocError>
        ensures heard { IfOk result (IsHeard self.old reply.items) }
        ensures none_told { IfOk result (λ heard. self.new ≡ None) }
    {
        let Some(told) = self.told.take() else {
            return Ok(Heard::Reply(reply));
        };
        match plain_reply(alloc, &told.own, &reply) {
            Ok(plain) => {
                self.worth = worth_of(&told.own, &reply, &plain);
                Ok(Heard::Reply(plain))
            }
            Err(PatchError::Memory) => Err(AllocError),
            Err(PatchError::Unlike) => {
                self.worth = Worth::Fail;
                Ok(Heard::Again(told.question))
            }
        }
    }

    /// Whether a reply tells nothing but these bytes, or bytes with another digest than theirs: so where a peer's plain reply was these, what is heard
    /// is that, or nothing. It is for an audit of a session whose both sides are at hand. It takes the time and memory of [`hear`](Self::hear).
    ///
    /// # Errors
    ///
    /// Out of memory.
    pub fn tells_only(&self, alloc: Global, reply: &[u8], whole: &[u8]) -> Result<bool, AllocError>
        ensures { IfOk result (λ only. IsTrue only → IsSafe self.now reply.now whole.now) }
    {
        let Some(told) = &self.told else {
            return Ok(true);
        };
        match plain_reply(alloc, &told.own, reply) {
            Ok(plain) => Ok(has_bytes_or_other_digest(&plain, whole)),
            Err(PatchError::Memory) => Err(AllocError),
            Err(PatchError::Unlike) => Ok(true),
        }
    }
}

/// Whether bytes are the others, or have another digest.
fn has_bytes_or_other_digest(bytes: &[u8], others: &[u8]) -> bool
    ensures { IsTrue result → (bytes.now ≡ others.now) ⊎ (digest_of bytes.now ≢ digest_of others.now) }
{
    bytes == others || digest_of(bytes) != digest_of(others)
}

/// The plain reply that a reply is the delta of.
fn plain_reply(alloc: Global, own: &Chunks, reply: &[u8]) -> Result<Vec<u8>, PatchError>
    ensures plain { IfOk result (λ plain. IsReplyOver own.now reply.now plain.items) }
    ensures unlike { IfErr result (λ error. error ≡ Unlike → (plain : List ℕ) → ¬ IsReplyOver own.now reply.now plain) }
{
    let Some(delta) = behind(TELLS, reply) else {
        return Err(PatchError::Unlike);
    };
    let mut reader = Reader::new(alloc, delta);
    let plain = patch(own, &mut reader)?;
    Ok(plain)
}

/// Whether a delta and the checksums that were told for it had fewer bytes than the plain reply.
fn worth_of(own: &Chunks, delta: &[u8], plain: &[u8]) -> Worth {
    if delta.len().saturating_add(own.len().saturating_mul(4)) < plain.len() {
        Worth::Pay
    } else {
        Worth::Cost
    }
}
