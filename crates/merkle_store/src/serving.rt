//! The answering side of a sync.
ghost use Rattle.std.specs.Prelude.{◌≡◌, IfOk};
ghost use Rattle.merkle_tree_theory.specs.State.{SameSettings};
ghost use Rattle.merkle_store.specs.Sessions.{ServesPeer, AnswersMessage};

use crate::framing::{ANSWER_BYTES, Watch, receive, send};
use crate::pausing::PausingSide;
use crate::session_fault::{SessionFault, unanswered};
use crate::traffic::Traffic;
use crate::wire::WireFault;
use merkle_delta::{read_message, tell};
use merkle_digest::SipHasher;
use merkle_wire::{AnswerError, KeptError, KeptSide, answer_by, refusal};
use std::alloc::Global;
use std::io::{Read, Write};
use store_file::Register;

/// How a peer was served.
#[derive(Clone, Copy, Debug, PartialEq, Eq, Drop)]
pub struct Served {
    /// What went over the wire.
    pub traffic: Traffic,
    /// Whether the peer asked no more and is to be asked now: it sent a message of no bytes. Else nothing is left to read.
    pub is_turn: bool,
}

/// The reply to a message: the plain one, or as its delta where the message tells checksums. It ends with the entry by which the plain one has
/// [`ANSWER_BYTES`].
fn answer<S: KeptSide<16, String, Register, SipHasher, ()>>(
    alloc: Global,
    side: &mut S,
    message: &[u8],
) -> Result<Vec<u8>, KeptError<S::Error>>
    ensures answered { S.is_sound side.new → IfOk result (AnswersMessage (S.contents side.old tt) (S.contents side.new tt) message.now) }
    ensures rows { S.is_sound side.new → (S.contents side.new tt).rows ≡ (S.contents side.old tt).rows }
    ensures settings { S.is_sound side.new → SameSettings (S.contents side.old tt).tree (S.contents side.new tt).tree }
    ensures steady { S.is_sound side.new → S.is_sound side.old }
{
    let (checksums, question) = match read_message(alloc, message) {
        Ok(read) => read,
        Err(error) => return Err(KeptError::Answer(AnswerError::from(error))),
    };
    let plain = answer_by(alloc, side, &(), question, ANSWER_BYTES)?;
    match tell(alloc, checksums, plain) {
        Ok(reply) => Ok(reply),
        Err(error) => Err(KeptError::Answer(AnswerError::from(error))),
    }
}

/// Tells a side that nothing is asked of it until the next message has come.
fn pause<S: PausingSide>(side: &mut S) -> Result<(), SessionFault<WireFault, S::Error>>
    ensures same { S.is_sound side.new → side.new ≡ side.old }
    ensures steady { S.is_sound side.new → S.is_sound side.old }
{
    match side.pause() {
        Ok(()) => Ok(()),
        Err(error) => Err(SessionFault::Side(error)),
    }
}

/// Answers a peer until it sends a message of no bytes, or its messages end, by a side that is kept anywhere, such as an
/// [`EntryReplica`](crate::rows::EntryReplica). Each message has at most `most` bytes; an answer ends with the entry by which it has
/// [`ANSWER_BYTES`], and the peer asks for the rest. The rows stay. The side pauses before each reply is sent, until the next message has come, so that a
/// slow peer keeps nobody waiting who needs what the side has. An answer takes the time and the memory of [`answer_by`], and of [`tell`] for a
/// message with checksums; nothing is kept between messages.
///
/// ```rust crates/mst/src/peers.rt
/// let served = serve(
///     rt.alloc(),
///     side,
///     MOST_BYTES,
///     from,
///     &mut rt.stdout(),
///     &mut Unwatched,
/// );
/// ```
///
/// # Errors
///
/// [`SessionFault`] of a [`WireFault`]: the peer is told that it is refused, where the output still takes that.
pub fn serve<S: PausingSide, R: Read, W: Write, P: Watch>(
    alloc: Global,
    side: &mut S,
    most: u64,
    from: &mut R,
    to: &mut W,
    watch: &mut P,
) -> Result<Served, SessionFault<WireFault, S::Error>>
    ensures served { S.is_sound side.new → IfOk result (ServesPeer (S.contents side.old tt) most
        (W.contents to.old, R.remaining from.old) (W.contents to.new, R.remaining from.new)) }
    ensures rows { S.is_sound side.new → (S.contents side.new tt).rows ≡ (S.contents side.old tt).rows }
    ensures settings { S.is_sound side.new → SameSettings (S.contents side.old tt).tree (S.contents side.new tt).tree }
    ensures steady { S.is_sound side.new → S.is_sound side.old }
{
    let mut traffic = Traffic::none();
    'messages: for _ in 0..u64::MAX {
        let Some(message) = receive(alloc, from, most, watch)? else {
            return Ok(Served {
                traffic,
                is_turn: false,
            });
        };
        if message.is_empty() {
            return Ok(Served {
                traffic,
                is_turn: true,
            });
        }
        match answer(alloc, side, &message) {
            Ok(reply) => {
                side.has_its_tree();
                pause(side)?;
                send(alloc, to, &reply)?;
                traffic = traffic.with(reply.len(), message.len());
            }
            Err(error) => {
                let _ = pause(side);
                let _ = send(alloc, to, &refusal(alloc)?);
                return Err(unanswered(error));
            }
        }
    }
    Err(SessionFault::Session(WireFault::Endless))
}
