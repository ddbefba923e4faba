//! What sessions take over a wire: plain ones, and those by deltas.

use crate::fault::Fault;
use crate::replicas::Numbers;
use merkle_delta::{Deltas, Heard, read_message, tell};
use merkle_wire::{CatchingUp, Next, answer};
use std::alloc::Global;

/// How many messages a session sends here at most: 515 questions, which are one for the root, one for the outlines and one for the nodes of
/// each of 256 levels, and two for rows; and each once more for each 64 MiB of what it is answered, or where it was told by a delta in vain.
const MOST_MESSAGES: usize = 2_048;

/// What comes after a reply: the next message, or this many rows.
enum Step<S> {
    Ask(S, Vec<u8>),
    Came(usize),
}

/// A session that waits for a reply.
trait Session: Sized + Drop {
    /// The session of a side that begins, and its first message.
    fn begun(alloc: Global, local: &Numbers) -> Result<(Self, Vec<u8>), Fault>;

    /// The peer's reply to a message.
    fn reply_to(alloc: Global, peer: &mut Numbers, message: &[u8]) -> Result<Vec<u8>, Fault>;

    /// What comes after a reply.
    fn next(self, alloc: Global, local: &mut Numbers, reply: Vec<u8>) -> Result<Step<Self>, Fault>;

    /// How many rounds of outlines were asked for.
    fn outlined(&self) -> u32;
}

impl Session for CatchingUp<String, u64> {
    fn begun(alloc: Global, local: &Numbers) -> Result<(Self, Vec<u8>), Fault> {
        Ok(CatchingUp::begin(alloc, local)?)
    }

    fn reply_to(alloc: Global, peer: &mut Numbers, message: &[u8]) -> Result<Vec<u8>, Fault> {
        match answer(alloc, peer, message) {
            Ok(reply) => Ok(reply),
            Err(_) => Err(Fault::Memory),
        }
    }

    fn next(
        self,
        _alloc: Global,
        local: &mut Numbers,
        reply: Vec<u8>,
    ) -> Result<Step<Self>, Fault> {
        match self.take(local, &reply) {
            Ok(Next::Ask(session, question)) => Ok(Step::Ask(session, question)),
            Ok(Next::Came(rows)) => Ok(Step::Came(rows.len())),
            Err(_) => Err(Fault::Memory),
        }
    }

    fn outlined(&self) -> u32 {
        self.rounds()
    }
}

/// A session by deltas that waits for a reply.
#[derive(Drop)]
struct ByDeltas {
    session: CatchingUp<String, u64>,
    deltas: Deltas,
}

impl ByDeltas {
    /// The message for the next question.
    fn message_for(
        &mut self,
        alloc: Global,
        local: &mut Numbers,
        question: Vec<u8>,
    ) -> Result<Vec<u8>, Fault> {
        let mut own = None;
        if self.deltas.are_known() {
            own = self.session.own_reply(local, self.deltas.pay())?;
        }
        Ok(self.deltas.ask(alloc, own, question)?)
    }
}

impl Session for ByDeltas {
    fn begun(alloc: Global, local: &Numbers) -> Result<(Self, Vec<u8>), Fault> {
        let (session, message) = CatchingUp::begin(alloc, local)?;
        let deltas = Deltas::new();
        Ok((ByDeltas { session, deltas }, message))
    }

    fn reply_to(alloc: Global, peer: &mut Numbers, message: &[u8]) -> Result<Vec<u8>, Fault> {
        let Ok((checksums, question)) = read_message(alloc, message) else {
            return Err(Fault::Memory);
        };
        let plain = CatchingUp::reply_to(alloc, peer, question)?;
        Ok(tell(alloc, checksums, plain)?)
    }

    fn next(self, alloc: Global, local: &mut Numbers, reply: Vec<u8>) -> Result<Step<Self>, Fault> {
        let ByDeltas {
            session,
            mut deltas,
        } = self;
        let plain = match deltas.hear(alloc, reply)? {
            Heard::Again(question) => {
                return Ok(Step::Ask(ByDeltas { session, deltas }, question));
            }
            Heard::Reply(plain) => plain,
        };
        match session.next(alloc, local, plain)? {
            Step::Ask(session, question) => {
                let mut next = ByDeltas { session, deltas };
                let message = next.message_for(alloc, local, question)?;
                Ok(Step::Ask(next, message))
            }
            Step::Came(count) => Ok(Step::Came(count)),
        }
    }

    fn outlined(&self) -> u32 {
        self.session.rounds()
    }
}

/// What a session takes over a wire.
#[derive(Clone, Copy)]
pub struct Cost {
    pub messages: usize,
    pub rounds: u32,
    pub sent: usize,
    pub came: usize,
    pub fetched: usize,
}

impl Cost {
    /// The bytes of the messages of both sides.
    pub fn bytes(&self) -> usize {
        self.sent.saturating_add(self.came)
    }
}

/// The bytes of the messages of a session, of both sides, and how many rows it brings. Nothing is joined.
pub fn cost_of(
    alloc: Global,
    local: &mut Numbers,
    peer: &mut Numbers,
    by_deltas: bool,
) -> Result<Cost, Fault> {
    if by_deltas {
        return run::<ByDeltas>(alloc, local, peer);
    }
    run::<CatchingUp<String, u64>>(alloc, local, peer)
}

/// Runs a session of this kind, and returns what it takes.
fn run<S: Session>(alloc: Global, local: &mut Numbers, peer: &mut Numbers) -> Result<Cost, Fault> {
    let (mut session, mut message) = S::begun(alloc, local)?;
    let (mut sent, mut came) = (0usize, 0usize);
    for before in 0..MOST_MESSAGES {
        let reply = S::reply_to(alloc, peer, &message)?;
        sent = sent.saturating_add(message.len());
        came = came.saturating_add(reply.len());
        let rounds = session.outlined();
        match session.next(alloc, local, reply)? {
            Step::Ask(next, question) => {
                session = next;
                message = question;
            }
            Step::Came(fetched) => {
                return Ok(Cost {
                    messages: before.saturating_add(1),
                    rounds,
                    sent,
                    came,
                    fetched,
                });
            }
        }
    }
    Err(Fault::Memory)
}
