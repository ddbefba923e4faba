//! Sessions between two replicas in memory, by deltas and plainly.
use crate::rows::Rows;
use merkle_delta::{Deltas, Heard, read_message, tell};
use merkle_wire::{AnswerError, CatchingUp, Limits, Next, SessionError, answer_within};
use std::alloc::{AllocError, Global};
use std::test::Fail;

/// How many messages a session has here at most.
const MOST_MESSAGES: usize = 10_000;

/// What a session took.
#[derive(Debug, Default, PartialEq, Eq, Drop)]
pub(crate) struct Cost {
    pub(crate) messages: usize,
    pub(crate) sent: usize,
    pub(crate) came: usize,
}

impl Cost {
    /// One message more and its reply.
    fn add(&mut self, message: &[u8], reply: &[u8]) {
        self.messages = self.messages.saturating_add(1);
        self.sent = self.sent.saturating_add(message.len());
        self.came = self.came.saturating_add(reply.len());
    }

    /// All bytes.
    pub(crate) fn bytes(&self) -> usize {
        self.sent.saturating_add(self.came)
    }
}

/// A catch-up that waits for a reply, with what it knows of deltas if it goes by them.
#[derive(Drop)]
pub(crate) struct Session {
    session: CatchingUp<String, u64>,
    deltas: Option<Deltas>,
}

/// What comes after a reply: the next message, or the rows.
#[derive(Drop)]
pub(crate) enum Step {
    Ask(Session, Vec<u8>),
    Came(Vec<(String, u64)>),
}

impl Session {
    /// The session by deltas of a side that begins, and its first message.
    pub(crate) fn begin(alloc: Global, local: &Rows) -> Result<(Self, Vec<u8>), AllocError> {
        let (session, message) = CatchingUp::begin(alloc, local)?;
        let deltas = Some(Deltas::new());
        Ok((Session { session, deltas }, message))
    }

    /// The same under these limits.
    pub(crate) fn within(self, limits: Limits) -> Self {
        let Session { session, deltas } = self;
        Session {
            session: session.within(limits),
            deltas,
        }
    }

    /// What comes after a reply.
    pub(crate) fn hear(
        self,
        alloc: Global,
        local: &mut Rows,
        reply: Vec<u8>,
    ) -> Result<Step, SessionError> {
        let Session {
            session,
            mut deltas,
        } = self;
        let mut plain = reply;
        if let Some(known) = &mut deltas {
            match known.hear(alloc, plain)? {
                Heard::Again(question) => {
                    return Ok(Step::Ask(Session { session, deltas }, question));
                }
                Heard::Reply(heard) => plain = heard,
            }
        }
        match session.take(local, &plain)? {
            Next::Ask(session, question) => {
                let message = message_for(alloc, local, &session, &mut deltas, question)?;
                Ok(Step::Ask(Session { session, deltas }, message))
            }
            Next::Came(rows) => Ok(Step::Came(rows)),
        }
    }
}

/// The message for a question.
fn message_for(
    alloc: Global,
    local: &mut Rows,
    session: &CatchingUp<String, u64>,
    deltas: &mut Option<Deltas>,
    question: Vec<u8>,
) -> Result<Vec<u8>, AllocError> {
    let Some(deltas) = deltas else {
        return Ok(question);
    };
    let mut own = None;
    if deltas.are_known() {
        own = session.own_reply(local, deltas.pay())?;
    }
    deltas.ask(alloc, own, question)
}

/// The peer's plain reply to a message, and what is sent of it.
pub(crate) fn answer_in_full(
    alloc: Global,
    peer: &mut Rows,
    message: &[u8],
    most_bytes: usize,
) -> Result<(Vec<u8>, Vec<u8>), AnswerError> {
    let (checksums, question) = read_message(alloc, message)?;
    let plain = answer_within(alloc, peer, question, most_bytes)?;
    let copy = Vec::from_slice(alloc, &plain)?;
    Ok((plain, tell(alloc, checksums, copy)?))
}

/// The peer's reply to a message.
pub(crate) fn answer(
    alloc: Global,
    peer: &mut Rows,
    message: &[u8],
) -> Result<Vec<u8>, AnswerError> {
    let (checksums, question) = read_message(alloc, message)?;
    let plain = merkle_wire::answer(alloc, peer, question)?;
    Ok(tell(alloc, checksums, plain)?)
}

/// The peer's reply to a message by deltas, which tells nothing else than the plain one that it is made of.
fn told(
    alloc: Global,
    deltas: &Deltas,
    peer: &mut Rows,
    message: &[u8],
    most_bytes: usize,
) -> Result<Vec<u8>, Fail> {
    let (plain, reply) = answer_in_full(alloc, peer, message, most_bytes)?;
    if !deltas.tells_only(alloc, &reply, &plain)? {
        return Err(Fail::new("a reply tells other bytes"));
    }
    Ok(reply)
}

/// The rows that a session brings from a peer whose plain replies end at this many bytes, and what it took.
fn played(
    alloc: Global,
    begun: (Session, Vec<u8>),
    local: &mut Rows,
    peer: &mut Rows,
    most_bytes: usize,
) -> Result<(Vec<(String, u64)>, Cost), Fail> {
    let mut cost = Cost::default();
    let (mut session, mut message) = begun;
    for _message in 0..MOST_MESSAGES {
        let reply = match &session.deltas {
            Some(deltas) => told(alloc, deltas, peer, &message, most_bytes)?,
            None => answer_within(alloc, peer, &message, most_bytes)?,
        };
        cost.add(&message, &reply);
        match session.hear(alloc, local, reply)? {
            Step::Ask(next, question) => {
                session = next;
                message = question;
            }
            Step::Came(rows) => return Ok((rows, cost)),
        }
    }
    Err(Fail::new("no end"))
}

/// The same of a session by deltas.
pub(crate) fn by_deltas(
    alloc: Global,
    local: &mut Rows,
    peer: &mut Rows,
    most_bytes: usize,
) -> Result<(Vec<(String, u64)>, Cost), Fail> {
    let begun = Session::begin(alloc, local)?;
    played(alloc, begun, local, peer, most_bytes)
}

/// The same of a session without deltas.
pub(crate) fn plainly(
    alloc: Global,
    local: &mut Rows,
    peer: &mut Rows,
    most_bytes: usize,
) -> Result<(Vec<(String, u64)>, Cost), Fail> {
    let (session, message) = CatchingUp::begin(alloc, local)?;
    let plain = Session {
        session,
        deltas: None,
    };
    played(alloc, (plain, message), local, peer, most_bytes)
}
