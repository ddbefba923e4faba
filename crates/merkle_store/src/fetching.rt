//! The asking side of a sync: what a peer has that this side lacks, over a pair of pipes or a socket.
ghost use Rattle.std.specs.Prelude.{◌≤◌, ◌≡◌, ◌↔◌, length, All, IsTrue, IfOk, OnOk};
ghost use Rattle.std.specs.Io.KnownBytes.{Appends, Consumes};
ghost use Rattle.merkle_delta.specs.Hearing.{IsSentFor};
ghost use Rattle.merkle_store.specs.Fetches.{AreFit, EntriesCame, HasFetched, IsShortEntry, IsAtMost};
ghost use Rattle.merkle_store.specs.Framing.{frame_of};
ghost use Rattle.merkle_store.specs.News.{AreTimely};
ghost use Rattle.merkle_store.specs.Sessions.{AsksByRows, CatchUpBegins, Takes};

use crate::fetch_fault::{FetchFault, Untaken};
use crate::framing::{Watch, receive, send};
use crate::pausing::PausingAsker;
use crate::session_fault::{SessionFault, untaken};
use crate::traffic::Traffic;
use crate::wire::WireFault;
use merkle_delta::{Deltas, Heard};
use merkle_digest::SipHasher;
use merkle_wire::{AskingReplica, CatchingUp, Limit, Limits, Next, SessionError};
use std::alloc::{AllocError, Global};
use std::io::{Read, Write};
use store_file::Register;
use store_file::table::Entries;

/// How many questions are asked at most, which the peer can't raise. Where parts of an answer have
/// [`ANSWER_BYTES`](crate::framing::ANSWER_BYTES), this many bring a tebibyte, which no store in memory has.
const MOST_MESSAGES: usize = 65_536;

/// How many questions are asked whatever comes. A session asks for the root, for the outlines of each level with their nodes, and for the rows that
/// these leave. A tree has at most 33 levels, so this many suffice, but for the rest of an answer that has more than one part.
const FREE_MESSAGES: usize = 256;

/// How many bytes have to come for each further question. A part has more ([`ANSWER_BYTES`](crate::framing::ANSWER_BYTES)).
const BYTES_FOR_MESSAGE: usize = 65_536;

/// How many bytes the key, the writer and the value of a peer's entry have at most: 1 MiB each.
pub const MOST_TEXT: usize = 1_048_576;

/// What is taken of a peer.
#[derive(Clone, Copy, Debug, PartialEq, Eq)]
pub struct Terms {
    /// How many bytes a reply has at most.
    pub most_bytes: u64,
    /// How many entries may come, if there is a most.
    pub most_entries: Option<u64>,
    /// The latest time that an entry may have, in milliseconds since 1970.
    pub latest: u64,
}

/// What a peer has that a side lacks.
#[derive(Debug, Drop)]
pub struct Fetched {
    /// The entries of the peer that came, ascending by key: at each key the side has none, or another.
    pub came: Entries,
    /// What went over the wire.
    pub traffic: Traffic,
}

/// Sends a message, and takes the reply. Nothing is asked of the side until that has come.
fn ask<S: PausingAsker, R: Read, W: Write, P: Watch>(
    alloc: Global,
    side: &mut S,
    from: &mut R,
    to: &mut W,
    most: u64,
    watch: &mut P,
    message: &[u8],
) -> Result<Vec<u8>, SessionFault<WireFault, S::Error>>
    ensures sent { OnOk result (Appends (W.contents to.old) (W.contents to.new) (frame_of message.now)) }
    ensures came { IfOk result (λ reply. Consumes (R.remaining from.old) (R.remaining from.new) (frame_of reply.items)) }
    ensures fits { IfOk result (λ reply. length reply.items ≤ most) }
    ensures same { S.is_sound side.new → side.new ≡ side.old }
    ensures steady { S.is_sound side.new → S.is_sound side.old }
{
    if let Err(error) = side.pause() {
        return Err(SessionFault::Side(error));
    }
    send(alloc, to, message)?;
    match receive(alloc, from, most, watch)? {
        Some(reply) => Ok(reply),
        None => Err(SessionFault::Session(WireFault::Cut)),
    }
}

/// The traffic with a message of this many bytes and a reply of this many more. A peer that tells little in each reply isn't heard for ever.
fn counted(traffic: &Traffic, sent: usize, came: usize) -> Result<Traffic, WireFault> {
    let traffic = traffic.with(sent, came);
    if traffic.messages > FREE_MESSAGES.saturating_add(traffic.came / BYTES_FOR_MESSAGE) {
        return Err(WireFault::Endless);
    }
    Ok(traffic)
}

/// The limits of a catch-up: no more rows than entries may come.
fn limits_of(terms: &Terms) -> Limits {
    let mut limits = Limits::default();
    if terms.most_entries.is_some() {
        limits.rows = terms.most_entries;
    }
    limits
}

/// Begins a catch-up of a side. Returns it with its message, and with about how many rows the side has.
fn begin<S: AskingReplica<16, String, Register, SipHasher>>(
    alloc: Global,
    side: &mut S,
) -> Result<(CatchingUp<String, Register>, Vec<u8>, u64), SessionFault<WireFault, S::Error>>
    ensures begins { S.is_sound side.new → IfOk result (λ begun. CatchUpBegins (S.whole side.old) begun.0 begun.1.items) }
    ensures rows { S.is_sound side.new → OnOk result (AsksByRows (S.kept side.new).digests (S.whole side.old)) }
    ensures kept { S.is_sound side.new → S.kept side.new ≡ S.kept side.old }
    ensures steady { S.is_sound side.new → S.is_sound side.old }
{
    side.asks_by_its_rows();
    let count = match side.row_count() {
        Ok(count) => count,
        Err(error) => return Err(SessionFault::Side(error)),
    };
    match CatchingUp::begin_by(alloc, side) {
        Ok(begun) => {
            let (session, message) = begun;
            Ok((session, message, count))
        }
        Err(error) => Err(SessionFault::Side(error)),
    }
}

/// What comes in a catch-up after a reply.
fn take<S: AskingReplica<16, String, Register, SipHasher>>(
    side: &mut S,
    session: CatchingUp<String, Register>,
    count: u64,
    reply: &[u8],
) -> Result<Next<String, Register>, SessionFault<WireFault, S::Error>>
    ensures next { S.is_sound side.new → IfOk result (Takes (S.kept side.old).digests session reply.now) }
    ensures kept { S.is_sound side.new → S.kept side.new ≡ S.kept side.old }
    ensures steady { S.is_sound side.new → S.is_sound side.old }
{
    match session.take_by(side, count, reply) {
        Ok(next) => Ok(next),
        Err(error) => Err(untaken(error)),
    }
}

/// The message for the next question of a catch-up: after the checksums of what the side itself would reply, while the peer replies by deltas.
fn message_for<S: AskingReplica<16, String, Register, SipHasher>>(
    alloc: Global,
    side: &mut S,
    session: &CatchingUp<String, Register>,
    deltas: &mut Deltas,
    question: Vec<u8>,
) -> Result<Vec<u8>, SessionFault<WireFault, S::Error>>
    ensures sent { IfOk result (λ message. IsSentFor question.items deltas.new message.items) }
    ensures kept { S.is_sound side.new → S.kept side.new ≡ S.kept side.old }
    ensures steady { S.is_sound side.new → S.is_sound side.old }
{
    if !deltas.are_known() {
        return Ok(deltas.ask(alloc, None, question)?);
    }
    match side.own_reply_to(session, deltas.pay()) {
        Ok(own) => Ok(deltas.ask(alloc, own, question)?),
        Err(error) => Err(SessionFault::Side(error)),
    }
}

/// The entries of a peer that a side lacks, and what went over the wire.
fn entries_of_peer<S: PausingAsker, R: Read, W: Write, P: Watch>(
    alloc: Global,
    side: &mut S,
    from: &mut R,
    to: &mut W,
    limits: Limits,
    most: u64,
    watch: &mut P,
) -> Result<(Entries, Traffic), SessionFault<WireFault, S::Error>>
    ensures came { S.is_sound side.new → IfOk result (EntriesCame most (S.whole side.old)
        (W.contents to.old, R.remaining from.old) (W.contents to.new, R.remaining from.new)) }
    ensures kept { S.is_sound side.new → S.kept side.new ≡ S.kept side.old }
    ensures steady { S.is_sound side.new → S.is_sound side.old }
{
    let (session, message, count) = begin(alloc, side)?;
    let mut session = session.within(limits);
    let mut message = message;
    let mut deltas = Deltas::new();
    let mut traffic = Traffic::none();
    'messages: for _ in 0..MOST_MESSAGES {
        let reply = ask(alloc, side, from, to, most, watch, &message)?;
        traffic = counted(&traffic, message.len(), reply.len())?;
        match deltas.hear(alloc, reply)? {
            Heard::Again(question) => message = question,
            Heard::Reply(plain) => match take(side, session, count, &plain)? {
                Next::Ask(next, question) => {
                    message = message_for(alloc, side, &next, &mut deltas, question)?;
                    session = next;
                }
                Next::Came(entries) => return Ok((entries, traffic)),
            },
        }
    }
    Err(SessionFault::Session(WireFault::Endless))
}

/// Whether the key, the writer and the value of an entry are as short as they have to be.
fn is_short(entry: &(String, Register)) -> bool
    ensures { IsTrue result ↔ IsShortEntry entry.now }
{
    let value = match &entry.1.value {
        Some(value) => value.as_bytes().len(),
        None => 0,
    };
    entry.0.len() <= MOST_TEXT && entry.1.writer.len() <= MOST_TEXT && value <= MOST_TEXT
}

/// An entry of a peer that isn't taken, in memory of its own.
fn naming(alloc: Global, entry: &(String, Register)) -> Result<Untaken, AllocError> {
    Ok(Untaken {
        key: String::from_str(alloc, entry.0.as_str())?,
        time: entry.1.time,
        writer: String::from_str(alloc, entry.1.writer.as_str())?,
    })
}

/// Refuses more entries than are taken. (The session has ended before that already.)
fn expect_few(count: usize, most: Option<u64>) -> Result<(), FetchFault>
    ensures { OnOk result (IsAtMost most count) }
{
    match most {
        Some(most) if count as u64 > most => Err(FetchFault::TooMany),
        _ => Ok(()),
    }
}

/// Refuses entries of a peer of which one is too long, or too far ahead of the clock.
fn expect_fit(alloc: Global, entries: &[(String, Register)], latest: u64) -> Result<(), FetchFault>
    ensures short { OnOk result (All IsShortEntry entries.now) }
    ensures timely { OnOk result (AreTimely latest entries.now) }
{
    'entries: for entry in entries {
        if !is_short(entry) {
            return Err(FetchFault::TooLong(naming(alloc, entry)?));
        }
        if entry.1.time > latest {
            return Err(FetchFault::Ahead(naming(alloc, entry)?));
        }
    }
    Ok(())
}

/// Refuses entries that aren't taken.
fn expect_taken(alloc: Global, terms: &Terms, entries: &Entries) -> Result<(), FetchFault>
    ensures few { OnOk result (IsAtMost terms.now.most_entries (length entries.now.items)) }
    ensures fit { OnOk result (AreFit terms.now.latest entries.now.items) }
{
    expect_few(entries.len(), terms.most_entries)?;
    expect_fit(alloc, entries, terms.latest)
}

/// Why nothing was fetched, where the peer was not heard.
fn unheard(fault: WireFault) -> FetchFault {
    match fault {
        WireFault::Reply(SessionError::Limit(Limit::Rows)) => FetchFault::TooMany,
        fault => FetchFault::Wire(fault),
    }
}

/// What a peer has that a side lacks, or has with another register, all or none, for a side that is kept anywhere, such as an
/// [`EntryReplica`](crate::rows::EntryReplica). The rows stay. The side pauses before each message is sent, until the reply has come. If a reply has more
/// bytes than the terms say, or more entries come, or one that isn't taken, it fails. Besides the catch-up it takes time linear in the entries that came.
/// [`news_in`](crate::news::news_in) finds those that are later.
///
/// ```rust crates/mst/src/peers.rt
/// let terms = terms_of(rt, limits)?;
/// let mut lines = lines_of(rt);
/// let fetched = fetch(rt.alloc(), side, &terms, from, &mut rt.stdout(), &mut lines);
/// ```
///
/// # Errors
///
/// [`SessionFault`] of a [`FetchFault`].
pub fn fetch<S: PausingAsker, R: Read, W: Write, P: Watch>(
    alloc: Global,
    side: &mut S,
    terms: &Terms,
    from: &mut R,
    to: &mut W,
    watch: &mut P,
) -> Result<Fetched, SessionFault<FetchFault, S::Error>>
    ensures fetched { S.is_sound side.new → IfOk result (HasFetched terms.now (S.whole side.old)
        (W.contents to.old, R.remaining from.old) (W.contents to.new, R.remaining from.new)) }
    ensures few { IfOk result (λ fetched. IsAtMost terms.now.most_entries (length fetched.came.items)) }
    ensures fit { IfOk result (λ fetched. AreFit terms.now.latest fetched.came.items) }
    ensures kept { S.is_sound side.new → S.kept side.new ≡ S.kept side.old }
    ensures steady { S.is_sound side.new → S.is_sound side.old }
{
    match entries_of_peer(
        alloc,
        side,
        from,
        to,
        limits_of(terms),
        terms.most_bytes,
        watch,
    ) {
        Ok((came, traffic)) => {
            expect_taken(alloc, terms, &came)?;
            Ok(Fetched { came, traffic })
        }
        Err(SessionFault::Session(fault)) => Err(SessionFault::Session(unheard(fault))),
        Err(SessionFault::Side(error)) => Err(SessionFault::Side(error)),
    }
}
