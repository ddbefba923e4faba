//! A whole catch-up between two replicas, through messages.
ghost use Rattle.std.specs.Prelude.{◌≡◌, IfOk, IfErr, OnOk, Some, ◌<◌};
ghost use Rattle.merkle_replica.specs.Contents.{side, with_rows};
ghost use Rattle.merkle_tree_theory.specs.State.{SameSettings};
ghost use Rattle.merkle_wire.specs.Faults.{both_messages_error_text, messages_error_text};
ghost use Rattle.merkle_wire.specs.Underway.{nothing};
ghost use Rattle.merkle_wire.specs.Limits.{no_limits};
ghost use Rattle.merkle_wire.specs.Questions.{IsQuestion, question_bytes, AsksForRoot};
ghost use Rattle.merkle_wire.specs.Sessions.{AreBothRefused, AreBrought, HasJoined, IsFaithfulSession, IsMessagesRefused, BothHoldTheJoin};
ghost use Rattle.merkle_wire.specs.Sessions.{EndsBeforeJoin};
ghost use Rattle.merkle_wire.specs.Sessions.{IsKeyOf, IsForMemory};
ghost use Rattle.merkle_wire.specs.Next.{IfAsks};
ghost use Rattle.merkle_wire.specs.ItsRows.{digests_of};
ghost use Rattle.merkle_replica.specs.CatchUp.{IsCatchUpOf};
ghost use Rattle.key_order.specs.Join.{IsJoin};
ghost use Rattle.merkle_wire.specs.SessionLaws.{FailsToExchange, IsExchange};
ghost use Rattle.key_order.specs.Map.{IsMap};

use crate::answering::{AnswerError, answer};
use crate::catching_up::{CatchingUp, Next};
use crate::limits::Limits;
use crate::session_error::SessionError;
use merkle_bytes::Decode;
use merkle_digest::{Hasher, Key};
use merkle_replica::laws::a_replica_in_memory_is_small;
use merkle_replica::{Join, JoinRefused, Replica, RowHasher};
use merkle_search_tree::laws::{a_map_has_one_tree, every_tree_is_sound};
use std::alloc::{AllocError, Global};
use std::fmt;

/// Why a catch-up through messages ended early.
#[derive(Clone, Copy, Debug, PartialEq, Eq, Drop)]
pub enum MessagesError {
    /// A message has no reply. Nothing is joined.
    Answer(AnswerError),
    /// A reply was refused. Nothing is joined.
    Session(SessionError),
    /// Out of memory as the rows were joined: the first of them are, this many.
    Join(usize),
}

impl fmt::Display for MessagesError {
    ghost output = { λ error. Some (messages_error_text error) };

    fn fmt<W: fmt::Write>(&self, f: &mut fmt::Formatter<W>) -> fmt::Result {
        match self {
            MessagesError::Answer(error) => write!(f, "a message has no reply: {error}"),
            MessagesError::Session(error) => error.fmt(f),
            MessagesError::Join(done) => write!(f, "memory was refused after {done} rows"),
        }
    }
}

/// Catches up with a peer by messages, each written to bytes and read again. Returns how many rows of the peer were joined.
///
/// ```rust crates/merkle_wire_tests/src/first_calls.rt
/// laptop.put(String::from_str(alloc, "bananas")?, 7)?;
/// let joined = catch_up_by_messages(alloc, &mut office, &mut laptop)?;
/// assert_eq!(rt; joined, 1);
/// ```
///
/// # Errors
///
/// [`MessagesError`]
pub fn catch_up_by_messages<
    K: Key + Decode,
    V: Join + Decode,
    H: RowHasher<N, K, V>,
    const N: usize,
>(
    alloc: Global,
    replica: &mut Replica<K, V, H, N>,
    peer: &mut Replica<K, V, H, N>,
) -> Result<usize, MessagesError>
    // New rows of the peer are joined; while digests are faithful, all that this side was missing.
    ensures joined { IfOk result (λ joined. HasJoined H.laws (side replica.old) (side peer.old) joined replica.new.rows) }

    // So it is a catch-up then, and leaves the join of both sides' rows.
    ensures catch_up { IfOk result (λ done. IsFaithfulSession H.laws (side replica.old) (side peer.old)
        → IsCatchUpOf H.laws (side replica.old) (side peer.old) done replica.new.rows) }
    ensures join { OnOk result (IsFaithfulSession H.laws (side replica.old) (side peer.old)
        → IsJoin K.cmp V.eq V.join_of replica.old.rows peer.old.rows replica.new.rows) }

    // Refused, it has joined no row, or the first ones. For its settings it is refused only where the two are not set alike.
    ensures refused { IfErr result (λ error. IsMessagesRefused H.laws (side replica.old) (side peer.old) error replica.new.rows) }

    // Between sides that are set alike and whose rows can be told it ends early only when out of memory.
    ensures memory { IfErr result (IsForMemory H.laws (side replica.old) (side peer.old) K.is_value V.is_value) }

    ensures peer_rows { peer.new.rows ≡ peer.old.rows }
    ensures settings { SameSettings replica.old.tree replica.new.tree }
    ensures peer_settings { SameSettings peer.old.tree peer.new.tree }
{
    let _ = peer.rows();
    let rows = match rows_by_messages(alloc, replica, peer) {
        Ok(rows) => rows,
        Err(error) => return Err(error),
    };
    let count = rows.len();
    match replica.join_rows(rows) {
        Ok(()) => {}
        Err(JoinRefused::Memory(done)) => return Err(MessagesError::Join(done)),
        Err(JoinRefused::NotAscending(_)) => unreachable!(),
    }
    Ok(count)
}

/// Why catch-ups through messages in both directions ended early.
#[derive(Clone, Copy, Debug, PartialEq, Eq, Drop)]
pub enum BothMessagesError {
    /// In the first of them.
    First(MessagesError),
    /// In the second one, after the first joined this many rows.
    Second(usize, MessagesError),
}

impl fmt::Display for BothMessagesError {
    ghost output = { λ error. Some (both_messages_error_text error) };

    fn fmt<W: fmt::Write>(&self, f: &mut fmt::Formatter<W>) -> fmt::Result {
        match self {
            BothMessagesError::First(error) => write!(f, "in the first catch-up {error}"),
            BothMessagesError::Second(_, error) => write!(f, "in the second catch-up {error}"),
        }
    }
}

/// `a` catches up with `b` by messages, and then `b` with `a`. Both then hold the join of their maps, while digests are faithful in what is met
/// before each of the two. It returns how many rows each of them joined.
///
/// # Errors
///
/// [`BothMessagesError`]
pub fn catch_up_both_by_messages<
    K: Key + Decode,
    V: Join + Decode,
    H: RowHasher<N, K, V>,
    const N: usize,
>(
    alloc: Global,
    a: &mut Replica<K, V, H, N>,
    b: &mut Replica<K, V, H, N>,
) -> Result<(usize, usize), BothMessagesError>
    ensures joined { IfOk result (λ joined. HasJoined H.laws (side a.old) (side b.old) joined.0 a.new.rows) }
    ensures joined_back { IfOk result (λ joined. HasJoined H.laws (side b.old) (with_rows (side a.old) a.new.rows) joined.1 b.new.rows) }

    // While digests are faithful before each of them, both then hold the join.
    ensures join { OnOk result (BothHoldTheJoin H.laws a.old b.old a.new b.new) }

    ensures refused { IfErr result (AreBothRefused H.laws a.old b.old a.new b.new) }
    ensures a_settings { SameSettings a.old.tree a.new.tree }
    ensures b_settings { SameSettings b.old.tree b.new.tree }
{
    let first = match catch_up_by_messages(alloc, a, b) {
        Ok(first) => first,
        Err(error) => return Err(BothMessagesError::First(error)),
    };
    match catch_up_by_messages(alloc, b, a) {
        Ok(second) => Ok((first, second)),
        Err(error) => Err(BothMessagesError::Second(first, error)),
    }
}

/// The rows of a peer that a replica lacks, by the messages of a session.
fn rows_by_messages<K: Key + Decode, V: Join + Decode, H: RowHasher<N, K, V>, const N: usize>(
    alloc: Global,
    replica: &mut Replica<K, V, H, N>,
    peer: &mut Replica<K, V, H, N>,
) -> Result<Vec<(K, V)>, MessagesError>
    ensures brought { IfOk result (λ rows. AreBrought H.laws (side replica.old) (side peer.old) rows.items) }
    ensures early { IfErr result (EndsBeforeJoin H.laws (side replica.old) (side peer.old)) }
    ensures memory { IfErr result (IsForMemory H.laws (side replica.old) (side peer.old) K.is_value V.is_value) }
    ensures rows { replica.new.rows ≡ replica.old.rows }
    ensures settings { SameSettings replica.old.tree replica.new.tree }
    ensures peer_rows { peer.new.rows ≡ peer.old.rows }
    ensures peer_settings { SameSettings peer.old.tree peer.new.tree }
{
    let Ok((mut session, mut message)) = begin_without_limits(alloc, replica) else {
        return Err(MessagesError::Session(SessionError::Memory));
    };
    every_tree_is_sound(peer.tree());
    a_replica_in_memory_is_small(peer);
    'exchanges: loop {
        match exchange(alloc, replica, peer, session, message)? {
            Next::Came(rows) => return Ok(rows),
            Next::Ask(next, question) => {
                session = next;
                message = question;
            }
        }
    }
}

/// A catch-up that begins, without limits, and the first message.
fn begin_without_limits<K: Key + Decode, V: Join + Decode, H: RowHasher<N, K, V>, const N: usize>(
    alloc: Global,
    replica: &Replica<K, V, H, N>,
) -> Result<(CatchingUp<K, V>, Vec<u8>), AllocError>
    ensures settings { IfOk result (λ begun. AsksForRoot ⟦<H as Hasher<N, K>>⟧.digest_of N
        (digests_of replica.now.tree) begun.0.asked) }
    ensures asks { IfOk result (λ begun. begun.1.items ≡ question_bytes K.encoding begun.0.asked) }
    ensures keys { IfOk result (λ begun. IsQuestion (IsKeyOf K.cmp replica.now.rows) begun.0.asked) }
    ensures nothing { IfOk result (λ begun. (begun.0.found ≡ nothing) × (begun.0.rounds ≡ 0)) }
    ensures limits { IfOk result (λ begun. begun.0.left ≡ no_limits) }
{
    let (session, message) = CatchingUp::begin(alloc, replica)?;
    Ok((session.within(Limits::none()), message))
}

/// One exchange of messages: the peer's reply is taken.
fn exchange<K: Key + Decode, V: Join + Decode, H: RowHasher<N, K, V>, const N: usize>(
    alloc: Global,
    replica: &mut Replica<K, V, H, N>,
    peer: &mut Replica<K, V, H, N>,
    session: CatchingUp<K, V>,
    message: Vec<u8>,
) -> Result<Next<K, V>, MessagesError>
    requires asks { message.items ≡ question_bytes K.encoding session.asked }
    requires limits { session.left ≡ no_limits }
    ensures exchanged { IfOk result (IsExchange H.laws N K.encoding V.encoding (side replica.old) (side peer.old) session) }
    ensures ascending { IfOk result (λ next. IsMap K.cmp replica.old.rows × IsMap K.cmp peer.old.rows) }
    ensures limits { IfOk result (IfAsks (λ session. session.left ≡ no_limits)) }
    ensures failed { IfErr result (FailsToExchange H.laws N K.encoding V.encoding (side replica.old) (side peer.old) K.is_value V.is_value session) }
    ensures rows { replica.new.rows ≡ replica.old.rows }
    ensures settings { SameSettings replica.old.tree replica.new.tree }
    ensures peer_rows { peer.new.rows ≡ peer.old.rows }
    ensures peer_settings { SameSettings peer.old.tree peer.new.tree }
{
    let reply = match answer(alloc, peer, &message) {
        Ok(reply) => reply,
        Err(error) => return Err(MessagesError::Answer(error)),
    };
    let _ = replica.rows();
    let _ = peer.rows();
    every_tree_is_sound(peer.tree());
    a_map_has_one_tree::<K, H, N>();
    match session.take(replica, &reply) {
        Ok(next) => Ok(next),
        Err(error) => Err(MessagesError::Session(error)),
    }
}
