//! The answering side: a reply to a message, with nothing kept between messages.
ghost use Rattle.std.specs.Prelude.{◌≡◌, false, length, IsSome, IsTrue, IfOk, IfErr, Some};
ghost use Rattle.merkle_tree_theory.specs.State.{SameSettings, map_of};
ghost use Rattle.merkle_wire.specs.Faults.{IsUnread, OfMessage, answer_error_text, AreOtherSettings};
ghost use Rattle.merkle_wire.specs.Questions.{AsksNothing};
ghost use Rattle.merkle_wire.specs.Replies.{EndsWithin, IsAnsweredBy, IsAnsweredWithin, AsksWithOthers, IsReply, TellsSettings, root_page_digest, root_bytes};
ghost use Rattle.merkle_wire.specs.Tellings.{IsAnsweredOf, IsOwnReply};

use crate::kept_side::KeptSide;
use crate::message::{Kind, begin};
use crate::outlines::{Telling, tell_pages};
use crate::pages::encode_page;
use crate::question::{Question, decode_question};
use crate::rows_at::tell_values;
use crate::rows_in::tell_rows;
use merkle_bytes::{Decode, Encode, ReadError, encode_count};
use merkle_digest::Key;
use merkle_replica::{Join, Replica, RowHasher};
use std::alloc::{AllocError, AllocFailed, Global};
use std::fmt;

/// The length at which [`answer`] ends a reply: 64 MiB. The asking side asks again for the rest.
pub const MOST_BYTES: usize = 67_108_864;

/// Why a message has no reply. The asking side is to be sent a [`refusal`](crate::refusal).
#[derive(Clone, Copy, Debug, PartialEq, Eq, Drop)]
pub enum AnswerError {
    /// Out of memory.
    Memory,
    /// The bytes are no message.
    Malformed(ReadError),
    /// The asking side has another level base, page format or hasher, or another number of bytes in a digest: nothing would agree.
    OtherSettings,
}

impl From<AllocError> for AnswerError {
    ghost use Rattle.merkle_wire.specs.declared.answering.AnswerError.TheVariants.{Memory};

    ghost from_gives = { λ _ fault. fault ≡ Memory };

    fn from(_error: AllocError) -> Self {
        AnswerError::Memory
    }
}

impl<T: Drop> From<AllocFailed<T>> for AnswerError {
    ghost use Rattle.merkle_wire.specs.declared.answering.AnswerError.TheVariants.{Memory};

    ghost from_gives = { λ _ fault. fault ≡ Memory };

    fn from(_error: AllocFailed<T>) -> Self {
        AnswerError::Memory
    }
}

impl From<ReadError> for AnswerError {
    ghost use Rattle.merkle_bytes.specs.Refusals.{unread};
    ghost use Rattle.merkle_wire.specs.declared.answering.AnswerError.TheVariants.{Malformed, Memory};

    ghost from_gives = { λ error fault. fault ≡ unread Memory Malformed error };

    fn from(error: ReadError) -> Self {
        match error {
            ReadError::Memory => AnswerError::Memory,
            ReadError::Unexpected { .. } => AnswerError::Malformed(error),
        }
    }
}

impl fmt::Display for AnswerError {
    ghost output = { λ error. Some (answer_error_text error) };

    fn fmt<W: fmt::Write>(&self, f: &mut fmt::Formatter<W>) -> fmt::Result {
        match self {
            AnswerError::Memory => f.write_str("out of memory"),
            AnswerError::Malformed(error) => write!(f, "the message is malformed: {error}"),
            AnswerError::OtherSettings => f.write_str(
                "the asking side has another hash key or other tree settings",
            ),
        }
    }
}

/// The reply to a message, as [`answer_within`] gives it with [`MOST_BYTES`]. The replica keeps its rows; pages that lack a digest get it.
///
/// ```rust crates/merkle_wire/src/session.rt
/// let reply = match answer(alloc, peer, &message) {
///     Ok(reply) => reply,
///     Err(error) => return Err(MessagesError::Answer(error)),
/// };
/// ```
///
/// # Errors
///
/// [`AnswerError`]
pub fn answer<K: Key + Decode, V: Join + Encode + Drop, H: RowHasher<N, K, V>, const N: usize>(
    alloc: Global,
    replica: &mut Replica<K, V, H, N>,
    message: &[u8],
) -> Result<Vec<u8>, AnswerError>
    // The message asks, and the reply is that of the rows and the tree.
    ensures answered { IfOk result (IsAnsweredBy H.laws N K.encoding V.encoding replica.old.rows replica.new.tree message.now) }
    ensures within { IfOk result (IsAnsweredWithin K.encoding V.encoding 67108864 message.now) }
    ensures malformed { IfErr result (λ error. IsUnread error → AsksNothing K.encoding K.is_value message.now) }
    ensures other_settings { IfErr result (λ error. AreOtherSettings error → AsksWithOthers H.laws N K.encoding replica.new.tree message.now) }
    ensures rows { replica.new.rows ≡ replica.old.rows }
    ensures settings { SameSettings replica.old.tree replica.new.tree }
{
    answer_within(alloc, replica, message, MOST_BYTES)
}

/// The reply to a message. It has all entries that are asked for, or the first ones: it ends with the entry that brings it to this many bytes, and
/// has at least one. The rows in a gap end in the same way, and nothing follows rows that are cut. The asking side asks for the rest. The replica
/// keeps its rows; pages that lack a digest get one.
///
/// # Errors
///
/// [`AnswerError`]
pub fn answer_within<
    K: Key + Decode,
    V: Join + Encode + Drop,
    H: RowHasher<N, K, V>,
    const N: usize,
>(
    alloc: Global,
    replica: &mut Replica<K, V, H, N>,
    message: &[u8],
    most_bytes: usize,
) -> Result<Vec<u8>, AnswerError>
    ensures answered { IfOk result (IsAnsweredBy H.laws N K.encoding V.encoding replica.old.rows replica.new.tree message.now) }
    ensures within { IfOk result (IsAnsweredWithin K.encoding V.encoding most_bytes message.now) }
    ensures malformed { IfErr result (λ error. IsUnread error → AsksNothing K.encoding K.is_value message.now) }
    ensures other_settings { IfErr result (λ error. AreOtherSettings error → AsksWithOthers H.laws N K.encoding replica.new.tree message.now) }
    ensures rows { replica.new.rows ≡ replica.old.rows }
    ensures settings { SameSettings replica.old.tree replica.new.tree }
{
    match answer_by(alloc, replica, &(), message, most_bytes) {
        Ok(reply) => Ok(reply),
        Err(KeptError::Answer(error)) => Err(error),
        Err(KeptError::Kept(_)) => Err(AnswerError::Memory),
    }
}

/// Why a side whose tree or rows are kept elsewhere has no reply to a message.
#[derive(Drop)]
pub enum KeptError<E> {
    /// The message has none. The asking side is to be sent a [`refusal`](crate::refusal).
    Answer(AnswerError),
    /// The tree or the rows couldn't be read.
    Kept(E),
}

/// The reply to a message of a side whose tree and rows are kept anywhere. It is the reply that [`answer_within`] gives. `beside` has the rows where
/// these stand beside the tree, as a [`KeptRows`](crate::KeptRows) of them does for a tree in memory; it is `()` where the side has them itself. Pages
/// that lack a digest get one.
///
/// # Errors
///
/// [`KeptError`]
pub fn answer_by<
    K: Key + Decode,
    V: Join + Encode + Drop,
    H: RowHasher<N, K, V>,
    S: KeptSide<N, K, V, H, R>,
    R,
    const N: usize,
>(
    alloc: Global,
    side: &mut S,
    beside: &R,
    message: &[u8],
    most_bytes: usize,
) -> Result<Vec<u8>, KeptError<S::Error>>
    ensures answered { S.is_sound side.new → IfOk result (IsAnsweredOf H.laws N K.encoding V.encoding (S.contents side.old beside.now)
        (S.contents side.new beside.now) message.now) }
    ensures within { S.is_sound side.new → IfOk result (IsAnsweredWithin K.encoding V.encoding most_bytes message.now) }
    ensures malformed { IfErr result (OfMessage (λ error. IsUnread error → AsksNothing K.encoding K.is_value message.now)) }
    ensures other_settings { IfErr result (OfMessage (λ error. AreOtherSettings error
        → AsksWithOthers H.laws N K.encoding (S.contents side.new beside.now).tree message.now)) }
    ensures rows { S.is_sound side.new → (S.contents side.new beside.now).rows ≡ (S.contents side.old beside.now).rows }
    ensures map { S.is_sound side.new → map_of (S.contents side.new beside.now).tree ≡ map_of (S.contents side.old beside.now).tree }
    ensures settings { S.is_sound side.new → SameSettings (S.contents side.old beside.now).tree (S.contents side.new beside.now).tree }
    ensures steady { S.is_sound side.new → S.is_sound side.old }
{
    if let Err(error) = side.hash(beside) {
        return Err(KeptError::Kept(error));
    }
    match decode_question::<K>(alloc, message) {
        Ok(question) => reply_to(alloc, side, beside, &question, most_bytes),
        Err(error) => Err(KeptError::Answer(AnswerError::from(error))),
    }
}

/// The reply of a side to a question of its own; none to one with settings of another.
pub(crate) fn own_reply<
    K: Key + Decode,
    V: Join + Encode + Drop,
    H: RowHasher<N, K, V>,
    S: KeptSide<N, K, V, H, R>,
    R,
    const N: usize,
>(
    alloc: Global,
    side: &mut S,
    beside: &R,
    question: &Question<K>,
) -> Result<Option<Vec<u8>>, S::Error>
    ensures own { S.is_sound side.new → IfOk result (IsOwnReply H.laws N K.encoding V.encoding
        (S.contents side.old beside.now) (S.contents side.new beside.now) question.now) }
    ensures rows { S.is_sound side.new → (S.contents side.new beside.now).rows ≡ (S.contents side.old beside.now).rows }
    ensures map { S.is_sound side.new → map_of (S.contents side.new beside.now).tree ≡ map_of (S.contents side.old beside.now).tree }
    ensures settings { S.is_sound side.new → SameSettings (S.contents side.old beside.now).tree (S.contents side.new beside.now).tree }
    ensures steady { S.is_sound side.new → S.is_sound side.old }
{
    side.hash(beside)?;
    match reply_to(alloc, side, beside, question, MOST_BYTES) {
        Ok(reply) => Ok(Some(reply)),
        Err(KeptError::Answer(_)) => Ok(None),
        Err(KeptError::Kept(error)) => Err(error),
    }
}

/// The reply to a question, where the tree is hashed.
fn reply_to<
    K: Key + Decode,
    V: Join + Encode + Drop,
    H: RowHasher<N, K, V>,
    S: KeptSide<N, K, V, H, R>,
    R,
    const N: usize,
>(
    alloc: Global,
    side: &mut S,
    beside: &R,
    question: &Question<K>,
    most_bytes: usize,
) -> Result<Vec<u8>, KeptError<S::Error>>
    requires hashed { S.is_sound side.old → IsSome (S.contents side.old beside.now).tree.root_hash }
    ensures reply { let s = S.contents side.old beside.now in S.is_sound side.new
        → IfOk result (λ r. IsReply H.laws N K.encoding V.encoding s.rows s.tree question.now r.items) }
    ensures within { S.is_sound side.new → IfOk result (λ reply. EndsWithin K.encoding V.encoding most_bytes question.now reply.items) }
    ensures read { IfErr result (OfMessage (λ error. ¬ IsUnread error)) }
    ensures others { IfErr result (OfMessage (λ error. AreOtherSettings error → ¬ TellsSettings H.laws N (S.contents side.new beside.now).tree question.now)) }
    ensures kept { S.is_sound side.new → S.contents side.new beside.now ≡ S.contents side.old beside.now }
    ensures steady { S.is_sound side.new → S.is_sound side.old }
{
    if !tells_settings(side, beside, question) {
        return Err(KeptError::Answer(AnswerError::OtherSettings));
    }
    match tell(alloc, side, beside, question, most_bytes) {
        Ok(reply) => Ok(reply),
        Err(error) => Err(KeptError::Kept(error)),
    }
}

/// Whether a question tells the settings of the tree, where it tells any.
fn tells_settings<
    K: Key + Encode,
    V: Join + Encode,
    H: RowHasher<N, K, V>,
    S: KeptSide<N, K, V, H, R>,
    R,
    const N: usize,
>(side: &S, beside: &R, question: &Question<K>) -> bool
    ensures own { IsTrue result → TellsSettings H.laws N (S.contents side.now beside.now).tree question.now }
    ensures others { result ≡ false → ¬ TellsSettings H.laws N (S.contents side.now beside.now).tree question.now }
{
    match question {
        Question::Root(settings) => side.has_settings(beside, settings),
        Question::Outlines(_, _) => true,
        Question::Nodes(_, _) => true,
        Question::RowsAt(_) => true,
        Question::RowsIn(_) => true,
    }
}

/// What the question asks for.
fn tell<
    K: Key + Decode,
    V: Join + Encode + Drop,
    H: RowHasher<N, K, V>,
    S: KeptSide<N, K, V, H, R>,
    R,
    const N: usize,
>(
    alloc: Global,
    side: &mut S,
    beside: &R,
    question: &Question<K>,
    most_bytes: usize,
) -> Result<Vec<u8>, S::Error>
    requires hashed { S.is_sound side.old → IsSome (S.contents side.old beside.now).tree.root_hash }
    requires settings { TellsSettings H.laws N (S.contents side.old beside.now).tree question.now }
    ensures reply { let s = S.contents side.old beside.now in S.is_sound side.new
        → IfOk result (λ r. IsReply H.laws N K.encoding V.encoding s.rows s.tree question.now r.items) }
    ensures within { S.is_sound side.new → IfOk result (λ reply. EndsWithin K.encoding V.encoding most_bytes question.now reply.items) }
    ensures kept { S.is_sound side.new → S.contents side.new beside.now ≡ S.contents side.old beside.now }
    ensures steady { S.is_sound side.new → S.is_sound side.old }
{
    match question {
        Question::Root(_) => tell_root(alloc, side, beside),
        Question::Outlines(most, gaps) => {
            let telling = Telling {
                with_pages: true,
                most: *most,
            };
            tell_pages(
                alloc,
                side,
                beside,
                Kind::Outlines,
                telling,
                most_bytes,
                gaps,
            )
        }
        Question::Nodes(most, gaps) => {
            let telling = Telling {
                with_pages: false,
                most: *most,
            };
            tell_pages(alloc, side, beside, Kind::Nodes, telling, most_bytes, gaps)
        }
        Question::RowsAt(keys) => tell_values(alloc, side, beside, most_bytes, keys),
        Question::RowsIn(gaps) => tell_rows(alloc, side, beside, most_bytes, gaps),
    }
}

/// The number of rows, and the digest of the root page, or none.
fn tell_root<
    K: Key + Encode,
    V: Join + Encode,
    H: RowHasher<N, K, V>,
    S: KeptSide<N, K, V, H, R>,
    R,
    const N: usize,
>(alloc: Global, side: &mut S, beside: &R) -> Result<Vec<u8>, S::Error>
    requires hashed { S.is_sound side.old → IsSome (S.contents side.old beside.now).tree.root_hash }
    ensures told { let s = S.contents side.old beside.now in S.is_sound side.new
        → IfOk result (λ r. r.items ≡ root_bytes (length s.rows) (root_page_digest K.bytes_of s.tree)) }
    ensures kept { S.is_sound side.new → S.contents side.new beside.now ≡ S.contents side.old beside.now }
    ensures steady { S.is_sound side.new → S.is_sound side.old }
{
    let count = side.count(beside)?;
    let digest = side.root_digest(beside)?;
    let mut bytes = begin(alloc, Kind::Root)?;
    encode_count(count, &mut bytes)?;
    encode_page(digest.as_ref(), &mut bytes)?;
    Ok(bytes)
}
