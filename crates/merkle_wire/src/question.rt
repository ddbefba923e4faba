//! What the asking side asks for, as messages.
ghost use Rattle.std.specs.Prelude.{◌≡◌, ◌≢◌, ◌++◌, List, IfOk, IfErr, [], length};
ghost use Rattle.std.specs.List.{AllByRecursion};
ghost use Rattle.merkle_bytes.specs.Encodings.{AddsBytes};
ghost use Rattle.merkle_bytes.specs.Refusals.{IsMalformed, IsRefusal};
ghost use Rattle.merkle_bytes.specs.Runs.{run_bytes};
ghost use Rattle.merkle_bytes.specs.Counts.{count_bytes};
ghost use Rattle.merkle_wire.specs.Messages.{front};
ghost use Rattle.merkle_wire.specs.Questions.{gaps_bytes, AsksNothing, IsQuestion, question_bytes};

use crate::gaps::OwnedGap;
use crate::message::{Kind, begin, decode_kind};
use crate::settings::{Settings, decode_settings, encode_settings};
use crate::wanted::Wanted;
use merkle_bytes::{
    Decode, DecodeInRun, Encode, EncodeInRun, Expected, KeyRun, ReadError, Reader, decode_run,
    encode_count, encode_run,
};
use std::alloc::{AllocError, Global};

/// What the asking side asks for.
#[derive(Drop)]
pub enum Question<K> {
    /// How many rows there are, and the digest of the root page, where the peer has these settings.
    Root(Settings<K>),
    /// The outlines of the pages over these gaps. Of a page without pages below it the rows are sent in place of the digests of their
    /// values, where the values have this many bytes at most, on average.
    Outlines(u64, Vec<OwnedGap<K>>),
    /// The nodes of the pages over these gaps: as rows, where their values have this many bytes at most, on average, else as digests.
    Nodes(u64, Vec<OwnedGap<K>>),
    /// The rows at these keys.
    RowsAt(Vec<Wanted<K>>),
    /// The rows in these gaps.
    RowsIn(Vec<OwnedGap<K>>),
}

impl<K> Question<K> {
    /// Whether much of the peer's reply may be this side's own: not of what is said of the root, nor of values at keys, which this side lacks or has
    /// with others; of all rows in gaps if `with_rows` is true.
    pub(crate) fn is_shared(&self, with_rows: bool) -> bool {
        match self {
            Question::Root(_) => false,
            Question::Outlines(_, _) => true,
            Question::Nodes(_, _) => true,
            Question::RowsAt(_) => false,
            Question::RowsIn(_) => with_rows,
        }
    }
}

/// The message that asks.
///
/// # Errors
///
/// Out of memory.
pub(crate) fn encode_question<K: Encode>(
    alloc: Global,
    question: &Question<K>,
) -> Result<Vec<u8>, AllocError>
    ensures { IfOk result (λ message. message.items ≡ question_bytes K.encoding question.now) }
{
    match question {
        Question::Root(settings) => {
            let mut message = begin(alloc, Kind::AskRoot)?;
            encode_settings(settings, &mut message)?;
            Ok(message)
        }
        Question::Outlines(most, gaps) => with_most(alloc, Kind::AskOutlines, *most, gaps),
        Question::Nodes(most, gaps) => with_most(alloc, Kind::AskNodes, *most, gaps),
        Question::RowsAt(keys) => with_run(alloc, begin(alloc, Kind::AskRowsAt)?, keys),
        Question::RowsIn(gaps) => with_run(alloc, begin(alloc, Kind::AskRowsIn)?, gaps),
    }
}

/// A message of a kind, a count and gaps.
fn with_most<K: Encode>(
    alloc: Global,
    kind: Kind,
    most: u64,
    gaps: &[OwnedGap<K>],
) -> Result<Vec<u8>, AllocError>
    ensures { IfOk result (λ message. message.items ≡ (front kind ++ count_bytes most) ++ gaps_bytes K.encoding gaps.now) }
{
    let mut message = begin(alloc, kind)?;
    encode_count(most, &mut message)?;
    with_run(alloc, message, gaps)
}

/// A message that goes on with a list.
fn with_run<T: EncodeInRun>(
    alloc: Global,
    begun: Vec<u8>,
    list: &[T],
) -> Result<Vec<u8>, AllocError>
    ensures { IfOk result (AddsBytes begun (run_bytes T.bytes_behind T.last_key [] list.now)) }
{
    let mut message = begun;
    let mut run = KeyRun::new(alloc);
    encode_run(list, &mut run, &mut message)?;
    Ok(message)
}

/// What a message asks for. It reads the bytes in one pass. The keys that it makes take at most 64 times as many bytes.
///
/// ```rust crates/merkle_wire_tests/src/first_calls.rt
/// let (_, message) = CatchingUp::begin(alloc, &laptop)?;
/// match decode_question::<String>(alloc, &message)? {
///     Question::Root(settings) => assert_eq!(rt; settings.level_base, 16),
///     _ => return Err(Fail::new("another question")),
/// }
/// ```
///
/// # Errors
///
/// [`ReadError`]
pub fn decode_question<K: Decode>(alloc: Global, message: &[u8]) -> Result<Question<K>, ReadError>
    ensures asks { IfOk result (λ question. message.now ≡ question_bytes K.encoding question) }
    ensures question { IfOk result (IsQuestion K.is_value) }

    // So a message is read if and only if it asks, unless out of memory; and else the error says where it can't be read on.
    ensures malformed { IfErr result (λ error. IsMalformed error → AsksNothing K.encoding K.is_value message.now) }
    ensures refused { IfErr result (IsRefusal (length message.now) message.now) }
{
    let mut reader = Reader::new(alloc, message);
    match decode_kind(&mut reader)? {
        Kind::AskRoot => {
            let settings = decode_settings(&mut reader)?;
            reader.end()?;
            Ok(Question::Root(settings))
        }
        Kind::AskOutlines => {
            let most = reader.count()?;
            Ok(Question::Outlines(most, last_run(reader)?))
        }
        Kind::AskNodes => {
            let most = reader.count()?;
            Ok(Question::Nodes(most, last_run(reader)?))
        }
        Kind::AskRowsAt => Ok(Question::RowsAt(last_run(reader)?)),
        Kind::AskRowsIn => Ok(Question::RowsIn(last_run(reader)?)),
        _ => Err(reader.unexpected(Expected::Question)),
    }
}

/// The list that the rest of a message is.
fn last_run<T: DecodeInRun>(reader: Reader<'_>) -> Result<Vec<T>, ReadError>
    ensures read { IfOk result (λ list. reader.entry.left.now ≡ run_bytes T.bytes_behind T.last_key [] list.items) }
    ensures entries { IfOk result (λ list. AllByRecursion T.is_entry list.items) }
    ensures refused { IfErr result (IsRefusal reader.entry.total reader.entry.left.now) }
    ensures malformed { IfErr result (λ error. IsMalformed error → (xs : List T) → AllByRecursion T.is_entry xs
        → reader.entry.left.now ≢ run_bytes T.bytes_behind T.last_key [] xs) }
{
    let mut reader = reader;
    let mut run = KeyRun::new(reader.alloc());
    let list = decode_run(&mut run, &mut reader)?;
    reader.end()?;
    Ok(list)
}
