//! What stands at the front of each message: the version, and the kind of the message.
ghost use Rattle.std.specs.Prelude.{◌≡◌, ◌≢◌, IfOk, IfErr, MatchOption};
ghost use Rattle.merkle_wire.specs.Messages.{kind_byte, front};
ghost use Rattle.merkle_bytes.specs.Reading.{FindsNone, Reads};
ghost use Rattle.merkle_bytes.specs.Refusals.{IsRefusal};
ghost use Rattle.merkle_wire.specs.declared.message.Kind.{Kind as KindOf};

use merkle_bytes::{Expected, ReadError, Reader};
use std::alloc::{AllocError, Global};

/// The version of the messages.
const VERSION: u8 = 1;

/// How many bytes a message has room for at first: as many as most questions for the root have, and each reply to one, so these don't grow.
const ROOM: usize = 64;

/// What a message is.
#[derive(Clone, Copy, Debug, PartialEq, Eq, Drop)]
pub enum Kind {
    /// The asking side wants the number of rows and the digest of the root page.
    AskRoot,
    /// It wants the outlines of the pages over these gaps.
    AskOutlines,
    /// It wants the nodes of the pages over these gaps.
    AskNodes,
    /// It wants the values at these keys.
    AskRowsAt,
    /// It wants the rows in these gaps.
    AskRowsIn,
    /// The number of rows, and the digest of the root page, or none.
    Root,
    /// An outline for each gap, or for the first of them.
    Outlines,
    /// The nodes of the page over each gap, or over the first of them.
    Nodes,
    /// The value at each key, or at the first of them.
    RowsAt,
    /// The rows in each gap, or the first of them.
    RowsIn,
    /// The answering side refuses.
    Refusal,
}

/// The byte of a kind.
fn byte_of(kind: Kind) -> u8
    ensures { result ≡ kind_byte kind }
{
    match kind {
        Kind::AskRoot => 1,
        Kind::AskOutlines => 2,
        Kind::AskNodes => 3,
        Kind::AskRowsAt => 4,
        Kind::AskRowsIn => 5,
        Kind::Root => 129,
        Kind::Outlines => 130,
        Kind::Nodes => 131,
        Kind::RowsAt => 132,
        Kind::RowsIn => 133,
        Kind::Refusal => 255,
    }
}

/// The kind of a byte.
fn kind_of(byte: u8) -> Option<Kind>
    ensures { MatchOption result ((kind : KindOf) → byte ≢ kind_byte kind) (λ kind. byte ≡ kind_byte kind) }
{
    match byte {
        1 => Some(Kind::AskRoot),
        2 => Some(Kind::AskOutlines),
        3 => Some(Kind::AskNodes),
        4 => Some(Kind::AskRowsAt),
        5 => Some(Kind::AskRowsIn),
        129 => Some(Kind::Root),
        130 => Some(Kind::Outlines),
        131 => Some(Kind::Nodes),
        132 => Some(Kind::RowsAt),
        133 => Some(Kind::RowsIn),
        255 => Some(Kind::Refusal),
        _ => None,
    }
}

/// The front of a message.
pub(crate) fn begin(alloc: Global, kind: Kind) -> Result<Vec<u8>, AllocError>
    ensures { IfOk result (λ bytes. bytes.items ≡ front kind) }
{
    let mut bytes = Vec::with_capacity(alloc, ROOM)?;
    bytes.extend_from_slice(&[VERSION, byte_of(kind)])?;
    Ok(bytes)
}

/// Reads the front of a message.
pub(crate) fn decode_kind(reader: &mut Reader<'_>) -> Result<Kind, ReadError>
    ensures read { IfOk result (λ kind. Reads reader.old (front kind) reader.new) }
    ensures total { reader.new.total ≡ reader.old.total }
    ensures refused { IfErr result (IsRefusal reader.old.total reader.old.left.now) }
    ensures malformed { IfErr result (FindsNone front reader.old) }
{
    let Some((version, behind)) = reader.left().split_first() else {
        return Err(reader.unexpected(Expected::Bytes(2)));
    };
    if *version != VERSION {
        return Err(reader.unexpected(Expected::Version));
    }
    let Some((byte, _)) = behind.split_first() else {
        return Err(reader.unexpected(Expected::Bytes(2)));
    };
    let Some(kind) = kind_of(*byte) else {
        return Err(reader.unexpected(Expected::Kind));
    };
    let _front = reader.array::<2>()?;
    Ok(kind)
}

/// A message that refuses what was asked.
///
/// ```rust crates/merkle_delta_tests/src/others.rt
/// match merkle_wire::answer(alloc, peer, message) {
///     Ok(reply) => Ok(reply),
///     Err(AnswerError::Malformed(_)) => Ok(refusal(alloc)?),
///     Err(_) => Err(Fail::new("memory")),
/// }
/// ```
///
/// # Errors
///
/// Out of memory.
pub fn refusal(alloc: Global) -> Result<Vec<u8>, AllocError>
    ensures { IfOk result (λ message. message.items ≡ front Kind.Refusal) }
{
    begin(alloc, Kind::Refusal)
}
